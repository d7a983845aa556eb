//! How a session goes on.

/// How a session goes on.
#[derive(Clone, Copy)]
pub enum Flow {
    /// The next event is taken.
    Going,
    /// A shutdown was answered.
    Closed,
    /// No number is left for a request.
    Worn,
    /// The desk found no memory to answer.
    OutOfMemory,
}
