//! Values as names are declared with them.

/// What a name is declared as.
#[derive(Drop)]
pub(crate) enum Declared {
    Number,
    /// Its elements.
    Array(Vec<i32>),
    Stack,
}
