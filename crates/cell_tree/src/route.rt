//! The way from one node to another.

/// How many steps the way from one node to another goes up, and how many it then goes down.
#[derive(Clone, Copy, Debug)]
pub struct Route {
    /// The steps up, to the node where the paths to both meet.
    pub up: usize,
    /// The steps down from there.
    pub down: usize,
}
