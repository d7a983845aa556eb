//! What the words of a command line choose.

/// How many steps a cell may take, and whether each refused text is explained.
#[derive(Clone, Copy)]
pub struct Choice {
    /// A cell that has not ended after so many steps is interrupted.
    pub steps: u64,
    /// A second line tells by line and column why a text is refused.
    pub explains: bool,
}
