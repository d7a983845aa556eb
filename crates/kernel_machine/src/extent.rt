//! How far an undo and a redo can go.

/// How far an undo and a redo can go from the position, and how many nodes there are.
#[derive(Clone, Copy)]
pub struct Extent {
    /// How many cells can be undone.
    pub undo: usize,
    /// How many cells can be redone, along favourites.
    pub redo: usize,
    /// How many nodes there are beside the root.
    pub nodes: usize,
}
