//! A node of the tree.

/// A node beside the root: what it holds, and the number of the node above it.
#[derive(Drop)]
pub struct Node<C> {
    /// The number of the node above.
    pub parent: usize,
    /// What the node holds.
    pub content: C,
}
