//! What is known of a history. No value of this type is made: it stands in contracts alone.
use std::collections::LinkedList;

/// What a keeper or a front knows.
pub struct View<E> {
    /// Whether it is the keeper's.
    pub keeps: bool,
    /// The beginning of the history that it has seen.
    pub seen: LinkedList<E>,
    /// A beginning that it was shown by another, to be compared.
    pub shown: LinkedList<E>,
}
