//! The permit to change values without a write.

use std::sync::ledger::{Ledger, Share};

/// The permit to move values from cell to cell, to let them begin and end, and to tell from which place on cells are for results: to all that gives
/// a name another value and is no write. It takes no octets. It is made with the memory of its ledger, and cannot be had otherwise: who has none
/// changes the values of names by writes alone.
#[derive(Drop)]
pub struct Moves<L: Ledger> {
    /// No part of the ledger.
    _share: Share<L>,
}

impl<L: Ledger> Moves<L> {
    /// The permit of a new memory, for a share of no parts.
    pub(crate) fn new(share: Share<L>) -> Moves<L> {
        Moves { _share: share }
    }
}
