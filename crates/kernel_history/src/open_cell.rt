//! A posted cell that is open, taken out of its history.
use crate::tree::HistoryTree;
use kernel_loader::{Program, Runner};
use std::sync::ledger::Ledger;

/// A posted cell that is open: the runner that stands in it, its program, and the tree with the cells before it.
#[derive(Drop)]
pub struct OpenCell<L: Ledger> {
    pub runner: Runner<L>,
    pub program: Program,
    pub tree: HistoryTree,
}
