//! One history for many threads: a list of entries to which only its keeper adds, and of which others have seen beginnings.
//!
//! To the layer above this crate promises that a history has one keeper, which knows all of it, and that what a front has seen is a beginning of
//! what its keeper knows, then and ever after. The keeper lies under a lock; a front goes wherever its holder goes. The entries exist in proofs
//! alone: at run time a keeper is one word, and a front is nothing.
//!
//! `history` has the calls, `rule` and `view` put them in the terms of the base, `atomic_table`.
#![tactic(auto)]

mod history;
mod rule;
mod view;

pub use history::{Beside, Front, HistoryName, Keeper, NewHistory};
pub use rule::HistoryRule;
pub use view::View;
