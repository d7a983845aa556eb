//! The passes that are still to be given.
ghost use Rattle.std.specs.Prelude.{◌≡◌, ◌+◌, ◌≤◌, IfSome, IfNone, map};
ghost use Rattle.kernel_audit.specs.Passes.{pass_of};
ghost use Rattle.kernel_audit.specs.Written.{entry_of};
ghost use Rattle.hall_state.specs.declared.limit.TheConstants.{PASSES, PARTS_OF_POSTS};

use crate::limit::PASSES;
use kernel_audit::{Beside, Entry, HistoryName, Keeper, Note, Pass};
use std::marker::Model;
use std::sync::ledger::Share;

/// How many passes were given, and the parts of the ledger that none of them has: so nobody posts who has neither a pass nor these. Contracts see how many
/// were given.
#[derive(Drop)]
pub struct Passes<L: HistoryName> {
    given: u32,
    rest: Share<L>,
}

impl<L: HistoryName> Model for Passes<L> {
    ghost use Rattle.std.specs.Prelude.{◌≡◌, ◌+◌, ◌≤◌, ℕ};
    ghost use Rattle.hall_state.specs.declared.limit.TheConstants.{PASSES, PARTS_OF_POSTS};

    ghost Value = { ℕ };

    ghost view = { λ p. p.given };

    ghost invariant = { λ p. (p.rest.parts + p.given ≡ PARTS_OF_POSTS) × (p.rest.amount ≡ 0) × (p.given ≤ PASSES) };
}

impl<L: HistoryName> Passes<L> {
    /// No pass is given.
    pub fn new(rest: Share<L>) -> Passes<L>
        requires parts { rest.parts ≡ PARTS_OF_POSTS }
        requires amount { rest.amount ≡ 0 }
        ensures { result ≡ 0 }
    {
        Passes { given: 0, rest }
    }

    /// One more pass, with no posts and no acts, on the next lane, which has seen all of the history and of the notes; `None` where all are given.
    pub fn next(
        &mut self,
        history: &mut Keeper<Entry, L>,
        notes: &mut Keeper<Note, Beside<L>>,
    ) -> Option<Pass<L>>
        ensures pass { IfSome result (λ p. p ≡ pass_of (self.old + 1) 0 0 (map entry_of history.old) notes.old) }
        ensures lane { IfSome result (λ p. (1 ≤ p.lane) × (p.lane ≤ PASSES)) }
        ensures some { IfSome result (λ p. self.new ≡ self.old + 1) }
        ensures none { IfNone result ((self.old ≡ PASSES) × (self.new ≡ self.old)) }
        ensures history { history.new ≡ history.old }
        ensures notes { notes.new ≡ notes.old }
    {
        if self.given >= PASSES {
            return None;
        }
        let share = self.rest.split_off(1, 0);
        self.given += 1;
        Some(Pass::new(self.given, share, history.front(), notes.front()))
    }
}
