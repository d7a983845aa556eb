//! Steps behind which everything is seen alike.
ghost use Rattle.std.specs.Prelude.{◌≡◌, ◌<◌, ◌+◌, IfSome, IsTrue};
ghost use Rattle.janus_meaning.specs.Writes.{IsWritten};
ghost use Rattle.janus_places.specs.Table.{places_in, HasSameLocals};
ghost use Rattle.janus_places.specs.declared.table.Table.{Table as TheTable};
ghost use Rattle.kernel_machine.specs.StepsOfSlices.{steps_on};
ghost use Rattle.kernel_runner.specs.Runner.{Runs, count_of, writes_of, steps_of};
ghost use Rattle.steps_walk.specs.Quiet.{is_quiet as is_quiet_of, is_quiet_form as is_quiet_form_of, LeavesValues, IsSeenAlike};
ghost use Rattle.steps_walk.specs.Standing.{IsHere, IsCodeAt, IsBodyAt, IsTableAt, node_at};
ghost use Rattle.steps_walk.specs.Walk.{runner_of, program_of, calls_in, IsWalking, Moves};

use crate::level::{Level, Spot};
use crate::walk::Walk;
use janus_machine::Book;
use janus_places::{Form, Part};
use kernel_machine::Progress;
use std::sync::ledger::Ledger;

/// Whether neither the first step of a statement nor the last one of its blocks changes a value.
#[inline(always)]
fn is_quiet_form(form: Form) -> bool
    ensures { result ≡ is_quiet_form_of form }
{
    match form {
        Form::Skip | Form::If | Form::Loop => true,
        _ => false,
    }
}

impl Spot {
    /// Whether the next step changes no value.
    #[inline(always)]
    fn is_quiet(&self, inverse: bool) -> bool
        ensures { result ≡ is_quiet_of inverse self.now.part }
    {
        match self.part {
            Part::Begin | Part::End => false,
            Part::Before(form) => inverse || is_quiet_form(form),
            Part::After(form) => !inverse || is_quiet_form(form),
            Part::Enters(form, _) => !inverse || is_quiet_form(form),
            Part::Leaves(form, _) => inverse || is_quiet_form(form),
        }
    }
}

impl<L: Ledger> Walk<L> {
    /// Whether the next step at this level, which is the innermost one, is known to change no value.
    #[inline(always)]
    fn is_quiet(&self, level: &Level) -> bool
        requires walking { IsWalking self.now }
        requires here { IsHere self.now level.now }
        requires code { IsCodeAt self.now (calls_in self.now) level.now.body }
        requires node { level.now.node ≡ node_at self.now level.now.body }
        ensures { IsTrue result → LeavesValues self.now }
    {
        let Some(spot) = self.spot(level) else {
            return false;
        };
        spot.is_quiet(level.inverse)
    }

    /// Whether a body that was met is of the name of a number.
    #[inline(always)]
    fn is_of_number(&self, k: usize, number: usize) -> bool
        ensures { IsTrue result → IsBodyAt self.now number k }
    {
        let Some(body) = self.met.get(k) else {
            return false;
        };
        if body.number != number {
            return false;
        }
        true
    }

    /// Whether the innermost code is that of this body.
    #[tactic(auto, using(crate::proofs::Levels::own_code, crate::proofs::Levels::called_code))]
    #[inline(always)]
    fn stands_in(&self, body: Option<usize>) -> bool
        ensures { IsTrue result → IsCodeAt self.now (calls_in self.now) body }
    {
        let open = self.open_calls();
        let Some(k) = body else {
            return open == 0;
        };
        if open == 0 {
            return false;
        }
        let number = self.open.runner.cursor.open_call(open - 1).procedure;
        self.is_of_number(k, number)
    }

    /// The innermost level, if it is one of the same code as this.
    #[inline(always)]
    fn level_again(&self, last: &Level) -> Option<Level>
        ensures here { IfSome result (IsHere self.now) }
        ensures code { IfSome result (λ level. IsCodeAt self.now (calls_in self.now) level.body) }
        ensures node { IfSome result (λ level. level.node ≡ node_at self.now level.body) }
        ensures same { IfSome result (λ level. level.body ≡ last.now.body) }
    {
        if !self.stands_in(last.body) {
            return None;
        }
        let book = Book {
            code: &self.open.program.book,
            procedures: &self.open.runner.procedures,
        };
        Some(Level {
            body: last.body,
            node: self.node_of(last.body),
            at: self.open.runner.cursor.written_place(&book),
            inverse: self.open.runner.cursor.faces_inverse(),
        })
    }

    /// Whether the same locals are open at this level and at a place of its code.
    #[inline(always)]
    fn has_same_locals(&self, level: &Level, at: usize) -> bool
        ensures { IsTrue result → (t : TheTable) × IsTableAt self.now level.now.body t × (level.now.at < places_in t) × HasSameLocals t level.now.at at }
    {
        let Some(table) = self.table(level) else {
            return false;
        };
        if level.at >= table.len() {
            return false;
        }
        if at >= table.len() {
            return false;
        }
        table.has_same_locals(level.at, at)
    }

    /// The innermost level, if it is one of the same code as this, and the same locals are open there.
    #[inline(always)]
    fn still_in_sight(&self, last: &Level) -> Option<Level>
        ensures here { IfSome result (IsHere self.now) }
        ensures code { IfSome result (λ level. IsCodeAt self.now (calls_in self.now) level.body) }
        ensures node { IfSome result (λ level. level.node ≡ node_at self.now level.body) }
        ensures same { IfSome result (λ level. level.body ≡ last.now.body) }
        ensures locals { IfSome result (λ level. (t : TheTable) × IsTableAt self.now level.body t × (level.at < places_in t)
            × HasSameLocals t level.at last.now.at) }
    {
        let level = self.level_again(last)?;
        if !self.has_same_locals(&level, last.at) {
            return None;
        }
        Some(level)
    }

    /// Takes a step on from this level, which is the innermost one, as `on` does; and tells the innermost level then, if it is known that each expression has
    /// the number there that it had before.
    pub fn on_from(&mut self, level: &Level) -> (Progress, Option<Level>)
        requires walking { IsWalking self.old }
        requires here { IsHere self.old level.now }
        requires code { IsCodeAt self.old (calls_in self.old) level.now.body }
        requires node { level.now.node ≡ node_at self.old level.now.body }
        ensures runs { Runs (program_of self.old) 1 result.0 (runner_of self.old) (runner_of self.new) }
        ensures walks { IsWalking self.new }
        ensures moves { Moves self.old self.new }
        ensures written { IsWritten (steps_on (count_of (runner_of self.old)) 1 result.0) (writes_of (runner_of self.old)) (writes_of (runner_of self.new)) }
        ensures counted { steps_of (runner_of self.new) ≡ steps_of (runner_of self.old) + steps_on (count_of (runner_of self.old)) 1 result.0 }
        ensures alike { IfSome result.1 (IsSeenAlike self.old level.now self.new) }
    {
        let is_quiet = self.is_quiet(level);
        let told = self.on(1);
        if !is_quiet {
            return (told, None);
        }
        match told {
            Progress::Went => (told, self.still_in_sight(level)),
            Progress::Ended(_) | Progress::Stopped(_, _) => (told, None),
        }
    }
}
