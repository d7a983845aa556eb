//! Where a walk stands, in the cell and in each open call.
ghost use Rattle.std.specs.Prelude.{◌≡◌, ◌≤◌, ◌<◌, IfSome, IsSome, true, false};
ghost use Rattle.janus_machine.specs.Whereabouts.{IsWrittenAt, faces_inverse};
ghost use Rattle.janus_places.specs.declared.table.Table.{Table as TheTable};
ghost use Rattle.steps_walk.specs.Stops.{is_stop, has_end, TellsStop};

use crate::walk::Walk;
use janus_machine::Book;
use janus_places::{Form, Part, Table};
use janus_syntax::Span;
use std::sync::ledger::Ledger;

/// A place in the code of a cell or of a procedure's body, as that is written.
#[derive(Clone, Copy)]
pub struct Level {
    /// The index of the body among those that were met; none where it is the open cell's own code.
    pub(crate) body: Option<usize>,
    /// The node of the cell whose text has the code; none of the open cell.
    pub node: Option<usize>,
    /// The place in the code.
    pub at: usize,
    /// Whether the inverse of the code runs there.
    pub inverse: bool,
}

/// What stands at a level.
#[derive(Clone, Copy)]
pub struct Spot {
    pub part: Part,
    pub span: Option<Span>,
}

impl<L: Ledger> Walk<L> {
    ghost use Rattle.janus_places.specs.Table.{places_in};
    ghost use Rattle.steps_walk.specs.Walk.{calls_in, IsWalking};
    ghost use Rattle.std.specs.Option.{MatchOption};
    ghost use Rattle.std.specs.Prelude.{None, Some};
    ghost use Rattle.steps_walk.specs.Standing.{IsHere, IsCodeAt, IsCalledAt, IsTableAt, IsPlaceOf, TellsSpot, TellsPlace, name_of, node_at, way_at};
    ghost use Rattle.steps_walk.specs.Standing.{IsLevelMet, IsMetHere};

    /// How many calls are open.
    pub fn open_calls(&self) -> usize
        ensures { result ≡ calls_in self.now }
    {
        self.open.runner.cursor.open_calls()
    }

    /// Where the walk stands in the innermost code, for i as many as there are open calls; else where the i-th open call stands, the outermost being 0.
    /// None if its body wasn't met.
    #[tactic(auto, using(crate::proofs::Levels::own_code, crate::proofs::Levels::called_code, crate::proofs::Levels::here_at))]
    pub fn level(&self, i: usize) -> Option<Level>
        requires { i ≤ calls_in self.now }
        ensures here { IfSome result (λ level. i ≡ calls_in self.now → IsHere self.now level) }
        ensures call { IfSome result (λ level. i < calls_in self.now → IsPlaceOf self.now i level.at) }
        ensures faces { IfSome result (λ level. level.inverse ≡ faces_inverse (way_at self.now i)) }
        ensures code { IfSome result (λ level. IsCodeAt self.now i level.body) }
        ensures node { IfSome result (λ level. level.node ≡ node_at self.now level.body) }
        ensures met { IsLevelMet self.now i → IsSome result }
    {
        let body = match self.called(i) {
            None => None,
            Some(number) => Some(self.body_of(number)?),
        };
        let node = self.node_of(body);
        let inverse = self.faces_inverse(i);
        let at = self.place_in(i);
        Some(Level {
            body,
            node,
            at,
            inverse,
        })
    }

    /// The innermost level. None if the body there wasn't met.
    pub fn level_here(&self) -> Option<Level>
        ensures here { IfSome result (IsHere self.now) }
        ensures code { IfSome result (λ level. IsCodeAt self.now (calls_in self.now) level.body) }
        ensures node { IfSome result (λ level. level.node ≡ node_at self.now level.body) }
        ensures met { IsMetHere self.now → IsSome result }
    {
        self.level(self.open_calls())
    }

    /// Where the walk stands, and what stands there in the text. None if the body there wasn't met.
    pub fn stand(&self) -> Option<(Level, Spot)>
        ensures tells { IfSome result (TellsPlace self.now) }
        ensures here { IfSome result (λ told. IsHere self.now told.0) }
        ensures code { IfSome result (λ told. IsCodeAt self.now (calls_in self.now) told.0.body) }
        ensures node { IfSome result (λ told. told.0.node ≡ node_at self.now told.0.body) }
        ensures met { IsWalking self.now → IsMetHere self.now → IsSome result }
    {
        let level = self.level(self.open_calls())?;
        let spot = self.spot(&level)?;
        Some((level, spot))
    }

    /// The place in the innermost code, for i as many as there are open calls; else that of the i-th open call in its caller's code.
    #[tactic(auto, using(crate::proofs::Levels::place_of_call))]
    fn place_in(&self, i: usize) -> usize
        requires { i ≤ calls_in self.now }
        ensures here { i ≡ calls_in self.now →
            IsWrittenAt self.now.open.runner.procedures self.now.open.program.book self.now.open.runner.cursor result }
        ensures call { i < calls_in self.now → IsPlaceOf self.now i result }
    {
        if i < self.open_calls() {
            return self.open.runner.cursor.open_call(i).place;
        }
        let book = Book {
            code: &self.open.program.book,
            procedures: &self.open.runner.procedures,
        };
        self.open.runner.cursor.written_place(&book)
    }

    /// Whether the inverse runs in the code of the i-th open call's caller, and in the innermost for i as many as there are open calls: each call that is
    /// uncalled turns round.
    #[tactic(auto, using(crate::proofs::Calls::turned_out, crate::proofs::Calls::same_out))]
    fn faces_inverse(&self, i: usize) -> bool
        requires { i ≤ calls_in self.now }
        ensures { result ≡ faces_inverse (way_at self.now i) }
    {
        let mut inverse = self.open.runner.cursor.faces_inverse();
        let mut left = self.open_calls();
        while left > i {
            left -= 1;
            if self.open.runner.cursor.open_call(left).uncalled {
                inverse = !inverse;
            }
        }
        inverse
    }

    /// The number of the procedure in whose body the i-th level stands; none for the outermost, which is the cell's own code.
    #[tactic(auto, using(crate::proofs::Levels::called_at))]
    fn called(&self, i: usize) -> Option<usize>
        requires { i ≤ calls_in self.now }
        ensures { IsCalledAt self.now i result }
    {
        if i == 0 {
            return None;
        }
        Some(self.open.runner.cursor.open_call(i - 1).procedure)
    }

    /// The node of the cell whose text has a code.
    pub(crate) fn node_of(&self, body: Option<usize>) -> Option<usize>
        ensures { result ≡ node_at self.now body }
    {
        match self.met.get(body?) {
            Some(body) => body.node,
            None => None,
        }
    }

    /// The name of the procedure in which a level stands; none in the cell's own code.
    pub fn procedure_name(&self, level: &Level) -> Option<&str>
        ensures { MatchOption result (name_of self.now level.now ≡ None) (λ name. name_of self.now level.now ≡ Some name.now) }
    {
        let Some(body) = self.met.get(level.body?) else {
            return None;
        };
        if body.number >= self.open.runner.entries.len() {
            return None;
        }
        Some(self.open.runner.entries.name(body.number))
    }

    /// The table of the code in which a level stands.
    #[inline(always)]
    pub(crate) fn table(&self, level: &Level) -> Option<&Table>
        ensures some { IfSome result (λ table. IsTableAt self.now level.now.body table.now) }
        ensures met { (t : TheTable) → IsTableAt self.now level.now.body t → IsSome result }
    {
        match level.body {
            None => Some(&self.block),
            Some(k) => match self.met.get(k) {
                Some(body) => Some(&body.table),
                None => None,
            },
        }
    }

    /// Whether the next step begins a statement, or makes one of its tests, or is the first or the last of its code.
    pub fn is_at_stop(&self) -> bool
        requires walking { IsWalking self.now }
        requires met { IsMetHere self.now }
        ensures { TellsStop self.now result }
    {
        match self.stand() {
            Some((level, spot)) => spot.is_stop(level.inverse),
            None => unreachable!(),
        }
    }

    /// What stands there in the text.
    #[inline(always)]
    pub fn spot(&self, level: &Level) -> Option<Spot>
        ensures some { IfSome result (λ spot. (t : TheTable) × IsTableAt self.now level.now.body t × TellsSpot t level.now.at spot) }
        ensures met { (t : TheTable) → IsTableAt self.now level.now.body t → level.now.at < places_in t → IsSome result }
    {
        let table = self.table(level)?;
        if level.at >= table.len() {
            return None;
        }
        let (part, span) = table.spot(level.at);
        Some(Spot { part, span })
    }
}

impl Spot {
    /// Whether the next step begins a statement, or makes one of its tests, or is the first or the last: code stands before a statement where it runs as it
    /// is written, and behind it where its inverse runs.
    pub fn is_stop(&self, inverse: bool) -> bool
        ensures { result ≡ is_stop inverse self.now.part }
    {
        match self.part {
            Part::Begin | Part::End => true,
            Part::Before(_) => !inverse,
            Part::After(_) => inverse,
            Part::Leaves(form, _) => !inverse && has_end(form),
            Part::Enters(form, _) => inverse && has_end(form),
        }
    }
}

/// Whether a statement has a test or a local at its end.
fn has_end(form: Form) -> bool
    ensures { result ≡ has_end form }
{
    match form {
        Form::If | Form::Loop | Form::LocalInt | Form::LocalStack => true,
        _ => false,
    }
}
