//! The names in sight of a statement or an expression, and the procedures that its calls see.
ghost use Rattle.std.specs.Prelude.{◌≡◌, ◌<◌, ◌≤◌, ◌^◌, ◌∷◌, None, Some, IfSome, MatchOption, length};
ghost use Rattle.janus_meaning.specs.Syntax.{names_of};
ghost use Rattle.janus_meaning.specs.Shape.{kind_at, head_at};
ghost use Rattle.janus_slots.specs.Slots.{slot, slot_in};
ghost use Rattle.janus_syntax.specs.Tree.{name_view, parameters_view};
ghost use Rattle.janus_syntax.specs.View.{name_of};
ghost use Rattle.janus_check.specs.Names.{shape_in, over, kind_found, meant_kind, meant_kinds};
ghost use Rattle.janus_check.specs.Fault.{first_from};
ghost use Rattle.janus_check.specs.Check.{use_faults, sight_faults, shadow_faults, body_sight};
ghost use Rattle.janus_check.specs.Scope.{IsSeen};
ghost use Rattle.janus_check.specs.Sight.{in_sight, heads_over, heads_seen};

use crate::env::{Env, Kind};
use crate::fault::{CheckFault, sooner};
use crate::scope::{Scope, counted, kind_in_scope, slot_in_scope};
use crate::table::SymbolTable;
use janus_syntax::tree::{Name, Parameter};
use std::marker::Model;

/// The names in sight, and the procedures: those that are known already, and over them the cell's own. Contracts see them as two lists, the newest first.
#[derive(Drop)]
pub struct Sight<'a, T: SymbolTable> {
    env: &'a T,
    own: &'a Env,
    scope: Scope<'a>,
}

impl<'a, T: SymbolTable> Model for Sight<'a, T> {
    ghost use Rattle.janus_check.specs.Seen.{Seen, seen_over};

    ghost Value = { Seen };

    ghost view = { λ s. seen_over (T.known s.env.now) s.own.now s.scope };
}

impl<'a, T: SymbolTable> Sight<'a, T> {
    /// What the statements of a cell see: the names that are known, and over them its own.
    pub(crate) fn declared(env: &'a T, own: &'a Env) -> Sight<'a, T>
        ensures names { in_sight result ≡ over (shape_in (T.known env.now).names) own.now.names }
        ensures heads { heads_seen result ≡ heads_over (T.known env.now) own.now }
    {
        Sight {
            env,
            own,
            scope: Scope::Declared,
        }
    }

    /// How many names are in sight, if a `usize` has the count.
    pub fn counted(&self) -> Option<usize>
        ensures count { MatchOption result (2 ^ 64 ≤ length (in_sight self.now)) (λ count. count ≡ length (in_sight self.now)) }
        ensures small { IfSome result (λ count. count < 2 ^ 64) }
    {
        counted(self.env, self.own, &self.scope)
    }

    /// How many names are in sight.
    pub fn len(&self) -> usize
        requires small { length (in_sight self.now) < 2 ^ 64 }
        ensures { result ≡ length (in_sight self.now) }
    {
        match self.counted() {
            Some(count) => count,
            None => unreachable!(),
        }
    }

    /// The slot of a name in sight: how many names stand below it.
    pub fn slot(&self, name: &Name) -> usize
        requires seen { IsSeen (in_sight self.now) (name_of name.now) }
        requires small { length (in_sight self.now) < 2 ^ 64 }
        ensures { slot_in (names_of (in_sight self.now)) (name_of name.now) ≡ slot result }
    {
        slot_in_scope(self.env, self.own, &self.scope, name)
    }

    /// What the body of a procedure sees: its parameters alone, and the same procedures.
    pub fn body(&self, parameters: &'a [Parameter]) -> Sight<'a, T>
        ensures names { in_sight result ≡ body_sight (parameters_view parameters.now) }
        ensures heads { heads_seen result ≡ heads_seen self.now }
    {
        Sight {
            env: self.env,
            own: self.own,
            scope: Scope::Body(parameters),
        }
    }

    /// What the statements of a local see: it stands over the others.
    pub fn local<'b>(&'b self, name: &'b Name, kind: Kind) -> Sight<'b, T>
        ensures names { in_sight result ≡ (name_of name.now, meant_kind kind) ∷ in_sight self.now }
        ensures heads { heads_seen result ≡ heads_seen self.now }
    {
        Sight {
            env: self.env,
            own: self.own,
            scope: Scope::Local(name, kind, &self.scope),
        }
    }

    /// The kind of a name, if it is in sight.
    fn kind(&self, name: &Name) -> Option<Kind>
        ensures { kind_found result ≡ kind_at (name_of name.now) (in_sight self.now) }
    {
        kind_in_scope(self.env, self.own, &self.scope, name)
    }

    /// The kinds of the parameters of a procedure that calls see, if it is one.
    pub(crate) fn head(&self, name: &Name) -> Option<&'a [Kind]>
        ensures { MatchOption result (head_at (name_of name.now) (heads_seen self.now) ≡ None)
            (λ kinds. head_at (name_of name.now) (heads_seen self.now) ≡ Some (meant_kinds kinds.now)) }
    {
        head_defined(self.env, self.own, name)
    }
}

/// The kinds of a procedure's parameters, if it is one.
fn head_defined<'a, T: SymbolTable>(env: &'a T, own: &'a Env, name: &Name) -> Option<&'a [Kind]>
    ensures { MatchOption result (head_at (name_of name.now) (heads_over (T.known env.now) own.now) ≡ None)
        (λ kinds. head_at (name_of name.now) (heads_over (T.known env.now) own.now) ≡ Some (meant_kinds kinds.now)) }
{
    match own.head(&name.text) {
        Some(kinds) => Some(kinds),
        None => env.head(&name.text),
    }
}

/// The first fault after a name that is used as one of this kind.
pub(crate) fn use_fault<T: SymbolTable>(
    sight: &Sight<T>,
    kind: Kind,
    name: &Name,
    first: Option<CheckFault>,
) -> Option<CheckFault>
    ensures { result ≡ first_from first (use_faults (in_sight sight.now) (meant_kind kind) (name_view name.now)) }
{
    match sight.kind(name) {
        None => sooner(first, CheckFault::Unknown(name.span)),
        Some(found) if found != kind => sooner(first, CheckFault::WrongKind(name.span)),
        Some(_) => first,
    }
}

/// The first fault after the name of a local.
pub(crate) fn shadow_fault<T: SymbolTable>(
    sight: &Sight<T>,
    name: &Name,
    first: Option<CheckFault>,
) -> Option<CheckFault>
    ensures { result ≡ first_from first (shadow_faults (in_sight sight.now) (name_view name.now)) }
{
    match sight.kind(name) {
        None => first,
        Some(_) => sooner(first, CheckFault::Shadow(name.span)),
    }
}

/// The first fault after a name that is used as one of any kind.
pub(crate) fn sight_fault<T: SymbolTable>(
    sight: &Sight<T>,
    name: &Name,
    first: Option<CheckFault>,
) -> Option<CheckFault>
    ensures { result ≡ first_from first (sight_faults (in_sight sight.now) (name_view name.now)) }
{
    match sight.kind(name) {
        None => sooner(first, CheckFault::Unknown(name.span)),
        Some(_) => first,
    }
}
