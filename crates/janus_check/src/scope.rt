//! What stands over the declared names where a statement stands.
ghost use Rattle.std.specs.Prelude.{◌≡◌, ◌<◌, ◌≤◌, ◌+◌, ◌^◌, IfSome, MatchOption, length};
ghost use Rattle.janus_meaning.specs.Syntax.{names_of};
ghost use Rattle.janus_meaning.specs.Shape.{kind_at};
ghost use Rattle.janus_slots.specs.Slots.{slot, slot_in};
ghost use Rattle.janus_syntax.specs.Tree.{parameters_view};
ghost use Rattle.janus_syntax.specs.View.{name_of};
ghost use Rattle.janus_check.specs.Names.{shape_in, over, kind_found};
ghost use Rattle.janus_check.specs.Check.{body_sight};
ghost use Rattle.janus_check.specs.Scope.{scoped, IsSeen};

use crate::env::{Env, Kind};
use crate::parameter::{kind_of_parameter, slot_of_parameter};
use crate::table::SymbolTable;
use janus_meaning::limit::PARAMETER_LIMIT;
use janus_syntax::tree::{Name, Parameter};

/// What stands over the declared names.
#[derive(Drop)]
pub enum Scope<'a> {
    /// Nothing: the declared names are in sight.
    Declared,
    /// The parameters alone are in sight, in the body of a procedure.
    Body(&'a [Parameter]),
    /// A local, in its statements, over others.
    Local(&'a Name, Kind, &'a Scope<'a>),
}

/// How many names are in sight, if a `usize` has the count.
pub(crate) fn counted<T: SymbolTable>(env: &T, own: &Env, scope: &Scope) -> Option<usize>
    ensures count { MatchOption result (2 ^ 64 ≤ length (scoped (over (shape_in (T.known env.now).names) own.now.names) scope.now))
        (λ count. count ≡ length (scoped (over (shape_in (T.known env.now).names) own.now.names) scope.now)) }
    ensures small { IfSome result (λ count. count < 2 ^ 64) }
{
    match scope {
        Scope::Declared => Some(env.len() + own.len()),
        Scope::Body(parameters) => Some(count_of_parameters(parameters)),
        Scope::Local(_, _, outer) => match counted(env, own, outer) {
            Some(count) => one_more(count),
            None => None,
        },
    }
}

/// How many names are in sight.
fn len<T: SymbolTable>(env: &T, own: &Env, scope: &Scope) -> usize
    requires small { length (scoped (over (shape_in (T.known env.now).names) own.now.names) scope.now) < 2 ^ 64 }
    ensures { result ≡ length (scoped (over (shape_in (T.known env.now).names) own.now.names) scope.now) }
{
    match counted(env, own, scope) {
        Some(count) => count,
        None => unreachable!(),
    }
}

/// The slot of a name in sight: how many names stand below it.
pub(crate) fn slot_in_scope<T: SymbolTable>(env: &T, own: &Env, scope: &Scope, name: &Name) -> usize
    requires seen { IsSeen (scoped (over (shape_in (T.known env.now).names) own.now.names) scope.now) (name_of name.now) }
    requires small { length (scoped (over (shape_in (T.known env.now).names) own.now.names) scope.now) < 2 ^ 64 }
    ensures { slot_in (names_of (scoped (over (shape_in (T.known env.now).names) own.now.names) scope.now)) (name_of name.now) ≡ slot result }
{
    match scope {
        Scope::Declared => declared_slot(env, own, name),
        Scope::Body(parameters) => slot_of_parameter(parameters, name),
        Scope::Local(local, _, outer) => {
            if name.text == local.text {
                len(env, own, outer)
            } else {
                slot_in_scope(env, own, outer, name)
            }
        }
    }
}

/// The kind of a name, if it is in sight.
pub(crate) fn kind_in_scope<T: SymbolTable>(
    env: &T,
    own: &Env,
    scope: &Scope,
    name: &Name,
) -> Option<Kind>
    ensures { kind_found result ≡ kind_at (name_of name.now) (scoped (over (shape_in (T.known env.now).names) own.now.names) scope.now) }
{
    match scope {
        Scope::Declared => kind_declared(env, own, name),
        Scope::Body(parameters) => kind_of_parameter(parameters, name),
        Scope::Local(local, kind, outer) => {
            if name.text == local.text {
                Some(*kind)
            } else {
                kind_in_scope(env, own, outer, name)
            }
        }
    }
}

/// One more than a count, if a `usize` has it.
fn one_more(count: usize) -> Option<usize>
    ensures { MatchOption result (2 ^ 64 ≤ count + 1) (λ more. more ≡ count + 1) }
{
    if count < usize::MAX {
        Some(count + 1)
    } else {
        None
    }
}

/// How many parameters a body sees.
fn count_of_parameters(parameters: &[Parameter]) -> usize
    ensures { result ≡ length (body_sight (parameters_view parameters.now)) }
{
    if parameters.len() <= PARAMETER_LIMIT {
        parameters.len()
    } else {
        PARAMETER_LIMIT
    }
}

/// The slot of a declared name.
fn declared_slot<T: SymbolTable>(env: &T, own: &Env, name: &Name) -> usize
    requires { IsSeen (over (shape_in (T.known env.now).names) own.now.names) (name_of name.now) }
    ensures { slot_in (names_of (over (shape_in (T.known env.now).names) own.now.names)) (name_of name.now) ≡ slot result }
{
    let older = env.len();
    match own.place(&name.text) {
        Some(index) => older + index,
        None => match env.place(&name.text) {
            Some(index) => index,
            None => unreachable!(),
        },
    }
}

/// The kind of a declared name, if it is one.
pub(crate) fn kind_declared<T: SymbolTable>(env: &T, own: &Env, name: &Name) -> Option<Kind>
    ensures { kind_found result ≡ kind_at (name_of name.now) (over (shape_in (T.known env.now).names) own.now.names) }
{
    match own.kind(&name.text) {
        Some(kind) => Some(kind),
        None => env.kind(&name.text),
    }
}
