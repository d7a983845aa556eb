//! The check of calls.
ghost use Rattle.std.specs.Prelude.{◌≡◌, [], length};
ghost use Rattle.janus_syntax.specs.Tree.{name_view, names_view};
ghost use Rattle.janus_syntax.specs.View.{name_of};
ghost use Rattle.janus_check.specs.Names.{meant_kinds};
ghost use Rattle.janus_check.specs.Fault.{first_from};
ghost use Rattle.janus_check.specs.Check.{is_among, same_faults, twice_faults, loose_faults, kinds_faults, call_faults};
ghost use Rattle.janus_check.specs.Sight.{in_sight, heads_seen};

use crate::env::Kind;
use crate::fault::{CheckFault, sooner};
use crate::sight::{Sight, sight_fault, use_fault};
use crate::table::SymbolTable;
use janus_syntax::tree::Name;

/// The first fault after a call of a procedure with these arguments.
pub(crate) fn call_fault<T: SymbolTable>(
    sight: &Sight<T>,
    called: &Name,
    arguments: &[Name],
    first: Option<CheckFault>,
) -> Option<CheckFault>
    ensures { result ≡ first_from first (call_faults (heads_seen sight.now) (in_sight sight.now) (name_view called.now) (names_view arguments.now)) }
{
    let next = twice_fault(arguments, first);
    match sight.head(called) {
        None => loose_fault(
            sight,
            arguments,
            sooner(next, CheckFault::Unknown(called.span)),
        ),
        Some(kinds) if kinds.len() == arguments.len() => {
            kinds_fault(sight, kinds, arguments, next)
        }
        Some(_) => loose_fault(
            sight,
            arguments,
            sooner(next, CheckFault::Arity(called.span)),
        ),
    }
}

/// Whether a name stands among others.
fn is_among(name: &Name, names: &[Name]) -> bool
    ensures { result ≡ is_among (name_of name.now) (names_view names.now) }
{
    for i in 0..names.len() {
        if name.text == names[i].text {
            return true;
        }
    }
    false
}

/// The first fault after the arguments that are given twice.
fn twice_fault(arguments: &[Name], first: Option<CheckFault>) -> Option<CheckFault>
    ensures { result ≡ first_from first (twice_faults [] (names_view arguments.now)) }
{
    let mut next = first;
    for i in 0..arguments.len() {
        next = same_fault(&arguments[..i], &arguments[i], next);
    }
    next
}

/// The first fault after an argument behind others.
fn same_fault(before: &[Name], argument: &Name, first: Option<CheckFault>) -> Option<CheckFault>
    ensures { result ≡ first_from first (same_faults (names_view before.now) (name_view argument.now)) }
{
    if is_among(argument, before) {
        sooner(first, CheckFault::SameArgument(argument.span))
    } else {
        first
    }
}

/// The first fault after arguments whose kinds aren't compared.
fn loose_fault<T: SymbolTable>(
    sight: &Sight<T>,
    arguments: &[Name],
    first: Option<CheckFault>,
) -> Option<CheckFault>
    ensures { result ≡ first_from first (loose_faults (in_sight sight.now) (names_view arguments.now)) }
{
    let mut next = first;
    for i in 0..arguments.len() {
        next = sight_fault(sight, &arguments[i], next);
    }
    next
}

/// The first fault after arguments for parameters of these kinds, which are as many.
fn kinds_fault<T: SymbolTable>(
    sight: &Sight<T>,
    kinds: &[Kind],
    arguments: &[Name],
    first: Option<CheckFault>,
) -> Option<CheckFault>
    requires { length kinds.now ≡ length arguments.now }
    ensures { result ≡ first_from first (kinds_faults (in_sight sight.now) (meant_kinds kinds.now) (names_view arguments.now)) }
{
    let mut next = first;
    for i in 0..arguments.len() {
        next = use_fault(sight, kinds[i], &arguments[i], next);
    }
    next
}
