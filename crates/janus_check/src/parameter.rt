//! Parameters: their names and kinds, and their check.
ghost use Rattle.std.specs.Prelude.{◌≡◌, [], map, IfOk};
ghost use Rattle.janus_meaning.specs.Shape.{kind_at};
ghost use Rattle.janus_meaning.specs.Syntax.{names_of};
ghost use Rattle.janus_slots.specs.Slots.{slot, slot_in};
ghost use Rattle.janus_syntax.specs.Tree.{name_view, parameter_view, parameters_view};
ghost use Rattle.janus_syntax.specs.View.{name_of, plain_parameter};
ghost use Rattle.janus_check.specs.Names.{kind_found, meant_kind, meant_kinds};
ghost use Rattle.janus_check.specs.Fault.{first_from};
ghost use Rattle.janus_check.specs.Check.{kinds_of, body_sight, parameter_name, parameter_faults, parameters_faults};
ghost use Rattle.janus_check.specs.Sight.{IsSeen};

use crate::env::Kind;
use crate::fault::{CheckFault, sooner};
use janus_meaning::limit::PARAMETER_LIMIT;
use janus_syntax::tree::{Name, Parameter};
use std::alloc::{AllocError, Global};

/// The name of a parameter.
pub fn name_of_parameter(parameter: &Parameter) -> &Name
    ensures name { name_view result.now ≡ parameter_name (parameter_view parameter.now) }
    ensures text { name_of result.now ≡ (plain_parameter (parameter_view parameter.now)).0 }
{
    match parameter {
        Parameter::Int(name) | Parameter::Array(name) | Parameter::Stack(name) => name,
    }
}

/// The kind of a parameter.
pub fn kind_of(parameter: &Parameter) -> Kind
    ensures { meant_kind result ≡ (plain_parameter (parameter_view parameter.now)).1 }
{
    match parameter {
        Parameter::Int(_) => Kind::Number,
        Parameter::Array(_) => Kind::Array,
        Parameter::Stack(_) => Kind::Stack,
    }
}

/// The kinds of parameters, in their order. The only error is want of memory.
pub fn kinds_of(alloc: Global, parameters: &[Parameter]) -> Result<Vec<Kind>, AllocError>
    ensures { IfOk result (λ kinds. meant_kinds kinds.items ≡ kinds_of (parameters_view parameters.now)) }
{
    let mut kinds = Vec::new(alloc);
    for i in 0..parameters.len() {
        kinds.push(kind_of(&parameters[i]))?;
    }
    Ok(kinds)
}

/// The kind of the first parameter of a name, if it is one. Those past the limit are left out.
pub(crate) fn kind_of_parameter(parameters: &[Parameter], name: &Name) -> Option<Kind>
    ensures { kind_found result ≡ kind_at (name_of name.now) (body_sight (parameters_view parameters.now)) }
{
    if parameters.len() <= PARAMETER_LIMIT {
        kind_among(parameters, name)
    } else {
        kind_among(&parameters[..PARAMETER_LIMIT], name)
    }
}

/// The kind of the first parameter of a name, if it is one.
fn kind_among(parameters: &[Parameter], name: &Name) -> Option<Kind>
    ensures { kind_found result ≡ kind_at (name_of name.now) (map plain_parameter (parameters_view parameters.now)) }
{
    for i in 0..parameters.len() {
        let parameter = &parameters[i];
        if name.text == name_of_parameter(parameter).text {
            return Some(kind_of(parameter));
        }
    }
    None
}

/// The slot of a parameter: the first one stands on top. Those past the limit are left out.
pub(crate) fn slot_of_parameter(parameters: &[Parameter], name: &Name) -> usize
    requires { IsSeen (body_sight (parameters_view parameters.now)) (name_of name.now) }
    ensures { slot_in (names_of (body_sight (parameters_view parameters.now))) (name_of name.now) ≡ slot result }
{
    if parameters.len() <= PARAMETER_LIMIT {
        slot_among(parameters, name)
    } else {
        slot_among(&parameters[..PARAMETER_LIMIT], name)
    }
}

/// The slot of a parameter.
fn slot_among(parameters: &[Parameter], name: &Name) -> usize
    requires { IsSeen (map plain_parameter (parameters_view parameters.now)) (name_of name.now) }
    ensures { slot_in (names_of (map plain_parameter (parameters_view parameters.now))) (name_of name.now) ≡ slot result }
{
    for i in 0..parameters.len() {
        if name.text == name_of_parameter(&parameters[i]).text {
            return parameters.len() - 1 - i;
        }
    }
    unreachable!()
}

/// The first fault after the name of a parameter behind others.
fn parameter_fault(
    before: &[Parameter],
    name: &Name,
    first: Option<CheckFault>,
) -> Option<CheckFault>
    ensures { result ≡ first_from first (parameter_faults (parameters_view before.now) (name_view name.now)) }
{
    let mut next = first;
    if kind_of_parameter(before, name).is_some() {
        next = sooner(next, CheckFault::Declared(name.span));
    }
    if before.len() >= PARAMETER_LIMIT {
        next = sooner(next, CheckFault::TooMany(name.span));
    }
    next
}

/// The first fault after the names of parameters.
pub(crate) fn parameters_fault(
    parameters: &[Parameter],
    first: Option<CheckFault>,
) -> Option<CheckFault>
    ensures { result ≡ first_from first (parameters_faults [] (parameters_view parameters.now)) }
{
    let mut next = first;
    for i in 0..parameters.len() {
        next = parameter_fault(&parameters[..i], name_of_parameter(&parameters[i]), next);
    }
    next
}
