//! Declarations, procedures and cells.
ghost use Rattle.std.specs.Prelude.{◌≡◌, IsTrue};
ghost use Rattle.janus_syntax.specs.Tree.{cell_view, declaration_view, declarations_view, parameter_view, parameters_view, procedure_view, procedures_view};

use crate::statement::are_same;
use crate::word::{is_same_name, is_same_span};
use janus_syntax::tree::{Cell, Declaration, Parameter, Procedure};

/// Whether two declarations are the same.
fn is_same_declaration(one: &Declaration, other: &Declaration) -> bool
    ensures { IsTrue result → declaration_view one.now ≡ declaration_view other.now }
{
    match (one, other) {
        (Declaration::Int(x), Declaration::Int(y)) => is_same_name(x, y),
        (Declaration::Array(x, n, at), Declaration::Array(y, m, there)) => {
            is_same_name(x, y) && n == m && is_same_span(*at, *there)
        }
        (Declaration::Stack(x), Declaration::Stack(y)) => is_same_name(x, y),
        _ => false,
    }
}

/// Whether two lists of declarations are the same.
fn are_same_declarations(one: &[Declaration], other: &[Declaration]) -> bool
    ensures { IsTrue result → declarations_view one.now ≡ declarations_view other.now }
{
    if one.len() != other.len() {
        return false;
    }
    for i in 0..one.len() {
        if !is_same_declaration(&one[i], &other[i]) {
            return false;
        }
    }
    true
}

/// Whether two parameters are the same.
fn is_same_parameter(one: &Parameter, other: &Parameter) -> bool
    ensures { IsTrue result → parameter_view one.now ≡ parameter_view other.now }
{
    match (one, other) {
        (Parameter::Int(x), Parameter::Int(y)) => is_same_name(x, y),
        (Parameter::Array(x), Parameter::Array(y)) => is_same_name(x, y),
        (Parameter::Stack(x), Parameter::Stack(y)) => is_same_name(x, y),
        _ => false,
    }
}

/// Whether two lists of parameters are the same.
fn are_same_parameters(one: &[Parameter], other: &[Parameter]) -> bool
    ensures { IsTrue result → parameters_view one.now ≡ parameters_view other.now }
{
    if one.len() != other.len() {
        return false;
    }
    for i in 0..one.len() {
        if !is_same_parameter(&one[i], &other[i]) {
            return false;
        }
    }
    true
}

/// Whether two procedures are the same.
fn is_same_procedure(one: &Procedure, other: &Procedure) -> bool
    ensures { IsTrue result → procedure_view one.now ≡ procedure_view other.now }
{
    is_same_name(&one.name, &other.name)
        && are_same_parameters(&one.parameters, &other.parameters)
        && are_same(&one.body, &other.body)
}

/// Whether two lists of procedures are the same.
fn are_same_procedures(one: &[Procedure], other: &[Procedure]) -> bool
    ensures { IsTrue result → procedures_view one.now ≡ procedures_view other.now }
{
    if one.len() != other.len() {
        return false;
    }
    for i in 0..one.len() {
        if !is_same_procedure(&one[i], &other[i]) {
            return false;
        }
    }
    true
}

/// Whether two cells are the same: each declaration, statement and procedure, with the places of their names and numbers. Where it answers true they are.
pub fn is_same_cell(one: &Cell, other: &Cell) -> bool
    ensures { IsTrue result → cell_view one.now ≡ cell_view other.now }
{
    are_same_declarations(&one.declarations, &other.declarations)
        && are_same(&one.statements, &other.statements)
        && are_same_procedures(&one.procedures, &other.procedures)
}
