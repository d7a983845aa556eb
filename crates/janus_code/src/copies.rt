//! Copies of a tree's parts in memory of their own.

ghost use Rattle.std.specs.Prelude.{◌≡◌, IfOk, MatchResult, Ok, Err};
ghost use Rattle.janus_syntax.specs.Tree.{name_view, exp_view, declaration_view, declarations_view, names_view, parameter_view, parameters_view};

use janus_check::parameter::name_of_parameter;
use janus_syntax::tree::{Declaration, Exp, Name, Parameter};
use std::alloc::{AllocError, Global};

/// Both, if the second is there. Where it is not, the first is let go here, once for all copies, and not at each `?`.
pub(crate) fn both<T: Drop, U, E>(first: T, second: Result<U, E>) -> Result<(T, U), E>
    ensures { MatchResult result (λ x. (x.0 ≡ first) × (second ≡ Ok x.1)) (λ e. second ≡ Err e) }
{
    match second {
        Ok(second) => Ok((first, second)),
        Err(error) => Err(error),
    }
}

/// The same parameters in memory of their own.
pub(crate) fn same_parameters(
    alloc: Global,
    parameters: &[Parameter],
) -> Result<Vec<Parameter>, AllocError>
    ensures { IfOk result (λ copies. parameters_view copies.items ≡ parameters_view parameters.now) }
{
    let mut copies = Vec::new(alloc);
    for parameter in parameters {
        copies.push(same_parameter(parameter)?)?;
    }
    Ok(copies)
}

/// The same parameter in memory of its own.
fn same_parameter(parameter: &Parameter) -> Result<Parameter, AllocError>
    ensures { IfOk result (λ copy. parameter_view copy ≡ parameter_view parameter.now) }
{
    let name = name_of_parameter(parameter).copy()?;
    Ok(match parameter {
        Parameter::Int(_) => Parameter::Int(name),
        Parameter::Array(_) => Parameter::Array(name),
        Parameter::Stack(_) => Parameter::Stack(name),
    })
}

/// The same names in memory of their own.
pub(crate) fn same_names(alloc: Global, names: &[Name]) -> Result<Vec<Name>, AllocError>
    ensures { IfOk result (λ copies. names_view copies.items ≡ names_view names.now) }
{
    let mut copies = Vec::new(alloc);
    for name in names {
        copies.push(name.copy()?)?;
    }
    Ok(copies)
}

/// The same declarations in memory of their own.
pub(crate) fn same_declarations(
    alloc: Global,
    declarations: &[Declaration],
) -> Result<Vec<Declaration>, AllocError>
    ensures { IfOk result (λ copies. declarations_view copies.items ≡ declarations_view declarations.now) }
{
    let mut copies = Vec::new(alloc);
    for declaration in declarations {
        copies.push(same_declaration(declaration)?)?;
    }
    Ok(copies)
}

/// The same declaration in memory of its own.
fn same_declaration(declaration: &Declaration) -> Result<Declaration, AllocError>
    ensures { IfOk result (λ copy. declaration_view copy ≡ declaration_view declaration.now) }
{
    match declaration {
        Declaration::Int(name) => Ok(Declaration::Int(name.copy()?)),
        Declaration::Array(name, length, span) => {
            Ok(Declaration::Array(name.copy()?, *length, *span))
        }
        Declaration::Stack(name) => Ok(Declaration::Stack(name.copy()?)),
    }
}

/// The same two names in memory of their own.
pub(crate) fn two_names(first: &Name, second: &Name) -> Result<(Name, Name), AllocError>
    ensures { IfOk result (λ x. (name_view x.0 ≡ name_view first.now) × (name_view x.1 ≡ name_view second.now)) }
{
    both(first.copy()?, second.copy())
}

/// The same two expressions, each in a box of its own.
pub(crate) fn two_exps(
    alloc: Global,
    first: &Exp,
    second: &Exp,
) -> Result<(Box<Exp>, Box<Exp>), AllocError>
    ensures { IfOk result (λ x. (exp_view x.0.value ≡ exp_view first.now) × (exp_view x.1.value ≡ exp_view second.now)) }
{
    both(first.boxed_copy(alloc)?, second.boxed_copy(alloc))
}

/// The procedure's name and the arguments of a call in memory of their own.
pub(crate) fn same_call(
    alloc: Global,
    called: &Name,
    arguments: &[Name],
) -> Result<(Name, Vec<Name>), AllocError>
    ensures { IfOk result (λ x. (name_view x.0 ≡ name_view called.now) × (names_view x.1.items ≡ names_view arguments.now)) }
{
    both(called.copy()?, same_names(alloc, arguments))
}
