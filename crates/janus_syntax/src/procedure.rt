//! Procedures, and `main`.

ghost use Rattle.std.specs.Prelude.{◌≡◌, List, Bool, IfSome, IfNone};
ghost use Rattle.janus_syntax.specs.Table.{with_procedure};
ghost use Rattle.janus_syntax.specs.Tree.{Name as Named, Cell as Tree, procedure_of, name_view, parameter_view, parameters_view, procedure_view};
ghost use Rattle.janus_syntax.specs.Tree.{declarations_view, block_view, cell_view};
ghost use Rattle.janus_syntax.specs.Tokens.{Token as AToken};
ghost use Rattle.janus_syntax.specs.TextTokens.{views};
ghost use Rattle.janus_syntax.specs.Forms.{Parameters, Procedures, A_procedure};
ghost use Rattle.janus_syntax.specs.Reading.{Reads, IsPart, FailsPart};
ghost use Rattle.janus_syntax.specs.Procedures.{IsParameterOrOther, FailsParameter, IsBracketed, FailsBracketed, IsBehindName, FailsBehindName};
ghost use Rattle.janus_syntax.specs.Procedures.{IsBehindMain, FailsBehindMain, IsMain, IsNext};

use crate::call::name_at;
use crate::cell::declarations;
use crate::fault::What;
use crate::item::{behind_sign, keyword_at, name, sign_at};
use crate::pair::so_far;
use crate::problem::Problem;
use crate::statement::{body, statements};
use crate::text_token::Tokens;
use crate::token::{Keyword, Sign};
use crate::tree::{Cell, Declaration, Name, Parameter, Procedure, Stm};
use std::alloc::Global;

/// A parameter and the tokens behind it, if one begins here.
fn parameter(alloc: Global, tokens: Tokens) -> Result<Option<(Parameter, Tokens)>, Problem>
    ensures { Reads (IsParameterOrOther (views tokens.now)) (FailsParameter (views tokens.now)) result }
{
    if let Some(rest) = keyword_at(Keyword::Int, tokens) {
        let (name, rest) = name(alloc, rest)?;
        let (parameter, rest) = brackets(name, rest)?;
        return Ok(Some((parameter, rest)));
    }
    let Some(rest) = keyword_at(Keyword::Stack, tokens) else {
        return Ok(None);
    };
    let (stack, rest) = name(alloc, rest)?;
    Ok(Some((Parameter::Stack(stack), rest)))
}

/// The parameter of this name, behind that name: an array, if brackets stand here.
fn brackets(name: Name, tokens: Tokens) -> Result<(Parameter, Tokens), Problem>
    ensures { Reads (λ x. IsBracketed (name_view name) (parameter_view x.0) (views tokens.now) (views x.1.now))
        (FailsBracketed (name_view name) (views tokens.now)) result }
{
    let Some(rest) = sign_at(Sign::OpenIndex, tokens) else {
        return Ok((Parameter::Int(name), tokens));
    };
    let rest = behind_sign(Sign::CloseIndex, rest)?;
    Ok((Parameter::Array(name), rest))
}

/// The parameters that stand here, parted by commas, and the tokens behind them.
fn parameters(alloc: Global, tokens: Tokens) -> Result<(Vec<Parameter>, Tokens), Problem>
    ensures { Reads (λ x. IsPart Parameters 0 (parameters_view x.0.items) (views tokens.now) (views x.1.now))
        (FailsPart Parameters 0 (views tokens.now)) result }
{
    let Some((first, after)) = parameter(alloc, tokens)? else {
        return Ok((Vec::new(alloc), tokens));
    };
    let mut parameters = Vec::new(alloc);
    parameters.push(first)?;
    let mut rest = after;
    'parameters: while let Some(behind) = sign_at(Sign::Comma, rest) {
        let Some((next, after)) = parameter(alloc, behind)? else {
            return Err(Problem::Expected {
                what: What::Kind,
                left: behind.len(),
            });
        };
        parameters.push(next)?;
        rest = after;
    }
    Ok((parameters, rest))
}

/// The procedure of this name, behind that name, and the tokens behind it.
fn behind_name(alloc: Global, name: Name, tokens: Tokens) -> Result<(Procedure, Tokens), Problem>
    ensures { Reads (λ x. IsBehindName (name_view name) (procedure_view x.0) (views tokens.now) (views x.1.now))
        (FailsBehindName (name_view name) (views tokens.now)) result }
{
    let (parameters, body, rest) = parameters_and_body(alloc, tokens)?;
    Ok((
        Procedure {
            name,
            parameters,
            body,
        },
        rest,
    ))
}

/// The parameters in parentheses and the body behind a procedure's name, and the tokens behind them.
fn parameters_and_body(
    alloc: Global,
    tokens: Tokens,
) -> Result<(Vec<Parameter>, Vec<Stm>, Tokens), Problem>
    ensures { (name : Named) →
        Reads (λ x. IsBehindName name (procedure_of name (parameters_view x.0.items) (block_view x.1.items)) (views tokens.now) (views x.2.now))
        (FailsBehindName name (views tokens.now)) result }
{
    let rest = behind_sign(Sign::Open, tokens)?;
    let (parameters, rest) = parameters(alloc, rest)?;
    let rest = behind_sign(Sign::Close, rest)?;
    let (body, rest) = body(alloc, rest, 0)?;
    Ok((parameters, body, rest))
}

/// The procedure whose name stands here, where `main` does not, and the tokens behind it.
fn named_procedure(alloc: Global, tokens: Tokens) -> Result<(Procedure, Tokens), Problem>
    ensures { (main : Bool) (cell : Tree) → ((behind : List AToken) → IsMain main (views tokens.now) behind → ⊥) →
        Reads (λ x. IsNext main cell main (with_procedure cell (procedure_view x.0)) (views tokens.now) (views x.1.now))
        (FailsPart (A_procedure main cell) 0 (views tokens.now)) result }
{
    let Some((name, rest)) = name_at(alloc, tokens)? else {
        return Err(Problem::Expected {
            what: What::Name,
            left: tokens.len(),
        });
    };
    let (procedure, rest) = behind_name(alloc, name, rest)?;
    Ok((procedure, rest))
}

/// The declarations and the statements of `main`, behind that keyword, and the tokens behind them.
fn behind_main(
    alloc: Global,
    tokens: Tokens,
) -> Result<(Vec<Declaration>, Vec<Stm>, Tokens), Problem>
    ensures { Reads (λ x. IsBehindMain (declarations_view x.0.items) (block_view x.1.items) (views tokens.now) (views x.2.now))
        (FailsBehindMain (views tokens.now)) result }
{
    let rest = behind_sign(Sign::Open, tokens)?;
    let rest = behind_sign(Sign::Close, rest)?;
    let (declarations, rest) = declarations(alloc, rest)?;
    let (statements, rest) = statements(alloc, rest)?;
    Ok((declarations, statements, rest))
}

/// The tokens behind `main`, if it stands at the front and may stand there.
fn main_at(main: bool, tokens: Tokens) -> Option<Tokens>
    ensures found { IfSome result (λ rest. IsMain main (views tokens.now) (views rest.now)) }
    ensures none { IfNone result ((behind : List AToken) → IsMain main (views tokens.now) behind → ⊥) }
{
    if main {
        keyword_at(Keyword::Main, tokens)
    } else {
        None
    }
}

/// The cell with the procedure or with `main` that stands behind the keyword `procedure`, whether `main` may still follow, and
/// the tokens behind them.
fn next_procedure(
    alloc: Global,
    cell: Cell,
    main: bool,
    tokens: Tokens,
) -> Result<(Cell, bool, Tokens), Problem>
    ensures { Reads (λ x. IsNext main (cell_view cell) x.1 (cell_view x.0) (views tokens.now) (views x.2.now))
        (FailsPart (A_procedure main (cell_view cell)) 0 (views tokens.now)) result }
{
    if let Some(rest) = main_at(main, tokens) {
        let (declarations, statements, rest) = behind_main(alloc, rest)?;
        let whole = Cell {
            declarations,
            statements,
            procedures: cell.procedures,
        };
        return Ok((whole, false, rest));
    }
    let (procedure, rest) = named_procedure(alloc, tokens)?;
    let mut whole = cell;
    whole.procedures.push(procedure)?;
    Ok((whole, main, rest))
}

/// The cell with the procedures that stand behind it, of which one may be `main` or not, and the tokens behind them.
pub(crate) fn procedures(
    alloc: Global,
    cell: Cell,
    main: bool,
    tokens: Tokens,
) -> Result<(Cell, Tokens), Problem>
    ensures { Reads (λ x. IsPart (Procedures main (cell_view cell)) 0 (cell_view x.0) (views tokens.now) (views x.1.now))
        (FailsPart (Procedures main (cell_view cell)) 0 (views tokens.now)) result }
{
    let (mut whole, mut rest) = so_far(cell, tokens);
    let mut may = main;
    'procedures: while let Some(behind) = keyword_at(Keyword::Procedure, rest) {
        let (next, more, after) = next_procedure(alloc, whole, may, behind)?;
        whole = next;
        may = more;
        rest = after;
    }
    Ok((whole, rest))
}
