//! From a text to its cell, or its expression.

ghost use Rattle.std.specs.Prelude.{◌≡◌, ◌≤◌, ◌-◌, length, drop};
ghost use Rattle.janus_syntax.specs.Tree.{Cell as Tree, Exp as ExpTree};
ghost use Rattle.janus_syntax.specs.TextTokens.{views};
ghost use Rattle.janus_syntax.specs.Reading.{Within, fault_of};
ghost use Rattle.janus_syntax.specs.Text.{place_before, HasTree, IsParsed, IsOnlyTree, HasExp, IsParsedExp, IsOnlyExp};

use crate::cell::{cell, only_expression};
use crate::fault::SyntaxFault;
use crate::lexer::text_tokens;
use crate::problem::Problem;
use crate::text_token::Tokens;
use crate::token::Span;
use crate::tree::{Cell, Exp};
use std::alloc::Global;

/// The cell that the text is.
///
/// A bad token or a number past the largest is refused before all else, the first in the text. Otherwise the refusal
/// whose token stands first is answered: `Expected` at the first token with which no cell goes on, with an empty span
/// at the text's end if it only begins a cell; `TooNested` at a token that opens a 65th construct (`if`, `from`, `local`,
/// `(` of grouping, `[` of an index, prefix minus) and at the 257th operator of one whole expression, prefix minus counted;
/// `DelocalName` at the kind or the name behind `delocal` that differs from the one behind its `local`.
/// `Memory` promises nothing.
pub fn parse_cell(alloc: Global, text: &str) -> Result<Cell, SyntaxFault>
    // What is read is the text's tree, and a refusal is the one that the text has.
    ensures read { IsParsed text.now result }

    // What has a tree is read as that tree, unless memory runs out.
    ensures only { (tree : Tree) → HasTree text.now tree → IsOnlyTree tree result }
{
    let tokens = text_tokens(alloc, text)?;
    match cell(alloc, &tokens) {
        Ok(cell) => Ok(cell),
        Err(problem) => Err(fault(problem, &tokens, text.len())),
    }
}

/// The expression that the text is, by the same rules: `Expected` stands at the first token with which no expression goes
/// on.
pub fn parse_exp(alloc: Global, text: &str) -> Result<Exp, SyntaxFault>
    // What is read is the text's expression, and a refusal is the one that the text has.
    ensures read { IsParsedExp text.now result }

    // What is an expression is read as that one, unless memory runs out.
    ensures only { (tree : ExpTree) → HasExp text.now tree → IsOnlyExp tree result }
{
    let tokens = text_tokens(alloc, text)?;
    match only_expression(alloc, &tokens) {
        Ok(exp) => Ok(exp),
        Err(problem) => Err(fault(problem, &tokens, text.len())),
    }
}

/// A problem of the tokens as a refusal of their text, which has `end` octets.
fn fault(problem: Problem, tokens: Tokens, end: usize) -> SyntaxFault
    requires { Within problem (length tokens.now) }
    ensures { result ≡ fault_of end (views tokens.now) problem }
{
    match problem {
        Problem::Expected { what, left } => SyntaxFault::Expected(what, place(tokens, left, end)),
        Problem::TooNested { left } => SyntaxFault::TooNested(place(tokens, left, end)),
        Problem::DelocalName { left } => SyntaxFault::DelocalName(place(tokens, left, end)),
        Problem::Memory => SyntaxFault::Memory,
    }
}

/// Where the last `left` tokens of a text begin: at the first of them, or at the text's end.
fn place(tokens: Tokens, left: usize, end: usize) -> Span
    requires { left ≤ length tokens.now }
    ensures { result ≡ place_before end (drop (length tokens.now - left) (views tokens.now)) }
{
    match tokens.get(tokens.len() - left) {
        Some(token) => token.span,
        None => Span { start: end, end },
    }
}
