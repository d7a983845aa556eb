//! Calls, behind their keyword.

ghost use Rattle.std.specs.Prelude.{IfOk};
ghost use Rattle.janus_syntax.specs.Tree.{name_view, names_view};
ghost use Rattle.janus_syntax.specs.TextTokens.{views};
ghost use Rattle.janus_syntax.specs.Reading.{Reads};
ghost use Rattle.janus_syntax.specs.Statements.{IsNameOrOther, AreNames, FailNames, IsCall, FailsCall};

use crate::item::{behind_sign, name, sign_at};
use crate::problem::Problem;
use crate::text_token::{TextKind, Tokens};
use crate::token::Sign;
use crate::tree::Name;
use std::alloc::{AllocError, Global};

/// A name and names in parentheses, and the tokens behind them.
pub(crate) fn call(alloc: Global, tokens: Tokens) -> Result<(Name, Vec<Name>, Tokens), Problem>
    ensures { Reads (λ x. IsCall (name_view x.0) (names_view x.1.items) (views tokens.now) (views x.2.now)) (FailsCall (views tokens.now)) result }
{
    let (procedure, rest) = name(alloc, tokens)?;
    let rest = behind_sign(Sign::Open, rest)?;
    let (arguments, rest) = names(alloc, rest)?;
    let rest = behind_sign(Sign::Close, rest)?;
    Ok((procedure, arguments, rest))
}

/// The names that stand here, parted by commas, and the tokens behind them.
fn names(alloc: Global, tokens: Tokens) -> Result<(Vec<Name>, Tokens), Problem>
    ensures { Reads (λ x. AreNames (names_view x.0.items) (views tokens.now) (views x.1.now)) (FailNames (views tokens.now)) result }
{
    let Some((first, after)) = name_at(alloc, tokens)? else {
        return Ok((Vec::new(alloc), tokens));
    };
    let mut names = Vec::new(alloc);
    names.push(first)?;
    let mut rest = after;
    'names: while let Some(behind) = sign_at(Sign::Comma, rest) {
        let (next, after) = name(alloc, behind)?;
        names.push(next)?;
        rest = after;
    }
    Ok((names, rest))
}

/// The name at the front and the tokens behind it, if one stands there; the only error is want of memory.
pub(crate) fn name_at(alloc: Global, tokens: Tokens) -> Result<Option<(Name, Tokens)>, AllocError>
    ensures { IfOk result (IsNameOrOther (views tokens.now)) }
{
    let Some((first, rest)) = tokens.split_first() else {
        return Ok(None);
    };
    match &first.kind {
        TextKind::Name(text) => {
            let text = String::from_str(alloc, text)?;
            Ok(Some((
                Name {
                    text,
                    span: first.span,
                },
                rest,
            )))
        }
        _ => Ok(None),
    }
}
