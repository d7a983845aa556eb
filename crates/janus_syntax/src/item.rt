//! Single tokens: fixed ones, names, numbers.

ghost use Rattle.std.specs.Prelude.{◌≡◌, List, IfSome, IfNone};
ghost use Rattle.janus_syntax.specs.Tree.{name_view};
ghost use Rattle.janus_syntax.specs.Tokens.{Token as AToken};
ghost use Rattle.janus_syntax.specs.TextTokens.{views};
ghost use Rattle.janus_syntax.specs.Forms.{The_keyword, The_sign, A_name, A_number, An_update, Same_kind, Same_name, keyword_kind};
ghost use Rattle.janus_syntax.specs.Statements.{IsDelocal, FailsDelocal};
ghost use Rattle.janus_syntax.specs.Reading.{Reads, TokenGoes, TokenFails, IsStack, FailsStack, IsVariableAndStack, FailsVariableAndStack, BeginsWith};
ghost use Rattle.janus_syntax.specs.Reading.{BeginsWithSign};

use crate::fault::What;
use crate::operator;
use crate::problem::Problem;
use crate::text_token::{TextKind, Tokens};
use crate::token::{Keyword, Sign, Span};
use crate::tree::{LocalKind, Name, Update};
use std::alloc::Global;

/// The tokens behind this sign, if it stands at the front.
pub(crate) fn sign_at(sign: Sign, tokens: Tokens) -> Option<Tokens>
    ensures found { IfSome result (λ rest. BeginsWithSign sign (views tokens.now) (views rest.now)) }
    ensures none { IfNone result ((behind : List AToken) → BeginsWithSign sign (views tokens.now) behind → ⊥) }
{
    let (first, rest) = tokens.split_first()?;
    match &first.kind {
        TextKind::Sign(found) => { if *found == sign { Some(rest) } else { None } }
        _ => None,
    }
}

/// Behind this sign.
pub(crate) fn behind_sign(sign: Sign, tokens: Tokens) -> Result<Tokens, Problem>
    ensures { Reads (λ rest. TokenGoes (The_sign sign) tt (views tokens.now) (views rest.now)) (TokenFails (The_sign sign) (views tokens.now)) result }
{
    match sign_at(sign, tokens) {
        Some(rest) => Ok(rest),
        None => Err(Problem::Expected {
            what: What::Sign(sign),
            left: tokens.len(),
        }),
    }
}

/// The tokens behind this keyword, if it stands at the front.
pub(crate) fn keyword_at(keyword: Keyword, tokens: Tokens) -> Option<Tokens>
    ensures found { IfSome result (λ rest. BeginsWith keyword (views tokens.now) (views rest.now)) }
    ensures none { IfNone result ((behind : List AToken) → BeginsWith keyword (views tokens.now) behind → ⊥) }
{
    let (first, rest) = tokens.split_first()?;
    match &first.kind {
        TextKind::Keyword(found) => { if *found == keyword { Some(rest) } else { None } }
        _ => None,
    }
}

/// Behind this keyword.
pub(crate) fn behind_keyword(keyword: Keyword, tokens: Tokens) -> Result<Tokens, Problem>
    ensures { Reads (λ rest. TokenGoes (The_keyword keyword) tt (views tokens.now) (views rest.now))
        (TokenFails (The_keyword keyword) (views tokens.now)) result }
{
    match keyword_at(keyword, tokens) {
        Some(rest) => Ok(rest),
        None => Err(Problem::Expected {
            what: What::Keyword(keyword),
            left: tokens.len(),
        }),
    }
}

/// A name, and the tokens behind it.
pub(crate) fn name(alloc: Global, tokens: Tokens) -> Result<(Name, Tokens), Problem>
    ensures { Reads (λ x. TokenGoes A_name (name_view x.0) (views tokens.now) (views x.1.now)) (TokenFails A_name (views tokens.now)) result }
{
    let Some((first, rest)) = tokens.split_first() else {
        return Err(Problem::Expected {
            what: What::Name,
            left: 0,
        });
    };
    match &first.kind {
        TextKind::Name(text) => Ok((
            Name {
                text: String::from_str(alloc, text)?,
                span: first.span,
            },
            rest,
        )),
        _ => Err(Problem::Expected {
            what: What::Name,
            left: tokens.len(),
        }),
    }
}

/// The name of a stack in parentheses, and the tokens behind them.
pub(crate) fn stack(alloc: Global, tokens: Tokens) -> Result<(Name, Tokens), Problem>
    ensures { Reads (λ x. IsStack (name_view x.0) (views tokens.now) (views x.1.now)) (FailsStack (views tokens.now)) result }
{
    let rest = behind_sign(Sign::Open, tokens)?;
    let (stack, rest) = name(alloc, rest)?;
    let rest = behind_sign(Sign::Close, rest)?;
    Ok((stack, rest))
}

/// The names of a variable and a stack in parentheses, and the tokens behind them.
pub(crate) fn variable_and_stack(
    alloc: Global,
    tokens: Tokens,
) -> Result<(Name, Name, Tokens), Problem>
    ensures { Reads (λ x. IsVariableAndStack (name_view x.0) (name_view x.1) (views tokens.now) (views x.2.now))
        (FailsVariableAndStack (views tokens.now)) result }
{
    let rest = behind_sign(Sign::Open, tokens)?;
    let (variable, rest) = name(alloc, rest)?;
    let rest = behind_sign(Sign::Comma, rest)?;
    let (stack, rest) = name(alloc, rest)?;
    let rest = behind_sign(Sign::Close, rest)?;
    Ok((variable, stack, rest))
}

/// A number, where it stands, and the tokens behind it.
pub(crate) fn number(tokens: Tokens) -> Result<(u32, Span, Tokens), Problem>
    ensures { Reads (λ x. TokenGoes A_number (x.0, x.1) (views tokens.now) (views x.2.now)) (TokenFails A_number (views tokens.now)) result }
{
    let Some((first, rest)) = tokens.split_first() else {
        return Err(Problem::Expected {
            what: What::Number,
            left: 0,
        });
    };
    match &first.kind {
        TextKind::Number(number) => Ok((*number, first.span, rest)),
        _ => Err(Problem::Expected {
            what: What::Number,
            left: tokens.len(),
        }),
    }
}

/// The kind that a keyword is.
fn kind_of(keyword: Keyword) -> Option<LocalKind>
    ensures { result ≡ keyword_kind keyword }
{
    match keyword {
        Keyword::Int => Some(LocalKind::Int),
        Keyword::Stack => Some(LocalKind::Stack),
        _ => None,
    }
}

/// Behind this kind; another one is refused as such.
fn same_kind(kind: LocalKind, tokens: Tokens) -> Result<Tokens, Problem>
    ensures { Reads (λ rest. TokenGoes (Same_kind kind) kind (views tokens.now) (views rest.now)) (TokenFails (Same_kind kind) (views tokens.now)) result }
{
    let Some((first, rest)) = tokens.split_first() else {
        return Err(Problem::Expected {
            what: What::Kind,
            left: 0,
        });
    };
    let found = match &first.kind {
        TextKind::Keyword(keyword) => kind_of(*keyword),
        _ => None,
    };
    match found {
        Some(found) => {
            if found == kind {
                Ok(rest)
            } else {
                Err(Problem::DelocalName { left: tokens.len() })
            }
        }
        None => Err(Problem::Expected {
            what: What::Kind,
            left: tokens.len(),
        }),
    }
}

/// This name where it stands at the front, and the tokens behind it; another one is refused as such.
fn same_name<'a>(
    alloc: Global,
    name: &Name,
    tokens: Tokens<'a>,
) -> Result<(Name, Tokens<'a>), Problem>
    ensures { Reads (λ x. TokenGoes (Same_name (name_view name.now)) (name_view x.0) (views tokens.now) (views x.1.now))
        (TokenFails (Same_name (name_view name.now)) (views tokens.now)) result }
{
    let Some((first, rest)) = tokens.split_first() else {
        return Err(Problem::Expected {
            what: What::Name,
            left: 0,
        });
    };
    match &first.kind {
        TextKind::Name(text) => {
            if name.text.as_str() == *text {
                let text = String::from_str(alloc, text)?;
                Ok((
                    Name {
                        text,
                        span: first.span,
                    },
                    rest,
                ))
            } else {
                Err(Problem::DelocalName { left: tokens.len() })
            }
        }
        _ => Err(Problem::Expected {
            what: What::Name,
            left: tokens.len(),
        }),
    }
}

/// `delocal`, this kind, this name and `=`: the name where it stands here, and the tokens behind them.
pub(crate) fn behind_delocal<'a>(
    alloc: Global,
    kind: LocalKind,
    name: &Name,
    tokens: Tokens<'a>,
) -> Result<(Name, Tokens<'a>), Problem>
    ensures { Reads (λ x. IsDelocal kind (name_view name.now) (name_view x.0) (views tokens.now) (views x.1.now))
        (FailsDelocal kind (name_view name.now) (views tokens.now)) result }
{
    let rest = behind_keyword(Keyword::Delocal, tokens)?;
    let rest = same_kind(kind, rest)?;
    let (again, rest) = same_name(alloc, name, rest)?;
    let rest = behind_sign(Sign::Equals, rest)?;
    Ok((again, rest))
}

/// The operator of an assignment, and the tokens behind it.
pub(crate) fn update(tokens: Tokens) -> Result<(Update, Tokens), Problem>
    ensures { Reads (λ x. TokenGoes An_update x.0 (views tokens.now) (views x.1.now)) (TokenFails An_update (views tokens.now)) result }
{
    let Some((first, rest)) = tokens.split_first() else {
        return Err(Problem::Expected {
            what: What::Operator,
            left: 0,
        });
    };
    match &first.kind {
        TextKind::Sign(sign) => match operator::update_of(*sign) {
            Some(update) => Ok((update, rest)),
            None => Err(Problem::Expected {
                what: What::Operator,
                left: tokens.len(),
            }),
        },
        _ => Err(Problem::Expected {
            what: What::Operator,
            left: tokens.len(),
        }),
    }
}
