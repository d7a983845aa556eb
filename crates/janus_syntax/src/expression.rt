//! Expressions.

ghost use Rattle.std.specs.Prelude.{◌≡◌, ℕ, ◌<◌, ◌≤◌, ◌≢◌, Some, IfSome, IfNone, IfOk};
ghost use Rattle.janus_syntax.specs.declared.operator.Infix as code;
ghost use Rattle.janus_syntax.specs.Tree.{exp_view, name_view};
ghost use Rattle.janus_syntax.specs.TextTokens.{views};
ghost use Rattle.janus_syntax.specs.Operators.{joined};
ghost use Rattle.janus_syntax.specs.Forms.{Whole};
ghost use Rattle.janus_syntax.specs.Grammar.{operator_limit, depth_limit};
ghost use Rattle.janus_syntax.specs.Reader.{next};
ghost use Rattle.janus_syntax.specs.Reading.{Reads, IsPart, FailsPart, IsExp, FailsExp, IsOperator, IsSeen, seen_operator, IsIndexed, FailsIndexed};

use crate::fault::What;
use crate::item::{behind_sign, sign_at, stack};
use crate::operator::{Infix, Joint, infix_of};
use crate::pair::both;
use crate::problem::Problem;
use crate::text_token::{TextKind, Tokens};
use crate::token::{Keyword, Sign};
use crate::tree::{Exp, Name};
use std::alloc::{AllocError, Global};

/// The level of the operators that bind weakest.
const WEAKEST: u8 = 8;

/// The most operators that one whole expression may have.
const OPERATOR_LIMIT: usize = 256;

/// The most constructs that may be open at once.
pub(crate) const DEPTH_LIMIT: usize = 64;

/// Two expressions with an operator between them.
fn join(alloc: Global, joint: Joint, left: Exp, right: Exp) -> Result<Exp, AllocError>
    ensures { IfOk result (λ exp. exp_view exp ≡ joined joint (exp_view left) (exp_view right)) }
{
    let (right, left) = both(right, Box::new(alloc, left))?;
    let right = Box::new(alloc, right)?;
    Ok(match joint {
        Joint::Binary(operator) => Exp::Binary(operator, left, right),
        Joint::And => Exp::And(left, right),
        Joint::Or => Exp::Or(left, right),
    })
}

/// An operand, and the tokens behind it, with `depth` constructs open and `used` operators of its whole expression before it.
#[cycle(expression)]
fn operand(
    alloc: Global,
    tokens: Tokens,
    depth: usize,
    used: usize,
) -> Result<(Exp, usize, Tokens), Problem>
    requires room { depth ≤ depth_limit }
    requires few { used ≤ operator_limit }
    ensures { Reads (λ x. IsExp 0 depth used (exp_view x.0) x.1 (views tokens.now) (views x.2.now)) (FailsExp 0 depth used (views tokens.now)) result }
{
    let Some((first, rest)) = tokens.split_first() else {
        return Err(Problem::Expected {
            what: What::Expression,
            left: 0,
        });
    };
    match &first.kind {
        TextKind::Number(number) => Ok((Exp::Number(*number, first.span), used, rest)),
        TextKind::Name(text) => {
            let name = Name {
                text: String::from_str(alloc, text)?,
                span: first.span,
            };
            index(alloc, name, rest, depth, used)
        }
        TextKind::Sign(sign) => match sign {
            Sign::Open => {
                if depth == DEPTH_LIMIT {
                    return Err(Problem::TooNested { left: tokens.len() });
                }
                let (inner, used, rest) = expression(alloc, rest, WEAKEST, depth + 1, used)?;
                let (inner, rest) = both(inner, behind_sign(Sign::Close, rest))?;
                Ok((inner, used, rest))
            }
            Sign::Minus => {
                if depth == DEPTH_LIMIT || used == OPERATOR_LIMIT {
                    return Err(Problem::TooNested { left: tokens.len() });
                }
                let (inner, used, rest) = operand(alloc, rest, depth + 1, used + 1)?;
                Ok((Exp::Negative(Box::new(alloc, inner)?), used, rest))
            }
            _ => Err(Problem::Expected {
                what: What::Expression,
                left: tokens.len(),
            }),
        },
        TextKind::Keyword(keyword) => match keyword {
            Keyword::Empty => {
                let (stack, rest) = stack(alloc, rest)?;
                Ok((Exp::Empty(stack), used, rest))
            }
            Keyword::Top => {
                let (stack, rest) = stack(alloc, rest)?;
                Ok((Exp::Top(stack), used, rest))
            }
            _ => Err(Problem::Expected {
                what: What::Expression,
                left: tokens.len(),
            }),
        },
    }
}

/// An element of the array `name`, or the variable if no index stands here.
#[cycle(expression)]
fn index(
    alloc: Global,
    name: Name,
    tokens: Tokens,
    depth: usize,
    used: usize,
) -> Result<(Exp, usize, Tokens), Problem>
    requires room { depth ≤ depth_limit }
    requires few { used ≤ operator_limit }
    ensures { Reads (λ x. IsIndexed depth used (name_view name) (exp_view x.0) x.1 (views tokens.now) (views x.2.now))
        (FailsIndexed depth used (name_view name) (views tokens.now)) result }
{
    let Some(rest) = sign_at(Sign::OpenIndex, tokens) else {
        return Ok((Exp::Variable(name), used, tokens));
    };
    if depth == DEPTH_LIMIT {
        return Err(Problem::TooNested { left: tokens.len() });
    }
    let (inner, used, rest) = expression(alloc, rest, WEAKEST, depth + 1, used)?;
    let (inner, rest) = both(inner, behind_sign(Sign::CloseIndex, rest))?;
    Ok((Exp::Element(name, Box::new(alloc, inner)?), used, rest))
}

/// The operator of this level that the tokens begin with, and the tokens behind it.
fn operator_at(tokens: Tokens, level: u8) -> Option<(Infix, Tokens)>
    ensures found { IfSome result (λ x. IsOperator level x.0 (views tokens.now) (views x.1.now)) }
    ensures none { IfNone result ((op : code.Infix) → seen_operator (next (views tokens.now)) ≡ Some op → op.level ≢ level) }
{
    let (first, rest) = tokens.split_first()?;
    match &first.kind {
        TextKind::Sign(sign) => {
            let operator = infix_of(*sign)?;
            if operator.level == level {
                Some((operator, rest))
            } else {
                None
            }
        }
        _ => None,
    }
}

/// The level of the operator that the tokens begin with, if it binds weaker than the level `stronger` and not weaker than `weakest`.
fn level_at(tokens: Tokens, stronger: u8, weakest: u8) -> Option<u8>
    ensures found { IfSome result (λ level. IsSeen level (views tokens.now)) }
    ensures between { IfSome result (λ level. (stronger < level) × (level ≤ weakest)) }
    ensures none { IfNone result ((op : code.Infix) → seen_operator (next (views tokens.now)) ≡ Some op → stronger < op.level → op.level ≤ weakest → ⊥) }
{
    let first = tokens.first()?;
    match &first.kind {
        TextKind::Sign(sign) => {
            let level = infix_of(*sign)?.level;
            if stronger < level && level <= weakest {
                Some(level)
            } else {
                None
            }
        }
        _ => None,
    }
}

/// The longest expression at the front whose operators have at most the level `weakest`, with `depth` constructs open and
/// `used` operators of its whole expression before it. Gives the expression, how many operators the whole expression has
/// behind it, and the tokens behind it.
#[cycle(expression)]
fn expression(
    alloc: Global,
    tokens: Tokens,
    weakest: u8,
    depth: usize,
    used: usize,
) -> Result<(Exp, usize, Tokens), Problem>
    requires room { depth ≤ depth_limit }
    requires few { used ≤ operator_limit }
    requires level { weakest ≤ 8 }
    ensures { Reads (λ x. IsExp weakest depth used (exp_view x.0) x.1 (views tokens.now) (views x.2.now))
        (FailsExp weakest depth used (views tokens.now)) result }
{
    let (mut left, mut total, mut rest) = operand(alloc, tokens, depth, used)?;
    let mut stronger: u8 = 0;
    // Levels of which no operator stands here are passed over.
    'levels: while let Some(level) = level_at(rest, stronger, weakest) {
        stronger = level - 1;
        'operators: while let Some((operator, behind)) = operator_at(rest, stronger + 1) {
            if total == OPERATOR_LIMIT {
                return Err(Problem::TooNested { left: rest.len() });
            }
            let (before, (right, now_total, after)) = both(
                left,
                expression(alloc, behind, stronger, depth, total + 1),
            )?;
            left = join(alloc, operator.joint, before, right)?;
            total = now_total;
            rest = after;
        }
        stronger += 1;
    }
    Ok((left, total, rest))
}

/// A whole expression at the front, and the tokens behind it, with `depth` constructs open before it.
pub(crate) fn whole_expression(
    alloc: Global,
    tokens: Tokens,
    depth: usize,
) -> Result<(Exp, Tokens), Problem>
    requires { depth ≤ depth_limit }
    ensures { Reads (λ x. IsPart Whole depth (exp_view x.0) (views tokens.now) (views x.1.now)) (FailsPart Whole depth (views tokens.now)) result }
{
    let (exp, _, rest) = expression(alloc, tokens, WEAKEST, depth, 0)?;
    Ok((exp, rest))
}

/// A whole expression at the front, in a box, and the tokens behind it, with `depth` constructs open before it.
pub(crate) fn boxed_expression(
    alloc: Global,
    tokens: Tokens,
    depth: usize,
) -> Result<(Box<Exp>, Tokens), Problem>
    requires { depth ≤ depth_limit }
    ensures { Reads (λ x. IsPart Whole depth (exp_view x.0.value) (views tokens.now) (views x.1.now)) (FailsPart Whole depth (views tokens.now)) result }
{
    let (exp, rest) = whole_expression(alloc, tokens, depth)?;
    Ok((Box::new(alloc, exp)?, rest))
}
