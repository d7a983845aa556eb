//! Statements and blocks.

ghost use Rattle.std.specs.Prelude.{◌≡◌, ◌<◌, ◌≤◌, ℕ, List, ◌∷◌, true, false};
ghost use Rattle.janus_syntax.specs.declared.token.Span.{Span};
ghost use Rattle.janus_syntax.specs.Tree.{name_view, exp_view, stm_view, block_view};
ghost use Rattle.janus_syntax.specs.Tokens.{Token as AToken, Keyword_of};
ghost use Rattle.janus_syntax.specs.TextTokens.{views};
ghost use Rattle.janus_syntax.specs.Forms.{Body, Local, Statements};
ghost use Rattle.janus_syntax.specs.Grammar.{depth_limit};
ghost use Rattle.janus_syntax.specs.Reading.{Reads, IsPart, FailsPart};
ghost use Rattle.janus_syntax.specs.Statements.{IsStmOrOther, FailsStm, IsAssignment, FailsAssignment, IsIf, FailsIf, IsLoop, FailsLoop, IsLocalInt};
ghost use Rattle.janus_syntax.specs.Statements.{FailsLocalInt, IsLocalStack, FailsLocalStack, opens_construct, IsStm, IsIfBegun, IsLoopBegun, IsIntHead};
ghost use Rattle.janus_syntax.specs.Statements.{IsStackHead, AreStatements, IsOptional, FailsOptional, IsBehindTarget, FailsBehindTarget};

use crate::call::call;
use crate::expression::{DEPTH_LIMIT, boxed_expression};
use crate::fault::What;
use crate::item::{
    behind_delocal, behind_keyword, behind_sign, keyword_at, name, sign_at, update,
    variable_and_stack,
};
use crate::pair::{both, so_far};
use crate::problem::Problem;
use crate::text_token::{TextKind, Tokens};
use crate::token::{Keyword, Sign};
use crate::tree::{Exp, LocalKind, Name, Stm};
use std::alloc::Global;

/// A statement and the tokens behind it, if one begins here, with `depth` constructs open before it.
#[cycle(statement)]
fn statement(alloc: Global, tokens: Tokens, depth: usize) -> Result<Option<(Stm, Tokens)>, Problem>
    requires { depth ≤ depth_limit }
    ensures { Reads (IsStmOrOther depth (views tokens.now)) (FailsStm depth (views tokens.now)) result }
{
    let Some((first, rest)) = tokens.split_first() else {
        return Ok(None);
    };
    match &first.kind {
        TextKind::Name(text) => {
            let name = Name {
                text: String::from_str(alloc, text)?,
                span: first.span,
            };
            let (stm, rest) = swap_or_assignment(alloc, name, rest, depth)?;
            Ok(Some((stm, rest)))
        }
        TextKind::Keyword(keyword) => {
            if opens_construct(*keyword) {
                if depth == DEPTH_LIMIT {
                    return Err(Problem::TooNested { left: tokens.len() });
                }
                let (stm, rest) = construct(alloc, *keyword, rest, depth)?;
                Ok(Some((stm, rest)))
            } else {
                plain_statement(alloc, *keyword, rest)
            }
        }
        _ => Ok(None),
    }
}

/// Whether a keyword begins a construct.
fn opens_construct(keyword: Keyword) -> bool
    ensures { result ≡ opens_construct keyword }
{
    match keyword {
        Keyword::If | Keyword::From | Keyword::Local => true,
        _ => false,
    }
}

/// The construct that this keyword begins, behind that keyword, with `depth` constructs open before it, and the tokens behind it.
// Not inlined, as the next: an assignment would clear the room of their locals too.
#[cycle(statement)]
#[inline(never)]
fn construct(
    alloc: Global,
    keyword: Keyword,
    tokens: Tokens,
    depth: usize,
) -> Result<(Stm, Tokens), Problem>
    requires opens { opens_construct keyword ≡ true }
    requires room { depth < depth_limit }
    ensures { (place : Span) →
        Reads (λ x. IsStm depth (stm_view x.0) (Keyword_of keyword place ∷ views tokens.now) (views x.1.now))
        (FailsStm depth (Keyword_of keyword place ∷ views tokens.now)) result }
{
    match keyword {
        Keyword::If => behind_if(alloc, tokens, depth + 1),
        Keyword::From => behind_from(alloc, tokens, depth + 1),
        _ => behind_local(alloc, tokens, depth + 1),
    }
}

/// The statement that this keyword begins, behind that keyword, and the tokens behind it, where it is no construct; or none begins.
#[inline(never)]
fn plain_statement(
    alloc: Global,
    keyword: Keyword,
    tokens: Tokens,
) -> Result<Option<(Stm, Tokens)>, Problem>
    requires { opens_construct keyword ≡ false }
    ensures { (depth : ℕ) (place : Span) → depth ≤ depth_limit →
        Reads (IsStmOrOther depth (Keyword_of keyword place ∷ views tokens.now)) (FailsStm depth (Keyword_of keyword place ∷ views tokens.now)) result }
{
    match keyword {
        Keyword::Skip => Ok(Some((Stm::Skip, tokens))),
        Keyword::Push => {
            let (variable, stack, rest) = variable_and_stack(alloc, tokens)?;
            Ok(Some((Stm::Push(variable, stack), rest)))
        }
        Keyword::Pop => {
            let (variable, stack, rest) = variable_and_stack(alloc, tokens)?;
            Ok(Some((Stm::Pop(variable, stack), rest)))
        }
        Keyword::Call => {
            let (procedure, arguments, rest) = call(alloc, tokens)?;
            Ok(Some((Stm::Call(procedure, arguments), rest)))
        }
        Keyword::Uncall => {
            let (procedure, arguments, rest) = call(alloc, tokens)?;
            Ok(Some((Stm::Uncall(procedure, arguments), rest)))
        }
        _ => Ok(None),
    }
}

/// A swap of `target` with another name, or an assignment to it, behind that name, and the tokens behind it.
fn swap_or_assignment(
    alloc: Global,
    target: Name,
    tokens: Tokens,
    depth: usize,
) -> Result<(Stm, Tokens), Problem>
    requires { depth ≤ depth_limit }
    ensures { Reads (λ x. IsBehindTarget depth (name_view target) (stm_view x.0) (views tokens.now) (views x.1.now))
        (FailsBehindTarget depth (name_view target) (views tokens.now)) result }
{
    let Some(rest) = sign_at(Sign::Swap, tokens) else {
        return assignment(alloc, target, tokens, depth);
    };
    let (partner, rest) = name(alloc, rest)?;
    Ok((Stm::Swap(target, partner), rest))
}

/// An assignment to `name`, behind that name, and the tokens behind it.
fn assignment(
    alloc: Global,
    name: Name,
    tokens: Tokens,
    depth: usize,
) -> Result<(Stm, Tokens), Problem>
    requires { depth ≤ depth_limit }
    ensures { Reads (λ x. IsAssignment depth (name_view name) (stm_view x.0) (views tokens.now) (views x.1.now))
        (FailsAssignment depth (name_view name) (views tokens.now)) result }
{
    let Some(rest) = sign_at(Sign::OpenIndex, tokens) else {
        let (update, rest) = update(tokens)?;
        let (exp, rest) = boxed_expression(alloc, rest, depth)?;
        return Ok((Stm::Assign(name, update, exp), rest));
    };
    if depth == DEPTH_LIMIT {
        return Err(Problem::TooNested { left: tokens.len() });
    }
    let (index, rest) = boxed_expression(alloc, rest, depth + 1)?;
    let (index, rest) = both(index, behind_sign(Sign::CloseIndex, rest))?;
    let (index, (update, rest)) = both(index, update(rest))?;
    let (index, (exp, rest)) = both(index, boxed_expression(alloc, rest, depth))?;
    Ok((Stm::AssignElement(name, index, update, exp), rest))
}

/// An `if`, behind that keyword, and the tokens behind it. It is one of the `depth` open constructs.
#[cycle(statement)]
fn behind_if(alloc: Global, tokens: Tokens, depth: usize) -> Result<(Stm, Tokens), Problem>
    requires { depth ≤ depth_limit }
    ensures { Reads (λ x. IsIf depth (stm_view x.0) (views tokens.now) (views x.1.now)) (FailsIf depth (views tokens.now)) result }
{
    let (test, rest) = boxed_expression(alloc, tokens, depth)?;
    let (test, rest) = both(test, behind_keyword(Keyword::Then, rest))?;
    let (test, (then_part, rest)) = both(test, body(alloc, rest, depth))?;
    let (test, (else_part, rest)) = both(test, optional_body(alloc, Keyword::Else, rest, depth))?;
    end_of_if(alloc, test, then_part, else_part, rest, depth)
}

/// An `if` of this test and these parts, behind them, and the tokens behind it.
fn end_of_if(
    alloc: Global,
    test: Box<Exp>,
    then_part: Vec<Stm>,
    else_part: Vec<Stm>,
    tokens: Tokens,
    depth: usize,
) -> Result<(Stm, Tokens), Problem>
    requires { depth ≤ depth_limit }
    ensures { (from : List AToken) → IsIfBegun depth (exp_view test.value) (block_view then_part.items) (block_view else_part.items) from (views tokens.now) →
        Reads (λ x. IsIf depth (stm_view x.0) from (views x.1.now)) (FailsIf depth from) result }
{
    let (test, rest) = both(test, behind_keyword(Keyword::Fi, tokens))?;
    let (test, (assertion, rest)) = both(test, boxed_expression(alloc, rest, depth))?;
    Ok((Stm::If(test, then_part, else_part, assertion), rest))
}

/// A loop, behind the keyword `from`, and the tokens behind it. It is one of the `depth` open constructs.
#[cycle(statement)]
fn behind_from(alloc: Global, tokens: Tokens, depth: usize) -> Result<(Stm, Tokens), Problem>
    requires { depth ≤ depth_limit }
    ensures { Reads (λ x. IsLoop depth (stm_view x.0) (views tokens.now) (views x.1.now)) (FailsLoop depth (views tokens.now)) result }
{
    let (assertion, rest) = boxed_expression(alloc, tokens, depth)?;
    let (assertion, (do_part, rest)) = both(
        assertion,
        optional_body(alloc, Keyword::Do, rest, depth),
    )?;
    let (assertion, (loop_part, rest)) = both(
        assertion,
        optional_body(alloc, Keyword::Loop, rest, depth),
    )?;
    end_of_loop(alloc, assertion, do_part, loop_part, rest, depth)
}

/// A loop of this assertion and these parts, behind them, and the tokens behind it.
fn end_of_loop(
    alloc: Global,
    assertion: Box<Exp>,
    do_part: Vec<Stm>,
    loop_part: Vec<Stm>,
    tokens: Tokens,
    depth: usize,
) -> Result<(Stm, Tokens), Problem>
    requires { depth ≤ depth_limit }
    ensures { (from : List AToken) →
        IsLoopBegun depth (exp_view assertion.value) (block_view do_part.items) (block_view loop_part.items) from (views tokens.now) →
        Reads (λ x. IsLoop depth (stm_view x.0) from (views x.1.now)) (FailsLoop depth from) result }
{
    let (assertion, rest) = both(assertion, behind_keyword(Keyword::Until, tokens))?;
    let (assertion, (test, rest)) = both(assertion, boxed_expression(alloc, rest, depth))?;
    Ok((Stm::Loop(assertion, do_part, loop_part, test), rest))
}

/// A local, behind the keyword `local`, and the tokens behind it. It is one of the `depth` open constructs.
#[cycle(statement)]
fn behind_local(alloc: Global, tokens: Tokens, depth: usize) -> Result<(Stm, Tokens), Problem>
    requires { depth ≤ depth_limit }
    ensures { Reads (λ x. IsPart Local depth (stm_view x.0) (views tokens.now) (views x.1.now)) (FailsPart Local depth (views tokens.now)) result }
{
    if let Some(rest) = keyword_at(Keyword::Int, tokens) {
        let (stm, rest) = local_int(alloc, rest, depth)?;
        return Ok((stm, rest));
    }
    let Some(rest) = keyword_at(Keyword::Stack, tokens) else {
        return Err(Problem::Expected {
            what: What::Kind,
            left: tokens.len(),
        });
    };
    let (stm, rest) = local_stack(alloc, rest, depth)?;
    Ok((stm, rest))
}

/// A local number, behind `local int`, and the tokens behind it.
#[cycle(statement)]
fn local_int(alloc: Global, tokens: Tokens, depth: usize) -> Result<(Stm, Tokens), Problem>
    requires { depth ≤ depth_limit }
    ensures { Reads (λ x. IsLocalInt depth (stm_view x.0) (views tokens.now) (views x.1.now)) (FailsLocalInt depth (views tokens.now)) result }
{
    let (name, exp, rest) = head_of_int(alloc, tokens, depth)?;
    let (exp, (statements, rest)) = both(exp, body(alloc, rest, depth))?;
    end_of_int(alloc, name, exp, statements, rest, depth)
}

/// The name of a local number and what it begins with, and the tokens behind them.
fn head_of_int(
    alloc: Global,
    tokens: Tokens,
    depth: usize,
) -> Result<(Name, Box<Exp>, Tokens), Problem>
    requires { depth ≤ depth_limit }
    ensures { Reads (λ x. IsIntHead depth (name_view x.0) (exp_view x.1.value) (views tokens.now) (views x.2.now)) (FailsLocalInt depth (views tokens.now)) result }
{
    let (name, rest) = name(alloc, tokens)?;
    let rest = behind_sign(Sign::Equals, rest)?;
    let (exp, rest) = boxed_expression(alloc, rest, depth)?;
    Ok((name, exp, rest))
}

/// A local number of this head and these statements, behind them, and the tokens behind it.
fn end_of_int(
    alloc: Global,
    name: Name,
    exp: Box<Exp>,
    statements: Vec<Stm>,
    tokens: Tokens,
    depth: usize,
) -> Result<(Stm, Tokens), Problem>
    requires { depth ≤ depth_limit }
    ensures { (from start : List AToken) → IsIntHead depth (name_view name) (exp_view exp.value) from start →
        IsPart Body depth (block_view statements.items) start (views tokens.now) →
        Reads (λ x. IsLocalInt depth (stm_view x.0) from (views x.1.now)) (FailsLocalInt depth from) result }
{
    let (exp, (again, rest)) = both(exp, behind_delocal(alloc, LocalKind::Int, &name, tokens))?;
    let (exp, (test, rest)) = both(exp, boxed_expression(alloc, rest, depth))?;
    Ok((Stm::LocalInt(name, exp, statements, again, test), rest))
}

/// A local stack, behind `local stack`, and the tokens behind it.
#[cycle(statement)]
fn local_stack(alloc: Global, tokens: Tokens, depth: usize) -> Result<(Stm, Tokens), Problem>
    requires { depth ≤ depth_limit }
    ensures { Reads (λ x. IsLocalStack depth (stm_view x.0) (views tokens.now) (views x.1.now)) (FailsLocalStack depth (views tokens.now)) result }
{
    let (name, rest) = head_of_stack(alloc, tokens)?;
    let (statements, rest) = body(alloc, rest, depth)?;
    end_of_stack(alloc, name, statements, rest)
}

/// The name of a local stack, behind which stands `= nil`, and the tokens behind them.
fn head_of_stack(alloc: Global, tokens: Tokens) -> Result<(Name, Tokens), Problem>
    ensures { (depth : ℕ) → Reads (λ x. IsStackHead (name_view x.0) (views tokens.now) (views x.1.now)) (FailsLocalStack depth (views tokens.now)) result }
{
    let (name, rest) = name(alloc, tokens)?;
    let rest = behind_sign(Sign::Equals, rest)?;
    let rest = behind_keyword(Keyword::Nil, rest)?;
    Ok((name, rest))
}

/// A local stack of this name and these statements, behind them, and the tokens behind it.
fn end_of_stack(
    alloc: Global,
    name: Name,
    statements: Vec<Stm>,
    tokens: Tokens,
) -> Result<(Stm, Tokens), Problem>
    ensures { (depth : ℕ) (from start : List AToken) → IsStackHead (name_view name) from start →
        IsPart Body depth (block_view statements.items) start (views tokens.now) →
        Reads (λ x. IsLocalStack depth (stm_view x.0) from (views x.1.now)) (FailsLocalStack depth from) result }
{
    let (again, rest) = behind_delocal(alloc, LocalKind::Stack, &name, tokens)?;
    let rest = behind_keyword(Keyword::Nil, rest)?;
    Ok((Stm::LocalStack(name, statements, again), rest))
}

/// The body behind this keyword, if it stands here; else the block with one `skip`.
#[cycle(statement)]
fn optional_body(
    alloc: Global,
    keyword: Keyword,
    tokens: Tokens,
    depth: usize,
) -> Result<(Vec<Stm>, Tokens), Problem>
    requires { depth ≤ depth_limit }
    ensures { Reads (λ x. IsOptional keyword depth (block_view x.0.items) (views tokens.now) (views x.1.now))
        (FailsOptional keyword depth (views tokens.now)) result }
{
    let Some(rest) = keyword_at(keyword, tokens) else {
        let mut left_out = Vec::new(alloc);
        left_out.push(Stm::Skip)?;
        return Ok((left_out, tokens));
    };
    body(alloc, rest, depth)
}

/// One statement or more, and the tokens behind them.
#[cycle(statement)]
pub(crate) fn body(
    alloc: Global,
    tokens: Tokens,
    depth: usize,
) -> Result<(Vec<Stm>, Tokens), Problem>
    requires { depth ≤ depth_limit }
    ensures { Reads (λ x. IsPart Body depth (block_view x.0.items) (views tokens.now) (views x.1.now)) (FailsPart Body depth (views tokens.now)) result }
{
    let Some((first, rest)) = statement(alloc, tokens, depth)? else {
        return Err(Problem::Expected {
            what: What::Statement,
            left: tokens.len(),
        });
    };
    let mut statements = Vec::new(alloc);
    statements.push(first)?;
    statements_behind(alloc, statements, rest, depth)
}

/// All statements that stand here, put behind those of `before`, and the tokens behind them.
#[cycle(statement)]
fn statements_behind(
    alloc: Global,
    before: Vec<Stm>,
    tokens: Tokens,
    depth: usize,
) -> Result<(Vec<Stm>, Tokens), Problem>
    requires { depth ≤ depth_limit }
    ensures { Reads (λ x. AreStatements depth (block_view before.items) (block_view x.0.items) (views tokens.now) (views x.1.now))
        (FailsPart Statements depth (views tokens.now)) result }
{
    let (mut statements, mut rest) = so_far(before, tokens);
    'statements: while let Some((next, after)) = statement(alloc, rest, depth)? {
        statements.push(next)?;
        rest = after;
    }
    // A tree is kept for long, so it has no room to spare.
    statements.shrink_to_fit();
    Ok((statements, rest))
}

/// All statements that stand here outside of any construct, and the tokens behind them.
pub(crate) fn statements(alloc: Global, tokens: Tokens) -> Result<(Vec<Stm>, Tokens), Problem>
    ensures { Reads (λ x. IsPart Statements 0 (block_view x.0.items) (views tokens.now) (views x.1.now)) (FailsPart Statements 0 (views tokens.now)) result }
{
    statements_behind(alloc, Vec::new(alloc), tokens, 0)
}
