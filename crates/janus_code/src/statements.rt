//! Statements made of copies of their parts; an error for want of memory.

ghost use Rattle.std.specs.Prelude.{◌≡◌, IfOk};
ghost use Rattle.janus_syntax.specs.Tree.{name_view, names_view, exp_view, block_view, stm_view, Assign, AssignElement, Push, Pop, Swap, If, Loop};
ghost use Rattle.janus_syntax.specs.Tree.{LocalInt, LocalStack, Call, Uncall};

use crate::copies::{both, same_call, two_exps, two_names};
use janus_syntax::tree::{Exp, Name, Stm, Update};
use std::alloc::{AllocError, Global};

/// An assignment.
pub(crate) fn assign_of(
    alloc: Global,
    name: &Name,
    update: Update,
    exp: &Exp,
) -> Result<Stm, AllocError>
    ensures { IfOk result (λ s. stm_view s ≡ Assign (name_view name.now) update (exp_view exp.now)) }
{
    let (name, exp) = both(name.copy()?, exp.boxed_copy(alloc))?;
    Ok(Stm::Assign(name, update, exp))
}

/// An assignment to an element.
pub(crate) fn element_of(
    alloc: Global,
    name: &Name,
    index: &Exp,
    update: Update,
    exp: &Exp,
) -> Result<Stm, AllocError>
    ensures { IfOk result (λ s. stm_view s ≡ AssignElement (name_view name.now) (exp_view index.now) update (exp_view exp.now)) }
{
    let name = name.copy()?;
    let (index, exp) = two_exps(alloc, index, exp)?;
    Ok(Stm::AssignElement(name, index, update, exp))
}

/// A `push`.
pub(crate) fn push_of(variable: &Name, stack: &Name) -> Result<Stm, AllocError>
    ensures { IfOk result (λ s. stm_view s ≡ Push (name_view variable.now) (name_view stack.now)) }
{
    let (variable, stack) = two_names(variable, stack)?;
    Ok(Stm::Push(variable, stack))
}

/// A `pop`.
pub(crate) fn pop_of(variable: &Name, stack: &Name) -> Result<Stm, AllocError>
    ensures { IfOk result (λ s. stm_view s ≡ Pop (name_view variable.now) (name_view stack.now)) }
{
    let (variable, stack) = two_names(variable, stack)?;
    Ok(Stm::Pop(variable, stack))
}

/// A swap.
pub(crate) fn swap_of(one: &Name, other: &Name) -> Result<Stm, AllocError>
    ensures { IfOk result (λ s. stm_view s ≡ Swap (name_view one.now) (name_view other.now)) }
{
    let (one, other) = two_names(one, other)?;
    Ok(Stm::Swap(one, other))
}

/// An `if` of these parts.
pub(crate) fn if_of(
    alloc: Global,
    test: &Exp,
    then_part: Vec<Stm>,
    else_part: Vec<Stm>,
    last: &Exp,
) -> Result<Stm, AllocError>
    ensures { IfOk result (λ s. stm_view s ≡ If (exp_view test.now) (block_view then_part.items) (block_view else_part.items) (exp_view last.now)) }
{
    let (test, last) = two_exps(alloc, test, last)?;
    Ok(Stm::If(test, then_part, else_part, last))
}

/// A loop of these parts.
pub(crate) fn loop_of(
    alloc: Global,
    entry: &Exp,
    do_part: Vec<Stm>,
    loop_part: Vec<Stm>,
    exit: &Exp,
) -> Result<Stm, AllocError>
    ensures { IfOk result (λ s. stm_view s ≡ Loop (exp_view entry.now) (block_view do_part.items) (block_view loop_part.items) (exp_view exit.now)) }
{
    let (entry, exit) = two_exps(alloc, entry, exit)?;
    Ok(Stm::Loop(entry, do_part, loop_part, exit))
}

/// A local number with these statements.
pub(crate) fn int_of(
    alloc: Global,
    name: &Name,
    first: &Exp,
    block: Vec<Stm>,
    end: &Name,
    last: &Exp,
) -> Result<Stm, AllocError>
    ensures { IfOk result
        (λ s. stm_view s ≡ LocalInt (name_view name.now) (exp_view first.now) (block_view block.items) (name_view end.now) (exp_view last.now)) }
{
    let (name, end) = two_names(name, end)?;
    let (first, last) = two_exps(alloc, first, last)?;
    Ok(Stm::LocalInt(name, first, block, end, last))
}

/// A local stack with these statements.
pub(crate) fn stack_of(name: &Name, block: Vec<Stm>, end: &Name) -> Result<Stm, AllocError>
    ensures { IfOk result (λ s. stm_view s ≡ LocalStack (name_view name.now) (block_view block.items) (name_view end.now)) }
{
    let (name, end) = two_names(name, end)?;
    Ok(Stm::LocalStack(name, block, end))
}

/// A call.
pub(crate) fn call_of(alloc: Global, called: &Name, arguments: &[Name]) -> Result<Stm, AllocError>
    ensures { IfOk result (λ s. stm_view s ≡ Call (name_view called.now) (names_view arguments.now)) }
{
    let (called, arguments) = same_call(alloc, called, arguments)?;
    Ok(Stm::Call(called, arguments))
}

/// A call of the inverse.
pub(crate) fn uncall_of(alloc: Global, called: &Name, arguments: &[Name]) -> Result<Stm, AllocError>
    ensures { IfOk result (λ s. stm_view s ≡ Uncall (name_view called.now) (names_view arguments.now)) }
{
    let (called, arguments) = same_call(alloc, called, arguments)?;
    Ok(Stm::Uncall(called, arguments))
}
