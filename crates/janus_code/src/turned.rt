//! The inverse of flat code.

ghost use Rattle.std.specs.Prelude.{◌≡◌, ℕ, List, ◌<◌, ◌≤◌, length, slice_index_or, IfOk};
ghost use Rattle.janus_meaning.specs.Syntax.{Name, inverse_block};
ghost use Rattle.janus_code.specs.Numbered.{HaveNumbers};
ghost use Rattle.janus_code.specs.Flat.{BlocksAreBelow};
ghost use Rattle.janus_code.specs.Inverted.{IsInverse, IsBackward, AreInverse};
ghost use Rattle.janus_code.specs.CodeBlock.{code_block};
ghost use Rattle.janus_code.specs.Longer.{IsLonger};

use crate::expression::{copy, two_copies};
use crate::{Block, Code, InvertFault, Statement, opposite};
use std::alloc::{AllocError, Global};

/// The code whose block is the inverse of this one's: its statements keep their numbers. Or want of memory.
pub fn invert_code(alloc: Global, code: &Code) -> Result<Code, InvertFault>
    ensures block { IfOk result (λ inverse. (xs : List Name) → code_block xs inverse ≡ inverse_block (code_block xs code.now)) }
    ensures parts { IfOk result
        (λ inverse. AreInverse code.now.members.items code.now.statements.items code.now.body inverse.members.items inverse.statements.items inverse.body) }
    // A table of names that has the code's numbers has those of the inverse too.
    ensures numbered { IfOk result (λ inverse. (xs : List Name) → HaveNumbers xs code.now.statements.items → HaveNumbers xs inverse.statements.items) }
{
    Ok(inverse_code(alloc, code)?)
}

/// The inverse of each statement at its number, and that of the body.
fn inverse_code(alloc: Global, code: &Code) -> Result<Code, AllocError>
    ensures block { IfOk result (λ inverse. (xs : List Name) → code_block xs inverse ≡ inverse_block (code_block xs code.now)) }
    ensures parts { IfOk result
        (λ inverse. AreInverse code.now.members.items code.now.statements.items code.now.body inverse.members.items inverse.statements.items inverse.body) }
    ensures numbered { IfOk result (λ inverse. (xs : List Name) → HaveNumbers xs code.now.statements.items → HaveNumbers xs inverse.statements.items) }
{
    let mut statements = Vec::with_capacity(alloc, code.statements.len())?;
    let mut members = Vec::with_capacity(alloc, code.members.len())?;
    for i in 0..code.statements.len() {
        let inverse = inverse_one(alloc, &code.statements[i], &code.members, i, &mut members)?;
        statements.push(inverse)?;
    }
    let body = backward(&code.members, code.body, &mut members)?;
    Ok(Code {
        statements,
        members,
        body,
    })
}

/// The inverse of the statement of a number. The members of its blocks are added backward.
fn inverse_one(
    alloc: Global,
    statement: &Statement,
    members: &[usize],
    number: usize,
    others: &mut Vec<usize>,
) -> Result<Statement, AllocError>
    requires { BlocksAreBelow members.now number statement.now }
    ensures longer { IfOk result (λ inverse. IsLonger others.old.items others.new.items) }
    ensures inverse { IfOk result (λ inverse. IsInverse members.now others.new.items statement.now inverse) }
{
    match statement {
        Statement::Skip => Ok(Statement::Skip),
        Statement::Assign(name, update, exp) => {
            let exp = copy(alloc, exp)?;
            Ok(Statement::Assign(*name, opposite(*update), exp))
        }
        Statement::AssignElement(name, index, update, exp) => {
            let (index, exp) = two_copies(alloc, index, exp)?;
            Ok(Statement::AssignElement(*name, index, opposite(*update), exp))
        }
        Statement::Push(variable, stack) => Ok(Statement::Pop(*variable, *stack)),
        Statement::Pop(variable, stack) => Ok(Statement::Push(*variable, *stack)),
        Statement::Swap(one, other) => Ok(Statement::Swap(*one, *other)),
        Statement::If(test, then_part, else_part, last) => {
            let then_part = backward(members, *then_part, others)?;
            let else_part = backward(members, *else_part, others)?;
            let (test, last) = two_copies(alloc, test, last)?;
            Ok(Statement::If(last, then_part, else_part, test))
        }
        Statement::Loop(entry, do_part, loop_part, exit) => {
            let do_part = backward(members, *do_part, others)?;
            let loop_part = backward(members, *loop_part, others)?;
            let (entry, exit) = two_copies(alloc, entry, exit)?;
            Ok(Statement::Loop(exit, do_part, loop_part, entry))
        }
        Statement::LocalInt(name, first, block, last) => {
            let block = backward(members, *block, others)?;
            let (first, last) = two_copies(alloc, first, last)?;
            Ok(Statement::LocalInt(*name, last, block, first))
        }
        Statement::LocalStack(name, block) => {
            let block = backward(members, *block, others)?;
            Ok(Statement::LocalStack(*name, block))
        }
        Statement::Call(called, arguments) => {
            Ok(Statement::Uncall(*called, arguments.to_vec(alloc)?))
        }
        Statement::Uncall(called, arguments) => {
            Ok(Statement::Call(*called, arguments.to_vec(alloc)?))
        }
    }
}

/// Adds the members of a block, the last one first.
fn backward(members: &[usize], block: Block, others: &mut Vec<usize>) -> Result<Block, AllocError>
    requires order { block.start ≤ block.end }
    requires within { block.end ≤ length members.now }
    ensures longer { IfOk result (λ b. IsLonger others.old.items others.new.items) }
    ensures backward { IfOk result (λ b. IsBackward members.now others.new.items block b) }
{
    let start = others.len();
    for i in (block.start..block.end).rev() {
        others.push(members[i])?;
    }
    Ok(Block {
        start,
        end: others.len(),
    })
}
