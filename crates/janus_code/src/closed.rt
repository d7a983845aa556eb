//! Procedures whose `delocal`s have the names of their locals.
//!
//! What is read from a text has them already. A procedure of a world is a tree in which a local has one name, so its print takes that
//! name at both ends.
ghost use Rattle.std.specs.Prelude.{◌≡◌, IfOk};
ghost use Rattle.janus_syntax.specs.Tree.{block_view, procedure_view, stm_view};
ghost use Rattle.janus_code.specs.Closed.{closed_block, closed_procedure, closed_stm};

use crate::copies::same_parameters;
use crate::statements::{
    assign_of, call_of, element_of, if_of, int_of, loop_of, pop_of, push_of, stack_of, swap_of,
    uncall_of,
};
use janus_syntax::tree::{Procedure, Stm};
use std::alloc::{AllocError, Global};

/// The same procedure in memory of its own, with the name of its local behind each `delocal`; an error for want of memory.
pub fn closed(alloc: Global, procedure: &Procedure) -> Result<Procedure, AllocError>
    ensures { IfOk result (λ copy. procedure_view copy ≡ closed_procedure (procedure_view procedure.now)) }
{
    let name = procedure.name.copy()?;
    let parameters = same_parameters(alloc, &procedure.parameters)?;
    let body = closed_statements(alloc, &procedure.body)?;
    Ok(Procedure {
        name,
        parameters,
        body,
    })
}

/// The statements of a block, closed.
#[cycle(closing)]
fn closed_statements(alloc: Global, statements: &[Stm]) -> Result<Vec<Stm>, AllocError>
    ensures { IfOk result (λ copies. block_view copies.items ≡ closed_block (block_view statements.now)) }
{
    let mut copies = Vec::new(alloc);
    for i in 0..statements.len() {
        copies.push(closed_statement(alloc, &statements[i])?)?;
    }
    Ok(copies)
}

/// A statement, closed.
#[cycle(closing)]
fn closed_statement(alloc: Global, statement: &Stm) -> Result<Stm, AllocError>
    ensures { IfOk result (λ copy. stm_view copy ≡ closed_stm (stm_view statement.now)) }
{
    match statement {
        Stm::Skip => Ok(Stm::Skip),
        Stm::Assign(name, update, exp) => assign_of(alloc, name, *update, exp),
        Stm::AssignElement(name, index, update, exp) => {
            element_of(alloc, name, index, *update, exp)
        }
        Stm::Push(variable, stack) => push_of(variable, stack),
        Stm::Pop(variable, stack) => pop_of(variable, stack),
        Stm::Swap(one, other) => swap_of(one, other),
        Stm::If(test, then_part, else_part, last) => {
            let then_part = closed_statements(alloc, then_part)?;
            let else_part = closed_statements(alloc, else_part)?;
            if_of(alloc, test, then_part, else_part, last)
        }
        Stm::Loop(entry, do_part, loop_part, exit) => {
            let do_part = closed_statements(alloc, do_part)?;
            let loop_part = closed_statements(alloc, loop_part)?;
            loop_of(alloc, entry, do_part, loop_part, exit)
        }
        Stm::LocalInt(name, first, block, _, last) => {
            let block = closed_statements(alloc, block)?;
            int_of(alloc, name, first, block, name, last)
        }
        Stm::LocalStack(name, block, _) => {
            let block = closed_statements(alloc, block)?;
            stack_of(name, block, name)
        }
        Stm::Call(called, arguments) => call_of(alloc, called, arguments),
        Stm::Uncall(called, arguments) => uncall_of(alloc, called, arguments),
    }
}
