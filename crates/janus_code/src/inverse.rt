//! The inverse of a cell.

ghost use Rattle.std.specs.Prelude.{◌≡◌, IfOk};
ghost use Rattle.janus_meaning.specs.Syntax.{inverse_block};
ghost use Rattle.janus_syntax.specs.View.{block_of};
ghost use Rattle.janus_syntax.specs.Tree.{stm_view, cell_view, procedure_view, procedures_view, block_view, Empty};
ghost use Rattle.janus_code.specs.Cells.{opposite_of, IsOpposite, inverse_stm, inverse_cell, turned};

use crate::copies::{same_declarations, same_parameters};
use crate::fault::InvertFault;
use crate::statements::{
    assign_of, call_of, element_of, if_of, int_of, loop_of, pop_of, push_of, stack_of, swap_of,
    uncall_of,
};
use janus_syntax::tree::{Cell, Procedure, Stm, Update};
use std::alloc::{AllocError, Global};

/// The operator that takes an assignment back.
pub fn opposite(update: Update) -> Update
    ensures operator { result ≡ opposite_of update }
    ensures exchanged { IsOpposite update result }
{
    match update {
        Update::Add => Update::Subtract,
        Update::Subtract => Update::Add,
        Update::Xor => Update::Xor,
    }
}

/// The cell whose statements are inverted, with the same declarations and procedures; or want of memory.
pub fn invert(alloc: Global, cell: &Cell) -> Result<Cell, InvertFault>
    ensures block { IfOk result (λ inverse. block_of inverse.statements.items ≡ inverse_block (block_of cell.now.statements.items)) }
    ensures places { IfOk result (λ inverse. cell_view inverse ≡ inverse_cell (cell_view cell.now)) }
{
    let declarations = same_declarations(alloc, &cell.declarations)?;
    let statements = inverse_statements(alloc, &cell.statements)?;
    let procedures = same_procedures(alloc, &cell.procedures)?;
    Ok(Cell {
        declarations,
        statements,
        procedures,
    })
}

/// The same procedures in memory of their own.
fn same_procedures(alloc: Global, procedures: &[Procedure]) -> Result<Vec<Procedure>, AllocError>
    ensures { IfOk result (λ copies. procedures_view copies.items ≡ procedures_view procedures.now) }
{
    let mut copies = Vec::new(alloc);
    for procedure in procedures {
        copies.push(same_procedure(alloc, procedure)?)?;
    }
    Ok(copies)
}

/// The same procedure in memory of its own. The inverse of its body's inverse is the body.
fn same_procedure(alloc: Global, procedure: &Procedure) -> Result<Procedure, AllocError>
    ensures { IfOk result (λ copy. procedure_view copy ≡ procedure_view procedure.now) }
{
    let name = procedure.name.copy()?;
    let parameters = same_parameters(alloc, &procedure.parameters)?;
    let inverses = inverse_statements(alloc, &procedure.body)?;
    let body = inverse_statements(alloc, &inverses)?;
    Ok(Procedure {
        name,
        parameters,
        body,
    })
}

/// The inverses of a block's statements, the last one first.
#[cycle(inverse)]
fn inverse_statements(alloc: Global, statements: &[Stm]) -> Result<Vec<Stm>, AllocError>
    ensures { IfOk result (λ inverses. block_view inverses.items ≡ turned (block_view statements.now) Empty) }
{
    let mut inverses = Vec::new(alloc);
    for i in (0..statements.len()).rev() {
        inverses.push(inverse_statement(alloc, &statements[i])?)?;
    }
    Ok(inverses)
}

/// The inverse of a statement, whose names and numbers keep their places.
#[cycle(inverse)]
fn inverse_statement(alloc: Global, statement: &Stm) -> Result<Stm, AllocError>
    ensures { IfOk result (λ inverse. stm_view inverse ≡ inverse_stm (stm_view statement.now)) }
{
    match statement {
        Stm::Skip => Ok(Stm::Skip),
        Stm::Assign(name, update, exp) => assign_of(alloc, name, opposite(*update), exp),
        Stm::AssignElement(name, index, update, exp) => {
            element_of(alloc, name, index, opposite(*update), exp)
        }
        Stm::Push(variable, stack) => pop_of(variable, stack),
        Stm::Pop(variable, stack) => push_of(variable, stack),
        Stm::Swap(one, other) => swap_of(one, other),
        Stm::If(test, then_part, else_part, last) => {
            let then_part = inverse_statements(alloc, then_part)?;
            let else_part = inverse_statements(alloc, else_part)?;
            if_of(alloc, last, then_part, else_part, test)
        }
        Stm::Loop(entry, do_part, loop_part, exit) => {
            let do_part = inverse_statements(alloc, do_part)?;
            let loop_part = inverse_statements(alloc, loop_part)?;
            loop_of(alloc, exit, do_part, loop_part, entry)
        }
        Stm::LocalInt(name, first, block, end, last) => {
            let block = inverse_statements(alloc, block)?;
            int_of(alloc, name, last, block, end, first)
        }
        Stm::LocalStack(name, block, end) => {
            let block = inverse_statements(alloc, block)?;
            stack_of(name, block, end)
        }
        Stm::Call(called, arguments) => uncall_of(alloc, called, arguments),
        Stm::Uncall(called, arguments) => call_of(alloc, called, arguments),
    }
}
