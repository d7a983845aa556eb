//! Worlds as octets, which are compared sooner than texts.
use janus_syntax::tree::Procedure;
use kernel_ask::{StackView, ValueView, procedure_text};
use kernel_core::{Extent, Kernel};
use std::sync::ledger::Ledger;
use tests_rows::Sheet;

/// Writes octets. That memory was refused is kept by the sheet.
fn push(octets: &mut Vec<u8>, more: &[u8], sheet: &mut Sheet) {
    if octets.extend_from_slice(more).is_err() {
        sheet.refuse();
    }
}

/// Writes a number.
fn push_number(octets: &mut Vec<u8>, number: i32, sheet: &mut Sheet) {
    push(octets, &number.to_le_bytes(), sheet);
}

/// Writes a count.
fn push_count(octets: &mut Vec<u8>, count: usize, sheet: &mut Sheet) {
    push(octets, &count.to_le_bytes(), sheet);
}

/// Writes the position and the shown world: the names with their values, and the texts of the procedures.
pub(crate) fn push_world<L: Ledger>(kernel: &Kernel<L>, octets: &mut Vec<u8>, sheet: &mut Sheet) {
    push_count(octets, kernel.position(), sheet);
    let world = kernel.world();
    for i in 0..world.len() {
        let (name, value) = world.entry(i);
        push(octets, name.as_bytes(), sheet);
        push_value(octets, value, sheet);
    }
    push_procedures(kernel, octets, sheet);
}

/// Writes what kind a value is of, how many numbers it has, and the numbers.
fn push_value(octets: &mut Vec<u8>, value: ValueView<'_>, sheet: &mut Sheet) {
    match value {
        ValueView::Number(number) => {
            push(octets, b"=", sheet);
            push_number(octets, number, sheet);
        }
        ValueView::Array(numbers) => push_array(octets, numbers, sheet),
        ValueView::Stack(values) => push_stack(octets, &values, sheet),
    }
}

/// Writes that it is an array, how many numbers it has, and the numbers.
fn push_array(octets: &mut Vec<u8>, numbers: &[i32], sheet: &mut Sheet) {
    push(octets, b"[", sheet);
    push_count(octets, numbers.len(), sheet);
    for number in numbers {
        push_number(octets, *number, sheet);
    }
}

/// Writes that it is a stack, how many numbers it has, and the numbers.
fn push_stack(octets: &mut Vec<u8>, values: &StackView<'_>, sheet: &mut Sheet) {
    push(octets, b"(", sheet);
    push_count(octets, values.len(), sheet);
    for value in *values {
        push_number(octets, value, sheet);
    }
}

/// Writes the texts of the procedures, the newest of each name first.
fn push_procedures<L: Ledger>(kernel: &Kernel<L>, octets: &mut Vec<u8>, sheet: &mut Sheet) {
    let world = kernel.world();
    match world.procedures(sheet.alloc()) {
        Ok(procedures) => push_all(octets, &procedures, sheet),
        Err(_) => sheet.refuse(),
    }
}

/// Writes the texts of procedures.
fn push_all(octets: &mut Vec<u8>, procedures: &[&Procedure], sheet: &mut Sheet) {
    for procedure in procedures {
        push_procedure(octets, procedure, sheet);
    }
}

/// Writes the text of a procedure.
fn push_procedure(octets: &mut Vec<u8>, procedure: &Procedure, sheet: &mut Sheet) {
    match procedure_text(sheet.alloc(), procedure) {
        Ok(text) => push(octets, text.as_bytes(), sheet),
        Err(_) => sheet.refuse(),
    }
}

/// Writes what is seen between two cells: the position and the world, and how many cells are above, below along favourites and in the tree.
pub(crate) fn push_seen<L: Ledger>(kernel: &Kernel<L>, octets: &mut Vec<u8>, sheet: &mut Sheet) {
    let Extent { undo, redo, nodes } = kernel.extent();
    push_count(octets, undo, sheet);
    push_count(octets, redo, sheet);
    push_count(octets, nodes, sheet);
    push_world(kernel, octets, sheet);
}
