//! Rows of whole statements, laid over the cells of a frame, in which the names `x`, `y`, `a` and `s` are in sight, and inside of a local `z` too.
//!
//! A call is how many of the names are in sight, and behind `|` statements, or none, whose code is that of `statements`. It is told how many instructions
//! they are, how many of these are taken elsewhere, which are calls and the end, how many cells a frame needs, and how many frames may be opened.
use crate::statements::code_of_text;
use janus_linear::{Order, link};
use janus_row::code::{Instruction, Op};
use janus_row_laying::row::{LaidRow, lay};
use std::alloc::{AllocError, Global};
use tests_rows::{Sheet, cut_cell, number};

/// Writes the answer to a call.
pub(crate) fn answer(call: &str, sheet: &mut Sheet) {
    let (names, text) = cut_cell(call);
    match row_of(sheet.alloc(), number(names), text) {
        Ok(laid) => tell_laid(&laid, sheet),
        Err(_) => sheet.refuse(),
    }
}

/// The statements of a text, laid over so many names, five at most.
fn row_of(alloc: Global, names: usize, text: &str) -> Result<LaidRow, AllocError> {
    let code = code_of_text(alloc, names, text)?;
    let linear = link(alloc, code, Order::Straight)?;
    lay(alloc, &linear, if names < 5 { names as u32 } else { 5 })
}

/// What is told of a row.
fn tell_laid(laid: &LaidRow, sheet: &mut Sheet) {
    sheet.show(&laid.row.instructions.len());
    sheet.write(" instructions, ");
    sheet.show(&elsewhere(&laid.row.instructions));
    sheet.write(" elsewhere, ");
    sheet.show(&laid.row.width);
    sheet.write(" cells, room ");
    sheet.show(&laid.room);
}

/// How many instructions are not taken in their row.
fn elsewhere(row: &[Instruction]) -> usize {
    row.iter().filter(|i| matches!(i.op, Op::Elsewhere)).count()
}
