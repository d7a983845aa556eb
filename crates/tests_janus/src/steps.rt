//! Rows of single steps: a cell is begun, taken out of its kernel, and stepped to its end or to a fault by the machine's own step.
//!
//! A call is the text of the cell. It is told how many steps were asked for, how the last of them came out, and what the declared names have then.
ghost use Rattle.std.specs.Prelude.{◌≡◌, ◌<◌, IfSome, false};
ghost use Rattle.kernel_core.specs.Runner.{IsInside};

use crate::values::write_value;
use kernel_core::{CellText, Job, Kernel, OpenCell, Progress, Store};
use std::alloc::{AllocError, Global};
use std::marker::Brand;
use std::sync::ledger::{Blank, Ledger};
use tests_rows::{Sheet, written};

/// How many steps are asked for at most.
const MOST: usize = 1_000;

/// Writes the answer to a call.
pub(crate) fn answer(call: &str, sheet: &mut Sheet) {
    match String::from_str(sheet.alloc(), call) {
        Ok(call) => answer_call(&call, sheet),
        Err(_) => sheet.refuse(),
    }
}

/// Writes the answer to a call.
fn answer_call(call: &String, sheet: &mut Sheet) {
    answer_in::<Brand>(Blank::new(2), call, sheet);
}

/// Writes the answer to a call, over this ledger.
fn answer_in<L: Ledger>(blank: Blank, call: &String, sheet: &mut Sheet)
    requires name { blank.name ≡ L.name }
    requires parts { blank.parts ≡ L.parts }
    requires two { 1 < L.parts }
{
    match cell_of(sheet.alloc(), call) {
        Ok(job) => answer_job::<L>(blank, job, sheet),
        Err(_) => sheet.refuse(),
    }
}

/// The job of a cell's text.
fn cell_of(alloc: Global, text: &str) -> Result<Job, AllocError> {
    Ok(Job::Cell {
        code: CellText::new(alloc, written(alloc, text)?)?,
        silent: false,
        store: true,
    })
}

/// Writes what comes of a cell's job, over this ledger.
fn answer_job<L: Ledger>(blank: Blank, job: Job, sheet: &mut Sheet)
    requires name { blank.name ≡ L.name }
    requires parts { blank.parts ≡ L.parts }
    requires two { 1 < L.parts }
{
    match Kernel::<L>::new(sheet.alloc(), blank) {
        Ok(mut kernel) => {
            let _posted = kernel.post(1, job);
            let _begun = kernel.begin();
            match kernel.into_open_cell() {
                Some(mut cell) => tell_steps(&mut cell, sheet),
                None => sheet.write("no cell is open"),
            }
        }
        Err(_) => sheet.refuse(),
    }
}

/// Steps a cell to its end or to a fault, and tells what came of it.
fn tell_steps<L: Ledger>(cell: &mut OpenCell<L>, sheet: &mut Sheet)
    requires { IsInside cell.old.runner cell.old.program false }
{
    let mut asked = 0usize;
    let mut last = Progress::Went;
    for _ in 0..MOST {
        if matches!(last, Progress::Went) && !cell.runner.cursor.is_ended() {
            last = cell.runner.step(&cell.program);
            asked = asked.saturating_add(1);
        }
    }
    sheet.show(&asked);
    sheet.write(" asked for, ");
    tell_last(last, sheet);
    tell_store(&cell.runner.counted.store, sheet);
}

/// How the last step came out.
fn tell_last(last: Progress, sheet: &mut Sheet) {
    match last {
        Progress::Went => sheet.write("under way"),
        Progress::Ended(count) => {
            sheet.write("ended after ");
            sheet.show(&count);
        }
        Progress::Stopped(count, fault) => {
            sheet.write(fault.name());
            sheet.write(" after ");
            sheet.show(&count);
        }
    }
}

/// What the declared names have.
fn tell_store<L: Ledger>(store: &Store<L>, sheet: &mut Sheet) {
    for i in 0..store.len() {
        let (name, value) = store.entry(i);
        sheet.write(", ");
        sheet.write(name);
        sheet.write(" = ");
        write_value(value, sheet);
    }
}
