//! Lines before a request, with a semicolon between them: cells, and `%undo 1`, `%redo 1`, `%goto 1`, `%shut`, `%post CELL` for a cell
//! that waits, and `%open ID` for a comm.
use crate::kernels::{SLICES, cell_of, post, run};
use kernel_reply::{Comms, Job, Kernel, Outcome, Refusal};
use std::alloc::{AllocError, Global};
use std::sync::ledger::Ledger;
use tests_rows::{Sheet, cut, unescaped};

/// Runs the lines.
pub(crate) fn run_lines<L: Ledger>(
    kernel: &mut Kernel<L>,
    comms: &mut Comms,
    lines: &str,
    sheet: &mut Sheet,
) {
    for line in lines.split(';') {
        run_line(kernel, comms, line, sheet);
    }
}

/// Runs a line, posts its cell or opens its comm.
fn run_line<L: Ledger>(kernel: &mut Kernel<L>, comms: &mut Comms, line: &str, sheet: &mut Sheet) {
    let alloc = sheet.alloc();
    let (word, rest) = cut(line);
    match word {
        "" => {}
        "%shut" => kernel.shut(),
        "%post" => post_cell(kernel, text_cell(alloc, rest), sheet),
        "%open" => open(comms, unescaped(alloc, rest), sheet),
        _ => run_job(kernel, job_of(alloc, line), sheet),
    }
}

/// Posts a job, and leaves it.
fn post_cell<L: Ledger>(kernel: &mut Kernel<L>, job: Result<Job, AllocError>, sheet: &mut Sheet) {
    match job {
        Ok(job) => {
            let _number = post(kernel, job);
        }
        Err(_) => sheet.refuse(),
    }
}

/// Opens a comm.
fn open(comms: &mut Comms, id: Result<String, AllocError>, sheet: &mut Sheet) {
    match id {
        Ok(id) => {
            if comms.open(id).is_err() {
                sheet.refuse();
            }
        }
        Err(_) => sheet.refuse(),
    }
}

/// Runs a job. Where it finds no memory the row has no answer, since it speaks of a kernel on which the job ran.
fn run_job<L: Ledger>(kernel: &mut Kernel<L>, job: Result<Job, AllocError>, sheet: &mut Sheet) {
    match job {
        Ok(job) => {
            if let Some((_, Outcome::Refused(Refusal::Memory))) = run(kernel, job, SLICES) {
                sheet.refuse();
            }
        }
        Err(_) => sheet.refuse(),
    }
}

/// A cell that is counted.
fn text_cell(alloc: Global, code: &str) -> Result<Job, AllocError> {
    cell_of(alloc, String::from_str(alloc, code)?, false, true)
}

/// The job of a line.
fn job_of(alloc: Global, line: &str) -> Result<Job, AllocError> {
    let (word, rest) = cut(line);
    let number = rest.parse::<u32>().unwrap_or(0);
    match word {
        "%undo" => Ok(Job::Undo(number)),
        "%redo" => Ok(Job::Redo(number)),
        "%goto" => Ok(Job::Goto(number)),
        _ => text_cell(alloc, line),
    }
}
