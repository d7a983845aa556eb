//! Jobs of a kernel, run to their ends.
use jupyter_msg::UserExpression;
use kernel_reply::{
    Begun, CellText, Done, Job, Kernel, Outcome, Sliced, Wish, is_settled, shown_of_node,
    stands_at_end, values_after,
};
use std::alloc::{AllocError, Global};
use std::sync::ledger::Ledger;

/// How many slices a job gets at most.
pub(crate) const SLICES: usize = 10;

/// The job of a cell with this text.
pub(crate) fn cell_of(
    alloc: Global,
    text: String,
    silent: bool,
    store: bool,
) -> Result<Job, AllocError> {
    match CellText::new(alloc, text) {
        Ok(code) => Ok(Job::Cell {
            code,
            silent,
            store,
        }),
        Err(_) => Err(AllocError),
    }
}

/// Posts the job and runs it to its end in slices of 1,000 steps: its number and its outcome. Behind its first `calm` slices it is asked
/// to stop.
pub(crate) fn run<L: Ledger>(
    kernel: &mut Kernel<L>,
    job: Job,
    calm: usize,
) -> Option<(u64, Outcome)> {
    let number = post(kernel, job)?;
    for i in 0..SLICES {
        if let Some(outcome) = turn(kernel, i >= calm) {
            return Some((number, outcome));
        }
    }
    None
}

/// Posts a job, and gives its number.
pub(crate) fn post<L: Ledger>(kernel: &mut Kernel<L>, job: Job) -> Option<u64> {
    kernel.post(1, job).ok()
}

/// Begins a job or its next cell and takes a slice of it: the outcome, if the job ended.
fn turn<L: Ledger>(kernel: &mut Kernel<L>, asked: bool) -> Option<Outcome> {
    match kernel.begin() {
        Begun::Ended(outcome) => Some(outcome),
        _ => slice(kernel, asked),
    }
}

/// Takes 1,000 steps: the outcome, if the job ended.
fn slice<L: Ledger>(kernel: &mut Kernel<L>, asked: bool) -> Option<Outcome> {
    match kernel.slice(1000, asked) {
        Sliced::Ended(outcome) => Some(outcome),
        _ => None,
    }
}

/// Posts the job and runs it to its end: what came of it, with the expressions beside it. Behind its first `calm` slices it is asked to stop.
pub(crate) fn ended<L: Ledger>(
    alloc: Global,
    kernel: &mut Kernel<L>,
    job: Job,
    expressions: &[UserExpression],
    calm: usize,
) -> Result<Done, AllocError> {
    let (number, outcome) = run(kernel, job, calm).unwrap_or((0, Outcome::Interrupted(0)));
    let mut done = done(alloc, kernel, number, outcome);
    match tell_done(alloc, kernel, expressions, &mut done) {
        Ok(()) => Ok(done),
        Err(_) => Err(AllocError),
    }
}

/// What came of a job that ended so at the kernel's position, and shows nothing.
pub(crate) fn done<L: Ledger>(
    alloc: Global,
    kernel: &Kernel<L>,
    number: u64,
    outcome: Outcome,
) -> Done {
    Done {
        number,
        outcome,
        count: kernel.counter(),
        node: kernel.position(),
        shown: None,
        values: Vec::new(alloc),
    }
}

/// Adds what is shown of a cell, and behind a cell that ran the values of the expressions.
fn tell_done<L: Ledger>(
    alloc: Global,
    kernel: &Kernel<L>,
    expressions: &[UserExpression],
    done: &mut Done,
) -> Result<(), AllocError> {
    let outcome = done.outcome;
    if !is_settled(kernel) || !stands_at_end(kernel, &outcome) {
        return Ok(());
    }
    done.shown = shown_of_node(alloc, kernel, &outcome)?;
    let wishes = wishes_of(alloc, expressions)?;
    let room = Vec::with_capacity(alloc, wishes.len())?;
    done.values = values_after(alloc, kernel, &outcome, wishes, room);
    Ok(())
}

/// The wishes for the values of expressions, in their order.
fn wishes_of(alloc: Global, expressions: &[UserExpression]) -> Result<Vec<Wish>, AllocError> {
    let mut wishes = Vec::new(alloc);
    for asked in expressions {
        wishes.push(wish_of(alloc, asked)?)?;
    }
    Ok(wishes)
}

/// The wish for the value of an expression.
fn wish_of(alloc: Global, asked: &UserExpression) -> Result<Wish, AllocError> {
    let name = asked.name.clone()?;
    let text = asked.expression.clone()?;
    Ok(Wish::new(alloc, name, text))
}
