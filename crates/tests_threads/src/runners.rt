//! Threads that run jobs as connections do, beside each other and beside the worker. `runners` (how many threads, and how many jobs of each) has each
//! thread run a cell that adds 1 to `x`, with a wish for `x` and the thread's lane together, for a new pass, a number of times. It gives how many answers
//! went otherwise than that the cell ran in 3 steps, showed the `x` that the one order of all numbers gives and had that value of the thread's own wish, and
//! its number was greater than that of the answer before it to the same thread; and how many answers there were.
use crate::frontends::{Away, job_of, wish_of};
use crate::lines::note;
use crate::posters::value_of_x;
use kernel_hall::{Done, Hall, HistoryName, Job, Outcome, Pass, PostFault, Refusal, Wish};
use std::alloc::{AllocError, Global};
use std::sync::ledger::Ledger;
use std::sync::{Mutex, Wait};
use std::thread;
use std::thread::Threads;
use tests_rows::{Sheet, cut, number};

/// The job that is run.
const JOB: &str = "cell x += 1";

/// What is told of an answer.
#[derive(Clone, Copy)]
enum Verdict {
    Right,
    Wrong,
    /// There was no memory.
    Refused,
}

/// The job, and the wish for `x` and the lane together.
fn job_on(alloc: Global, lane: u32) -> Result<(Job, Vec<Wish>), AllocError> {
    let job = job_of(alloc, JOB)?;
    let text = format!(in alloc; "mine x + {lane}")?;
    let mut wishes = Vec::new(alloc);
    wishes.push(wish_of(alloc, text.as_str())?)?;
    Ok((job, wishes))
}

/// Whether the only value is that of the thread's own wish, where `x` has this value.
fn has_own_value(done: &Done, x: u64, lane: u32) -> bool {
    let wanted = x.wrapping_add(lane as u64);
    match done.values.first() {
        Some(value) => {
            done.values.len() == 1
                && value.name.as_str() == "mine"
                && matches!(value.value, Ok(found) if found as i128 == wanted as i128)
        }
        None => false,
    }
}

/// What is told of what came of a job, where the answer before to the same thread had the number `last`.
fn verdict_on(done: &Done, lane: u32, last: u64) -> Verdict {
    match done.outcome {
        Outcome::Ran(_, 3) => {}
        Outcome::Refused(Refusal::Memory) => return Verdict::Refused,
        _ => return Verdict::Wrong,
    }
    let Some(shown) = &done.shown else {
        return Verdict::Refused;
    };
    let x = done.number.wrapping_sub(1);
    let is_right = done.number > last
        && value_of_x(shown.as_str()) == Some(x)
        && has_own_value(done, x, lane);
    if is_right {
        Verdict::Right
    } else {
        Verdict::Wrong
    }
}

/// Runs the job once. What is told of the answer, and its number; where there is none, that of the answer before.
fn run_once<W: Ledger, L: HistoryName, R: Wait>(
    rt: &R,
    alloc: Global,
    hall: &Hall<W, L>,
    own: &mut Pass<L>,
    last: u64,
) -> (Verdict, u64) {
    let lane = own.lane();
    let Ok((job, wishes)) = job_on(alloc, lane) else {
        return (Verdict::Refused, last);
    };
    match hall.run(rt, own, job, wishes) {
        Ok(done) => (verdict_on(&done, lane, last), done.number),
        Err(PostFault::Memory) => (Verdict::Refused, last),
        Err(_) => (Verdict::Wrong, last),
    }
}

/// Runs the job for a new pass, a number of times, and counts the answers.
fn run_often<W: Ledger, L: HistoryName, R: Wait>(
    rt: &R,
    alloc: Global,
    hall: &Hall<W, L>,
    all: &Mutex<Away<L>>,
    times: usize,
) {
    let mut away = all.lock(rt);
    let given = hall.pass(rt, &mut away.left);
    drop(away);
    let mut own = match given {
        Ok(own) => own,
        Err(fault) => {
            all.lock(rt).note_no_pass(fault);
            return;
        }
    };
    let mut last = 0;
    for _ in 0..times {
        let (verdict, number) = run_once(rt, alloc, hall, &mut own, last);
        last = number;
        all.lock(rt).count(verdict);
    }
}

impl<L: HistoryName> Away<L> {
    /// Counts an answer.
    fn count(&mut self, verdict: Verdict) {
        self.answers = self.answers.saturating_add(1);
        match verdict {
            Verdict::Right => {}
            Verdict::Wrong => self.note_wrong(),
            Verdict::Refused => self.is_refused = true,
        }
    }
}

/// Each of the threads runs the job.
fn run_by_threads<W: Ledger + Send + Sync, L: HistoryName + Send + Sync, R: Threads + Wait + Sync>(
    rt: &R,
    alloc: Global,
    hall: &Hall<W, L>,
    all: &Mutex<Away<L>>,
    threads: usize,
    times: usize,
) {
    thread::scope(thread::scope_env(), rt, |scope| {
        for _ in 0..threads {
            let started = scope.spawn(move || run_often(rt, alloc, hall, all, times));
            if started.is_err() {
                all.lock(rt).note_wrong();
            }
        }
    });
}

/// Has the threads run the job, and writes how many answers were wrong, and how many there are.
pub(crate) fn runners<
    W: Ledger + Send + Sync,
    L: HistoryName + Send + Sync,
    R: Threads + Wait + Sync,
>(rt: &R, hall: &Hall<W, L>, all: &Mutex<Away<L>>, row: &str, sheet: &mut Sheet) {
    let (threads, times) = cut(row);
    run_by_threads(rt, sheet.alloc(), hall, all, number(threads), number(times));
    let away = all.lock(rt);
    if away.is_refused {
        sheet.refuse();
    }
    note("wrong ", &away.wrong, sheet);
    note(", answers ", &away.answers, sheet);
}
