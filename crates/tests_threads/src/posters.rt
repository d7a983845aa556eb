//! Threads that post beside each other and beside the worker. `posters` (how many threads, and how many jobs of each) has each thread post a cell
//! that adds 1 to `x` for a new pass and wait for it, a number of times. It gives how many of these jobs went otherwise than that the cell ran in 3
//! steps, and showed the `x` that the one order of all numbers gives: the first job declares it, and each later one adds 1.
use crate::frontends::{Away, job_of};
use crate::lines::note;
use kernel_hall::{Done, Hall, HallFault, HistoryName, Outcome, Pass, PostFault, Refusal, Ticket};
use std::alloc::Global;
use std::sync::ledger::Ledger;
use std::sync::{Mutex, Wait};
use std::thread;
use std::thread::Threads;
use tests_rows::{Sheet, cut, number};

/// The job that is posted.
const JOB: &str = "cell x += 1";

impl<L: HistoryName> Away<L> {
    /// Counts a job that went wrong.
    pub fn note_wrong(&mut self) {
        self.wrong = self.wrong.saturating_add(1);
    }

    /// Takes in why a post was refused: for want of memory, or otherwise than it is to be.
    fn note_refused_post(&mut self, fault: PostFault) {
        match fault {
            PostFault::Memory => self.is_refused = true,
            _ => self.note_wrong(),
        }
    }

    /// Takes in why there is no pass: for want of memory, or otherwise than it is to be.
    pub fn note_no_pass(&mut self, fault: HallFault) {
        match fault {
            HallFault::Memory => self.is_refused = true,
            HallFault::NoPass => self.note_wrong(),
        }
    }

    /// Takes in the outcome of a job.
    fn note_outcome(&mut self, outcome: Outcome) {
        match outcome {
            Outcome::Ran(_, 3) => {}
            Outcome::Refused(Refusal::Memory) => self.is_refused = true,
            _ => self.note_wrong(),
        }
    }

    /// Takes in what is shown of a job. Nothing is shown for want of memory alone.
    fn note_shown(&mut self, done: &Done) {
        match &done.shown {
            Some(shown) => {
                if value_of_x(shown.as_str()) != done.number.checked_sub(1) {
                    self.note_wrong();
                }
            }
            None => self.is_refused = true,
        }
    }

    /// Keeps a ticket and what came of its job.
    fn keep_done(&mut self, ticket: Ticket, done: Done) {
        self.note_outcome(done.outcome);
        self.note_shown(&done);
        let is_kept = is_pushed(&mut self.tickets, ticket);
        self.is_refused = self.is_refused || !is_kept;
        let is_kept = is_pushed(&mut self.dones, done);
        self.is_refused = self.is_refused || !is_kept;
    }

    /// Keeps a pass.
    fn keep_pass(&mut self, pass: Pass<L>) {
        let is_kept = is_pushed(&mut self.passes, pass);
        self.is_refused = self.is_refused || !is_kept;
    }
}

/// The value that a shown text gives for `x`.
pub(crate) fn value_of_x(shown: &str) -> Option<u64> {
    let value = shown.strip_prefix("x = ")?;
    value.parse::<u64>().ok()
}

/// Keeps a value at the end of a list. Whether there was memory for it.
fn is_pushed<T: Drop>(list: &mut Vec<T>, value: T) -> bool {
    list.push(value).is_ok()
}

/// Waits for the job of a ticket, and keeps what came of it.
fn wait<W: Ledger, L: HistoryName, R: Wait>(
    rt: &R,
    hall: &Hall<W, L>,
    all: &Mutex<Away<L>>,
    own: &mut Pass<L>,
    ticket: Ticket,
) {
    let done = hall.wait(rt, own, &ticket);
    all.lock(rt).keep_done(ticket, done);
}

/// Posts the job and waits for it. The pass comes back.
fn post_once<W: Ledger, L: HistoryName, R: Wait>(
    rt: &R,
    alloc: Global,
    hall: &Hall<W, L>,
    all: &Mutex<Away<L>>,
    own: Pass<L>,
) -> Pass<L> {
    match job_of(alloc, JOB) {
        Ok(job) => match hall.post(rt, own, job, Vec::new(alloc)) {
            Ok((ticket, mut own)) => {
                wait(rt, hall, all, &mut own, ticket);
                own
            }
            Err((fault, own)) => {
                all.lock(rt).note_refused_post(fault);
                own
            }
        },
        Err(_) => {
            all.lock(rt).is_refused = true;
            own
        }
    }
}

/// Posts the job for this pass and waits for it, a number of times.
fn post_for<W: Ledger, L: HistoryName, R: Wait>(
    rt: &R,
    alloc: Global,
    hall: &Hall<W, L>,
    all: &Mutex<Away<L>>,
    mut own: Pass<L>,
    times: usize,
) {
    for _ in 0..times {
        own = post_once(rt, alloc, hall, all, own);
    }
    all.lock(rt).keep_pass(own);
}

/// Posts the job for a new pass and waits for it, a number of times.
fn post_often<W: Ledger, L: HistoryName, R: Wait>(
    rt: &R,
    alloc: Global,
    hall: &Hall<W, L>,
    all: &Mutex<Away<L>>,
    times: usize,
) {
    let mut away = all.lock(rt);
    let given = hall.pass(rt, &mut away.left);
    drop(away);
    match given {
        Ok(own) => post_for(rt, alloc, hall, all, own, times),
        Err(fault) => {
            all.lock(rt).note_no_pass(fault);
        }
    }
}

/// Each of the threads posts.
fn posted_by_threads<
    W: Ledger + Send + Sync,
    L: HistoryName + Send + Sync,
    R: Threads + Wait + Sync,
>(rt: &R, alloc: Global, hall: &Hall<W, L>, all: &Mutex<Away<L>>, threads: usize, times: usize) {
    thread::scope(thread::scope_env(), rt, |scope| {
        for _ in 0..threads {
            let started = scope.spawn(move || post_often(rt, alloc, hall, all, times));
            if started.is_err() {
                all.lock(rt).note_wrong();
            }
        }
    });
}

/// Has the threads post, and writes what they came away with.
pub(crate) fn posters<
    W: Ledger + Send + Sync,
    L: HistoryName + Send + Sync,
    R: Threads + Wait + Sync,
>(rt: &R, hall: &Hall<W, L>, all: &Mutex<Away<L>>, row: &str, sheet: &mut Sheet) {
    let (threads, times) = cut(row);
    posted_by_threads(rt, sheet.alloc(), hall, all, number(threads), number(times));
    tell_away(&*all.lock(rt), sheet);
}

/// Writes how many jobs went wrong, and how many passes, tickets and ends there are.
fn tell_away<L: HistoryName>(away: &Away<L>, sheet: &mut Sheet) {
    if away.is_refused {
        sheet.refuse();
    }
    note("wrong ", &away.wrong, sheet);
    note(", passes ", &away.passes.len(), sheet);
    note(", tickets ", &away.tickets.len(), sheet);
    note(", ends ", &away.dones.len(), sheet);
}
