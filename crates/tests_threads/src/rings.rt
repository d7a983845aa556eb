//! The row of a bell that threads ring. It is a number of jobs, which the runner begins one after another, and runs each until it is asked to stop,
//! while three threads ring all the while. It gives how many jobs were stopped, and how many answers of rings fell or were for no job.
ghost use Rattle.std.specs.Prelude.{◌≡◌, All};

use crate::bell::{Ringer, Runner};
use crate::lines::{begin, note};
use kernel_bell::{Bell, RingerSeat};
use std::alloc::{AllocError, Global};
use std::sync::Wait;
use std::sync::atomic::{AtomicBool, AtomicU64, Ordering};
use std::thread;
use std::thread::Threads;
use tests_rows::{Sheet, number};

/// The threads that ring.
const RINGING: usize = 3;

/// No thread takes more turns than these.
const TURNS: u32 = 1_000_000;

/// Writes the row at a new bell with its answer.
pub(crate) fn tell<R: Threads + Wait>(rt: &R, call: &str, sheet: &mut Sheet) {
    begin(call, sheet);
    match Bell::new(sheet.alloc(), RINGING) {
        Ok((bell, seat, mut seats)) => match ringers_of(sheet.alloc(), &bell, &mut seats) {
            Ok(ringers) => tell_stopped(rt, Runner { bell: &bell, seat }, ringers, call, sheet),
            Err(_) => sheet.refuse(),
        },
        Err(_) => sheet.refuse(),
    }
    sheet.write("\n");
}

/// Has threads ring, and writes how many jobs were stopped, and how many answers of rings were wrong.
fn tell_stopped<R: Threads + Wait>(
    rt: &R,
    runner: Runner<'_>,
    ringers: Vec<Ringer<'_>>,
    call: &str,
    sheet: &mut Sheet,
) {
    let (stopped, wrong) = stopped_by_threads(rt, runner, ringers, number(call) as u64);
    note("stopped ", &stopped, sheet);
    note(", wrong ", &wrong, sheet);
}

/// Three ringers of a bell.
fn ringers_of<'a>(
    alloc: Global,
    bell: &'a Bell,
    seats: &mut Vec<RingerSeat>,
) -> Result<Vec<Ringer<'a>>, AllocError>
    requires { All (λ s. s.bell ≡ bell.now) seats.old.items }
{
    let (Some(first), Some(second), Some(third)) = (seats.pop(), seats.pop(), seats.pop()) else {
        return Err(AllocError);
    };
    let first = Ringer { bell, seat: first };
    let second = Ringer { bell, seat: second };
    let third = Ringer { bell, seat: third };
    Ok(Vec::from_array(alloc, [first, second, third])?)
}

/// Begins a job, and runs it until it is asked to stop. Whether that came.
fn run_until_asked(runner: &mut Runner<'_>) -> bool {
    if runner.begin() == 0 {
        return false;
    }
    for _ in 0..TURNS {
        if runner.asked() {
            return true;
        }
        thread::yield_now();
    }
    false
}

/// How many jobs, of those that are to be begun, are stopped one after another.
fn stopped_jobs(runner: &mut Runner<'_>, jobs: u64) -> u64 {
    for stopped in 0..jobs {
        if !run_until_asked(runner) {
            return stopped;
        }
    }
    jobs
}

/// Rings until the runner is done, and counts the answers that fall or that are for no job.
fn keep_ringing(mut ringer: Ringer<'_>, jobs: u64, is_done: &AtomicBool, wrong: &AtomicU64) {
    let mut last = 0;
    for _ in 0..TURNS {
        if is_done.load(Ordering::SeqCst) {
            return;
        }
        let serial = ringer.ring();
        if serial < last || serial > jobs {
            wrong.fetch_add(1, Ordering::SeqCst);
        }
        last = serial;
        thread::yield_now();
    }
}

/// Begins jobs and runs each until it is asked to stop, while threads ring: how many were stopped, and how many answers of rings were wrong.
fn stopped_by_threads<R: Threads + Wait>(
    rt: &R,
    mut runner: Runner<'_>,
    ringers: Vec<Ringer<'_>>,
    jobs: u64,
) -> (u64, u64) {
    let is_done = AtomicBool::new(false);
    let wrong = AtomicU64::new(0);
    let (is_done_seen, wrong_seen) = (&is_done, &wrong);
    let stopped = thread::scope(thread::scope_env(), rt, |scope| {
        for ringer in ringers {
            if scope
                .spawn(move || keep_ringing(ringer, jobs, is_done_seen, wrong_seen))
                .is_err()
            {
                wrong_seen.fetch_add(1, Ordering::SeqCst);
            }
        }
        let stopped = stopped_jobs(&mut runner, jobs);
        is_done_seen.store(true, Ordering::SeqCst);
        stopped
    });
    (stopped, wrong.into_inner())
}
