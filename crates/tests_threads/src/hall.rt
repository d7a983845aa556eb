//! Rows of a hall. A block is a new hall, which its last row ends: `close` closes the hall with what the frontends came away with, and gives how many
//! minutes it had, or what is missing or untrue; `discard` lets it go. The rows before it are those of `frontends`, and of the runner (`desk`), whose
//! turns are taken by this thread. Behind a row `beside` the worker takes the turns on a thread of its own, and there are the rows of `posters`,
//! `runners` and `gate` too. Behind a row `after`, and at the last row, that thread has ended. It ends by itself once the hall is shut, so a block with a row
//! `beside` has a row `shut` before it, or behind it and before `after`.
ghost use Rattle.std.specs.Prelude.{◌≡◌, ◌<◌};

use crate::desk::{Desk, Worker};
use crate::frontends;
use crate::frontends::Away;
use crate::gate::{await_held, gate, let_go};
use crate::lines::{begin, note};
use crate::posters::posters;
use crate::runners::runners;
use kernel_bell::{Bell, RingerSeat, RunnerSeat};
use kernel_hall::{Entry, Hall, HistoryName, NewHistory, Note, Passes};
use std::marker::Brand;
use std::sync::atomic::AtomicU64;
use std::sync::ledger::{Blank, Ledger};
use std::sync::{Mutex, Wait};
use std::thread;
use std::thread::Threads;
use tests_rows::{Sheet, cut};

/// Writes the calls before a new hall with their answers. Its gate holds the worker, or doesn't.
pub(crate) fn tell<R: Threads + Wait + Sync>(rt: &R, calls: &str, holds: bool, sheet: &mut Sheet) {
    match String::from_str(sheet.alloc(), calls) {
        Ok(calls) => tell_owned(rt, calls, holds, sheet),
        Err(_) => sheet.refuse(),
    }
}

/// Writes the calls before a new hall with their answers.
fn tell_owned<R: Threads + Wait + Sync>(rt: &R, calls: String, holds: bool, sheet: &mut Sheet) {
    let alloc = sheet.alloc();
    let Ok((bell, seat, mut ringers)) = Bell::new(alloc, 1) else {
        sheet.refuse();
        return;
    };
    let Some(ringer) = ringers.pop() else {
        unreachable!()
    };
    match (NewHistory::new(alloc), NewHistory::new(alloc)) {
        (Ok(history), Ok(notes)) => {
            tell_in::<Brand, Brand, R>(
                rt,
                Blank::new(2),
                Blank::new(65_537),
                history,
                notes,
                bell,
                seat,
                ringer,
                calls,
                holds,
                sheet,
            );
        }
        _ => sheet.refuse(),
    }
}

/// Writes the calls with their answers, before a hall over these ledgers.
fn tell_in<W: Ledger + Send + Sync, L: HistoryName + Send + Sync, R: Threads + Wait + Sync>(
    rt: &R,
    writes: Blank,
    posts: Blank,
    history: NewHistory<Entry>,
    notes: NewHistory<Note>,
    bell: Bell,
    seat: RunnerSeat,
    ringer: RingerSeat,
    calls: String,
    holds: bool,
    sheet: &mut Sheet,
)
    requires writes { (writes.name ≡ W.name) × (writes.parts ≡ W.parts) × (1 < W.parts) }
    requires posts { (posts.name ≡ L.name) × (posts.parts ≡ 65537) × (posts.parts ≡ L.parts) }
    requires history { history ≡ L.history }
    requires notes { notes ≡ L.beside }
    requires bell { bell ≡ L.bell }
    requires seat { seat.bell ≡ bell }
    requires ringer { ringer.bell ≡ bell }
{
    let alloc = sheet.alloc();
    match Desk::<W, L>::new(alloc, writes, posts, history, notes, bell, seat, ringer) {
        Ok((desk, passes)) => tell_desk(rt, desk, passes, &calls, holds, sheet),
        Err(_) => sheet.refuse(),
    }
}

/// Writes the calls with their answers, and ends the hall as its last row says.
fn tell_desk<W: Ledger + Send + Sync, L: HistoryName + Send + Sync, R: Threads + Wait + Sync>(
    rt: &R,
    desk: Desk<W, L>,
    passes: Passes<L>,
    calls: &str,
    holds: bool,
    sheet: &mut Sheet,
) {
    let (calls, end) = calls.rsplit_once('\n').unwrap_or(("", calls));
    let all = Mutex::new(Away::new(sheet.alloc(), passes));
    let hall = tell_parts(rt, desk, &all, calls, holds, sheet);
    sheet.write(end);
    end_hall(hall, all.into_inner(), end == "close", sheet);
}

/// Writes the calls of the parts of a block with their answers.
fn tell_parts<W: Ledger + Send + Sync, L: HistoryName + Send + Sync, R: Threads + Wait + Sync>(
    rt: &R,
    mut desk: Desk<W, L>,
    all: &Mutex<Away<L>>,
    calls: &str,
    holds: bool,
    sheet: &mut Sheet,
) -> Hall<W, L> {
    let (alone, rest) = calls.split_once("beside\n").unwrap_or((calls, ""));
    let word = AtomicU64::new(0);
    tell_alone(rt, &mut desk, all, &word, alone, sheet);
    let Desk { hall, seat, .. } = desk;
    tell_rest(
        rt,
        Worker { hall: &hall, seat },
        all,
        &word,
        rest,
        holds,
        sheet,
    );
    hall
}

/// Writes the calls beside the worker, and those behind its end, with their answers; there may be none.
fn tell_rest<'a, W: Ledger + Send + Sync, L: HistoryName + Send + Sync, R: Threads + Wait + Sync>(
    rt: &R,
    worker: Worker<'a, W, L>,
    all: &Mutex<Away<L>>,
    word: &'a AtomicU64,
    calls: &str,
    holds: bool,
    sheet: &mut Sheet,
) {
    if calls.is_empty() {
        return;
    }
    let (beside, after) = calls.split_once("after\n").unwrap_or((calls, ""));
    let hall = worker.hall;
    sheet.write("beside\n");
    tell_beside(rt, worker, all, word, beside, holds, sheet);
    sheet.write(if after.is_empty() { "" } else { "after\n" });
    tell_rows(rt, hall, all, word, after, sheet);
}

/// Writes calls with their answers, where this thread is the runner's too.
fn tell_alone<W: Ledger + Send + Sync, L: HistoryName + Send + Sync, R: Threads + Wait + Sync>(
    rt: &R,
    desk: &mut Desk<W, L>,
    all: &Mutex<Away<L>>,
    word: &AtomicU64,
    calls: &str,
    sheet: &mut Sheet,
) {
    for call in calls.lines() {
        begin(call, sheet);
        if !desk.answers(rt, call, sheet) {
            answer(rt, &desk.hall, all, word, call, sheet);
        }
        sheet.write("\n");
    }
}

/// Writes calls with their answers.
fn tell_rows<W: Ledger + Send + Sync, L: HistoryName + Send + Sync, R: Threads + Wait + Sync>(
    rt: &R,
    hall: &Hall<W, L>,
    all: &Mutex<Away<L>>,
    word: &AtomicU64,
    calls: &str,
    sheet: &mut Sheet,
) {
    for call in calls.lines() {
        begin(call, sheet);
        answer(rt, hall, all, word, call, sheet);
        sheet.write("\n");
    }
}

/// Writes the answer to a call that isn't the runner's.
fn answer<W: Ledger + Send + Sync, L: HistoryName + Send + Sync, R: Threads + Wait + Sync>(
    rt: &R,
    hall: &Hall<W, L>,
    all: &Mutex<Away<L>>,
    word: &AtomicU64,
    call: &str,
    sheet: &mut Sheet,
) {
    let (name, rest) = cut(call);
    match name {
        "held" => sheet.write(await_held(word)),
        "free" => sheet.write(let_go(word)),
        "posters" => posters(rt, hall, all, rest, sheet),
        "runners" => runners(rt, hall, all, rest, sheet),
        _ => {
            let mut away = all.lock(rt);
            frontends::answer(rt, hall, &mut *away, call, sheet);
        }
    }
}

/// Writes calls with their answers beside the worker, and waits until it ends. It does where the hall is shut by one of them, or was before.
fn tell_beside<'a, W: Ledger + Send + Sync, L: HistoryName + Send + Sync, R: Threads + Wait + Sync>(
    rt: &R,
    worker: Worker<'a, W, L>,
    all: &Mutex<Away<L>>,
    word: &'a AtomicU64,
    calls: &str,
    holds: bool,
    sheet: &mut Sheet,
) {
    let hall = worker.hall;
    thread::scope(thread::scope_env(), rt, |scope| {
        let started = scope.spawn(move || worker.serve(rt, gate(word, holds)));
        if started.is_ok() {
            tell_rows(rt, hall, all, word, calls, sheet);
        } else {
            sheet.write("no thread\n");
        }
    });
}

/// Closes a hall, or lets it go.
fn end_hall<W: Ledger, L: HistoryName>(
    hall: Hall<W, L>,
    away: Away<L>,
    closes: bool,
    sheet: &mut Sheet,
) {
    if closes {
        close(hall, away, sheet);
    } else {
        hall.discard();
    }
    sheet.write("\n");
}

/// Closes a hall, and writes how many minutes it had, or what is missing or untrue.
fn close<W: Ledger, L: HistoryName>(hall: Hall<W, L>, away: Away<L>, sheet: &mut Sheet) {
    let Away {
        passes,
        tickets,
        dones,
        ..
    } = away;
    sheet.write(": ");
    match hall.close(passes, tickets, dones) {
        Ok(minutes) => {
            note("", &minutes.entries().len(), sheet);
            minutes.discard();
        }
        Err(fault) => sheet.show(&fault),
    }
}
