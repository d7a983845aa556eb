//! Rows of two desks before a hall, whose worker takes its turns on a thread of its own. `publish` (a topic) publishes a broadcast, and `broadcasts` gives
//! the topics of those that the desk reads. `shut` shuts the kernel, and `was_shut` tells whether it was. `undo` (a number) has that many cells undone, and
//! `cell` (a code) has a cell run; each gives the outcome, or why the job is refused. `state` gives how many minutes the answer has seen, and the shown world.
//! `open` and `close` (an id) open and close a comm, and tell whether they did; `comms` gives those that are open. A call is made at the first desk,
//! or behind the word `second` at the other one. Behind the last row the kernel is shut, and the worker ends.
ghost use Rattle.std.specs.Prelude.{◌≡◌, ◌<◌, IfOk};

use crate::worker::Worker;
use kernel_bell::{Bell, RingerSeat, RunnerSeat};
use kernel_board::Broadcast;
use kernel_desk::{
    Answer, Ask, CellText, CommChange, Content, Desk, Done, Entry, Hall, HallDesk, HallFault,
    HistoryName, Job, Kernel, NewHistory, Note, Passes, PostFault,
};
use kernel_iopub::Bulletin;
use std::alloc::{AllocError, Global};
use std::marker::Brand;
use std::sync::Wait;
use std::sync::ledger::{Blank, Ledger};
use std::thread::Threads;
use std::time::Clock;
use std::{str, thread};
use tests_rows::{Sheet, cut};

/// Writes the calls at two desks before a hall of their own with their answers.
pub(crate) fn tell<R: Threads + Wait + Clock + Sync>(rt: &R, calls: &str, sheet: &mut Sheet) {
    match String::from_str(sheet.alloc(), calls) {
        Ok(calls) => tell_owned(rt, calls, sheet),
        Err(_) => sheet.refuse(),
    }
}

/// Writes the calls at two desks before a hall of their own with their answers.
fn tell_owned<R: Threads + Wait + Clock + Sync>(rt: &R, calls: String, sheet: &mut Sheet) {
    let alloc = sheet.alloc();
    let Ok((bell, runner, mut ringers)) = Bell::new(alloc, 2) else {
        sheet.refuse();
        return;
    };
    let (Some(second), Some(first)) = (ringers.pop(), ringers.pop()) else {
        unreachable!()
    };
    match (NewHistory::new(alloc), NewHistory::new(alloc)) {
        (Ok(history), Ok(notes)) => {
            tell_in::<Brand, Brand, R>(
                rt,
                Blank::new(2),
                Blank::new(65_537),
                history,
                notes,
                bell,
                runner,
                first,
                second,
                calls,
                sheet,
            );
        }
        _ => sheet.refuse(),
    }
}

/// A hall round a new kernel, with this bell, and the passes that it is to give.
fn new_hall<W: Ledger, L: HistoryName>(
    alloc: Global,
    writes: Blank,
    posts: Blank,
    history: NewHistory<Entry>,
    notes: NewHistory<Note>,
    bell: Bell,
) -> Result<(Hall<W, L>, Passes<L>), AllocError>
    requires writes { (writes.name ≡ W.name) × (writes.parts ≡ W.parts) × (1 < W.parts) }
    requires posts { (posts.name ≡ L.name) × (posts.parts ≡ 65537) × (posts.parts ≡ L.parts) }
    requires history { history ≡ L.history }
    requires notes { notes ≡ L.beside }
    requires bell { bell ≡ L.bell }
    ensures { IfOk result (λ made. made.0 ≡ bell) }
{
    let Ok(kernel) = Kernel::<W>::new(alloc, writes) else {
        return Err(AllocError);
    };
    Ok(Hall::<W, L>::new(alloc, posts, history, notes, kernel, bell))
}

/// Writes the calls at two desks with their answers, before a hall over these ledgers.
fn tell_in<W: Ledger + Send + Sync, L: HistoryName + Send + Sync, R: Threads + Wait + Clock + Sync>(
    rt: &R,
    writes: Blank,
    posts: Blank,
    history: NewHistory<Entry>,
    notes: NewHistory<Note>,
    bell: Bell,
    runner: RunnerSeat,
    first: RingerSeat,
    second: RingerSeat,
    calls: String,
    sheet: &mut Sheet,
)
    requires writes { (writes.name ≡ W.name) × (writes.parts ≡ W.parts) × (1 < W.parts) }
    requires posts { (posts.name ≡ L.name) × (posts.parts ≡ 65537) × (posts.parts ≡ L.parts) }
    requires history { history ≡ L.history }
    requires notes { notes ≡ L.beside }
    requires bell { bell ≡ L.bell }
    requires runner { runner.bell ≡ bell }
    requires first { first.bell ≡ bell }
    requires second { second.bell ≡ bell }
{
    match new_hall::<W, L>(sheet.alloc(), writes, posts, history, notes, bell) {
        Ok((hall, passes)) => {
            let worker = Worker::new(&hall, runner);
            sit_down(rt, worker, passes, first, second, &calls, sheet);
            hall.discard();
        }
        Err(_) => sheet.refuse(),
    }
}

/// Sits down at two desks before a hall, with seats of its bell and the first of its passes.
fn sit_down<
    W: Ledger + Send + Sync,
    L: HistoryName + Send + Sync,
    R: Threads + Wait + Clock + Sync,
>(
    rt: &R,
    worker: Worker<'_, W, L>,
    mut passes: Passes<L>,
    first: RingerSeat,
    second: RingerSeat,
    calls: &str,
    sheet: &mut Sheet,
)
    requires first { first.bell ≡ worker.hall.now }
    requires second { second.bell ≡ worker.hall.now }
{
    let hall = worker.hall;
    let Ok(bulletin) = Bulletin::new(sheet.alloc(), 1) else {
        sheet.refuse();
        return;
    };
    match (hall.pass(rt, &mut passes), hall.pass(rt, &mut passes)) {
        (Ok(own), Ok(other)) => {
            let mut first = HallDesk::new(rt, hall, &bulletin, own, first);
            let mut second = HallDesk::new(rt, hall, &bulletin, other, second);
            tell_beside(rt, worker, &mut first, &mut second, calls, sheet);
        }
        _ => sheet.write("no pass"),
    }
}

/// Writes the calls with their answers beside the worker, and has it end.
fn tell_beside<
    'a,
    W: Ledger + Send + Sync,
    L: HistoryName + Send + Sync,
    R: Threads + Wait + Clock + Sync,
>(
    rt: &R,
    worker: Worker<'a, W, L>,
    first: &mut HallDesk<'_, W, L, R>,
    second: &mut HallDesk<'_, W, L, R>,
    calls: &str,
    sheet: &mut Sheet,
) {
    thread::scope(thread::scope_env(), rt, |scope| {
        let started = scope.spawn(move || worker.serve(rt));
        if started.is_ok() {
            tell_calls(first, second, calls, sheet);
        } else {
            sheet.write("no thread\n");
        }
        first.shut();
    });
}

/// Writes the calls with their answers.
fn tell_calls<W: Ledger, L: HistoryName, R: Wait + Clock>(
    first: &mut HallDesk<'_, W, L, R>,
    second: &mut HallDesk<'_, W, L, R>,
    calls: &str,
    sheet: &mut Sheet,
) {
    for call in calls.lines() {
        sheet.write(call);
        sheet.write(": ");
        match call.strip_prefix("second ") {
            Some(call) => answer(second, call, sheet),
            None => answer(first, call, sheet),
        }
        sheet.write("\n");
    }
}

/// Writes the answer to a call.
fn answer<W: Ledger, L: HistoryName, R: Wait + Clock>(
    desk: &mut HallDesk<'_, W, L, R>,
    call: &str,
    sheet: &mut Sheet,
) {
    let (word, rest) = cut(call);
    match word {
        "publish" => publish(desk, rest, sheet),
        "broadcasts" => broadcasts(desk, sheet),
        "was_shut" => sheet.show(&desk.was_shut()),
        "shut" => shut(desk, sheet),
        "undo" => undo(desk, rest, sheet),
        "cell" => cell(desk, rest, sheet),
        "state" => tell_state(desk.ask(Ask::State), sheet),
        _ => comms(desk, word, rest, sheet),
    }
}

/// Opens or closes a comm, or writes those that are open.
fn comms<W: Ledger, L: HistoryName, R: Wait + Clock>(
    desk: &mut HallDesk<'_, W, L, R>,
    word: &str,
    id: &str,
    sheet: &mut Sheet,
) {
    match word {
        "open" => match String::from_str(sheet.alloc(), id) {
            Ok(id) => tell_change(desk.comm(CommChange::Open(id)), sheet),
            Err(_) => sheet.refuse(),
        },
        "close" => tell_change(desk.comm(CommChange::Close(id)), sheet),
        _ => tell_comms(desk.ask(Ask::Comms), sheet),
    }
}

/// Writes whether a comm was opened or closed. The only refusal is want of memory.
fn tell_change(change: Result<bool, HallFault>, sheet: &mut Sheet) {
    match change {
        Ok(did) => sheet.show(&did),
        Err(_) => sheet.refuse(),
    }
}

/// Writes the open comms. The only refusal is want of memory.
fn tell_comms(answer: Result<Answer, HallFault>, sheet: &mut Sheet) {
    match answer {
        Ok(Answer { content, .. }) => tell_ids(&content, sheet),
        Err(_) => sheet.refuse(),
    }
}

/// Writes the ids of the open comms.
fn tell_ids(content: &Content, sheet: &mut Sheet) {
    match content {
        Content::Comms(ids) => sheet.show(ids),
        _ => sheet.write("another answer"),
    }
}

/// Publishes a broadcast of this topic.
fn publish<W: Ledger, L: HistoryName, R: Wait + Clock>(
    desk: &mut HallDesk<'_, W, L, R>,
    topic: &str,
    sheet: &mut Sheet,
) {
    match broadcast(sheet.alloc(), topic) {
        Ok(broadcast) => desk.publish(broadcast),
        Err(_) => sheet.refuse(),
    }
    sheet.write("done");
}

/// Reads broadcasts, and writes their topics.
fn broadcasts<W: Ledger, L: HistoryName, R: Wait + Clock>(
    desk: &mut HallDesk<'_, W, L, R>,
    sheet: &mut Sheet,
) {
    match desk.broadcasts(sheet.alloc()) {
        Ok(kept) => tell_topics(&kept, sheet),
        Err(_) => sheet.refuse(),
    }
}

/// Shuts the kernel.
fn shut<W: Ledger, L: HistoryName, R: Wait + Clock>(
    desk: &mut HallDesk<'_, W, L, R>,
    sheet: &mut Sheet,
) {
    desk.shut();
    sheet.write("done");
}

/// Has cells undone.
fn undo<W: Ledger, L: HistoryName, R: Wait + Clock>(
    desk: &mut HallDesk<'_, W, L, R>,
    count: &str,
    sheet: &mut Sheet,
) {
    let job = Job::Undo(count.parse::<u32>().unwrap_or(0));
    tell_job(desk.job(job, Vec::new(sheet.alloc())), sheet);
}

/// Has a cell run.
fn cell<W: Ledger, L: HistoryName, R: Wait + Clock>(
    desk: &mut HallDesk<'_, W, L, R>,
    code: &str,
    sheet: &mut Sheet,
) {
    let alloc = sheet.alloc();
    match text_of(alloc, code) {
        Ok(code) => {
            let job = Job::Cell {
                code,
                silent: false,
                store: true,
            };
            tell_job(desk.job(job, Vec::new(alloc)), sheet);
        }
        Err(_) => sheet.refuse(),
    }
}

/// The text of a cell.
fn text_of(alloc: Global, code: &str) -> Result<CellText, AllocError> {
    let code = String::from_str(alloc, code)?;
    CellText::new(alloc, code)
}

/// Writes how many minutes an answer has seen, and the shown world. The only refusal is want of memory.
fn tell_state(answer: Result<Answer, HallFault>, sheet: &mut Sheet) {
    match answer {
        Ok(Answer { seen, content }) => {
            sheet.show(&seen);
            tell_world(&content, sheet);
        }
        Err(_) => sheet.refuse(),
    }
}

/// Writes the shown world.
fn tell_world(content: &Content, sheet: &mut Sheet) {
    match content {
        Content::State(state) => {
            sheet.write(" ");
            sheet.show(&state.world);
        }
        _ => sheet.write(" another answer"),
    }
}

/// A broadcast of this topic.
fn broadcast(alloc: Global, topic: &str) -> Result<Broadcast, AllocError> {
    let topic = Vec::from_slice(alloc, topic.as_bytes())?;
    Broadcast::new(alloc, Vec::from_array(alloc, [topic])?)
}

/// Writes the topics of broadcasts.
fn tell_topics(kept: &[Broadcast], sheet: &mut Sheet) {
    sheet.show(&kept.len());
    for broadcast in kept {
        sheet.write(" ");
        sheet.write(str::from_utf8(broadcast.topic()).unwrap_or("no text"));
    }
}

/// Writes what came of a job.
fn tell_job(ended: Result<Done, PostFault>, sheet: &mut Sheet) {
    match ended {
        Ok(done) => sheet.show(&done.outcome),
        Err(PostFault::Memory) => sheet.refuse(),
        Err(fault) => sheet.show(&fault),
    }
}
