//! Rows of the board of broadcasts. `join` gives the number of the place after the last broadcast. `publish` (a number, and how many) publishes the
//! broadcasts of the numbers from the first on, and gives how many of them got their own number. `follow` (two numbers, and how many turns at most)
//! gives where a reader stands that reads on from the first place up to the second, and how many broadcasts it read and missed; it is wrong where a
//! read is not in order from its place on, or a lag doesn't lead it forward. `followed` (how many readers, and how many broadcasts) publishes while
//! readers on threads read on from the start: how many broadcasts got their number, and how many readers went wrong. `publishers` (how many threads, and how
//! many broadcasts of each) publishes from threads: the sum of the numbers that the broadcasts got. `clone` (a number, and frames)
//! gives the topic and the octets of a broadcast of that many times these frames, and of its clone once it is gone itself. `constants` gives how a
//! fault is told: its number, its name and its text; and how many broadcasts are kept, and how many a read gives at most.
use crate::broadcasts::{cloned, in_order, numbered};
use crate::lines::{begin, note};
use kernel_board::{BROADCASTS_OF_A_READ, Board, BoardFault, KEPT_BROADCASTS, Place, Read};
use std::alloc::{AllocError, Global};
use std::sync::Wait;
use std::sync::atomic::{AtomicU64, Ordering};
use std::thread;
use std::thread::Threads;
use tests_rows::{Sheet, cut, number};

/// No reader on a thread takes more turns than these.
const TURNS: usize = 1_000_000;

/// Writes the calls over a new board with their answers.
pub(crate) fn tell<R: Threads + Wait + Sync>(rt: &R, calls: &str, sheet: &mut Sheet) {
    match Board::new(sheet.alloc()) {
        Ok(board) => tell_calls(rt, &board, calls, sheet),
        Err(_) => sheet.refuse(),
    }
}

/// Writes the calls with their answers.
fn tell_calls<R: Threads + Wait + Sync>(rt: &R, board: &Board, calls: &str, sheet: &mut Sheet) {
    for call in calls.lines() {
        begin(call, sheet);
        answer(rt, board, call, sheet);
        sheet.write("\n");
    }
}

/// Writes the answer to a call.
fn answer<R: Threads + Wait + Sync>(rt: &R, board: &Board, call: &str, sheet: &mut Sheet) {
    let (word, rest) = cut(call);
    let (first, rest) = cut(rest);
    match word {
        "join" => sheet.show(&board.join(rt).number),
        "publish" => publish(rt, board, number(first), number(rest), sheet),
        "follow" => follow_row(rt, board, number(first), rest, sheet),
        "followed" => followed(rt, board, number(first), number(rest), sheet),
        "publishers" => publishers(rt, board, number(first), number(rest), sheet),
        "clone" => cloned(number(first), rest, sheet),
        _ => constants(sheet),
    }
}

/// Publishes broadcasts of the numbers from the first on, up to one that doesn't get its number: how many got theirs.
fn published<R: Wait>(
    rt: &R,
    alloc: Global,
    board: &Board,
    first: u64,
    count: u64,
) -> Result<u64, AllocError> {
    for turn in 0..count {
        let number = first.saturating_add(turn);
        if board.publish(rt, numbered(alloc, number)?) != number {
            return Ok(turn);
        }
    }
    Ok(count)
}

/// Publishes broadcasts, and writes how many got their number.
fn publish<R: Wait>(rt: &R, board: &Board, first: usize, count: usize, sheet: &mut Sheet) {
    match published(rt, sheet.alloc(), board, first as u64, count as u64) {
        Ok(count) => sheet.show(&count),
        Err(_) => sheet.refuse(),
    }
}

/// What a reader came by.
#[derive(Clone, Copy)]
struct Account {
    /// Where it stands.
    place: Place,
    /// How many broadcasts it read.
    read: u64,
    /// How many it missed, as it was told.
    missed: u64,
    /// Whether each read began at its place and was in order, and each lag led it forward.
    is_good: bool,
    /// Whether a read was refused for want of memory.
    is_refused: bool,
}

impl Account {
    fn at(place: Place) -> Account {
        Account {
            place,
            read: 0,
            missed: 0,
            is_good: true,
            is_refused: false,
        }
    }

    /// Takes what the reader was told. Whether there was any news.
    fn take(&mut self, told: Result<Read, BoardFault>) -> bool {
        match told {
            Ok(Read::Got(got, next)) => {
                let count = got.len() as u64;
                let is_good = in_order(&got, self.place) == count
                    && next.number == self.place.number.saturating_add(count)
                    && got.len() <= BROADCASTS_OF_A_READ;
                self.is_good = self.is_good && is_good;
                self.read = self.read.saturating_add(count);
                self.place = next;
                count > 0
            }
            Ok(Read::Lagged(oldest)) => {
                let missed = oldest.number.saturating_sub(self.place.number);
                self.is_good = self.is_good && missed > 0;
                self.missed = self.missed.saturating_add(missed);
                self.place = oldest;
                true
            }
            Err(_) => {
                self.is_refused = true;
                false
            }
        }
    }

    /// Whether it stands at this place, with each broadcast before it read or missed.
    fn is_whole(&self, end: u64) -> bool {
        self.is_good
            && self.place.number == end
            && self.missed == end.saturating_sub(self.read)
            && self.read <= end
    }
}

/// Reads on from a place up to another, in as many turns at most.
fn follow<R: Wait>(rt: &R, board: &Board, from: Place, end: u64, turns: usize) -> Account {
    let mut account = Account::at(from);
    for _ in 0..turns {
        if account.place.number >= end || !account.is_good || account.is_refused {
            break;
        }
        let told = board.read_from(rt, account.place);
        let is_news = account.take(told);
        if !is_news {
            thread::yield_now();
        }
    }
    account
}

/// Reads on from a place, and writes what the reader came by.
fn follow_row<R: Wait>(rt: &R, board: &Board, from: usize, rest: &str, sheet: &mut Sheet) {
    let (end, turns) = cut(rest);
    let from = Place {
        number: from as u64,
    };
    let account = follow(rt, board, from, number(end) as u64, number(turns));
    if account.is_refused {
        sheet.refuse();
    }
    note(
        if account.is_good { "at " } else { "wrong at " },
        &account.place.number,
        sheet,
    );
    note(", read ", &account.read, sheet);
    note(", missed ", &account.missed, sheet);
}

/// Reads on from the start up to the end, and counts itself where memory was refused to it, or where it went wrong.
fn follow_to_the_end<R: Wait>(
    rt: &R,
    board: &Board,
    end: u64,
    wrong: &AtomicU64,
    refused: &AtomicU64,
) {
    let account = follow(rt, board, Place { number: 0 }, end, TURNS);
    if account.is_refused {
        refused.fetch_add(1, Ordering::SeqCst);
    } else if !account.is_whole(end) {
        wrong.fetch_add(1, Ordering::SeqCst);
    }
}

/// Publishes, while threads read on from the start: how many broadcasts got their number, how many readers went wrong, and to how many memory was
/// refused.
fn followed_by_threads<R: Threads + Wait + Sync>(
    rt: &R,
    alloc: Global,
    board: &Board,
    readers: usize,
    count: u64,
) -> (Result<u64, AllocError>, u64, u64) {
    let (wrong, refused) = (AtomicU64::new(0), AtomicU64::new(0));
    let (wrong_seen, refused_seen) = (&wrong, &refused);
    let published = thread::scope(thread::scope_env(), rt, |scope| {
        for _ in 0..readers {
            let started = scope.spawn(move || follow_to_the_end(
                rt,
                board,
                count,
                wrong_seen,
                refused_seen,
            ));
            if started.is_err() {
                wrong_seen.fetch_add(1, Ordering::SeqCst);
            }
        }
        published(rt, alloc, board, 0, count)
    });
    (published, wrong.into_inner(), refused.into_inner())
}

/// Publishes while readers on threads read on, and writes what came of it.
fn followed<R: Threads + Wait + Sync>(
    rt: &R,
    board: &Board,
    readers: usize,
    count: usize,
    sheet: &mut Sheet,
) {
    match followed_by_threads(rt, sheet.alloc(), board, readers, count as u64) {
        (Ok(count), wrong, 0) => {
            note("published ", &count, sheet);
            note(", wrong ", &wrong, sheet);
        }
        _ => sheet.refuse(),
    }
}

/// Publishes broadcasts, and adds up the numbers that they get, or counts where memory was refused.
fn publish_all<R: Wait>(
    rt: &R,
    alloc: Global,
    board: &Board,
    count: usize,
    sum: &AtomicU64,
    refused: &AtomicU64,
) {
    for _ in 0..count {
        match numbered(alloc, 0) {
            Ok(broadcast) => sum.fetch_add(board.publish(rt, broadcast), Ordering::SeqCst),
            Err(_) => refused.fetch_add(1, Ordering::SeqCst),
        };
    }
}

/// Publishes from threads: the sum of the numbers that the broadcasts got, and how often memory was refused.
fn published_by_threads<R: Threads + Wait + Sync>(
    rt: &R,
    alloc: Global,
    board: &Board,
    threads: usize,
    count: usize,
) -> (u64, u64) {
    let (sum, refused) = (AtomicU64::new(0), AtomicU64::new(0));
    let (sum_seen, refused_seen) = (&sum, &refused);
    thread::scope(thread::scope_env(), rt, |scope| {
        for _ in 0..threads {
            let started = scope.spawn(move || publish_all(
                rt,
                alloc,
                board,
                count,
                sum_seen,
                refused_seen,
            ));
            if started.is_err() {
                refused_seen.fetch_add(1, Ordering::SeqCst);
            }
        }
    });
    (sum.into_inner(), refused.into_inner())
}

/// Publishes from threads, and writes the sum of the numbers.
fn publishers<R: Threads + Wait + Sync>(
    rt: &R,
    board: &Board,
    threads: usize,
    count: usize,
    sheet: &mut Sheet,
) {
    match published_by_threads(rt, sheet.alloc(), board, threads, count) {
        (sum, 0) => sheet.show(&sum),
        _ => sheet.refuse(),
    }
}

/// How the fault of a read is told, and the limits.
fn constants(sheet: &mut Sheet) {
    let fault = BoardFault::Memory;
    note("", &fault.number(), sheet);
    note(" ", &fault.name(), sheet);
    match format!(in sheet.alloc(); "{fault}") {
        Ok(text) => note(" ", &text, sheet),
        Err(_) => sheet.refuse(),
    }
    note(" ", &KEPT_BROADCASTS, sheet);
    note(" ", &BROADCASTS_OF_A_READ, sheet);
}
