//! Rows of sweeps, among those of schedules: a cell is begun again and again, stopped behind each of its steps in turn, and taken
//! back to where it was begun. Each has a number of steps, and calls with a semicolon between them behind which the cell is begun.
//!
//! `sweep` tries each count below that number: the cell goes so far in one slice, and is then asked to stop by slices of 1, of 2, of 7
//! and of all steps; of 2 and of 7 every other slice alone asks. `fault` has a cell that meets a fault behind a number of steps: from each
//! count up to that one it goes on to the fault, and then goes back by such slices, without being asked. Where a slash and a further number stand
//! behind the number of steps, the counts that are tried stand so far apart, and the last one is tried too. The position and the world behind each
//! slice, its values and the texts of its procedures, are compared with those that were met at that count on the way out, by single steps, and those
//! at the end with those before the begin, with the extent of the tree.
//!
//! Told are how many stops there were, how many slices they took back, behind how many steps of the way out the world was another one, how many
//! answers and worlds were wrong, and the outcome of each stop, in which `here` stands for the count of the stop.
use crate::octets::{push_seen, push_world};
use crate::schedules::make_untold;
use kernel_core::{Begun, Kernel, Outcome, Sliced};
use std::alloc::Global;
use std::sync::ledger::Ledger;
use tests_rows::{Sheet, cut, number};

/// How many steps a slice takes back.
const PIECES: [usize; 4] = [1, 2, 7, usize::MAX];

/// The calls behind which a cell is begun, what was seen before the begin, the worlds that were met on the way out, by their counts, how far
/// apart the counts stand that are tried, and whether the cell meets a fault behind the last.
#[derive(Drop)]
struct Way<'a> {
    calls: &'a str,
    before: Vec<u8>,
    met: Vec<Vec<u8>>,
    apart: usize,
    is_fault: bool,
}

impl<'a> Way<'a> {
    /// A way on which nothing was met yet.
    fn new(alloc: Global, calls: &'a str, apart: usize, is_fault: bool) -> Way<'a> {
        Way {
            calls,
            before: Vec::new(alloc),
            met: Vec::new(alloc),
            apart,
            is_fault,
        }
    }

    /// Whether a stop is tried at this count: at each that is so far from the one before, and at the last.
    fn is_tried(&self, count: usize) -> bool {
        count.checked_rem(self.apart) == Some(0) || count.saturating_add(1) == self.met.len()
    }

    /// Whether this world was met at this count.
    fn was_met(&self, count: usize, world: &[u8]) -> bool {
        match self.met.get(count) {
            Some(met) => met.as_slice() == world,
            None => false,
        }
    }

    /// Behind how many steps another world was met than before it.
    fn changes(&self) -> usize {
        let mut changes = 0usize;
        for i in 1..self.met.len() {
            if self.met[i].as_slice() != self.met[i - 1].as_slice() {
                changes = changes.saturating_add(1);
            }
        }
        changes
    }
}

/// What was counted, the outcome of the first stop, and whether that was an interrupt at the count of its stop.
#[derive(Drop)]
struct Tally {
    stops: usize,
    slices: usize,
    wrong: usize,
    outcome: Option<Outcome>,
    is_here: bool,
}

impl Tally {
    /// Nothing was counted yet.
    fn new() -> Tally {
        Tally {
            stops: 0,
            slices: 0,
            wrong: 0,
            outcome: None,
            is_here: false,
        }
    }

    /// Counts an answer or a world, which is right or not.
    fn judge(&mut self, is_right: bool) {
        if !is_right {
            self.wrong = self.wrong.saturating_add(1);
        }
    }

    /// Counts the end of a stop at this count, which is right where it is that of the first stop.
    fn end(&mut self, outcome: Outcome, count: usize) {
        self.stops = self.stops.saturating_add(1);
        let is_here = outcome == Outcome::Interrupted(count as u64);
        match self.outcome {
            None => {
                self.outcome = Some(outcome);
                self.is_here = is_here;
            }
            Some(first) => self.judge(is_here == self.is_here && (is_here || outcome == first)),
        }
    }
}

/// The answer to a row: that of a `fault` or of a `sweep`.
pub(crate) fn sweep<L: Ledger>(
    kernel: &mut Kernel<L>,
    row: &str,
    is_fault: bool,
    sheet: &mut Sheet,
) {
    let (counts, calls) = cut(row);
    let (steps, apart) = counts.split_once('/').unwrap_or((counts, "1"));
    let mut way = Way::new(sheet.alloc(), calls, number(apart), is_fault);
    sweep_way(kernel, &mut way, number(steps), sheet);
}

/// Goes out so many steps, stops the cell at each count that is tried, and tells what was counted.
fn sweep_way<L: Ledger>(
    kernel: &mut Kernel<L>,
    way: &mut Way<'_>,
    steps: usize,
    sheet: &mut Sheet,
) {
    let last = if way.is_fault {
        steps
    } else {
        steps.saturating_sub(1)
    };
    go_out(kernel, way, last, sheet);
    let mut tally = Tally::new();
    for piece in PIECES {
        stop_at_each(kernel, way, &mut tally, piece, sheet);
    }
    tell(&tally, way.changes(), sheet);
}

/// What is told of a sweep with this number of changes on its way out.
fn tell(tally: &Tally, changes: usize, sheet: &mut Sheet) {
    tell_count(tally.stops, " stops, ", sheet);
    tell_count(tally.slices, " slices, ", sheet);
    tell_count(changes, " changes, ", sheet);
    tell_count(tally.wrong, " wrong, ", sheet);
    match &tally.outcome {
        Some(_) if tally.is_here => sheet.write("Interrupted(here)"),
        Some(outcome) => sheet.show(outcome),
        None => {}
    }
}

/// A count, and what it counts.
fn tell_count(count: usize, words: &str, sheet: &mut Sheet) {
    sheet.show(&count);
    sheet.write(words);
}

/// Begins the cell behind the calls, takes a number of single steps, and then takes them back. Keeps what was met.
fn go_out<L: Ledger>(kernel: &mut Kernel<L>, way: &mut Way<'_>, steps: usize, sheet: &mut Sheet) {
    make_untold(kernel, way.calls, sheet);
    push_seen(kernel, &mut way.before, sheet);
    kernel.begin();
    meet(kernel, way, sheet);
    for _ in 0..steps {
        kernel.slice(1, false);
        meet(kernel, way, sheet);
    }
    kernel.slice(u64::MAX, true);
}

/// Keeps the world as it stands.
fn meet<L: Ledger>(kernel: &Kernel<L>, way: &mut Way<'_>, sheet: &mut Sheet) {
    let mut world = Vec::new(sheet.alloc());
    push_world(kernel, &mut world, sheet);
    if way.met.push(world).is_err() {
        sheet.refuse();
    }
}

/// Stops the cell at each count that is tried, and takes it back by slices of this size.
fn stop_at_each<L: Ledger>(
    kernel: &mut Kernel<L>,
    way: &Way<'_>,
    tally: &mut Tally,
    piece: usize,
    sheet: &mut Sheet,
) {
    for count in 0..way.met.len() {
        if way.is_tried(count) {
            stop_at(kernel, way, tally, count, sheet);
            take_back(kernel, way, tally, count, piece, sheet);
        }
    }
}

/// Begins the cell behind the calls, and stops it at a count.
fn stop_at<L: Ledger>(
    kernel: &mut Kernel<L>,
    way: &Way<'_>,
    tally: &mut Tally,
    count: usize,
    sheet: &mut Sheet,
) {
    make_untold(kernel, way.calls, sheet);
    look_between(kernel, way, tally, sheet);
    tally.judge(kernel.begin() == Begun::Going);
    tally.judge(kernel.slice(count as u64, false) == Sliced::Going);
    look(kernel, way, tally, count, sheet);
}

/// Compares what is seen between two cells with what was seen before the first begin.
fn look_between<L: Ledger>(
    kernel: &Kernel<L>,
    way: &Way<'_>,
    tally: &mut Tally,
    sheet: &mut Sheet,
) {
    let mut seen = Vec::new(sheet.alloc());
    push_seen(kernel, &mut seen, sheet);
    tally.judge(seen.as_slice() == way.before.as_slice());
}

/// Compares the shown world with the one that was met at this count.
fn look<L: Ledger>(
    kernel: &Kernel<L>,
    way: &Way<'_>,
    tally: &mut Tally,
    count: usize,
    sheet: &mut Sheet,
) {
    let mut world = Vec::new(sheet.alloc());
    push_world(kernel, &mut world, sheet);
    tally.judge(way.was_met(count, &world));
}

/// Takes the cell back from a count by slices of this size, behind the fault where it meets one.
fn take_back<L: Ledger>(
    kernel: &mut Kernel<L>,
    way: &Way<'_>,
    tally: &mut Tally,
    count: usize,
    piece: usize,
    sheet: &mut Sheet,
) {
    if !way.is_fault {
        return go_back(kernel, way, tally, count, piece, sheet);
    }
    let steps = way.met.len().saturating_sub(1);
    match kernel.slice(u64::MAX, false) {
        Sliced::Ended(outcome) => end(kernel, way, tally, outcome, steps, sheet),
        sliced => {
            tally.judge(sliced == Sliced::Backing);
            look(kernel, way, tally, steps, sheet);
            go_back(kernel, way, tally, steps, piece, sheet);
        }
    }
}

/// Takes slices of this size until the job ends, from this count, and looks behind each. Where no fault was met it is to be asked: each slice of one
/// step asks it again, and every other one of those of more steps.
fn go_back<L: Ledger>(
    kernel: &mut Kernel<L>,
    way: &Way<'_>,
    tally: &mut Tally,
    from: usize,
    piece: usize,
    sheet: &mut Sheet,
) {
    for turn in 0..=from {
        let is_asked = !way.is_fault && (piece == 1 || turn % 2 == 0);
        let left = from.saturating_sub(turn.saturating_add(1).saturating_mul(piece));
        if let Some(outcome) = take_slice(kernel, way, tally, piece, is_asked, left, sheet) {
            return end(kernel, way, tally, outcome, from, sheet);
        }
    }
    tally.judge(false);
}

/// Takes a slice of this size back, behind which so many steps are left. Where the job didn't end it looks; else it gives the outcome.
fn take_slice<L: Ledger>(
    kernel: &mut Kernel<L>,
    way: &Way<'_>,
    tally: &mut Tally,
    piece: usize,
    is_asked: bool,
    left: usize,
    sheet: &mut Sheet,
) -> Option<Outcome> {
    let sliced = kernel.slice(piece as u64, is_asked);
    tally.slices = tally.slices.saturating_add(1);
    if let Sliced::Ended(outcome) = sliced {
        tally.judge(left == 0);
        return Some(outcome);
    }
    tally.judge(sliced == Sliced::Backing && left > 0);
    look(kernel, way, tally, left, sheet);
    None
}

/// Counts the end of a stop at this count, and compares what is seen with what was seen before the begin.
fn end<L: Ledger>(
    kernel: &Kernel<L>,
    way: &Way<'_>,
    tally: &mut Tally,
    outcome: Outcome,
    count: usize,
    sheet: &mut Sheet,
) {
    look_between(kernel, way, tally, sheet);
    tally.end(outcome, count);
}
