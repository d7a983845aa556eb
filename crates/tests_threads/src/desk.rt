//! A hall with the seats of its bell, and the rows of its runner: `run` takes turns until a job ends, ten at most, and gives its outcome; `turn`
//! gives what one turn was; `ring` asks the job that runs to stop, and gives the serial that was rung.
ghost use Rattle.std.specs.Prelude.{◌≡◌, ◌<◌};

use crate::lines::note;
use kernel_bell::{Bell, RingerSeat, RunnerSeat};
use kernel_hall::{
    Begun, Entry, Gate, Hall, HistoryName, Kernel, NewHistory, Note, Outcome, Passes,
    STEPS_OF_A_SLICE, Sliced, Turn, work,
};
use std::alloc::{AllocError, Global};
use std::sync::Wait;
use std::sync::ledger::{Blank, Ledger};
use tests_rows::Sheet;

/// The turns that a job has to end in.
const TURNS: u32 = 10;

/// A hall, with its runner's seat and a ringer's.
#[derive(Drop)]
pub(crate) struct Desk<W: Ledger, L: HistoryName> {
    pub hall: Hall<W, L>,
    pub seat: RunnerSeat,
    ringer: RingerSeat,
    ghost own: { seat.bell ≡ hall },
    ghost hears: { ringer.bell ≡ hall },
}

impl<W: Ledger, L: HistoryName> Desk<W, L> {
    /// A hall round a new kernel, with this bell and these seats of it, and the passes that it is to give.
    pub fn new(
        alloc: Global,
        writes: Blank,
        posts: Blank,
        history: NewHistory<Entry>,
        notes: NewHistory<Note>,
        bell: Bell,
        seat: RunnerSeat,
        ringer: RingerSeat,
    ) -> Result<(Desk<W, L>, Passes<L>), AllocError>
        requires writes { (writes.name ≡ W.name) × (writes.parts ≡ W.parts) × (1 < W.parts) }
        requires posts { (posts.name ≡ L.name) × (posts.parts ≡ 65537) × (posts.parts ≡ L.parts) }
        requires history { history ≡ L.history }
        requires notes { notes ≡ L.beside }
        requires bell { bell ≡ L.bell }
        requires seat { seat.bell ≡ bell }
        requires ringer { ringer.bell ≡ bell }
    {
        let Ok(kernel) = Kernel::new(alloc, writes) else {
            return Err(AllocError);
        };
        let (hall, passes) = Hall::new(alloc, posts, history, notes, kernel, bell);
        Ok((Desk { hall, seat, ringer }, passes))
    }

    /// Takes one turn.
    fn turn<R: Wait>(&mut self, rt: &R) -> Turn {
        self.hall.turn(rt, &mut self.seat, STEPS_OF_A_SLICE)
    }

    /// Asks the job that runs to stop: the serial that is rung.
    fn ring(&mut self) -> u64 {
        self.hall.bell().ring(&mut self.ringer)
    }

    /// Takes turns until a job ends: its outcome.
    fn run<R: Wait>(&mut self, rt: &R) -> Option<Outcome> {
        for _ in 0..TURNS {
            match self.turn(rt) {
                Turn::Cut(Sliced::Ended(outcome)) | Turn::Began(Begun::Ended(outcome)) => {
                    return Some(outcome);
                }
                _ => {}
            }
        }
        None
    }

    /// Writes the answer to a call, where it is the runner's. Whether it is.
    pub fn answers<R: Wait>(&mut self, rt: &R, call: &str, sheet: &mut Sheet) -> bool {
        match call {
            "run" => note("", &self.run(rt), sheet),
            "turn" => tell_turn(self.turn(rt), sheet),
            "ring" => note("", &self.ring(), sheet),
            _ => return false,
        }
        true
    }
}

/// Writes what a turn was.
fn tell_turn(turn: Turn, sheet: &mut Sheet) {
    match turn {
        Turn::Cut(sliced) => note("cut ", &sliced, sheet),
        Turn::Began(begun) => note("began ", &begun, sheet),
        Turn::Worn => sheet.write("worn"),
    }
}

/// The worker's side of a hall.
#[derive(Drop)]
pub(crate) struct Worker<'a, W: Ledger, L: HistoryName> {
    pub hall: &'a Hall<W, L>,
    pub seat: RunnerSeat,
    ghost own: { seat.bell ≡ hall.now },
}

impl<W: Ledger, L: HistoryName> Worker<'_, W, L> {
    /// Takes turns until the hall is shut, and passes this gate.
    pub fn serve<R: Wait, G: Gate + Drop>(self, rt: &R, mut gate: G) {
        let Worker { hall, seat } = self;
        work(hall, rt, seat, &mut gate);
    }
}
