//! Rows of the interrupt bell, with its runner and one of its ringers. `seats` gives how many seats of ringers it has, `serial` the serial of the job
//! that was begun last. The runner begins a job (`begin`: its serial) and looks whether that is asked to stop (`asked`: 1, or 0); the ringer looks
//! which job runs (`look`), raises the bell to the job that it saw (`raise`), or both (`ring`), and is answered a serial.
ghost use Rattle.std.specs.Prelude.{◌≡◌};

use crate::lines::{begin, note};
use kernel_bell::{Bell, RingerSeat, RunnerSeat};
use tests_rows::Sheet;

/// The seats of ringers of the bell.
const RINGERS: usize = 64;

/// The runner, at its bell.
#[derive(Drop)]
pub(crate) struct Runner<'a> {
    pub bell: &'a Bell,
    pub seat: RunnerSeat,
    ghost own: { seat.bell ≡ bell.now },
}

impl Runner<'_> {
    /// Begins a job, and answers its serial; 0 after the last serial.
    pub(crate) fn begin(&mut self) -> u64 {
        if self.seat.serial() == u64::MAX {
            return 0;
        }
        self.bell.begin(&mut self.seat)
    }

    /// Whether the job is asked to stop.
    pub(crate) fn asked(&mut self) -> bool {
        self.bell.asked(&mut self.seat)
    }
}

/// A ringer, at its bell.
#[derive(Drop)]
pub(crate) struct Ringer<'a> {
    pub bell: &'a Bell,
    pub seat: RingerSeat,
    ghost own: { seat.bell ≡ bell.now },
}

impl Ringer<'_> {
    fn look(&mut self) -> u64 {
        self.bell.look(&mut self.seat)
    }

    fn raise(&mut self) -> u64 {
        self.bell.raise(&mut self.seat)
    }

    /// A look and a raise: the serial that is rung.
    pub(crate) fn ring(&mut self) -> u64 {
        self.bell.ring(&mut self.seat)
    }
}

/// Writes the calls at a new bell with their answers.
pub(crate) fn tell(calls: &str, sheet: &mut Sheet) {
    match Bell::new(sheet.alloc(), RINGERS) {
        Ok((bell, seat, mut seats)) => {
            let count = seats.len();
            let mut runner = Runner { bell: &bell, seat };
            if let Some(seat) = seats.pop() {
                let mut ringer = Ringer { bell: &bell, seat };
                tell_calls(count, &mut runner, &mut ringer, calls, sheet);
            }
        }
        Err(_) => sheet.refuse(),
    }
}

/// Writes the calls with their answers.
fn tell_calls(
    seats: usize,
    runner: &mut Runner<'_>,
    ringer: &mut Ringer<'_>,
    calls: &str,
    sheet: &mut Sheet,
) {
    for call in calls.lines() {
        begin(call, sheet);
        note("", &answer(seats, runner, ringer, call), sheet);
        sheet.write("\n");
    }
}

/// The answer to a call.
fn answer(seats: usize, runner: &mut Runner<'_>, ringer: &mut Ringer<'_>, call: &str) -> u64 {
    match call {
        "seats" => seats as u64,
        "serial" => runner.seat.serial(),
        "begin" => runner.begin(),
        "asked" => u64::from(runner.asked()),
        "look" => ringer.look(),
        "raise" => ringer.raise(),
        _ => ringer.ring(),
    }
}
