//! The worker.
ghost use Rattle.std.specs.Prelude.{◌≡◌};

use crate::hall::Hall;
use hall_state::{Begun, HistoryName, STEPS_OF_A_SLICE, Sliced, Turn};
use kernel_bell::RunnerSeat;
use std::sync::Wait;
use std::sync::ledger::Ledger;

/// When a gate is passed.
#[derive(Clone, Copy)]
pub enum Moment {
    BeforeBegin,
    AfterSlice,
}

/// What the worker calls with the lock free, before each begin and after each slice.
pub trait Gate {
    fn pass(&mut self, moment: Moment);
}

/// Takes turns until the kernel is shut and nothing is left, or the bell's serials are used up.
pub fn work<W: Ledger, L: HistoryName, R: Wait, G: Gate>(
    hall: &Hall<W, L>,
    rt: &R,
    mut runner: RunnerSeat,
    gate: &mut G,
)
    requires { runner.bell ≡ hall.now }
{
    let mut is_inside = false;
    for _ in rt.forever() {
        if !is_inside {
            if !hall.wait_for_work(rt) {
                break;
            }
            gate.pass(Moment::BeforeBegin);
        }
        match hall.turn(rt, &mut runner, STEPS_OF_A_SLICE) {
            Turn::Worn => break,
            Turn::Began(begun) => is_inside = begun == Begun::Going,
            Turn::Cut(sliced) => {
                is_inside = sliced == Sliced::Going || sliced == Sliced::Backing;
                gate.pass(Moment::AfterSlice);
                hall.give_way();
            }
        }
    }
}
