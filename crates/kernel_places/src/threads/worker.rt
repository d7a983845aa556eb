//! The worker, which runs the cells.
ghost use Rattle.std.specs.Prelude.{◌≡◌};

use crate::threads::latch::Latch;
use kernel_bell::RunnerSeat;
use kernel_desk::{Gate, Hall, HistoryName, Moment, work};
use std::sync::Wait;
use std::sync::ledger::Ledger;

/// A gate that holds nothing up.
#[derive(Drop)]
struct OpenGate;

impl Gate for OpenGate {
    fn pass(&mut self, _moment: Moment) {}
}

/// The worker before it begins. Its type keeps that the seat is that of the hall's bell.
#[derive(Drop)]
pub(crate) struct Worker<'a, W: Ledger, L: HistoryName> {
    hall: &'a Hall<W, L>,
    seat: RunnerSeat,
    ghost own: { seat.bell ≡ hall.now },
}

impl<'a, W: Ledger, L: HistoryName> Worker<'a, W, L> {
    /// The worker of a hall.
    pub fn new(hall: &'a Hall<W, L>, seat: RunnerSeat) -> Worker<'a, W, L>
        requires { seat.bell ≡ hall.now }
    {
        Worker { hall, seat }
    }

    /// Takes turns until the hall is shut and nothing is left, and tells that it has come to its end.
    pub fn run<R: Wait>(self, rt: &R, rested: &Latch) {
        let Worker { hall, seat } = self;
        let mut gate = OpenGate;
        work(hall, rt, seat, &mut gate);
        rested.set(rt);
    }
}
