//! The worker of the hall before which the desks are.
ghost use Rattle.std.specs.Prelude.{◌≡◌};

use kernel_bell::RunnerSeat;
use kernel_desk::{Gate, Hall, HistoryName, Moment, work};
use std::sync::Wait;
use std::sync::ledger::Ledger;

/// The worker's side of a hall.
#[derive(Drop)]
pub(crate) struct Worker<'a, W: Ledger, L: HistoryName> {
    pub hall: &'a Hall<W, L>,
    seat: RunnerSeat,
    ghost own: { seat.bell ≡ hall.now },
}

impl<'a, W: Ledger, L: HistoryName> Worker<'a, W, L> {
    /// The worker of a hall, with the runner's seat of its bell.
    pub fn new(hall: &'a Hall<W, L>, seat: RunnerSeat) -> Worker<'a, W, L>
        requires { seat.bell ≡ hall.now }
        ensures { result.hall.now ≡ hall.now }
    {
        Worker { hall, seat }
    }

    /// Takes turns until the hall is shut.
    pub fn serve<R: Wait>(self, rt: &R) {
        let Worker { hall, seat } = self;
        let mut gate = OpenGate;
        work(hall, rt, seat, &mut gate);
    }
}

/// A gate that holds nobody.
#[derive(Drop)]
struct OpenGate;

impl Gate for OpenGate {
    fn pass(&mut self, _moment: Moment) {}
}
