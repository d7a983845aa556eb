//! The broadcasts of a kernel, and who waits for more.
ghost use Rattle.std.specs.Prelude.{◌≡◌, ◌≤◌, IfNone, IfOk, length};
ghost use Rattle.kernel_board.specs.Log.{Log, IsLog};
ghost use Rattle.kernel_board.specs.Reads.{IsRead};

use crate::signals::Signals;
use kernel_board::{Board, BoardFault, Broadcast, Place, Read};
use std::alloc::{AllocError, Global};
use std::sync::Wait;

/// The board, and at each place of a subscriber the signals of the one that is there.
#[derive(Drop)]
pub struct Bulletin {
    board: Board,
    signals: Vec<Signals>,
}

impl Bulletin {
    /// A board with nothing on it, and a number of places for subscribers.
    ///
    /// # Errors
    ///
    /// `AllocError` where there is no memory.
    pub fn new(alloc: Global, places: usize) -> Result<Bulletin, AllocError>
        ensures places { IfOk result (λ b. length b.signals.items ≡ places) }
    {
        let board = Board::new(alloc)?;
        let signals = signals_of(alloc, places)?;
        Ok(Bulletin { board, signals })
    }

    /// Appends a broadcast to the board, as `kernel_board::publish_on` does to the log under its lock. It takes no memory, and wakes nobody. One that no
    /// reader takes, as it passes a limit of the wire, is left out, since each subscriber to it would have to be disconnected.
    pub fn publish<R: Wait>(&self, rt: &R, broadcast: Broadcast) {
        if broadcast.octets().is_none() {
            return;
        }
        let _number = self.board.publish(rt, broadcast);
    }

    /// Wakes each subscriber that reads the board: its count rises, so it finds what was published before as it looks then. Nobody else is woken, and no
    /// lock is taken.
    pub fn wake(&self) {
        for signals in &self.signals {
            signals.wake_reader();
        }
    }

    /// Wakes all who wait at any place.
    pub fn wake_all(&self) {
        for signals in &self.signals {
            signals.event_count().raise();
        }
    }

    /// The place after the last broadcast: the end of the log as it is under the board's lock.
    pub fn join<R: Wait>(&self, rt: &R) -> Place {
        self.board.join(rt)
    }

    /// Reads on from a place.
    ///
    /// # Errors
    ///
    /// `Memory`, only where there are broadcasts to give.
    pub fn read_from<R: Wait>(&self, rt: &R, place: Place) -> Result<Read, BoardFault>
        ensures { IfOk result (λ r. (k : Log) × IsLog k × IsRead k place.number r) }
    {
        self.board.read_from(rt, place)
    }

    /// The signals of the subscriber at a place, if there is such a place.
    pub fn signals(&self, place: usize) -> Option<&Signals>
        ensures { IfNone result (length self.now.signals.items ≤ place) }
    {
        self.signals.get(place)
    }
}

/// The signals of a number of places at which no subscriber has been yet.
fn signals_of(alloc: Global, places: usize) -> Result<Vec<Signals>, AllocError>
    ensures { IfOk result (λ signals. length signals.items ≡ places) }
{
    let mut signals = Vec::with_capacity(alloc, places)?;
    for _ in 0..places {
        signals.push(Signals::new())?;
    }
    Ok(signals)
}
