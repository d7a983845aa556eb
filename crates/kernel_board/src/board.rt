//! The board that threads share.
ghost use Rattle.std.specs.Prelude.{IfOk};
ghost use Rattle.kernel_board.specs.Log.{Log, IsLog};
ghost use Rattle.kernel_board.specs.Reads.{IsRead};

use crate::broadcast::Broadcast;
use crate::fault::BoardFault;
use crate::log::{BroadcastLog, Place, Read, publish_on, read_on};
use std::alloc::{AllocError, Global};
use std::sync::{Mutex, Wait};

/// The last [`KEPT_BROADCASTS`](crate::KEPT_BROADCASTS) broadcasts, under a lock.
#[derive(Drop)]
pub struct Board {
    log: Mutex<BroadcastLog>,
}

impl Board {
    /// A board with nothing on it, and with the memory for all that it will keep.
    ///
    /// # Errors
    ///
    /// `AllocError` where there is no memory.
    pub fn new(alloc: Global) -> Result<Board, AllocError> {
        let log = BroadcastLog::new(alloc)?;
        Ok(Board {
            log: Mutex::new(log),
        })
    }

    /// Appends a broadcast and answers its number: `publish_on` under the lock. It takes no memory.
    pub fn publish<R: Wait>(&self, rt: &R, broadcast: Broadcast) -> u64 {
        publish_on(&mut *self.log.lock(rt), broadcast)
    }

    /// The place after the last broadcast.
    pub fn join<R: Wait>(&self, rt: &R) -> Place {
        self.log.lock(rt).end()
    }

    /// Reads on from a place: `read_on` under the lock. A reader that is refused still has its place.
    ///
    /// # Errors
    ///
    /// `Memory`, only where there are broadcasts to give.
    pub fn read_from<R: Wait>(&self, rt: &R, place: Place) -> Result<Read, BoardFault>
        ensures { IfOk result (λ r. (k : Log) × IsLog k × IsRead k place.number r) }
    {
        read_on(&*self.log.lock(rt), place)
    }
}
