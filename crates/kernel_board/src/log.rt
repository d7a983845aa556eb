//! The log that the lock keeps, and the parts of `publish` and `read_from` over it.
ghost use Rattle.std.specs.Prelude.{◌≡◌, ◌≤◌, [], IfOk, IsOk, OnErr, length, take, drop};
ghost use Rattle.kernel_board.specs.Log.{log, published, oldest_of, IsLog};
ghost use Rattle.kernel_board.specs.Reads.{IsRead, HasNews, read_limit};

use crate::broadcast::Broadcast;
use crate::fault::BoardFault;
use crate::limit::{BROADCASTS_OF_A_READ, KEPT_BROADCASTS};
use circular_buffer::HeapCircularBuffer;
use std::alloc::{AllocError, Global};
use std::marker::Model;

/// The last [`KEPT_BROADCASTS`] broadcasts, with consecutive numbers. Contracts see the number of the next broadcast, and those that are kept.
#[derive(Drop)]
pub struct BroadcastLog {
    ring: HeapCircularBuffer<Broadcast>,
    next: u64,
    alloc: Global,
}

impl Model for BroadcastLog {
    ghost use Rattle.std.specs.Prelude.{◌≡◌};
    ghost use Rattle.kernel_board.specs.Log.{Log, log, IsLog, kept_limit};

    ghost Value = { Log };

    ghost view = { λ l. log l.next l.ring.items };

    ghost invariant = { λ l. (l.ring.capacity ≡ kept_limit) × IsLog (log l.next l.ring.items) };
}

/// Where a reader stands: the number of the broadcast that it wants next.
#[derive(Clone, Copy, PartialEq, Eq)]
pub struct Place {
    /// The number.
    pub number: u64,
}

/// What a reader is told.
#[derive(Drop)]
pub enum Read {
    /// The broadcasts from its place on, none or at most [`BROADCASTS_OF_A_READ`], and the place after them.
    Got(Vec<Broadcast>, Place),
    /// The broadcast at its place is no longer kept. This is the place of the oldest that is.
    Lagged(Place),
}

impl BroadcastLog {
    /// An empty log, with the memory for all that it will keep.
    ///
    /// # Errors
    ///
    /// `AllocError` where there is no memory.
    pub fn new(alloc: Global) -> Result<BroadcastLog, AllocError>
        ensures { IfOk result (λ l. l ≡ log 0 []) }
    {
        let ring = HeapCircularBuffer::with_capacity(alloc, KEPT_BROADCASTS)?;
        Ok(BroadcastLog {
            ring,
            next: 0,
            alloc,
        })
    }

    /// The place after the last broadcast.
    pub fn end(&self) -> Place
        ensures { result.number ≡ self.now.next }
    {
        Place { number: self.next }
    }

    /// The place of the oldest broadcast that is kept, or the end where none is.
    pub fn oldest(&self) -> Place
        ensures oldest { result.number ≡ oldest_of self.now }
        ensures kept { IsLog self.now }
    {
        Place {
            number: self.next - self.ring.len() as u64,
        }
    }
}

/// Appends a broadcast and answers its number. Where the numbers have ended nothing is kept, and the answer is `u64::MAX`. It takes no
/// memory.
pub fn publish_on(log: &mut BroadcastLog, broadcast: Broadcast) -> u64
    ensures log { log.new ≡ published log.old broadcast }
    ensures number { result ≡ log.old.next }
{
    let number = log.next;
    if number < u64::MAX {
        log.ring.push_back(broadcast);
        log.next = number + 1;
    }
    number
}

/// Reads on from a place.
///
/// # Errors
///
/// `Memory`, only where there are broadcasts to give.
pub fn read_on(log: &BroadcastLog, place: Place) -> Result<Read, BoardFault>
    ensures read { IfOk result (λ r. IsRead log.now place.number r) }
    ensures fault { OnErr result (HasNews log.now place.number) }
    ensures kept { IsLog log.now }
{
    let oldest = log.oldest();
    if place.number < oldest.number {
        return Ok(Read::Lagged(oldest));
    }
    let got = batch(log, place.number - oldest.number)?;
    let next = Place {
        number: place.number + got.len() as u64,
    };
    Ok(Read::Got(got, next))
}

/// At most [`BROADCASTS_OF_A_READ`] of the broadcasts, without the first few.
fn batch(log: &BroadcastLog, skip: u64) -> Result<Vec<Broadcast>, BoardFault>
    ensures items { IfOk result (λ v. v.items ≡ take read_limit (drop skip log.now.items)) }
    ensures none { length log.now.items ≤ skip → IsOk result }
{
    let len = log.ring.len();
    let start = skip.min(len as u64) as usize;
    let end = len.min(start + BROADCASTS_OF_A_READ);
    let mut got: Vec<Broadcast> = Vec::with_capacity(log.alloc, end - start)?;
    for index in start..end {
        let Some(broadcast) = log.ring.get(index) else {
            break;
        };
        got.push_reserved(broadcast.clone()?);
    }
    Ok(got)
}
