//! Where frontends wait for the ends of jobs.
ghost use Rattle.std.specs.Prelude.{◌<◌};
ghost use Rattle.kernel_hall.specs.declared.ends.TheConstants.{END_PLACES};

use crate::spin::{LOOKS_FOR_END, watch};
use std::sync::atomic::{AtomicBool, Ordering};
use std::sync::{Condvar, MutexGuard, Wait};

/// The number of places at which frontends wait for an end.
const END_PLACES: usize = 16;

/// Places to wait at, by the numbers of jobs, so that an end wakes few that wait for another.
#[derive(Drop)]
pub(crate) struct Ends {
    places: [Condvar; END_PLACES],
    /// Whether a thread watches one of them.
    is_watched: AtomicBool,
}

impl Ends {
    /// Places at which nobody waits.
    pub fn new() -> Ends {
        Ends {
            places: [
                Condvar::new(),
                Condvar::new(),
                Condvar::new(),
                Condvar::new(),
                Condvar::new(),
                Condvar::new(),
                Condvar::new(),
                Condvar::new(),
                Condvar::new(),
                Condvar::new(),
                Condvar::new(),
                Condvar::new(),
                Condvar::new(),
                Condvar::new(),
                Condvar::new(),
                Condvar::new(),
            ],
            is_watched: AtomicBool::new(false),
        }
    }

    /// How often those were woken who wait for the job of this number: to be taken before one looks under the lock.
    pub fn wakings(&self, number: u64) -> u64 {
        self.places[place_of(number)].notifications()
    }

    /// Watches for a while whether those are woken who wait for the job of this number, once more than the wakings that were seen. One
    /// thread does at a time, so that many who wait keep no processors busy: another one goes on at once.
    pub fn watch(&self, number: u64, seen: u64) {
        if self.is_watched.swap(true, Ordering::SeqCst) {
            return;
        }
        watch(&self.places[place_of(number)], seen, LOOKS_FOR_END);
        self.is_watched.store(false, Ordering::SeqCst);
    }

    /// Wakes those who wait for the job of this number.
    pub fn wake(&self, number: u64) {
        self.places[place_of(number)].notify_all();
    }

    /// Waits, with the lock free, until somebody is woken who waits for the job of this number.
    pub fn wait<'a, T, R: Wait>(
        &self,
        rt: &R,
        number: u64,
        guard: MutexGuard<'a, T>,
    ) -> MutexGuard<'a, T> {
        self.places[place_of(number)].wait(rt, guard)
    }
}

/// The place of a number.
fn place_of(number: u64) -> usize
    ensures { result < END_PLACES }
{
    (number % END_PLACES as u64) as usize
}
