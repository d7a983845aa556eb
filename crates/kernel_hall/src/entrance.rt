//! How frontends come to the lock beside a worker that takes it again and again.
use std::hint::spin_loop;
use std::sync::atomic::{AtomicU64, Ordering};
use std::sync::{Mutex, MutexGuard, Wait};

/// The looks that one takes: 50 microseconds on a machine that spins fast, half a millisecond on a slow one, where a slice takes some 50. A thread that
/// slept is awake again within that time.
const LOOKS_FOR_LOCK: u32 = 8192;

/// How many frontends came to the lock, and how many of these have had it. The worker lets the lock go behind a slice, and would have taken it again
/// before a thread that slept for it is awake: so it looks here first. No contract speaks of it.
#[derive(Drop)]
pub(crate) struct Entrance {
    came: AtomicU64,
    entered: AtomicU64,
}

impl Entrance {
    /// Nobody came yet.
    pub fn new() -> Entrance {
        Entrance {
            came: AtomicU64::new(0),
            entered: AtomicU64::new(0),
        }
    }

    /// Takes the lock for a frontend. One that nobody else is in front of tries for a while before it sleeps.
    pub fn enter<'a, T, R: Wait>(&self, rt: &R, lock: &'a Mutex<T>) -> MutexGuard<'a, T> {
        let before = self.came.fetch_add(1, Ordering::SeqCst);
        let is_next = before == self.entered.load(Ordering::SeqCst);
        let tried = if is_next { tried(lock) } else { None };
        let guard = match tried {
            Some(guard) => guard,
            None => lock.lock(rt),
        };
        self.entered.fetch_add(1, Ordering::SeqCst);
        guard
    }

    /// Waits, without the lock and for a bounded number of looks, until those have had the lock who had come by now.
    pub fn give_way(&self) {
        let came = self.came.load(Ordering::SeqCst);
        for _ in 0..LOOKS_FOR_LOCK {
            if self.entered.load(Ordering::SeqCst) >= came {
                return;
            }
            spin_loop();
        }
    }
}

/// The lock, if it was free at one of [`LOOKS_FOR_LOCK`] looks.
fn tried<T>(lock: &Mutex<T>) -> Option<MutexGuard<'_, T>> {
    for _ in 0..LOOKS_FOR_LOCK {
        if let Some(guard) = lock.try_lock() {
            return Some(guard);
        }
        spin_loop();
    }
    None
}
