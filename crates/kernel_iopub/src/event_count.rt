//! What a thread waits for that has several things to look at.
use std::sync::Wait;
use std::sync::atomic::{AtomicBool, AtomicU64, Ordering};

/// The bits of a count that a thread can sleep on.
const LOW_BITS: u64 = 0xffff_ffff;

/// A count that rises whenever there is something to look at. One thread waits for it at a time. No lock is taken.
#[derive(Drop)]
pub struct EventCount {
    count: AtomicU64,
    /// A thread waits, or is about to: nobody else wakes anyone.
    is_awaited: AtomicBool,
}

impl EventCount {
    /// A count that hasn't risen. It takes no memory.
    pub fn new() -> EventCount {
        EventCount {
            count: AtomicU64::new(0),
            is_awaited: AtomicBool::new(false),
        }
    }

    /// The count, which is to be taken before one looks.
    pub fn seen(&self) -> u64 {
        self.count.load(Ordering::SeqCst)
    }

    /// There is something to look at: what was done before is seen by each who looks after the count has risen. It asks the system for a wake only if a
    /// thread waits, or is about to.
    pub fn raise(&self) {
        let _before = self.count.fetch_add(1, Ordering::SeqCst);
        if self.is_awaited.load(Ordering::SeqCst) {
            self.count.wake_all();
        }
    }

    /// Waits until the count is another one than was seen. The thread sleeps meanwhile.
    pub fn wait_past<R: Wait>(&self, rt: &R, seen: u64) {
        // Who raises the count after the next look sees this.
        self.is_awaited.store(true, Ordering::SeqCst);
        for _ in rt.forever() {
            if self.seen() != seen {
                break;
            }
            // It doesn't sleep if the count has risen since.
            self.count.park(rt, (seen & LOW_BITS) as u32);
        }
        self.is_awaited.store(false, Ordering::SeqCst);
    }
}
