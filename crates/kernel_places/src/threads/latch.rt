//! What happens once, and for which threads wait.
use std::sync::atomic::{AtomicBool, Ordering};
use std::sync::{Condvar, Mutex, Wait};
use std::time::{Clock, Duration};

/// A latch: it is set once, and any thread can wait until it is.
#[derive(Drop)]
pub(crate) struct Latch {
    is_set: AtomicBool,
    set: Mutex<bool>,
    setting: Condvar,
}

impl Latch {
    /// It isn't set.
    pub fn new() -> Latch {
        Latch {
            is_set: AtomicBool::new(false),
            set: Mutex::new(false),
            setting: Condvar::new(),
        }
    }

    /// Whether it is set. It takes no lock.
    pub fn is_set(&self) -> bool {
        self.is_set.load(Ordering::SeqCst)
    }

    /// Sets it, and wakes all who wait.
    pub fn set<R: Wait>(&self, rt: &R) {
        self.is_set.store(true, Ordering::SeqCst);
        let mut set = self.set.lock(rt);
        *set = true;
        drop(set);
        self.setting.notify_all();
    }

    /// Waits until it is set, or for so long. Whether it is set.
    pub fn wait_for<R: Wait + Clock>(&self, rt: &R, most: Duration) -> bool {
        let set = self.set.lock(rt);
        drop(self.setting.wait_timeout_while(rt, set, most, |set| !*set));
        self.is_set()
    }

    /// Waits until it is set.
    pub fn wait<R: Wait>(&self, rt: &R) {
        drop(self.setting.wait_while(rt, self.set.lock(rt), |set| !*set));
    }
}
