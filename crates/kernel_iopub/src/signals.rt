//! What is told of one subscriber without its lock.
use crate::event_count::EventCount;
use std::sync::atomic::{AtomicBool, AtomicUsize, Ordering};

/// What the two halves of a subscriber's connection, and who publishes, tell each other without the subscriber's lock.
#[derive(Drop)]
pub struct Signals {
    /// It rises once the writing half has something to do.
    event_count: EventCount,
    /// The writing half reads the board: a broadcast is something to do for it.
    is_reading: AtomicBool,
    /// How many pings were answered since the reading half took note of that last.
    answered: AtomicUsize,
}

impl Signals {
    /// Those of a place at which no subscriber has been yet. It takes no memory.
    pub fn new() -> Signals {
        Signals {
            event_count: EventCount::new(),
            is_reading: AtomicBool::new(false),
            answered: AtomicUsize::new(0),
        }
    }

    /// A subscriber comes to the place.
    pub(crate) fn begin(&self) {
        self.is_reading.store(false, Ordering::SeqCst);
        self.answered.store(0, Ordering::SeqCst);
    }

    /// The count that rises once the writing half has something to do.
    pub fn event_count(&self) -> &EventCount {
        &self.event_count
    }

    /// The writing half reads the board from now on.
    pub(crate) fn read_on(&self) {
        self.is_reading.store(true, Ordering::SeqCst);
    }

    /// Wakes the writing half, if it reads the board.
    pub(crate) fn wake_reader(&self) {
        if self.is_reading.load(Ordering::SeqCst) {
            self.event_count.raise();
        }
    }

    /// One ping more was answered.
    pub(crate) fn note_answered(&self) {
        let _before = self.answered.fetch_add(1, Ordering::SeqCst);
    }

    /// How many pings were answered since this was asked last.
    pub(crate) fn take_answered(&self) -> usize {
        self.answered.swap(0, Ordering::SeqCst)
    }
}
