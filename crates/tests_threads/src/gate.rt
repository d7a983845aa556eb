//! A gate that holds the worker of a hall after its first slice until it is let go, or that holds nobody.
//!
//! The worker and a frontend tell each other by a word that the worker has taken its first slice, and that it may go on; or that one of them waited
//! for too long. `held` waits until the worker is held, and `free` lets it go; each gives what the word was.
use kernel_hall::{Gate, Moment};
use std::sync::atomic::{AtomicU64, Ordering};
use std::thread;

/// Nobody waits for more turns than these.
const TURNS: u32 = 1_000_000;

/// The worker has taken its first slice.
const HELD: u64 = 1;

/// It may go on.
pub(crate) const FREE: u64 = 2;

/// One of them waited for too long.
const LATE: u64 = 3;

/// Waits until the word is this.
fn await_word(word: &AtomicU64, wanted: u64) {
    for _ in 0..TURNS {
        if word.load(Ordering::SeqCst) == wanted {
            return;
        }
        thread::yield_now();
    }
    word.store(LATE, Ordering::SeqCst);
}

/// How a word is told.
fn told(word: u64) -> &'static str {
    match word {
        HELD => "held",
        FREE => "free",
        LATE => "late",
        _ => "begun",
    }
}

/// Waits until the worker is held.
pub(crate) fn await_held(word: &AtomicU64) -> &'static str {
    await_word(word, HELD);
    told(word.load(Ordering::SeqCst))
}

/// Lets the worker go: what the word was.
pub(crate) fn let_go(word: &AtomicU64) -> &'static str {
    told(word.swap(FREE, Ordering::SeqCst))
}

/// The gate. A worker that held the lock of the hall there would be late.
#[derive(Drop)]
pub(crate) struct Hold<'a> {
    word: &'a AtomicU64,
    is_over: bool,
}

impl Gate for Hold<'_> {
    fn pass(&mut self, moment: Moment) {
        if matches!(moment, Moment::AfterSlice) && !self.is_over {
            self.is_over = true;
            self.word.store(HELD, Ordering::SeqCst);
            await_word(self.word, FREE);
        }
    }
}

/// A gate, which holds the worker or doesn't.
pub(crate) fn gate(word: &AtomicU64, holds: bool) -> Hold<'_> {
    Hold {
        word,
        is_over: !holds,
    }
}
