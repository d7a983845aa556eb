//! Rows of what a desk publishes under a hall's lock, and of the two halves of a subscriber's connection over memory, with frontends of ZMTP 3.0 and
//! of 3.1, with their answers.
//!
//! No contract says what lies under a lock. These rows show what a desk publishes and reads back, what a subscriber is sent of it, that pings which
//! wait are answered in their order, each once with its context, when the watcher of each half is told, and where the limits of a subscriber end its
//! connection. A block of `desk` is two desks
//! before a hall of their own, any other a subscriber at a bulletin of its own; what may stand in its rows is said by these two modules.
//!
//! The rows stand in the part `== publishing` of the files `stdin` and `stdout` of `tests_calls`.
#![tactic(auto)]

mod desk;
mod line;
mod notices;
mod pinging;
mod subscriber;
mod worker;

use std::sync::Wait;
use std::thread::Threads;
use std::time::Clock;
use tests_rows::{Sheet, cut_block};

/// Writes a block, with the answers to its calls.
pub fn tell<R: Threads + Wait + Clock + Sync>(rt: &R, block: &str, sheet: &mut Sheet) {
    let (title, subject, calls) = cut_block(block);
    sheet.write(title);
    sheet.write("\n");
    match subject {
        "desk" => desk::tell(rt, calls, sheet),
        _ => subscriber::tell(rt, calls, sheet),
    }
    sheet.write("\n");
}
