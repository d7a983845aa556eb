//! Rows of what threads share, with their answers: the interrupt bell, the board of broadcasts and the hall, from one thread and from many.
//!
//! They show what no contract says of what lies under a lock, and that the calls work beside each other. The threads end by themselves, after bounded
//! turns, once the jobs that they wait for have ended, or once a row has shut their hall, and the answers are the same under any schedule in which
//! nobody waits for a number of turns. What may stand in the rows of a block is said by the module that tells its answers: a block of `board`, of `bell`,
//! of `rings`, of a `hall`, or of a `held hall`, the worker of which is held by its gate after its first slice.
//!
//! The rows stand in the part `== threads` of the files `stdin` and `stdout` of `tests_calls`.
#![tactic(auto)]

mod bell;
mod board;
mod broadcasts;
mod desk;
mod frontends;
mod gate;
mod hall;
mod lines;
mod posters;
mod rings;
mod runners;

use std::sync::Wait;
use std::thread::Threads;
use tests_rows::{Sheet, cut_block};

/// Writes a block, with the answers to its calls.
pub fn tell<R: Threads + Wait + Sync>(rt: &R, block: &str, sheet: &mut Sheet) {
    let (title, subject, calls) = cut_block(block);
    sheet.write(title);
    sheet.write("\n");
    match subject {
        "board" => board::tell(rt, calls, sheet),
        "bell" => bell::tell(calls, sheet),
        "rings" => rings::tell(rt, calls, sheet),
        "held hall" => hall::tell(rt, calls, true, sheet),
        _ => hall::tell(rt, calls, false, sheet),
    }
    sheet.write("\n");
}
