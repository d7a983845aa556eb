//! Rows of texts, cells, schedules and transcripts with their answers, through the public calls of the Janus crates, of the kernel over
//! them and of `janus-cells`: what no contract says.
//!
//! Contracts say what each call answers where it succeeds. Here each call that takes memory is seen to succeed, and to answer
//! what was worked out by hand. What may stand in the rows of a block is said by the module that tells its answers.
//!
//! The rows stand in the part `== janus` of the files `stdin` and `stdout` of `tests_calls`.
#![tactic(auto)]

mod cell_trees;
mod checks;
mod comms;
mod limits;
mod lines;
mod octets;
mod outlines;
mod questions;
mod rows;
mod schedules;
mod statements;
mod steps;
mod stores;
mod streams;
mod subject;
mod sweeps;
mod texts;
mod transcripts;
mod values;

use crate::subject::{Plain, tell_rows};
use tests_rows::{Sheet, cut_block};

/// Writes a block, with the answers to its calls.
pub fn tell(block: &str, sheet: &mut Sheet) {
    let (title, subject, calls) = cut_block(block);
    sheet.write(title);
    sheet.write("\n");
    tell_calls(subject, calls, sheet);
    sheet.write("\n");
}

/// Writes the calls of a block with their answers.
fn tell_calls(subject: &str, calls: &str, sheet: &mut Sheet) {
    match subject {
        "cells" => checks::tell(calls, sheet),
        "tree" => cell_trees::tell(calls, sheet),
        "comms" => comms::tell(calls, sheet),
        "kernel" => schedules::tell(calls, sheet),
        _ => tell_rows(&mut Plain { subject }, calls, sheet),
    }
}
