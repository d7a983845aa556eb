//! What the rows of the crates of tests are written in: blocks of calls, words, numbers, texts with escapes and repeated parts, octets
//! and frames.
//!
//! The rows of such a crate are a text of blocks with an empty line between them. The first line of a block says what its rows
//! are about, and behind a colon what they show. Each further line is a call: a word, and what stands behind it. What is printed
//! are the same lines, each call with a colon and its answer. Answers are written on a [`Sheet`], which keeps that memory was refused.
#![tactic(auto)]

mod octets;
mod sheet;
mod texts;

pub use octets::{cut_frame, frames_of, frames_shown, octets_of};
pub use sheet::Sheet;
use std::alloc::{AllocError, Global};
use std::fmt::Debug;
pub use texts::{unescaped, written};

/// A value as `Debug` writes it.
pub fn shown<T: Debug>(alloc: Global, value: &T) -> Result<String, AllocError> {
    format!(in alloc; "{value:?}")
}

/// A word, and what stands behind it.
pub fn cut(row: &str) -> (&str, &str) {
    row.split_once(' ').unwrap_or((row, ""))
}

/// A cell of a row, and what stands behind its `|`.
pub fn cut_cell(row: &str) -> (&str, &str) {
    row.split_once('|').unwrap_or((row, ""))
}

/// A number that is written in digits; 0 for anything else.
pub fn number(word: &str) -> usize {
    word.parse::<usize>().unwrap_or(0)
}

/// The first line of a block, what it says the block is about, and the further lines.
pub fn cut_block(block: &str) -> (&str, &str, &str) {
    let (title, calls) = block.split_once('\n').unwrap_or((block, ""));
    let (subject, _) = title.split_once(':').unwrap_or((title, ""));
    (title, subject, calls)
}
