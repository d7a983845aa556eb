//! The inputs of the history, and a range of them.
ghost use Rattle.std.specs.Prelude.{◌≡◌, ◌++◌, ◌+◌, ◌<◌, ◌^◌, [], ◌∷◌, None, length, map, IfOk, OnOk};
ghost use Rattle.std.specs.List.{filter};
ghost use Rattle.std.specs.Option.{MatchOption};
ghost use Rattle.kernel_text.specs.Written.{entry_of};
ghost use Rattle.kernel_ask.specs.History.{texts_in, inputs, is_within as is_within_of, input_of};

use kernel_text::{Entry, Job};
use std::alloc::{AllocError, Global};

/// A cell of the history: the number under which it was counted, from 1 on, and its text.
#[derive(Debug, Drop)]
pub struct Input {
    pub number: u64,
    pub code: String,
}

/// Which inputs are asked for.
#[derive(Clone, Copy)]
pub enum HistoryAsk {
    /// Those of a session from the number `start` on, without `stop`. The present session is 1, and also 0; of others nothing
    /// is kept.
    Range {
        session: i64,
        start: u64,
        stop: Option<u64>,
    },
    /// The last ones, as many as this number.
    Tail(u64),
}

/// The text of a post of a cell that is counted.
pub(crate) fn counted_code(entry: &Entry) -> Option<&str>
    ensures { MatchOption result (texts_in (entry_of entry.now) ≡ []) (λ code. texts_in (entry_of entry.now) ≡ code.now ∷ []) }
{
    match entry {
        Entry::Posted { lane: _, job } => match job {
            Job::Cell {
                code,
                silent,
                store,
            } => {
                if !*silent && *store {
                    Some(code.as_str())
                } else {
                    None
                }
            }
            Job::Undo(_) => None,
            Job::Redo(_) => None,
            Job::Goto(_) => None,
        },
        Entry::Ended {
            number: _,
            outcome: _,
            count: _,
            node: _,
        } => None,
    }
}

/// Whether the number is at or behind the start, and in front of the stop if there is one.
fn is_within(start: u64, stop: Option<u64>, n: u64) -> bool
    ensures { result ≡ is_within_of start stop n }
{
    match stop {
        None => start <= n,
        Some(stop) => start <= n && n < stop,
    }
}

/// Adds an input.
pub(crate) fn add(
    alloc: Global,
    told: &mut Vec<Input>,
    number: u64,
    code: &str,
) -> Result<(), AllocError>
    ensures { OnOk result (map input_of told.new.items ≡ map input_of told.old.items ++ (number, code.now) ∷ []) }
{
    let code = String::from_str(alloc, code)?;
    told.push(Input { number, code })?;
    Ok(())
}

/// Adds an input, if its number is within the range.
fn tell(
    alloc: Global,
    told: &mut Vec<Input>,
    number: u64,
    code: &str,
    start: u64,
    stop: Option<u64>,
) -> Result<(), AllocError>
    ensures { OnOk result (map input_of told.new.items
        ≡ map input_of told.old.items ++ filter (λ i. is_within_of start stop i.0) ((number, code.now) ∷ [])) }
{
    if is_within(start, stop, number) {
        add(alloc, told, number, code)?;
    }
    Ok(())
}

/// The inputs from the start up to the stop, without the stop.
pub(crate) fn range(
    alloc: Global,
    entries: &[Entry],
    counter: u64,
    start: u64,
    stop: Option<u64>,
) -> Result<Vec<Input>, AllocError>
    ensures { IfOk result (λ v. map input_of v.items
        ≡ filter (λ i. is_within_of start stop i.0) (inputs (map entry_of entries.now) counter)) }
{
    let mut told = Vec::new(alloc);
    let mut number = 0;
    for entry in entries {
        let Some(code) = counted_code(entry) else {
            continue;
        };
        if number < counter {
            number += 1;
            tell(alloc, &mut told, number, code, start, stop)?;
        }
    }
    Ok(told)
}
