//! The last inputs. They are found from the end of the minutes, which are read no further back than the tail and what waits in front of
//! it.
ghost use Rattle.std.specs.Prelude.{◌≡◌, ◌≤◌, ◌+◌, ◌-◌, map, drop, reverse, IfOk};
ghost use Rattle.kernel_text.specs.Minutes.{posts_of, posted_in};
ghost use Rattle.kernel_text.specs.Counters.{counted_to};
ghost use Rattle.kernel_text.specs.Written.{entry_of};
ghost use Rattle.kernel_ask.specs.History.{inputs, input_of};
ghost use Rattle.kernel_ask.specs.Tail.{AreKept, last_end as last_end_of, counted_in};

use crate::inputs::{Input, add, counted_code};
use kernel_text::Entry;
use std::alloc::{AllocError, Global};

/// The number of the last job that has ended and its counter, or zeros where none has.
fn last_end(entries: &[Entry]) -> (u64, u64)
    ensures { result ≡ last_end_of (0, 0) (map entry_of entries.now) }
{
    let mut rest = entries;
    while let Some((entry, front)) = rest.split_last() {
        match entry {
            Entry::Posted { lane: _, job: _ } => rest = front,
            Entry::Ended {
                number,
                outcome: _,
                count,
                node: _,
            } => return (*number, *count),
        }
    }
    (0, 0)
}

/// How many of the last `posts` posts are counted cells.
fn counted_last(entries: &[Entry], posts: usize) -> u64
    ensures { let minutes = map entry_of entries.now in
        result + counted_to (posted_in minutes - posts) (posts_of minutes) ≡ counted_in minutes }
{
    let mut rest = entries;
    let mut left = posts;
    let mut number = 0;
    while let Some((entry, front)) = rest.split_last() {
        if left == 0 {
            break;
        }
        if let Entry::Posted { lane: _, job } = entry {
            left -= 1;
            number += u64::from(job.is_counted());
        }
        rest = front;
    }
    number
}

/// How many counted cells were posted, begun or not: those of the jobs that have ended, as the last end tells, and those among the posts of
/// the others.
fn counted(entries: &[Entry], counter: u64) -> u64
    requires { AreKept (map entry_of entries.now) counter }
    ensures exact { result ≡ counted_in (map entry_of entries.now) }
    ensures begun { counter ≤ result }
{
    let (ended, count) = last_end(entries);
    let open = entries.len() - 2 * ended as usize;
    count + counted_last(entries, open)
}

/// The begun inputs behind the first `before`, the last first, where `posted` counted cells were posted.
fn last_first(
    alloc: Global,
    entries: &[Entry],
    counter: u64,
    posted: u64,
    before: u64,
) -> Result<Vec<Input>, AllocError>
    requires posted { posted ≡ counted_in (map entry_of entries.now) }
    requires within { before ≤ counter }
    requires begun { counter ≤ posted }
    ensures { IfOk result (λ v. reverse (map input_of v.items) ≡ drop before (inputs (map entry_of entries.now) counter)) }
{
    let mut told = Vec::new(alloc);
    let mut rest = entries;
    let mut number = posted;
    while let Some((entry, front)) = rest.split_last() {
        if number == before {
            break;
        }
        if let Some(code) = counted_code(entry) {
            if number <= counter {
                add(alloc, &mut told, number, code)?;
            }
            number -= 1;
        }
        rest = front;
    }
    Ok(told)
}

/// The last n inputs, in rising order.
pub(crate) fn tail(
    alloc: Global,
    entries: &[Entry],
    counter: u64,
    n: u64,
) -> Result<Vec<Input>, AllocError>
    requires { AreKept (map entry_of entries.now) counter }
    ensures { IfOk result (λ v. map input_of v.items ≡ drop (counter - n) (inputs (map entry_of entries.now) counter)) }
{
    let posted = counted(entries, counter);
    let before = counter.saturating_sub(n);
    let mut told = last_first(alloc, entries, counter, posted, before)?;
    told.reverse();
    Ok(told)
}
