//! What frontends of one kernel do. Each of them is named by its place in the list of those that are connected, the first of them is 1.
use crate::content::{
    KEY, Stamp, beginning_of, content_of, date_of, is_status, request, stamp_of, topic_of,
};
use crate::frontend::{Frontend, READS};
use crate::octets::with_zeros;
use std::alloc::Global;
use std::io::{ErrorKind, Result};
use tests_rows::{cut, number, octets_of};

/// Another key than that of the kernel and its frontends.
const ANOTHER_KEY: &str = "another key";

/// The type of a request that asks for a shutdown.
const SHUTDOWN: &str = "shutdown_request";

/// The reads that take more than a second where nothing comes.
const READS_OF_A_SECOND: u32 = 220;

/// So often the kernel is asked for something, until it is seen.
const ASKINGS: u32 = 1_000;

/// Where in its list something stands whose number a row writes.
pub(crate) fn place(word: &str) -> usize {
    number(word).wrapping_sub(1)
}

/// A frontend that a row names.
fn at<'a>(frontends: &'a mut [Frontend], word: &str) -> Result<&'a mut Frontend> {
    match frontends.get_mut(place(word)) {
        Some(frontend) => Ok(frontend),
        None => Err(ErrorKind::NotFound.into()),
    }
}

/// Whether the kernel becomes ready on a connection, for as many reads at most, or for as many as wait for what has to come.
pub(crate) fn ready(frontends: &mut [Frontend], row: &str) -> Result<bool> {
    let (word, reads) = cut(row);
    let reads = if reads.is_empty() {
        READS
    } else {
        number(reads)
    };
    at(frontends, word)?.becomes_ready(reads)
}

/// Whether no message comes on a connection in as many reads.
pub(crate) fn silent(frontends: &mut [Frontend], row: &str) -> Result<bool> {
    let (word, reads) = cut(row);
    let frontend = at(frontends, word)?;
    for _ in 0..number(reads) {
        if frontend.next_frames()?.is_some() {
            return Ok(false);
        }
    }
    Ok(true)
}

/// Waits for a ping on a connection, and answers it. Whether one came.
pub(crate) fn pong(frontends: &mut [Frontend], word: &str) -> Result<bool> {
    at(frontends, word)?.answers_ping()
}

/// How many pings come on a connection until the kernel closes it.
pub(crate) fn pings(frontends: &mut [Frontend], word: &str) -> Result<usize> {
    at(frontends, word)?.pings_to_end()
}

/// Writes octets: how many.
pub(crate) fn write(alloc: Global, frontends: &mut [Frontend], row: &str) -> Result<usize> {
    let (word, digits) = cut(row);
    let frontend = at(frontends, word)?;
    let octets = octets_of(alloc, digits)?;
    match frontend.write(&octets) {
        Ok(()) => Ok(octets.len()),
        Err(error) => Err(error),
    }
}

/// Writes octets with a number of zeros behind them, as long as the kernel takes them: how many there are.
pub(crate) fn press(alloc: Global, frontends: &mut [Frontend], row: &str) -> Result<usize> {
    let (word, row) = cut(row);
    let (zeros, digits) = cut(row);
    let frontend = at(frontends, word)?;
    let mut octets = octets_of(alloc, digits)?;
    match with_zeros(&mut octets, number(zeros)) {
        Ok(()) => {
            let _written = frontend.write(&octets);
            Ok(octets.len())
        }
        Err(error) => Err(error),
    }
}

/// Sends a request under the key of this text.
fn send(
    alloc: Global,
    frontend: &Frontend,
    key: &str,
    msg_type: &str,
    content: &str,
) -> Result<()> {
    match request(alloc, key, msg_type, content) {
        Ok(octets) => frontend.write(&octets),
        Err(error) => Err(error),
    }
}

/// Sends the request of a row.
pub(crate) fn say(alloc: Global, frontends: &mut [Frontend], row: &str) -> Result<bool> {
    let (word, row) = cut(row);
    let (msg_type, content) = cut(row);
    send(alloc, at(frontends, word)?, KEY, msg_type, content)?;
    Ok(true)
}

/// Asks for a shutdown under another key, which would be replied to otherwise, and then under the kernel's: the content of the next reply.
pub(crate) fn shut_down(alloc: Global, frontend: &mut Frontend) -> Result<String> {
    send(alloc, frontend, ANOTHER_KEY, SHUTDOWN, "{\"restart\":true}")?;
    send(alloc, frontend, KEY, SHUTDOWN, "{\"restart\":false}")?;
    content_of(alloc, frontend.frames()?)
}

/// The content of the next reply.
pub(crate) fn reply(alloc: Global, frontends: &mut [Frontend], word: &str) -> Result<String> {
    content_of(alloc, at(frontends, word)?.frames()?)
}

/// The beginning of the content of the next reply.
pub(crate) fn begins(alloc: Global, frontends: &mut [Frontend], word: &str) -> Result<String> {
    beginning_of(alloc, at(frontends, word)?.frames()?)
}

/// Asks what the kernel is: the date of the reply.
fn dated(alloc: Global, frontend: &mut Frontend) -> Result<String> {
    send(alloc, frontend, KEY, "kernel_info_request", "{}")?;
    date_of(alloc, frontend.frames()?)
}

/// Asks twice what the kernel is, a second apart: whether the replies have different dates.
pub(crate) fn dates(alloc: Global, frontends: &mut [Frontend], word: &str) -> Result<bool> {
    let frontend = at(frontends, word)?;
    let first = dated(alloc, frontend)?;
    for _ in 0..READS_OF_A_SECOND {
        let _none = frontend.next_frames()?;
    }
    let second = dated(alloc, frontend)?;
    Ok(first.as_str() != second.as_str())
}

/// Asks what the kernel is, and hears the reply.
pub(crate) fn ask(alloc: Global, frontend: &mut Frontend) -> Result<()> {
    send(alloc, frontend, KEY, "kernel_info_request", "{}")?;
    let _content = content_of(alloc, frontend.frames()?)?;
    Ok(())
}

/// Asks on a connection what the kernel is, and hears the reply.
pub(crate) fn asked(alloc: Global, frontends: &mut [Frontend], word: &str) -> Result<bool> {
    ask(alloc, at(frontends, word)?)?;
    Ok(true)
}

/// Asks on each connection what the kernel is, and hears the reply: how many there are.
pub(crate) fn asked_on_each(alloc: Global, frontends: &mut [Frontend]) -> Result<usize> {
    for i in 0..frontends.len() {
        ask(alloc, &mut frontends[i])?;
    }
    Ok(frontends.len())
}

/// Asks on a connection what the kernel is: what the header of the reply tells, whose session is then the one that was seen before.
pub(crate) fn stamped(
    alloc: Global,
    frontends: &mut [Frontend],
    seen: &mut String,
    word: &str,
) -> Result<Stamp> {
    let frontend = at(frontends, word)?;
    send(alloc, frontend, KEY, "kernel_info_request", "{}")?;
    stamp_of(alloc, frontend.frames()?, seen)
}

/// Asks on the first connection what the kernel is, until a message comes on the second one. Whether it came.
pub(crate) fn heard(alloc: Global, frontends: &mut [Frontend], row: &str) -> Result<bool> {
    let (word, subscriber) = cut(row);
    for _ in 0..ASKINGS {
        ask(alloc, at(frontends, word)?)?;
        if at(frontends, subscriber)?.next_frames()?.is_some() {
            return Ok(true);
        }
    }
    Ok(false)
}

/// The topic of the next broadcast.
pub(crate) fn topic(alloc: Global, frontends: &mut [Frontend], word: &str) -> Result<String> {
    topic_of(alloc, &at(frontends, word)?.frames()?)
}

/// Passes broadcasts of the status over: the topic of the next one of another topic.
pub(crate) fn skip(alloc: Global, frontends: &mut [Frontend], word: &str) -> Result<String> {
    let frontend = at(frontends, word)?;
    for _ in 0..READS {
        let frames = frontend.frames()?;
        if !is_status(&frames) {
            return topic_of(alloc, &frames);
        }
    }
    Err(ErrorKind::TimedOut.into())
}

/// Takes in what a subscriber hears, until nothing more comes. Whether it is the status alone.
pub(crate) fn hear_out(frontends: &mut [Frontend], word: &str) -> Result<bool> {
    let frontend = at(frontends, word)?;
    for _ in 0..u64::MAX {
        match frontend.next_frames()? {
            Some(frames) => {
                if !is_status(&frames) {
                    return Ok(false);
                }
            }
            None => return Ok(true),
        }
    }
    Ok(false)
}

/// Asks on the second connection for interrupts, one after the reply to the other, until a message comes on the first one: the beginning of its content.
pub(crate) fn interrupted(alloc: Global, frontends: &mut [Frontend], row: &str) -> Result<String> {
    let (word, control) = cut(row);
    for _ in 0..ASKINGS {
        interrupt(alloc, at(frontends, control)?)?;
        if let Some(frames) = at(frontends, word)?.next_frames()? {
            return beginning_of(alloc, frames);
        }
    }
    Err(ErrorKind::TimedOut.into())
}

/// Asks on the second connection for one interrupt, and waits for a message on the first one: the beginning of its content.
pub(crate) fn stopped(alloc: Global, frontends: &mut [Frontend], row: &str) -> Result<String> {
    let (word, control) = cut(row);
    interrupt(alloc, at(frontends, control)?)?;
    beginning_of(alloc, at(frontends, word)?.frames()?)
}

/// Asks a number of times what the kernel is, and hears nothing: whether the kernel ends the connection meanwhile.
pub(crate) fn flood(alloc: Global, frontends: &mut [Frontend], row: &str) -> Result<bool> {
    let (word, times) = cut(row);
    let frontend = at(frontends, word)?;
    let octets = request(alloc, KEY, "kernel_info_request", "{}")?;
    Ok(frontend.is_ended_by(&octets, number(times)))
}

/// Posts a cell on a connection, and waits for nothing.
pub(crate) fn post(alloc: Global, frontend: &Frontend, content: &str) -> Result<()> {
    send(alloc, frontend, KEY, "execute_request", content)
}

/// Asks for an interrupt, and hears the reply.
fn interrupt(alloc: Global, frontend: &mut Frontend) -> Result<()> {
    send(alloc, frontend, KEY, "interrupt_request", "{}")?;
    let _content = content_of(alloc, frontend.frames()?)?;
    Ok(())
}

/// Whether the kernel closes a connection.
pub(crate) fn ends(frontends: &mut [Frontend], word: &str) -> Result<bool> {
    Ok(at(frontends, word)?.reads_to_end())
}

/// Whether the kernel closes one of two connections.
pub(crate) fn one_ends(frontends: &mut [Frontend], row: &str) -> Result<bool> {
    let (first, second) = cut(row);
    for _ in 0..READS {
        if at(frontends, first)?.is_ended() || at(frontends, second)?.is_ended() {
            return Ok(true);
        }
    }
    Ok(false)
}

/// Leaves: how many are connected then.
pub(crate) fn leave(frontends: &mut Vec<Frontend>, word: &str) -> usize {
    let at = place(word);
    if at < frontends.len() {
        drop(frontends.remove(at));
    }
    frontends.len()
}

/// Disconnects all: how many are connected then.
pub(crate) fn clear(frontends: &mut Vec<Frontend>) -> usize {
    frontends.clear();
    frontends.len()
}
