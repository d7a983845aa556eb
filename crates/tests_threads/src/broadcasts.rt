//! Broadcasts, of a number or of the frames of a row.
use crate::lines::note;
use kernel_board::{Broadcast, Place};
use std::alloc::{AllocError, Global};
use std::str;
use tests_rows::{Sheet, frames_of};

/// What stands on the wire before the eight octets of the number: the topic `status` with MORE behind it, and the head of the second frame.
const HEAD: &[u8] = b"\x01\x06status\x00\x08";

/// A broadcast of the topic `status` whose second frame is the number.
pub(crate) fn numbered(alloc: Global, number: u64) -> Result<Broadcast, AllocError> {
    let topic = Vec::from_array(alloc, *b"status")?;
    let body = Vec::from_array(alloc, number.to_be_bytes())?;
    let frames = Vec::from_array(alloc, [topic, body])?;
    Broadcast::new(alloc, frames)
}

/// Whether this is the broadcast of the number.
fn is_numbered(broadcast: &Broadcast, number: u64) -> bool {
    let Some(octets) = broadcast.octets() else {
        return false;
    };
    match octets.split_last_chunk::<8>() {
        Some((head, last)) => {
            broadcast.topic() == b"status".as_slice()
                && head == HEAD
                && u64::from_be_bytes(*last) == number
        }
        None => false,
    }
}

/// How many of these broadcasts are those of the numbers from a place on, up to the first that isn't.
pub(crate) fn in_order(got: &[Broadcast], from: Place) -> u64 {
    let mut count = 0u64;
    for broadcast in got {
        if !is_numbered(broadcast, from.number.saturating_add(count)) {
            return count;
        }
        count = count.saturating_add(1);
    }
    count
}

/// Writes the topic of a broadcast, and its octets on the wire where it has them.
fn tell(broadcast: &Broadcast, sheet: &mut Sheet) {
    sheet.show(&str::from_utf8(broadcast.topic()).unwrap_or("no text"));
    match broadcast.octets() {
        Some(octets) => tell_octets(octets, sheet),
        None => sheet.write(" no octets"),
    }
}

/// Writes octets in hexadecimal.
fn tell_octets(octets: &[u8], sheet: &mut Sheet) {
    match hex::encode(sheet.alloc(), octets) {
        Ok(digits) => note(" ", &digits, sheet),
        Err(_) => sheet.refuse(),
    }
}

/// Adds these frames.
fn push_frames(frames: &mut Vec<Vec<u8>>, row: &str, alloc: Global) -> Result<(), AllocError> {
    frames.append(&mut frames_of(alloc, row)?)
}

/// The broadcast of a number of times these frames.
fn broadcast_of(alloc: Global, times: usize, row: &str) -> Result<Broadcast, AllocError> {
    let mut frames = Vec::new(alloc);
    for _ in 0..times {
        push_frames(&mut frames, row, alloc)?;
    }
    Broadcast::new(alloc, frames)
}

/// Writes what is told of a broadcast, and lets it go behind its clone.
fn clone_behind(broadcast: Broadcast, sheet: &mut Sheet) -> Result<Broadcast, AllocError> {
    tell(&broadcast, sheet);
    sheet.write(", ");
    broadcast.clone()
}

/// Writes what is told of a broadcast, and of its clone once it is gone itself.
fn tell_both(broadcast: Broadcast, sheet: &mut Sheet) {
    match clone_behind(broadcast, sheet) {
        Ok(clone) => tell(&clone, sheet),
        Err(_) => sheet.refuse(),
    }
}

/// Writes what is told of the broadcast of a number of times these frames, and of its clone once it is gone itself.
pub(crate) fn cloned(times: usize, row: &str, sheet: &mut Sheet) {
    match broadcast_of(sheet.alloc(), times, row) {
        Ok(broadcast) => tell_both(broadcast, sheet),
        Err(_) => sheet.refuse(),
    }
}
