//! Rows of greetings and frames. `reads` gives the frames that octets are read as, in any cut, and the fault behind them; `counts`
//! their number. `writes` gives what stands before the body in a frame with a body of this length, and whether it is read back; `message` (a number of
//! bodies of this length) whether a message is written and read back; `bodies` the octets of one. `pong` gives the octets of the
//! answer to a ping with this context. `greeting` gives the octets of a greeting, and `greets`
//! the greeting of octets.
use crate::lists::{count_frames, tell_frames, tell_read_back, write_octets};
use tests_rows::{Sheet, cut, number};
use zmtp_wire::{Frame, Greeting, WireFault, write_message};

/// Writes the answer to a call.
pub(crate) fn answer(call: &str, sheet: &mut Sheet) {
    let (word, rest) = cut(call);
    let (first, second) = cut(rest);
    match word {
        "writes" => tell_frame(number(rest), sheet),
        "message" => tell_message(number(first), number(second), sheet),
        "bodies" => tell_bodies(rest, sheet),
        "greeting" => tell_greeting(first, second == "server", sheet),
        _ => answer_octets(word, rest, sheet),
    }
}

/// Writes the answer to a call with octets.
fn answer_octets(word: &str, row: &str, sheet: &mut Sheet) {
    let octets = sheet.octets(row);
    match word {
        "reads" => tell_frames(&octets, sheet),
        "counts" => count_frames(&octets, sheet),
        "pong" => tell_pong(&octets, sheet),
        _ => tell_greets(&octets, sheet),
    }
}

/// Writes octets that are sent, or why they are not.
pub(crate) fn write_sent(octets: Result<Vec<u8>, WireFault>, sheet: &mut Sheet) {
    match octets {
        Ok(octets) => sheet.write_hex(&octets),
        Err(fault) => sheet.write(fault.name()),
    }
}

/// Writes the octets of the answer to a ping with this context.
fn tell_pong(context: &[u8], sheet: &mut Sheet) {
    match Frame::pong(sheet.alloc(), context) {
        Ok(pong) => write_sent(pong.write(sheet.alloc()), sheet),
        Err(_) => sheet.write(WireFault::Memory.name()),
    }
}

/// A body of this length. Where memory was refused for it, that is kept.
fn body(length: usize, sheet: &mut Sheet) -> Vec<u8> {
    match vec![in sheet.alloc(); 0x61u8; length] {
        Ok(body) => body,
        Err(_) => {
            sheet.refuse();
            Vec::new(sheet.alloc())
        }
    }
}

/// Writes what stands before the body of this length in a frame, and whether the frame is read back.
fn tell_frame(length: usize, sheet: &mut Sheet) {
    let frame = Frame {
        more: false,
        command: false,
        body: body(length, sheet),
    };
    match frame.write(sheet.alloc()) {
        Ok(octets) => tell_written(&frame, &octets, sheet),
        Err(fault) => sheet.write(fault.name()),
    }
}

/// Writes what stands before the body in the octets of a frame, whether the body stands there, and whether the frame is read back.
fn tell_written(frame: &Frame, octets: &[u8], sheet: &mut Sheet) {
    let (head, rest) = octets.split_at(octets.len().saturating_sub(frame.body.len()));
    write_octets(head, sheet);
    sheet.write(" ");
    sheet.show(&(rest == frame.body.as_slice()));
    sheet.write(" ");
    tell_read_back(frame, octets, sheet);
}

/// A number of bodies of this length. Where memory was refused for them, that is kept.
fn same_bodies(count: usize, length: usize, sheet: &mut Sheet) -> Vec<Vec<u8>> {
    let mut bodies = Vec::new(sheet.alloc());
    for _ in 0..count {
        if bodies.push(body(length, sheet)).is_err() {
            sheet.refuse();
        }
    }
    bodies
}

/// Writes a message with a number of bodies of this length behind an octet; where it is refused nothing is written.
fn tell_message(count: usize, length: usize, sheet: &mut Sheet) {
    let bodies = same_bodies(count, length, sheet);
    let mut octets = sheet.copied(b"\x08");
    if !bodies.is_empty() {
        match write_message(&mut octets, &bodies) {
            Ok(()) => count_frames(octets.get(1..).unwrap_or(&[]), sheet),
            Err(fault) => tell_refused(fault, octets.len(), sheet),
        }
    }
}

/// Writes why a message was refused, and how many octets were there then.
fn tell_refused(fault: WireFault, written: usize, sheet: &mut Sheet) {
    sheet.write(fault.name());
    sheet.write(" ");
    sheet.show(&written);
}

/// Writes the octets of a message with these bodies.
fn tell_bodies(row: &str, sheet: &mut Sheet) {
    let bodies = sheet.frames(row);
    let mut octets = Vec::new(sheet.alloc());
    if !bodies.is_empty() {
        match write_message(&mut octets, &bodies) {
            Ok(()) => write_octets(&octets, sheet),
            Err(fault) => sheet.write(fault.name()),
        }
    }
}

/// Writes the octets of a greeting of version 3 and this minor version.
fn tell_greeting(minor: &str, as_server: bool, sheet: &mut Sheet) {
    let greeting = Greeting {
        major: 3,
        minor: minor.parse::<u8>().unwrap_or(0),
        as_server,
    };
    sheet.write_hex(&greeting.write());
}

/// Writes the greeting of 64 octets.
fn tell_greets(octets: &[u8], sheet: &mut Sheet) {
    match octets.first_chunk::<64>() {
        Some(octets) => sheet.show(&Greeting::read(octets)),
        None => sheet.write("short"),
    }
}
