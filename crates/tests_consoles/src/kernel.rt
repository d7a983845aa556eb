//! What a kernel says, and how it comes.
use std::alloc::Global;
use std::io;
use std::io::{ErrorKind, Read};
use tests_rows::{Sheet, number};
use zmtp_peer::{Peer, Role};
use zmtp_wire::write_message;

/// The octet of a greeting that has the minor version.
const MINOR: usize = 11;

/// The most octets that come at once.
const PIECE: usize = 7;

/// What a kernel says behind its openings.
#[derive(Drop)]
pub(crate) struct Kernel {
    pub shell: Vec<u8>,
    pub iopub: Vec<u8>,
    /// So often no broadcast comes in time before the first one.
    pub late: usize,
}

impl Kernel {
    /// A kernel that says nothing.
    pub(crate) fn new(alloc: Global) -> Kernel {
        Kernel {
            shell: Vec::new(alloc),
            iopub: Vec::new(alloc),
            late: 0,
        }
    }

    /// Adds what a row says.
    pub(crate) fn add(&mut self, word: &str, rest: &str, sheet: &mut Sheet) {
        match word {
            "shell" => push_messages(&mut self.shell, rest, 1, sheet),
            "iopub" => push_messages(&mut self.iopub, rest, 1, sheet),
            "noise" => push_messages(&mut self.iopub, "status", number(rest), sheet),
            "octets" => push_octets(&mut self.shell, rest, sheet),
            _ => self.late = number(rest),
        }
    }
}

/// Adds the octets of a message of these frames, so often.
fn push_messages(octets: &mut Vec<u8>, row: &str, times: usize, sheet: &mut Sheet) {
    let frames = sheet.frames(row);
    for _ in 0..times {
        push_message(octets, &frames, sheet);
    }
}

/// Adds the octets of a message of these frames.
fn push_message(octets: &mut Vec<u8>, frames: &[Vec<u8>], sheet: &mut Sheet) {
    if frames.is_empty() || write_message(octets, frames).is_err() {
        sheet.refuse();
    }
}

/// Adds octets.
fn push_octets(octets: &mut Vec<u8>, row: &str, sheet: &mut Sheet) {
    let more = sheet.octets(row);
    if octets.extend_from_slice(&more).is_err() {
        sheet.refuse();
    }
}

/// What an end in this role sends first.
pub(crate) fn opening(role: Role, sheet: &mut Sheet) -> Vec<u8> {
    match Peer::new(sheet.alloc(), role).opening() {
        Ok(octets) => octets,
        Err(_) => {
            sheet.refuse();
            Vec::new(sheet.alloc())
        }
    }
}

/// What a kernel of this minor version sends in this role: its opening, and what it says.
pub(crate) fn stream(role: Role, minor: u8, said: &[u8], sheet: &mut Sheet) -> Vec<u8> {
    let mut octets = opening(role, sheet);
    if let Some(octet) = octets.get_mut(MINOR) {
        *octet = minor;
    }
    if octets.extend_from_slice(said).is_err() {
        sheet.refuse();
    }
    octets
}

/// Gives octets in small pieces: the opening, then so often none in time, and then what stands behind the opening.
#[derive(Drop)]
pub(crate) struct Slow<'a> {
    octets: &'a [u8],
    /// How many octets of the opening are left.
    opening: usize,
    late: usize,
}

impl<'a> Slow<'a> {
    /// A stream of which the last octets, so many, stand behind the opening.
    pub(crate) fn new(octets: &'a [u8], said: usize, late: usize) -> Slow<'a> {
        Slow {
            octets,
            opening: octets.len().saturating_sub(said),
            late,
        }
    }
}

impl Read for Slow<'_> {
    fn read(&mut self, buf: &mut [u8]) -> io::Result<usize> {
        if self.opening == 0 && self.late > 0 {
            self.late -= 1;
            return Err(ErrorKind::WouldBlock.into());
        }
        let at_once = if self.opening == 0 {
            PIECE
        } else {
            self.opening.min(PIECE)
        };
        let count = self.octets.len().min(at_once).min(buf.len());
        buf[..count].copy_from_slice(&self.octets[..count]);
        self.octets = &self.octets[count..];
        self.opening = self.opening.saturating_sub(count);
        Ok(count)
    }
}
