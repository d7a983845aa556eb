//! What comes on a connection, and how.
//!
//! The settings are numbers: the `size` of the pieces that come; how many `reads` succeed; how many octets are `taken` at each write; how many
//! `writes` succeed, and whether a later one is `failing` or takes nothing; at which octet what comes is at its `end`; which number the `next` message has;
//! whether the desk is `without_memory` for an answer; and the `version` of ZMTP in the greeting that comes, its minor number and 256
//! times its major one. Nothing fails or ends where no row says so.
use crate::streams::{LimitedWriter, Pieces, ROOM};
use std::alloc::Global;
use std::mem;
use std::sync::atomic::AtomicUsize;
use tests_rows::{Sheet, number};
use zmtp_wire::write_message;

/// More octets, reads and writes than any connection here takes.
pub(crate) const MANY: usize = 10_000_000;

/// The octets of a greeting that have the version.
const MAJOR: usize = 10;

const MINOR: usize = 11;

/// What comes, and how.
#[derive(Drop)]
pub(crate) struct Case {
    pub is_lone: bool,
    pub came: Vec<u8>,
    pub aside: Vec<u8>,
    /// What goes out where nothing fails.
    pub whole: Vec<u8>,
    pub key: Vec<u8>,
    pub size: usize,
    pub reads: usize,
    pub taken: usize,
    pub writes: usize,
    pub is_failing: bool,
    pub end: usize,
    pub next: u64,
    pub is_without_memory: bool,
}

impl Case {
    /// Nothing comes, over streams that do not fail, under an empty key.
    pub(crate) fn new(alloc: Global, is_lone: bool) -> Case {
        Case {
            is_lone,
            came: Vec::new(alloc),
            aside: Vec::new(alloc),
            whole: Vec::new(alloc),
            key: Vec::new(alloc),
            size: MANY,
            reads: MANY,
            taken: MANY,
            writes: MANY,
            is_failing: true,
            end: MANY,
            next: 0,
            is_without_memory: false,
        }
    }

    /// Adds what a row says.
    pub(crate) fn add(&mut self, word: &str, rest: &str, sheet: &mut Sheet) {
        match word {
            "octets" => self.add_octets(rest, sheet),
            "message" => self.add_message(rest, sheet),
            "aside" => self.aside = mem::replace(&mut self.came, Vec::new(sheet.alloc())),
            "key" => self.key = sheet.copied(rest.as_bytes()),
            _ => self.set(word, number(rest)),
        }
    }

    /// Adds octets to what comes.
    fn add_octets(&mut self, row: &str, sheet: &mut Sheet) {
        let octets = sheet.octets(row);
        if self.came.extend_from_slice(&octets).is_err() {
            sheet.refuse();
        }
    }

    /// Adds a message of these frames to what comes.
    fn add_message(&mut self, row: &str, sheet: &mut Sheet) {
        let frames = sheet.frames(row);
        if frames.is_empty() || write_message(&mut self.came, &frames).is_err() {
            sheet.refuse();
        }
    }

    /// Sets a number.
    pub(crate) fn set(&mut self, word: &str, number: usize) {
        match word {
            "size" => self.size = number,
            "reads" => self.reads = number,
            "taken" => self.taken = number,
            "writes" => self.writes = number,
            "failing" => self.is_failing = number > 0,
            "end" => self.end = number,
            "next" => self.next = number as u64,
            "without_memory" => self.is_without_memory = number > 0,
            _ => self.set_version(number),
        }
    }

    /// Sets the version of ZMTP in the greeting that comes.
    fn set_version(&mut self, number: usize) {
        if self.came.len() > MINOR {
            self.came[MAJOR] = (number / 256 % 256) as u8;
            self.came[MINOR] = (number % 256) as u8;
        }
    }

    /// The stream on which it comes; it sees how many octets had been written before the last read.
    pub(crate) fn reader<'a>(&'a self, written: &'a AtomicUsize) -> Pieces<'a> {
        Pieces {
            octets: self.came.get(..self.end).unwrap_or(&self.came),
            size: self.size,
            reads: self.reads,
            written,
            seen: 0,
        }
    }

    /// The stream to which is written.
    pub(crate) fn writer<'a>(
        &self,
        written: &'a AtomicUsize,
        sheet: &mut Sheet,
    ) -> LimitedWriter<'a> {
        LimitedWriter {
            octets: sheet.room(ROOM),
            size: self.taken,
            writes: self.writes,
            is_failing: self.is_failing,
            written,
        }
    }
}
