//! What rows are answered on.
use crate::{frames_of, octets_of, shown, written};
use std::alloc::{AllocError, Global};
use std::fmt::{Debug, Display};
use std::string::ToString;

/// A text that grows answer by answer. It keeps that memory was refused until its end, so who writes need not leave for it.
#[derive(Drop)]
pub struct Sheet {
    alloc: Global,
    text: String,
    is_refused: bool,
}

impl Sheet {
    /// An empty sheet.
    pub fn new(alloc: Global) -> Sheet {
        Sheet {
            alloc,
            text: String::new(alloc),
            is_refused: false,
        }
    }

    /// Where the sheet takes its memory.
    pub fn alloc(&self) -> Global {
        self.alloc
    }

    /// The text so far.
    pub fn text(&self) -> &str {
        &self.text
    }

    /// Writes a text.
    pub fn write(&mut self, text: &str) {
        if self.text.push_str(text).is_err() {
            self.refuse();
        }
    }

    /// Writes a character.
    pub fn push(&mut self, c: char) {
        if self.text.push(c).is_err() {
            self.refuse();
        }
    }

    /// Writes a text so often.
    pub fn repeat(&mut self, text: &str, times: usize) {
        for _ in 0..times {
            self.write(text);
        }
    }

    /// Writes a value as `Debug` does.
    pub fn show<T: Debug>(&mut self, value: &T) {
        let text = self.made(shown(self.alloc, value));
        self.write(&text);
    }

    /// Writes a value as `Display` does.
    pub fn display<T: Display>(&mut self, value: &T) {
        let text = self.made(value.to_string(self.alloc));
        self.write(&text);
    }

    /// Writes octets in hexadecimal.
    pub fn write_hex(&mut self, octets: &[u8]) {
        let text = self.made(hex::encode(self.alloc, octets));
        self.write(&text);
    }

    /// Keeps that memory was refused.
    pub fn refuse(&mut self) {
        self.is_refused = true;
    }

    /// A text that was made. Where memory was refused for it, that is kept, and it is empty.
    pub fn made(&mut self, text: Result<String, AllocError>) -> String {
        match text {
            Ok(text) => text,
            Err(_) => {
                self.refuse();
                String::new(self.alloc)
            }
        }
    }

    /// The text of another sheet. Where memory was refused for it, that is kept, and it is empty.
    pub fn take(&mut self, other: Sheet) -> String {
        self.made(other.finish())
    }

    /// Writes what stands on another sheet, and keeps where memory was refused for it.
    pub fn add(&mut self, other: &Sheet) {
        self.write(&other.text);
        self.is_refused = self.is_refused || other.is_refused;
    }

    /// The text that a row writes with repeated parts. Where memory was refused for it, that is kept, and it is empty.
    pub fn written(&mut self, row: &str) -> String {
        self.made(written(self.alloc, row))
    }

    /// Room for so many octets. Where memory was refused for it, that is kept, and there is none.
    pub fn room(&mut self, octets: usize) -> Vec<u8> {
        match Vec::with_capacity(self.alloc, octets) {
            Ok(room) => room,
            Err(_) => {
                self.refuse();
                Vec::new(self.alloc)
            }
        }
    }

    /// Octets of their own. Where memory was refused for them, that is kept, and there are none.
    pub fn copied(&mut self, octets: &[u8]) -> Vec<u8> {
        match octets.to_vec(self.alloc) {
            Ok(octets) => octets,
            Err(_) => {
                self.refuse();
                Vec::new(self.alloc)
            }
        }
    }

    /// The octets that a row writes in hexadecimal. Where memory was refused for them, that is kept, and there are none.
    pub fn octets(&mut self, row: &str) -> Vec<u8> {
        match octets_of(self.alloc, row) {
            Ok(octets) => octets,
            Err(_) => {
                self.refuse();
                Vec::new(self.alloc)
            }
        }
    }

    /// The frames of a row. Where memory was refused for them, that is kept, and there are none.
    pub fn frames(&mut self, row: &str) -> Vec<Vec<u8>> {
        match frames_of(self.alloc, row) {
            Ok(frames) => frames,
            Err(_) => {
                self.refuse();
                Vec::new(self.alloc)
            }
        }
    }

    /// The text, or an error where memory was refused.
    pub fn finish(self) -> Result<String, AllocError> {
        if self.is_refused {
            return Err(AllocError);
        }
        Ok(self.text)
    }
}
