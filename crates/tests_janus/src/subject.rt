//! What the rows of a block are about.
use crate::{limits, lines, rows, steps, stores, texts, transcripts};
use std::alloc::AllocError;
use std::fmt::Debug;
use tests_rows::Sheet;

/// What answers the rows of a block, one behind the other.
pub(crate) trait Subject {
    /// Writes the answer to a call.
    fn answer(&mut self, call: &str, sheet: &mut Sheet);
}

/// A subject that keeps nothing from one row to the next.
#[derive(Drop)]
pub(crate) struct Plain<'a> {
    pub subject: &'a str,
}

impl Subject for Plain<'_> {
    fn answer(&mut self, call: &str, sheet: &mut Sheet) {
        match self.subject {
            "texts" => texts::answer(call, sheet),
            "stores" => stores::answer(call, sheet),
            "lines" => lines::answer(call, sheet),
            "limits" => limits::answer(call, sheet),
            "rows" => rows::answer(call, sheet),
            "steps" => steps::answer(call, sheet),
            _ => transcripts::answer(call, sheet),
        }
    }
}

/// Writes calls, each with its answer, which is a line.
pub(crate) fn tell_rows<S: Subject>(subject: &mut S, calls: &str, sheet: &mut Sheet) {
    for call in calls.lines() {
        sheet.write(call);
        sheet.write(": ");
        subject.answer(call, sheet);
        sheet.write("\n");
    }
}

/// Writes a text that was made, or keeps that there was no memory for it.
pub(crate) fn write_made(text: Result<String, AllocError>, sheet: &mut Sheet) {
    match text {
        Ok(text) => sheet.write(&text),
        Err(_) => sheet.refuse(),
    }
}

/// Writes a value that was made as `Debug` does, or keeps that there was no memory for it.
pub(crate) fn show_made<T: Debug + Drop>(value: Result<T, AllocError>, sheet: &mut Sheet) {
    match value {
        Ok(value) => sheet.show(&value),
        Err(_) => sheet.refuse(),
    }
}
