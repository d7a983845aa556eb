//! How the answer to a call is written.
use std::fmt::Debug;
use std::io::{Error, ErrorKind, Result};
use tests_rows::Sheet;

/// Writes an answer, or which fault came in its place.
pub(crate) fn told<T: Debug + Drop>(answer: Result<T>, sheet: &mut Sheet) {
    match answer {
        Ok(answer) => sheet.show(&answer),
        Err(error) => tell_error(&error, sheet),
    }
}

/// Writes which fault came.
pub(crate) fn tell_error(error: &Error, sheet: &mut Sheet) {
    let kind = error.kind();
    if kind == ErrorKind::OutOfMemory {
        sheet.refuse();
    }
    sheet.show(&kind);
}
