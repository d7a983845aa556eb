//! How calls and answers are written.
use std::fmt::Debug;
use tests_rows::Sheet;

/// Writes a call, behind which its answer goes.
pub(crate) fn begin(call: &str, sheet: &mut Sheet) {
    sheet.write(call);
    sheet.write(": ");
}

/// Writes a value behind what it is.
pub(crate) fn note<T: Debug>(what: &str, value: &T, sheet: &mut Sheet) {
    sheet.write(what);
    sheet.show(value);
}
