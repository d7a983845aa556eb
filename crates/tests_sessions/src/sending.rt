//! In how many writes a message goes out.
use crate::case::MANY;
use crate::streams::{LimitedWriter, ROOM};
use std::sync::atomic::AtomicUsize;
use tests_rows::Sheet;
use zmtp_wire::{octets_of_message, send_message};

/// Sends a message of the frames of a row, which may be written with repeated parts, and writes in how many writes it went out, and whether it is all of it.
pub(crate) fn tell(row: &str, sheet: &mut Sheet) {
    let row = sheet.written(row);
    let frames = sheet.frames(&row);
    let written = AtomicUsize::new(0);
    let mut writer = willing(&written, sheet);
    sheet.write(": ");
    sheet.show(&send_message(sheet.alloc(), &mut writer, &frames));
    sheet.write(" in ");
    sheet.show(&MANY.saturating_sub(writer.writes));
    sheet.write(" writes, ");
    tell_whole(&frames, &writer.octets, sheet);
}

/// A stream that takes all.
pub(crate) fn willing<'a>(written: &'a AtomicUsize, sheet: &mut Sheet) -> LimitedWriter<'a> {
    LimitedWriter {
        octets: sheet.room(ROOM),
        size: MANY,
        writes: MANY,
        is_failing: true,
        written,
    }
}

/// Writes how many octets went out, and whether they are those of the message.
fn tell_whole(frames: &[Vec<u8>], written: &[u8], sheet: &mut Sheet) {
    sheet.show(&written.len());
    sheet.write(" octets, whole ");
    match octets_of_message(sheet.alloc(), frames) {
        Ok(octets) => sheet.show(&(octets.as_slice() == written)),
        Err(fault) => sheet.show(&fault),
    }
}
