//! Octets and frames as rows write them.
use crate::{Sheet, written};
use hex::FromHexError;
use std::alloc::{AllocError, Global};
use std::str;

/// What stands between two frames of a row.
const BETWEEN: &str = " ~ ";

/// The octets that a row writes in hexadecimal, also with repeated parts; none where it writes them wrongly.
pub fn octets_of(alloc: Global, row: &str) -> Result<Vec<u8>, AllocError> {
    let text = written(alloc, row)?;
    match hex::decode(alloc, text.as_str()) {
        Ok(octets) => Ok(octets),
        Err(FromHexError::OutOfMemory) => Err(AllocError),
        Err(_) => Ok(Vec::new(alloc)),
    }
}

/// The frames of a row, with ` ~ ` between them, each as text or behind `hex:` in hexadecimal.
pub fn frames_of(alloc: Global, row: &str) -> Result<Vec<Vec<u8>>, AllocError> {
    let mut frames = Vec::new(alloc);
    if row.is_empty() {
        return Ok(frames);
    }
    for cell in row.split(BETWEEN) {
        frames.push(frame_of(alloc, cell)?)?;
    }
    Ok(frames)
}

/// A frame of a row.
fn frame_of(alloc: Global, cell: &str) -> Result<Vec<u8>, AllocError> {
    match cell.strip_prefix("hex:") {
        Some(digits) => octets_of(alloc, digits),
        None => Vec::from_slice(alloc, cell.as_bytes()),
    }
}

/// What stands before the first ` ~ ` of a row, and what behind it.
pub fn cut_frame(row: &str) -> (&str, &str) {
    row.split_once(BETWEEN).unwrap_or((row, ""))
}

/// Frames as a row writes them.
pub fn frames_shown(alloc: Global, frames: Vec<Vec<u8>>) -> Result<String, AllocError> {
    let mut sheet = Sheet::new(alloc);
    for (i, frame) in frames.iter().enumerate() {
        sheet.write(if i == 0 { "" } else { BETWEEN });
        write_frame(frame, &mut sheet);
    }
    sheet.finish()
}

/// Writes a frame as text, or in hexadecimal where it is none.
fn write_frame(frame: &[u8], sheet: &mut Sheet) {
    match str::from_utf8(frame) {
        Ok(text) => sheet.write(text),
        Err(_) => {
            sheet.write("hex:");
            sheet.write_hex(frame);
        }
    }
}
