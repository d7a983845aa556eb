//! Texts as rows write them.
use crate::{Sheet, number};
use std::alloc::{AllocError, Global};

/// The text that a row writes: `\n`, `\r` and `\t` stand for a line's end, a carriage return and a tab, a further character behind
/// a backslash for itself, and `{3|x#}` for `x0x1x2`.
pub fn written(alloc: Global, row: &str) -> Result<String, AllocError> {
    let mut sheet = Sheet::new(alloc);
    let (front, parts) = row.split_once('{').unwrap_or((row, ""));
    write_plain(front, &mut sheet);
    for part in parts.split('{') {
        write_part(part, &mut sheet);
    }
    sheet.finish()
}

/// The text that a row writes with escapes alone.
pub fn unescaped(alloc: Global, row: &str) -> Result<String, AllocError> {
    let mut sheet = Sheet::new(alloc);
    write_plain(row, &mut sheet);
    sheet.finish()
}

/// Writes a part behind a `{`: what is repeated, and what stands behind it.
fn write_part(part: &str, sheet: &mut Sheet) {
    let (repeated, plain) = part.split_once('}').unwrap_or((part, ""));
    let (times, repeated) = repeated.split_once('|').unwrap_or(("", ""));
    for turn in 0..number(times) {
        write_turn(repeated, turn, sheet);
    }
    write_plain(plain, sheet);
}

/// Writes a part, with the number of its turn for each `#`.
fn write_turn(part: &str, turn: usize, sheet: &mut Sheet) {
    match part.split_once('#') {
        Some((front, rest)) => {
            write_plain(front, sheet);
            write_behind_turn(rest, turn, sheet);
        }
        None => write_plain(part, sheet),
    }
}

/// Writes the number of a turn, and a part behind it, with that number for each further `#`.
fn write_behind_turn(part: &str, turn: usize, sheet: &mut Sheet) {
    for piece in part.split('#') {
        sheet.show(&turn);
        write_plain(piece, sheet);
    }
}

/// Writes a part, with the characters that its backslashes stand for.
fn write_plain(part: &str, sheet: &mut Sheet) {
    let mut is_escaped = false;
    for c in part.chars() {
        let is_backslash = c == '\\' && !is_escaped;
        if !is_backslash {
            sheet.push(if is_escaped { meant(c) } else { c });
        }
        is_escaped = is_backslash;
    }
}

/// The character that stands behind a backslash for another one.
fn meant(c: char) -> char {
    match c {
        'n' => '\n',
        'r' => '\r',
        't' => '\t',
        c => c,
    }
}
