//! Octets that are read as frames.
use tests_rows::Sheet;
use zmtp_wire::{Decoder, Frame, WireFault};

/// How many frames are read at most.
const FRAMES: usize = 3000;

/// Feeds a piece, once more where memory ran out, keeps the frames that come with it, and gives the fault.
fn feed(
    decoder: &mut Decoder,
    piece: &[u8],
    frames: &mut Vec<Frame>,
    sheet: &mut Sheet,
) -> Option<WireFault> {
    if decoder.feed(piece).is_err() && decoder.feed(piece).is_err() {
        sheet.refuse();
    }
    for _ in 0..FRAMES {
        match decoder.next() {
            Ok(Some(frame)) => keep(frame, frames, sheet),
            Ok(None) => return None,
            Err(fault) => return Some(fault),
        }
    }
    None
}

/// Keeps a frame.
fn keep(frame: Frame, frames: &mut Vec<Frame>, sheet: &mut Sheet) {
    if frames.push(frame).is_err() {
        sheet.refuse();
    }
}

/// Keeps the frames of octets that are cut after the first `first`, the rest in pieces of this length and then an empty piece, and gives the fault behind
/// them.
fn read(
    octets: &[u8],
    first: usize,
    length: usize,
    frames: &mut Vec<Frame>,
    sheet: &mut Sheet,
) -> Option<WireFault> {
    let mut decoder = Decoder::new(sheet.alloc());
    let (front, rest) = octets.split_at(first.min(octets.len()));
    feed(&mut decoder, front, frames, sheet);
    for piece in rest.chunks(length.max(1)) {
        feed(&mut decoder, piece, frames, sheet);
    }
    feed(&mut decoder, &[], frames, sheet)
}

/// What a frame is: the last one of a message, one with more behind it, or a command.
fn kind_of(frame: &Frame) -> &'static str {
    if frame.command {
        "command "
    } else if frame.more {
        "more "
    } else {
        "last "
    }
}

/// Writes octets in hexadecimal; of more than 40 how many they are.
pub(crate) fn write_octets(octets: &[u8], sheet: &mut Sheet) {
    if octets.len() > 40 {
        sheet.show(&octets.len());
        sheet.write(" octets");
    } else {
        sheet.write_hex(octets);
    }
}

/// Writes the frames and the fault.
fn write_frames(frames: &[Frame], fault: Option<WireFault>, sheet: &mut Sheet) {
    for frame in frames {
        sheet.write(kind_of(frame));
        write_octets(&frame.body, sheet);
        sheet.write("; ");
    }
    sheet.show(&fault);
}

/// Says so where octets that are cut into two are read as other frames, or with another fault behind them.
fn compare(
    octets: &[u8],
    first: usize,
    frames: &[Frame],
    fault: Option<WireFault>,
    sheet: &mut Sheet,
) {
    let mut others = Vec::new(sheet.alloc());
    let other = read(octets, first, octets.len(), &mut others, sheet);
    if other != fault || others.as_slice() != frames {
        sheet.write("differs at the cut ");
        sheet.show(&first);
        sheet.write(": ");
    }
}

/// Writes the frames that octets are read as, fed whole, octet by octet, and in each cut into two; and the fault behind them.
pub(crate) fn tell_frames(octets: &[u8], sheet: &mut Sheet) {
    let mut frames = Vec::new(sheet.alloc());
    let fault = read(octets, 1, 1, &mut frames, sheet);
    for first in 0..=octets.len() {
        compare(octets, first, &frames, fault, sheet);
    }
    write_frames(&frames, fault, sheet);
}

/// Writes how many frames are read, how many of these are commands and how many have more behind them, and the fault behind them.
pub(crate) fn count_frames(octets: &[u8], sheet: &mut Sheet) {
    let mut frames = Vec::new(sheet.alloc());
    let fault = read(octets, 0, octets.len(), &mut frames, sheet);
    write_counts(&frames, sheet);
    sheet.show(&fault);
}

/// Writes how many frames there are, how many of these are commands and how many have more behind them.
fn write_counts(frames: &[Frame], sheet: &mut Sheet) {
    let (mut commands, mut more) = (0u32, 0u32);
    for frame in frames {
        commands = commands.saturating_add(frame.command as u32);
        more = more.saturating_add(frame.more as u32);
    }
    sheet.show(&frames.len());
    sheet.write(" frames, ");
    sheet.show(&commands);
    sheet.write(" commands, ");
    sheet.show(&more);
    sheet.write(" more, ");
}

/// Writes whether octets are read as this frame alone.
pub(crate) fn tell_read_back(frame: &Frame, octets: &[u8], sheet: &mut Sheet) {
    let mut frames = Vec::new(sheet.alloc());
    let fault = read(octets, 0, octets.len(), &mut frames, sheet);
    match frames.as_slice() {
        [found] => sheet.show(&(fault.is_none() && *found == *frame)),
        _ => sheet.write("false"),
    }
}
