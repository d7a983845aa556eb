//! Rows on a new kernel, and rows that follow one another on one.
ghost use Rattle.std.specs.Prelude.{◌≡◌, ◌<◌};

use crate::exchange::{exchange, tell_fault};
use crate::lines::run_lines;
use crate::stamps::stamp;
use jupyter_msg::{Key, MsgFault};
use kernel_message::Stamp;
use kernel_reply::{Comms, Kernel};
use std::alloc::{AllocError, Global};
use std::marker::Brand;
use std::sync::ledger::{Blank, Ledger};
use tests_rows::{Sheet, cut_cell, cut_frame, frames_of};

/// Writes rows, each on a new kernel, with what goes out in answer to each.
pub(crate) fn tell_messages(rows: &str, sheet: &mut Sheet) {
    for row in rows.lines() {
        sheet.write(row);
        sheet.write(": ");
        tell_on_new(row, false, sheet);
        sheet.write("\n");
    }
}

/// Writes rows that follow one another on a new kernel, with what goes out in answer to each.
pub(crate) fn tell_connection(rows: &str, sheet: &mut Sheet) {
    tell_on_new(rows, true, sheet);
}

/// Tells a row, or the rows of a connection, on a new kernel.
fn tell_on_new(rows: &str, is_connection: bool, sheet: &mut Sheet) {
    match String::from_str(sheet.alloc(), rows) {
        Ok(rows) => tell_alone(&rows, is_connection, sheet),
        Err(_) => sheet.refuse(),
    }
}

/// Tells a row, or the rows of a connection, on a new kernel.
fn tell_alone(rows: &String, is_connection: bool, sheet: &mut Sheet) {
    tell_in::<Brand>(Blank::new(2), rows, is_connection, sheet);
}

/// Tells a row, or the rows of a connection, on a new kernel over this ledger.
fn tell_in<L: Ledger>(blank: Blank, rows: &String, is_connection: bool, sheet: &mut Sheet)
    requires name { blank.name ≡ L.name }
    requires parts { blank.parts ≡ L.parts }
    requires two { 1 < L.parts }
{
    match Kernel::<L>::new(sheet.alloc(), blank) {
        Ok(mut kernel) => {
            tell_over(&mut kernel, rows, is_connection, sheet);
            kernel.discard();
        }
        Err(_) => tell_no_kernel(is_connection, sheet),
    }
}

/// Tells that there was no memory for the kernel of a row. The rows of a connection have no answers then.
fn tell_no_kernel(is_connection: bool, sheet: &mut Sheet) {
    if is_connection {
        sheet.refuse();
    } else {
        tell_fault(MsgFault::Memory, sheet);
    }
}

/// Tells a row, or the rows of a connection, on this kernel, with no comm open, at the first message.
fn tell_over<L: Ledger>(
    kernel: &mut Kernel<L>,
    rows: &str,
    is_connection: bool,
    sheet: &mut Sheet,
) {
    match stamp(sheet.alloc()) {
        Ok(mut stamp) => tell_from(kernel, &mut stamp, rows, is_connection, sheet),
        Err(_) => sheet.refuse(),
    }
}

/// Tells a row, or the rows of a connection, on this kernel, with no comm open.
fn tell_from<L: Ledger>(
    kernel: &mut Kernel<L>,
    stamp: &mut Stamp,
    rows: &str,
    is_connection: bool,
    sheet: &mut Sheet,
) {
    let mut comms = Comms::new(sheet.alloc());
    if is_connection {
        tell_rows(kernel, &mut comms, stamp, rows, sheet);
    } else {
        tell_message(kernel, &mut comms, stamp, rows, sheet);
    }
}

/// Runs the lines of a row, and tells what goes out in answer to its request. Where they find no memory, that alone is told.
fn tell_message<L: Ledger>(
    kernel: &mut Kernel<L>,
    comms: &mut Comms,
    stamp: &mut Stamp,
    row: &str,
    sheet: &mut Sheet,
) {
    let (lines, request) = cut_cell(row);
    if have_run(kernel, comms, lines, sheet.alloc()) {
        tell_request(kernel, comms, stamp, request, sheet);
    } else {
        tell_fault(MsgFault::Memory, sheet);
    }
}

/// Runs lines: whether there was memory for them.
fn have_run<L: Ledger>(
    kernel: &mut Kernel<L>,
    comms: &mut Comms,
    lines: &str,
    alloc: Global,
) -> bool {
    let mut sheet = Sheet::new(alloc);
    run_lines(kernel, comms, lines, &mut sheet);
    sheet.finish().is_ok()
}

/// Tells what goes out in answer to the request of a row.
fn tell_request<L: Ledger>(
    kernel: &mut Kernel<L>,
    comms: &mut Comms,
    stamp: &mut Stamp,
    row: &str,
    sheet: &mut Sheet,
) {
    let (how, request) = cut_cell(row);
    let key = Key::new(Vec::new(sheet.alloc()));
    match request_frames(sheet.alloc(), request) {
        Ok(frames) => exchange(kernel, comms, stamp, how, &key, frames, sheet),
        Err(_) => sheet.refuse(),
    }
}

/// The frames of a request that comes with the identity `who` under an empty key.
fn request_frames(alloc: Global, request: &str) -> Result<Vec<Vec<u8>>, AllocError> {
    let (msg_type, content) = cut_cell(request);
    let mut row = Sheet::new(alloc);
    row.write("who ~ <IDS|MSG> ~  ~ {\"msg_id\":\"a\",\"msg_type\":\"");
    row.write(msg_type);
    row.write("\",\"session\":\"s\"} ~ {} ~ {} ~ ");
    row.write(content);
    frames_of(alloc, &row.finish()?)
}

/// Writes rows that follow one another, with what goes out in answer to each, and whether the comm `c1` is open behind them.
fn tell_rows<L: Ledger>(
    kernel: &mut Kernel<L>,
    comms: &mut Comms,
    stamp: &mut Stamp,
    rows: &str,
    sheet: &mut Sheet,
) {
    for row in rows.lines() {
        sheet.write(row);
        sheet.write(": ");
        tell_row(kernel, comms, stamp, row, sheet);
        sheet.write("\n");
    }
    sheet.write("the comm c1 is open: ");
    sheet.show(&comms.is_open("c1"));
    sheet.write("\n");
}

/// Tells what goes out in answer to the row of a connection.
fn tell_row<L: Ledger>(
    kernel: &mut Kernel<L>,
    comms: &mut Comms,
    stamp: &mut Stamp,
    row: &str,
    sheet: &mut Sheet,
) {
    let (key, frames) = cut_frame(row);
    match key.as_bytes().to_vec(sheet.alloc()) {
        Ok(key) => tell_frames(kernel, comms, stamp, &Key::new(key), frames, sheet),
        Err(_) => sheet.refuse(),
    }
}

/// Tells what goes out in answer to the frames of a row under a key.
fn tell_frames<L: Ledger>(
    kernel: &mut Kernel<L>,
    comms: &mut Comms,
    stamp: &mut Stamp,
    key: &Key,
    frames: &str,
    sheet: &mut Sheet,
) {
    match frames_of(sheet.alloc(), frames) {
        Ok(frames) => exchange(kernel, comms, stamp, "asked", key, frames, sheet),
        Err(_) => sheet.refuse(),
    }
}
