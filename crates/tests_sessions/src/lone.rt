//! Streams that fail before a lone kernel, and what a later connection is told of the kernel then.
ghost use Rattle.std.specs.Prelude.{◌≡◌, ◌<◌};

use crate::case::{Case, MANY};
use crate::connections::{stamp, write_octets};
use crate::sending::willing;
use crate::streams::{LimitedWriter, Pieces};
use jupyter_msg::Key;
use kernel_server::{Comms, Kernel, LoneDesk, Socket, Unwatched, serve_lone};
use std::marker::Brand;
use std::sync::atomic::AtomicUsize;
use std::sync::ledger::{Blank, Ledger};
use tests_rows::Sheet;

/// Serves what comes before a new kernel, writes what is told of it, and keeps what went out.
pub(crate) fn tell_whole(case: &mut Case, sheet: &mut Sheet) {
    case.whole = seen(case, sheet);
    write_octets("\n  out: ", &case.whole, sheet);
}

/// Serves what comes before a new kernel, and writes what is told of it: that all went out which goes out where nothing fails, or a beginning of it,
/// and of how many octets, where the writer does not fail; or what went out, where it is no beginning.
pub(crate) fn tell(case: &Case, sheet: &mut Sheet) {
    let out = seen(case, sheet);
    if !case.whole.starts_with(&out) {
        write_octets("\n  out: ", &out, sheet);
    } else if out.len() == case.whole.len() {
        sheet.write("\n  out: all");
    } else if case.writes == MANY {
        sheet.write("\n  out: a beginning of octets ");
        sheet.show(&out.len());
    } else {
        sheet.write("\n  out: a beginning");
    }
}

/// What goes out where what comes is served before a new kernel. Writes how that ended, and what a later connection is told of the kernel.
fn seen(case: &Case, sheet: &mut Sheet) -> Vec<u8> {
    seen_in::<Brand>(case, Blank::new(2), sheet)
}

/// The same, over this ledger.
fn seen_in<L: Ledger>(case: &Case, blank: Blank, sheet: &mut Sheet) -> Vec<u8>
    requires name { blank.name ≡ L.name }
    requires parts { blank.parts ≡ L.parts }
    requires two { 1 < L.parts }
{
    let alloc = sheet.alloc();
    match Kernel::<L>::new(alloc, blank) {
        Ok(kernel) => {
            let mut desk = LoneDesk::new(alloc, kernel, Comms::new(alloc), Vec::new(alloc));
            let out = seen_at(&mut desk, case, sheet);
            desk.discard();
            out
        }
        Err(_) => {
            sheet.refuse();
            Vec::new(alloc)
        }
    }
}

/// The same, before this desk.
fn seen_at<L: Ledger>(desk: &mut LoneDesk<L>, case: &Case, sheet: &mut Sheet) -> Vec<u8> {
    let written = AtomicUsize::new(0);
    let mut writer = case.writer(&written, sheet);
    tell_ended(desk, 1, case.reader(&written), &mut writer, sheet);
    look(desk, &case.aside, sheet);
    writer.octets
}

/// Serves these octets over streams that don't fail, and writes how that ended and what went out.
fn look<L: Ledger>(desk: &mut LoneDesk<L>, octets: &[u8], sheet: &mut Sheet) {
    let written = AtomicUsize::new(0);
    let mut writer = willing(&written, sheet);
    let reader = Pieces {
        octets,
        size: MANY,
        reads: MANY,
        written: &written,
        seen: 0,
    };
    sheet.write("\n  later");
    tell_ended(desk, 2, reader, &mut writer, sheet);
    write_octets(" ", &writer.octets, sheet);
}

/// Serves shell as the connection of this number, and writes how that ended.
fn tell_ended<L: Ledger>(
    desk: &mut LoneDesk<L>,
    connection: u64,
    mut reader: Pieces<'_>,
    writer: &mut LimitedWriter<'_>,
    sheet: &mut Sheet,
) {
    let alloc = sheet.alloc();
    let key = Key::new(Vec::new(alloc));
    let mut stamp = stamp(connection, 0, sheet);
    let ended = serve_lone(
        alloc,
        Socket::Shell,
        &key,
        &mut reader,
        writer,
        desk,
        &mut Unwatched,
        &mut stamp,
    );
    sheet.write(": ");
    sheet.show(&ended);
}
