//! Connections before a desk without a kernel.
use crate::case::Case;
use crate::desk::NoKernel;
use crate::streams::{LimitedWriter, Pieces};
use crate::watcher::Notebook;
use jupyter_msg::Key;
use kernel_board::Broadcast;
use kernel_message::Stamp;
use kernel_server::{ServeFault, Socket, serve};
use std::sync::atomic::AtomicUsize;
use tests_rows::Sheet;

/// The stamp of session `k` and this connection, with this number next.
pub(crate) fn stamp(connection: u64, next: u64, sheet: &mut Sheet) -> Stamp {
    Stamp {
        session: sheet.made(String::from_str(sheet.alloc(), "k")),
        connection,
        next,
        date: *b"2025-01-01T00:00:00Z",
    }
}

/// The socket of this name.
fn socket_of(name: &str) -> Socket {
    match name {
        "shell" => Socket::Shell,
        "control" => Socket::Control,
        "iopub" => Socket::Iopub,
        "stdin" => Socket::Stdin,
        _ => Socket::Heartbeat,
    }
}

/// Serves what comes on a socket, and writes what is told of it.
pub(crate) fn tell(word: &str, socket: &str, case: &Case, desk: &mut NoKernel, sheet: &mut Sheet) {
    sheet.write(": ");
    desk.is_without_memory = case.is_without_memory;
    let written = AtomicUsize::new(0);
    let mut reader = case.reader(&written);
    let mut writer = case.writer(&written, sheet);
    let mut notebook = Notebook::new(sheet.alloc(), &written);
    let ended = served(
        socket_of(socket),
        case,
        &mut reader,
        &mut writer,
        desk,
        &mut notebook,
        sheet,
    );
    sheet.show(&ended);
    match word {
        "watch" => tell_seen(reader.seen, sheet),
        "calls" => sheet.add(&desk.calls),
        "notices" => sheet.add(&notebook.notices),
        _ => tell_all(&writer.octets, desk, sheet),
    }
}

/// Serves a socket over these streams, and tells how that ended.
fn served(
    socket: Socket,
    case: &Case,
    reader: &mut Pieces<'_>,
    writer: &mut LimitedWriter<'_>,
    desk: &mut NoKernel,
    notebook: &mut Notebook<'_>,
    sheet: &mut Sheet,
) -> Result<(), ServeFault> {
    let key = Key::new(sheet.copied(&case.key));
    let mut stamp = stamp(1, case.next, sheet);
    serve(
        sheet.alloc(),
        socket,
        &key,
        reader,
        writer,
        desk,
        notebook,
        &mut stamp,
    )
}

/// Writes how many octets had gone out before the last read.
fn tell_seen(seen: usize, sheet: &mut Sheet) {
    sheet.write("\n  out before the last read: ");
    sheet.show(&seen);
}

/// Writes what went out, and what a desk has published and was called for.
fn tell_all(octets: &[u8], desk: &NoKernel, sheet: &mut Sheet) {
    write_octets("\n  out: ", octets, sheet);
    for broadcast in &desk.kept {
        tell_broadcast(broadcast, sheet);
    }
    sheet.add(&desk.calls);
}

/// Writes a word and octets.
pub(crate) fn write_octets(word: &str, octets: &[u8], sheet: &mut Sheet) {
    sheet.write(word);
    sheet.display(&octets.escape_ascii());
}

/// Writes the octets of a broadcast.
fn tell_broadcast(broadcast: &Broadcast, sheet: &mut Sheet) {
    match broadcast.octets() {
        Some(octets) => write_octets("\n  published: ", octets, sheet),
        None => sheet.write("\n  published: too long"),
    }
}
