//! Connections, which are replayed to the kernel of a desk.
use crate::escaped::escaped;
use crate::stamps::stamp;
use hex::FromHexError;
use jupyter_msg::Key;
use kernel_message::Stamp;
use kernel_server::{LoneDesk, Socket, Unwatched, serve_lone};
use std::sync::ledger::Ledger;
use tests_rows::Sheet;

/// Replays connections to the kernel of a desk.
pub(crate) fn replay_all<L: Ledger>(
    desk: &mut LoneDesk<L>,
    key: &Key,
    connections: &str,
    sheet: &mut Sheet,
) {
    let mut number = 0u64;
    for line in connections.lines() {
        number = number.saturating_add(1);
        replay(desk, key, number, line, sheet);
    }
}

/// Replays one connection, and writes what goes out.
fn replay<L: Ledger>(
    desk: &mut LoneDesk<L>,
    key: &Key,
    number: u64,
    line: &str,
    sheet: &mut Sheet,
) {
    let (name, digits) = line.split_once(' ').unwrap_or((line, ""));
    sheet.write(name);
    sheet.write(" ");
    match socket_of(name) {
        Some(socket) => replay_digits(desk, key, number, socket, digits, sheet),
        None => sheet.write("is no socket's name"),
    }
    sheet.write("\n");
}

/// The socket of this name.
fn socket_of(name: &str) -> Option<Socket> {
    match name {
        "shell" => Some(Socket::Shell),
        "control" => Some(Socket::Control),
        "iopub" => Some(Socket::Iopub),
        "stdin" => Some(Socket::Stdin),
        "heartbeat" => Some(Socket::Heartbeat),
        _ => None,
    }
}

/// Replays the octets that these digits write on a connection to a socket.
fn replay_digits<L: Ledger>(
    desk: &mut LoneDesk<L>,
    key: &Key,
    number: u64,
    socket: Socket,
    digits: &str,
    sheet: &mut Sheet,
) {
    match hex::decode(sheet.alloc(), digits) {
        Ok(octets) => replay_octets(desk, key, number, socket, &octets, sheet),
        Err(FromHexError::OutOfMemory) => sheet.refuse(),
        Err(fault) => sheet.show(&fault),
    }
}

/// Replays octets on a connection to a socket.
fn replay_octets<L: Ledger>(
    desk: &mut LoneDesk<L>,
    key: &Key,
    number: u64,
    socket: Socket,
    octets: &[u8],
    sheet: &mut Sheet,
) {
    match stamp(sheet.alloc(), number) {
        Ok(mut stamp) => serve(desk, key, &mut stamp, socket, octets, sheet),
        Err(_) => sheet.refuse(),
    }
}

/// Serves octets under a stamp on a connection to a socket, and writes how it ended and what goes out.
fn serve<L: Ledger>(
    desk: &mut LoneDesk<L>,
    key: &Key,
    stamp: &mut Stamp,
    socket: Socket,
    octets: &[u8],
    sheet: &mut Sheet,
) {
    let alloc = sheet.alloc();
    let mut input = octets;
    let mut written = Vec::new(alloc);
    let ended = serve_lone(
        alloc,
        socket,
        key,
        &mut input,
        &mut written,
        desk,
        &mut Unwatched,
        stamp,
    );
    sheet.show(&ended);
    sheet.write("\n");
    write_escaped(&written, sheet);
}

/// Writes octets as a text that people can read.
fn write_escaped(octets: &[u8], sheet: &mut Sheet) {
    match escaped(sheet.alloc(), octets) {
        Ok(text) => sheet.write(&text),
        Err(_) => sheet.refuse(),
    }
}
