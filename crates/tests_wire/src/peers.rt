//! Rows of one peer: `role` begins a new one, and gives the octets that it sends first; `feed` gives what octets tell it, `wants` whether a message on
//! a topic is subscribed to, `partner` the version of the other end and `minor` its minor version, and `subscribes` what asks the other end for a prefix,
//! once READY came.
use crate::cuts::{feed, role_of, write_fault};
use crate::frames::write_sent;
use tests_rows::{Sheet, cut};
use zmtp_peer::Peer;

/// Makes a call on a peer, and writes the answer.
pub(crate) fn answer(call: &str, peer: &mut Peer, sheet: &mut Sheet) {
    let (word, rest) = cut(call);
    match word {
        "role" => begin(rest, peer, sheet),
        "feed" => tell_fed(rest, peer, sheet),
        "wants" => sheet.show(&peer.wants(rest.as_bytes())),
        "minor" => sheet.show(&peer.minor()),
        "subscribes" => tell_subscription(rest, peer, sheet),
        _ => sheet.show(&peer.partner()),
    }
}

/// Begins a new peer, and writes what it sends first.
fn begin(role: &str, peer: &mut Peer, sheet: &mut Sheet) {
    *peer = Peer::new(sheet.alloc(), role_of(role));
    match peer.opening() {
        Ok(octets) => sheet.write_hex(&octets),
        Err(fault) => sheet.write(fault.name()),
    }
}

/// Writes what asks the other end for what begins with a prefix.
fn tell_subscription(row: &str, peer: &Peer, sheet: &mut Sheet) {
    let prefix = sheet.octets(row);
    if peer.is_ready() {
        write_sent(peer.subscription(&prefix), sheet);
    } else {
        sheet.write("not ready");
    }
}

/// Writes what octets tell a peer.
fn tell_fed(row: &str, peer: &mut Peer, sheet: &mut Sheet) {
    let octets = sheet.octets(row);
    let mut told = Sheet::new(sheet.alloc());
    let fault = feed(peer, &octets, &mut told);
    write_fault(fault, &mut told);
    let told = sheet.take(told);
    sheet.write(&told);
}
