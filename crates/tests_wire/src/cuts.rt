//! Rows of octets that a peer is fed in any cut: the role, and all octets from the greeting on. The answer has the events that they tell the role,
//! and behind a bar the number of the fault; where a stream that is left behind an octet tells more or else, the answer says so. A message has its
//! bodies behind it, a subscription its prefix, a ping its context, and an ERROR its reason.
use tests_rows::{Sheet, cut};
use zmtp_peer::{Peer, PeerEvent, PeerFault, Role};

/// Writes the answer to a call.
pub(crate) fn answer(call: &str, sheet: &mut Sheet) {
    let (role, row) = cut(call);
    let octets = sheet.octets(row);
    tell_cuts(role_of(role), &octets, sheet);
}

/// The role of this name.
pub(crate) fn role_of(name: &str) -> Role {
    match name {
        "Router" => Role::Router,
        "Pub" => Role::Pub,
        "Rep" => Role::Rep,
        "Dealer" => Role::Dealer,
        _ => Role::Sub,
    }
}

/// Writes what octets tell a role, octet by octet and in each cut into two, and where they are left behind each octet.
fn tell_cuts(role: Role, octets: &[u8], sheet: &mut Sheet) {
    let whole = told(role, octets, 1, 1, sheet);
    for first in 0..=octets.len() {
        compare(role, octets, first, &whole, sheet);
    }
    sheet.write(&whole);
}

/// Says so where octets that are cut into two, or left behind the first of these, tell a role something else.
fn compare(role: Role, octets: &[u8], first: usize, whole: &str, sheet: &mut Sheet) {
    let (front, _) = octets.split_at(first.min(octets.len()));
    let cut = told(role, octets, first, octets.len(), sheet);
    let left = told(role, front, first, 1, sheet);
    if cut.as_str() != whole || !is_beginning(&left, whole) {
        sheet.write("differs at ");
        sheet.show(&first);
        sheet.write(": ");
    }
}

/// Whether what was told of a beginning is a beginning of what was told of all, with no fault but that of all.
fn is_beginning(left: &str, whole: &str) -> bool {
    let (Some((told, fault)), Some((all, end))) = (left.rsplit_once('|'), whole.rsplit_once('|'))
    else {
        return false;
    };
    let Some(rest) = all.strip_prefix(told) else {
        return false;
    };
    let is_whole = rest.is_empty() || told.is_empty() || rest.starts_with(' ');
    is_whole && (fault.is_empty() || fault == end)
}

/// What octets tell a role, cut after a number of them, the rest in pieces of this length and then an empty piece.
fn told(role: Role, octets: &[u8], first: usize, length: usize, sheet: &mut Sheet) -> String {
    let mut peer = Peer::new(sheet.alloc(), role);
    let mut told = Sheet::new(sheet.alloc());
    let fault = feed_all(&mut peer, octets, first, length, &mut told);
    write_fault(fault, &mut told);
    sheet.take(told)
}

/// Feeds octets, cut after a number of them, the rest in pieces of this length and then an empty piece, and writes the events. Gives
/// the fault, if any and if it is told again.
fn feed_all(
    peer: &mut Peer,
    octets: &[u8],
    first: usize,
    length: usize,
    told: &mut Sheet,
) -> Option<PeerFault> {
    let (front, rest) = octets.split_at(first.min(octets.len()));
    feed(peer, front, told);
    for piece in rest.chunks(length.max(1)) {
        feed(peer, piece, told);
    }
    let fault = feed(peer, &[], told);
    if fault.is_some() && feed(peer, b"\0\0", told) != fault {
        return None;
    }
    fault
}

/// Feeds a piece, once more where memory ran out.
fn fed(peer: &mut Peer, piece: &[u8]) -> Result<Vec<PeerEvent>, PeerFault> {
    match peer.feed(piece) {
        Err(PeerFault::MEMORY) => peer.feed(piece),
        told => told,
    }
}

/// Feeds a piece, and writes the events on a sheet that has events alone. Gives the fault, if any.
pub(crate) fn feed(peer: &mut Peer, piece: &[u8], told: &mut Sheet) -> Option<PeerFault> {
    match fed(peer, piece) {
        Ok(events) => {
            write_events(&events, told);
            None
        }
        Err(fault) => Some(fault),
    }
}

/// Writes events.
fn write_events(events: &[PeerEvent], told: &mut Sheet) {
    for event in events {
        if !told.text().is_empty() {
            told.write(" ");
        }
        write_event(event, told);
    }
}

/// Writes an event.
fn write_event(event: &PeerEvent, told: &mut Sheet) {
    match event {
        PeerEvent::Ready => told.write("Ready"),
        PeerEvent::Message(frames) => write_message(frames, told),
        PeerEvent::Subscribe(prefix) => write_octets("Subscribe=", prefix, told),
        PeerEvent::Cancel(prefix) => write_octets("Cancel=", prefix, told),
        PeerEvent::Ping(context) => write_octets("Ping=", context, told),
    }
}

/// Writes a message with its bodies.
fn write_message(frames: &[Vec<u8>], told: &mut Sheet) {
    told.write("Message=");
    for (i, frame) in frames.iter().enumerate() {
        write_octets(if i == 0 { "" } else { "," }, frame, told);
    }
}

/// Writes a word and octets in hexadecimal.
fn write_octets(word: &str, octets: &[u8], told: &mut Sheet) {
    told.write(word);
    told.write_hex(octets);
}

/// Writes the number of a fault behind a bar, and the reason of an ERROR.
pub(crate) fn write_fault(fault: Option<PeerFault>, told: &mut Sheet) {
    told.write("|");
    match fault {
        None => {}
        Some(PeerFault::PeerError(reason)) => write_octets("11=", reason.as_octets(), told),
        Some(fault) => told.show(&fault.number()),
    }
}
