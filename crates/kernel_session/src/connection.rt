//! One connection, from octets to octets.
ghost use Rattle.std.specs.Prelude.{◌≡◌, ◌≢◌, ◌⊎◌, ℕ, List, [], ◌++◌, IfOk, IfErr, OnOk, OnErr};
ghost use Rattle.std.specs.Io.KnownBytes.{Appends, Consumes};
ghost use Rattle.zmtp_peer.specs.Events.{Event};
ghost use Rattle.zmtp_peer.specs.Faults.{fault_of, want_of_memory};
ghost use Rattle.zmtp_peer.specs.Opening.{opening_of};
ghost use Rattle.zmtp_peer.specs.Reading.{Stands, Brings, Awaiting, ending_of};
ghost use Rattle.zmtp_peer.specs.Terms.{is_newer};
ghost use Rattle.kernel_board.specs.Frames.{Frames};
ghost use Rattle.exact_write.specs.Sent.{SentSome};
ghost use Rattle.kernel_session.specs.Action.{Action, Acts, sends};
ghost use Rattle.kernel_session.specs.Parts.{ActedPart};
ghost use Rattle.kernel_session.specs.Closing.{Closes, ClosesPart, IsFarewell, IsFarewellPart, IsShown, AreShown};
ghost use Rattle.kernel_session.specs.Session.{going, role_of};
ghost use Rattle.kernel_session.specs.Ends.{IsMidway, comes_to, stops_by, ends_by};

use crate::desk::Desk;
use crate::fault::ServeFault;
use crate::flow::Flow;
use crate::message::take_all;
use crate::send::send_broadcast;
use crate::socket::Socket;
use exact_write::send;
use jupyter_msg::Key;
use kernel_board::Broadcast;
use kernel_message::Stamp;
use kernel_watch::Watcher;
use std::alloc::Global;
use std::io::{Read, Write};
use zmtp_peer::{Peer, PeerFault, octets_have_one_reading_law};
use zmtp_wire::{Greeting, WireFault};

/// The most octets that are read at once.
const READ_OCTETS: usize = 8192;

/// Why the connection ends at a fault of the peer.
fn stop(fault: PeerFault) -> ServeFault
    ensures { ((fault_of fault ≡ want_of_memory) × (result ≡ ServeFault.Memory))
        ⊎ ((fault_of fault ≢ want_of_memory) × (result ≡ ServeFault.Peer fault)) }
{
    match fault {
        PeerFault::Wire(WireFault::Memory) => ServeFault::Memory,
        PeerFault::Wire(
            WireFault::BadSignature
            | WireFault::OldVersion
            | WireFault::BadMechanism
            | WireFault::ReservedBits
            | WireFault::CommandWithMore
            | WireFault::TooLong,
        )
        | PeerFault::NoSocketType
        | PeerFault::WrongPair
        | PeerFault::BadMetadata
        | PeerFault::PeerError(_)
        | PeerFault::NotReady
        | PeerFault::BadPing => ServeFault::Peer(fault),
    }
}

/// Whether a partner of this greeting answers pings: whether it speaks ZMTP 3.1 or later.
fn answers_pings(greeting: Greeting) -> bool
    ensures { result ≡ is_newer greeting.major greeting.minor }
{
    greeting.major > 3 || (greeting.major == 3 && greeting.minor >= 1)
}

/// Tells whether the partner answers pings, once its greeting has come.
fn introduce<V: Watcher>(peer: &Peer, watcher: &V) {
    if let Some(greeting) = peer.partner() {
        watcher.meet(answers_pings(greeting));
    }
}

/// Takes the next piece of what the peer sends.
fn advance<W: Write, D: Desk, V: Watcher>(
    alloc: Global,
    socket: Socket,
    key: &Key,
    peer: &mut Peer,
    writer: &mut W,
    desk: &mut D,
    watcher: &mut V,
    stamp: &mut Stamp,
    piece: &[u8],
) -> Result<Flow, ServeFault>
    ensures ok { IfOk result (λ flow. (events : List Event) × Brings peer.old piece.now events peer.new
        × comes_to W.contents D.leads V.notices socket key.now [] writer.old writer.new desk.old desk.new watcher.old watcher.new
        (going stamp.old) stamp.new flow events) }
    ensures quiet { IfOk result (λ flow. flow ≡ Flow.Going → (fed : List ℕ) → (given : List Event) → Stands fed given peer.old
        → ending_of peer.new.state ≡ Awaiting) }
    ensures err { IfErr result (λ fault. stops_by W.contents D.leads V.notices socket key.now writer.old writer.new desk.old desk.new
        watcher.old watcher.new stamp.old stamp.new peer.old piece.now peer.new fault) }
    ensures role { peer.new.role ≡ peer.old.role }
{
    let mut events = match peer.feed(piece) {
        Ok(events) => events,
        Err(fault) => return Err(stop(fault)),
    };
    let has_events = !events.is_empty();
    introduce(peer, watcher);
    let flow = match take_all(
        alloc,
        socket,
        key,
        writer,
        desk,
        watcher,
        stamp,
        &mut events,
    ) {
        Ok(flow) => flow,
        Err(fault) => return Err(fault),
    };
    match flow {
        Flow::Going => {}
        _ => return Ok(flow),
    }
    if !has_events {
        return Ok(flow);
    }
    // A fault behind the events is told by a call of its own.
    octets_have_one_reading_law();
    match peer.feed(&[]) {
        Ok(_) => Ok(Flow::Going),
        Err(fault) => Err(stop(fault)),
    }
}

/// Writes a broadcast, where the peer has subscribed to it.
fn show<W: Write>(peer: &Peer, writer: &mut W, broadcast: &Broadcast) -> Result<(), ServeFault>
    ensures ok { OnOk result ((fed : List ℕ) → (given : List Event) → Stands fed given peer.now → (octets : List ℕ)
        × IsShown given broadcast.now octets × Appends (W.contents writer.old) (W.contents writer.new) octets) }
    ensures err { OnErr result ((fed : List ℕ) → (given : List Event) → Stands fed given peer.now → (octets : List ℕ)
        × IsShown given broadcast.now octets × SentSome (W.contents writer.old) (W.contents writer.new) octets) }
    ensures midway { IfErr result IsMidway }
{
    if peer.wants(broadcast.topic()) {
        return send_broadcast(writer, broadcast);
    }
    Ok(())
}

/// Writes broadcasts in turn, as far as the peer has subscribed to them.
fn show_all<W: Write>(
    peer: &Peer,
    writer: &mut W,
    broadcasts: &[Broadcast],
) -> Result<(), ServeFault>
    ensures ok { OnOk result ((fed : List ℕ) → (given : List Event) → Stands fed given peer.now → (octets : List ℕ)
        × AreShown given broadcasts.now octets × Appends (W.contents writer.old) (W.contents writer.new) octets) }
    ensures err { OnErr result ((fed : List ℕ) → (given : List Event) → Stands fed given peer.now → (front : List Frames) × (more : List Frames)
        × (broadcasts.now ≡ front ++ more) × (octets : List ℕ) × AreShown given front octets
        × SentSome (W.contents writer.old) (W.contents writer.new) octets) }
    ensures midway { IfErr result IsMidway }
{
    for broadcast in broadcasts {
        match show(peer, writer, broadcast) {
            Ok(()) => {}
            Err(fault) => return Err(fault),
        }
    }
    Ok(())
}

/// Writes the broadcasts that the desk keeps, as far as the peer has subscribed to them.
fn show_kept<W: Write, D: Desk>(
    alloc: Global,
    peer: &Peer,
    writer: &mut W,
    desk: &mut D,
) -> Result<(), ServeFault>
    ensures ok { OnOk result ((fed : List ℕ) → (given : List Event) → Stands fed given peer.now → (closing : List Action)
        × IsFarewell given closing × Acts W.contents D.leads writer.old writer.new desk.old desk.new closing) }
    ensures err { OnErr result ((fed : List ℕ) → (given : List Event) → Stands fed given peer.now → (closing : List Action)
        × IsFarewellPart given closing × ActedPart W.contents D.leads writer.old writer.new desk.old desk.new closing) }
    ensures midway { IfErr result IsMidway }
{
    let kept = match desk.broadcasts(alloc) {
        Ok(kept) => kept,
        Err(_) => return Err(ServeFault::Memory),
    };
    show_all(peer, writer, &kept)
}

/// Does what the end of the input brings.
fn close<W: Write, D: Desk>(
    alloc: Global,
    socket: Socket,
    peer: &Peer,
    writer: &mut W,
    desk: &mut D,
) -> Result<(), ServeFault>
    ensures ok { OnOk result ((fed : List ℕ) → (given : List Event) → Stands fed given peer.now → (closing : List Action)
        × Closes socket given closing × Acts W.contents D.leads writer.old writer.new desk.old desk.new closing) }
    ensures err { OnErr result ((fed : List ℕ) → (given : List Event) → Stands fed given peer.now → (closing : List Action)
        × ClosesPart socket given closing × ActedPart W.contents D.leads writer.old writer.new desk.old desk.new closing) }
    ensures midway { IfErr result IsMidway }
{
    match socket {
        Socket::Iopub => show_kept(alloc, peer, writer, desk),
        Socket::Shell => Ok(()),
        Socket::Control => Ok(()),
        Socket::Stdin => Ok(()),
        Socket::Heartbeat => Ok(()),
    }
}

/// Sends what goes out before anything is read.
fn send_opening<W: Write>(writer: &mut W, peer: &Peer) -> Result<(), ServeFault>
    ensures ok { OnOk result (Appends (W.contents writer.old) (W.contents writer.new) (opening_of peer.now.role)) }
    ensures err { OnErr result (SentSome (W.contents writer.old) (W.contents writer.new) (opening_of peer.now.role)) }
    ensures midway { IfErr result IsMidway }
{
    let Ok(opening) = peer.opening() else {
        return Err(ServeFault::Memory);
    };
    match send(writer, &opening) {
        Ok(()) => Ok(()),
        Err(_) => Err(ServeFault::Write),
    }
}

/// Serves one connection: what is written, what is asked of the desk and what the watcher is told is the session of what was read, and before it the
/// opening of the socket's role. `Ok` comes at the end of the input, an end inside a frame included, and once a shutdown is answered.
///
/// The watcher is told that the handshake is over once it is; of each message on shell and control that it is signed, once its signature was found
/// right and before anything is done for it; that a request is under way before the first call for it, and that it is done behind its reply; that a
/// message was sent back, or a ping answered, once all its octets are out. It is told nothing else, and nothing twice, but for whether the
/// partner answers pings, with each piece that comes behind its greeting.
///
/// # Errors
///
/// `Read` where the reader failed, after 2^64 - 1 reads, and at a request behind the last number; `Write` where the writer failed, or
/// where a message is longer than any reader takes, though a reply's content may have been left out of it; `Peer` where the peer broke the protocol of
/// the wire, and nothing is written for it;
/// `Memory` where there is none, here or at the desk. With `Write` a beginning of the session was done, with `Memory` a beginning of that of some
/// beginning of what was read.
pub fn serve<R: Read, W: Write, D: Desk, V: Watcher>(
    alloc: Global,
    socket: Socket,
    key: &Key,
    reader: &mut R,
    writer: &mut W,
    desk: &mut D,
    watcher: &mut V,
    stamp: &mut Stamp,
) -> Result<(), ServeFault>
    ensures session { (input : List ℕ) × Consumes (R.remaining reader.old) (R.remaining reader.new) input
        × ends_by W.contents D.leads V.notices socket key.now (sends (opening_of (role_of socket))) writer.old writer.new desk.old desk.new
        watcher.old watcher.new (going stamp.old) stamp.new result input (R.remaining reader.new) }
{
    let mut peer = Peer::new(alloc, socket.role());
    match send_opening(writer, &peer) {
        Ok(()) => {}
        Err(fault) => return Err(fault),
    }
    let mut room = [0u8; READ_OCTETS];
    // A loop is proved to end, so this one counts its reads.
    for _ in 0..u64::MAX {
        let count = match reader.read(&mut room) {
            Ok(count) => count,
            Err(_) => return Err(ServeFault::Read),
        };
        match advance(
            alloc,
            socket,
            key,
            &mut peer,
            writer,
            desk,
            watcher,
            stamp,
            &room[..count],
        ) {
            Ok(Flow::Going) => {}
            Ok(Flow::Closed) => return Ok(()),
            Ok(Flow::Worn) => return Err(ServeFault::Read),
            Ok(Flow::OutOfMemory) => return Err(ServeFault::Memory),
            Err(fault) => return Err(fault),
        }
        if count == 0 {
            match close(alloc, socket, &peer, writer, desk) {
                Ok(()) => return Ok(()),
                Err(fault) => return Err(fault),
            }
        }
    }
    Err(ServeFault::Read)
}
