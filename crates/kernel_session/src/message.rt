//! The events of a connection, one after the other.
ghost use Rattle.std.specs.Prelude.{◌≡◌, ◌⊎◌, List, [], ◌∷◌, IfOk, IfErr, OnErr};
ghost use Rattle.jupyter_msg.specs.Octets.{octets};
ghost use Rattle.zmtp_peer.specs.Events.{event_of, events_of};
ghost use Rattle.std.specs.Io.KnownBytes.{Appends};
ghost use Rattle.zmtp_wire.specs.Message.{message_octets};
ghost use Rattle.zmtp_wire.specs.Pong.{pong_octets};
ghost use Rattle.exact_write.specs.Sent.{SentSome};
ghost use Rattle.kernel_watch.specs.declared.notice.Notice.TheVariants as notice;
ghost use Rattle.kernel_watch.specs.Hears.{Hears};
ghost use Rattle.kernel_watch.specs.Pings.{answers};
ghost use Rattle.kernel_session.specs.Action.{Action, ActsTold};
ghost use Rattle.kernel_session.specs.Parts.{ActedToldPart, IsRead};
ghost use Rattle.kernel_session.specs.Session.{State, IsServedTold, IsWorn, IsTurn, going};
ghost use Rattle.kernel_session.specs.Ends.{IsMidway, Takes, Breaks, Cut, comes_to};

use crate::desk::Desk;
use crate::fault::ServeFault;
use crate::flow::Flow;
use crate::request::take_request;
use crate::send::{send_message, send_pong};
use crate::socket::Socket;
use jupyter_msg::{Key, MsgFault, Request, open};
use kernel_message::Stamp;
use kernel_watch::{Notice, Watcher};
use std::alloc::Global;
use std::io::Write;
use std::mem;
use zmtp_peer::PeerEvent;

/// The greatest number that a request may begin with: its messages have numbers too.
const LAST_NEXT: u64 = u64::MAX - 15;

/// What was read of a message.
enum Reading {
    /// It is none, or its signature is wrong.
    NoMessage,
    /// It is signed under the key, and asks nothing that the socket serves.
    Nothing,
    /// It is signed under the key, and asks this.
    Asked(Request),
}

/// Reads a message.
fn read_request(
    alloc: Global,
    socket: Socket,
    key: &Key,
    frames: Vec<Vec<u8>>,
) -> Result<Reading, ServeFault>
    ensures ok { IfOk result (λ reading. IsRead socket key.now (octets frames.items) reading) }
    ensures midway { IfErr result IsMidway }
{
    let opened = match open(alloc, frames, key) {
        Ok(opened) => opened,
        Err(MsgFault::Memory) => return Err(ServeFault::Memory),
        Err(_) => return Ok(Reading::NoMessage),
    };
    let request = match Request::take(alloc, opened) {
        Ok(request) => request,
        Err(MsgFault::Memory) => return Err(ServeFault::Memory),
        Err(_) => return Ok(Reading::Nothing),
    };
    if socket.serves(request.content.request_type()) {
        Ok(Reading::Asked(request))
    } else {
        Ok(Reading::Nothing)
    }
}

/// Serves a request that is signed, where a number is left for it, and tells when it begins and when it is done.
#[tactic(auto, using(crate::proofs::ActsLemmas::told_none))]
fn attend<W: Write, D: Desk, V: Watcher>(
    alloc: Global,
    key: &Key,
    writer: &mut W,
    desk: &mut D,
    watcher: &mut V,
    stamp: &mut Stamp,
    request: &mut Request,
) -> Result<Flow, ServeFault>
    ensures ok { IfOk result (λ flow. (actions : List Action)
        × ActsTold W.contents D.leads V.notices writer.old writer.new desk.old desk.new watcher.old watcher.new actions
        × (IsServedTold key.now request.old stamp.old actions (record { stamp = stamp.new; flow = flow })
        ⊎ IsWorn stamp.old actions (record { stamp = stamp.new; flow = flow }))) }
    ensures err { OnErr result ((actions : List Action) × (new : State) × IsServedTold key.now request.old stamp.old actions new
        × ActedToldPart W.contents D.leads V.notices writer.old writer.new desk.old desk.new watcher.old watcher.new actions) }
    ensures midway { IfErr result IsMidway }
{
    if stamp.next > LAST_NEXT {
        return Ok(Flow::Worn);
    }
    watcher.tell(Notice::Begun);
    match take_request(alloc, key, writer, desk, stamp, request) {
        Ok(flow) => {
            watcher.tell(Notice::Done);
            Ok(flow)
        }
        Err(fault) => Err(fault),
    }
}

/// Takes a message on shell or control.
#[tactic(auto, using(crate::proofs::ActsLemmas::told_none))]
fn take_turn<W: Write, D: Desk, V: Watcher>(
    alloc: Global,
    socket: Socket,
    key: &Key,
    writer: &mut W,
    desk: &mut D,
    watcher: &mut V,
    stamp: &mut Stamp,
    frames: Vec<Vec<u8>>,
) -> Result<Flow, ServeFault>
    ensures ok { IfOk result (λ flow. (actions : List Action)
        × IsTurn socket key.now stamp.old (octets frames.items) actions (record { stamp = stamp.new; flow = flow })
        × ActsTold W.contents D.leads V.notices writer.old writer.new desk.old desk.new watcher.old watcher.new actions) }
    ensures err { OnErr result (((actions : List Action) × (new : State) × IsTurn socket key.now stamp.old (octets frames.items) actions new
        × ActedToldPart W.contents D.leads V.notices writer.old writer.new desk.old desk.new watcher.old watcher.new actions)
        ⊎ ActsTold W.contents D.leads V.notices writer.old writer.new desk.old desk.new watcher.old watcher.new []) }
    ensures midway { IfErr result IsMidway }
{
    match read_request(alloc, socket, key, frames) {
        Ok(Reading::Asked(mut request)) => {
            watcher.tell(Notice::Signed);
            attend(alloc, key, writer, desk, watcher, stamp, &mut request)
        }
        Ok(Reading::Nothing) => {
            watcher.tell(Notice::Signed);
            Ok(Flow::Going)
        }
        Ok(Reading::NoMessage) => Ok(Flow::Going),
        Err(fault) => Err(fault),
    }
}

/// Sends a message back, and tells so.
fn echo<W: Write, V: Watcher>(
    alloc: Global,
    writer: &mut W,
    watcher: &mut V,
    frames: &[Vec<u8>],
) -> Result<Flow, ServeFault>
    ensures ok { IfOk result (λ flow. (flow ≡ Flow.Going)
        × Appends (W.contents writer.old) (W.contents writer.new) (message_octets (octets frames.now))
        × Hears (V.notices watcher.old) (V.notices watcher.new) (notice.Echoed ∷ [])) }
    ensures err { OnErr result (SentSome (W.contents writer.old) (W.contents writer.new) (message_octets (octets frames.now))
        × (watcher.new ≡ watcher.old)) }
    ensures midway { IfErr result IsMidway }
{
    match send_message(alloc, writer, frames) {
        Ok(()) => {
            watcher.tell(Notice::Echoed);
            Ok(Flow::Going)
        }
        Err(fault) => Err(fault),
    }
}

/// Answers a ping, and tells so.
fn pong<W: Write, V: Watcher>(
    alloc: Global,
    writer: &mut W,
    watcher: &mut V,
    context: &[u8],
) -> Result<Flow, ServeFault>
    ensures ok { IfOk result (λ flow. (flow ≡ Flow.Going)
        × Appends (W.contents writer.old) (W.contents writer.new) (pong_octets context.now)
        × Hears (V.notices watcher.old) (V.notices watcher.new) (answers context.now ∷ [])) }
    ensures err { OnErr result (SentSome (W.contents writer.old) (W.contents writer.new) (pong_octets context.now)
        × (watcher.new ≡ watcher.old)) }
    ensures midway { IfErr result IsMidway }
{
    match send_pong(alloc, writer, context) {
        Ok(()) => {
            watcher.tell(Notice::answered(context));
            Ok(Flow::Going)
        }
        Err(fault) => Err(fault),
    }
}

/// The handshake is over.
fn welcome<V: Watcher>(watcher: &mut V) -> Flow
    ensures flow { result ≡ Flow.Going }
    ensures told { Hears (V.notices watcher.old) (V.notices watcher.new) (notice.Ready ∷ []) }
{
    watcher.tell(Notice::Ready);
    Flow::Going
}

/// Takes an event.
#[tactic(auto, using(crate::proofs::ActsLemmas::told_none))]
fn take_event<W: Write, D: Desk, V: Watcher>(
    alloc: Global,
    socket: Socket,
    key: &Key,
    writer: &mut W,
    desk: &mut D,
    watcher: &mut V,
    stamp: &mut Stamp,
    event: PeerEvent,
) -> Result<Flow, ServeFault>
    ensures ok { IfOk result (λ flow. Takes W.contents D.leads V.notices socket key.now writer.old writer.new desk.old desk.new
        watcher.old watcher.new stamp.old (event_of event) (record { stamp = stamp.new; flow = flow })) }
    ensures err { OnErr result (Breaks W.contents D.leads V.notices socket key.now writer.old writer.new desk.old desk.new
        watcher.old watcher.new stamp.old (event_of event)) }
    ensures midway { IfErr result IsMidway }
{
    let frames = match event {
        PeerEvent::Message(frames) => frames,
        PeerEvent::Ping(context) => return pong(alloc, writer, watcher, &context),
        PeerEvent::Ready => return Ok(welcome(watcher)),
        PeerEvent::Subscribe(_prefix) => return Ok(Flow::Going),
        PeerEvent::Cancel(_prefix) => return Ok(Flow::Going),
    };
    match socket {
        Socket::Shell => take_turn(
            alloc,
            Socket::Shell,
            key,
            writer,
            desk,
            watcher,
            stamp,
            frames,
        ),
        Socket::Control => take_turn(
            alloc,
            Socket::Control,
            key,
            writer,
            desk,
            watcher,
            stamp,
            frames,
        ),
        Socket::Heartbeat => echo(alloc, writer, watcher, &frames),
        Socket::Iopub => Ok(Flow::Going),
        Socket::Stdin => Ok(Flow::Going),
    }
}

/// Takes events in order, up to the end of the session. They are taken out of their places.
pub(crate) fn take_all<W: Write, D: Desk, V: Watcher>(
    alloc: Global,
    socket: Socket,
    key: &Key,
    writer: &mut W,
    desk: &mut D,
    watcher: &mut V,
    stamp: &mut Stamp,
    events: &mut [PeerEvent],
) -> Result<Flow, ServeFault>
    ensures ok { IfOk result (λ flow. comes_to W.contents D.leads V.notices socket key.now [] writer.old writer.new desk.old desk.new
        watcher.old watcher.new (going stamp.old) stamp.new flow (events_of events.old)) }
    ensures err { OnErr result (Cut W.contents D.leads V.notices socket key.now [] writer.old writer.new desk.old desk.new
        watcher.old watcher.new (going stamp.old) (events_of events.old)) }
    ensures midway { IfErr result IsMidway }
{
    for i in 0..events.len() {
        let event = mem::replace(&mut events[i], PeerEvent::Ready);
        let flow = match take_event(alloc, socket, key, writer, desk, watcher, stamp, event) {
            Ok(flow) => flow,
            Err(fault) => return Err(fault),
        };
        match flow {
            Flow::Going => {}
            _ => return Ok(flow),
        }
    }
    Ok(Flow::Going)
}
