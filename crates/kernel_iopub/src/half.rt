//! The two halves of a subscriber's connection.
ghost use Rattle.std.specs.Prelude.{◌≡◌, ◌<◌, ℕ, Bool, true, [], ◌∷◌, IfOk, OnOk, OnErr, if◌then◌else◌};
ghost use Rattle.std.specs.List.{flat_map};
ghost use Rattle.std.specs.Option.{option_or};
ghost use Rattle.zmtp_wire.specs.Message.{bodies_of};
ghost use Rattle.kernel_watch.specs.Hears.{Hears};
ghost use Rattle.kernel_iopub.specs.Signs.{Gone, Goes, GoesSome, gone, pong_signs, ready_notices};
ghost use Rattle.kernel_iopub.specs.Round.{AreToldTo, AreToldInPart, IsSent, IsSentInPart, AreSentTo, IsServed, IsServedInPart, AreAnswered, AreAnsweredInPart};

use crate::bulletin::Bulletin;
use crate::fault::SubscriberFault;
use crate::news::News;
use crate::send::{send_broadcast, send_pong};
use crate::signals::Signals;
use crate::subscriber::{Sight, Subscriber, fall_silent, look, take, take_pings, wanted};
use kernel_board::{Broadcast, Place, Read as BoardRead};
use kernel_watch::{Notice, Watcher};
use std::alloc::Global;
use std::io::{Read, Write};
use std::sync::ledger::{Ledger, Share};
use std::sync::{Mutex, Wait};

/// The most octets that are read at once.
const READ_OCTETS: usize = 512;

/// Tells that the handshake is over, where it is now and was not before. Whether it is.
fn tell_ready<V: Watcher>(watcher: &mut V, was_ready: bool, is_ready: bool) -> bool
    ensures ready { result ≡ (if was_ready then true else is_ready) }
    ensures told { Hears (V.notices watcher.old) (V.notices watcher.new) (if was_ready then [] else ready_notices is_ready) }
{
    if was_ready {
        return true;
    }
    if is_ready {
        watcher.tell(Notice::Ready);
    }
    is_ready
}

/// Wakes the peer's own writing half, if the peer is ready or has sent pings. What else it sends, as that it subscribes, is nothing to wake anyone for.
fn wake_for(signals: &Signals, news: News) {
    if news.is_ready || news.pings > 0 {
        signals.event_count().raise();
    }
}

/// Feeds the peer all that comes, up to the end of the input. The watcher is told once, or never, that the handshake is over, and nothing else.
fn hear_all<L: Ledger, R: Wait, I: Read, V: Watcher>(
    rt: &R,
    bulletin: &Bulletin,
    signals: &Signals,
    shared: &Mutex<Subscriber<L>>,
    reader: &mut I,
    watcher: &mut V,
) -> Result<(), SubscriberFault>
    ensures told { (is_ready : Bool) × Hears (V.notices watcher.old) (V.notices watcher.new) (ready_notices is_ready) }
{
    let mut is_ready = false;
    let mut room = [0u8; READ_OCTETS];
    for _ in 0..u64::MAX {
        let count = match reader.read(&mut room) {
            Ok(0) => return Ok(()),
            Ok(count) => count,
            Err(_) => return Err(SubscriberFault::Read),
        };
        let news = take(rt, bulletin, signals, shared, &room[..count])?;
        is_ready = tell_ready(watcher, is_ready, news.is_ready);
        wake_for(signals, news);
    }
    Err(SubscriberFault::Read)
}

/// The reading half: it feeds the peer all that comes, and then tells the other half that nothing more does. The watcher is told that the handshake is
/// over, once it is, and nothing else.
pub fn hear<L: Ledger, R: Wait, I: Read, V: Watcher>(
    rt: &R,
    bulletin: &Bulletin,
    signals: &Signals,
    shared: &Mutex<Subscriber<L>>,
    reader: &mut I,
    watcher: &mut V,
) -> Result<(), SubscriberFault>
    ensures told { (is_ready : Bool) × Hears (V.notices watcher.old) (V.notices watcher.new) (ready_notices is_ready) }
{
    let heard = hear_all(rt, bulletin, signals, shared, reader, watcher);
    fall_silent(rt, shared);
    signals.event_count().raise();
    heard
}

/// Writes the answer to a ping, and tells so once it is out; or a beginning of it.
fn send_answer<W: Write, V: Watcher>(
    alloc: Global,
    writer: &mut W,
    watcher: &mut V,
    context: &[u8],
) -> Result<(), SubscriberFault>
    ensures ok { OnOk result (Goes (gone (W.contents writer.old) (V.notices watcher.old)) (gone (W.contents writer.new) (V.notices watcher.new))
        (pong_signs context.now)) }
    ensures err { OnErr result (GoesSome (gone (W.contents writer.old) (V.notices watcher.old)) (gone (W.contents writer.new) (V.notices watcher.new))
        (pong_signs context.now)) }
{
    match send_pong(alloc, writer, context) {
        Ok(()) => {
            watcher.tell(Notice::answered(context));
            Ok(())
        }
        Err(fault) => Err(fault),
    }
}

/// Writes answers to pings in turn, and tells of each: all of them, or some and a beginning of the next.
fn send_pongs<W: Write, V: Watcher>(
    alloc: Global,
    signals: &Signals,
    writer: &mut W,
    watcher: &mut V,
    contexts: &[Vec<u8>],
) -> Result<(), SubscriberFault>
    ensures ok { OnOk result (Goes (gone (W.contents writer.old) (V.notices watcher.old))
        (gone (W.contents writer.new) (V.notices watcher.new)) (flat_map pong_signs (bodies_of contexts.now))) }
    ensures err { OnErr result (GoesSome (gone (W.contents writer.old) (V.notices watcher.old))
        (gone (W.contents writer.new) (V.notices watcher.new)) (flat_map pong_signs (bodies_of contexts.now))) }
{
    for context in contexts {
        match send_answer(alloc, writer, watcher, context) {
            Ok(()) => signals.note_answered(),
            Err(fault) => return Err(fault),
        }
    }
    Ok(())
}

/// Answers the pings that wait, all of them.
#[tactic(auto, using(crate::proofs::SignLemmas::goes_none))]
fn answer<L: Ledger, R: Wait, W: Write, V: Watcher>(
    rt: &R,
    alloc: Global,
    signals: &Signals,
    shared: &Mutex<Subscriber<L>>,
    share: &mut Share<L>,
    writer: &mut W,
    watcher: &mut V,
) -> Result<(), SubscriberFault>
    requires share { (share.old.parts ≡ L.parts) × (0 < share.old.parts) }
    ensures ok { OnOk result (AreAnswered share.old.amount (gone (W.contents writer.old) (V.notices watcher.old))
        (gone (W.contents writer.new) (V.notices watcher.new)) share.new.amount) }
    ensures err { OnErr result (AreAnsweredInPart share.old.amount (gone (W.contents writer.old) (V.notices watcher.old))
        (gone (W.contents writer.new) (V.notices watcher.new))) }
    ensures parts { share.new.parts ≡ share.old.parts }
{
    match take_pings(rt, shared, share) {
        Ok(contexts) => send_pongs(alloc, signals, writer, watcher, &contexts),
        Err(fault) => Err(fault),
    }
}

/// Answers the pings that wait, all of them, and then writes a broadcast.
fn send_next<L: Ledger, R: Wait, W: Write, V: Watcher>(
    rt: &R,
    alloc: Global,
    signals: &Signals,
    shared: &Mutex<Subscriber<L>>,
    share: &mut Share<L>,
    writer: &mut W,
    watcher: &mut V,
    broadcast: &Broadcast,
) -> Result<(), SubscriberFault>
    requires share { (share.old.parts ≡ L.parts) × (0 < share.old.parts) }
    ensures ok { OnOk result (AreToldTo share.old.amount (gone (W.contents writer.old) (V.notices watcher.old))
        (gone (W.contents writer.new) (V.notices watcher.new)) (broadcast.now ∷ []) share.new.amount) }
    ensures err { OnErr result (AreToldInPart share.old.amount (gone (W.contents writer.old) (V.notices watcher.old))
        (gone (W.contents writer.new) (V.notices watcher.new)) (broadcast.now ∷ [])) }
    ensures parts { share.new.parts ≡ share.old.parts }
{
    match answer(rt, alloc, signals, shared, share, writer, watcher) {
        Ok(()) => {}
        Err(fault) => return Err(fault),
    }
    match send_broadcast(writer, broadcast) {
        Ok(()) => Ok(()),
        Err(fault) => Err(fault),
    }
}

/// Writes broadcasts in turn, and before each answers the pings that wait then: all of it, or a beginning.
fn send_all<L: Ledger, R: Wait, W: Write, V: Watcher>(
    rt: &R,
    alloc: Global,
    signals: &Signals,
    shared: &Mutex<Subscriber<L>>,
    share: &mut Share<L>,
    writer: &mut W,
    watcher: &mut V,
    broadcasts: &[Broadcast],
) -> Result<(), SubscriberFault>
    requires share { (share.old.parts ≡ L.parts) × (0 < share.old.parts) }
    ensures ok { OnOk result (AreToldTo share.old.amount (gone (W.contents writer.old) (V.notices watcher.old))
        (gone (W.contents writer.new) (V.notices watcher.new)) broadcasts.now share.new.amount) }
    ensures err { OnErr result (AreToldInPart share.old.amount (gone (W.contents writer.old) (V.notices watcher.old))
        (gone (W.contents writer.new) (V.notices watcher.new)) broadcasts.now) }
    ensures parts { share.new.parts ≡ share.old.parts }
{
    for broadcast in broadcasts {
        match send_next(
            rt, alloc, signals, shared, share, writer, watcher, broadcast,
        ) {
            Ok(()) => {}
            Err(fault) => return Err(fault),
        }
    }
    Ok(())
}

/// Reads the board once from a place, and writes what the peer wants of that, and before each message answers to pings: all of it, or a beginning where it
/// fails. The place behind it.
#[tactic(auto, using(crate::proofs::SignLemmas::goes_none))]
fn write_from<L: Ledger, R: Wait, W: Write, V: Watcher>(
    rt: &R,
    alloc: Global,
    bulletin: &Bulletin,
    signals: &Signals,
    shared: &Mutex<Subscriber<L>>,
    share: &mut Share<L>,
    writer: &mut W,
    watcher: &mut V,
    place: Place,
) -> Result<Place, SubscriberFault>
    requires share { (share.old.parts ≡ L.parts) × (0 < share.old.parts) }
    ensures ok { IfOk result (λ next. IsSent share.old.amount (gone (W.contents writer.old) (V.notices watcher.old))
        (gone (W.contents writer.new) (V.notices watcher.new)) place.number next.number share.new.amount) }
    ensures err { OnErr result (IsSentInPart share.old.amount (gone (W.contents writer.old) (V.notices watcher.old))
        (gone (W.contents writer.new) (V.notices watcher.new)) place.number) }
    ensures parts { share.new.parts ≡ share.old.parts }
{
    match bulletin.read_from(rt, place) {
        Err(_) => Err(SubscriberFault::Memory),
        Ok(BoardRead::Lagged(_)) => Err(SubscriberFault::Lagged),
        Ok(BoardRead::Got(broadcasts, next)) => {
            let kept = wanted(rt, alloc, shared, &broadcasts)?;
            match send_all(rt, alloc, signals, shared, share, writer, watcher, &kept) {
                Ok(()) => Ok(next),
                Err(fault) => Err(fault),
            }
        }
    }
}

/// One round more, from where the last one ended, if there is a place to read from. The place behind it.
fn go_on<L: Ledger, R: Wait, W: Write, V: Watcher>(
    rt: &R,
    alloc: Global,
    bulletin: &Bulletin,
    signals: &Signals,
    shared: &Mutex<Subscriber<L>>,
    share: &mut Share<L>,
    writer: &mut W,
    watcher: &mut V,
    before: Option<Place>,
) -> Result<Option<Place>, SubscriberFault>
    requires share { (share.old.parts ≡ L.parts) × (0 < share.old.parts) }
    ensures ok { IfOk result (λ after. (taken : ℕ) (first : Gone) → AreSentTo taken first (gone (W.contents writer.old) (V.notices watcher.old))
        before share.old.amount → AreSentTo taken first (gone (W.contents writer.new) (V.notices watcher.new)) after share.new.amount) }
    ensures err { OnErr result ((taken : ℕ) (first : Gone) → AreSentTo taken first (gone (W.contents writer.old) (V.notices watcher.old))
        before share.old.amount → IsServedInPart taken first (gone (W.contents writer.new) (V.notices watcher.new))) }
    ensures parts { share.new.parts ≡ share.old.parts }
{
    let Some(place) = before else {
        return Ok(None);
    };
    match write_from(
        rt, alloc, bulletin, signals, shared, share, writer, watcher, place,
    ) {
        Ok(next) => Ok(Some(next)),
        Err(fault) => Err(fault),
    }
}

/// Looks once, and answers the pings that wait then, all of them. What it saw.
#[tactic(auto, using(crate::proofs::SignLemmas::goes_none))]
fn look_and_answer<L: Ledger, R: Wait, W: Write, V: Watcher>(
    rt: &R,
    alloc: Global,
    signals: &Signals,
    shared: &Mutex<Subscriber<L>>,
    share: &mut Share<L>,
    writer: &mut W,
    watcher: &mut V,
) -> Result<Sight, SubscriberFault>
    requires share { (share.old.parts ≡ L.parts) × (0 < share.old.parts) }
    ensures ok { OnOk result (AreAnswered share.old.amount (gone (W.contents writer.old) (V.notices watcher.old))
        (gone (W.contents writer.new) (V.notices watcher.new)) share.new.amount) }
    ensures err { OnErr result (AreAnsweredInPart share.old.amount (gone (W.contents writer.old) (V.notices watcher.old))
        (gone (W.contents writer.new) (V.notices watcher.new))) }
    ensures parts { share.new.parts ≡ share.old.parts }
{
    let (sight, contexts) = match look(rt, shared, share) {
        Ok(found) => found,
        Err(fault) => return Err(fault),
    };
    match send_pongs(alloc, signals, writer, watcher, &contexts) {
        Ok(()) => Ok(sight),
        Err(fault) => Err(fault),
    }
}

/// Where the board is read next: where the last round ended, or else where the peer joined, if it has. From then on broadcasts wake this half.
fn join(signals: &Signals, at: Option<Place>, joined: Option<Place>) -> Option<Place>
    ensures { result ≡ option_or at joined }
{
    if at.is_none() && joined.is_some() {
        signals.read_on();
    }
    at.or(joined)
}

/// The writing half: it writes what the peer wants from where it joined on, and between messages it answers pings, until nothing more comes from the
/// peer and all was written. The watcher is told of each answer once it is out, and of nothing else.
pub fn speak<L: Ledger, R: Wait, W: Write, V: Watcher>(
    rt: &R,
    alloc: Global,
    bulletin: &Bulletin,
    signals: &Signals,
    shared: &Mutex<Subscriber<L>>,
    share: &mut Share<L>,
    writer: &mut W,
    watcher: &mut V,
) -> Result<(), SubscriberFault>
    requires share { (share.old.parts ≡ L.parts) × (0 < share.old.parts) }
    ensures ok { OnOk result (IsServed share.old.amount (gone (W.contents writer.old) (V.notices watcher.old))
        (gone (W.contents writer.new) (V.notices watcher.new)) share.new.amount) }
    ensures err { OnErr result (IsServedInPart share.old.amount (gone (W.contents writer.old) (V.notices watcher.old))
        (gone (W.contents writer.new) (V.notices watcher.new))) }
    ensures parts { share.new.parts ≡ share.old.parts }
{
    let mut at: Option<Place> = None;
    for _ in rt.forever() {
        let seen = signals.event_count().seen();
        let sight = match look_and_answer(rt, alloc, signals, shared, share, writer, watcher) {
            Ok(sight) => sight,
            Err(fault) => return Err(fault),
        };
        let before = join(signals, at, sight.joined);
        at = match go_on(
            rt, alloc, bulletin, signals, shared, share, writer, watcher, before,
        ) {
            Ok(after) => after,
            Err(fault) => return Err(fault),
        };
        if at == before {
            if sight.is_silent {
                return Ok(());
            }
            signals.event_count().wait_past(rt, seen);
        }
    }
    unreachable!()
}
