//! The prefixes to which a peer has subscribed, and how often.
ghost use Rattle.std.specs.Prelude.{◌≡◌, ℕ, ◌+◌, ◌-◌, ◌<◌, ◌≤◌, List, Option, None, Some, if◌then◌else◌, is_some, IsTrue, ◌↔◌, [], ◌∷◌, length, map, true};
ghost use Rattle.std.specs.Prelude.{OnOk, OnErr, IfSome, IfNone};
ghost use Rattle.std.specs.List.{flat_map};
ghost use Rattle.std.specs.Option.{option_or};
ghost use Rattle.std.specs.Map.{set_value};
ghost use Rattle.std.specs.Str.{bytes_eq};
ghost use Rattle.zmtp_peer.specs.Events.{Subscribe, event_of, events_of, bodies, message_told, told_to_publisher};
ghost use Rattle.zmtp_peer.specs.Brought.{brought_of, brought_told};
ghost use Rattle.zmtp_peer.specs.Subscriptions.{place_of, count_in, counted, counted_all, names, is_named, asks, is_asked};
ghost use Rattle.zmtp_peer.specs.Subscriptions.{IsRoomFor, HasRoom, AddsIdle, DropsIdle};

use crate::brought::Brought;
use crate::counts::Counts;
use crate::event::PeerEvent;
use crate::role::Role;
use crate::wanted::Prefixes;
use std::alloc::{AllocError, Global};

/// Counts what an event changes.
fn count_event(counts: &mut Counts, event: &PeerEvent)
    requires { IsRoomFor 1 counts.old (event_of event.now) }
    ensures counted { (q : List ℕ) → count_in counts.new q
        ≡ counted q (count_in counts.old q) (event_of event.now) }
    ensures places { (q : List ℕ) → is_some (place_of counts.new q)
        ≡ is_some (place_of counts.old q) }
    ensures idle { AddsIdle (λ q. names q (event_of event.now)) counts.old counts.new }
{
    match event {
        PeerEvent::Subscribe(prefix) => {
            let prefix = prefix.as_slice();
            let count = counts.count_of(prefix);
            counts.set_count(prefix, count + 1);
        }
        PeerEvent::Cancel(prefix) => {
            let prefix = prefix.as_slice();
            let count = counts.count_of(prefix);
            counts.set_count(prefix, count.saturating_sub(1));
        }
        PeerEvent::Ready => {}
        PeerEvent::Message(_) => {}
        PeerEvent::Ping(_) => {}
    }
}

/// Counts what events change, in their order.
pub(crate) fn count_events(counts: &mut Counts, events: &[PeerEvent])
    requires { HasRoom (length events.now) counts.old (events_of events.now) }
    ensures counted { (q : List ℕ) → count_in counts.new q
        ≡ counted_all q (count_in counts.old q) (events_of events.now) }
    ensures idle { AddsIdle (is_named events.now) counts.old counts.new }
{
    for event in events {
        count_event(counts, event);
    }
}

/// Gives up the place of the prefix that an event names, where it is no longer counted.
fn drop_named(counts: &mut Counts, event: &PeerEvent)
    ensures same { (q : List ℕ) → count_in counts.new q ≡ count_in counts.old q }
    ensures idle { DropsIdle (λ q. names q (event_of event.now)) counts.old counts.new }
{
    match event {
        PeerEvent::Subscribe(prefix) => counts.drop_place(prefix.as_slice()),
        PeerEvent::Cancel(prefix) => counts.drop_place(prefix.as_slice()),
        PeerEvent::Ready => {}
        PeerEvent::Message(_) => {}
        PeerEvent::Ping(_) => {}
    }
}

/// Gives up the places of prefixes that are no longer counted, among those that the events name.
pub(crate) fn drop_places(counts: &mut Counts, events: &[PeerEvent])
    ensures same { (q : List ℕ) → count_in counts.new q ≡ count_in counts.old q }
    ensures idle { DropsIdle (is_named events.now) counts.old counts.new }
{
    for event in events {
        drop_named(counts, event);
    }
}

/// The prefix to which a message subscribes, if any.
fn subscribed(role: Role, message: &[Vec<u8>]) -> Option<&[u8]>
    ensures some { IfSome result (λ prefix. message_told role (bodies message.now) ≡ Subscribe prefix.now ∷ []) }
    ensures none { IfNone result ((n : ℕ) → (table : List (List ℕ × ℕ)) →
        HasRoom n table (message_told role (bodies message.now))) }
{
    match role {
        Role::Pub => subscribed_by(message),
        Role::Router => None,
        Role::Rep => None,
        Role::Dealer => None,
        Role::Sub => None,
    }
}

/// The prefix to which a message to a publisher subscribes: it has one frame, which begins with 1.
fn subscribed_by(message: &[Vec<u8>]) -> Option<&[u8]>
    ensures some { IfSome result (λ prefix. told_to_publisher (bodies message.now) ≡ Subscribe prefix.now ∷ []) }
    ensures none { IfNone result ((n : ℕ) → (table : List (List ℕ × ℕ)) →
        HasRoom n table (told_to_publisher (bodies message.now))) }
{
    let (frame, others) = message.split_first()?;
    if !others.is_empty() {
        return None;
    }
    let (first, prefix) = frame.split_first()?;
    if *first == 1 { Some(prefix) } else { None }
}

/// The prefix of an event that subscribes.
fn subscribed_as(event: &PeerEvent) -> Option<&[u8]>
    ensures some { IfSome result (λ prefix. event_of event.now ≡ Subscribe prefix.now) }
    ensures none { IfNone result ((n : ℕ) → (table : List (List ℕ × ℕ)) →
        HasRoom n table (event_of event.now ∷ [])) }
{
    match event {
        PeerEvent::Subscribe(prefix) => Some(prefix.as_slice()),
        PeerEvent::Ready => None,
        PeerEvent::Message(_) => None,
        PeerEvent::Cancel(_) => None,
        PeerEvent::Ping(_) => None,
    }
}

/// The prefix to which a message or a command subscribes, if any.
fn asked(role: Role, item: &Brought) -> Option<&[u8]>
    ensures some { IfSome result (λ prefix. brought_told role (brought_of item.now) ≡ Subscribe prefix.now ∷ []) }
    ensures none { IfNone result ((n : ℕ) → (table : List (List ℕ × ℕ)) →
        HasRoom n table (brought_told role (brought_of item.now))) }
{
    match item {
        Brought::Message(frames) => subscribed(role, frames),
        Brought::Event(event) => subscribed_as(event),
    }
}

/// Makes a place for what a message or a command subscribes to, if it does, so that it can be counted `more` times.
fn reserve_item(
    alloc: Global,
    counts: &mut Counts,
    role: Role,
    item: &Brought,
    more: usize,
) -> Result<(), AllocError>
    ensures same { (q : List ℕ) → count_in counts.new q
        ≡ count_in counts.old q }
    ensures places { (q : List ℕ) → is_some (place_of counts.old q) ≡ true
        → is_some (place_of counts.new q) ≡ true }
    ensures idle { AddsIdle (asks role item.now) counts.old counts.new }
    ensures room { OnOk result (HasRoom more counts.new (brought_told role (brought_of item.now))) }
{
    let Some(prefix) = asked(role, item) else {
        return Ok(());
    };
    counts.add_place(alloc, prefix)?;
    if counts.count_of(prefix) > u64::MAX - more as u64 {
        return Err(AllocError);
    }
    Ok(())
}

/// Makes places for all that messages and commands subscribe to.
pub(crate) fn reserve(
    alloc: Global,
    counts: &mut Counts,
    role: Role,
    items: &[Brought],
    more: usize,
) -> Result<(), AllocError>
    ensures same { (q : List ℕ) → count_in counts.new q
        ≡ count_in counts.old q }
    ensures idle { AddsIdle (is_asked role items.now) counts.old counts.new }
    ensures room { OnOk result (HasRoom more counts.new
        (flat_map (brought_told role) (map brought_of items.now))) }
{
    for item in items {
        reserve_item(alloc, counts, role, item, more)?;
    }
    Ok(())
}

/// Gives up the place that was made for a message or a command, where nothing is counted there.
fn release_item(counts: &mut Counts, role: Role, item: &Brought)
    ensures same { (q : List ℕ) → count_in counts.new q ≡ count_in counts.old q }
    ensures idle { DropsIdle (asks role item.now) counts.old counts.new }
{
    if let Some(prefix) = asked(role, item) {
        counts.drop_place(prefix);
    }
}

/// Gives up the places that were made for messages and commands, where nothing is counted there.
pub(crate) fn release(counts: &mut Counts, role: Role, items: &[Brought])
    ensures same { (q : List ℕ) → count_in counts.new q ≡ count_in counts.old q }
    ensures idle { DropsIdle (is_asked role items.now) counts.old counts.new }
{
    for item in items {
        release_item(counts, role, item);
    }
}
