//! What whole messages and commands are told as, by role.
ghost use Rattle.std.specs.Prelude.{◌≡◌, ◌++◌, ◌∷◌, [], ◌+◌, ◌<◌, ◌≤◌, drop, map, option_map, option_to_list, length, vec_len, vec_capacity, if◌then◌else◌};
ghost use Rattle.std.specs.List.{flat_map};
ghost use Rattle.zmtp_peer.specs.Events.{Ready, event_of, events_of, bodies, message_told, subscription_told, told_to_publisher};
ghost use Rattle.zmtp_peer.specs.Brought.{brought_of, brought_told};

use crate::brought::Brought;
use crate::event::PeerEvent;
use crate::role::Role;
use std::mem;

/// What a whole message is told as, if at all.
fn told_as(role: Role, message: Vec<Vec<u8>>) -> Option<PeerEvent>
    ensures { option_to_list (option_map event_of result) ≡ message_told role (bodies message.items) }
{
    match role {
        Role::Pub => subscription(message),
        Role::Router => Some(PeerEvent::Message(message)),
        Role::Rep => Some(PeerEvent::Message(message)),
        Role::Dealer => Some(PeerEvent::Message(message)),
        Role::Sub => Some(PeerEvent::Message(message)),
    }
}

/// The subscription that a message makes or takes back, if it does.
fn subscription(mut message: Vec<Vec<u8>>) -> Option<PeerEvent>
    ensures { option_to_list (option_map event_of result) ≡ told_to_publisher (bodies message.items) }
{
    if message.len() != 1 {
        return None;
    }
    let frame = message.pop()?;
    subscription_in(frame)
}

/// The subscription that a frame makes or takes back, if it does.
fn subscription_in(frame: Vec<u8>) -> Option<PeerEvent>
    ensures { option_to_list (option_map event_of result) ≡ subscription_told frame.items }
{
    let first = *frame.first()?;
    match first {
        1 => Some(PeerEvent::Subscribe(behind_first(frame))),
        0 => Some(PeerEvent::Cancel(behind_first(frame))),
        _ => None,
    }
}

/// The octets behind the first one.
fn behind_first(mut octets: Vec<u8>) -> Vec<u8>
    requires { 0 < vec_len octets }
    ensures { result.items ≡ drop 1 octets.items }
{
    octets.remove(0);
    octets
}

/// What is told of a message or a command, if anything.
fn event_by(role: Role, item: Brought) -> Option<PeerEvent>
    ensures { option_to_list (option_map event_of result) ≡ brought_told role (brought_of item) }
{
    match item {
        Brought::Message(frames) => told_as(role, frames),
        Brought::Event(event) => Some(event),
    }
}

/// Adds what is told of a message or a command, if anything. There is room for it.
fn push_told(role: Role, item: Brought, events: &mut Vec<PeerEvent>)
    requires { vec_len events.old < vec_capacity events.old }
    ensures told { events_of events.new.items
        ≡ events_of events.old.items ++ brought_told role (brought_of item) }
    ensures few { vec_len events.new ≤ vec_len events.old + 1 }
    ensures capacity { vec_capacity events.new ≡ vec_capacity events.old }
{
    if let Some(event) = event_by(role, item) {
        events.push_reserved(event);
    }
}

/// The events of messages and commands, behind READY where it came. They go into the room that was made for them.
pub(crate) fn tell(
    role: Role,
    ready: bool,
    mut brought: Vec<Brought>,
    mut events: Vec<PeerEvent>,
) -> Vec<PeerEvent>
    requires empty { events.items ≡ [] }
    requires room { vec_len brought + 1 ≤ vec_capacity events }
    ensures told { events_of result.items
        ≡ (if ready then Ready ∷ [] else []) ++ flat_map (brought_told role) (map brought_of brought.items) }
    ensures few { vec_len result ≤ vec_len brought + 1 }
    ensures capacity { vec_capacity result ≡ vec_capacity events }
{
    if ready {
        events.push_reserved(PeerEvent::Ready);
    }
    for i in 0..brought.len() {
        let item = mem::replace(&mut brought[i], Brought::Event(PeerEvent::Ready));
        push_told(role, item, &mut events);
    }
    events
}
