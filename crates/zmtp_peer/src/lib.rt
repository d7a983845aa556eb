//! One end of a ZMTP 3.1 connection, with partners that speak 3.0 or a later version, in one of five roles: from the octets that come to events.
//!
//! To the layer above this crate promises that the events which `Peer::feed` answers are those that all octets fed so
//! far tell the role, as `specs/Reading.antt` defines them, however the octets were cut; that events which stand before
//! a fault are answered before it; that each fault but want of memory is final, and want of memory leaves the peer as it
//! was; and that `Peer::wants` knows the subscriptions behind the events.
//!
//! The definitions, in specs/, are those of RFC 23 (ZMTP 3.0): its grammar of commands and metadata, "The NULL Security
//! Mechanism", and its rules for publishers and subscribers; and of RFC 37 (ZMTP 3.1): subscriptions by command, and PING. Greetings, frames and
//! their limits are those of `zmtp_wire`. In reading order:
//!
//! - who stands there, and what a frame says: `Roles`, `Terms` (which side this end takes, and what its partner speaks), `Commands`, `Faults`,
//!   `Handshake` (the first command), `Events` (what frames bring, by role), `Subscriptions`;
//! - what all octets tell: `Reading`, and its laws in `Laws`;
//! - what this end sends: `Opening`, `Subscribing`; `Pings`, as a partner sends them;
//! - how the code keeps it: `Table` (counts of subscriptions), `Later` (a command), `Brought` and `Intake` (what frames of a piece bring), `Connection`.
//!
//! Where nothing of the stream is left behind a call, there is memory for 131,072 octets of it at most, also where memory ran out. A piece
//! leaves memory for what there was, or for four times the octets that weren't given before, for twice as many frames as there are of these
//! octets and of held frames, and for an event an octet and one more. The prefixes that are kept are those that are still subscribed to.
#![tactic(auto)]

ghost use Rattle.zmtp_peer.specs.Laws.{OctetsAreRead, OctetsHaveOneReading, RefusalsStay, NoCutMatters, FoldsGoOn, PartnersAreReady, ReadyComesFirst};
ghost use Rattle.zmtp_peer.specs.Laws.{MessagesAreTold, FedMessagesAreTold, SubscriptionsAreTold, PingsAreTold, BadPingsAreRefused, OldPingsArePassedOver};

mod brought;
mod command;
mod connection;
mod counts;
mod event;
mod fault;
mod handshake;
mod intake;
mod later;
mod opening;
mod peer;
mod role;
mod subscribing;
mod subscriptions;
mod terms;
mod told;
mod wanted;

pub use event::PeerEvent;
pub use fault::{PeerFault, Reason};
pub use peer::Peer;
pub use role::Role;

/// Law: all octets tell a role something.
pub fn octets_are_read_law()
    ensures { OctetsAreRead }
{}

/// Law: octets tell a role one list of events, and one ending.
pub fn octets_have_one_reading_law()
    ensures { OctetsHaveOneReading }
{}

/// Law: a refusal is the same whatever follows.
pub fn refusals_stay_law()
    ensures { RefusalsStay }
{}

/// Law: however the octets are cut, a peer tells the events of all octets joined.
pub fn no_cut_matters_law()
    ensures { NoCutMatters }
{}

/// Law: what frames tell, and how often a prefix is subscribed to, goes on from frame to frame and event to event.
pub fn folds_go_on_law()
    ensures { FoldsGoOn }
{}

/// Law: a role that is fed the opening of a partner is told that it is ready.
pub fn partners_are_ready_law()
    ensures { PartnersAreReady }
{}

/// Law: nothing is told before READY, so no message, subscription or ping.
pub fn ready_comes_first_law()
    ensures { ReadyComesFirst }
{}

/// Law: a peer that is ready, stands between two messages and is no publisher is told each message that `zmtp_wire::write_message`
/// writes, exactly, and what follows as if the message weren't there.
pub fn messages_are_told_law()
    ensures { MessagesAreTold }
{}

/// Law: where a peer that is ready, stands between two messages and is no publisher is fed a message that `zmtp_wire::write_message`
/// writes, with anything behind it and however cut, the next event that it tells is that message, and the others are those of what
/// follows.
pub fn fed_messages_are_told_law()
    ensures { FedMessagesAreTold }
{}

/// Law: a publisher that is ready and stands between two messages is told a subscription, as [`Peer::subscription`] writes it, and nothing
/// else: the message by any partner, the command by one of version 3.1 or later.
pub fn subscriptions_are_told_law()
    ensures { SubscriptionsAreTold }
{}

/// Law: a peer that is ready is told a ping between two frames, in each role: of a partner of 3.1 or later that ping with its context, which has 16
/// octets at most, and nothing else; shorter or longer data of such a partner is refused; of an older partner each ping is passed over.
pub fn pings_are_told_law()
    ensures told { PingsAreTold }
    ensures refused { BadPingsAreRefused }
    ensures passed { OldPingsArePassedOver }
{}
