//! What the commands of a peer are, behind its READY.
ghost use Rattle.std.specs.Prelude.{◌≡◌, ◌&&◌, IfOk};
ghost use Rattle.zmtp_peer.specs.Events.{behind_ready, newer_told, ping_told, publishes};
ghost use Rattle.zmtp_peer.specs.Later.{later_of};

use crate::command;
use crate::event::PeerEvent;
use crate::fault::PeerFault;
use crate::handshake::{ERROR, told_error};
use crate::role::Role;
use crate::terms::Terms;
use std::alloc::{AllocError, Global};

const PING: &[u8] = b"PING";

const SUBSCRIBE: &[u8] = b"SUBSCRIBE";

const CANCEL: &[u8] = b"CANCEL";

/// What a command behind READY is.
#[derive(Drop)]
pub(crate) enum Later {
    /// It is passed over.
    Passed,
    /// It is told as this event.
    Event(PeerEvent),
    /// It ends the connection.
    Refused(PeerFault),
}

/// What a command behind READY is, by its body.
///
/// # Errors
/// Want of memory.
#[tactic(auto, unfolding(crate::specs::Events::behind_ready))]
pub(crate) fn behind_ready(alloc: Global, terms: Terms, body: &[u8]) -> Result<Later, AllocError>
    ensures { IfOk result (λ told. later_of told ≡ behind_ready terms body.now) }
{
    let Some((name, octets)) = command::command(body) else {
        return Ok(Later::Passed);
    };
    if name == ERROR {
        return Ok(Later::Refused(told_error(octets)));
    }
    if terms.newer {
        return newer(alloc, terms.role, name, octets);
    }
    Ok(Later::Passed)
}

/// What a command of a partner that speaks ZMTP 3.1 is, by its name and data.
fn newer(alloc: Global, role: Role, name: &[u8], octets: &[u8]) -> Result<Later, AllocError>
    ensures { IfOk result (λ told. later_of told ≡ newer_told role name.now octets.now) }
{
    if name == PING {
        return ping(alloc, octets);
    }
    if publishes(role) && name == SUBSCRIBE {
        return Ok(Later::Event(PeerEvent::Subscribe(Vec::from_slice(alloc, octets)?)));
    }
    if publishes(role) && name == CANCEL {
        return Ok(Later::Event(PeerEvent::Cancel(Vec::from_slice(alloc, octets)?)));
    }
    Ok(Later::Passed)
}

/// Whether a role publishes.
fn publishes(role: Role) -> bool
    ensures { result ≡ publishes role }
{
    match role {
        Role::Pub => true,
        Role::Router | Role::Rep | Role::Dealer | Role::Sub => false,
    }
}

/// What a PING with this data is.
#[tactic(auto, unfolding(crate::specs::Events::ping_told))]
fn ping(alloc: Global, octets: &[u8]) -> Result<Later, AllocError>
    ensures { IfOk result (λ told. later_of told ≡ ping_told octets.now) }
{
    match command::context(octets) {
        None => Ok(Later::Refused(PeerFault::BadPing)),
        Some(context) => Ok(Later::Event(PeerEvent::Ping(Vec::from_slice(alloc, context)?))),
    }
}
