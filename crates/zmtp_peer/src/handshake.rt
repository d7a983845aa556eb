//! What the first command of a peer is answered with.
ghost use Rattle.std.specs.Prelude.{◌≡◌, option_map};
ghost use Rattle.zmtp_peer.specs.Faults.{fault_of};
ghost use Rattle.zmtp_peer.specs.Commands.{announced};
ghost use Rattle.zmtp_peer.specs.Handshake.{error_of, refusal_of, first_refusal};

use crate::command;
use crate::command::Misfit;
use crate::fault::{PeerFault, Reason};
use crate::role::Role;

const READY: &[u8] = b"READY";

pub(crate) const ERROR: &[u8] = b"ERROR";

/// Why a role refuses a command as the first frame; none if it is a READY that it takes.
#[tactic(auto, unfolding(crate::specs::Handshake::first_refusal))]
pub(crate) fn first_refusal(role: Role, body: &[u8]) -> Option<PeerFault>
    ensures { option_map fault_of result ≡ first_refusal role body.now }
{
    match command::command(body) {
        None => Some(PeerFault::BadMetadata),
        Some((name, content)) => {
            if name == READY {
                ready_refusal(role, content)
            } else if name == ERROR {
                Some(told_error(content))
            } else {
                Some(PeerFault::NotReady)
            }
        }
    }
}

/// Why a role refuses a READY with this content.
fn ready_refusal(role: Role, content: &[u8]) -> Option<PeerFault>
    ensures { option_map fault_of result ≡ refusal_of role (announced content.now) }
{
    match command::socket_type(content) {
        Err(Misfit) => Some(PeerFault::BadMetadata),
        Ok(None) => Some(PeerFault::NoSocketType),
        Ok(Some(socket_type)) => {
            if role.fits(socket_type) {
                None
            } else {
                Some(PeerFault::WrongPair)
            }
        }
    }
}

/// The fault that an ERROR with this content is told as.
#[tactic(auto, unfolding(crate::specs::Handshake::error_of))]
pub(crate) fn told_error(content: &[u8]) -> PeerFault
    ensures { fault_of result ≡ error_of content.now }
{
    match command::reason(content) {
        Some(reason) => PeerFault::PeerError(Reason::new(reason)),
        None => PeerFault::BadMetadata,
    }
}
