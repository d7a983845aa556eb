//! Why a connection is refused.
ghost use Rattle.std.specs.Prelude.{◌≡◌, ◌≤◌, length};

use std::alloc::AllocError;
use thiserror::Error;
use zmtp_wire::WireFault;

/// The reason that a peer gave in its ERROR: up to 255 octets.
#[derive(Clone, Copy, Debug, PartialEq, Eq)]
pub struct Reason {
    length: u8,
    octets: [u8; 255],
}

impl Reason {
    ghost use Rattle.zmtp_peer.specs.Faults.{octets_of};

    /// The reason with these octets.
    pub(crate) fn new(octets: &[u8]) -> Reason
        requires { length octets.now ≤ 255 }
        ensures { octets_of result ≡ octets.now }
    {
        let mut kept = [0; 255];
        kept[..octets.len()].copy_from_slice(octets);
        Reason {
            length: octets.len() as u8,
            octets: kept,
        }
    }

    /// The octets of the reason, as the peer sent them.
    pub fn as_octets(&self) -> &[u8]
        ensures { result.now ≡ octets_of self.now }
    {
        &self.octets[..self.length as usize]
    }
}

/// Why a peer is refused. Each but want of memory is final: the connection is closed without a word.
#[derive(Clone, Copy, Debug, PartialEq, Eq, Error)]
#[error("{}", self.name())]
pub enum PeerFault {
    /// The greeting or the frames are wrong, or there was no memory. Want of memory changes nothing.
    Wire(WireFault),
    /// READY has no `Socket-Type`.
    NoSocketType,
    /// The peer's socket type doesn't fit the role.
    WrongPair,
    /// The data of READY or of ERROR doesn't fit its lengths, or the name of the first command is cut.
    BadMetadata,
    /// The peer refused the connection by ERROR.
    PeerError(Reason),
    /// A message, or a command other than READY, came before READY.
    NotReady,
    /// The data of a PING is shorter than its time to live, or its context is longer than 16 octets.
    BadPing,
}

impl PeerFault {
    ghost use Rattle.zmtp_peer.specs.Faults.{fault_of, number_of, name_of};

    /// Want of memory. It changes nothing.
    pub const MEMORY: PeerFault = PeerFault::Wire(WireFault::Memory);

    /// The number under which the fault is told.
    pub fn number(&self) -> u8
        ensures { result ≡ number_of (fault_of self.now) }
    {
        match self {
            PeerFault::Wire(fault) => fault.number(),
            PeerFault::NoSocketType => 8,
            PeerFault::WrongPair => 9,
            PeerFault::BadMetadata => 10,
            PeerFault::PeerError(_) => 11,
            PeerFault::NotReady => 12,
            PeerFault::BadPing => 13,
        }
    }

    /// The word under which the fault is told.
    pub fn name(&self) -> &'static str
        ensures { result.now ≡ name_of (fault_of self.now) }
    {
        match self {
            PeerFault::Wire(fault) => fault.name(),
            PeerFault::NoSocketType => "NoSocketType",
            PeerFault::WrongPair => "WrongPair",
            PeerFault::BadMetadata => "BadMetadata",
            PeerFault::PeerError(_) => "PeerError",
            PeerFault::NotReady => "NotReady",
            PeerFault::BadPing => "BadPing",
        }
    }
}

impl From<AllocError> for PeerFault {
    ghost use Rattle.std.specs.Prelude.{◌≡◌};
    ghost use Rattle.zmtp_wire.specs.declared.fault.WireFault.TheVariants.{Memory};
    ghost use Rattle.zmtp_peer.specs.declared.fault.PeerFault.TheVariants.{Wire};

    ghost from_gives = { λ _ e. e ≡ Wire Memory };

    fn from(_: AllocError) -> Self {
        PeerFault::MEMORY
    }
}
