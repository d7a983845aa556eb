//! Why octets are refused.
ghost use Rattle.std.specs.Prelude.{◌≡◌};
ghost use Rattle.zmtp_wire.specs.Fault.{number_of, name_of};

use std::alloc::AllocError;
use thiserror::Error;

/// What is wrong with a greeting or with a stream of frames, or that there was no memory.
#[derive(Clone, Copy, Debug, PartialEq, Eq, Error)]
#[error("{}", self.name())]
pub enum WireFault {
    /// The greeting doesn't have the octets FF and 7F where the signature has them.
    BadSignature,
    /// The major version is below 3.
    OldVersion,
    /// The mechanism is not NULL.
    BadMechanism,
    /// A reserved bit of the flags is set.
    ReservedBits,
    /// The flags have both COMMAND and MORE.
    CommandWithMore,
    /// A message or a command is larger than the limits allow.
    TooLong,
    /// There was no memory. Nothing is changed.
    Memory,
}

impl WireFault {
    /// The number under which the fault is told.
    pub fn number(self) -> u8
        ensures { result ≡ number_of self }
    {
        match self {
            WireFault::BadSignature => 1,
            WireFault::OldVersion => 2,
            WireFault::BadMechanism => 3,
            WireFault::ReservedBits => 4,
            WireFault::CommandWithMore => 5,
            WireFault::TooLong => 6,
            WireFault::Memory => 7,
        }
    }

    /// The word under which the fault is told.
    pub fn name(self) -> &'static str
        ensures { result.now ≡ name_of self }
    {
        match self {
            WireFault::BadSignature => "BadSignature",
            WireFault::OldVersion => "OldVersion",
            WireFault::BadMechanism => "BadMechanism",
            WireFault::ReservedBits => "ReservedBits",
            WireFault::CommandWithMore => "CommandWithMore",
            WireFault::TooLong => "TooLong",
            WireFault::Memory => "Memory",
        }
    }
}

impl From<AllocError> for WireFault {
    ghost use Rattle.std.specs.Prelude.{◌≡◌};
    ghost use Rattle.zmtp_wire.specs.declared.fault.WireFault.TheVariants.{Memory};

    ghost from_gives = { λ _ e. e ≡ Memory };

    fn from(_: AllocError) -> Self {
        WireFault::Memory
    }
}
