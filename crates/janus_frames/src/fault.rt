//! Why there is no store, or no cursor over one.
ghost use Rattle.std.specs.Prelude.{◌≡◌};
ghost use Rattle.janus_frames.specs.Fault.{number_of, name_of};

use std::alloc::{AllocError, AllocFailed};
use thiserror::Error;

/// Why what a run needs isn't made.
#[derive(Clone, Copy, Debug, Error)]
pub enum RoomFault {
    /// There was no memory for it. Nothing was made.
    #[error("Memory")]
    Memory,
}

impl RoomFault {
    /// The number under which the fault is told.
    pub fn number(self) -> u8
        ensures { result ≡ number_of self }
    {
        match self {
            RoomFault::Memory => 35,
        }
    }

    /// The word under which the fault is told.
    pub fn name(self) -> &'static str
        ensures { result.now ≡ name_of self }
    {
        match self {
            RoomFault::Memory => "Memory",
        }
    }
}

impl From<AllocError> for RoomFault {
    ghost use Rattle.std.specs.Prelude.{◌≡◌};
    ghost use Rattle.janus_frames.specs.declared.fault.RoomFault.TheVariants.{Memory};

    ghost from_gives = { λ _ e. e ≡ Memory };

    fn from(_: AllocError) -> Self {
        RoomFault::Memory
    }
}

impl<T: Drop> From<AllocFailed<T>> for RoomFault {
    ghost use Rattle.std.specs.Prelude.{◌≡◌};
    ghost use Rattle.janus_frames.specs.declared.fault.RoomFault.TheVariants.{Memory};

    ghost from_gives = { λ _ e. e ≡ Memory };

    fn from(_e: AllocFailed<T>) -> Self {
        RoomFault::Memory
    }
}
