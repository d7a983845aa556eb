//! Why a read is refused.
ghost use Rattle.std.specs.Prelude.{◌≡◌};
ghost use Rattle.kernel_board.specs.Fault.{number_of, name_of};

use std::alloc::AllocError;
use thiserror::Error;

/// Why a read of the board is refused.
#[derive(Clone, Copy, Debug, Error)]
pub enum BoardFault {
    /// There was no memory. The place stands as it was.
    #[error("Memory")]
    Memory,
}

impl BoardFault {
    /// The number under which the fault is told.
    pub fn number(self) -> u8
        ensures { result ≡ number_of self }
    {
        match self {
            BoardFault::Memory => 76,
        }
    }

    /// The word under which the fault is told.
    pub fn name(self) -> &'static str
        ensures { result.now ≡ name_of self }
    {
        match self {
            BoardFault::Memory => "Memory",
        }
    }
}

impl From<AllocError> for BoardFault {
    ghost use Rattle.std.specs.Prelude.{◌≡◌};
    ghost use Rattle.kernel_board.specs.declared.fault.BoardFault.TheVariants.{Memory};

    ghost from_gives = { λ _ e. e ≡ Memory };

    fn from(_: AllocError) -> Self {
        BoardFault::Memory
    }
}
