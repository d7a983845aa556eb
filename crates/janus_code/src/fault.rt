//! Why there is no inverse and no flat code.
ghost use Rattle.std.specs.Prelude.{◌≡◌};
ghost use Rattle.janus_code.specs.Fault.{number_of, fault_name};

use std::alloc::AllocError;
use thiserror::Error;

/// The one refusal of this layer.
#[derive(Clone, Copy, Debug, Error)]
pub enum InvertFault {
    /// There was no memory for the cell or the code.
    #[error("Memory")]
    Memory,
}

impl InvertFault {
    /// The number under which the fault is told.
    pub fn number(self) -> u8
        ensures { result ≡ number_of self }
    {
        match self {
            InvertFault::Memory => 35,
        }
    }

    /// The word under which the fault is told.
    pub fn name(self) -> &'static str
        ensures { result.now ≡ fault_name self }
    {
        match self {
            InvertFault::Memory => "Memory",
        }
    }
}

impl From<AllocError> for InvertFault {
    fn from(_: AllocError) -> Self {
        InvertFault::Memory
    }
}
