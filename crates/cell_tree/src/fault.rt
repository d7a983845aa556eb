//! Why a call is refused.
ghost use Rattle.std.specs.Prelude.{◌≡◌};
ghost use Rattle.cell_tree.specs.Fault.{number_of, name_of};

use std::alloc::{AllocError, AllocFailed};
use thiserror::Error;

/// Why a call of a tree is refused.
#[derive(Clone, Copy, Debug, Error)]
pub enum TreeFault {
    /// The tree has as many nodes as it may have. It stands as it was.
    #[error("HistoryFull")]
    HistoryFull,
    /// No node has this number. The tree stands as it was.
    #[error("NoNode")]
    NoNode,
    /// There was no memory. The tree stands as it was.
    #[error("Memory")]
    Memory,
}

impl TreeFault {
    /// The number under which the fault is told.
    pub fn number(self) -> u8
        ensures { result ≡ number_of self }
    {
        match self {
            TreeFault::HistoryFull => 70,
            TreeFault::NoNode => 71,
            TreeFault::Memory => 72,
        }
    }

    /// The word under which the fault is told.
    pub fn name(self) -> &'static str
        ensures { result.now ≡ name_of self }
    {
        match self {
            TreeFault::HistoryFull => "HistoryFull",
            TreeFault::NoNode => "NoNode",
            TreeFault::Memory => "Memory",
        }
    }
}

impl From<AllocError> for TreeFault {
    ghost use Rattle.std.specs.Prelude.{◌≡◌};
    ghost use Rattle.cell_tree.specs.declared.fault.TreeFault.TheVariants.{Memory};

    ghost from_gives = { λ _ e. e ≡ Memory };

    fn from(_: AllocError) -> Self {
        TreeFault::Memory
    }
}

impl<T: Drop> From<AllocFailed<T>> for TreeFault {
    ghost use Rattle.std.specs.Prelude.{◌≡◌};
    ghost use Rattle.cell_tree.specs.declared.fault.TreeFault.TheVariants.{Memory};

    ghost from_gives = { λ _ e. e ≡ Memory };

    fn from(_e: AllocFailed<T>) -> Self {
        TreeFault::Memory
    }
}
