//! Why the reading of tokens stops. Places are counted in tokens; the text's octets come in at the end.

ghost use Rattle.std.specs.Prelude.{◌≡◌};
ghost use Rattle.janus_syntax.specs.declared.problem.Problem.TheVariants.{Memory};

use crate::fault::What;
use std::alloc::{AllocError, AllocFailed};

#[derive(Drop)]
pub(crate) enum Problem {
    Memory,
    /// The reading cannot go on in front of the last `left` tokens.
    Expected { what: What, left: usize },
    /// The first of the last `left` tokens is an operator past the limit of one expression.
    TooNested { left: usize },
    /// The first of the last `left` tokens is another kind or another name than behind `local`.
    DelocalName { left: usize },
}

impl From<AllocError> for Problem {
    ghost from_gives = { λ _ e. e ≡ Memory };

    fn from(_e: AllocError) -> Problem {
        Problem::Memory
    }
}

impl<T: Drop> From<AllocFailed<T>> for Problem {
    ghost from_gives = { λ _ e. e ≡ Memory };

    fn from(_e: AllocFailed<T>) -> Problem {
        Problem::Memory
    }
}
