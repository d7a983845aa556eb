//! The slices that a kernel is given.
ghost use Rattle.std.specs.Prelude.{◌≡◌};
ghost use Rattle.kernel_server.specs.Pace.{next_slice, behind};

use kernel_core::STEPS_OF_A_SLICE;
use std::collections::VecDeque;

/// A slice of an open job.
#[derive(Clone, Copy)]
pub struct Slice {
    /// How many steps it takes at most.
    pub steps: u64,
    /// Whether it asks the job to stop.
    pub is_asked: bool,
}

/// The slices that come behind those that were given.
const UNASKED: Slice = Slice {
    steps: STEPS_OF_A_SLICE,
    is_asked: false,
};

/// Takes the next slice; where none is left, one of [`STEPS_OF_A_SLICE`] that doesn't ask.
pub(crate) fn take_slice(slices: &mut VecDeque<Slice>) -> Slice
    ensures next { result ≡ next_slice slices.old.items }
    ensures behind { slices.new.items ≡ behind slices.old.items }
{
    match slices.pop_front() {
        Some(slice) => slice,
        None => UNASKED,
    }
}
