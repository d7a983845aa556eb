//! The lane of a lone kernel.

/// The lane of the one frontend.
pub(crate) const LANE: u32 = 0;
