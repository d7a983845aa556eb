//! Limits of a store, whose memory is taken with it.

use janus_meaning::limit::{FRAME_LIMIT, PARAMETER_LIMIT};

/// The most locals that may be open: each takes one of the frames that may be open.
pub(crate) const LOCAL_LIMIT: usize = FRAME_LIMIT as usize;

/// The most calls that may be open: each takes two of these frames, its own and that of its body.
pub const CALL_LIMIT: usize = FRAME_LIMIT as usize / 2;

/// The most parameters that may be bound at once: as many as a procedure may have, for each call.
pub(crate) const BOUND_LIMIT: usize = CALL_LIMIT * PARAMETER_LIMIT;

/// The most results that stand behind the names while a row runs: far more than the parts of one expression that are open at once.
pub(crate) const RESULT_LIMIT: usize = 1_024;
