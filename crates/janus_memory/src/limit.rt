//! Limits of the memory, which is taken at once.

use janus_meaning::limit::VALUE_LIMIT;

/// The most values on all stacks together.
pub(crate) const CELL_LIMIT: u32 = VALUE_LIMIT as u32;
