//! How much waits, is written down and is taken at once. `specs/Runs` and `specs/Minutes` cite the first two; how many nodes a history may have,
//! `cell_tree` says.

/// The most posted jobs that may wait to be begun.
pub const QUEUE_LIMIT: usize = 1024;

/// The most entries that minutes may have. A post takes two places: its own, and that of the end of its job.
pub const MINUTES_LIMIT: usize = 1_000_000;

/// The most steps of the open cell that are taken at once: those of a slice of the worker, and of a lone kernel behind the slices that it was
/// given.
pub const STEPS_OF_A_SLICE: u64 = 4096;
