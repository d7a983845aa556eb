//! The limits of the board.

/// The most broadcasts that are kept.
pub const KEPT_BROADCASTS: usize = 4096;

/// The most broadcasts that are given in one read.
pub const BROADCASTS_OF_A_READ: usize = 64;
