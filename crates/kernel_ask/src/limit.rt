//! A limit that the crates above share.

/// The most comms that may be open.
pub const COMM_LIMIT: usize = 1024;
