//! The limits of a hall.

/// The most passes that a hall gives.
pub const PASSES: u32 = 65_536;

/// The parts of the ledger of posts: one for each pass, and one that stays with those that are still to be given.
pub const PARTS_OF_POSTS: u64 = 65_537;

const _: () = prove!(PARTS_OF_POSTS == PASSES as u64 + 1);

/// How many user expressions of a job that has ended are evaluated at once, between which others have the lock: over 256 names they take half a
/// millisecond.
pub(crate) const WISHES_OF_A_PIECE: u32 = 32;
