//! The limits of the language. `specs/Limit` cites each of them.

/// The most frames that may be open at once: each open block, `if`, loop, local and call is one.
pub const FRAME_LIMIT: u32 = 16_384;

/// The most stacks that may live, declared and local.
pub const LIVE_STACK_LIMIT: usize = 64;

/// The most values that all live stacks may hold together: one stack may take them all.
pub const VALUE_LIMIT: usize = 262_144;

/// The most steps that a cell may take.
pub const STEP_LIMIT: u64 = 1_000_000_000_000;

/// The most names that a world may have.
pub const NAME_LIMIT: usize = 256;

/// The most procedures that a world may have.
pub const PROCEDURE_LIMIT: usize = 256;

/// The most parameters that a procedure may have.
pub const PARAMETER_LIMIT: usize = 16;

/// The largest length of an array.
pub const ARRAY_LIMIT: u32 = 65_536;
