//! How far a run of steps came.
use janus_meaning::Fault;

/// How far a run of steps came.
#[derive(Clone, Copy)]
pub enum Progress {
    /// All steps were taken, and the code has not ended.
    Went,
    /// With how many steps in all the code ended.
    Ended(u64),
    /// After how many steps in all it met a fault.
    Stopped(u64, Fault),
}
