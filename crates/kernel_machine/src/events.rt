//! The calls of a kernel, and their answers, as values.
use crate::outcome::{Begun, Sliced};
use crate::post::{Job, PostFault};

/// One call of a kernel.
#[derive(Drop)]
pub enum Event {
    /// The lane of the frontend, and the job.
    Post(u32, Job),
    Begin,
    /// At most this many steps, and whether an interrupt was asked for.
    Slice(u64, bool),
    Shut,
}

/// What the call of an event answered.
#[derive(Clone, Copy, Debug)]
pub enum Told {
    Post(Result<u64, PostFault>),
    Begin(Begun),
    Slice(Sliced),
    Shut,
}
