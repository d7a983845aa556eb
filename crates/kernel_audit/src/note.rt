//! What is noted beside the minutes.
use kernel_ask::{Begun, Comms, Done, Sliced, Wish};

/// What the keeper of the minutes notes beside them, in proofs alone: of each post its wishes, in the order of the posts; a shutdown; that a question was
/// asked; behind each change of the comms those that are open then; each begin of the runner with its answer, and each slice with the most steps that it was
/// to take, whether an interrupt was asked for, and its answer; and what was told of the end of a job.
#[derive(Drop)]
pub enum Note {
    Posted(Vec<Wish>),
    Shut,
    Asked,
    Changed(Comms),
    Began(Begun),
    Cut(u64, bool, Sliced),
    Told(Done),
}
