//! The audit at the end of a hall: whether the minutes hold what the frontends came away with.
//!
//! A frontend has a pass, which counts its posts and its acts, a ticket for each post that was taken, and what it was told of the ends of jobs. To the
//! layer above the audit promises that it passes exactly what the minutes hold, and that what it finds missing or untrue is so. A pass
//! holds one part of a ledger, whose book the owner of the minutes keeps, so that no pass counts a post that the book hasn't; and it holds what it
//! has seen of the minutes, which are one history, so that what one sees now begins with all that it had seen; so it is with what is noted beside
//! them: the wishes of the posts, shutdowns, questions, which comms are open, each turn of the runner, and what was told of ends. Where these notes lead a
//! kernel, it stands (`specs/Course`).
//!
//! It gives the names of `kernel_ask`, of the kernel below it and of the history again that the hall cites.
//!
//! It passes only where the posts of the passes add up to those of the minutes, each ticket's lane and job stand at its number, no two
//! tickets share a number, the numbers rise along the posts of each pass, and each end is as it was told. 78 is answered exactly where the
//! posts don't add up, and else 79, only with a number at which one of the rest is false.
#![tactic(auto)]

mod comparison;
mod fault;
mod mark;
mod note;
mod order;
mod pass;
mod same;

pub use comparison::audit;
pub use fault::AuditFault;
pub use kernel_ask::{
    Answer, Ask, Begun, CellText, CommChange, Comms, Content, Done, Entry, HallFault, Job, Kernel,
    Making, NamedValue, Outcome, Phase, PostFault, Refusal, STEPS_OF_A_SLICE, Sliced, SpentWishes,
    Wish, ask_on, comm_on, judge, room_for, shown_after,
};
pub use note::Note;
pub use pass::{Pass, Ticket};
pub use shared_history::{Beside, Front, HistoryName, Keeper, NewHistory};
