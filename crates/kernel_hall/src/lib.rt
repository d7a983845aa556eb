//! The hall: one kernel for many threads, under one lock that is held for one event of the kernel at a time, or for one piece of the values of user
//! expressions that are made of a job that has ended.
//!
//! What lies under the lock is `hall_state`'s, which says that a post, a turn of the runner, an answer and a change of the comms are those of
//! the kernel, exact on the parts that are lent. To the layer above the hall promises one history for all: each pass holds what it has seen of the
//! minutes. What it sees next begins with that, and is the minutes of a legal kernel. Its own posts stand there, each with its lane, its job and
//! its number, and what is answered of a job is the end of that number, with the shown text and the values of the wishes that were posted with it.
//! All that is told is noted, so nothing of what was kept for the job is left out on the way. A question is answered of the kernel whose minutes it sees then,
//! which stands where its notes have led it, each turn of the runner among them and the question last; and of the comms that are open by these notes, which
//! each change of them extends. Shutdowns, changes of the comms and ends that are told are counted in the pass by which they are done, and a question is none.
//! Who has seen a shutdown has each post refused as closing. As a hall is closed, what the frontends came away with is compared with the minutes, and what each
//! pass has seen is a beginning of them.
//!
//! `hall` has the calls and `worker` the runner's thread; `entrance` is how frontends come to the lock, `ends` where they wait for their
//! jobs, `spin` how one watches before one sleeps.
//!
//! It gives again what frontends hand in and come away with: the names of `kernel_audit`, `kernel_ask` and the kernel that its calls have.
#![tactic(auto)]

mod ends;
mod entrance;
mod hall;
mod spin;
mod worker;

pub use hall::Hall;
pub use hall_state::{
    Answer, Ask, AuditFault, Begun, Beside, CellText, CommChange, Comms, Content, Done, Entry,
    Front, HallFault, HistoryName, Job, Kernel, Minutes, NewHistory, Note, Outcome, PARTS_OF_POSTS,
    PASSES, Pass, Passes, PendingResult, PostFault, Refusal, STEPS_OF_A_SLICE, Sliced, State,
    Ticket, Turn, Wish, ask_on, audit, comm_on, turn_on,
};
pub use worker::{Gate, Moment, work};
