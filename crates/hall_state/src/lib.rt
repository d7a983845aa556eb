//! What lies under the hall's lock: one kernel with its open comms, and what is kept for each job until who posted it has fetched it. The passes that are
//! still to be given lie outside, with who made the hall: so nobody posts under the lock but for a pass that was handed in.
//!
//! To the layer above, which has the lock and the threads, it promises that a post, a turn of the runner, an answer and a change of the comms
//! are those of the kernel that is here. Each post is counted by its pass and in a ledger, whose book is the number of posts in the minutes;
//! what is made as a job ends is that of the kernel as it is then, for the wishes that were posted with it, in pieces between which the lock may be
//! free, and is told once; and at the end the minutes are compared with what the frontends came away with. The minutes are one history, and so are the
//! notes beside them, of the wishes, of shutdowns, of the questions, of the open comms, of each turn of the runner and of what was told of ends: what a pass
//! sees begins with all that it had seen, and what two passes have seen stands in one order (`State::in_one_order`). The kernel stands where these notes have
//! led it. Shutdowns, changes of the comms and ends that are told are counted in the pass by which they are done.
//!
//! `state` has all of it. `turn` is what the runner does with the kernel and the bell, `pending_result` what stands beside a post, `open_result` what is
//! being made for a job that has ended, `passes` who may post, `history` how the history follows the minutes, `minutes` what is left at the end.
//!
//! It gives the names of `kernel_audit`, `kernel_ask` and the kernel again that the hall's calls have.
//!
//! What is settled stays as it was until it is told, and the first who asks for what came of a settled job is told it. That a turn settles all that
//! its job is to tell is no clause's: where many user expressions are left, `make` does it, called for as long as it answers that more may be left.
#![tactic(auto)]

mod history;
mod limit;
mod minutes;
mod open_result;
mod passes;
mod pending_result;
mod state;
mod turn;

pub use kernel_audit::{
    Answer, Ask, AuditFault, Begun, Beside, CellText, CommChange, Comms, Content, Done, Entry,
    Front, HallFault, HistoryName, Job, Kernel, NamedValue, NewHistory, Note, Outcome, Pass,
    PostFault, Refusal, STEPS_OF_A_SLICE, Sliced, Ticket, Wish, ask_on, audit, comm_on, judge,
    room_for,
};
pub use limit::{PARTS_OF_POSTS, PASSES};
pub use minutes::Minutes;
pub use open_result::OpenResult;
pub use passes::Passes;
pub use pending_result::PendingResult;
pub use state::State;
pub use turn::{Turn, turn_on};
