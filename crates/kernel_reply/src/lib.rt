//! What a Jupyter kernel answers: replies and broadcasts, octet for octet.
//!
//! [`opening`] and [`opening_by_header`] are the broadcast with which a request is taken. [`answer`] answers a request that became a job,
//! [`refuse`] one whose job was refused as it was posted, and [`answer_ask`] every other. To the layer above they promise that what goes out
//! is a function of the request, of what is handed in and of the stamp: the definitions give the messages as JSON values, in tables that read like the page
//! (specs/: `Status`, `Problems`, `Replies`, `Execution`, `Comms`, `Moves`, and `Answers`, which says what answers which request). Messages,
//! their headers and their numbers are those of `kernel_message`. `laws` says what holds of all answers: the status idle is last.
//!
//! The contents are those of the Jupyter messaging page (version 5.4); on comms of the target `janus.undo` cells are undone and redone.
//! Lines are those of `kernel_text`, answers those of `kernel_ask`.
//!
//! It gives the names of `kernel_ask` and of the kernel again that a session cites: what is asked and what is answered.
//!
//! That a request begins with a number of 2^64 - 16 at most is a condition of the calls.
#![tactic(auto)]

mod answering;
mod comms;
mod execution;
pub mod laws;
mod lists;
mod moves;
mod problem;
mod replies;
mod status;
mod tables;

pub use crate::answering::{answer, answer_ask, opening, opening_by_header, refuse};
pub use crate::comms::{COMM_TARGET, asks_target};
pub use kernel_ask::{
    Answer, Ask, Begun, CellText, CommChange, Comms, Completeness, Content, Done, HallFault,
    HistoryAsk, Job, Kernel, NamedValue, Outcome, PostFault, Refusal, Sliced, TravelEnd, Wish,
    ask_on, is_settled, shown_of_node, stands_at_end, values_after,
};
pub use kernel_message::{Outgoing, Publication, Stamp};
