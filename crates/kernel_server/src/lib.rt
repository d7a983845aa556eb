//! The lone kernel: a kernel in which nobody else has a part, as the desk of one connection. What comes of it is determined, so recorded
//! sessions are replayed on it.
//!
//! A connection is [`serve`], over any desk. [`LoneDesk`] is a kernel in which nobody else has a part, with the slices that its jobs are
//! to be given. To the layer above it promises that each call answers what such a kernel answers (specs/Lone.antt): a job is posted and
//! brought to its end by the next slices (`Jobs`, `Pace`), and what is told of it stands in the kernel that it left; a question is
//! answered of this kernel. [`serve_lone`] is a connection to it: what is written is the session of what was read, in which each answer is
//! the kernel's own, and the kernel ran on by whole jobs (`Course`). `laws` says of these definitions how jobs end, that the kernel
//! and the slices alone decide what comes of one, where memory is ample, and that the broadcasts that are told are all that there were.
//!
//! In reading order: `slice` and `lane` (what a lone kernel is given), `finish` (a job from its post to its end), `job` (a job with what is told of
//! it), `lone` (the desk), `session` (a connection to it), `laws`.
//!
//! It gives again what a caller hands in and is answered: names of `kernel_session`, `kernel_ask` and the kernel.
//!
//! The room for the values of user expressions is made before the post, so want of it refuses the post and changes nothing. A ring finds no
//! open job.
#![tactic(auto)]

mod finish;
mod job;
mod lane;
pub mod laws;
mod lone;
mod session;
mod slice;

pub use kernel_ask::{
    Answer, Ask, CommChange, Comms, Content, Done, HallFault, HistoryAsk, Wish, is_complete,
};
pub use kernel_core::{Job, Kernel, PostFault};
pub use kernel_session::{Desk, Notice, ServeFault, Socket, Unwatched, Watcher, serve};
pub use lone::LoneDesk;
pub use session::serve_lone;
pub use slice::Slice;
pub use stamp_texts::{date_text, has_date, session_name};
