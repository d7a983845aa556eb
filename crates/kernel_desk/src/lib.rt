//! The desks behind the connections of a kernel that several frontends share.
//!
//! [`HallDesk`] is the desk of one connection at a time before a hall: it holds a pass of the hall and a ringer's seat of the hall's bell. To the
//! layer above it promises, of each call, what can be said exactly of what it holds (the pass and how many posts it made, the seat, the place on the
//! board, whether a shutdown came), and of the kernel under the hall's lock that its minutes are those that the pass has seen then, which begin with
//! all that it had seen: the job that was posted and its end stand there under one number, what is told of it is what was made as it ended, of the
//! wishes that came with it, and all of it is noted last. An answer is that kernel's, which stands where the notes that the pass has seen have led it, in the
//! midst of a job too, and of the comms that these notes have; the question is the last of them, so no answer is of what was before. A change of the comms is
//! the last of these notes. A shutdown, a change and an end that is told are the one act of their call; a question is none, so it shuts, changes and takes
//! nothing. Behind a shutdown that it has seen, its own or another's, each job of a desk is refused as closing, whatever is called between
//! ([`shutdown_is_final_law`]). [`QuietDesk`] is the desk of connections at which nothing is asked.
//!
//! No contract says that a waiting thread wakes.
//!
//! It gives again what a place of connections needs beside a desk: the hall with its worker, and the session that is served.
//!
//! A question is refused for want of memory alone. A date that is set is that of some instant. [`QuietDesk`] refuses each job, question and change, keeps no
//! broadcast, and leaves the date.
#![tactic(auto)]

mod hall_desk;
mod laws;
mod quiet;

pub use hall_desk::HallDesk;
pub use kernel_hall::{
    Answer, Ask, CellText, CommChange, Comms, Content, Done, Entry, Gate, Hall, HallFault,
    HistoryName, Job, Kernel, Moment, NewHistory, Note, PARTS_OF_POSTS, Pass, Passes, PostFault,
    work,
};
pub use kernel_session::{Desk, Socket, serve};
pub use laws::shutdown_is_final_law;
pub use quiet::QuietDesk;
