//! The program `janus-kernel`, over what connections have, the words of its command line and its two output streams.
//!
//! [`kernel_main`] reads a connection file, binds the five sockets that it names, serves them until a shutdown, and answers the program's
//! status. To the layer above this crate promises safety, and that each reason for which the program does not run has its status, as have words
//! that run nothing (specs/Status.antt). Which words name a FILE is clap's, and what sockets and files do no contract can say: both are tested. The
//! connection file is that of Jupyter's page on kernels ("Connection files").
//!
//! The seats that are made with a hall are those of its bell, one for each place of shell and control. That `kernel_main` answers these statuses is tested,
//! but for that of want of memory.
#![tactic(auto)]

mod fault;
mod opening;
mod program;
mod words;

pub use fault::ProgramFault;
pub use kernel_places::{Limits, Times};
pub use program::{kernel_main, refuse_unread_words};
