//! The program `janus-console`, over its command line and its two output streams: it connects to a kernel of Janus, has one thing done, and prints
//! what came of it.
//!
//! [`console`] is the program, with its status. It reads the connection file, connects to iopub and then to shell, waits until broadcasts
//! come, and has the kernel do what the words ask. Below it stand [`Wire`], which is one connection over any reader and any
//! writer, and [`Frontend`], which is a conversation over two wires; what is said and what is printed are functions of `console_talk`, and the words are
//! read by `console_words`.
//!
//! Proved is that all of it is safe, that a wire writes just the frames that it is given, that a request goes out as the signed message of its session, and the
//! status of each way in which the program ends; of what is told where all went well, of the help and of what is wrong with the words, that it goes out or a
//! beginning of it. How the parts are put together is tested by `tests_programs`. Nothing is said of what a socket gives or takes, nor that an answer comes.
//!
//! What goes out of a request at a fault is no clause's, and that each ping is answered is tested.
#![tactic(auto)]

mod frontend;
mod output;
mod program;
mod wire;

pub use frontend::{Frontend, subscribe};
pub use program::{console, refuse_unread_words};
pub use wire::Wire;
