//! What a console says to a Jupyter kernel of Janus, and what it prints of the answers: values and texts, with no socket.
//!
//! A [`ConsoleCommand`] is what a console was asked to do. The functions of `request` make of it what is said ([`Draft`](kernel_message::Draft)s:
//! the contents are those of the Jupyter messaging page, version 5.4, and for moves those of the comms with the target `janus.undo`),
//! and [`message`] the message, under the console's session. Those of `printed` read an answer's content, as JSON, and give the lines that are printed
//! ([`Printed`]), or say that it is no such answer; [`is_answer_to`] says whose answer a message is. [`ConsoleFault`] has the lines and statuses of
//! what goes wrong beside the kernel.
//!
//! To the layer above it promises that all of these are the functions of specs/ (`Requests`, `Headers`, `Lines`, `Faults`), exactly, want of memory
//! aside; and, in `laws`, that the kernel's own reading of each request gives what was asked, and refuses none of its fields.
//!
//! That the octets of a request are read as its JSON is no law's: it is tested.
#![tactic(auto)]

mod broadcast;
mod command;
mod fault;
mod header;
pub mod laws;
mod look;
mod parent;
mod printed;
mod request;

pub use broadcast::{Heard, what_is_heard};
pub use command::ConsoleCommand;
pub use fault::ConsoleFault;
pub use header::{message, session_name};
pub use parent::{is_answer_to, is_in_session};
pub use printed::{AnswerFault, Printed, comm_told, completion_told, run_told};
pub use request::{
    comm_close_draft, comm_open_draft, complete_draft, execute_draft, kernel_info_draft,
    move_draft, state_draft,
};
