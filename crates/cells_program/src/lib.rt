//! The program `janus-cells`, over the words of its command line, a reader and a writer: Janus cells with undo, redo, show and list over a
//! stream of lines.
//!
//! It reads all of its input, at most 16 MiB, and then runs it line by line. Lines that begin with `%` are commands; all
//! others gather to the text of a cell. What it promises is said of [`run`], over any reader and writer; its clauses speak of
//! those whose octets are known, as over memory, and std's `Stdin` and `Stdout` tell none. [`program`] takes the words of the
//! command line before it; `serve` brings one request of a
//! kernel to its end; [`laws`] says that an input has at most one transcript that nowhere tells want of memory, and how a request
//! that is served ends; `explanation` writes behind a refused text where and why it is refused, in words, if the command line asks
//! for it; `fault` and `words` say with which status and line the program ends. The language is Janus (Yokoyama and Glück 2007).
//!
//! It gives `WriteFailed` of `kernel_text` again, which its transcript answers; and for `steps_program`, which reads the same files, the kernel, its jobs, and
//! what writes lines.
//!
//! Of an input that is not served: too long is told of more than 16 MiB, not text of one within them that is no UTF-8; cannot read and no
//! memory are told only where no more had been read. Then nothing is written. Behind a write fault what went out is a beginning of the
//! transcript. No more than 16 MiB and one octet are read.
#![tactic(auto)]

mod choice;
mod command;
mod command_line;
mod counted;
mod explanation;
mod fault;
mod gathered;
mod input;
pub mod laws;
mod lines;
mod listing;
mod output;
mod place;
mod serve;
mod transcript;
mod words;

pub use choice::Choice;
pub use command::Command;
pub use command_line::{program, without_output};
pub use fault::{RunFault, status};
pub use input::INPUT_LIMIT;
pub use kernel_core::{Begun, CellText, Job, Kernel, Outcome};
pub use kernel_text::{Fault, WriteFailed, send, send_counted};
pub use lines::{is_blank, is_command_line};
pub use output::{send_outcome, send_post_fault, send_run_fault, send_value};
pub use serve::serve as serve_job;
pub use transcript::run;
pub use words::{choice_of, steps_of, unread_words_status, words_status};
