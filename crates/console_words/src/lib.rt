//! The command line of `janus-console`: what its words ask for.
//!
//! [`arguments_of`] reads the words by `clap`, and answers the connection file and what the kernel is to do, or what is printed instead ([`Refused`]): the
//! help, the version, or why the words ask for nothing. Proved are which words are numbers of cells (`count`), and with which status a refusal ends. Which
//! words ask for what is `clap`'s, so it is not proved; `tests_programs` shows it.
#![tactic(auto)]

mod count;
mod line;
mod refused;
mod words;

pub use refused::{RefusalKind, Refused};
pub use words::{Arguments, arguments_of};
