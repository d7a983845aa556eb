//! `janus-console`: has a running kernel of Janus do one thing, and prints what came of it.
//!
//! The program is [`console`] of `console_program`, over the words of the command line, standard output and standard error.
#![tactic(auto)]

use console_program::{console, refuse_unread_words};
use std::env;
use std::io::ErrorKind;
use std::process::ExitCode;

fn main(rt: HostRuntime) -> ExitCode {
    let alloc = rt.alloc();
    let words = match env::args(&rt) {
        Ok(words) => words,
        Err(error) => {
            return ExitCode::from(refuse_unread_words(error.kind(), &mut rt.stderr()));
        }
    };
    let Ok(words) = words.collect::<Vec<String>>(alloc) else {
        return ExitCode::from(refuse_unread_words(ErrorKind::OutOfMemory, &mut rt.stderr()));
    };
    let status = console(&rt, alloc, &words, &mut rt.stdout(), &mut rt.stderr());
    ExitCode::from(status)
}
