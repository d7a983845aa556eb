//! `janus-kernel`: a kernel for Janus, served to Jupyter's frontends. All of it is [`kernel_main`]; this is the words of the command line
//! and the two output streams.
#![tactic(auto)]

use kernel_program::{Limits, kernel_main, refuse_unread_words};
use std::env;
use std::io::ErrorKind;
use std::process::ExitCode;

fn main(rt: HostRuntime) -> ExitCode {
    let alloc = rt.alloc();
    let words = match env::args(&rt) {
        Ok(words) => words,
        Err(error) => {
            return ExitCode::from(refuse_unread_words(error.kind(), &mut rt.stderr()));
        }
    };
    let Ok(words) = words.collect::<Vec<String>>(alloc) else {
        return ExitCode::from(refuse_unread_words(ErrorKind::OutOfMemory, &mut rt.stderr()));
    };
    let status = kernel_main(
        &rt,
        alloc,
        Limits::USUAL,
        &words,
        &mut rt.stdout(),
        &mut rt.stderr(),
    );
    ExitCode::from(status)
}
