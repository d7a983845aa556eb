//! `janus-cells`: cells of Janus with undo, redo, show and list over a stream of lines. All of it is [`program`]; this is the words of the command
//! line and the three streams.
#![tactic(auto)]

use cells_program::{
    RunFault, WriteFailed, program, send_run_fault, status, unread_words_status, without_output,
    words_status,
};
use clap::error::ErrorKind;
use program_words::send_unread_words;
use std::env;
use std::io::{self, BufWriter};
use std::process::ExitCode;

fn main(rt: HostRuntime) -> anyhow::Result<ExitCode> {
    let alloc = rt.alloc();
    let words = match read_words(&rt)? {
        Ok(words) => words,
        Err(status) => return Ok(status),
    };
    let ended = match BufWriter::new(alloc, rt.stdout()) {
        Ok(mut writer) => program(alloc, words.as_slice(), &mut rt.stdin(), &mut writer),
        Err(_) => without_output(alloc, words.as_slice()),
    };
    match ended {
        Ok(Ok(())) => Ok(ExitCode::SUCCESS),
        Ok(Err(fault)) => {
            tell(&rt, fault)?;
            Ok(ExitCode::from(status(Err(fault))))
        }
        Err(error) => refuse_words(&rt, &error),
    }
}

/// The words of the command line. Where they can't be had it answers the program's status.
fn read_words(rt: &HostRuntime) -> anyhow::Result<Result<Vec<String>, ExitCode>> {
    let words = match env::args(rt) {
        Ok(words) => words,
        Err(error) => return Ok(Err(refuse_unread_words(rt, error.kind())?)),
    };
    match words.collect::<Vec<String>>(rt.alloc()) {
        Ok(words) => Ok(Ok(words)),
        Err(_) => Ok(Err(refuse_unread_words(rt, io::ErrorKind::OutOfMemory)?)),
    }
}

/// Tells why the words of the command line could not be had, and answers the program's status.
fn refuse_unread_words(rt: &HostRuntime, kind: io::ErrorKind) -> anyhow::Result<ExitCode> {
    if kind == io::ErrorKind::OutOfMemory {
        tell(rt, RunFault::Memory)?;
    } else {
        send_unread_words(&mut rt.stderr())?;
    }
    Ok(ExitCode::from(unread_words_status(kind)))
}

/// Tells why the words of the command line run nothing, and answers the program's status. A help text that can't be written
/// is a fault.
fn refuse_words(rt: &HostRuntime, error: &clap::Error) -> anyhow::Result<ExitCode> {
    let kind = error.kind();
    if kind == ErrorKind::OutOfMemory {
        tell(rt, RunFault::Memory)?;
    } else if error.print(rt).is_err() && !error.use_stderr() {
        tell(rt, RunFault::Write)?;
        return Ok(ExitCode::from(status(Err(RunFault::Write))));
    }
    Ok(ExitCode::from(words_status(kind)))
}

/// Tells a fault on standard error.
fn tell(rt: &HostRuntime, fault: RunFault) -> Result<(), WriteFailed> {
    send_run_fault(&mut rt.stderr(), fault)
}
