//! `janus-steps`: a walk through one cell of a file of Janus cells, step by step, on and back. All of it is [`run`]; this is the words of the command line,
//! the file and the streams.
#![tactic(auto)]

use std::io::{BufReader, BufWriter};
use std::process::ExitCode;
use std::{env, fs};
use steps_program::{RunFault, run};

/// How it is started. It draws no screen: a program of its own does, which asks it.
const USAGE: &str =
    "usage: janus-steps FILE [--cell N]     (in a terminal, janus-steps-screen FILE [--cell N] draws what it tells)";

/// The commands, after the usage.
const COMMANDS: &str =
    "Each line of standard input is a command: step [N], back [N], next, finish, to LINE, back-to LINE, to-fault, to-end, to-start,
until EXP, back-until EXP, watch NAME, back-watch NAME, show, where, calls, list, count or quit.";

fn main(rt: HostRuntime) -> anyhow::Result<ExitCode> {
    let alloc = rt.alloc();
    let words = env::args(&rt)?.collect::<Vec<String>>(rt.alloc())?;
    if is_one_of(words.as_slice(), "-h", "--help") {
        println!(rt; "{USAGE}\n{COMMANDS}")?;
        return Ok(ExitCode::SUCCESS);
    }
    if is_one_of(words.as_slice(), "-V", "--version") {
        println!(rt; "janus-steps 1.0.0")?;
        return Ok(ExitCode::SUCCESS);
    }
    let Some((path, cell)) = choice_of(words.as_slice()) else {
        eprintln!(rt; "{USAGE}")?;
        return Ok(ExitCode::from(2));
    };
    let file = fs::read_to_string(&rt, path)?;
    let mut reader = BufReader::new(alloc, rt.stdin())?;
    let mut writer = BufWriter::new(alloc, rt.stdout())?;
    match run(alloc, &file, cell, &mut reader, &mut writer) {
        Ok(()) => Ok(ExitCode::SUCCESS),
        Err(fault) => {
            tell(&rt, fault)?;
            Ok(ExitCode::from(1))
        }
    }
}

/// Tells a fault on standard error.
fn tell(rt: &HostRuntime, fault: RunFault) -> anyhow::Result<()> {
    eprintln!(rt; "janus-steps: {fault}")?;
    Ok(())
}

/// Whether the only word is this option, in its short or its long form.
fn is_one_of(words: &[String], short: &str, long: &str) -> bool {
    match words {
        [_, word] => word.as_str() == short || word.as_str() == long,
        _ => false,
    }
}

/// The file, and the number of its cell, if one is told.
fn choice_of(words: &[String]) -> Option<(&str, Option<usize>)> {
    match words {
        [_, path] if !path.as_str().starts_with('-') => Some((path.as_str(), None)),
        [_, path, option, number] if option.as_str() == "--cell" => match number.parse::<usize>() {
            Ok(number) => Some((path.as_str(), Some(number))),
            Err(_) => None,
        },
        _ => None,
    }
}
