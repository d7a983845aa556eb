//! What the words of the command line ask for.
ghost use Rattle.std.specs.Prelude.{◌≡◌, ◌⊎◌, List, ℕ, map, string_bytes, IfOk, IfErr, Some, None};

use crate::count::count;
use crate::line::{CONNECT, WORD, program};
use crate::refused::{RefusalKind, Refused, no_memory, refused_by};
use clap::ArgMatches;
use console_talk::ConsoleCommand;
use std::alloc::{AllocError, Global};
use std::convert::AsStr;

/// What the words of a command line ask for.
#[derive(Drop)]
pub struct Arguments {
    /// The path of the connection file.
    pub file: String,
    /// What the kernel is to do.
    pub command: ConsoleCommand,
}

/// What is printed of an N that is no such number.
const NO_NUMBER: &str =
    "error: N is 1 to 10 digits, at most 4294967295\n\nFor more information, try '--help'.\n";

/// What a command with its word asks for; none where the word should be a number and is none.
fn asked(alloc: Global, name: &str, word: &str) -> Result<Option<ConsoleCommand>, AllocError> {
    if name == "run" {
        return Ok(Some(ConsoleCommand::Run(String::from_str(alloc, word)?)));
    }
    if name == "complete" {
        return Ok(Some(ConsoleCommand::Complete(String::from_str(alloc, word)?)));
    }
    if name == "show" {
        return Ok(Some(ConsoleCommand::Show));
    }
    let Some(n) = count(word) else {
        return Ok(None);
    };
    if name == "undo" {
        return Ok(Some(ConsoleCommand::Undo(n)));
    }
    if name == "redo" {
        return Ok(Some(ConsoleCommand::Redo(n)));
    }
    Ok(Some(ConsoleCommand::Goto(n)))
}

/// Want of memory, or that an N is no such number.
fn refused_number(alloc: Global) -> Refused {
    match String::from_str(alloc, NO_NUMBER) {
        Ok(text) => Refused {
            kind: RefusalKind::Wrong,
            text,
        },
        Err(_) => no_memory(alloc),
    }
}

/// The value of this id; empty where it has none.
fn value_of<'a>(matches: &ArgMatches<'a>, id: &str) -> &'a str {
    match matches.get_str(id) {
        Some(value) => value,
        None => "",
    }
}

/// The command that was met, and the word behind it.
fn met<'a>(matches: &ArgMatches<'a>) -> (&'a str, &'a str) {
    match matches.subcommand() {
        Some((name, inner)) => (name, value_of(inner, WORD)),
        None => ("show", ""),
    }
}

/// What the matches ask for.
fn arguments_in(alloc: Global, matches: &ArgMatches<'_>) -> Result<Arguments, Refused> {
    let Ok(file) = String::from_str(alloc, value_of(matches, CONNECT)) else {
        return Err(no_memory(alloc));
    };
    let (name, word) = met(matches);
    match asked(alloc, name, word) {
        Ok(Some(command)) => Ok(Arguments { file, command }),
        Ok(None) => Err(refused_number(alloc)),
        Err(_) => Err(no_memory(alloc)),
    }
}

/// What the words of a command line ask for: the program's name, `--connect FILE`, and one of `run CODE`, `undo N`, `redo N`, `goto N`, `show` and
/// `complete TEXT`. N is 1 to 10 digits, at most 4294967295. A word that begins with a hyphen stands behind `--`.
///
/// # Errors
/// What is printed instead: the help where `--help` or `-h` asks for it, or what is wrong with the words.
pub fn arguments_of<'a, S: AsStr>(alloc: Global, words: &'a [S]) -> Result<Arguments, Refused> {
    let Ok(program) = program(alloc) else {
        return Err(no_memory(alloc));
    };
    match program.try_get_matches_from(words) {
        Ok(matches) => arguments_in(alloc, &matches),
        Err(error) => Err(refused_by(alloc, &error)),
    }
}
