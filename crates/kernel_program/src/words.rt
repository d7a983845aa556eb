//! The words of the command line.
use clap::{Arg, Command, Error};
use program_words::VERSION;
use std::alloc::Global;
use std::convert::AsStr;

/// The connection file that the words of a command line name: the program's name, and FILE. `--help` and `-h` are
/// refused with the help, `--version` and `-V` with the version.
///
/// # Errors
///
/// What is wrong with the words, that they ask for help or for the version, or want of memory.
pub(crate) fn file_of<'a, S: AsStr>(alloc: Global, words: &'a [S]) -> Result<&'a str, Error> {
    let file = Arg::new(alloc, "FILE").required(true).help(
        "The connection file, by which Jupyter tells a kernel its ports and its key",
    );
    let command = Command::new(alloc, "janus-kernel")
        .bin_name("janus-kernel")?
        .version(VERSION)
        .about(
            "Serves a kernel for Janus, whose undo is exact, to the Jupyter frontends of a connection file.",
        )
        .arg(file)?;
    let matches = command.try_get_matches_from(words)?;
    match matches.get_str("FILE") {
        Some(file) => Ok(file),
        None => Ok(""),
    }
}
