//! The program's command line, as `clap` reads it.
use clap::{Arg, Command};
use program_words::VERSION;
use std::alloc::{AllocError, Global};

/// The id of the connection file.
pub(crate) const CONNECT: &str = "connect";

/// The id of the word behind a command.
pub(crate) const WORD: &str = "word";

/// A command with one word behind it.
fn with_word<'a>(
    alloc: Global,
    name: &'a str,
    about: &'a str,
    word: &'a str,
    help: &'a str,
) -> Result<Command<'a>, AllocError> {
    let word = Arg::new(alloc, WORD)
        .required(true)
        .value_name(word)
        .help(help);
    Command::new(alloc, name).about(about).arg(word)
}

/// The command by which a text is run.
fn run<'a>(alloc: Global) -> Result<Command<'a>, AllocError> {
    with_word(
        alloc,
        "run",
        "Runs a cell and prints what it shows",
        "CODE",
        "The text of the cell",
    )
}

/// The command by which cells are undone.
fn undo<'a>(alloc: Global) -> Result<Command<'a>, AllocError> {
    with_word(
        alloc,
        "undo",
        "Undoes N cells",
        "N",
        "How many cells, 0 to 4294967295",
    )
}

/// The command by which cells are redone.
fn redo<'a>(alloc: Global) -> Result<Command<'a>, AllocError> {
    with_word(
        alloc,
        "redo",
        "Redoes N cells along the ways last gone",
        "N",
        "How many cells, 0 to 4294967295",
    )
}

/// The command by which a node is gone to.
fn goto<'a>(alloc: Global) -> Result<Command<'a>, AllocError> {
    with_word(
        alloc,
        "goto",
        "Goes to the node N",
        "N",
        "The number of the node, 0 for the start",
    )
}

/// The command that shows where the kernel stands.
fn show<'a>(alloc: Global) -> Command<'a> {
    Command::new(alloc, "show").about("Prints the node, and the declared names with their values")
}

/// The command by which a text is completed.
fn complete<'a>(alloc: Global) -> Result<Command<'a>, AllocError> {
    with_word(
        alloc,
        "complete",
        "Prints the names with which a text may go on",
        "TEXT",
        "The text, with the cursor at its end",
    )
}

/// The option that gives the connection file.
fn connect<'a>(alloc: Global) -> Arg<'a> {
    Arg::new(alloc, CONNECT)
        .long("connect")
        .value_name("FILE")
        .required(true)
        .help("The connection file of the kernel")
}

/// The program without its commands.
fn bare<'a>(alloc: Global) -> Result<Command<'a>, AllocError> {
    Command::new(alloc, "janus-console")
        .bin_name("janus-console")?
        .version(VERSION)
        .about("Has a running kernel of Janus do one thing, and prints what came of it.")
        .subcommand_required(true)
        .disable_help_subcommand(true)
        .arg(connect(alloc))
}

/// The program with one more command, if there was memory for that.
fn with_command<'a>(
    program: Command<'a>,
    command: Result<Command<'a>, AllocError>,
) -> Result<Command<'a>, AllocError> {
    program.subcommand(command?)
}

/// The program's command line.
pub(crate) fn program<'a>(alloc: Global) -> Result<Command<'a>, AllocError> {
    let program = bare(alloc)?;
    let program = with_command(program, run(alloc))?;
    let program = with_command(program, undo(alloc))?;
    let program = with_command(program, redo(alloc))?;
    let program = with_command(program, goto(alloc))?;
    let program = program.subcommand(show(alloc))?;
    with_command(program, complete(alloc))
}
