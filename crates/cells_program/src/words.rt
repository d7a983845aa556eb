//! The words of the command line.
ghost use Rattle.std.specs.Prelude.{◌≡◌, ◌≢◌, ◌⊎◌, ◌++◌, ℕ, drop, map, IfOk, IfErr, IsErrAnd, OnOk};
ghost use Rattle.std.specs.List.{list_any};
ghost use Rattle.clap.specs.Values.{kind_of};
ghost use Rattle.cells_program.specs.CommandLine.{IsSteps, Runs, RunsFor, is_explain as is_explain_of, plain_of, plain_words as plain_words_of};
ghost use Rattle.cells_program.specs.declared.choice.Choice.{Choice};
ghost use Rattle.cells_program.specs.Ending.{AsksForHelp};
ghost use Rattle.program_words.specs.Status.{status_of};

use crate::choice::Choice;
use clap::error::ErrorKind;
use clap::{Arg, Command, Error, value_parser};
use program_words::VERSION;
use std::alloc::{AllocError, Global};
use std::convert::AsStr;
use std::io::ErrorKind as ReadErrorKind;

/// How many steps each cell may take by the words of a command line: the program's name, perhaps `--steps N` or `--steps=N` with
/// N from 1 to 10^12, and perhaps `--` behind it. Without the option it is 10,000,000. `--help` and `-h` are refused with the help,
/// `--version` and `-V` with the version.
pub fn steps_of<'a, S: AsStr>(alloc: Global, words: &'a [S]) -> Result<u64, Error>
    ensures ok { IfOk result (Runs (map S.text words.now)) }
    ensures range { IfOk result IsSteps }
    ensures err { IfErr result (λ error. (n : ℕ) → Runs (map S.text words.now) n → kind_of error ≡ ErrorKind.OutOfMemory) }
    ensures help { AsksForHelp (map S.text words.now) → IsErrAnd result (λ error.
        (kind_of error ≡ ErrorKind.OutOfMemory) ⊎ (kind_of error ≡ ErrorKind.DisplayHelp)) }
{
    let steps = Arg::new(alloc, "steps")
        .long("steps")
        .value_name("N")
        .default_value("10000000")
        .value_parser(value_parser!(u64).range(1..=1_000_000_000_000))
        .help("How many steps each cell may take, from 1 to 1000000000000");
    let command = Command::new(alloc, "janus-cells")
        .version(VERSION)
        .about(
            "Runs Janus cells with undo, redo, goto, show and list, line by line, from standard input. A cell that has not ended after N steps is interrupted.",
        )
        .after_help(
            "With --explain, before or after the others, a second line tells of each refused text by line and column why it is refused.",
        )
        .arg(steps)?;
    let matches = command.try_get_matches_from(words)?;
    match matches.get_one::<u64>("steps") {
        Some(steps) => Ok(steps),
        None => unreachable!(),
    }
}

/// The word that asks for explanations.
const EXPLAIN: &str = "--explain";

/// Whether a word asks for explanations.
fn is_explain(word: &str) -> bool
    ensures { result ≡ is_explain_of word.now }
{
    word == EXPLAIN
}

/// Whether one of the words behind the program's name asks for explanations.
fn asks_to_explain<S: AsStr>(words: &[S]) -> bool
    ensures { result ≡ list_any (λ word. is_explain_of (S.text word)) (drop 1 words.now) }
{
    words.iter().skip(1).any(|word| is_explain(word.as_str()))
}

/// Adds a word, unless it asks for explanations and isn't the program's name. The only error is want of memory.
fn add_plain<'a>(plain: &mut Vec<&'a str>, is_name: bool, word: &'a str) -> Result<(), AllocError>
    ensures { OnOk result (map (λ it. it.now) plain.new.items ≡ map (λ it. it.now) plain.old.items ++ plain_of is_name word.now) }
{
    if is_name || !is_explain(word) {
        plain.push(word)?;
    }
    Ok(())
}

/// The words but those behind the program's name that ask for explanations. The only error is want of memory.
fn plain_words<'a, S: AsStr>(alloc: Global, words: &'a [S]) -> Result<Vec<&'a str>, AllocError>
    ensures { IfOk result (λ plain. map (λ it. it.now) plain.items ≡ plain_words_of (map S.text words.now)) }
{
    let mut plain = Vec::new(alloc);
    for (i, word) in words.iter().enumerate() {
        add_plain(&mut plain, i == 0, word.as_str())?;
    }
    Ok(plain)
}

/// What the words of a command line choose: `--explain` may stand anywhere behind the program's name, and the
/// others are those of [`steps_of`].
///
/// # Errors
/// Those of [`steps_of`].
pub fn choice_of<'a, S: AsStr>(alloc: Global, words: &'a [S]) -> Result<Choice, Error>
    ensures ok { IfOk result (RunsFor (map S.text words.now)) }
    ensures err { IfErr result (λ error. (choice : Choice) → RunsFor (map S.text words.now) choice → kind_of error ≡ ErrorKind.OutOfMemory) }
    ensures help { AsksForHelp (map S.text words.now) → IsErrAnd result (λ error.
        (kind_of error ≡ ErrorKind.OutOfMemory) ⊎ (kind_of error ≡ ErrorKind.DisplayHelp)) }
{
    let plain = plain_words(alloc, words)?;
    let steps = steps_of(alloc, plain.as_slice())?;
    Ok(Choice {
        steps,
        explains: asks_to_explain(words),
    })
}

/// The exit status for want of memory, where it ends a run or leaves no words to read.
const NO_MEMORY: u8 = 1;

/// The exit status of words that run nothing: 0 for help, 1 where there was no memory for them, 2 for wrong ones.
pub fn words_status(kind: ErrorKind) -> u8
    ensures { result ≡ status_of 1 kind }
{
    program_words::words_status(kind, NO_MEMORY)
}

/// The exit status where the words could not be had: 1 where there was no memory for them, else 2.
pub fn unread_words_status(kind: ReadErrorKind) -> u8
    ensures memory { kind ≡ ReadErrorKind.OutOfMemory → result ≡ 1 }
    ensures wrong { kind ≢ ReadErrorKind.OutOfMemory → result ≡ 2 }
{
    program_words::unread_words_status(kind, NO_MEMORY)
}
