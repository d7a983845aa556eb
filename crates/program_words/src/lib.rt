//! What a program answers where the words of its command line run nothing, and the version of all of them.
//!
//! To the programs above this crate promises their exit statuses, and the line that tells of words which are no UTF-8: all of it, or a
//! beginning of it where the writer fails. 0 for help and 2 for wrong words are the statuses of `clap`; for want of memory each program has
//! its own.
#![tactic(auto)]

ghost use Rattle.std.specs.Prelude.{◌≡◌, ◌≢◌, OnOk, OnErr};
ghost use Rattle.std.specs.Io.KnownBytes.{Appends};
ghost use Rattle.exact_write.specs.Sent.{SentSome};
ghost use Rattle.program_words.specs.Status.{status_of, unread_line};

use clap::error::ErrorKind;
use exact_write::{WriteFailed, send};
use std::io::{ErrorKind as ReadErrorKind, Write};

/// The version of each program, as `--version` prints it.
pub const VERSION: &str = "1.0.0";

/// The exit status of wrong words.
const WRONG: u8 = 2;

/// The exit status of words that run nothing: 0 for help, 2 for wrong ones, and this one where there was no memory for them.
pub fn words_status(kind: ErrorKind, no_memory: u8) -> u8
    ensures { result ≡ status_of no_memory kind }
{
    match kind {
        ErrorKind::DisplayHelp | ErrorKind::DisplayVersion => 0,
        ErrorKind::OutOfMemory => no_memory,
        _ => WRONG,
    }
}

/// The exit status where the words could not be had: this one where there was no memory for them, else 2.
pub fn unread_words_status(kind: ReadErrorKind, no_memory: u8) -> u8
    ensures memory { kind ≡ ReadErrorKind.OutOfMemory → result ≡ no_memory }
    ensures wrong { kind ≢ ReadErrorKind.OutOfMemory → result ≡ 2 }
{
    match kind {
        ReadErrorKind::OutOfMemory => no_memory,
        _ => WRONG,
    }
}

/// Writes the line that tells of words which are no UTF-8.
///
/// # Errors
///
/// `WriteFailed` where the writer fails; a beginning of the line went out then.
pub fn send_unread_words<W: Write>(writer: &mut W) -> Result<(), WriteFailed>
    ensures ok { OnOk result (Appends (W.contents writer.old) (W.contents writer.new) unread_line) }
    ensures err { OnErr result (SentSome (W.contents writer.old) (W.contents writer.new) unread_line) }
{
    send(
        writer,
        b"error: invalid UTF-8 was detected in one or more arguments\n",
    )
}
