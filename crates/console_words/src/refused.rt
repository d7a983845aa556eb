//! What is printed where the words ask for nothing that the kernel is to do.
ghost use Rattle.std.specs.Prelude.{◌≡◌, ◌⊎◌};
ghost use Rattle.clap.specs.Values.{kind_of};
ghost use Rattle.console_words.specs.Refusals as table;

use clap::Error;
use clap::error::ErrorKind;
use std::alloc::{AllocError, Global};

/// Why the words ask for nothing that the kernel is to do.
#[derive(Clone, Copy)]
pub enum RefusalKind {
    /// They ask for the help or the version.
    Help,
    /// They are wrong.
    Wrong,
    /// There was no memory for them.
    Memory,
}

impl RefusalKind {
    /// The status with which the program ends: 0 for the help or the version, 2 for wrong words, 3 for want of memory.
    pub fn status(self) -> u8
        ensures { result ≡ table.status_of self }
    {
        match self {
            RefusalKind::Help => 0,
            RefusalKind::Wrong => 2,
            RefusalKind::Memory => 3,
        }
    }
}

/// What is printed where the words ask for nothing that the kernel is to do.
#[derive(Drop)]
pub struct Refused {
    /// Why.
    pub kind: RefusalKind,
    /// The help, the version, or what is wrong; empty for want of memory.
    pub text: String,
}

/// Which kind an error of `clap` is of.
fn kind_told(kind: ErrorKind) -> RefusalKind
    ensures { result ≡ table.kind_told kind }
{
    match kind {
        ErrorKind::DisplayHelp | ErrorKind::DisplayVersion => RefusalKind::Help,
        ErrorKind::OutOfMemory => RefusalKind::Memory,
        _ => RefusalKind::Wrong,
    }
}

/// Want of memory.
pub(crate) fn no_memory(alloc: Global) -> Refused
    ensures { result.kind ≡ RefusalKind.Memory }
{
    Refused {
        kind: RefusalKind::Memory,
        text: String::new(alloc),
    }
}

/// The text of an error of `clap`.
fn text_of(alloc: Global, error: &Error) -> Result<String, AllocError> {
    format!(in alloc; "{error}")
}

/// What is printed of an error of `clap`. Where there is no memory for its text, want of memory.
pub(crate) fn refused_by(alloc: Global, error: &Error) -> Refused
    ensures { (result.kind ≡ table.kind_told (kind_of error.now)) ⊎ (result.kind ≡ RefusalKind.Memory) }
{
    let kind = kind_told(error.kind());
    match text_of(alloc, error) {
        Ok(text) => Refused { kind, text },
        Err(_) => no_memory(alloc),
    }
}
