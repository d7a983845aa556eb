//! The two programs, run over the words of their command lines.
use crate::octets::text_of;
use crate::told::told;
use console_program::console;
use kernel_program::{Limits, kernel_main};
use std::alloc::{AllocError, Global};
use std::net::{Net, TcpListener, TcpStream};
use std::random::RandomSource;
use std::rt::Files;
use std::sync::Wait;
use std::thread::Threads;
use std::time::Clock;
use tests_rows::Sheet;

/// What a program wrote, and its status.
#[derive(Drop)]
pub(crate) struct Ran {
    status: u8,
    out: Vec<u8>,
    err: Vec<u8>,
}

impl Ran {
    /// Writes the status, and no more than this number of octets of each of the two streams.
    pub fn tell(&self, most: usize, sheet: &mut Sheet) {
        sheet.show(&self.status);
        sheet.write(" ");
        tell_octets(&self.out, most, sheet);
        sheet.write(" ");
        tell_octets(&self.err, most, sheet);
    }
}

/// Writes no more than this number of octets of a stream.
fn tell_octets(octets: &[u8], most: usize, sheet: &mut Sheet) {
    let octets = octets.get(..most).unwrap_or(octets);
    told(text_of(sheet.alloc(), octets), sheet);
}

/// Runs a kernel of these limits, over the words of its command line, to its end.
pub(crate) fn run_kernel<R>(rt: &R, alloc: Global, limits: Limits, words: &[&str]) -> Ran
where
    R: Net<Listener = TcpListener, Stream = TcpStream>
        + Files
        + RandomSource
        + Threads
        + Wait
        + Clock
        + Sync,
{
    let (mut out, mut err) = (Vec::new(alloc), Vec::new(alloc));
    let status = kernel_main(rt, alloc, limits, words, &mut out, &mut err);
    Ran { status, out, err }
}

/// Runs a console over the words of its command line.
pub(crate) fn run_console<R>(rt: &R, alloc: Global, words: &[&str]) -> Ran
where
    R: Net<Listener = TcpListener, Stream = TcpStream> + Files,
{
    let (mut out, mut err) = (Vec::new(alloc), Vec::new(alloc));
    let status = console(rt, alloc, words, &mut out, &mut err);
    Ran { status, out, err }
}

/// The words of a console's command line. An empty word is left out.
fn words<'a>(
    alloc: Global,
    path: &'a str,
    command: &'a str,
    word: &'a str,
) -> Result<Vec<&'a str>, AllocError> {
    let first = ["janus-console", "--connect", path, command];
    let mut words = Vec::from_array(alloc, first)?;
    if !word.is_empty() {
        words.push(word)?;
    }
    Ok(words)
}

/// Runs a console with this command and its word, and writes what it wrote. An empty word is left out.
pub(crate) fn ask<R>(rt: &R, path: &str, command: &str, word: &str, sheet: &mut Sheet)
where
    R: Net<Listener = TcpListener, Stream = TcpStream> + Files,
{
    match words(sheet.alloc(), path, command, word) {
        Ok(words) => run_console(rt, sheet.alloc(), &words).tell(usize::MAX, sheet),
        Err(_) => sheet.refuse(),
    }
}
