//! Rows of all crates of tests but `tests_programs`, with their answers.
//!
//! The rows stand in the file `stdin`, the rows with their answers in the file `stdout`, in the form of `tests_rows`. A line `== janus` begins the part of
//! `tests_janus`, and so on, up to the next such line. What may stand in the blocks of a part is said by that crate, which answers them. A block of a part
//! that no crate answers has the one line `no such part`.
#![tactic(auto)]

use std::io;
use std::sync::Wait;
use std::thread::Threads;
use std::time::Clock;
use tests_rows::Sheet;

fn main(rt: HostRuntime) -> anyhow::Result<()> {
    let alloc = rt.alloc();
    let text = io::read_to_string(alloc, rt.stdin())?;
    let mut sheet = Sheet::new(alloc);
    tell_all(&rt, &text, &mut sheet);
    let told = sheet.finish()?;
    print!(rt; "{told}")?;
    Ok(())
}

/// Writes all parts, with the answers to their rows.
fn tell_all<R: Threads + Wait + Clock + Sync>(rt: &R, text: &str, sheet: &mut Sheet) {
    let parts = text.strip_prefix("== ").unwrap_or(text);
    for part in parts.split("\n== ") {
        tell_part(rt, part, sheet);
    }
}

/// Writes a part, which begins with its name, with the answers to its rows.
fn tell_part<R: Threads + Wait + Clock + Sync>(rt: &R, part: &str, sheet: &mut Sheet) {
    let (name, rows) = part.split_once('\n').unwrap_or((part, ""));
    sheet.write("== ");
    sheet.write(name);
    sheet.write("\n");
    for block in rows.split("\n\n") {
        tell(rt, name, block, sheet);
    }
}

/// Writes a block of the part with this name, with the answers to its rows.
fn tell<R: Threads + Wait + Clock + Sync>(rt: &R, name: &str, block: &str, sheet: &mut Sheet) {
    match name {
        "janus" => tests_janus::tell(block, sheet),
        "wire" => tests_wire::tell(block, sheet),
        "replies" => tests_replies::tell(block, sheet),
        "sessions" => tests_sessions::tell(block, sheet),
        "threads" => tests_threads::tell(rt, block, sheet),
        "consoles" => tests_consoles::tell(block, sheet),
        "publishing" => tests_publishing::tell(rt, block, sheet),
        "replay" => tests_replay::tell(block, sheet),
        _ => sheet.write("no such part\n"),
    }
}
