//! Rows of the program `janus-cells`, over memory. `;` stands for the end of a line. `run` gives what is written for an input, where each cell may take
//! this number of steps; `words` the number of steps that the words of a command line give a cell, or their status and whether it is standard error that tells
//! them; `choice` the same with whether refused texts are explained; `program` the words and, behind `|`, an input. Streams that fail are those of the
//! module `streams`.
use crate::streams::{Broken, Full, Unflushed};
use cells_program::{
    RunFault, choice_of, program, run, send_run_fault, status, steps_of, unread_words_status,
    words_status,
};
use std::alloc::{AllocError, Global};
use std::io;
use std::io::{ErrorKind, Read, Write};
use tests_rows::{Sheet, cut, cut_cell, number, unescaped};

/// How many steps a cell may take where that doesn't matter.
const STEPS: u64 = 1000;

/// Writes the answer to a call.
pub(crate) fn answer(call: &str, sheet: &mut Sheet) {
    let (word, rest) = cut(call);
    match word {
        "run" => run_row(rest, sheet),
        "words" => tell_words(rest, sheet),
        "choice" => tell_choice(rest, sheet),
        "program" => run_by_words(rest, sheet),
        _ => end(word, rest, sheet),
    }
}

/// Writes a text in which another one stands for a character.
fn write_exchanged(text: &str, from: char, to: &str, sheet: &mut Sheet) {
    for (i, part) in text.split(from).enumerate() {
        sheet.write(if i == 0 { "" } else { to });
        sheet.write(part);
    }
}

/// The lines of a text with `;` at their ends.
fn lines_of(alloc: Global, text: &str) -> Result<String, AllocError> {
    let mut lines = Sheet::new(alloc);
    write_exchanged(text, ';', "\n", &mut lines);
    lines.finish()
}

/// Writes what was written, in one line.
fn write_in_one_line(written: &[u8], sheet: &mut Sheet) {
    match str::from_utf8(written) {
        Ok(lines) => write_exchanged(lines, '\n', ";", sheet),
        Err(_) => sheet.write("no text"),
    }
}

/// Runs an input, and tells what was written, and the fault where there was one.
fn run_over<R: Read>(limit: u64, reader: &mut R, sheet: &mut Sheet) {
    let mut writer = Vec::new(sheet.alloc());
    let came = run(sheet.alloc(), limit, reader, &mut writer);
    write_in_one_line(&writer, sheet);
    if let Err(fault) = came {
        sheet.show(&fault);
    }
}

/// Runs the input behind the number of steps.
fn run_row(row: &str, sheet: &mut Sheet) {
    let (limit, input) = cut_cell(row);
    match unescaped(sheet.alloc(), input) {
        Ok(input) => run_lines(number(limit), &input, sheet),
        Err(_) => sheet.refuse(),
    }
}

/// Runs an input with `;` at the ends of its lines.
fn run_lines(limit: usize, input: &str, sheet: &mut Sheet) {
    match lines_of(sheet.alloc(), input) {
        Ok(lines) => run_over(limit as u64, &mut lines.as_bytes(), sheet),
        Err(_) => sheet.refuse(),
    }
}

/// The words of a row; `''` is one without a character.
fn words_of(alloc: Global, row: &str) -> Result<Vec<&str>, AllocError> {
    let mut words = Vec::new(alloc);
    if row.is_empty() {
        return Ok(words);
    }
    for word in row.split(' ') {
        words.push(if word == "''" { "" } else { word })?;
    }
    Ok(words)
}

/// How many steps the words of a row give a cell, or their status.
fn tell_words(row: &str, sheet: &mut Sheet) {
    match words_of(sheet.alloc(), row) {
        Ok(words) => tell_steps(&words, sheet),
        Err(_) => sheet.refuse(),
    }
}

/// How many steps words give a cell, or their status.
fn tell_steps(words: &[&str], sheet: &mut Sheet) {
    match steps_of(sheet.alloc(), words) {
        Ok(steps) => sheet.show(&steps),
        Err(error) => sheet.show(&(words_status(error.kind()), error.use_stderr())),
    }
}

/// What the words of a row choose, or their status.
fn tell_choice(row: &str, sheet: &mut Sheet) {
    match words_of(sheet.alloc(), row) {
        Ok(words) => tell_chosen(&words, sheet),
        Err(_) => sheet.refuse(),
    }
}

/// What words choose, or their status.
fn tell_chosen(words: &[&str], sheet: &mut Sheet) {
    match choice_of(sheet.alloc(), words) {
        Ok(choice) => sheet.show(&(choice.steps, choice.explains)),
        Err(error) => sheet.show(&(words_status(error.kind()), error.use_stderr())),
    }
}

/// Runs the input behind the words of a row by these words.
fn run_by_words(row: &str, sheet: &mut Sheet) {
    let (row, input) = cut_cell(row);
    match words_of(sheet.alloc(), row) {
        Ok(words) => run_lines_by(&words, input, sheet),
        Err(_) => sheet.refuse(),
    }
}

/// Runs an input with `;` at the ends of its lines by words.
fn run_lines_by(words: &[&str], input: &str, sheet: &mut Sheet) {
    match lines_of(sheet.alloc(), input) {
        Ok(lines) => run_program(words, &lines, sheet),
        Err(_) => sheet.refuse(),
    }
}

/// Runs an input by words, and tells the status and what was written.
fn run_program(words: &[&str], input: &str, sheet: &mut Sheet) {
    let mut writer = Vec::new(sheet.alloc());
    let status = status_by(words, input, &mut writer, sheet);
    sheet.show(&status);
    sheet.write(" ");
    write_in_one_line(&writer, sheet);
}

/// Runs an input by words, and gives the status.
fn status_by(words: &[&str], input: &str, writer: &mut Vec<u8>, sheet: &mut Sheet) -> u8 {
    match program(sheet.alloc(), words, &mut input.as_bytes(), writer) {
        Ok(came) => status(came),
        Err(error) => words_status(error.kind()),
    }
}

/// How a run over streams that fail ended, and how such ends are told.
fn end(word: &str, rest: &str, sheet: &mut Sheet) {
    match word {
        "broken" => run_over(STEPS, &mut Broken::new(b"int x\n%%\n"), sheet),
        "no_text" => run_over(STEPS, &mut b"\xff\n".as_slice(), sheet),
        "endless" => run_over(STEPS, &mut io::repeat(b' '), sheet),
        "unflushed" => run_to(&mut b"%%\n".as_slice(), &mut Unflushed, sheet),
        "full" => run_to(
            &mut b"%%\n%%\n%show\n".as_slice(),
            &mut Full::new(number(rest)),
            sheet,
        ),
        _ => tell_statuses(sheet),
    }
}

/// Runs an input, and tells how it ended.
fn run_to<R: Read, W: Write>(reader: &mut R, writer: &mut W, sheet: &mut Sheet) {
    sheet.show(&run(sheet.alloc(), STEPS, reader, writer));
}

/// The line of a fault, and the statuses of ends and of words that could not be read.
fn tell_statuses(sheet: &mut Sheet) {
    let mut told = Vec::new(sheet.alloc());
    let _ = send_run_fault(&mut told, RunFault::NotText);
    write_in_one_line(&told, sheet);
    tell_status(status(Ok(())), sheet);
    tell_status(status(Err(RunFault::Write)), sheet);
    tell_status(unread_words_status(ErrorKind::InvalidData), sheet);
    tell_status(unread_words_status(ErrorKind::OutOfMemory), sheet);
}

/// A status behind a blank.
fn tell_status(status: u8, sheet: &mut Sheet) {
    sheet.write(" ");
    sheet.show(&status);
}
