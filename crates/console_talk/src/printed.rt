//! What is printed of an answer.
ghost use Rattle.std.specs.Prelude.{◌≡◌, ◌++◌, ◌∷◌, [], codes, decimal, string_bytes, Some, IfOk, IfErr, OnOk, option_map};
ghost use Rattle.serde_json.specs.View.{view, items_view};
ghost use Rattle.console_talk.specs.Lines as table;
ghost use Rattle.console_talk.specs.Answers.{Answers, IsWhy, told_of};

use crate::look::{count_in, is_word, member_in, text_in};
use itoa::Buffer;
use serde_json::Value;
use std::alloc::{AllocError, AllocFailed, Global};
use thiserror::Error;

/// What is printed of an answer, and whether all went well.
#[derive(Drop)]
pub struct Printed {
    /// The lines, each with its LF.
    pub lines: String,
    /// Whether the kernel did what it was asked to do.
    pub is_well: bool,
}

impl Printed {
    ghost use Rattle.console_talk.specs.Lines.{status_of};

    /// The status with which the program ends: 0 where all went well, else 1.
    pub fn status(&self) -> u8
        ensures { result ≡ status_of self.now.is_well }
    {
        if self.is_well { 0 } else { 1 }
    }
}

/// Why nothing is printed of an answer.
#[derive(Clone, Copy, Debug, Error)]
pub enum AnswerFault {
    /// It is no answer to what was asked.
    #[error("no answer")]
    NoAnswer,
    /// There was no memory.
    #[error("no memory")]
    Memory,
}

impl From<AllocError> for AnswerFault {
    ghost use Rattle.std.specs.Prelude.{◌≡◌};
    ghost use Rattle.console_talk.specs.declared.printed.AnswerFault.TheVariants.{Memory};

    ghost from_gives = { λ _ e. e ≡ Memory };

    fn from(_: AllocError) -> Self {
        AnswerFault::Memory
    }
}

impl<T: Drop> From<AllocFailed<T>> for AnswerFault {
    ghost use Rattle.std.specs.Prelude.{◌≡◌};
    ghost use Rattle.console_talk.specs.declared.printed.AnswerFault.TheVariants.{Memory};

    ghost from_gives = { λ _ e. e ≡ Memory };

    fn from(_: AllocFailed<T>) -> Self {
        AnswerFault::Memory
    }
}

/// Adds a whole number in decimal digits. After an error a part of it may stand there.
fn push_count(text: &mut String, n: u64) -> Result<(), AllocError>
    ensures { OnOk result (string_bytes text.new ≡ string_bytes text.old ++ decimal n) }
{
    let mut buffer = Buffer::new();
    text.push_str(buffer.format(n))
}

/// Adds a line. After an error a part of it may stand there.
fn push_line(text: &mut String, line: &str) -> Result<(), AllocError>
    ensures { OnOk result (string_bytes text.new ≡ string_bytes text.old ++ (line.now ++ 10 ∷ [])) }
{
    text.push_str(line)?;
    text.push_str("\n")
}

/// Adds each of the texts of a list on a line of its own. After an error some of them may stand there.
fn push_lines(text: &mut String, items: &[Value]) -> Result<(), AnswerFault>
    ensures ok { OnOk result (table.with_lines (string_bytes text.old) (items_view items.now) ≡ Some (string_bytes text.new)) }
    ensures err { IfErr result (λ fault. IsWhy fault (table.with_lines (string_bytes text.old) (items_view items.now))) }
{
    for item in items {
        match item.as_str() {
            Some(line) => push_line(text, line)?,
            None => return Err(AnswerFault::NoAnswer),
        }
    }
    Ok(())
}

/// Adds each of the texts of the list in the member of this name on a line of its own.
fn push_lines_in(text: &mut String, value: &Value, name: &str) -> Result<(), AnswerFault>
    ensures ok { OnOk result (table.with_lines_in name.now (string_bytes text.old) (view value.now) ≡ Some (string_bytes text.new)) }
    ensures err { IfErr result (λ fault. IsWhy fault (table.with_lines_in name.now (string_bytes text.old) (view value.now))) }
{
    match member_in(value, name).and_then(Value::as_array) {
        Some(items) => push_lines(text, items),
        None => Err(AnswerFault::NoAnswer),
    }
}

/// These lines, of an answer by which all went well.
fn well(lines: String) -> Printed
    ensures { told_of result ≡ table.well (string_bytes lines) }
{
    Printed {
        lines,
        is_well: true,
    }
}

/// These lines, of an answer by which the kernel did not do what it was asked to do.
fn ill(lines: String) -> Printed
    ensures { told_of result ≡ table.ill (string_bytes lines) }
{
    Printed {
        lines,
        is_well: false,
    }
}

/// What is printed of an error reply.
fn failed(alloc: Global, reply: &Value) -> Result<Printed, AnswerFault>
    ensures { Answers result (table.failed (view reply.now)) }
{
    let Some(line) = text_in(reply, "evalue") else {
        return Err(AnswerFault::NoAnswer);
    };
    let mut lines = String::new(alloc);
    push_line(&mut lines, line)?;
    Ok(ill(lines))
}

/// The text that the content of a result shows.
fn shown_text(content: &Value) -> Option<&str>
    ensures { option_map (λ t. t.now) result ≡ table.shown_in (Some (view content.now)) }
{
    match member_in(content, "data") {
        Some(said) => text_in(said, "text/plain"),
        None => None,
    }
}

/// Adds the line of what a result shows, if there is a result and it shows something. After an error a part of it may stand there.
fn push_shown(text: &mut String, shown: Option<&Value>) -> Result<(), AllocError>
    ensures { OnOk result (string_bytes text.new
        ≡ string_bytes text.old ++ table.shown_lines (table.shown_in (option_map (λ v. view v.now) shown.entry))) }
{
    match shown.and_then(shown_text) {
        Some(line) => push_line(text, line),
        None => Ok(()),
    }
}

/// What is printed of a cell that ran.
fn ran(alloc: Global, reply: &Value, shown: Option<&Value>) -> Result<Printed, AnswerFault>
    ensures { Answers result (table.ran (view reply.now) (option_map (λ v. view v.now) shown.entry)) }
{
    let Some(count) = count_in(reply, "execution_count") else {
        return Err(AnswerFault::NoAnswer);
    };
    let mut lines = String::from_str(alloc, "ok [")?;
    push_count(&mut lines, count)?;
    push_line(&mut lines, "]")?;
    push_shown(&mut lines, shown)?;
    Ok(well(lines))
}

/// What is printed of a cell: by the content of the `execute_reply`, and that of the `execute_result`, if one came. `ok [COUNT]` and the
/// lines of the result, or the line of the error.
///
/// # Errors
/// `NoAnswer` where the reply's content is none of an `execute_reply`; `Memory`.
pub fn run_told(alloc: Global, reply: &Value, shown: Option<&Value>) -> Result<Printed, AnswerFault>
    ensures { Answers result (table.run_told (view reply.now) (option_map (λ v. view v.now) shown.entry)) }
{
    if is_word(reply, "status", "ok") {
        ran(alloc, reply, shown)
    } else {
        failed(alloc, reply)
    }
}

/// What is printed of the names that fit.
fn matches_told(alloc: Global, reply: &Value) -> Result<Printed, AnswerFault>
    ensures { Answers result (option_map table.well (table.with_lines_in (codes "matches") [] (view reply.now))) }
{
    let mut lines = String::new(alloc);
    push_lines_in(&mut lines, reply, "matches")?;
    Ok(well(lines))
}

/// What is printed of a completion, by the content of the `complete_reply`: each name that fits on a line of its own.
///
/// # Errors
/// `NoAnswer` where the content is none of a `complete_reply`; `Memory`.
pub fn completion_told(alloc: Global, reply: &Value) -> Result<Printed, AnswerFault>
    ensures { Answers result (table.completion_told (view reply.now)) }
{
    if is_word(reply, "status", "ok") {
        matches_told(alloc, reply)
    } else {
        failed(alloc, reply)
    }
}

/// How a move ended, where memory ran out.
fn end_text(said: &Value) -> &'static str
    ensures { result.now ≡ table.end_text (view said.now) }
{
    if is_word(said, "end", "memory") {
        " then no memory"
    } else {
        ""
    }
}

/// The line of `n` cells, behind these words.
fn cells_told(alloc: Global, words: &str, n: u64, ending: &str) -> Result<Printed, AllocError>
    ensures { IfOk result (λ told. told_of told ≡ table.well (table.line (words.now ++ decimal n ++ ending.now))) }
{
    let mut lines = String::from_str(alloc, words)?;
    push_count(&mut lines, n)?;
    push_line(&mut lines, ending)?;
    Ok(well(lines))
}

/// What is printed of an undo.
fn undid(alloc: Global, said: &Value) -> Result<Printed, AnswerFault>
    ensures { Answers result (table.undid (view said.now)) }
{
    let Some(n) = count_in(said, "undone") else {
        return Err(AnswerFault::NoAnswer);
    };
    Ok(cells_told(alloc, "undid ", n, end_text(said))?)
}

/// What is printed of a redo.
fn redid(alloc: Global, said: &Value) -> Result<Printed, AnswerFault>
    ensures { Answers result (table.redid (view said.now)) }
{
    let Some(n) = count_in(said, "redone") else {
        return Err(AnswerFault::NoAnswer);
    };
    Ok(cells_told(alloc, "redid ", n, end_text(said))?)
}

/// The line of a way up and down.
fn way_told(alloc: Global, up: u64, down: u64, ending: &str) -> Result<Printed, AllocError>
    ensures { IfOk result (λ told. told_of told ≡ table.well (table.way_line up down ending.now)) }
{
    let mut lines = String::from_str(alloc, "went ")?;
    push_count(&mut lines, up)?;
    lines.push_str(" up ")?;
    push_count(&mut lines, down)?;
    lines.push_str(" down")?;
    push_line(&mut lines, ending)?;
    Ok(well(lines))
}

/// What is printed of a goto.
fn went(alloc: Global, said: &Value) -> Result<Printed, AnswerFault>
    ensures { Answers result (table.went (view said.now)) }
{
    let Some(up) = count_in(said, "undone") else {
        return Err(AnswerFault::NoAnswer);
    };
    let Some(down) = count_in(said, "redone") else {
        return Err(AnswerFault::NoAnswer);
    };
    Ok(way_told(alloc, up, down, end_text(said))?)
}

/// The line of a position.
fn position_line(alloc: Global, node: u64) -> Result<String, AllocError>
    ensures { IfOk result (λ lines. string_bytes lines ≡ table.line (codes "at node " ++ decimal node)) }
{
    let mut lines = String::from_str(alloc, "at node ")?;
    push_count(&mut lines, node)?;
    push_line(&mut lines, "")?;
    Ok(lines)
}

/// What is printed of where the kernel stands.
fn stands(alloc: Global, said: &Value) -> Result<Printed, AnswerFault>
    ensures { Answers result (table.stands (view said.now)) }
{
    let Some(node) = count_in(said, "node") else {
        return Err(AnswerFault::NoAnswer);
    };
    let mut lines = position_line(alloc, node)?;
    push_lines_in(&mut lines, said, "world")?;
    Ok(well(lines))
}

/// The line of a refusal.
fn refusal_told(alloc: Global, number: u64, name: &str) -> Result<Printed, AllocError>
    ensures { IfOk result (λ told. told_of told ≡ table.ill (table.line (codes "refused " ++ decimal number ++ codes " " ++ name.now))) }
{
    let mut lines = String::from_str(alloc, "refused ")?;
    push_count(&mut lines, number)?;
    lines.push_str(" ")?;
    push_line(&mut lines, name)?;
    Ok(ill(lines))
}

/// What is printed of a refusal.
fn refused(alloc: Global, said: &Value) -> Result<Printed, AnswerFault>
    ensures { Answers result (table.refused (view said.now)) }
{
    let Some(number) = count_in(said, "number") else {
        return Err(AnswerFault::NoAnswer);
    };
    let Some(name) = text_in(said, "name") else {
        return Err(AnswerFault::NoAnswer);
    };
    Ok(refusal_told(alloc, number, name)?)
}

/// What is printed of what was done, by its operation.
fn done(alloc: Global, said: &Value) -> Result<Printed, AnswerFault>
    ensures { Answers result (table.done (view said.now)) }
{
    if is_word(said, "op", "undo") {
        return undid(alloc, said);
    }
    if is_word(said, "op", "redo") {
        return redid(alloc, said);
    }
    if is_word(said, "op", "goto") {
        return went(alloc, said);
    }
    if is_word(said, "op", "state") {
        return stands(alloc, said);
    }
    Err(AnswerFault::NoAnswer)
}

/// What is printed of the data of what the kernel says on a comm.
fn data_told(alloc: Global, said: &Value) -> Result<Printed, AnswerFault>
    ensures { Answers result (table.data_told (view said.now)) }
{
    if is_word(said, "status", "ok") {
        return done(alloc, said);
    }
    if is_word(said, "status", "refused") {
        return refused(alloc, said);
    }
    Err(AnswerFault::NoAnswer)
}

/// What is printed of what the kernel says on a comm, by the content of its `comm_msg`: as `undid 1`, `redid 1`, `went 1 up 2 down` or
/// `refused 73 TooFar`, and of a state the position and the value text of each name.
///
/// # Errors
/// `NoAnswer` where the content has no data that a kernel answers; `Memory`.
pub fn comm_told(alloc: Global, content: &Value) -> Result<Printed, AnswerFault>
    ensures { Answers result (table.comm_told (view content.now)) }
{
    match member_in(content, "data") {
        Some(said) => data_told(alloc, said),
        None => Err(AnswerFault::NoAnswer),
    }
}
