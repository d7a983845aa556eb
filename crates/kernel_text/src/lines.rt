//! The lines in which outcomes and refusals are told, each without an LF.
ghost use Rattle.std.specs.Prelude.{◌≡◌, ◌++◌, codes, string_bytes, IfOk, OnOk, OnErr};
ghost use Rattle.std.specs.Io.KnownBytes.{Appends};
ghost use Rattle.exact_write.specs.Sent.{SentSome};
ghost use Rattle.kernel_text.specs.Lines.{counted_text, end_text, failed_text, fault_text, outcome_line as outcome_line_of, place_text};
ghost use Rattle.kernel_text.specs.Lines.{post_fault_line as post_fault_line_of, refusal_text, way_text};

use crate::text::as_text;
use crate::writing::{send_counted, send_numbered, send_pair};
use exact_write::{WriteFailed, send};
use kernel_core::{Fault, Outcome, PostFault, Refusal, Span, TravelEnd};
use std::alloc::{AllocError, Global};
use std::io::Write;

/// Writes where a text is refused, if it is at a place.
fn send_place<W: Write>(writer: &mut W, place: Option<Span>) -> Result<(), WriteFailed>
    ensures ok { OnOk result (Appends (W.contents writer.old) (W.contents writer.new) (place_text place)) }
    ensures err { OnErr result (SentSome (W.contents writer.old) (W.contents writer.new) (place_text place)) }
{
    match place {
        Some(span) => send_pair(writer, " at ", span.start as u64, "..", span.end as u64),
        None => Ok(()),
    }
}

/// Writes how an undo, a redo or a goto ended, if memory ran out.
fn send_end<W: Write>(writer: &mut W, end: TravelEnd) -> Result<(), WriteFailed>
    ensures ok { OnOk result (Appends (W.contents writer.old) (W.contents writer.new) (end_text end)) }
    ensures err { OnErr result (SentSome (W.contents writer.old) (W.contents writer.new) (end_text end)) }
{
    match end {
        TravelEnd::All | TravelEnd::Asked => Ok(()),
        TravelEnd::NoMemory => send(writer, b" then no memory"),
    }
}

/// Writes how many cells were undone or redone, and how that ended.
fn send_cells<W: Write>(
    writer: &mut W,
    words: &str,
    cells: usize,
    end: TravelEnd,
) -> Result<(), WriteFailed>
    ensures ok { OnOk result (Appends (W.contents writer.old) (W.contents writer.new) (counted_text words.now cells ++ end_text end)) }
    ensures err { OnErr result (SentSome (W.contents writer.old) (W.contents writer.new) (counted_text words.now cells ++ end_text end)) }
{
    send_counted(writer, words, cells as u64)?;
    send_end(writer, end)
}

/// Writes the word behind the cells that a goto went down, and how that ended.
fn send_down<W: Write>(writer: &mut W, end: TravelEnd) -> Result<(), WriteFailed>
    ensures ok { OnOk result (Appends (W.contents writer.old) (W.contents writer.new) (codes " down" ++ end_text end)) }
    ensures err { OnErr result (SentSome (W.contents writer.old) (W.contents writer.new) (codes " down" ++ end_text end)) }
{
    send(writer, b" down")?;
    send_end(writer, end)
}

/// Writes how many cells a goto went up and down, and how that ended.
fn send_way<W: Write>(
    writer: &mut W,
    up: usize,
    down: usize,
    end: TravelEnd,
) -> Result<(), WriteFailed>
    ensures ok { OnOk result (Appends (W.contents writer.old) (W.contents writer.new) (way_text up down end)) }
    ensures err { OnErr result (SentSome (W.contents writer.old) (W.contents writer.new) (way_text up down end)) }
{
    send_pair(writer, "went ", up as u64, " up ", down as u64)?;
    send_down(writer, end)
}

/// Writes which fault was met.
fn send_fault<W: Write>(writer: &mut W, fault: Fault) -> Result<(), WriteFailed>
    ensures ok { OnOk result (Appends (W.contents writer.old) (W.contents writer.new) (fault_text fault)) }
    ensures err { OnErr result (SentSome (W.contents writer.old) (W.contents writer.new) (fault_text fault)) }
{
    send_numbered(writer, "fault ", fault.number(), fault.name())
}

/// Writes which fault a cell met, and after how many steps.
fn send_failed<W: Write>(writer: &mut W, fault: Fault, steps: u64) -> Result<(), WriteFailed>
    ensures ok { OnOk result (Appends (W.contents writer.old) (W.contents writer.new) (failed_text fault steps)) }
    ensures err { OnErr result (SentSome (W.contents writer.old) (W.contents writer.new) (failed_text fault steps)) }
{
    send_fault(writer, fault)?;
    send_counted(writer, " after ", steps)
}

/// Writes why a job was refused, and where.
fn send_refusal<W: Write>(writer: &mut W, refusal: Refusal) -> Result<(), WriteFailed>
    ensures ok { OnOk result (Appends (W.contents writer.old) (W.contents writer.new) (refusal_text refusal)) }
    ensures err { OnErr result (SentSome (W.contents writer.old) (W.contents writer.new) (refusal_text refusal)) }
{
    send_numbered(writer, "refused ", refusal.number(), refusal.name())?;
    send_place(writer, refusal.span())
}

/// Writes the line of an outcome, as `ok node 1 steps 3`, without an LF.
///
/// # Errors
/// The writer failed, and a beginning of the line went out.
pub fn send_outcome<W: Write>(writer: &mut W, outcome: &Outcome) -> Result<(), WriteFailed>
    ensures ok { OnOk result (Appends (W.contents writer.old) (W.contents writer.new) (outcome_line_of outcome.now)) }
    ensures err { OnErr result (SentSome (W.contents writer.old) (W.contents writer.new) (outcome_line_of outcome.now)) }
{
    match *outcome {
        Outcome::Ran(node, steps) => send_pair(writer, "ok node ", node as u64, " steps ", steps),
        Outcome::Failed(fault, steps) => send_failed(writer, fault, steps),
        Outcome::Interrupted(steps) => send_counted(writer, "interrupted after ", steps),
        Outcome::Undid(cells, end) => send_cells(writer, "undid ", cells, end),
        Outcome::Redid(cells, end) => send_cells(writer, "redid ", cells, end),
        Outcome::Went(up, down, end) => send_way(writer, up, down, end),
        Outcome::Refused(refusal) => send_refusal(writer, refusal),
    }
}

/// Writes the line of a post that was refused, as `refused 75 Closing`, without an LF.
///
/// # Errors
/// The writer failed, and a beginning of the line went out.
pub fn send_post_fault<W: Write>(writer: &mut W, fault: PostFault) -> Result<(), WriteFailed>
    ensures ok { OnOk result (Appends (W.contents writer.old) (W.contents writer.new) (post_fault_line_of fault)) }
    ensures err { OnErr result (SentSome (W.contents writer.old) (W.contents writer.new) (post_fault_line_of fault)) }
{
    send_numbered(writer, "refused ", fault.number(), fault.name())
}

/// The line of an outcome, as `ok node 1 steps 3`. The only error is want of memory.
pub fn outcome_line(alloc: Global, outcome: &Outcome) -> Result<String, AllocError>
    ensures { IfOk result (λ line. string_bytes line ≡ outcome_line_of outcome.now) }
{
    let mut octets = Vec::new(alloc);
    match send_outcome(&mut octets, outcome) {
        Ok(()) => Ok(as_text(octets)),
        Err(_) => Err(AllocError),
    }
}

/// The line of a post that was refused, as `refused 75 Closing`. The only error is want of memory.
pub fn post_fault_line(alloc: Global, fault: PostFault) -> Result<String, AllocError>
    ensures { IfOk result (λ line. string_bytes line ≡ post_fault_line_of fault) }
{
    let mut octets = Vec::new(alloc);
    match send_post_fault(&mut octets, fault) {
        Ok(()) => Ok(as_text(octets)),
        Err(_) => Err(AllocError),
    }
}

/// The line of a fault, as `fault 57 DivisionByZero`. The only error is want of memory.
pub fn fault_line(alloc: Global, fault: Fault) -> Result<String, AllocError>
    ensures { IfOk result (λ line. string_bytes line ≡ fault_text fault) }
{
    let mut octets = Vec::new(alloc);
    match send_fault(&mut octets, fault) {
        Ok(()) => Ok(as_text(octets)),
        Err(_) => Err(AllocError),
    }
}

/// The line of a refusal, with its place where it has one, as `refused 43 SelfUse at 5..6`. The only error is want of memory.
pub fn refusal_line(alloc: Global, refusal: Refusal) -> Result<String, AllocError>
    ensures { IfOk result (λ line. string_bytes line ≡ refusal_text refusal) }
{
    let mut octets = Vec::new(alloc);
    match send_refusal(&mut octets, refusal) {
        Ok(()) => Ok(as_text(octets)),
        Err(_) => Err(AllocError),
    }
}
