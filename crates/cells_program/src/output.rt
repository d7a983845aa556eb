//! The lines that are written: those of `kernel_text` with their LF, the position, and the line of a fault.
ghost use Rattle.std.specs.Prelude.{true, OnOk, OnErr};
ghost use Rattle.std.specs.Io.KnownBytes.{Appends};
ghost use Rattle.kernel_text.specs.Values.{shown};
ghost use Rattle.kernel_text.specs.Lines.{outcome_line, post_fault_line};
ghost use Rattle.exact_write.specs.Sent.{SentSome};
ghost use Rattle.kernel_text.specs.ValueTexts.{value_text};
ghost use Rattle.cells_program.specs.Ending.{fault_line};
ghost use Rattle.cells_program.specs.Lines.{ended_line};
ghost use Rattle.cells_program.specs.Shown.{position_line};
ghost use Rattle.cells_program.specs.Transcript.{told_outcome, told_refusal};

use crate::explanation::send_explained;
use crate::fault::RunFault;
use kernel_core::{Outcome, PostFault, Refusal};
use kernel_text::{ValueView, WriteFailed, send, send_counted};
use std::io::Write;

/// Writes the line of an outcome.
pub fn send_outcome<W: Write>(writer: &mut W, outcome: &Outcome) -> Result<(), WriteFailed>
    ensures ok { OnOk result (Appends (W.contents writer.old) (W.contents writer.new) (ended_line (outcome_line outcome.now))) }
    ensures err { OnErr result (SentSome (W.contents writer.old) (W.contents writer.new) (ended_line (outcome_line outcome.now))) }
{
    kernel_text::send_outcome(writer, outcome)?;
    send(writer, b"\n")
}

/// Writes the line of a cell's outcome, and behind that of a refused text why it is refused, if that is explained.
pub(crate) fn send_told<W: Write>(
    writer: &mut W,
    explains: bool,
    text: &str,
    outcome: &Outcome,
) -> Result<(), WriteFailed>
    ensures ok { OnOk result (Appends (W.contents writer.old) (W.contents writer.new) (told_outcome explains text.now outcome.now)) }
    ensures err { OnErr result (SentSome (W.contents writer.old) (W.contents writer.new) (told_outcome explains text.now outcome.now)) }
{
    match *outcome {
        Outcome::Refused(refusal) if explains => send_refused(writer, text, refusal),
        _ => send_outcome(writer, outcome),
    }
}

/// Writes the line of a refusal, and the one that explains it.
fn send_refused<W: Write>(writer: &mut W, text: &str, refusal: Refusal) -> Result<(), WriteFailed>
    ensures ok { OnOk result (Appends (W.contents writer.old) (W.contents writer.new) (told_refusal true text.now refusal)) }
    ensures err { OnErr result (SentSome (W.contents writer.old) (W.contents writer.new) (told_refusal true text.now refusal)) }
{
    send_outcome(writer, &Outcome::Refused(refusal))?;
    send_explained(writer, text, refusal)
}

/// Writes the line of a job that could not be posted.
pub fn send_post_fault<W: Write>(writer: &mut W, fault: PostFault) -> Result<(), WriteFailed>
    ensures ok { OnOk result (Appends (W.contents writer.old) (W.contents writer.new) (ended_line (post_fault_line fault))) }
    ensures err { OnErr result (SentSome (W.contents writer.old) (W.contents writer.new) (ended_line (post_fault_line fault))) }
{
    kernel_text::send_post_fault(writer, fault)?;
    send(writer, b"\n")
}

/// Writes the line of a name with its value.
pub fn send_value<W: Write>(
    writer: &mut W,
    name: &str,
    value: ValueView<'_>,
) -> Result<(), WriteFailed>
    ensures ok { OnOk result (Appends (W.contents writer.old) (W.contents writer.new) (ended_line (value_text (name.now, shown value.entry)))) }
    ensures err { OnErr result (SentSome (W.contents writer.old) (W.contents writer.new) (ended_line (value_text (name.now, shown value.entry)))) }
{
    kernel_text::send_value(writer, name, value)?;
    send(writer, b"\n")
}

/// Writes the line of the position.
pub fn send_position<W: Write>(writer: &mut W, node: u64) -> Result<(), WriteFailed>
    ensures ok { OnOk result (Appends (W.contents writer.old) (W.contents writer.new) (ended_line (position_line node))) }
    ensures err { OnErr result (SentSome (W.contents writer.old) (W.contents writer.new) (ended_line (position_line node))) }
{
    send_counted(writer, "at node ", node)?;
    send(writer, b"\n")
}

/// Writes the line of a fault that ended a run.
pub fn send_run_fault<W: Write>(writer: &mut W, fault: RunFault) -> Result<(), WriteFailed>
    ensures ok { OnOk result (Appends (W.contents writer.old) (W.contents writer.new) (fault_line fault)) }
    ensures err { OnErr result (SentSome (W.contents writer.old) (W.contents writer.new) (fault_line fault)) }
{
    send(writer, fault.line().as_bytes())
}
