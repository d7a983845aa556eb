//! The program over any reader and writer.
ghost use Rattle.std.specs.Prelude.{◌≡◌, ◌≢◌, ◌==◌, ◌+◌, ℕ, false, true, List, [], length, string_bytes, IfErr, IfSome, MatchResult, OnOk, OnErr};
ghost use Rattle.std.specs.List.{position_or_len};
ghost use Rattle.std.specs.Io.KnownBytes.{Appends, Keeps};
ghost use Rattle.kernel_core.specs.Runs.{Machine, IsRefusal};
ghost use Rattle.kernel_core.specs.Request.{request_of, RunCell};
ghost use Rattle.kernel_core.specs.State.{Idle, here};
ghost use Rattle.cells_program.specs.Gathering.{IsGathered};
ghost use Rattle.cells_program.specs.Lines.{ended_line, lines};
ghost use Rattle.cells_program.specs.Listing.{IsListed};
ghost use Rattle.cells_program.specs.Loop.{CommandServes, Does, LineServes, LinesServe, RunsRest, text_after};
ghost use Rattle.exact_write.specs.Sent.{SentSome};
ghost use Rattle.cells_program.specs.RunFault.{IsServed, IsWhyUnread, TakesAtMost, input_limit};
ghost use Rattle.cells_program.specs.Script.{script};
ghost use Rattle.cells_program.specs.Served.{Came, Serves};
ghost use Rattle.cells_program.specs.Shown.{world_text};
ghost use Rattle.cells_program.specs.Transcript.{ActionsServe, IsTranscript, IsTranscriptFor, came_line, told_cell};

use crate::choice::Choice;
use crate::command::Command;
use crate::counted::run_counted;
use crate::fault::RunFault;
use crate::gathered::Gathered;
use crate::lines::{is_command_line, split_line};
use crate::listing::list_text;
use crate::output::{send_outcome, send_position, send_post_fault, send_told, send_value};
use crate::serve::serve;
use kernel_core::{CellText, Job, Kernel, PostFault};
use kernel_text::{WriteFailed, send};
use std::alloc::Global;
use std::io::{Read, Write};
use std::marker::Brand;
use std::sync::ledger::{Blank, Ledger};

/// Reads all of the input, at most 16 MiB, and then runs it line by line: lines that begin with `%` are commands, all
/// others gather to the text of a cell. What a command answers is written before the next one is run. A cell that has not ended
/// after `steps` steps is interrupted; undo, redo and goto take all the steps that they need.
///
/// What is written is the transcript of what is read, which is at most 16 MiB of UTF-8. Faults are looked for in this order:
/// no memory for the start; a read that fails, input that is too long, no memory for the input; input that isn't text. Up to
/// there nothing is written. No more is read than 16 MiB and one octet, and that one only to tell that the input is too long.
/// A write that fails ends the run, and what was written is a beginning of the transcript.
///
/// The clauses speak of a reader and a writer whose octets are known, as those over memory; of others, as std's `Stdin` and
/// `Stdout`, which tell none, they say nothing.
pub fn run<R: Read, W: Write>(
    alloc: Global,
    steps: u64,
    reader: &mut R,
    writer: &mut W,
) -> Result<(), RunFault>
    ensures written { OnOk result (IfSome (R.remaining reader.old) (λ input.
        (out : List ℕ) × IsTranscript steps input out × Appends (W.contents writer.old) (W.contents writer.new) out)) }
    ensures served { MatchResult result (λ _. IfSome (R.remaining reader.old) IsServed)
        (λ fault. fault ≡ RunFault.Write → IfSome (R.remaining reader.old) IsServed) }
    ensures cut { IfErr result (λ fault. fault ≡ RunFault.Write → IfSome (R.remaining reader.old) (λ input.
        (out : List ℕ) × IsTranscript steps input out × SentSome (W.contents writer.old) (W.contents writer.new) out)) }
    ensures unread { IfErr result (λ fault. fault ≢ RunFault.Write → IfSome (R.remaining reader.old) (IsWhyUnread fault)) }
    ensures unwritten { IfErr result (λ fault. fault ≢ RunFault.Write → Keeps (W.contents writer.old) (W.contents writer.new)) }
    ensures taken { TakesAtMost (input_limit + 1) (R.remaining reader.old) (R.remaining reader.new) }
    ensures within { MatchResult result (λ _. TakesAtMost input_limit (R.remaining reader.old) (R.remaining reader.new))
        (λ fault. fault ≢ RunFault.TooLong → TakesAtMost input_limit (R.remaining reader.old) (R.remaining reader.new)) }
{
    let choice = Choice {
        steps,
        explains: false,
    };
    run_for(alloc, choice, reader, writer)
}

/// Does what [`run`] says, for what the words of a command line choose.
pub(crate) fn run_for<R: Read, W: Write>(
    alloc: Global,
    choice: Choice,
    reader: &mut R,
    writer: &mut W,
) -> Result<(), RunFault>
    ensures written { OnOk result (IfSome (R.remaining reader.old) (λ input.
        (out : List ℕ) × IsTranscriptFor choice input out × Appends (W.contents writer.old) (W.contents writer.new) out)) }
    ensures served { MatchResult result (λ _. IfSome (R.remaining reader.old) IsServed)
        (λ fault. fault ≡ RunFault.Write → IfSome (R.remaining reader.old) IsServed) }
    ensures cut { IfErr result (λ fault. fault ≡ RunFault.Write → IfSome (R.remaining reader.old) (λ input.
        (out : List ℕ) × IsTranscriptFor choice input out × SentSome (W.contents writer.old) (W.contents writer.new) out)) }
    ensures unread { IfErr result (λ fault. fault ≢ RunFault.Write → IfSome (R.remaining reader.old) (IsWhyUnread fault)) }
    ensures unwritten { IfErr result (λ fault. fault ≢ RunFault.Write → Keeps (W.contents writer.old) (W.contents writer.new)) }
    ensures taken { TakesAtMost (input_limit + 1) (R.remaining reader.old) (R.remaining reader.new) }
    ensures within { MatchResult result (λ _. TakesAtMost input_limit (R.remaining reader.old) (R.remaining reader.new))
        (λ fault. fault ≢ RunFault.TooLong → TakesAtMost input_limit (R.remaining reader.old) (R.remaining reader.new)) }
{
    run_counted::<Brand, R, W>(alloc, Blank::new(2), choice, reader, writer)
}

/// Runs the lines of a text, and then what is still gathered.
pub(crate) fn run_text<L: Ledger, W: Write>(
    alloc: Global,
    choice: Choice,
    kernel: &mut Kernel<L>,
    text: &str,
    writer: &mut W,
) -> Result<(), WriteFailed>
    requires idle { kernel.old.machine.state.job ≡ Idle }
    requires alone { kernel.old.machine.queue ≡ [] }
    ensures ok { OnOk result ((out : List ℕ) × ActionsServe choice (script text.now) kernel.old.machine out kernel.new.machine
        × Appends (W.contents writer.old) (W.contents writer.new) out) }
    ensures err { OnErr result ((out : List ℕ) × (new : Machine) × ActionsServe choice (script text.now) kernel.old.machine out new
        × SentSome (W.contents writer.old) (W.contents writer.new) out) }
{
    let mut gathered = Gathered::new(alloc);
    let mut rest = text;
    while let Some((line, more)) = split_line(rest) {
        run_line(alloc, choice, kernel, &mut gathered, line, writer)?;
        rest = more;
    }
    run_end(alloc, choice, kernel, &mut gathered, rest, writer)?;
    match writer.flush() {
        Ok(()) => Ok(()),
        Err(_) => Err(WriteFailed),
    }
}

/// Runs what is behind the last LF, a line unless it is empty, and then what is still gathered.
fn run_end<L: Ledger, W: Write>(
    alloc: Global,
    choice: Choice,
    kernel: &mut Kernel<L>,
    gathered: &mut Gathered,
    rest: &str,
    writer: &mut W,
) -> Result<(), WriteFailed>
    requires idle { kernel.old.machine.state.job ≡ Idle }
    requires alone { kernel.old.machine.queue ≡ [] }
    requires last { position_or_len (λ b. b == 10) rest.now ≡ length rest.now }
    ensures ok { OnOk result ((text : List ℕ) → IsGathered gathered.old text →
        (out : List ℕ) × LinesServe choice kernel.old.machine text (lines rest.now) out kernel.new.machine
        × Appends (W.contents writer.old) (W.contents writer.new) out) }
    ensures err { OnErr result ((text : List ℕ) → IsGathered gathered.old text →
        (out : List ℕ) × (new : Machine) × LinesServe choice kernel.old.machine text (lines rest.now) out new
        × SentSome (W.contents writer.old) (W.contents writer.new) out) }
{
    if rest.is_empty() {
        return run_rest(alloc, choice, kernel, gathered, writer);
    }
    run_line(alloc, choice, kernel, gathered, rest, writer)?;
    run_rest(alloc, choice, kernel, gathered, writer)
}

/// Gathers a line, or does what it commands.
fn run_line<L: Ledger, W: Write>(
    alloc: Global,
    choice: Choice,
    kernel: &mut Kernel<L>,
    gathered: &mut Gathered,
    line: &str,
    writer: &mut W,
) -> Result<(), WriteFailed>
    requires idle { kernel.old.machine.state.job ≡ Idle }
    requires alone { kernel.old.machine.queue ≡ [] }
    ensures idle { kernel.new.machine.state.job ≡ Idle }
    ensures alone { kernel.new.machine.queue ≡ [] }
    ensures gathers { (text : List ℕ) → IsGathered gathered.old text →
        IsGathered gathered.new (text_after text line.now) }
    ensures ok { OnOk result ((text : List ℕ) → IsGathered gathered.old text →
        (out : List ℕ) × LineServes choice kernel.old.machine text line.now out kernel.new.machine
        × Appends (W.contents writer.old) (W.contents writer.new) out) }
    ensures err { OnErr result ((text : List ℕ) → IsGathered gathered.old text →
        (out : List ℕ) × (new : Machine) × LineServes choice kernel.old.machine text line.now out new
        × SentSome (W.contents writer.old) (W.contents writer.new) out) }
{
    if !is_command_line(line) {
        gathered.add(line);
        return Ok(());
    }
    run_command(alloc, choice, kernel, gathered, Command::read(line), writer)
}

/// Does what a command asks for. Before any but `%%`, which runs the gathered text in any case, that is run unless it is blank.
fn run_command<L: Ledger, W: Write>(
    alloc: Global,
    choice: Choice,
    kernel: &mut Kernel<L>,
    gathered: &mut Gathered,
    command: Command,
    writer: &mut W,
) -> Result<(), WriteFailed>
    requires idle { kernel.old.machine.state.job ≡ Idle }
    requires alone { kernel.old.machine.queue ≡ [] }
    ensures idle { kernel.new.machine.state.job ≡ Idle }
    ensures alone { kernel.new.machine.queue ≡ [] }
    ensures taken { IsGathered gathered.new [] }
    ensures ok { OnOk result ((text : List ℕ) → IsGathered gathered.old text →
        (out : List ℕ) × CommandServes choice command kernel.old.machine text out kernel.new.machine
        × Appends (W.contents writer.old) (W.contents writer.new) out) }
    ensures err { OnErr result ((text : List ℕ) → IsGathered gathered.old text →
        (out : List ℕ) × (new : Machine) × CommandServes choice command kernel.old.machine text out new
        × SentSome (W.contents writer.old) (W.contents writer.new) out) }
{
    if let Command::Run = command {
        return run_cell(alloc, choice, kernel, gathered, writer);
    }
    run_rest(alloc, choice, kernel, gathered, writer)?;
    obey(alloc, choice, kernel, command, writer)
}

/// Does what a command other than `%%` asks for.
fn obey<L: Ledger, W: Write>(
    alloc: Global,
    choice: Choice,
    kernel: &mut Kernel<L>,
    command: Command,
    writer: &mut W,
) -> Result<(), WriteFailed>
    requires other { command ≢ Command.Run }
    requires idle { kernel.old.machine.state.job ≡ Idle }
    requires alone { kernel.old.machine.queue ≡ [] }
    ensures idle { kernel.new.machine.state.job ≡ Idle }
    ensures alone { kernel.new.machine.queue ≡ [] }
    ensures ok { OnOk result ((out : List ℕ) × Does choice command kernel.old.machine out kernel.new.machine
        × Appends (W.contents writer.old) (W.contents writer.new) out) }
    ensures err { OnErr result ((out : List ℕ) × Does choice command kernel.old.machine out kernel.new.machine
        × SentSome (W.contents writer.old) (W.contents writer.new) out) }
{
    match command {
        Command::Undo(k) => run_job(choice.steps, kernel, Job::Undo(k), writer),
        Command::Redo(k) => run_job(choice.steps, kernel, Job::Redo(k), writer),
        Command::Goto(n) => run_job(choice.steps, kernel, Job::Goto(n), writer),
        Command::Show => show(kernel, writer),
        Command::List => list(alloc, kernel, writer),
        Command::Run | Command::Unknown => send(writer, b"refused 80 BadCommand\n"),
    }
}

/// Runs the gathered text as a cell, unless it is blank; it is gathered no longer.
fn run_rest<L: Ledger, W: Write>(
    alloc: Global,
    choice: Choice,
    kernel: &mut Kernel<L>,
    gathered: &mut Gathered,
    writer: &mut W,
) -> Result<(), WriteFailed>
    requires idle { kernel.old.machine.state.job ≡ Idle }
    requires alone { kernel.old.machine.queue ≡ [] }
    ensures idle { kernel.new.machine.state.job ≡ Idle }
    ensures alone { kernel.new.machine.queue ≡ [] }
    ensures taken { IsGathered gathered.new [] }
    ensures ok { OnOk result ((text : List ℕ) → IsGathered gathered.old text →
        (out : List ℕ) × RunsRest choice kernel.old.machine text out kernel.new.machine
        × Appends (W.contents writer.old) (W.contents writer.new) out) }
    ensures err { OnErr result ((text : List ℕ) → IsGathered gathered.old text →
        (out : List ℕ) × RunsRest choice kernel.old.machine text out kernel.new.machine
        × SentSome (W.contents writer.old) (W.contents writer.new) out) }
{
    if gathered.has_text {
        return run_cell(alloc, choice, kernel, gathered, writer);
    }
    let _blank = gathered.take(alloc);
    Ok(())
}

/// Runs the gathered text as a cell; it is gathered no longer.
fn run_cell<L: Ledger, W: Write>(
    alloc: Global,
    choice: Choice,
    kernel: &mut Kernel<L>,
    gathered: &mut Gathered,
    writer: &mut W,
) -> Result<(), WriteFailed>
    requires idle { kernel.old.machine.state.job ≡ Idle }
    requires alone { kernel.old.machine.queue ≡ [] }
    ensures idle { kernel.new.machine.state.job ≡ Idle }
    ensures alone { kernel.new.machine.queue ≡ [] }
    ensures taken { IsGathered gathered.new [] }
    ensures ok { OnOk result ((text : List ℕ) → IsGathered gathered.old text →
        (came : Came) × Serves choice.steps kernel.old.machine (RunCell text false true) came kernel.new.machine
        × Appends (W.contents writer.old) (W.contents writer.new) (told_cell choice.explains text came)) }
    ensures err { OnErr result ((text : List ℕ) → IsGathered gathered.old text →
        (came : Came) × Serves choice.steps kernel.old.machine (RunCell text false true) came kernel.new.machine
        × SentSome (W.contents writer.old) (W.contents writer.new) (told_cell choice.explains text came)) }
{
    match shared_text(alloc, gathered) {
        Some(code) => run_code(choice, kernel, code, writer),
        None => send_post_fault(writer, lost_text(kernel)),
    }
}

/// Runs a cell of this text, and writes what came of it.
fn run_code<L: Ledger, W: Write>(
    choice: Choice,
    kernel: &mut Kernel<L>,
    code: CellText,
    writer: &mut W,
) -> Result<(), WriteFailed>
    requires idle { kernel.old.machine.state.job ≡ Idle }
    requires alone { kernel.old.machine.queue ≡ [] }
    ensures ok { OnOk result ((came : Came) × Serves choice.steps kernel.old.machine (RunCell code false true) came kernel.new.machine
        × Appends (W.contents writer.old) (W.contents writer.new) (told_cell choice.explains code came)) }
    ensures err { OnErr result ((came : Came) × Serves choice.steps kernel.old.machine (RunCell code false true) came kernel.new.machine
        × SentSome (W.contents writer.old) (W.contents writer.new) (told_cell choice.explains code came)) }
    ensures idle { kernel.new.machine.state.job ≡ Idle }
    ensures alone { kernel.new.machine.queue ≡ [] }
{
    let Ok(text) = code.clone() else {
        return send_post_fault(writer, lost_text(kernel));
    };
    let job = Job::Cell {
        code,
        silent: false,
        store: true,
    };
    match serve(kernel, choice.steps, job) {
        Ok(outcome) => send_told(writer, choice.explains, text.as_str(), &outcome),
        Err(fault) => send_post_fault(writer, fault),
    }
}

/// The gathered text, for a job and the minutes to share; `None` where there was no memory for it. It is gathered no longer.
fn shared_text(alloc: Global, gathered: &mut Gathered) -> Option<CellText>
    ensures taken { IsGathered gathered.new [] }
    ensures kept { IfSome result (λ text. gathered.old.lost ≡ false) }
    ensures text { IfSome result (λ text. text ≡ string_bytes gathered.old.text) }
{
    let text = gathered.take(alloc)?;
    CellText::new(alloc, text).ok()
}

/// Why a cell is not posted for whose text there was no memory: that, unless any post is refused now.
fn lost_text<L: Ledger>(kernel: &Kernel<L>) -> PostFault
    ensures { IsRefusal kernel.now.machine result }
{
    match kernel.post_fault() {
        Some(fault) => fault,
        None => PostFault::Memory,
    }
}

/// Brings a job that is no cell to its end, and writes what came of it.
fn run_job<L: Ledger, W: Write>(
    steps: u64,
    kernel: &mut Kernel<L>,
    job: Job,
    writer: &mut W,
) -> Result<(), WriteFailed>
    requires idle { kernel.old.machine.state.job ≡ Idle }
    requires alone { kernel.old.machine.queue ≡ [] }
    ensures ok { OnOk result ((came : Came) × Serves steps kernel.old.machine (request_of job) came kernel.new.machine
        × Appends (W.contents writer.old) (W.contents writer.new) (ended_line (came_line came))) }
    ensures err { OnErr result ((came : Came) × Serves steps kernel.old.machine (request_of job) came kernel.new.machine
        × SentSome (W.contents writer.old) (W.contents writer.new) (ended_line (came_line came))) }
    ensures idle { kernel.new.machine.state.job ≡ Idle }
    ensures alone { kernel.new.machine.queue ≡ [] }
{
    match serve(kernel, steps, job) {
        Ok(outcome) => send_outcome(writer, &outcome),
        Err(fault) => send_post_fault(writer, fault),
    }
}

/// Writes the position, and the declared names with their values.
fn show<L: Ledger, W: Write>(kernel: &Kernel<L>, writer: &mut W) -> Result<(), WriteFailed>
    requires idle { kernel.now.machine.state.job ≡ Idle }
    ensures ok { OnOk result (Appends (W.contents writer.old) (W.contents writer.new) (world_text kernel.now.machine.state.past)) }
    ensures err { OnErr result (SentSome (W.contents writer.old) (W.contents writer.new) (world_text kernel.now.machine.state.past)) }
{
    send_position(writer, kernel.position() as u64)?;
    let world = kernel.world();
    for i in 0..world.len() {
        let (name, value) = world.entry(i);
        send_value(writer, name, value)?;
    }
    Ok(())
}

/// Writes the procedures that can be called, one a line, by name. Where there is no memory for them it writes that.
fn list<L: Ledger, W: Write>(
    alloc: Global,
    kernel: &Kernel<L>,
    writer: &mut W,
) -> Result<(), WriteFailed>
    requires idle { kernel.now.machine.state.job ≡ Idle }
    ensures ok { OnOk result
        ((out : List ℕ) × IsListed (here kernel.now.machine.state.past) out × Appends (W.contents writer.old) (W.contents writer.new) out) }
    ensures err { OnErr result
        ((out : List ℕ) × IsListed (here kernel.now.machine.state.past) out × SentSome (W.contents writer.old) (W.contents writer.new) out) }
{
    match list_text(alloc, kernel) {
        Ok(text) => send(writer, text.as_bytes()),
        Err(_) => send_post_fault(writer, PostFault::Memory),
    }
}
