//! The cells of a file: those before the one that is walked through are run, and the lines between them obeyed.

ghost use Rattle.std.specs.Prelude.{◌≡◌, ℕ, List, [], None, Some, IfOk, IfSome, IfNone, OnOk, false, true, map, string_bytes};
ghost use Rattle.std.specs.Io.KnownBytes.{Appends};
ghost use Rattle.std.specs.Option.{MatchOption};
ghost use Rattle.kernel_core.specs.Request.{RunCell, request_of};
ghost use Rattle.kernel_core.specs.Runs.{Machine as TheMachine};
ghost use Rattle.cells_program.specs.Lines.{is_blank as is_blank_text};
ghost use Rattle.cells_program.specs.State.{Idle};
ghost use Rattle.steps_program.specs.Before.{CommandLeads, Finds, IsServed, Lacks, LineLeads, Moves, RunsAs, RunsIf, Stage, begun_behind, cell_of, cell_words};
ghost use Rattle.steps_program.specs.Before.{cells_in, counted_with, ends_before as ends_before_of, first_stage, is_cell as is_cell_of, kept_as, node_of};
ghost use Rattle.steps_program.specs.Before.{counted_on as counted_on_of, ran_in, runs_before, stage_of, taken, text_of, with_line};
ghost use Rattle.steps_program.specs.Places.{source_of as source_of_node};

use crate::place::split_line;
use cells_program::{
    CellText, Command, Job, Kernel, Outcome, WriteFailed, is_blank, is_command_line, send,
    send_counted, send_outcome, send_post_fault, serve_job,
};
use std::alloc::{AllocError, Global};
use std::io::Write;
use std::sync::ledger::Ledger;

/// The text of a cell, the line of the file on which it begins, from 1, and the node that it has become; none of the one that is walked through.
#[derive(Drop)]
pub(crate) struct Source {
    pub(crate) text: String,
    pub(crate) first_line: usize,
    pub(crate) node: Option<usize>,
}

/// Why a file isn't read as far as the cell that is looked for.
#[derive(Clone, Copy)]
pub(crate) enum Stray {
    Memory,
    Write,
}

impl From<AllocError> for Stray {
    fn from(_: AllocError) -> Stray {
        Stray::Memory
    }
}

impl From<WriteFailed> for Stray {
    fn from(_: WriteFailed) -> Stray {
        Stray::Write
    }
}

/// How many steps each of the cells before may take.
const STEPS: u64 = 1_000_000_000_000;

/// A file as far as it is read.
#[derive(Drop)]
pub(crate) struct Reading {
    /// The cells that have become nodes.
    pub(crate) sources: Vec<Source>,
    /// The lines since the last command.
    pub(crate) gathered: String,
    /// The number of the first of them, from 1.
    pub(crate) first_line: usize,
    /// The number of the next line.
    pub(crate) next_line: usize,
    /// How many texts were taken that are not blank.
    pub(crate) number: usize,
}

impl Reading {
    /// None of a file.
    fn new(alloc: Global) -> Reading
        ensures { (m : TheMachine) → stage_of m result ≡ first_stage m }
    {
        Reading {
            sources: Vec::new(alloc),
            gathered: String::new(alloc),
            first_line: 1,
            next_line: 1,
            number: 0,
        }
    }

    /// Gathers a line; the only error is want of memory.
    fn add(&mut self, line: &str) -> Result<(), AllocError>
        ensures { OnOk result ((m : TheMachine) → stage_of m self.new ≡ with_line (stage_of m self.old) line.now) }
    {
        self.gathered.push_str(line)?;
        self.gathered.push('\n')?;
        self.next_line = self.next_line.saturating_add(1);
        Ok(())
    }

    /// Whether the text that is gathered is the cell of this number.
    fn is_cell(&self, number: usize) -> bool
        ensures { (m : TheMachine) → result ≡ is_cell_of number (stage_of m self.now) }
    {
        if is_blank(self.gathered.as_str()) {
            return false;
        }
        self.number.saturating_add(1) == number
    }

    /// Whether the cell of this number ends before a line.
    fn ends_before(&self, line: &str, number: usize) -> bool
        ensures { (m : TheMachine) → result ≡ ends_before_of number (stage_of m self.now) line.now }
    {
        if !is_command_line(line) {
            return false;
        }
        self.is_cell(number)
    }

    /// Takes the text that is gathered.
    fn take(&mut self, alloc: Global) -> Source
        ensures text { (m : TheMachine) → text_of result ≡ cell_of (stage_of m self.old) }
        ensures left { (m : TheMachine) → stage_of m self.new ≡ taken (stage_of m self.old) }
    {
        let text = std::mem::replace(&mut self.gathered, String::new(alloc));
        self.number = counted_on(is_blank(text.as_str()), self.number);
        Source {
            text,
            first_line: self.first_line,
            node: None,
        }
    }

    /// The text that is gathered, and the cells that have become nodes.
    fn found(self) -> (Source, Vec<Source>)
        ensures source { (m : TheMachine) → text_of result.0 ≡ cell_of (stage_of m self) }
        ensures ran { (m : TheMachine) → map text_of result.1.items ≡ ran_in (stage_of m self) }
    {
        let Reading {
            sources,
            gathered,
            first_line,
            ..
        } = self;
        let source = Source {
            text: gathered,
            first_line,
            node: None,
        };
        (source, sources)
    }

    /// Begins the next text behind a command.
    fn begin_text(&mut self)
        ensures { (m : TheMachine) → stage_of m self.new ≡ begun_behind (stage_of m self.old) }
    {
        self.next_line = self.next_line.saturating_add(1);
        self.first_line = self.next_line;
    }

    /// Keeps a text that has become a node; the only error is want of memory.
    fn keep(&mut self, source: Source, outcome: Outcome) -> Result<(), AllocError>
        ensures { OnOk result ((m : TheMachine) → stage_of m self.new
            ≡ record (stage_of m self.old) { ran = kept_as (text_of source) (node_of outcome) (map text_of self.old.sources.items) }) }
    {
        let Outcome::Ran(node, _) = outcome else {
            return Ok(());
        };
        let Source {
            text,
            first_line,
            ..
        } = source;
        let kept = Source {
            text,
            first_line,
            node: Some(node),
        };
        if self.sources.push(kept).is_err() {
            return Err(AllocError);
        }
        Ok(())
    }
}

/// The number of a text behind so many others: a blank one is not counted.
fn counted_on(blank: bool, number: usize) -> usize
    ensures { result ≡ counted_on_of blank number }
{
    if blank {
        number
    } else {
        number.saturating_add(1)
    }
}

/// How many cells the lines of a file have so far, and whether the text since the last command is one of them.
#[derive(Clone, Copy)]
pub(crate) struct Counted {
    pub(crate) number: usize,
    pub(crate) has_text: bool,
}

impl Counted {
    /// What it comes to with one line more.
    fn added(self, line: &str) -> Counted
        ensures { result ≡ counted_with self line.now }
    {
        if is_command_line(line) {
            return Counted {
                number: self.number,
                has_text: false,
            };
        }
        if is_blank(line) {
            return self;
        }
        if self.has_text {
            return self;
        }
        Counted {
            number: self.number.saturating_add(1),
            has_text: true,
        }
    }
}

/// How many cells a file has that are not blank.
pub(crate) fn count_cells(file: &str) -> usize
    ensures { result ≡ cells_in file.now }
{
    let mut counted = Counted {
        number: 0,
        has_text: false,
    };
    let mut rest = file;
    while let Some((line, more)) = split_line(rest) {
        counted = counted.added(line);
        rest = more;
    }
    counted.added(rest).number
}

/// Runs the cells of a file that stand before the one of a number, obeys the lines between them, and gives the source of that cell, and those of the others.
/// None if the file has no such cell: then all of its cells have run but the last text.
pub(crate) fn run_before<L: Ledger, W: Write>(
    alloc: Global,
    kernel: &mut Kernel<L>,
    file: &str,
    number: usize,
    writer: &mut W,
) -> Result<Option<(Source, Vec<Source>)>, Stray>
    requires idle { kernel.old.machine.state.job ≡ Idle }
    requires alone { kernel.old.machine.queue ≡ [] }
    ensures idle { OnOk result (kernel.new.machine.state.job ≡ Idle) }
    ensures alone { OnOk result (kernel.new.machine.queue ≡ []) }
    ensures found { IfOk result (λ some. IfSome some (λ found. (s : Stage) × (out : List ℕ) × Finds number file.now kernel.old.machine s out
        × (s.machine ≡ kernel.new.machine) × (map text_of found.1.items ≡ s.ran) × (text_of found.0 ≡ cell_of s)
        × Appends (W.contents writer.old) (W.contents writer.new) out)) }
    ensures none { IfOk result (λ some. IfNone some ((s : Stage) × (out : List ℕ) × Lacks number file.now kernel.old.machine s out
        × Appends (W.contents writer.old) (W.contents writer.new) out)) }
{
    let mut reading = Reading::new(alloc);
    let mut rest = file;
    while let Some((line, more)) = split_line(rest) {
        if reading.ends_before(line, number) {
            return Ok(Some(reading.found()));
        }
        read_line(alloc, kernel, &mut reading, line, writer)?;
        rest = more;
    }
    if reading.ends_before(rest, number) {
        return Ok(Some(reading.found()));
    }
    read_line(alloc, kernel, &mut reading, rest, writer)?;
    if !reading.is_cell(number) {
        return Ok(None);
    }
    Ok(Some(reading.found()))
}

/// Gathers a line, or does what it commands.
fn read_line<L: Ledger, W: Write>(
    alloc: Global,
    kernel: &mut Kernel<L>,
    reading: &mut Reading,
    line: &str,
    writer: &mut W,
) -> Result<(), Stray>
    requires idle { kernel.old.machine.state.job ≡ Idle }
    requires alone { kernel.old.machine.queue ≡ [] }
    ensures idle { kernel.new.machine.state.job ≡ Idle }
    ensures alone { kernel.new.machine.queue ≡ [] }
    ensures leads { OnOk result ((out : List ℕ) × LineLeads line.now (stage_of kernel.old.machine reading.old) (stage_of kernel.new.machine reading.new) out
        × Appends (W.contents writer.old) (W.contents writer.new) out) }
{
    if !is_command_line(line) {
        reading.add(line)?;
        return Ok(());
    }
    obey_command(alloc, kernel, reading, Command::read(line), writer)
}

/// Runs the text before a command, and then does what that asks for.
fn obey_command<L: Ledger, W: Write>(
    alloc: Global,
    kernel: &mut Kernel<L>,
    reading: &mut Reading,
    command: Command,
    writer: &mut W,
) -> Result<(), Stray>
    requires idle { kernel.old.machine.state.job ≡ Idle }
    requires alone { kernel.old.machine.queue ≡ [] }
    ensures idle { kernel.new.machine.state.job ≡ Idle }
    ensures alone { kernel.new.machine.queue ≡ [] }
    ensures leads { OnOk result ((out : List ℕ) × CommandLeads command (stage_of kernel.old.machine reading.old) (stage_of kernel.new.machine reading.new) out
        × Appends (W.contents writer.old) (W.contents writer.new) out) }
{
    run_text(alloc, kernel, reading, command, writer)?;
    obey_line(kernel, command, writer)?;
    reading.begin_text();
    Ok(())
}

/// Runs the text that is gathered, if it is run before this command; it is gathered no longer.
fn run_text<L: Ledger, W: Write>(
    alloc: Global,
    kernel: &mut Kernel<L>,
    reading: &mut Reading,
    command: Command,
    writer: &mut W,
) -> Result<(), Stray>
    requires idle { kernel.old.machine.state.job ≡ Idle }
    requires alone { kernel.old.machine.queue ≡ [] }
    ensures idle { kernel.new.machine.state.job ≡ Idle }
    ensures alone { kernel.new.machine.queue ≡ [] }
    ensures runs { OnOk result ((out : List ℕ) × RunsIf (runs_before command (is_blank_text (string_bytes reading.old.gathered)))
        (stage_of kernel.old.machine reading.old) (stage_of kernel.new.machine reading.new) out
        × Appends (W.contents writer.old) (W.contents writer.new) out) }
{
    let source = reading.take(alloc);
    if !runs(&source, command) {
        return Ok(());
    }
    run_cell(alloc, kernel, reading, source, writer)
}

/// Whether a text is run before a command: all but a blank one, which `%%` alone runs.
fn runs(source: &Source, command: Command) -> bool
    ensures { result ≡ runs_before command (is_blank_text (string_bytes source.now.text)) }
{
    let is_blank = is_blank(source.text.as_str());
    match command {
        Command::Run => true,
        Command::Undo(_)
        | Command::Redo(_)
        | Command::Goto(_)
        | Command::Show
        | Command::List
        | Command::Unknown => !is_blank,
    }
}

/// A job that runs a text as a cell; the only error is want of memory.
pub(crate) fn job_of(alloc: Global, text: &str) -> Result<Job, AllocError>
    ensures { IfOk result (λ job. request_of job ≡ RunCell text.now false true) }
{
    let text = String::from_str(alloc, text)?;
    let code = CellText::new(alloc, text)?;
    Ok(Job::Cell {
        code,
        silent: false,
        store: true,
    })
}

/// Writes which cell runs, at once: a reader who waits for its end knows which one to walk through.
fn announce<W: Write>(writer: &mut W, number: usize) -> Result<(), WriteFailed>
    ensures { OnOk result (Appends (W.contents writer.old) (W.contents writer.new) (cell_words number)) }
{
    send_counted(writer, "cell ", number as u64)?;
    send(writer, b" ")?;
    match writer.flush() {
        Ok(()) => Ok(()),
        Err(_) => Err(WriteFailed),
    }
}

/// Runs a cell; its source is kept where it becomes a node.
fn run_cell<L: Ledger, W: Write>(
    alloc: Global,
    kernel: &mut Kernel<L>,
    reading: &mut Reading,
    source: Source,
    writer: &mut W,
) -> Result<(), Stray>
    requires idle { kernel.old.machine.state.job ≡ Idle }
    requires alone { kernel.old.machine.queue ≡ [] }
    ensures idle { kernel.new.machine.state.job ≡ Idle }
    ensures alone { kernel.new.machine.queue ≡ [] }
    ensures runs { OnOk result ((out : List ℕ) × RunsAs (text_of source) (stage_of kernel.old.machine reading.old) (stage_of kernel.new.machine reading.new) out
        × Appends (W.contents writer.old) (W.contents writer.new) out) }
{
    let job = job_of(alloc, source.text.as_str())?;
    announce(writer, reading.number)?;
    match serve_job(kernel, STEPS, job) {
        Ok(outcome) => {
            send_outcome(writer, &outcome)?;
            reading.keep(source, outcome)?;
            Ok(())
        }
        Err(fault) => {
            send_post_fault(writer, fault)?;
            Ok(())
        }
    }
}

/// Does what a line between cells asks for, where that moves the history.
fn obey_line<L: Ledger, W: Write>(
    kernel: &mut Kernel<L>,
    command: Command,
    writer: &mut W,
) -> Result<(), Stray>
    requires idle { kernel.old.machine.state.job ≡ Idle }
    requires alone { kernel.old.machine.queue ≡ [] }
    ensures idle { kernel.new.machine.state.job ≡ Idle }
    ensures alone { kernel.new.machine.queue ≡ [] }
    ensures moves { OnOk result ((out : List ℕ) × Moves command kernel.old.machine kernel.new.machine out
        × Appends (W.contents writer.old) (W.contents writer.new) out) }
{
    match command {
        Command::Undo(k) => run_job(kernel, Job::Undo(k), writer),
        Command::Redo(k) => run_job(kernel, Job::Redo(k), writer),
        Command::Goto(n) => run_job(kernel, Job::Goto(n), writer),
        Command::Run | Command::Show | Command::List | Command::Unknown => Ok(()),
    }
}

/// Brings a job that is no cell to its end, and writes what came of it.
fn run_job<L: Ledger, W: Write>(
    kernel: &mut Kernel<L>,
    job: Job,
    writer: &mut W,
) -> Result<(), Stray>
    requires idle { kernel.old.machine.state.job ≡ Idle }
    requires alone { kernel.old.machine.queue ≡ [] }
    ensures idle { kernel.new.machine.state.job ≡ Idle }
    ensures alone { kernel.new.machine.queue ≡ [] }
    ensures serves { OnOk result ((out : List ℕ) × IsServed (request_of job) kernel.old.machine kernel.new.machine out
        × Appends (W.contents writer.old) (W.contents writer.new) out) }
{
    match serve_job(kernel, STEPS, job) {
        Ok(outcome) => send_outcome(writer, &outcome)?,
        Err(fault) => send_post_fault(writer, fault)?,
    }
    Ok(())
}

/// The source of the cell of a node; of none, that of the cell that is walked through.
pub(crate) fn source_of(sources: &[Source], node: Option<usize>) -> Option<&Source>
    ensures { MatchOption result (source_of_node sources.now node ≡ None) (λ source. source_of_node sources.now node ≡ Some source.now) }
{
    for i in 0..sources.len() {
        let source = &sources[i];
        if source.node == node {
            return Some(source);
        }
    }
    None
}
