//! All of it over a file's text.
ghost use Rattle.std.specs.Prelude.{◌≡◌, ◌∷◌, ◌++◌, [], ◌<◌, ℕ, List, IfOk, IsOk, IsErrOf, OnOk, OnErr, map, string_bytes};
ghost use Rattle.std.specs.Io.KnownBytes.{Appends, Keeps};
ghost use Rattle.std.specs.declared.marker.Brand.{Brand as TheBrand};
ghost use Rattle.exact_write.specs.Sent.{SentSome};
ghost use Rattle.kernel_machine.specs.LegalState.{IsLegalState};
ghost use Rattle.kernel_machine.specs.Runs.{IsBegin, new_machine};
ghost use Rattle.steps_walk.specs.Walk.{IsWalking, Moves};
ghost use Rattle.steps_walk.specs.declared.walk.Walk.{Walk as TheWalk};
ghost use Rattle.steps_program.specs.declared.talk.Reply.TheVariants.{Place};
ghost use Rattle.steps_program.specs.Before.{Finds, Lacks, Stage, cell_of, sought, text_of};
ghost use Rattle.steps_program.specs.Told.{Answers};
ghost use Rattle.steps_program.specs.Transcript.{ReadsAll, ReadsLine, ReadsSome, Serves, Talked, Transcribes};
ghost use Rattle.steps_program.specs.Walked.{AreRead, Begins, Enters, StandsInside, TellsWalk, WalksThrough};

use crate::command::Command;
use crate::reply::answer;
use crate::source::{Source, Stray, count_cells, job_of, run_before};
use crate::talk::{Reply, obey};
use crate::text::are_read;
use cells_program::{Begun, Kernel, WriteFailed, send_outcome, send_post_fault};
use std::alloc::{AllocError, Global};
use std::io::{BufRead, Write};
use std::marker::Brand;
use std::sync::ledger::{Blank, Ledger};
use steps_walk::Walk;
use thiserror::Error;

/// Why a run ends before its commands are obeyed.
#[derive(Clone, Copy, Debug, Error)]
pub enum RunFault {
    /// The file has no cell of the number.
    #[error("no such cell")]
    NoCell,
    /// The text of the cell, or of one before it, is refused.
    #[error("refused")]
    Refused,
    /// The tree of a cell is not that of its text: each text is read once more before the walk begins, and no file is known for which that is so.
    #[error("a cell differs from its text")]
    Differs,
    #[error("no memory")]
    Memory,
    #[error("cannot read")]
    Read,
    #[error("cannot write")]
    Write,
}

/// Why a walk ends, or doesn't begin, through a cell that the file has.
#[derive(Clone, Copy)]
pub(crate) enum Stop {
    Refused,
    Differs,
    Memory,
    Read,
    Write,
}

impl From<WriteFailed> for Stop {
    fn from(_: WriteFailed) -> Stop {
        Stop::Write
    }
}

impl From<AllocError> for Stop {
    fn from(_: AllocError) -> Stop {
        Stop::Memory
    }
}

/// What a walk through a cell comes to for the whole run: never that the file has no such cell.
fn told(ended: Result<(), Stop>) -> Result<(), RunFault>
    ensures ok { IsOk result → IsOk ended }
    ensures other { IsErrOf result RunFault.NoCell → ⊥ }
{
    match ended {
        Ok(()) => Ok(()),
        Err(Stop::Refused) => Err(RunFault::Refused),
        Err(Stop::Differs) => Err(RunFault::Differs),
        Err(Stop::Memory) => Err(RunFault::Memory),
        Err(Stop::Read) => Err(RunFault::Read),
        Err(Stop::Write) => Err(RunFault::Write),
    }
}

/// Walks through a cell of a file, by its number from 1, or through the last one: the cells before it are run, and then commands are read and obeyed until
/// there are none, or `quit`.
///
/// What is written is what comes of the cells before, as a new kernel serves them, and then the transcript of a walk through the one that is looked for: where
/// it begins, and the answers to the lines that are read. Of a run that ends with an error it is said only when the file has no such cell. The clause speaks of
/// a reader and a writer whose octets are known, as those over memory; of others, as std's `Stdin` and `Stdout`, which tell none, it says nothing.
pub fn run<R: BufRead + Drop, W: Write>(
    alloc: Global,
    file: &String,
    cell: Option<usize>,
    reader: &mut R,
    writer: &mut W,
) -> Result<(), RunFault>
    ensures ok { OnOk result ((out : List ℕ) × WalksThrough TheBrand cell (string_bytes file.now) (R.remaining reader.old) out
        × Appends (W.contents writer.old) (W.contents writer.new) out) }
    // The file was read to its end then, and what came of its cells is written.
    ensures no_cell { IsErrOf result RunFault.NoCell → (s : Stage) × (out : List ℕ)
        × Lacks (sought cell (string_bytes file.now)) (string_bytes file.now) new_machine s out × Appends (W.contents writer.old) (W.contents writer.new) out }
{
    run_counted::<Brand, R, W>(alloc, Blank::new(2), file, cell, reader, writer)
}

/// Does what [`run`] says. The blank opens the ledger of the kernel.
fn run_counted<L: Ledger, R: BufRead + Drop, W: Write>(
    alloc: Global,
    blank: Blank,
    file: &String,
    cell: Option<usize>,
    reader: &mut R,
    writer: &mut W,
) -> Result<(), RunFault>
    requires name { blank.name ≡ L.name }
    requires parts { blank.parts ≡ L.parts }
    requires two { 1 < L.parts }
    ensures ok { OnOk result ((out : List ℕ) × WalksThrough L cell (string_bytes file.now) (R.remaining reader.old) out
        × Appends (W.contents writer.old) (W.contents writer.new) out) }
    ensures no_cell { IsErrOf result RunFault.NoCell → (s : Stage) × (out : List ℕ)
        × Lacks (sought cell (string_bytes file.now)) (string_bytes file.now) new_machine s out × Appends (W.contents writer.old) (W.contents writer.new) out }
{
    let Ok(mut kernel) = Kernel::<L>::new(alloc, blank) else {
        return Err(RunFault::Memory);
    };
    let text = file.as_str();
    let number = number_of(text, cell);
    match run_before(alloc, &mut kernel, text, number, writer) {
        Ok(Some(found)) => told(walk_behind(alloc, kernel, found, reader, writer)),
        Ok(None) => {
            kernel.discard();
            Err(RunFault::NoCell)
        }
        Err(Stray::Memory) => {
            kernel.discard();
            Err(RunFault::Memory)
        }
        Err(Stray::Write) => {
            kernel.discard();
            Err(RunFault::Write)
        }
    }
}

/// The number of the cell that is looked for, or of the last one.
fn number_of(file: &str, cell: Option<usize>) -> usize
    ensures { result ≡ sought cell file.now }
{
    match cell {
        Some(number) => number,
        None => count_cells(file),
    }
}

/// Begins the cell that was found, and walks through it.
fn walk_behind<L: Ledger, R: BufRead + Drop, W: Write>(
    alloc: Global,
    kernel: Kernel<L>,
    found: (Source, Vec<Source>),
    reader: &mut R,
    writer: &mut W,
) -> Result<(), Stop>
    ensures { OnOk result ((walk : TheWalk L) × (out : List ℕ) × IsWalking walk × Enters kernel.machine (string_bytes found.0.text) walk
        × TellsWalk (map text_of found.1.items ++ text_of found.0 ∷ []) walk (R.remaining reader.old) out
        × Appends (W.contents writer.old) (W.contents writer.new) out) }
{
    let (source, sources) = found;
    let walk = enter(alloc, kernel, source.text.as_str(), writer)?;
    walk_among(alloc, walk, sources, source, reader, writer)
}

/// Walks through a cell, whose text stands behind those of the cells before it.
fn walk_among<L: Ledger, R: BufRead + Drop, W: Write>(
    alloc: Global,
    walk: Walk<L>,
    sources: Vec<Source>,
    source: Source,
    reader: &mut R,
    writer: &mut W,
) -> Result<(), Stop>
    requires { IsWalking walk }
    ensures { OnOk result ((out : List ℕ) × TellsWalk (map text_of sources.items ++ text_of source ∷ []) walk (R.remaining reader.old) out
        × Appends (W.contents writer.old) (W.contents writer.new) out) }
{
    let mut sources = sources;
    match sources.push(source) {
        Ok(()) => walk_as_read(alloc, walk, sources.as_slice(), reader, writer),
        Err(_) => {
            walk.discard();
            Err(Stop::Memory)
        }
    }
}

/// Walks through a cell, if the places that are told are those of the texts.
fn walk_as_read<L: Ledger, R: BufRead + Drop, W: Write>(
    alloc: Global,
    walk: Walk<L>,
    sources: &[Source],
    reader: &mut R,
    writer: &mut W,
) -> Result<(), Stop>
    requires { IsWalking walk }
    ensures read { OnOk result (AreRead sources.now walk) }
    ensures tells { OnOk result ((out : List ℕ) × Transcribes sources.now walk (ReadsAll (R.remaining reader.old)) out
        × Appends (W.contents writer.old) (W.contents writer.new) out) }
{
    match are_read(alloc, &walk, sources) {
        Ok(true) => walk_through(alloc, walk, sources, reader, writer),
        Ok(false) => {
            walk.discard();
            Err(Stop::Differs)
        }
        Err(_) => {
            walk.discard();
            Err(Stop::Memory)
        }
    }
}

/// Begins a cell, and takes it out of the kernel, to be walked through. Where its text is refused, that is told.
fn enter<L: Ledger, W: Write>(
    alloc: Global,
    kernel: Kernel<L>,
    text: &str,
    writer: &mut W,
) -> Result<Walk<L>, Stop>
    ensures walks { IfOk result IsWalking }
    ensures enters { IfOk result (Enters kernel.machine text.now) }
    ensures silent { OnOk result (writer.new ≡ writer.old) }
{
    let mut kernel = kernel;
    match begin(alloc, &mut kernel, text, writer) {
        Ok(()) => taken_out(alloc, kernel),
        Err(fault) => {
            kernel.discard();
            Err(fault)
        }
    }
}

/// Takes the open cell out of the kernel, to be walked through.
fn taken_out<L: Ledger>(alloc: Global, kernel: Kernel<L>) -> Result<Walk<L>, Stop>
    ensures walks { IfOk result IsWalking }
    ensures stands { IfOk result (StandsInside kernel.machine) }
{
    legal_law(&kernel);
    let Some(open) = kernel.into_open_cell() else {
        return Err(Stop::Refused);
    };
    match Walk::of(alloc, open) {
        Ok(walk) => Ok(walk),
        Err(_) => Err(Stop::Memory),
    }
}

/// Law: the state of a kernel is legal.
fn legal_law<L: Ledger>(kernel: &Kernel<L>)
    ensures { IsLegalState kernel.now.machine.state }
{
    let _world = kernel.world();
}

/// Posts a cell, and begins it.
fn begin<L: Ledger, W: Write>(
    alloc: Global,
    kernel: &mut Kernel<L>,
    text: &str,
    writer: &mut W,
) -> Result<(), Stop>
    ensures begins { OnOk result (Begins kernel.old.machine text.now kernel.new.machine) }
    ensures silent { OnOk result (writer.new ≡ writer.old) }
{
    let job = job_of(alloc, text)?;
    match kernel.post(0, job) {
        Ok(_) => begin_posted(kernel, writer),
        Err(fault) => {
            send_post_fault(writer, fault)?;
            Err(Stop::Refused)
        }
    }
}

/// Begins the cell that is posted.
fn begin_posted<L: Ledger, W: Write>(kernel: &mut Kernel<L>, writer: &mut W) -> Result<(), Stop>
    ensures begins { OnOk result (IsBegin kernel.old.machine Begun.Going kernel.new.machine) }
    ensures silent { OnOk result (writer.new ≡ writer.old) }
{
    match kernel.begin() {
        Begun::Going => Ok(()),
        Begun::Ended(outcome) => {
            send_outcome(writer, &outcome)?;
            Err(Stop::Refused)
        }
        Begun::Nothing => Err(Stop::Refused),
    }
}

/// Tells where the walk begins, and obeys.
fn walk_through<L: Ledger, R: BufRead + Drop, W: Write>(
    alloc: Global,
    walk: Walk<L>,
    sources: &[Source],
    reader: &mut R,
    writer: &mut W,
) -> Result<(), Stop>
    requires { IsWalking walk }
    ensures ok { OnOk result ((out : List ℕ) × Transcribes sources.now walk (ReadsAll (R.remaining reader.old)) out
        × Appends (W.contents writer.old) (W.contents writer.new) out) }
    ensures err { OnErr result ((out : List ℕ) × Transcribes sources.now walk (ReadsSome (R.remaining reader.old)) out
        × SentSome (W.contents writer.old) (W.contents writer.new) out) }
{
    let mut walk = walk;
    let ended = talk_through(alloc, &mut walk, sources, reader, writer);
    walk.discard();
    ended
}

/// Tells where the walk begins, and obeys.
fn talk_through<L: Ledger, R: BufRead + Drop, W: Write>(
    alloc: Global,
    walk: &mut Walk<L>,
    sources: &[Source],
    reader: &mut R,
    writer: &mut W,
) -> Result<(), Stop>
    requires { IsWalking walk.old }
    ensures ok { OnOk result ((out : List ℕ) × Transcribes sources.now walk.old (ReadsAll (R.remaining reader.old)) out
        × Appends (W.contents writer.old) (W.contents writer.new) out) }
    ensures err { OnErr result ((out : List ℕ) × Transcribes sources.now walk.old (ReadsSome (R.remaining reader.old)) out
        × SentSome (W.contents writer.old) (W.contents writer.new) out) }
{
    begin_talk(alloc, walk, sources, writer)?;
    obey_all(alloc, walk, sources, reader, writer)
}

/// Tells where the walk begins.
fn begin_talk<L: Ledger, W: Write>(
    alloc: Global,
    walk: &Walk<L>,
    sources: &[Source],
    writer: &mut W,
) -> Result<(), Stop>
    ensures ok { OnOk result ((out : List ℕ) × Answers sources.now Place walk.now out × Appends (W.contents writer.old) (W.contents writer.new) out) }
    ensures err { OnErr result ((out : List ℕ) × Answers sources.now Place walk.now out × SentSome (W.contents writer.old) (W.contents writer.new) out) }
{
    match answer(alloc, writer, walk, sources, Reply::Place) {
        Ok(()) => flush(writer),
        Err(_) => Err(Stop::Write),
    }
}

/// Writes all that was held back.
fn flush<W: Write>(writer: &mut W) -> Result<(), Stop>
    ensures { Keeps (W.contents writer.old) (W.contents writer.new) }
{
    match writer.flush() {
        Ok(()) => Ok(()),
        Err(_) => Err(Stop::Write),
    }
}

/// Reads commands and obeys them, until there are none, or `quit`.
fn obey_all<L: Ledger, R: BufRead + Drop, W: Write>(
    alloc: Global,
    walk: &mut Walk<L>,
    sources: &[Source],
    reader: &mut R,
    writer: &mut W,
) -> Result<(), Stop>
    requires { IsWalking walk.old }
    ensures walks { IsWalking walk.new }
    ensures moves { Moves walk.old walk.new }
    ensures ok { OnOk result ((out : List ℕ) × Talked sources.now walk.old walk.new (ReadsAll (R.remaining reader.old)) out
        × Appends (W.contents writer.old) (W.contents writer.new) out) }
    ensures err { OnErr result ((out : List ℕ) × Talked sources.now walk.old walk.new (ReadsSome (R.remaining reader.old)) out
        × SentSome (W.contents writer.old) (W.contents writer.new) out) }
{
    let mut line = String::new(alloc);
    for _ in 0..u64::MAX {
        let some = read_line(reader, &mut line)?;
        if !some {
            return Ok(());
        }
        let command = Command::read(line.as_str());
        if command.is_quit() {
            return Ok(());
        }
        obey_one(alloc, walk, sources, command, writer)?;
    }
    Ok(())
}

/// Reads the next line; none is left where it answers false.
fn read_line<R: BufRead + Drop>(reader: &mut R, line: &mut String) -> Result<bool, Stop>
    ensures { IfOk result (λ some. ReadsLine some (R.remaining reader.old) (R.remaining reader.new) (string_bytes line.new)) }
{
    line.clear();
    match reader.read_line(line) {
        Ok(count) => Ok(count > 0),
        Err(_) => Err(Stop::Read),
    }
}

/// Does what a command asks for, and writes all of its answer.
fn obey_one<L: Ledger, W: Write>(
    alloc: Global,
    walk: &mut Walk<L>,
    sources: &[Source],
    command: Command<'_>,
    writer: &mut W,
) -> Result<(), Stop>
    requires { IsWalking walk.old }
    ensures walks { IsWalking walk.new }
    ensures moves { Moves walk.old walk.new }
    ensures ok { OnOk result ((out : List ℕ) × Serves sources.now command.entry walk.old walk.new out
        × Appends (W.contents writer.old) (W.contents writer.new) out) }
    // The walk has done what was asked for, also where the answer did not go out whole.
    ensures err { OnErr result ((out : List ℕ) × Serves sources.now command.entry walk.old walk.new out
        × SentSome (W.contents writer.old) (W.contents writer.new) out) }
{
    let reply = obey(alloc, walk, sources, command);
    match answer(alloc, writer, walk, sources, reply) {
        Ok(()) => flush(writer),
        Err(_) => Err(Stop::Write),
    }
}
