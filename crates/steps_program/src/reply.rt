//! What is written in answer to a command, by what there is to tell.
ghost use Rattle.std.specs.Prelude.{ℕ, List, IfOk, OnOk, OnErr};
ghost use Rattle.std.specs.Io.KnownBytes.{Appends};
ghost use Rattle.exact_write.specs.Sent.{SentSome};
ghost use Rattle.steps_walk.specs.Runner.{count_of};
ghost use Rattle.steps_walk.specs.Walk.{runner_of};
ghost use Rattle.steps_program.specs.Told.{Answers, Tells, TellsCame, TellsLeft, TellsMore, TellsReads, TellsSought, came_text, no_memory, refused_line, sought_text};

use crate::going::Came;
use crate::output::{
    send_calls, send_counted_line, send_list, send_named, send_named_line, send_names, send_read,
    send_where,
};
use crate::source::{Source, source_of};
use crate::talk::Reply;
use cells_program::{Fault, WriteFailed, send, send_counted};
use janus_syntax::SyntaxFault;
use std::alloc::{AllocError, Global};
use std::io::Write;
use std::sync::ledger::Ledger;
use steps_walk::Walk;

/// Writes that there is no memory.
fn send_no_memory<W: Write>(writer: &mut W) -> Result<(), WriteFailed>
    ensures ok { OnOk result (Appends (W.contents writer.old) (W.contents writer.new) no_memory) }
    ensures err { OnErr result (SentSome (W.contents writer.old) (W.contents writer.new) no_memory) }
{
    send(writer, b"refused no memory\n")
}

/// Writes why the text of an expression is refused.
fn send_refused<W: Write>(writer: &mut W, fault: SyntaxFault) -> Result<(), WriteFailed>
    ensures { OnOk result (Appends (W.contents writer.old) (W.contents writer.new) (refused_line fault)) }
{
    send_counted(writer, "refused ", fault.number() as u64)?;
    send_named_line(writer, fault.name())
}

/// Writes a fault, and behind how many steps it is met.
fn send_fault<W: Write>(writer: &mut W, fault: Fault, count: u64) -> Result<(), WriteFailed>
    ensures { OnOk result (Appends (W.contents writer.old) (W.contents writer.new) (came_text count (Came.Fault fault))) }
{
    send_counted(writer, "fault ", fault.number() as u64)?;
    send_named(writer, fault.name())?;
    send_counted_line(writer, " after ", count)
}

/// Writes where a command has led, before the step that comes next there.
fn send_end<W: Write>(writer: &mut W, came: Came, count: u64) -> Result<(), WriteFailed>
    ensures { OnOk result (Appends (W.contents writer.old) (W.contents writer.new) (came_text count came)) }
{
    match came {
        Came::There => Ok(()),
        Came::End => send_counted_line(writer, "ended after ", count),
        Came::Start => send(writer, b"at the start\n"),
        Came::Fault(fault) => send_fault(writer, fault, count),
        Came::Memory => send_no_memory(writer),
    }
}

/// Writes the values of the names that the next step reads.
fn send_reads<L: Ledger, W: Write>(
    alloc: Global,
    writer: &mut W,
    walk: &Walk<L>,
    sources: &[Source],
) -> Result<(), WriteFailed>
    ensures { OnOk result ((out : List ℕ) × TellsReads sources.now walk.now out × Appends (W.contents writer.old) (W.contents writer.new) out) }
{
    let Some((level, spot)) = walk.stand() else {
        return Err(WriteFailed);
    };
    let Some(sight) = walk.sight_here() else {
        return Err(WriteFailed);
    };
    let Some(source) = source_of(sources, level.node) else {
        return Ok(());
    };
    let Some(span) = spot.span else {
        return Ok(());
    };
    send_read(alloc, writer, walk, &sight, source.text.as_str(), span)
}

/// Writes what is told behind the step: at a fault the values that it reads.
fn send_more<L: Ledger, W: Write>(
    alloc: Global,
    writer: &mut W,
    walk: &Walk<L>,
    sources: &[Source],
    came: Came,
) -> Result<(), WriteFailed>
    ensures { OnOk result ((more : List ℕ) × TellsMore sources.now came walk.now more
        × Appends (W.contents writer.old) (W.contents writer.new) more) }
{
    match came {
        Came::Fault(_) => send_reads(alloc, writer, walk, sources),
        Came::There | Came::End | Came::Start | Came::Memory => Ok(()),
    }
}

/// Writes where a command has led.
fn send_came<L: Ledger, W: Write>(
    alloc: Global,
    writer: &mut W,
    walk: &Walk<L>,
    sources: &[Source],
    came: Came,
) -> Result<(), WriteFailed>
    ensures { OnOk result ((out : List ℕ) × TellsCame sources.now came walk.now out × Appends (W.contents writer.old) (W.contents writer.new) out) }
{
    send_end(writer, came, walk.count())?;
    send_where(writer, walk, sources)?;
    send_more(alloc, writer, walk, sources, came)
}

/// Writes that nothing was found, where a search has ended elsewhere.
fn send_not_found<W: Write>(writer: &mut W, came: Came) -> Result<(), WriteFailed>
    ensures { OnOk result (Appends (W.contents writer.old) (W.contents writer.new) (sought_text came)) }
{
    match came {
        Came::End => send(writer, b"not found\n"),
        Came::Start => send(writer, b"not found\n"),
        Came::Fault(_) => send(writer, b"not found\n"),
        Came::There => Ok(()),
        Came::Memory => Ok(()),
    }
}

/// Writes where a search has led, and before that whether it has found nothing.
fn send_sought<L: Ledger, W: Write>(
    alloc: Global,
    writer: &mut W,
    walk: &Walk<L>,
    sources: &[Source],
    came: Came,
) -> Result<(), WriteFailed>
    ensures { OnOk result ((out : List ℕ) × TellsSought sources.now came walk.now out × Appends (W.contents writer.old) (W.contents writer.new) out) }
{
    send_not_found(writer, came)?;
    send_came(alloc, writer, walk, sources, came)
}

/// Writes that the call is left, and where the walk has come.
fn send_left<L: Ledger, W: Write>(
    alloc: Global,
    writer: &mut W,
    walk: &Walk<L>,
    sources: &[Source],
) -> Result<(), WriteFailed>
    ensures { OnOk result ((out : List ℕ) × TellsLeft sources.now walk.now out × Appends (W.contents writer.old) (W.contents writer.new) out) }
{
    send(writer, b"call left\n")?;
    send_came(alloc, writer, walk, sources, Came::There)
}

/// Writes what there is to tell.
fn send_reply<L: Ledger, W: Write>(
    alloc: Global,
    writer: &mut W,
    walk: &Walk<L>,
    sources: &[Source],
    reply: Reply,
) -> Result<(), WriteFailed>
    ensures { OnOk result ((out : List ℕ) × Tells sources.now reply walk.now out × Appends (W.contents writer.old) (W.contents writer.new) out) }
{
    match reply {
        Reply::Came(came) => send_came(alloc, writer, walk, sources, came),
        Reply::Sought(came) => send_sought(alloc, writer, walk, sources, came),
        Reply::Refused(fault) => send_refused(writer, fault),
        Reply::Unknown => send(writer, b"refused 80 BadCommand\n"),
        Reply::NoMemory => send_no_memory(writer),
        Reply::NotInSight => send(writer, b"refused not in sight\n"),
        Reply::CallLeft => send_left(alloc, writer, walk, sources),
        Reply::Names => send_names(alloc, writer, walk),
        Reply::Place => send_where(writer, walk, sources),
        Reply::Calls => send_calls(writer, walk, sources),
        Reply::Lines => send_list(writer, walk, sources),
        Reply::Count => send_counted_line(writer, "steps ", walk.count()),
        Reply::Nothing => Ok(()),
    }
}

/// The octets of what there is to tell; the only error is want of memory.
fn octets_of<L: Ledger>(
    alloc: Global,
    walk: &Walk<L>,
    sources: &[Source],
    reply: Reply,
) -> Result<Vec<u8>, AllocError>
    ensures { IfOk result (λ octets. Tells sources.now reply walk.now octets.items) }
{
    let mut octets = Vec::new(alloc);
    match send_reply(alloc, &mut octets, walk, sources, reply) {
        Ok(()) => Ok(octets),
        Err(_) => Err(AllocError),
    }
}

/// Writes an answer to a command, all at once: what there is to tell, or that there is no memory for it.
///
/// # Errors
/// The writer failed, and a beginning of the answer went out.
pub(crate) fn answer<L: Ledger, W: Write>(
    alloc: Global,
    writer: &mut W,
    walk: &Walk<L>,
    sources: &[Source],
    reply: Reply,
) -> Result<(), WriteFailed>
    ensures ok { OnOk result ((out : List ℕ) × Answers sources.now reply walk.now out × Appends (W.contents writer.old) (W.contents writer.new) out) }
    ensures err { OnErr result ((out : List ℕ) × Answers sources.now reply walk.now out × SentSome (W.contents writer.old) (W.contents writer.new) out) }
{
    match octets_of(alloc, walk, sources, reply) {
        Ok(octets) => send(writer, &octets),
        Err(_) => send_no_memory(writer),
    }
}
