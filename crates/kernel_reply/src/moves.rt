//! What is said of an undo, a redo and a goto that were asked for on a comm.
ghost use Rattle.std.specs.Prelude.{◌≡◌, Some, IfOk, option_map};
ghost use Rattle.serde_json.specs.View.{view};
ghost use Rattle.kernel_message.specs.Draft.{said_of};
ghost use Rattle.kernel_reply.specs.Comms.{comm_msg as comm_msg_of};
ghost use Rattle.kernel_reply.specs.Moves as table;

use crate::comms::comm_msg;
use jupyter_msg::CommAsk;
use kernel_ask::{Outcome, PostFault, TravelEnd};
use kernel_message::{Draft, put_count, put_text};
use serde_json::{Map, Value};
use std::alloc::{AllocError, Global};

/// How a move ended.
fn end_name(end: TravelEnd) -> &'static str
    ensures { result.now ≡ table.end_name end }
{
    match end {
        TravelEnd::All => "all",
        TravelEnd::Asked => "asked",
        TravelEnd::NoMemory => "memory",
    }
}

/// How many cells were undone, and how many redone.
fn moved(
    alloc: Global,
    op: &str,
    node: usize,
    undone: usize,
    redone: usize,
    end: TravelEnd,
) -> Result<Value, AllocError>
    ensures { IfOk result (λ v. view v ≡ table.moved op.now node undone redone end) }
{
    let mut members = Map::new(alloc);
    put_text(alloc, &mut members, "end", end_name(end))?;
    put_count(alloc, &mut members, "node", node as u64)?;
    put_text(alloc, &mut members, "op", op)?;
    put_count(alloc, &mut members, "redone", redone as u64)?;
    put_text(alloc, &mut members, "status", "ok")?;
    put_count(alloc, &mut members, "undone", undone as u64)?;
    Ok(Value::Object(members))
}

/// A move was refused, with this number and name.
fn refused(
    alloc: Global,
    op: &str,
    node: usize,
    number: u8,
    name: &str,
) -> Result<Value, AllocError>
    ensures { IfOk result (λ v. view v ≡ table.refused op.now node number name.now) }
{
    let mut members = Map::new(alloc);
    put_text(alloc, &mut members, "name", name)?;
    put_count(alloc, &mut members, "node", node as u64)?;
    put_count(alloc, &mut members, "number", number as u64)?;
    put_text(alloc, &mut members, "op", op)?;
    put_text(alloc, &mut members, "status", "refused")?;
    Ok(Value::Object(members))
}

/// A message on a comm that tells how many cells were undone, and how many redone.
fn moved_msg(
    alloc: Global,
    id: &str,
    op: &str,
    node: usize,
    undone: usize,
    redone: usize,
    end: TravelEnd,
) -> Result<Option<Draft>, AllocError>
    ensures { IfOk result (λ o. option_map said_of o
        ≡ Some (comm_msg_of id.now (table.moved op.now node undone redone end))) }
{
    let told = moved(alloc, op, node, undone, redone, end)?;
    Ok(Some(comm_msg(alloc, id, told)?))
}

/// A message on a comm that tells a refusal.
fn refused_msg(
    alloc: Global,
    id: &str,
    op: &str,
    node: usize,
    number: u8,
    name: &str,
) -> Result<Option<Draft>, AllocError>
    ensures { IfOk result (λ o. option_map said_of o
        ≡ Some (comm_msg_of id.now (table.refused op.now node number name.now))) }
{
    let told = refused(alloc, op, node, number, name)?;
    Ok(Some(comm_msg(alloc, id, told)?))
}

/// What came of an undo; nothing where the outcome is that of another job.
fn undo_msg(
    alloc: Global,
    id: &str,
    node: usize,
    outcome: &Outcome,
) -> Result<Option<Draft>, AllocError>
    ensures { IfOk result (λ o. option_map said_of o
        ≡ option_map (comm_msg_of id.now) (table.undo_shown node outcome.now)) }
{
    match *outcome {
        Outcome::Undid(cells, end) => moved_msg(alloc, id, "undo", node, cells, 0, end),
        Outcome::Refused(refusal) => {
            refused_msg(alloc, id, "undo", node, refusal.number(), refusal.name())
        }
        Outcome::Redid(_, _) => Ok(None),
        Outcome::Went(_, _, _) => Ok(None),
        Outcome::Ran(_, _) => Ok(None),
        Outcome::Failed(_, _) => Ok(None),
        Outcome::Interrupted(_) => Ok(None),
    }
}

/// What came of a redo; nothing where the outcome is that of another job.
fn redo_msg(
    alloc: Global,
    id: &str,
    node: usize,
    outcome: &Outcome,
) -> Result<Option<Draft>, AllocError>
    ensures { IfOk result (λ o. option_map said_of o
        ≡ option_map (comm_msg_of id.now) (table.redo_shown node outcome.now)) }
{
    match *outcome {
        Outcome::Redid(cells, end) => moved_msg(alloc, id, "redo", node, 0, cells, end),
        Outcome::Refused(refusal) => {
            refused_msg(alloc, id, "redo", node, refusal.number(), refusal.name())
        }
        Outcome::Undid(_, _) => Ok(None),
        Outcome::Went(_, _, _) => Ok(None),
        Outcome::Ran(_, _) => Ok(None),
        Outcome::Failed(_, _) => Ok(None),
        Outcome::Interrupted(_) => Ok(None),
    }
}

/// What came of a goto; nothing where the outcome is that of another job.
fn goto_msg(
    alloc: Global,
    id: &str,
    node: usize,
    outcome: &Outcome,
) -> Result<Option<Draft>, AllocError>
    ensures { IfOk result (λ o. option_map said_of o
        ≡ option_map (comm_msg_of id.now) (table.goto_shown node outcome.now)) }
{
    match *outcome {
        Outcome::Went(up, down, end) => moved_msg(alloc, id, "goto", node, up, down, end),
        Outcome::Refused(refusal) => {
            refused_msg(alloc, id, "goto", node, refusal.number(), refusal.name())
        }
        Outcome::Undid(_, _) => Ok(None),
        Outcome::Redid(_, _) => Ok(None),
        Outcome::Ran(_, _) => Ok(None),
        Outcome::Failed(_, _) => Ok(None),
        Outcome::Interrupted(_) => Ok(None),
    }
}

/// What came of a move; nothing where none was asked for, or where the outcome is that of another job.
pub(crate) fn move_msg(
    alloc: Global,
    id: &str,
    ask: CommAsk,
    node: usize,
    outcome: &Outcome,
) -> Result<Option<Draft>, AllocError>
    ensures { IfOk result (λ o. option_map said_of o
        ≡ option_map (comm_msg_of id.now) (table.move_shown ask node outcome.now)) }
{
    match ask {
        CommAsk::Undo(_) => undo_msg(alloc, id, node, outcome),
        CommAsk::Redo(_) => redo_msg(alloc, id, node, outcome),
        CommAsk::Goto(_) => goto_msg(alloc, id, node, outcome),
        CommAsk::State => Ok(None),
        CommAsk::Other => Ok(None),
    }
}

/// The operation, where it is a move.
fn op_name(ask: CommAsk) -> Option<&'static str>
    ensures { option_map (λ t. t.now) result ≡ table.op_name ask }
{
    match ask {
        CommAsk::Undo(_) => Some("undo"),
        CommAsk::Redo(_) => Some("redo"),
        CommAsk::Goto(_) => Some("goto"),
        CommAsk::State => None,
        CommAsk::Other => None,
    }
}

/// Why a move was not posted; nothing where none was asked for.
pub(crate) fn unposted_msg(
    alloc: Global,
    id: &str,
    ask: CommAsk,
    node: usize,
    fault: PostFault,
) -> Result<Option<Draft>, AllocError>
    ensures { IfOk result (λ o. option_map said_of o
        ≡ option_map (comm_msg_of id.now) (table.unposted_shown ask node fault)) }
{
    match op_name(ask) {
        Some(op) => refused_msg(alloc, id, op, node, fault.number(), fault.name()),
        None => Ok(None),
    }
}
