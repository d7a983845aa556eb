//! What is said of comms (Jupyter messaging page: "Comm info", "Custom Messages").
ghost use Rattle.std.specs.Prelude.{◌≡◌, true, false, map, IfOk, OnOk, string_bytes, option_map};
ghost use Rattle.serde_json.specs.Data.{object, no_members};
ghost use Rattle.serde_json.specs.View.{view, members_view};
ghost use Rattle.serde_json.specs.Written.{has_float};
ghost use Rattle.kernel_message.specs.Draft.{said_of};
ghost use Rattle.kernel_reply.specs.Comms as table;

use crate::lists::texts;
use kernel_ask::KernelState;
use kernel_message::{Draft, put_count, put_empty, put_flag, put_text, put_value};
use serde_json::{Map, Value};
use std::alloc::{AllocError, Global};

/// The one target that comms have here: whoever opens them opens none for another.
pub const COMM_TARGET: &str = "janus.undo";

/// An open comm.
fn comm_shown(alloc: Global) -> Result<Value, AllocError>
    ensures { IfOk result (λ v. view v ≡ table.comm_shown) }
{
    let mut members = Map::new(alloc);
    put_text(alloc, &mut members, "target_name", COMM_TARGET)?;
    Ok(Value::Object(members))
}

/// Adds the open comms.
fn put_comms(
    alloc: Global,
    listed: &mut Map<String, Value>,
    ids: &[String],
) -> Result<(), AllocError>
    ensures { OnOk result (members_view listed.new.entries
        ≡ table.with_comms (members_view listed.old.entries) (map string_bytes ids.now)) }
{
    for id in ids {
        let shown = comm_shown(alloc)?;
        serde_json::put(listed, alloc, id, shown)?;
    }
    Ok(())
}

/// The open comms.
fn comms_shown(alloc: Global, ids: &[String]) -> Result<Value, AllocError>
    ensures { IfOk result (λ v. view v ≡ object (table.with_comms no_members (map string_bytes ids.now))) }
{
    let mut listed = Map::new(alloc);
    put_comms(alloc, &mut listed, ids)?;
    Ok(Value::Object(listed))
}

/// Whether comms are for the target.
pub(crate) fn is_target(name: &str) -> bool
    ensures { result ≡ table.is_target name.now }
{
    name == COMM_TARGET
}

/// Whether a request for the comms of a target, or of all where it names none, asks for those that are opened here. For any other target no comm is
/// open.
pub fn asks_target(name: Option<&str>) -> bool
    ensures { result ≡ table.asks_target (option_map (λ t. t.now) name.entry) }
{
    match name {
        None => true,
        Some(name) => is_target(name),
    }
}

/// Open comms as what is told of them.
#[tactic(auto, using(crate::proofs::Holes::comm_info_plain))]
fn comm_info_content(alloc: Global, comms: Value) -> Result<Value, AllocError>
    requires { has_float (view comms) ≡ false }
    ensures no_float { IfOk result (λ v. has_float (view v) ≡ false) }
    ensures value { IfOk result (λ v. view v ≡ table.comm_info_content (view comms)) }
{
    let mut members = Map::new(alloc);
    put_value(alloc, &mut members, "comms", comms)?;
    put_text(alloc, &mut members, "status", "ok")?;
    Ok(Value::Object(members))
}

/// The open comms that are asked for.
fn comms_asked(alloc: Global, name: Option<&str>, ids: &[String]) -> Result<Value, AllocError>
    ensures { IfOk result (λ v. view v
        ≡ object (table.comms_asked (option_map (λ t. t.now) name.entry) (map string_bytes ids.now))) }
{
    if asks_target(name) {
        return comms_shown(alloc, ids);
    }
    Ok(Value::Object(Map::new(alloc)))
}

/// The open comms, if they are those of the target.
pub(crate) fn comm_info_reply(
    alloc: Global,
    name: Option<&str>,
    ids: &[String],
) -> Result<Draft, AllocError>
    ensures { IfOk result (λ s. said_of s
        ≡ table.comm_info_reply (option_map (λ t. t.now) name.entry) (map string_bytes ids.now)) }
{
    let shown = comms_asked(alloc, name, ids)?;
    Ok(Draft {
        msg_type: "comm_info_reply",
        content: comm_info_content(alloc, shown)?,
    })
}

/// What is said where a comm is closed.
fn comm_close_content(alloc: Global, id: &str) -> Result<Value, AllocError>
    ensures { IfOk result (λ v. view v ≡ table.comm_close_content id.now) }
{
    let mut members = Map::new(alloc);
    put_text(alloc, &mut members, "comm_id", id)?;
    put_empty(alloc, &mut members, "data")?;
    Ok(Value::Object(members))
}

/// A comm is closed.
pub(crate) fn comm_close(alloc: Global, id: &str) -> Result<Draft, AllocError>
    ensures { IfOk result (λ s. said_of s ≡ table.comm_close id.now) }
{
    Ok(Draft {
        msg_type: "comm_close",
        content: comm_close_content(alloc, id)?,
    })
}

/// What is said on a comm.
#[tactic(auto, using(crate::proofs::Holes::comm_msg_plain))]
fn comm_msg_content(alloc: Global, id: &str, said: Value) -> Result<Value, AllocError>
    requires { has_float (view said) ≡ false }
    ensures no_float { IfOk result (λ v. has_float (view v) ≡ false) }
    ensures value { IfOk result (λ v. view v ≡ table.comm_msg_content id.now (view said)) }
{
    let mut members = Map::new(alloc);
    put_text(alloc, &mut members, "comm_id", id)?;
    put_value(alloc, &mut members, "data", said)?;
    Ok(Value::Object(members))
}

/// A message on a comm.
pub(crate) fn comm_msg(alloc: Global, id: &str, said: Value) -> Result<Draft, AllocError>
    requires { has_float (view said) ≡ false }
    ensures { IfOk result (λ s. said_of s ≡ table.comm_msg id.now (view said)) }
{
    Ok(Draft {
        msg_type: "comm_msg",
        content: comm_msg_content(alloc, id, said)?,
    })
}

/// The state, with its world as a list of lines.
#[tactic(auto, using(crate::proofs::Holes::state_plain))]
fn state_content(alloc: Global, state: &KernelState, world: Value) -> Result<Value, AllocError>
    requires { has_float (view world) ≡ false }
    ensures no_float { IfOk result (λ v. has_float (view v) ≡ false) }
    ensures value { IfOk result (λ v. view v ≡ table.state_content state.now (view world)) }
{
    let mut members = Map::new(alloc);
    put_flag(alloc, &mut members, "busy", state.busy)?;
    put_count(alloc, &mut members, "depth", state.depth as u64)?;
    put_count(alloc, &mut members, "node", state.node as u64)?;
    put_count(alloc, &mut members, "nodes", state.nodes as u64)?;
    put_text(alloc, &mut members, "op", "state")?;
    put_count(alloc, &mut members, "redo", state.redo as u64)?;
    put_text(alloc, &mut members, "status", "ok")?;
    put_value(alloc, &mut members, "world", world)?;
    Ok(Value::Object(members))
}

/// The state on a comm.
pub(crate) fn state_msg(alloc: Global, id: &str, state: &KernelState) -> Result<Draft, AllocError>
    ensures { IfOk result (λ s. said_of s ≡ table.comm_msg id.now (table.state_shown state.now)) }
{
    let world = texts(alloc, &state.world)?;
    let told = state_content(alloc, state, world)?;
    comm_msg(alloc, id, told)
}
