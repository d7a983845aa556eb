//! Comms: channels of a frontend to a target in the kernel (Jupyter messaging page, "Custom Messages").
ghost use Rattle.std.specs.Prelude.{◌≡◌, Some, None, option_and_then, option_map, string_bytes};
ghost use Rattle.serde_json.specs.View.{view};
ghost use Rattle.jupyter_msg.specs.Asked.{Reads};
ghost use Rattle.jupyter_msg.specs.Fields.{first_wrong, text_at, count_at};
ghost use Rattle.jupyter_msg.specs.Requests.{IsCommOpen, IsCommMessage, ask_of, operation_asks, in_32_bits, fields_of};

use crate::fault::{Field, MsgFault};
use crate::fields::{count, maybe_text, object_in, text, text_in};
use crate::request_type::RequestType;
use serde_json::Value;
use std::alloc::Global;

/// What a comm message asks.
#[derive(Clone, Copy, Debug)]
pub enum CommAsk {
    /// Undo this number of cells.
    Undo(u32),
    /// Redo this number of cells.
    Redo(u32),
    /// Go to the node of this number.
    Goto(u32),
    /// Tell the state.
    State,
    /// Anything else: it changes nothing.
    Other,
}

/// The request for the open comms.
#[derive(Debug, Drop)]
pub struct CommInfoRequest {
    /// The target whose comms are asked for; `None` is all.
    pub target_name: Option<String>,
}

/// The opening of a comm. Its data is an object, and is not kept.
#[derive(Debug, Drop)]
pub struct CommOpen {
    /// The name of the comm.
    pub comm_id: String,
    /// The name of what answers on it.
    pub target_name: String,
}

/// A message on a comm.
#[derive(Debug, Drop)]
pub struct CommMessage {
    /// The name of the comm.
    pub comm_id: String,
    /// What its data asks.
    pub ask: CommAsk,
}

/// The closing of a comm.
#[derive(Debug, Drop)]
pub struct CommClose {
    /// The name of the comm.
    pub comm_id: String,
}

/// The number of the field `n`, if it has 32 bits.
fn number_asked(data: &Value) -> Option<u32>
    ensures { result ≡ option_and_then in_32_bits (count_at Field.N (view «data».now)) }
{
    match count(data, Field::N) {
        Ok(Some(n)) if n < 1 << 32 => Some(n as u32),
        _ => None,
    }
}

/// What an operation asks with a number beside it.
fn numbered_ask(name: &str, n: u32) -> CommAsk
    ensures { result ≡ operation_asks name.now (Some n) }
{
    if name == "undo" {
        CommAsk::Undo(n)
    } else if name == "redo" {
        CommAsk::Redo(n)
    } else if name == "goto" {
        CommAsk::Goto(n)
    } else {
        bare_ask(name)
    }
}

/// What an operation asks with no number beside it.
fn bare_ask(name: &str) -> CommAsk
    ensures { result ≡ operation_asks name.now None }
{
    if name == "state" {
        CommAsk::State
    } else {
        CommAsk::Other
    }
}

/// What an operation asks, with the number beside it.
fn operation_ask(name: &str, n: Option<u32>) -> CommAsk
    ensures { result ≡ operation_asks name.now n }
{
    match n {
        Some(n) => numbered_ask(name, n),
        None => bare_ask(name),
    }
}

impl CommAsk {
    /// What the data of a comm message asks: `op` is `undo`, `redo` or `goto`, with `n` from 0 to 4294967295, or
    /// `state`. Other data asks nothing.
    fn read(data: &Value) -> CommAsk
        ensures { result ≡ ask_of (view «data».now) }
    {
        match text_in(data, Field::Op) {
            Ok(name) => operation_ask(name, number_asked(data)),
            Err(_) => CommAsk::Other,
        }
    }
}

impl CommInfoRequest {
    /// Reads the content of a `comm_info_request`.
    pub(crate) fn read(alloc: Global, content: &Value) -> Result<CommInfoRequest, MsgFault>
        ensures { Reads (λ r. text_at Field.TargetName (view content.now) ≡ option_map string_bytes r.target_name) result
            (first_wrong (fields_of RequestType.CommInfo) (view content.now)) }
    {
        let target_name = maybe_text(alloc, content, Field::TargetName)?;
        Ok(CommInfoRequest { target_name })
    }
}

impl CommOpen {
    /// Reads the content of a `comm_open`.
    pub(crate) fn read(alloc: Global, content: &Value) -> Result<CommOpen, MsgFault>
        ensures { Reads (IsCommOpen (view content.now)) result
            (first_wrong (fields_of RequestType.CommOpen) (view content.now)) }
    {
        let comm_id = text(alloc, content, Field::CommId)?;
        let target_name = text(alloc, content, Field::TargetName)?;
        object_in(content, Field::Data)?;
        Ok(CommOpen {
            comm_id,
            target_name,
        })
    }
}

impl CommMessage {
    /// Reads the content of a `comm_msg`.
    pub(crate) fn read(alloc: Global, content: &Value) -> Result<CommMessage, MsgFault>
        ensures { Reads (IsCommMessage (view content.now)) result
            (first_wrong (fields_of RequestType.CommMessage) (view content.now)) }
    {
        let comm_id = text(alloc, content, Field::CommId)?;
        let ask = CommAsk::read(object_in(content, Field::Data)?);
        Ok(CommMessage { comm_id, ask })
    }
}

impl CommClose {
    /// Reads the content of a `comm_close`.
    pub(crate) fn read(alloc: Global, content: &Value) -> Result<CommClose, MsgFault>
        ensures { Reads (λ r. text_at Field.CommId (view content.now) ≡ Some (string_bytes r.comm_id)) result
            (first_wrong (fields_of RequestType.CommClose) (view content.now)) }
    {
        let comm_id = text(alloc, content, Field::CommId)?;
        Ok(CommClose { comm_id })
    }
}
