//! The JSON objects that messages are made of.
ghost use Rattle.std.specs.Prelude.{◌≡◌, ◌⊎◌, Some, None, IfOk, IfErr, option_map};
ghost use Rattle.serde_json.specs.View.{view};
ghost use Rattle.jupyter_msg.specs.Object.{object_of};

use crate::fault::{MsgFault, Part};
use serde_json::{Map, Value};
use std::alloc::Global;

/// The text of the object without members.
const EMPTY: &[u8] = b"{}";

/// The JSON object that the octets are the text of, if they are one's.
pub(crate) fn object_of(alloc: Global, octets: &[u8]) -> Result<Option<Value>, MsgFault>
    ensures object { IfOk result (λ o. option_map view o ≡ object_of octets.now) }
    ensures memory { IfErr result (λ e. e ≡ MsgFault.Memory) }
{
    // Of most messages two parts say nothing.
    if octets == EMPTY {
        return Ok(Some(Value::Object(Map::new(alloc))));
    }
    match Value::from_slice(alloc, octets) {
        Ok(value) => if value.is_object() {
            Ok(Some(value))
        } else {
            Ok(None)
        },
        Err(error) => if error.is_memory() {
            Err(MsgFault::Memory)
        } else {
            Ok(None)
        },
    }
}

/// The JSON object that the octets of the part are the text of.
pub(crate) fn part_object(alloc: Global, octets: &[u8], part: Part) -> Result<Value, MsgFault>
    ensures object { IfOk result (λ value. object_of octets.now ≡ Some (view value)) }
    ensures refused { IfErr result (λ e. (e ≡ MsgFault.Memory)
        ⊎ ((e ≡ MsgFault.NotJson part) × (object_of octets.now ≡ None))) }
{
    object_of(alloc, octets)?.ok_or(MsgFault::NotJson(part))
}
