//! The fields of a JSON object, as requests have them: a field that is null counts as missing.
ghost use Rattle.std.specs.Prelude.{◌≡◌, ◌⊎◌, true, false, Some, None, IfOk, IfErr, IfSome, IfNone, option_map, option_and_then, string_bytes};
ghost use Rattle.std.specs.Str.{bytes_eq};
ghost use Rattle.serde_json.specs.View.{view, members_view};
ghost use Rattle.serde_json.specs.Find.{as_bool, as_str, as_object};
ghost use Rattle.jupyter_msg.specs.Fault.{field_name};
ghost use Rattle.serde_json.specs.Data.{object};
ghost use Rattle.jupyter_msg.specs.Fields.{unless_null as unless_null_of};
ghost use Rattle.jupyter_msg.specs.Fields.{value_at, needed, allowed, as_count, as_whole, text_at};

use crate::fault::{Field, MsgFault};
use serde_json::{Map, Value};
use std::alloc::Global;

/// The value of a field: none where it is missing or null.
#[tactic(auto, unfolding(crate::specs::Fields::value_at))]
pub(crate) fn value_at(content: &Value, field: Field) -> Option<&Value>
    ensures { option_map (λ v. view v.now) result ≡ value_at field (view content.now) }
{
    match content.get(field.name()) {
        Some(value) if !value.is_null() => Some(value),
        _ => None,
    }
}

/// The text of a field.
pub(crate) fn text_in(content: &Value, field: Field) -> Result<&str, MsgFault>
    ensures value { IfOk result (λ t. text_at field (view content.now) ≡ Some t.now) }
    ensures refused { IfErr result (λ e. (e ≡ MsgFault.BadField field)
        × (text_at field (view content.now) ≡ None)) }
{
    value_at(content, field)
        .and_then(Value::as_str)
        .ok_or(MsgFault::BadField(field))
}

/// A copy of the text of a field.
pub(crate) fn text(alloc: Global, content: &Value, field: Field) -> Result<String, MsgFault>
    ensures value { IfOk result (λ t. text_at field (view content.now) ≡ Some (string_bytes t)) }
    ensures refused { IfErr result (λ e. (e ≡ MsgFault.Memory)
        ⊎ ((e ≡ MsgFault.BadField field) × (text_at field (view content.now) ≡ None))) }
{
    let text = text_in(content, field)?;
    Ok(String::from_str(alloc, text)?)
}

/// The text of a value, taken out of it.
pub(crate) fn into_text(value: Value) -> Option<String>
    ensures { option_map string_bytes result ≡ as_str (view value) }
{
    match value {
        Value::String(text) => Some(text),
        Value::Null | Value::Bool(_) | Value::Number(_) | Value::Array(_) | Value::Object(_) =>
            None,
    }
}

/// The members of a value, taken out of it.
#[tactic(auto, unfolding(crate::specs::Fields::value_at))]
pub(crate) fn into_object(value: Value) -> Option<Map<String, Value>>
    ensures some { IfSome result (λ m. view value ≡ object (members_view m.entries)) }
    ensures none { IfNone result ((field : Field) → value_at field (view value) ≡ None) }
    ensures value { option_map (λ m. members_view m.entries) result ≡ as_object (view value) }
{
    match value {
        Value::Object(map) => Some(map),
        Value::Null | Value::Bool(_) | Value::Number(_) | Value::String(_) | Value::Array(_) =>
            None,
    }
}

/// The value, unless it is null.
fn unless_null(value: Value) -> Option<Value>
    ensures { option_map view result ≡ unless_null_of (view value) }
{
    if value.is_null() { None } else { Some(value) }
}

/// The value of a field, taken out of its object: none where it is missing or null. The other fields stay.
pub(crate) fn take_value(members: &mut Map<String, Value>, field: Field) -> Option<Value>
    ensures value { option_map view result ≡ value_at field (object (members_view members.old.entries)) }
    ensures others { (other : Field) → bytes_eq (field_name other) (field_name field) ≡ false
        → value_at other (object (members_view members.new.entries)) ≡ value_at other (object (members_view members.old.entries)) }
{
    match members.remove(field.name()) {
        Some(value) => unless_null(value),
        None => None,
    }
}

/// A copy of the text of a field that may be missing.
pub(crate) fn maybe_text(
    alloc: Global,
    content: &Value,
    field: Field,
) -> Result<Option<String>, MsgFault>
    ensures value { IfOk result (λ o. text_at field (view content.now) ≡ option_map string_bytes o) }
    ensures fits { IfOk result (λ o. allowed as_str (value_at field (view content.now)) ≡ true) }
    ensures refused { IfErr result (λ e. (e ≡ MsgFault.Memory)
        ⊎ ((e ≡ MsgFault.BadField field) × (allowed as_str (value_at field (view content.now)) ≡ false))) }
{
    match value_at(content, field) {
        None => Ok(None),
        Some(_) => Ok(Some(text(alloc, content, field)?)),
    }
}

/// The truth value of a field that may be missing.
pub(crate) fn flag(content: &Value, field: Field) -> Result<Option<bool>, MsgFault>
    ensures value { IfOk result (λ o. option_and_then as_bool (value_at field (view content.now)) ≡ o) }
    ensures fits { IfOk result (λ o. allowed as_bool (value_at field (view content.now)) ≡ true) }
    ensures refused { IfErr result (λ e. (e ≡ MsgFault.BadField field)
        × (allowed as_bool (value_at field (view content.now)) ≡ false)) }
{
    match value_at(content, field) {
        None => Ok(None),
        Some(value) => match value.as_bool() {
            Some(flag) => Ok(Some(flag)),
            None => Err(MsgFault::BadField(field)),
        },
    }
}

/// The whole number from 0 on of a field that may be missing.
pub(crate) fn count(content: &Value, field: Field) -> Result<Option<u64>, MsgFault>
    ensures value { IfOk result (λ o. option_and_then as_count (value_at field (view content.now)) ≡ o) }
    ensures fits { IfOk result (λ o. allowed as_count (value_at field (view content.now)) ≡ true) }
    ensures refused { IfErr result (λ e. (e ≡ MsgFault.BadField field)
        × (allowed as_count (value_at field (view content.now)) ≡ false)) }
{
    match value_at(content, field) {
        None => Ok(None),
        Some(value) => match value.as_u64() {
            Some(count) => Ok(Some(count)),
            None => Err(MsgFault::BadField(field)),
        },
    }
}

/// The whole number of a field that may be missing.
pub(crate) fn whole(content: &Value, field: Field) -> Result<Option<i64>, MsgFault>
    ensures value { IfOk result (λ o. option_and_then as_whole (value_at field (view content.now)) ≡ o) }
    ensures fits { IfOk result (λ o. allowed as_whole (value_at field (view content.now)) ≡ true) }
    ensures refused { IfErr result (λ e. (e ≡ MsgFault.BadField field)
        × (allowed as_whole (value_at field (view content.now)) ≡ false)) }
{
    match value_at(content, field) {
        None => Ok(None),
        Some(value) => match value.as_i64() {
            Some(whole) => Ok(Some(whole)),
            None => Err(MsgFault::BadField(field)),
        },
    }
}

/// The object of a field.
pub(crate) fn object_in(content: &Value, field: Field) -> Result<&Value, MsgFault>
    ensures value { IfOk result (λ v. value_at field (view content.now) ≡ Some (view v.now)) }
    ensures fits { IfOk result (λ v. needed as_object (value_at field (view content.now)) ≡ true) }
    ensures refused { IfErr result (λ e. (e ≡ MsgFault.BadField field)
        × (needed as_object (value_at field (view content.now)) ≡ false)) }
{
    match value_at(content, field) {
        Some(value) if value.is_object() => Ok(value),
        _ => Err(MsgFault::BadField(field)),
    }
}
