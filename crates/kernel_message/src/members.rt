//! Members of JSON objects, added one by one. They stand in the order of their names' octets, whatever the order in which they are added; one of
//! the same name is replaced.
ghost use Rattle.std.specs.Prelude.{◌≡◌, [], OnOk};
ghost use Rattle.serde_json.specs.Data.{put};
ghost use Rattle.serde_json.specs.View.{view, members_view};
ghost use Rattle.kernel_message.specs.Json.{text as text_of, count as count_of, flag as flag_of, record_of};

use serde_json::{Map, Value};
use std::alloc::{AllocError, Global};

/// Adds a text. The only error is want of memory.
pub fn put_text(
    alloc: Global,
    members: &mut Map<String, Value>,
    name: &str,
    text: &str,
) -> Result<(), AllocError>
    ensures { OnOk result (members_view members.new.entries
        ≡ put name.now (text_of text.now) (members_view members.old.entries)) }
{
    let value = Value::try_from_str(alloc, text)?;
    serde_json::put(members, alloc, name, value)
}

/// Adds a whole number. The only error is want of memory.
pub fn put_count(
    alloc: Global,
    members: &mut Map<String, Value>,
    name: &str,
    count: u64,
) -> Result<(), AllocError>
    ensures { OnOk result (members_view members.new.entries
        ≡ put name.now (count_of count) (members_view members.old.entries)) }
{
    serde_json::put(members, alloc, name, Value::from(count))
}

/// Adds a truth value. The only error is want of memory.
pub fn put_flag(
    alloc: Global,
    members: &mut Map<String, Value>,
    name: &str,
    flag: bool,
) -> Result<(), AllocError>
    ensures { OnOk result (members_view members.new.entries
        ≡ put name.now (flag_of flag) (members_view members.old.entries)) }
{
    serde_json::put(members, alloc, name, Value::Bool(flag))
}

/// Adds an object without members. The only error is want of memory.
pub fn put_empty(
    alloc: Global,
    members: &mut Map<String, Value>,
    name: &str,
) -> Result<(), AllocError>
    ensures { OnOk result (members_view members.new.entries
        ≡ put name.now (record_of []) (members_view members.old.entries)) }
{
    serde_json::put(members, alloc, name, Value::Object(Map::new(alloc)))
}

/// Adds a value. The only error is want of memory.
pub fn put_value(
    alloc: Global,
    members: &mut Map<String, Value>,
    name: &str,
    value: Value,
) -> Result<(), AllocError>
    ensures { OnOk result (members_view members.new.entries
        ≡ put name.now (view value) (members_view members.old.entries)) }
{
    serde_json::put(members, alloc, name, value)
}
