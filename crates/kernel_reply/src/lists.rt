//! Lists of texts as JSON.
ghost use Rattle.std.specs.Prelude.{◌≡◌, map, string_bytes, IfOk};
ghost use Rattle.serde_json.specs.View.{view};
ghost use Rattle.kernel_message.specs.Json.{list, text};

use serde_json::Value;
use std::alloc::{AllocError, Global};

/// The texts as values.
fn text_items(alloc: Global, strings: &[String]) -> Result<Vec<Value>, AllocError>
    ensures { IfOk result (λ v. map view v.items ≡ map (λ s. text (string_bytes s)) strings.now) }
{
    let mut items = Vec::new(alloc);
    for string in strings {
        items.push(Value::try_from_str(alloc, string)?)?;
    }
    Ok(items)
}

/// The texts as a list.
pub(crate) fn texts(alloc: Global, strings: &[String]) -> Result<Value, AllocError>
    ensures { IfOk result (λ v. view v ≡ list (map (λ s. text (string_bytes s)) strings.now)) }
{
    let items = text_items(alloc, strings)?;
    Ok(Value::Array(items))
}
