//! What one message says.
ghost use Rattle.std.specs.Prelude.{◌≡◌, false};
ghost use Rattle.serde_json.specs.View.{view};
ghost use Rattle.serde_json.specs.Written.{has_float};

use serde_json::Value;

/// A message before it is numbered, dated and addressed: its type and its content, in which no number is a float.
#[derive(Drop)]
pub struct Draft {
    /// The type, as it stands in the header.
    pub msg_type: &'static str,
    /// The content, a JSON object.
    pub content: Value,
    ghost no_float: { has_float (view content) ≡ false },
}
