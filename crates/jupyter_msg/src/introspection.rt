//! The requests that ask about code (Jupyter messaging page, "Completion", "Introspection", "Code completeness").
ghost use Rattle.std.specs.Prelude.{◌≡◌, Some, string_bytes};
ghost use Rattle.serde_json.specs.View.{view};
ghost use Rattle.jupyter_msg.specs.Asked.{Reads};
ghost use Rattle.jupyter_msg.specs.Fields.{first_wrong, text_at};
ghost use Rattle.jupyter_msg.specs.Requests.{IsCompletion, IsInspection, fields_of};

use crate::fault::{Field, MsgFault};
use crate::fields::{count, text};
use crate::request_type::RequestType;
use serde_json::Value;
use std::alloc::Global;

/// The request for completions.
#[derive(Debug, Drop)]
pub struct CompleteRequest {
    /// The text of the code.
    pub code: String,
    /// Where the cursor stands, in Unicode code points; `None` is the end of the code, and so is a place past it.
    pub cursor: Option<u64>,
}

/// The request for what is known of a name.
#[derive(Debug, Drop)]
pub struct InspectRequest {
    /// The text of the code.
    pub code: String,
    /// Where the cursor stands, in Unicode code points; `None` is the end of the code, and so is a place past it.
    pub cursor: Option<u64>,
}

/// The question whether code can be executed as it stands.
#[derive(Debug, Drop)]
pub struct IsCompleteRequest {
    /// The text of the code.
    pub code: String,
}

impl CompleteRequest {
    /// Reads the content of a `complete_request`.
    pub(crate) fn read(alloc: Global, content: &Value) -> Result<CompleteRequest, MsgFault>
        ensures { Reads (IsCompletion (view content.now)) result
            (first_wrong (fields_of RequestType.Complete) (view content.now)) }
    {
        let code = text(alloc, content, Field::Code)?;
        let cursor = count(content, Field::CursorPos)?;
        Ok(CompleteRequest { code, cursor })
    }
}

impl InspectRequest {
    /// Reads the content of an `inspect_request`.
    pub(crate) fn read(alloc: Global, content: &Value) -> Result<InspectRequest, MsgFault>
        ensures { Reads (IsInspection (view content.now)) result
            (first_wrong (fields_of RequestType.Inspect) (view content.now)) }
    {
        let code = text(alloc, content, Field::Code)?;
        let cursor = count(content, Field::CursorPos)?;
        Ok(InspectRequest { code, cursor })
    }
}

impl IsCompleteRequest {
    /// Reads the content of an `is_complete_request`.
    pub(crate) fn read(alloc: Global, content: &Value) -> Result<IsCompleteRequest, MsgFault>
        ensures { Reads (λ r. text_at Field.Code (view content.now) ≡ Some (string_bytes r.code)) result
            (first_wrong (fields_of RequestType.IsComplete) (view content.now)) }
    {
        let code = text(alloc, content, Field::Code)?;
        Ok(IsCompleteRequest { code })
    }
}
