//! What is said to the kernel (Jupyter messaging page: "Execute", "Completion", "Kernel info", "Custom Messages").
ghost use Rattle.std.specs.Prelude.{◌≡◌, false, length, IfOk};
ghost use Rattle.std.specs.Str.{chars};
ghost use Rattle.serde_json.specs.View.{view};
ghost use Rattle.serde_json.specs.Written.{has_float};
ghost use Rattle.kernel_message.specs.Draft.{said_of};
ghost use Rattle.console_talk.specs.Requests as table;

use kernel_message::{Draft, put_count, put_empty, put_flag, put_text, put_value};
use serde_json::{Map, Value};
use std::alloc::{AllocError, Global};

/// The one target that comms have at the kernel.
const TARGET: &str = "janus.undo";

/// Asks what the kernel is.
pub fn kernel_info_draft(alloc: Global) -> Draft
    ensures { said_of result ≡ table.kernel_info_request }
{
    Draft {
        msg_type: "kernel_info_request",
        content: Value::Object(Map::new(alloc)),
    }
}

/// Asks to run a text as a cell that is told to all and numbered. The only error is want of memory.
pub fn execute_draft(alloc: Global, code: &str) -> Result<Draft, AllocError>
    ensures { IfOk result (λ s. said_of s ≡ table.execute_request code.now) }
{
    let mut members = Map::new(alloc);
    put_flag(alloc, &mut members, "allow_stdin", false)?;
    put_text(alloc, &mut members, "code", code)?;
    put_flag(alloc, &mut members, "silent", false)?;
    put_flag(alloc, &mut members, "stop_on_error", true)?;
    put_flag(alloc, &mut members, "store_history", true)?;
    put_empty(alloc, &mut members, "user_expressions")?;
    Ok(Draft {
        msg_type: "execute_request",
        content: Value::Object(members),
    })
}

/// How many characters a text has.
fn characters(text: &str) -> u64
    ensures { result ≡ length (chars text.now) }
{
    text.chars().count() as u64
}

/// Asks which names fit at the end of a text. The only error is want of memory.
pub fn complete_draft(alloc: Global, text: &str) -> Result<Draft, AllocError>
    ensures { IfOk result (λ s. said_of s ≡ table.complete_request text.now) }
{
    let mut members = Map::new(alloc);
    put_text(alloc, &mut members, "code", text)?;
    put_count(alloc, &mut members, "cursor_pos", characters(text))?;
    Ok(Draft {
        msg_type: "complete_request",
        content: Value::Object(members),
    })
}

/// Opens a comm by which cells are undone and redone. The only error is want of memory.
pub fn comm_open_draft(alloc: Global, id: &str) -> Result<Draft, AllocError>
    ensures { IfOk result (λ s. said_of s ≡ table.comm_open id.now) }
{
    let mut members = Map::new(alloc);
    put_text(alloc, &mut members, "comm_id", id)?;
    put_empty(alloc, &mut members, "data")?;
    put_text(alloc, &mut members, "target_name", TARGET)?;
    Ok(Draft {
        msg_type: "comm_open",
        content: Value::Object(members),
    })
}

/// Closes a comm. The only error is want of memory.
pub fn comm_close_draft(alloc: Global, id: &str) -> Result<Draft, AllocError>
    ensures { IfOk result (λ s. said_of s ≡ table.comm_close id.now) }
{
    let mut members = Map::new(alloc);
    put_text(alloc, &mut members, "comm_id", id)?;
    put_empty(alloc, &mut members, "data")?;
    Ok(Draft {
        msg_type: "comm_close",
        content: Value::Object(members),
    })
}

/// Data on a comm.
fn comm_msg_draft(alloc: Global, id: &str, body: Value) -> Result<Draft, AllocError>
    requires { has_float (view body) ≡ false }
    ensures { IfOk result (λ s. said_of s ≡ table.comm_msg id.now (view body)) }
{
    let mut members = Map::new(alloc);
    put_text(alloc, &mut members, "comm_id", id)?;
    put_value(alloc, &mut members, "data", body)?;
    Ok(Draft {
        msg_type: "comm_msg",
        content: Value::Object(members),
    })
}

/// Asks on a comm for a move: `undo` and `redo` of `n` cells, and `goto` to the node `n`. The only error is want of memory.
pub fn move_draft(alloc: Global, id: &str, op: &str, n: u32) -> Result<Draft, AllocError>
    ensures { IfOk result (λ s. said_of s ≡ table.comm_msg id.now (table.move_data op.now n)) }
{
    let mut members = Map::new(alloc);
    put_count(alloc, &mut members, "n", n as u64)?;
    put_text(alloc, &mut members, "op", op)?;
    comm_msg_draft(alloc, id, Value::Object(members))
}

/// Asks on a comm where the kernel stands. The only error is want of memory.
pub fn state_draft(alloc: Global, id: &str) -> Result<Draft, AllocError>
    ensures { IfOk result (λ s. said_of s ≡ table.comm_msg id.now table.state_data) }
{
    let mut members = Map::new(alloc);
    put_text(alloc, &mut members, "op", "state")?;
    comm_msg_draft(alloc, id, Value::Object(members))
}
