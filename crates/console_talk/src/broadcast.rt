//! What a broadcast is to a console.
ghost use Rattle.std.specs.Prelude.{◌≡◌};
ghost use Rattle.serde_json.specs.View.{view};
ghost use Rattle.console_talk.specs.Broadcasts as table;

use crate::look::is_word;
use serde_json::Value;

/// What a broadcast is to a console.
#[derive(Clone, Copy)]
pub enum Heard {
    /// The kernel is done with a request.
    Idle,
    /// Another status.
    Status,
    /// What a cell shows.
    Result,
    /// Data on a comm.
    CommData,
    /// A comm is closed.
    CommClosed,
    /// Something else.
    Other,
}

/// What a broadcast is, by its header and its content.
pub fn what_is_heard(header: &Value, content: &Value) -> Heard
    ensures { result ≡ table.heard (view header.now) (view content.now) }
{
    if is_word(header, "msg_type", "status") {
        return if is_word(content, "execution_state", "idle") {
            Heard::Idle
        } else {
            Heard::Status
        };
    }
    if is_word(header, "msg_type", "execute_result") {
        return Heard::Result;
    }
    if is_word(header, "msg_type", "comm_msg") {
        return Heard::CommData;
    }
    if is_word(header, "msg_type", "comm_close") {
        return Heard::CommClosed;
    }
    Heard::Other
}
