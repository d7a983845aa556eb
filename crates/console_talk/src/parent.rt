//! Whose answer a message is (Jupyter messaging page, "Parent header").
ghost use Rattle.std.specs.Prelude.{◌≡◌, codes, string_bytes, IfOk};
ghost use Rattle.console_talk.specs.Headers.{msg_id as msg_id_of};
ghost use Rattle.console_talk.specs.Parents.{has_in_parent};

use crate::header::msg_id;
use crate::look::is_word;
use jupyter_msg::Message;
use serde_json::Value;
use std::alloc::{AllocError, Global};

/// Whether a field of a message's parent header is this text.
fn has_in_parent(
    alloc: Global,
    message: &Message,
    name: &str,
    word: &str,
) -> Result<bool, AllocError>
    ensures { IfOk result (λ b. b ≡ has_in_parent name.now word.now message.now.parent.items) }
{
    match Value::from_slice(alloc, &message.parent) {
        Ok(parent) => Ok(is_word(&parent, name, word)),
        Err(error) => if error.is_memory() {
            Err(AllocError)
        } else {
            Ok(false)
        },
    }
}

/// Whether a message answers the n-th one of a session: that is named in its parent header. The only error is want of memory.
pub fn is_answer_to(
    alloc: Global,
    message: &Message,
    session: &str,
    n: u64,
) -> Result<bool, AllocError>
    ensures { IfOk result (λ b. b ≡ has_in_parent (codes "msg_id") (msg_id_of session.now n) message.now.parent.items) }
{
    let id = msg_id(alloc, session, n)?;
    has_in_parent(alloc, message, "msg_id", &id)
}

/// Whether a message answers one of a session. The only error is want of memory.
pub fn is_in_session(alloc: Global, message: &Message, session: &str) -> Result<bool, AllocError>
    ensures { IfOk result (λ b. b ≡ has_in_parent (codes "session") session.now message.now.parent.items) }
{
    has_in_parent(alloc, message, "session", session)
}
