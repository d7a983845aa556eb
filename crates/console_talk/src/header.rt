//! The messages of a console: their headers, and the message of what is said (Jupyter messaging page, "General Message Format").
ghost use Rattle.std.specs.Prelude.{◌≡◌, string_bytes, IfOk};
ghost use Rattle.serde_json.specs.View.{view};
ghost use Rattle.serde_json.specs.Written.{compact_text};
ghost use Rattle.jupyter_msg.specs.Octets.{octets_of};
ghost use Rattle.kernel_message.specs.Draft.{said_of};
ghost use Rattle.console_talk.specs.Headers.{header as header_of, message_of, msg_id as msg_id_of, session_of};

use itoa::Buffer;
use jupyter_msg::Message;
use kernel_message::{Draft, put_text};
use serde_json::{Map, Value};
use std::alloc::{AllocError, Global};

/// The name of a console's session, after the local port of its connection to the shell socket. It is also the id of its comm. The only error
/// is want of memory.
pub fn session_name(alloc: Global, port: u16) -> Result<String, AllocError>
    ensures { IfOk result (λ name. string_bytes name ≡ session_of port) }
{
    let mut buffer = Buffer::new();
    let mut name = String::from_str(alloc, "console-")?;
    name.push_str(buffer.format(port))?;
    Ok(name)
}

/// The name of the n-th message of a session. The only error is want of memory.
pub(crate) fn msg_id(alloc: Global, session: &str, n: u64) -> Result<String, AllocError>
    ensures { IfOk result (λ id. string_bytes id ≡ msg_id_of session.now n) }
{
    let mut buffer = Buffer::new();
    let mut id = String::from_str(alloc, session)?;
    id.push_str("_")?;
    id.push_str(buffer.format(n))?;
    Ok(id)
}

/// The header of the n-th message of a session.
fn header(alloc: Global, session: &str, n: u64, msg_type: &str) -> Result<Value, AllocError>
    ensures { IfOk result (λ v. view v ≡ header_of session.now n msg_type.now) }
{
    let id = msg_id(alloc, session, n)?;
    let mut members = Map::new(alloc);
    put_text(alloc, &mut members, "msg_id", &id)?;
    put_text(alloc, &mut members, "msg_type", msg_type)?;
    put_text(alloc, &mut members, "session", session)?;
    put_text(alloc, &mut members, "username", "console")?;
    put_text(alloc, &mut members, "version", "5.4")?;
    Ok(Value::Object(members))
}

/// The octets of the header of the n-th message of a session.
fn header_octets(
    alloc: Global,
    session: &str,
    n: u64,
    msg_type: &str,
) -> Result<Vec<u8>, AllocError>
    ensures { IfOk result (λ v. v.items ≡ compact_text (header_of session.now n msg_type.now)) }
{
    header(alloc, session, n, msg_type)?.to_vec(alloc)
}

/// The n-th message of a session, which says this. It has no identities, no parent and no metadata. The only error is want of memory.
pub fn message(alloc: Global, session: &str, n: u64, draft: &Draft) -> Result<Message, AllocError>
    ensures { IfOk result (λ m. octets_of m ≡ message_of session.now n (said_of draft.now)) }
{
    let header = header_octets(alloc, session, n, draft.msg_type)?;
    let parent = b"{}".to_vec(alloc)?;
    let metadata = b"{}".to_vec(alloc)?;
    let content = draft.content.to_vec(alloc)?;
    Ok(Message {
        identities: Vec::new(alloc),
        header,
        parent,
        metadata,
        content,
        buffers: Vec::new(alloc),
    })
}
