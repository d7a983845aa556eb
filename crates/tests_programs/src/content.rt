//! Requests as a frontend signs them, and what stands in the messages that it is sent.
use crate::octets::{message_of, text_of, wrong};
use jupyter_msg::{Key, Message, MsgFault, Opened, open, seal};
use serde_json::Value;
use std::alloc::{AllocError, Global};
use std::io::Result;

/// The key under which the messages of a kernel and its frontends are signed.
pub(crate) const KEY: &str = "the key of the tests";

/// The key whose octets are those of the text.
fn key_of(alloc: Global, text: &str) -> Result<Key> {
    Ok(Key::new(Vec::from_slice(alloc, text.as_bytes())?))
}

/// Writes the parts of a request.
fn fill(message: &mut Message, msg_type: &str, content: &str) -> Result<()> {
    let header = &mut message.header;
    header.extend_from_slice(b"{\"msg_id\":\"a\",\"msg_type\":\"")?;
    header.extend_from_slice(msg_type.as_bytes())?;
    header.extend_from_slice(b"\",\"session\":\"s\"}")?;
    message.parent.extend_from_slice(b"{}")?;
    message.metadata.extend_from_slice(b"{}")?;
    message.content.extend_from_slice(content.as_bytes())?;
    Ok(())
}

/// The octets of a message that is signed under this key.
fn sealed(alloc: Global, key: &Key, message: &Message) -> Result<Vec<u8>> {
    match seal(alloc, message, key) {
        Ok(frames) => message_of(alloc, &frames),
        Err(_) => Err(AllocError.into()),
    }
}

/// The octets of a request under this key, whose parts are written to an empty message.
fn written(
    alloc: Global,
    key: &Key,
    message: &mut Message,
    msg_type: &str,
    content: &str,
) -> Result<Vec<u8>> {
    fill(message, msg_type, content)?;
    sealed(alloc, key, message)
}

/// The octets of a request that is signed under the key of this text.
pub(crate) fn request(alloc: Global, key: &str, msg_type: &str, content: &str) -> Result<Vec<u8>> {
    let key = key_of(alloc, key)?;
    let mut message = Message {
        identities: Vec::new(alloc),
        header: Vec::new(alloc),
        parent: Vec::new(alloc),
        metadata: Vec::new(alloc),
        content: Vec::new(alloc),
        buffers: Vec::new(alloc),
    };
    written(alloc, &key, &mut message, msg_type, content)
}

/// The message of these frames, which is signed under the key.
fn opened(alloc: Global, frames: Vec<Vec<u8>>) -> Result<Opened> {
    match key_of(alloc, KEY) {
        Ok(key) => match open(alloc, frames, &key) {
            Ok(message) => Ok(message),
            Err(MsgFault::Memory) => Err(AllocError.into()),
            Err(_) => Err(wrong()),
        },
        Err(error) => Err(error),
    }
}

/// The content of the message of these frames.
pub(crate) fn content_of(alloc: Global, frames: Vec<Vec<u8>>) -> Result<String> {
    match opened(alloc, frames) {
        Ok(reply) => text_of(alloc, &reply.message.content),
        Err(error) => Err(error),
    }
}

/// The content of the message of these frames, up to its first comma.
pub(crate) fn beginning_of(alloc: Global, frames: Vec<Vec<u8>>) -> Result<String> {
    let content = content_of(alloc, frames)?;
    let (beginning, _) = content.split_once(',').unwrap_or((&content, ""));
    Ok(String::from_str(alloc, beginning)?)
}

/// The first frame of a message.
pub(crate) fn topic_of(alloc: Global, frames: &[Vec<u8>]) -> Result<String> {
    match frames.first() {
        Some(topic) => text_of(alloc, topic),
        None => Err(wrong()),
    }
}

/// Whether this is a broadcast of the status.
pub(crate) fn is_status(frames: &[Vec<u8>]) -> bool {
    match frames.first() {
        Some(topic) => topic.as_slice() == b"status".as_slice(),
        None => false,
    }
}

/// What the header of a reply tells of its connection.
#[derive(Debug, Drop)]
pub(crate) struct Stamp {
    /// The number of the connection, where the id is that of its session, with this number and the message's behind it, each behind a `_`.
    pub connection: Option<u64>,
    /// How long the name of the session is.
    pub session_length: usize,
    /// Whether the session is the one that was seen before.
    pub is_same: bool,
    /// Whether the date has the form of one of today.
    pub is_dated: bool,
}

/// The text of a field of a reply's header.
fn field<'a>(reply: &'a Opened, name: &str) -> &'a str {
    match reply.header.get(name).and_then(Value::as_str) {
        Some(text) => text,
        None => "",
    }
}

/// The number of a connection, of what stands in the id of a message behind its session.
fn connection_of(rest: &str) -> Option<u64> {
    let (connection, message) = rest.strip_prefix("_")?.split_once("_")?;
    let _number = message.parse::<u64>().ok()?;
    connection.parse::<u64>().ok()
}

/// What the header of a reply tells, where this session was seen before.
fn stamp_in(reply: &Opened, seen: &str) -> Stamp {
    let session = field(reply, "session");
    let date = field(reply, "date");
    let rest = field(reply, "msg_id").strip_prefix(session).unwrap_or("");
    Stamp {
        connection: connection_of(rest),
        session_length: session.len(),
        is_same: session == seen,
        is_dated: date.len() == 20 && date.starts_with("2") && date.ends_with("Z"),
    }
}

/// The date of the message of these frames.
pub(crate) fn date_of(alloc: Global, frames: Vec<Vec<u8>>) -> Result<String> {
    match opened(alloc, frames) {
        Ok(reply) => Ok(String::from_str(alloc, field(&reply, "date"))?),
        Err(error) => Err(error),
    }
}

/// What the header of the message of these frames tells, whose session is then the one that was seen before.
pub(crate) fn stamp_of(alloc: Global, frames: Vec<Vec<u8>>, seen: &mut String) -> Result<Stamp> {
    match opened(alloc, frames) {
        Ok(reply) => {
            let stamp = stamp_in(&reply, seen);
            *seen = String::from_str(alloc, field(&reply, "session"))?;
            Ok(stamp)
        }
        Err(error) => Err(error),
    }
}
