//! Messages, and the frames in which they travel (Jupyter messaging page, "The Wire Protocol").
ghost use Rattle.std.specs.Prelude.{◌≡◌, ℕ, List, [], ◌∷◌, ◌+◌, ◌++◌, ◌≤◌, ◌⊎◌, Some, Err, IsTrue, IfOk, IfErr, OnOk, MatchResult, vec_len, drop, take};
ghost use Rattle.std.specs.Prelude.{position, string_bytes};
ghost use Rattle.std.specs.Str.{bytes_eq};
ghost use Rattle.jupyter_msg.specs.Asked.{Gives, header_text};
ghost use Rattle.jupyter_msg.specs.Fault.{Refuses};
ghost use Rattle.jupyter_msg.specs.Octets.{Octets, octets, octets_of};
ghost use Rattle.jupyter_msg.specs.Opened.{IsRead, AreReadFrom, AreReadAfter};
ghost use Rattle.jupyter_msg.specs.Message.{AreObjects, IsMessage, IsRefused, refusal_after, after_delimiter, no_object, comes_before_parts};
ghost use Rattle.jupyter_msg.specs.Message.{NoneIsDelimiter, delimiter, frames_of};

use crate::fault::{Field, MsgFault, Part};
use crate::fields::text;
use crate::object::part_object;
use crate::signature::sign;
use jupyter_signature::{Key, Parts, is_signed};
use serde_json::Value;
use std::alloc::Global;

/// The frame between the identities and the signature.
const DELIMITER: &[u8] = b"<IDS|MSG>";

/// A message: its parts as octets, as they were received or as they are sent.
#[derive(Drop)]
pub struct Message {
    /// The routing frames before the delimiter, sent back unchanged with a reply.
    pub identities: Vec<Vec<u8>>,
    /// What the message is and who sent it, as JSON.
    pub header: Vec<u8>,
    /// The header of the message that this one answers, as JSON.
    pub parent: Vec<u8>,
    /// What is said beside the content, as JSON.
    pub metadata: Vec<u8>,
    /// What the message says, as JSON.
    pub content: Vec<u8>,
    /// Frames after the content, kept as they are.
    pub buffers: Vec<Vec<u8>>,
}

/// A message that was opened, with its header and its content as they were read.
#[derive(Drop)]
pub struct Opened {
    /// The message, octet for octet.
    pub message: Message,
    /// The header, as JSON.
    pub header: Value,
    /// The content, as JSON.
    pub content: Value,
}

/// The header and the content of a message, as they were read.
#[derive(Drop)]
struct ReadParts {
    header: Value,
    content: Value,
}

/// The text of a field of a header.
fn header_text(alloc: Global, header: &[u8], field: Field) -> Result<String, MsgFault>
    ensures { Gives string_bytes result (header_text field header.now) }
{
    let header = part_object(alloc, header, Part::Header)?;
    text(alloc, &header, field)
}

impl Message {
    /// The name of the message, as its header's `msg_id` has it.
    ///
    /// # Errors
    ///
    /// `NotJson` with the header where that is no JSON object; `BadField` with `msg_id` where that is missing or no text;
    /// `Memory`.
    pub fn msg_id(&self, alloc: Global) -> Result<String, MsgFault>
        ensures { Gives string_bytes result (header_text Field.MsgId self.now.header.items) }
    {
        header_text(alloc, &self.header, Field::MsgId)
    }

    /// The session of who sent the message, as its header's `session` has it.
    ///
    /// # Errors
    ///
    /// Those of `msg_id`, with the field `session`.
    pub fn session(&self, alloc: Global) -> Result<String, MsgFault>
        ensures { Gives string_bytes result (header_text Field.Session self.now.header.items) }
    {
        header_text(alloc, &self.header, Field::Session)
    }

    /// What the message is, as its header's `msg_type` has it.
    ///
    /// # Errors
    ///
    /// Those of `msg_id`, with the field `msg_type`.
    pub fn msg_type(&self, alloc: Global) -> Result<String, MsgFault>
        ensures { Gives string_bytes result (header_text Field.MsgType self.now.header.items) }
    {
        header_text(alloc, &self.header, Field::MsgType)
    }
}

/// Where the first delimiter stands.
fn find_delimiter(frames: &[Vec<u8>]) -> Option<usize>
    ensures { result ≡ position (λ frame. bytes_eq frame.items delimiter) frames.now }
{
    frames
        .iter()
        .position(|frame| frame.as_slice() == DELIMITER)
}

/// Reads the header and the content of four parts that are each the text of a JSON object.
fn read_objects(alloc: Global, parts: &Parts<'_>) -> Result<ReadParts, MsgFault>
    ensures refused { Refuses result (no_object parts.now.header.now parts.now.parent.now
        parts.now.metadata.now parts.now.content.now) }
    ensures read { IfOk result (λ r. AreReadFrom r parts.now.header.now parts.now.content.now) }
{
    let header = part_object(alloc, parts.header, Part::Header)?;
    part_object(alloc, parts.parent, Part::Parent)?;
    part_object(alloc, parts.metadata, Part::Metadata)?;
    let content = part_object(alloc, parts.content, Part::Content)?;
    Ok(ReadParts { header, content })
}

/// Passes frames after a delimiter that are a signed message's, and reads its header and its content.
fn read_after(alloc: Global, after: &[Vec<u8>], key: &Key) -> Result<ReadParts, MsgFault>
    ensures refused { Refuses result (refusal_after key.now (octets after.now)) }
    ensures early { (fault : MsgFault) → IsTrue (comes_before_parts fault)
        → refusal_after key.now (octets after.now) ≡ Some fault → result ≡ Err fault }
    ensures read { IfOk result (λ r. AreReadAfter r (octets after.now)) }
{
    let [signature, header, parent, metadata, content, ..] = after else {
        return Err(MsgFault::ShortMessage);
    };
    let parts = Parts {
        header,
        parent,
        metadata,
        content,
    };
    if !is_signed(key, signature, &parts) {
        return Err(MsgFault::BadSignature);
    }
    read_objects(alloc, &parts)
}

/// The message of frames that have the delimiter at the place and at least five frames after it, with what was read of it.
fn take_apart(mut frames: Vec<Vec<u8>>, at: usize, read: ReadParts) -> Result<Opened, MsgFault>
    requires { at + 6 ≤ vec_len frames }
    ensures identities { IfOk result (λ o. octets o.message.identities.items ≡ octets (take at frames.items)) }
    ensures after { IfOk result (λ o. (signature : List ℕ)
        × (octets (drop (at + 1) frames.items) ≡ after_delimiter signature (octets_of o.message))) }
    ensures read { IfOk result (λ o. (o.header ≡ read.header) × (o.content ≡ read.content)) }
    ensures memory { IfErr result (λ e. e ≡ MsgFault.Memory) }
{
    let mut parts = frames.split_off(at)?;
    let buffers = parts.split_off(6)?;
    let content = parts.pop().unwrap();
    let metadata = parts.pop().unwrap();
    let parent = parts.pop().unwrap();
    let header = parts.pop().unwrap();
    let message = Message {
        identities: frames,
        header,
        parent,
        metadata,
        content,
        buffers,
    };
    Ok(Opened {
        message,
        header: read.header,
        content: read.content,
    })
}

/// Opens the frames of a message: cuts them at the first delimiter, looks at the signature under the key, and passes four
/// parts that are JSON objects. The message has its identities, parts and buffers octet for octet; none is copied. Its header
/// and its content are read once, and kept beside it. Under an empty key the signature is not looked at.
///
/// # Errors
///
/// The first that holds of: `NoDelimiter`; `ShortMessage` for fewer than five frames after the delimiter; `BadSignature`;
/// `NotJson` with the first part that is no JSON object. `Memory` may stand in the place of a message and of `NotJson`, and of no
/// other: nothing is allocated before the signature fits. With each of them the frames are dropped.
pub fn open(alloc: Global, frames: Vec<Vec<u8>>, key: &Key) -> Result<Opened, MsgFault>
    ensures message { IfOk result (λ o. IsMessage key.now (octets frames.items) (octets_of o.message)) }
    ensures read { IfOk result IsRead }
    ensures refused { IfErr result (λ e. (e ≡ MsgFault.Memory) ⊎ IsRefused key.now (octets frames.items) e) }

    // Every message is opened, and no other refusal is told than the first.
    ensures every { (m : Octets) → IsMessage key.now (octets frames.items) m
        → MatchResult result (λ o. octets_of o.message ≡ m) (λ e. e ≡ MsgFault.Memory) }
    ensures exactly { (fault : MsgFault) → IsRefused key.now (octets frames.items) fault
        → MatchResult result (λ _. ⊥) (λ e. (e ≡ MsgFault.Memory) ⊎ (e ≡ fault)) }

    // Memory is asked for only once the signature fits.
    ensures early { (fault : MsgFault) → IsTrue (comes_before_parts fault)
        → IsRefused key.now (octets frames.items) fault → result ≡ Err fault }
{
    let Some(at) = find_delimiter(&frames) else {
        return Err(MsgFault::NoDelimiter);
    };
    let read = read_after(alloc, &frames[at + 1..], key)?;
    take_apart(frames, at, read)
}

/// Adds a copy of the frame.
fn push_copy(alloc: Global, frames: &mut Vec<Vec<u8>>, frame: &[u8]) -> Result<(), MsgFault>
    ensures ok { OnOk result (octets frames.new.items ≡ octets frames.old.items ++ frame.now ∷ []) }
    ensures memory { IfErr result (λ e. e ≡ MsgFault.Memory) }
{
    frames.push(frame.to_vec(alloc)?)?;
    Ok(())
}

/// Adds a copy of each of the frames, in order.
pub(crate) fn push_copies(
    alloc: Global,
    frames: &mut Vec<Vec<u8>>,
    more: &[Vec<u8>],
) -> Result<(), MsgFault>
    ensures ok { OnOk result (octets frames.new.items ≡ octets frames.old.items ++ octets more.now) }
    ensures memory { IfErr result (λ e. e ≡ MsgFault.Memory) }
{
    for frame in more {
        push_copy(alloc, frames, frame)?;
    }
    Ok(())
}

/// The frames of the message, signed under the key: identities, delimiter, signature, header, parent header, metadata,
/// content, buffers. Under an empty key the signature is empty. They are opened again with the key where the four parts
/// are JSON objects and no identity is the delimiter.
///
/// # Errors
///
/// `Memory` where there is none for the frames.
pub fn seal(alloc: Global, message: &Message, key: &Key) -> Result<Vec<Vec<u8>>, MsgFault>
    ensures frames { IfOk result (λ frames. octets frames.items ≡ frames_of key.now (octets_of message.now)) }
    ensures opens { IfOk result (λ frames. AreObjects (octets_of message.now)
        → NoneIsDelimiter (octets message.now.identities.items)
        → IsMessage key.now (octets frames.items) (octets_of message.now)) }
    ensures memory { IfErr result (λ e. e ≡ MsgFault.Memory) }
{
    let parts = Parts {
        header: &message.header,
        parent: &message.parent,
        metadata: &message.metadata,
        content: &message.content,
    };
    let mut frames = Vec::new(alloc);
    push_copies(alloc, &mut frames, &message.identities)?;
    push_copy(alloc, &mut frames, DELIMITER)?;
    frames.push(sign(alloc, key, &parts)?.into_bytes())?;
    push_copy(alloc, &mut frames, parts.header)?;
    push_copy(alloc, &mut frames, parts.parent)?;
    push_copy(alloc, &mut frames, parts.metadata)?;
    push_copy(alloc, &mut frames, parts.content)?;
    push_copies(alloc, &mut frames, &message.buffers)?;
    Ok(frames)
}

impl Message {
    /// The frames of the message, as [`seal`] has them. Its parts are moved into them, and none is copied.
    ///
    /// # Errors
    ///
    /// `Memory` where there is none for the signature, the delimiter and the list.
    pub fn into_frames(self, alloc: Global, key: &Key) -> Result<Vec<Vec<u8>>, MsgFault>
        ensures frames { IfOk result (λ frames. octets frames.items ≡ frames_of key.now (octets_of self)) }
        ensures opens { IfOk result (λ frames. AreObjects (octets_of self)
            → NoneIsDelimiter (octets self.identities.items)
            → IsMessage key.now (octets frames.items) (octets_of self)) }
        ensures memory { IfErr result (λ e. e ≡ MsgFault.Memory) }
    {
        let parts = Parts {
            header: &self.header,
            parent: &self.parent,
            metadata: &self.metadata,
            content: &self.content,
        };
        let signature = sign(alloc, key, &parts)?.into_bytes();
        let Message {
            identities,
            header,
            parent,
            metadata,
            content,
            mut buffers,
        } = self;
        let mut frames = identities;
        frames.reserve(6)?;
        frames.push(DELIMITER.to_vec(alloc)?)?;
        frames.push(signature)?;
        frames.push(header)?;
        frames.push(parent)?;
        frames.push(metadata)?;
        frames.push(content)?;
        frames.append(&mut buffers)?;
        Ok(frames)
    }
}
