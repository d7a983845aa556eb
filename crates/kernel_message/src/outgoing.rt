//! The messages in which an answer goes out, numbered and stamped.
ghost use Rattle.std.specs.Prelude.{◌≡◌, ◌<◌, ◌+◌, ◌^◌, [], ◌∷◌, length, map, vec_len, IfOk, IfErr, OnOk, OnErr};
ghost use Rattle.jupyter_msg.specs.Message.{frames_of};
ghost use Rattle.jupyter_msg.specs.Octets.{octets, octets_of};
ghost use Rattle.kernel_message.specs.Draft.{said_of};
ghost use Rattle.kernel_message.specs.Drafts.{says_of};
ghost use Rattle.kernel_message.specs.Message.{message as message_of, asker_of, broadcast_message, reply_message};
ghost use Rattle.kernel_message.specs.Sent.{sent_of, sent, numbered, next_after};

use crate::draft::Draft;
use crate::message::message;
use crate::stamp::Stamp;
use jupyter_msg::{Key, Message, MsgFault, Request};
use std::alloc::{AllocError, Global};
use std::marker::Model;

/// A message for all who subscribe to its topic, before it is signed. It has one identity, which is the topic: its type. Contracts
/// see it as the octets of its parts.
#[derive(Drop)]
pub struct Publication {
    message: Message,
}

impl Model for Publication {
    ghost use Rattle.jupyter_msg.specs.Octets.{Octets, octets_of};

    ghost Value = { Octets };

    ghost view = { λ b. octets_of b.message };
}

impl Publication {
    /// The message, to be signed and sent.
    pub fn message(&self) -> &Message
        ensures { octets_of result.now ≡ self.now }
    {
        &self.message
    }

    /// The frames of the message, signed under the key; its parts are moved into them. The only error is want of memory.
    pub fn into_frames(self, alloc: Global, key: &Key) -> Result<Vec<Vec<u8>>, MsgFault>
        ensures frames { IfOk result (λ frames. octets frames.items ≡ frames_of key.now self) }
        ensures memory { IfErr result (λ e. e ≡ MsgFault.Memory) }
    {
        let Publication { message } = self;
        message.into_frames(alloc, key)
    }
}

/// The messages that go out in answer to a request, before they are signed. They are numbered in this order: the reply, then the broadcasts. Whoever sends them
/// decides which goes out first; `kernel_session` publishes the broadcasts, and then writes the reply.
#[derive(Drop)]
pub struct Outgoing {
    /// The reply to who asked, if the request has one.
    pub reply: Option<Message>,
    /// The broadcasts, in order.
    pub broadcasts: Vec<Publication>,
}

/// What is said in answer to a request.
#[derive(Drop)]
pub struct Drafts {
    /// The reply, if the request has one.
    pub reply: Option<Draft>,
    /// The broadcasts, in order.
    pub broadcasts: Vec<Draft>,
}

/// A broadcast under the stamp's next number, with the header of a request as its parent header. The stamp is not moved on. The only
/// error is want of memory.
pub fn broadcast_of(
    alloc: Global,
    parent: &[u8],
    stamp: &Stamp,
    draft: &Draft,
) -> Result<Publication, AllocError>
    ensures { IfOk result (λ b. b ≡ broadcast_message parent.now stamp.now stamp.now.next (said_of draft.now)) }
{
    numbered_broadcast(alloc, parent, stamp, stamp.next, draft)
}

/// A broadcast, under its number.
fn numbered_broadcast(
    alloc: Global,
    parent: &[u8],
    stamp: &Stamp,
    n: u64,
    draft: &Draft,
) -> Result<Publication, AllocError>
    ensures { IfOk result (λ b. b ≡ broadcast_message parent.now stamp.now n (said_of draft.now)) }
{
    let topic = draft.msg_type.as_bytes().to_vec(alloc)?;
    let identities = Vec::from_array(alloc, [topic])?;
    let message = message(alloc, identities, parent, stamp, n, draft)?;
    Ok(Publication { message })
}

/// Copies of the frames.
fn copies(alloc: Global, frames: &[Vec<u8>]) -> Result<Vec<Vec<u8>>, AllocError>
    ensures { IfOk result (λ v. octets v.items ≡ octets frames.now) }
{
    let mut copies = Vec::new(alloc);
    for frame in frames {
        copies.push(frame.as_slice().to_vec(alloc)?)?;
    }
    Ok(copies)
}

/// A reply to who asked, under the stamp's next number.
fn reply(
    alloc: Global,
    request: &Request,
    stamp: &Stamp,
    draft: &Draft,
) -> Result<Message, AllocError>
    ensures { IfOk result (λ m. octets_of m
        ≡ reply_message (asker_of request.now) stamp.now stamp.now.next (said_of draft.now)) }
{
    let identities = copies(alloc, &request.identities)?;
    message(alloc, identities, &request.header, stamp, stamp.next, draft)
}

/// Broadcasts, numbered from `first` on.
fn broadcasts(
    alloc: Global,
    parent: &[u8],
    stamp: &Stamp,
    first: u64,
    drafts: &[Draft],
) -> Result<Vec<Publication>, AllocError>
    requires { first + length drafts.now < 2 ^ 64 }
    ensures { IfOk result (λ v. v.items ≡ numbered parent.now stamp.now first (map said_of drafts.now)) }
{
    let mut messages = Vec::new(alloc);
    let mut n = first;
    for draft in drafts {
        messages.push(numbered_broadcast(alloc, parent, stamp, n, draft)?)?;
        n += 1;
    }
    Ok(messages)
}

/// The messages of an answer: the stamp's next number is the reply's, or where there is none the first broadcast's.
fn messages(
    alloc: Global,
    request: &Request,
    drafts: &Drafts,
    stamp: &Stamp,
) -> Result<Outgoing, AllocError>
    requires { stamp.now.next + vec_len drafts.now.broadcasts + 1 < 2 ^ 64 }
    ensures { IfOk result (λ out. sent_of out
        ≡ sent (asker_of request.now) stamp.now (says_of drafts.now)) }
{
    match &drafts.reply {
        Some(draft) => {
            let reply = reply(alloc, request, stamp, draft)?;
            let first = stamp.next + 1;
            let broadcasts = broadcasts(alloc, &request.header, stamp, first, &drafts.broadcasts)?;
            Ok(Outgoing {
                reply: Some(reply),
                broadcasts,
            })
        }
        None => {
            let first = stamp.next;
            let broadcasts = broadcasts(alloc, &request.header, stamp, first, &drafts.broadcasts)?;
            Ok(Outgoing {
                reply: None,
                broadcasts,
            })
        }
    }
}

/// The messages of an answer, and the stamp moved on by their number. The reply goes to who asked; the parent header of each
/// message is the header of the request.
///
/// # Errors
///
/// `AllocError` where there is no memory for them; the stamp is then as before.
pub fn send(
    alloc: Global,
    request: &Request,
    drafts: &Drafts,
    stamp: &mut Stamp,
) -> Result<Outgoing, AllocError>
    requires { stamp.old.next + vec_len drafts.now.broadcasts + 1 < 2 ^ 64 }
    ensures sent { IfOk result (λ out. sent_of out
        ≡ sent (asker_of request.now) stamp.old (says_of drafts.now)) }
    ensures next { OnOk result (stamp.new
        ≡ record stamp.old { next = next_after stamp.old (says_of drafts.now) }) }
    ensures err { OnErr result (stamp.new ≡ stamp.old) }
{
    let out = messages(alloc, request, drafts, stamp)?;
    let replies = if out.reply.is_some() { 1 } else { 0 };
    stamp.next += replies + drafts.broadcasts.len() as u64;
    Ok(out)
}
