//! Replies that a reader takes.
ghost use Rattle.std.specs.Prelude.{◌≡◌, ◌+◌, ◌<◌, IfOk, IfErr, IfSome, IfNone, length, sum_by};
ghost use Rattle.jupyter_msg.specs.Octets.{octets, octets_of};
ghost use Rattle.zmtp_wire.specs.Tally.{octet_limit};
ghost use Rattle.kernel_session.specs.Ends.{IsMidway};
ghost use Rattle.kernel_session.specs.Sendable.{size_of, sendable as sendable_of, too_long_content};

use crate::fault::ServeFault;
use jupyter_msg::Message;
use std::alloc::Global;
use zmtp_wire::MESSAGE_OCTET_LIMIT;

/// The content of a reply that stands in the place of one past 16 MiB.
const TOO_LONG: &[u8] =
    b"{\"ename\":\"TooLong\",\"evalue\":\"reply past 16777216 octets\",\"status\":\"error\",\"traceback\":[\"reply past 16777216 octets\"]}";

/// The octets of a message's delimiter and of its signature.
const DELIMITER_AND_SIGNATURE: u64 = 73;

/// How much of `most` is left beside the octets of frames; none where they have more.
fn octets_within(frames: &[Vec<u8>], most: u64) -> Option<u64>
    ensures some { IfSome result (λ left. left + sum_by length (octets frames.now) ≡ most) }
    ensures none { IfNone result (most < sum_by length (octets frames.now)) }
{
    let mut left = most;
    for frame in frames {
        let count = frame.len() as u64;
        if count > left {
            return None;
        }
        left -= count;
    }
    Some(left)
}

/// How much of what a reader takes is left beside a message; none where it is longer.
fn room_beside(message: &Message) -> Option<u64>
    ensures some { IfSome result (λ left. left + size_of (octets_of message.now) ≡ octet_limit) }
    ensures none { IfNone result (octet_limit < size_of (octets_of message.now)) }
{
    let left = octets_within(&message.identities, MESSAGE_OCTET_LIMIT)?;
    let left = octets_within(&message.buffers, left)?;
    left.checked_sub(DELIMITER_AND_SIGNATURE)?
        .checked_sub(message.header.len() as u64)?
        .checked_sub(message.parent.len() as u64)?
        .checked_sub(message.metadata.len() as u64)?
        .checked_sub(message.content.len() as u64)
}

/// The reply that goes out: this one, or one of its type that tells that it is longer than any reader takes.
pub(crate) fn sendable(alloc: Global, reply: Message) -> Result<Message, ServeFault>
    ensures sent { IfOk result (λ m. octets_of m ≡ sendable_of (octets_of reply)) }
    ensures midway { IfErr result IsMidway }
{
    if room_beside(&reply).is_some() {
        return Ok(reply);
    }
    let Ok(content) = TOO_LONG.to_vec(alloc) else {
        return Err(ServeFault::Memory);
    };
    Ok(Message { content, ..reply })
}
