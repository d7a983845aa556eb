//! One message that goes out, before it is signed.
ghost use Rattle.std.specs.Prelude.{◌≡◌, IfOk};
ghost use Rattle.jupyter_msg.specs.Octets.{octets, octets_of};
ghost use Rattle.kernel_message.specs.Draft.{said_of};
ghost use Rattle.kernel_message.specs.Message.{message as message_of};

use crate::draft::Draft;
use crate::header::header_octets;
use crate::stamp::Stamp;
use jupyter_msg::Message;
use std::alloc::{AllocError, Global};

/// The n-th message, to the identities, with the header of a request as its parent header.
pub(crate) fn message(
    alloc: Global,
    identities: Vec<Vec<u8>>,
    parent: &[u8],
    stamp: &Stamp,
    n: u64,
    draft: &Draft,
) -> Result<Message, AllocError>
    ensures { IfOk result (λ m. octets_of m
        ≡ message_of (octets identities.items) parent.now stamp.now n (said_of draft.now)) }
{
    let header = header_octets(alloc, stamp, n, draft.msg_type)?;
    let parent = parent.to_vec(alloc)?;
    let metadata = b"{}".to_vec(alloc)?;
    let content = draft.content.to_vec(alloc)?;
    Ok(Message {
        identities,
        header,
        parent,
        metadata,
        content,
        buffers: Vec::new(alloc),
    })
}
