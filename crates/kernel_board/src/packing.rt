//! How a message is kept.
ghost use Rattle.std.specs.Prelude.{◌≡◌, IfOk};
ghost use Rattle.zmtp_wire.specs.Message.{bodies_of};
ghost use Rattle.kernel_board.specs.Frames.{topic_of};
ghost use Rattle.kernel_board.specs.Kept.{frames_kept};

use crate::content::{Content, LongMessage, WrittenMessage};
use std::alloc::{AllocError, Global};
use std::mem;
use zmtp_wire::{WireFault, octets_of_message};

/// Takes the first frame out of a message; no octets where there is no frame.
fn topic_out(alloc: Global, mut frames: Vec<Vec<u8>>) -> Vec<u8>
    ensures { result.items ≡ topic_of (bodies_of frames.items) }
{
    if frames.is_empty() {
        return Vec::new(alloc);
    }
    mem::replace(&mut frames[0], Vec::new(alloc))
}

/// What is kept of a message with these frames.
pub(crate) fn pack(alloc: Global, frames: Vec<Vec<u8>>) -> Result<Content, AllocError>
    ensures { IfOk result (λ content. frames_kept content ≡ bodies_of frames.items) }
{
    match octets_of_message(alloc, &frames) {
        Ok(octets) => {
            let topic = topic_out(alloc, frames);
            let message = WrittenMessage { octets, topic };
            Ok(Content::Written(message))
        }
        Err(WireFault::TooLong) => {
            let message = LongMessage { frames };
            Ok(Content::TooLong(message))
        }
        Err(_) => Err(AllocError),
    }
}
