//! Frames (RFC 23, "Formal Grammar": command and message).
ghost use Rattle.std.specs.Prelude.{◌≡◌, ◌≤◌, ◌++◌, length, nat_lt, take, IfErr, IfOk, OnOk};
ghost use Rattle.zmtp_wire.specs.Header.{header_octets};

use crate::fault::WireFault;
use crate::header::Header;
use crate::pong::PONG;
use crate::tally::MESSAGE_OCTET_LIMIT;
use std::alloc::{AllocError, Global};

/// A frame: a part of a message, or a command.
#[derive(Drop, PartialEq, Eq)]
pub struct Frame {
    /// Whether more frames of the same message follow.
    pub more: bool,
    /// Whether the frame is a command, and no part of a message.
    pub command: bool,
    /// The octets.
    pub body: Vec<u8>,
}

impl Frame {
    ghost use Rattle.zmtp_wire.specs.Tally.{octet_limit};
    ghost use Rattle.zmtp_wire.specs.Frame.{frame_of, written, IsFrame, IsWriteFault};
    ghost use Rattle.zmtp_wire.specs.Pong.{pong};

    /// The command that answers a PING: PONG with the ping's context (RFC 37).
    ///
    /// # Errors
    /// Want of memory.
    pub fn pong(alloc: Global, context: &[u8]) -> Result<Frame, AllocError>
        ensures { IfOk result (λ frame. frame_of frame ≡ pong context.now) }
    {
        let mut body = Vec::from_slice(alloc, PONG)?;
        body.extend_from_slice(context)?;
        Ok(Frame {
            more: false,
            command: true,
            body,
        })
    }

    /// The octets of the frame: its size in one octet up to 255, and in eight octets above.
    ///
    /// # Errors
    /// `CommandWithMore` for a command with `more`, else `TooLong` for a body of more than 16,777,216 octets: no reader
    /// takes such a frame. `Memory` for other frames alone.
    pub fn write(&self, alloc: Global) -> Result<Vec<u8>, WireFault>
        ensures written { IfOk result (λ octets. octets.items ≡ written (frame_of self.now)) }
        ensures frame { IfOk result (λ octets. IsFrame octets.items (frame_of self.now)) }
        ensures size { OnOk result (length self.now.body.items ≤ octet_limit) }
        ensures fault { IfErr result (IsWriteFault (frame_of self.now)) }
    {
        if self.command && self.more {
            return Err(WireFault::CommandWithMore);
        }
        let size = self.body.len() as u64;
        if size > MESSAGE_OCTET_LIMIT {
            return Err(WireFault::TooLong);
        }
        let header = Header {
            more: self.more,
            command: self.command,
            size,
        };
        let mut octets = Vec::new(alloc);
        push_frame(&mut octets, header, &self.body)?;
        Ok(octets)
    }
}

/// Writes a frame with this header and body at the end. After an error a part of it may stand there.
pub(crate) fn push_frame(
    octets: &mut Vec<u8>,
    header: Header,
    body: &[u8],
) -> Result<(), AllocError>
    ensures ok { OnOk result (octets.new.items ≡ octets.old.items ++ header_octets (nat_lt 255 header.size) header ++ body.now) }
    ensures front { take (length octets.old.items) octets.new.items ≡ octets.old.items }
{
    header.write(octets)?;
    octets.extend_from_slice(body)
}
