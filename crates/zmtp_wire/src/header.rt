//! What stands before a frame's body: the flags and the size (RFC 23, "Formal Grammar": command and message).
ghost use Rattle.std.specs.Prelude.{◌≡◌, ◌&&◌, ◌+◌, ◌++◌, ◌<◌, ◌≤◌, false, length, nat_lt, take, vec_len, vec_capacity};
ghost use Rattle.std.specs.Prelude.{IfErr, IfNone, IfOk, IfSome, OnOk, OnErr};
ghost use Rattle.zmtp_wire.specs.declared.message.TheConstants.{HEADER_LENGTH};
ghost use Rattle.zmtp_wire.specs.Header.{flags, size_octets, size_bound, header_octets};
ghost use Rattle.zmtp_wire.specs.Fronts.{HasHeader, IsHeaderBegun, HasBadFlags, IsBadFlags};

use crate::fault::WireFault;
use std::alloc::AllocError;

/// The flag of a frame that isn't the last of its message.
const MORE: u8 = 1;

/// The flag of a size in eight octets.
const LONG: u8 = 2;

/// The flag of a frame that is a command (RFC 23, "Framing": bit 2 of a frame's flags).
pub const COMMAND: u8 = 4;

/// The largest size that the short form holds.
const SHORT_SIZE: u64 = 255;

/// The flags of a frame, without the form of its size, and how many octets its body has.
#[derive(Clone, Copy)]
pub(crate) struct Header {
    pub(crate) more: bool,
    pub(crate) command: bool,
    pub(crate) size: u64,
}

/// The three flags.
#[derive(Clone, Copy)]
struct Flags {
    more: bool,
    long: bool,
    command: bool,
}

impl Flags {
    /// The flags in an octet.
    fn read(octet: u8) -> Result<Flags, WireFault>
        ensures spelled { IfOk result (λ f. octet ≡ flags f.more f.long f.command) }
        ensures allowed { IfOk result (λ f. (f.command && f.more) ≡ false) }
        ensures fault { IfErr result (IsBadFlags octet) }
    {
        if octet > MORE | LONG | COMMAND {
            return Err(WireFault::ReservedBits);
        }
        let flags = Flags {
            more: octet & MORE != 0,
            long: octet & LONG != 0,
            command: octet & COMMAND != 0,
        };
        if flags.command && flags.more {
            return Err(WireFault::CommandWithMore);
        }
        Ok(flags)
    }

    /// The octet of the flags.
    fn octet(self) -> u8
        ensures { result ≡ flags self.more self.long self.command }
    {
        let more = if self.more { MORE } else { 0 };
        let long = if self.long { LONG } else { 0 };
        let command = if self.command { COMMAND } else { 0 };
        more | long | command
    }
}

impl Header {
    /// The header at the front of the octets, and what is behind it; none where some of it is missing.
    ///
    /// # Errors
    /// `ReservedBits` or `CommandWithMore`, as soon as the flags octet is there.
    pub(crate) fn read(octets: &[u8]) -> Result<Option<(Header, &[u8])>, WireFault>
        ensures found { IfOk result (λ found. IfSome found (λ x. HasHeader octets.now x.0 x.1.now)) }
        ensures begun { IfOk result (λ found. IfNone found (IsHeaderBegun octets.now)) }
        ensures fault { IfErr result (HasBadFlags octets.now) }
    {
        let Some((first, behind)) = octets.split_first() else {
            return Ok(None);
        };
        let flags = Flags::read(*first)?;
        let Some((size, body)) = size_at(flags.long, behind) else {
            return Ok(None);
        };
        let header = Header {
            more: flags.more,
            command: flags.command,
            size,
        };
        Ok(Some((header, body)))
    }

    /// Writes the header at the end: in the long form where the size doesn't fit one octet. After an error a part of it
    /// may stand there.
    pub(crate) fn write(self, octets: &mut Vec<u8>) -> Result<(), AllocError>
        ensures ok { OnOk result (octets.new.items ≡ octets.old.items ++ header_octets (nat_lt 255 self.size) self) }
        ensures front { take (length octets.old.items) octets.new.items ≡ octets.old.items }
        ensures size { OnOk result (vec_len octets.new ≤ vec_len octets.old + HEADER_LENGTH) }
        ensures capacity { vec_capacity octets.old ≤ vec_capacity octets.new }
        ensures full { OnErr result (vec_capacity octets.old < vec_len octets.old + HEADER_LENGTH) }
    {
        let flags = Flags {
            more: self.more,
            long: self.size > SHORT_SIZE,
            command: self.command,
        };
        octets.push(flags.octet())?;
        if flags.long {
            return octets.extend_from_slice(&self.size.to_be_bytes());
        }
        octets.push(self.size as u8)?;
        Ok(())
    }
}

/// The size at the front of the octets, and what is behind it; none where some of it is missing.
fn size_at(long: bool, octets: &[u8]) -> Option<(u64, &[u8])>
    ensures front { IfSome result (λ x. octets.now ≡ size_octets long x.0 ++ x.1.now) }
    ensures bounded { IfSome result (λ x. x.0 < size_bound long) }
    ensures missing { IfNone result (length octets.now < length (size_octets long 0)) }
{
    if long {
        let (size, behind) = octets.split_first_chunk::<8>()?;
        return Some((u64::from_be_bytes(*size), behind));
    }
    let (size, behind) = octets.split_first()?;
    Some((u64::from(*size), behind))
}
