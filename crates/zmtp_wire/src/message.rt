//! Messages (RFC 23, "Formal Grammar": message).
ghost use Rattle.std.specs.Prelude.{◌≡◌, ◌≤◌, ◌<◌, ◌++◌, length, sum_by, take, IfErr, IfNone, IfOk, IfSome, OnErr, OnOk};
ghost use Rattle.std.specs.Prelude.{false};
ghost use Rattle.zmtp_wire.specs.Frame.{written};
ghost use Rattle.zmtp_wire.specs.Message.{bodies_of, message_octets, IsWithinLimits, IsMessageFault};

use crate::fault::WireFault;
use crate::frame::push_frame;
use crate::header::Header;
use crate::tally::{MESSAGE_FRAME_LIMIT, MESSAGE_OCTET_LIMIT};
use std::alloc::{AllocError, Global};

/// The octets that a frame's header has at most.
pub(crate) const HEADER_LENGTH: usize = 9;

/// Writes a message at the end of the octets: a frame for each of the bodies, in their order. There is at least one body.
///
/// # Errors
/// `TooLong` for more than 1,024 bodies, or more than 16,777,216 octets in all bodies: no reader takes such a message. `Memory`
/// for other messages alone. After an error the octets are as before.
pub fn write_message(octets: &mut Vec<u8>, bodies: &[Vec<u8>]) -> Result<(), WireFault>
    requires { 0 < length bodies.now }
    ensures written { OnOk result (octets.new.items ≡ octets.old.items ++ message_octets (bodies_of bodies.now)) }
    ensures fits { OnOk result (IsWithinLimits (bodies_of bodies.now)) }
    ensures fault { IfErr result (IsMessageFault (bodies_of bodies.now)) }
    ensures unchanged { OnErr result (octets.new.items ≡ octets.old.items) }
{
    let Some(size) = size_within(bodies) else {
        return Err(WireFault::TooLong);
    };
    octets.reserve(size as usize + HEADER_LENGTH * bodies.len())?;
    let before = octets.len();
    match push_frames(octets, bodies) {
        Ok(()) => Ok(()),
        Err(_) => {
            octets.truncate(before);
            Err(WireFault::Memory)
        }
    }
}

/// The octets of a message with these bodies; none where there is no body.
///
/// # Errors
/// `TooLong` for a message that passes a limit, as [`write_message`] has it, and `Memory` for other messages alone.
pub fn octets_of_message(alloc: Global, bodies: &[Vec<u8>]) -> Result<Vec<u8>, WireFault>
    ensures octets { IfOk result (λ octets. octets.items ≡ message_octets (bodies_of bodies.now)) }
    ensures within { OnOk result (IsWithinLimits (bodies_of bodies.now)) }
    ensures fault { IfErr result (IsMessageFault (bodies_of bodies.now)) }
{
    let mut octets = Vec::new(alloc);
    if bodies.is_empty() {
        return Ok(octets);
    }
    match write_message(&mut octets, bodies) {
        Ok(()) => Ok(octets),
        Err(fault) => Err(fault),
    }
}

/// How many octets all bodies of a message have; none where it passes a limit.
pub(crate) fn size_within(bodies: &[Vec<u8>]) -> Option<u64>
    ensures some { IfSome result (λ size. IsWithinLimits (bodies_of bodies.now)) }
    ensures size { IfSome result (λ size. size ≡ sum_by length (bodies_of bodies.now)) }
    ensures none { IfNone result (¬ (IsWithinLimits (bodies_of bodies.now))) }
{
    if bodies.len() as u64 > MESSAGE_FRAME_LIMIT {
        return None;
    }
    let mut size = 0;
    for body in bodies {
        let more = body.len() as u64;
        if more > MESSAGE_OCTET_LIMIT - size {
            return None;
        }
        size += more;
    }
    Some(size)
}

/// Writes a frame of a message at the end. After an error a part of it may stand there.
fn push_part(octets: &mut Vec<u8>, more: bool, body: &[u8]) -> Result<(), AllocError>
    ensures ok { OnOk result (octets.new.items ≡ octets.old.items ++ written (record { more = more; command = false; body = body.now })) }
    ensures front { take (length octets.old.items) octets.new.items ≡ octets.old.items }
{
    let header = Header {
        more,
        command: false,
        size: body.len() as u64,
    };
    push_frame(octets, header, body)
}

/// Writes the frames of a message at the end. After an error a part of them may stand there.
fn push_frames(octets: &mut Vec<u8>, bodies: &[Vec<u8>]) -> Result<(), AllocError>
    requires { 0 < length bodies.now }
    ensures ok { OnOk result (octets.new.items ≡ octets.old.items ++ message_octets (bodies_of bodies.now)) }
    ensures front { take (length octets.old.items) octets.new.items ≡ octets.old.items }
{
    let Some((last, others)) = bodies.split_last() else {
        return Ok(());
    };
    for body in others {
        push_part(octets, true, body)?;
    }
    push_part(octets, false, last)
}
