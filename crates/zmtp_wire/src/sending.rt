//! A message, or the answer to a ping, on its way to a writer.
ghost use Rattle.std.specs.Prelude.{◌≡◌, ◌≢◌, ◌+◌, ◌++◌, ◌<◌, ◌≤◌, [], false, length, vec_len, vec_capacity, IfErr, IfOk, OnErr, OnOk};
ghost use Rattle.std.specs.Io.KnownBytes.{Appends};
ghost use Rattle.exact_write.specs.Sent.{SentSome};
ghost use Rattle.zmtp_wire.specs.Frame.{written};
ghost use Rattle.zmtp_wire.specs.UnderWay.{IsUnderWay};
ghost use Rattle.zmtp_wire.specs.Message.{bodies_of, message_octets, IsWithinLimits};
ghost use Rattle.zmtp_wire.specs.Pong.{pong_octets};
ghost use Rattle.zmtp_wire.specs.Tally.{octet_limit};
ghost use Rattle.zmtp_wire.specs.declared.message.TheConstants.{HEADER_LENGTH};
ghost use Rattle.zmtp_wire.specs.declared.sending.TheConstants.{JOINED_OCTETS};

use crate::fault::WireFault;
use crate::frame::Frame;
use crate::header::Header;
use crate::message::{HEADER_LENGTH, octets_of_message, size_within};
use exact_write::send;
use std::alloc::{AllocError, Global};
use std::io::Write;
use thiserror::Error;

/// Why a message, or the answer to a ping, did not go out whole.
#[derive(Clone, Copy, Debug, Error)]
pub enum SendFault {
    /// The message passes a limit, so no reader takes it. Nothing went out.
    #[error("TooLong")]
    TooLong,
    /// There was no memory. Nothing went out.
    #[error("Memory")]
    Memory,
    /// The writer failed.
    #[error("Write")]
    Write,
}

/// The most octets of a message that are joined before they are written. A body that doesn't fit behind those that are joined is written from
/// where it lies, so a message takes at most two writes for each so many octets and one more, where the writer takes all that it is handed.
const JOINED_OCTETS: usize = 8192;

impl From<AllocError> for SendFault {
    ghost use Rattle.std.specs.Prelude.{◌≡◌};
    ghost use Rattle.zmtp_wire.specs.declared.sending.SendFault.TheVariants.{Memory};

    ghost from_gives = { λ _ e. e ≡ Memory };

    fn from(_: AllocError) -> Self {
        SendFault::Memory
    }
}

/// Why octets that could not be made don't go out.
fn unmade(fault: WireFault) -> SendFault
    ensures { result ≡ SendFault.TooLong → fault ≡ WireFault.TooLong }
{
    match fault {
        WireFault::TooLong => SendFault::TooLong,
        _ => SendFault::Memory,
    }
}

/// Writes octets: all, or a beginning of them.
fn send_octets<W: Write>(writer: &mut W, octets: &[u8]) -> Result<(), SendFault>
    ensures ok { OnOk result (Appends (W.contents writer.old) (W.contents writer.new) octets.now) }
    ensures err { OnErr result (SentSome (W.contents writer.old) (W.contents writer.new) octets.now) }
    ensures write { IfErr result (λ fault. fault ≡ SendFault.Write) }
{
    match send(writer, octets) {
        Ok(()) => Ok(()),
        Err(_) => Err(SendFault::Write),
    }
}

/// Writes what is joined, and a body behind it.
fn send_both<W: Write>(writer: &mut W, joined: &mut Vec<u8>, body: &[u8]) -> Result<(), SendFault>
    ensures ok { OnOk result (Appends (W.contents writer.old) (W.contents writer.new) (joined.old.items ++ body.now)) }
    ensures empty { OnOk result (joined.new.items ≡ []) }
    ensures none { OnOk result (vec_len joined.new ≡ 0) }
    ensures capacity { vec_capacity joined.new ≡ vec_capacity joined.old }
    ensures err { OnErr result (SentSome (W.contents writer.old) (W.contents writer.new) (joined.old.items ++ body.now)) }
    ensures write { IfErr result (λ fault. fault ≡ SendFault.Write) }
{
    send_octets(writer, joined)?;
    joined.clear();
    send_octets(writer, body)
}

/// Joins a body to what is joined, for which there is room, or writes both.
fn join_or_send<W: Write>(
    writer: &mut W,
    joined: &mut Vec<u8>,
    body: &[u8],
) -> Result<(), SendFault>
    requires room { JOINED_OCTETS ≤ vec_capacity joined.old }
    ensures ok { OnOk result (IsUnderWay (W.contents writer.old) (W.contents writer.new) (joined.old.items ++ body.now) joined.new.items) }
    ensures few { OnOk result (vec_len joined.new ≤ JOINED_OCTETS) }
    ensures capacity { vec_capacity joined.old ≤ vec_capacity joined.new }
    ensures err { OnErr result (SentSome (W.contents writer.old) (W.contents writer.new) (joined.old.items ++ body.now)) }
    ensures write { IfErr result (λ fault. fault ≡ SendFault.Write) }
{
    if joined.len() + body.len() <= JOINED_OCTETS {
        match joined.extend_from_slice(body) {
            Ok(()) => return Ok(()),
            Err(_) => unreachable!(),
        }
    }
    send_both(writer, joined, body)
}

/// Joins a frame to what is joined, for which there is room, or writes of both what doesn't stay joined.
fn send_part<W: Write>(
    writer: &mut W,
    joined: &mut Vec<u8>,
    more: bool,
    body: &[u8],
) -> Result<(), SendFault>
    requires few { vec_len joined.old ≤ JOINED_OCTETS }
    requires room { JOINED_OCTETS + HEADER_LENGTH ≤ vec_capacity joined.old }
    ensures few { OnOk result (vec_len joined.new ≤ JOINED_OCTETS) }
    ensures capacity { vec_capacity joined.old ≤ vec_capacity joined.new }
    ensures ok { OnOk result (IsUnderWay (W.contents writer.old) (W.contents writer.new)
        (joined.old.items ++ written (record { more = more; command = false; body = body.now })) joined.new.items) }
    ensures err { OnErr result (SentSome (W.contents writer.old) (W.contents writer.new)
        (joined.old.items ++ written (record { more = more; command = false; body = body.now }))) }
    ensures write { IfErr result (λ fault. fault ≡ SendFault.Write) }
{
    let header = Header {
        more,
        command: false,
        size: body.len() as u64,
    };
    match header.write(joined) {
        Ok(()) => join_or_send(writer, joined, body),
        Err(_) => unreachable!(),
    }
}

/// Writes the frames of a message, but for the last of its octets, which stay joined.
fn send_parts<W: Write>(
    writer: &mut W,
    joined: &mut Vec<u8>,
    bodies: &[Vec<u8>],
) -> Result<(), SendFault>
    requires empty { joined.old.items ≡ [] }
    requires none { vec_len joined.old ≡ 0 }
    requires room { JOINED_OCTETS + HEADER_LENGTH ≤ vec_capacity joined.old }
    ensures ok { OnOk result (IsUnderWay (W.contents writer.old) (W.contents writer.new) (message_octets (bodies_of bodies.now)) joined.new.items) }
    ensures err { OnErr result (SentSome (W.contents writer.old) (W.contents writer.new) (message_octets (bodies_of bodies.now))) }
    ensures write { IfErr result (λ fault. fault ≡ SendFault.Write) }
{
    let Some((last, others)) = bodies.split_last() else {
        return Ok(());
    };
    for body in others {
        send_part(writer, joined, true, body)?;
    }
    send_part(writer, joined, false, last)
}

/// Writes a message that is joined whole, which no limit stops.
fn send_whole<W: Write>(alloc: Global, writer: &mut W, bodies: &[Vec<u8>]) -> Result<(), SendFault>
    requires { IsWithinLimits (bodies_of bodies.now) }
    ensures ok { OnOk result (Appends (W.contents writer.old) (W.contents writer.new) (message_octets (bodies_of bodies.now))) }
    ensures err { OnErr result (SentSome (W.contents writer.old) (W.contents writer.new) (message_octets (bodies_of bodies.now))) }
    ensures within { IfErr result (λ fault. fault ≢ SendFault.TooLong) }
    ensures unsent { IfErr result (λ fault. fault ≡ SendFault.Memory → writer.new ≡ writer.old) }
{
    match octets_of_message(alloc, bodies) {
        Ok(octets) => send_octets(writer, &octets),
        Err(_) => Err(SendFault::Memory),
    }
}

/// Writes a long message, whose frames are joined as far as they are short.
fn send_long<W: Write>(alloc: Global, writer: &mut W, bodies: &[Vec<u8>]) -> Result<(), SendFault>
    ensures ok { OnOk result (Appends (W.contents writer.old) (W.contents writer.new) (message_octets (bodies_of bodies.now))) }
    ensures err { OnErr result (SentSome (W.contents writer.old) (W.contents writer.new) (message_octets (bodies_of bodies.now))) }
    ensures within { IfErr result (λ fault. fault ≢ SendFault.TooLong) }
    ensures unsent { IfErr result (λ fault. fault ≡ SendFault.Memory → writer.new ≡ writer.old) }
{
    let mut joined = Vec::with_capacity(alloc, JOINED_OCTETS + HEADER_LENGTH)?;
    send_parts(writer, &mut joined, bodies)?;
    send_octets(writer, &joined)
}

/// Writes a message, a frame for each of the bodies: all its octets, or a beginning of them. Without a body nothing is written. Its memory is that of
/// the octets that are joined, however long the message is, and it is taken before anything is written.
///
/// # Errors
/// `TooLong` for a message that passes a limit, and for no other; `Memory` where there is none; of either nothing goes out. `Write` where the writer failed.
pub fn send_message<W: Write>(
    alloc: Global,
    writer: &mut W,
    bodies: &[Vec<u8>],
) -> Result<(), SendFault>
    ensures ok { OnOk result (Appends (W.contents writer.old) (W.contents writer.new) (message_octets (bodies_of bodies.now))) }
    ensures within { OnOk result (IsWithinLimits (bodies_of bodies.now)) }
    ensures err { OnErr result (SentSome (W.contents writer.old) (W.contents writer.new) (message_octets (bodies_of bodies.now))) }
    ensures too_long { IfErr result (λ fault. fault ≡ SendFault.TooLong → ¬ (IsWithinLimits (bodies_of bodies.now))) }
    ensures refused { IfErr result (λ fault. fault ≡ SendFault.TooLong → writer.new ≡ writer.old) }
    ensures unsent { IfErr result (λ fault. fault ≡ SendFault.Memory → writer.new ≡ writer.old) }
{
    let Some(size) = size_within(bodies) else {
        return Err(SendFault::TooLong);
    };
    if size as usize + HEADER_LENGTH * bodies.len() <= JOINED_OCTETS {
        send_whole(alloc, writer, bodies)
    } else {
        send_long(alloc, writer, bodies)
    }
}

/// The octets of the answer to a ping with this context.
fn pong_of(alloc: Global, context: &[u8]) -> Result<Vec<u8>, SendFault>
    ensures ok { IfOk result (λ octets. octets.items ≡ pong_octets context.now) }
    ensures too_long { IfErr result (λ fault. fault ≡ SendFault.TooLong → octet_limit < 5 + length context.now) }
{
    let pong = match Frame::pong(alloc, context) {
        Ok(pong) => pong,
        Err(_) => return Err(SendFault::Memory),
    };
    match pong.write(alloc) {
        Ok(octets) => Ok(octets),
        Err(fault) => Err(unmade(fault)),
    }
}

/// Writes the answer to a ping with this context, a command of its own: all its octets, or a beginning of them. It goes between two messages.
///
/// # Errors
/// `TooLong` for a context that doesn't fit the longest command with the five octets of its name, and for no other; `Memory` where there
/// is none; `Write` where the writer failed.
pub fn send_pong<W: Write>(alloc: Global, writer: &mut W, context: &[u8]) -> Result<(), SendFault>
    ensures ok { OnOk result (Appends (W.contents writer.old) (W.contents writer.new) (pong_octets context.now)) }
    ensures err { OnErr result (SentSome (W.contents writer.old) (W.contents writer.new) (pong_octets context.now)) }
    // A context of a ping, of at most 16 octets, is never too long.
    ensures too_long { IfErr result (λ fault. fault ≡ SendFault.TooLong → octet_limit < 5 + length context.now) }
{
    let octets = pong_of(alloc, context)?;
    send_octets(writer, &octets)
}
