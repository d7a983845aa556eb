//! Messages, and answers to pings, that go out on a connection.
ghost use Rattle.std.specs.Prelude.{IfErr, OnErr, OnOk};
ghost use Rattle.std.specs.Io.KnownBytes.{Appends};
ghost use Rattle.exact_write.specs.Sent.{SentSome};
ghost use Rattle.zmtp_wire.specs.Message.{bodies_of, message_octets};
ghost use Rattle.zmtp_wire.specs.Pong.{pong_octets};
ghost use Rattle.kernel_session.specs.Ends.{IsMidway};

use crate::fault::ServeFault;
use kernel_board::Broadcast;
use std::alloc::Global;
use std::io::Write;
use zmtp_wire::SendFault;

/// Writes a message of these frames: all its octets, or a beginning of them.
pub(crate) fn send_message<W: Write>(
    alloc: Global,
    writer: &mut W,
    frames: &[Vec<u8>],
) -> Result<(), ServeFault>
    ensures ok { OnOk result (Appends (W.contents writer.old) (W.contents writer.new) (message_octets (bodies_of frames.now))) }
    ensures err { OnErr result (SentSome (W.contents writer.old) (W.contents writer.new) (message_octets (bodies_of frames.now))) }
    ensures midway { IfErr result IsMidway }
{
    match zmtp_wire::send_message(alloc, writer, frames) {
        Ok(()) => Ok(()),
        Err(fault) => Err(broken(fault)),
    }
}

/// Writes a broadcast: all its octets, or a beginning of them.
pub(crate) fn send_broadcast<W: Write>(
    writer: &mut W,
    broadcast: &Broadcast,
) -> Result<(), ServeFault>
    ensures ok { OnOk result (Appends (W.contents writer.old) (W.contents writer.new) (message_octets broadcast.now)) }
    ensures err { OnErr result (SentSome (W.contents writer.old) (W.contents writer.new) (message_octets broadcast.now)) }
    ensures midway { IfErr result IsMidway }
{
    match broadcast.send(writer) {
        Ok(()) => Ok(()),
        Err(fault) => Err(broken(fault)),
    }
}

/// Writes the answer to a ping with this context: all its octets, or a beginning of them.
pub(crate) fn send_pong<W: Write>(
    alloc: Global,
    writer: &mut W,
    context: &[u8],
) -> Result<(), ServeFault>
    ensures ok { OnOk result (Appends (W.contents writer.old) (W.contents writer.new) (pong_octets context.now)) }
    ensures err { OnErr result (SentSome (W.contents writer.old) (W.contents writer.new) (pong_octets context.now)) }
    ensures midway { IfErr result IsMidway }
{
    match zmtp_wire::send_pong(alloc, writer, context) {
        Ok(()) => Ok(()),
        Err(fault) => Err(broken(fault)),
    }
}

/// How a connection ends on which something did not go out whole.
fn broken(fault: SendFault) -> ServeFault
    ensures { IsMidway result }
{
    match fault {
        SendFault::Memory => ServeFault::Memory,
        // No reader takes a message that is too long.
        SendFault::TooLong | SendFault::Write => ServeFault::Write,
    }
}
