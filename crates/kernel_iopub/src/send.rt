//! Messages, and answers to pings, that go out to a subscriber.
ghost use Rattle.std.specs.Prelude.{OnErr, OnOk};
ghost use Rattle.std.specs.Io.KnownBytes.{Appends};
ghost use Rattle.exact_write.specs.Sent.{SentSome};
ghost use Rattle.zmtp_wire.specs.Message.{message_octets};
ghost use Rattle.zmtp_wire.specs.Pong.{pong_octets};

use crate::fault::SubscriberFault;
use kernel_board::Broadcast;
use std::alloc::Global;
use std::io::Write;
use zmtp_wire::SendFault;

/// Writes a broadcast: all its octets, or a beginning of them.
pub(crate) fn send_broadcast<W: Write>(
    writer: &mut W,
    broadcast: &Broadcast,
) -> Result<(), SubscriberFault>
    ensures ok { OnOk result (Appends (W.contents writer.old) (W.contents writer.new) (message_octets broadcast.now)) }
    ensures err { OnErr result (SentSome (W.contents writer.old) (W.contents writer.new) (message_octets broadcast.now)) }
{
    match broadcast.send(writer) {
        Ok(()) => Ok(()),
        Err(fault) => Err(broken(fault)),
    }
}

/// Writes the answer to a ping with this context: all its octets, or a beginning of them.
pub(crate) fn send_pong<W: Write>(
    alloc: Global,
    writer: &mut W,
    context: &[u8],
) -> Result<(), SubscriberFault>
    ensures ok { OnOk result (Appends (W.contents writer.old) (W.contents writer.new) (pong_octets context.now)) }
    ensures err { OnErr result (SentSome (W.contents writer.old) (W.contents writer.new) (pong_octets context.now)) }
{
    match zmtp_wire::send_pong(alloc, writer, context) {
        Ok(()) => Ok(()),
        Err(fault) => Err(broken(fault)),
    }
}

/// How a connection ends on which something did not go out whole.
fn broken(fault: SendFault) -> SubscriberFault {
    match fault {
        SendFault::Memory => SubscriberFault::Memory,
        // No reader takes a message that is too long.
        SendFault::TooLong | SendFault::Write => SubscriberFault::Write,
    }
}
