//! Octets that go out.
ghost use Rattle.std.specs.Prelude.{OnOk, OnErr};
ghost use Rattle.std.specs.Io.KnownBytes.{Appends};
ghost use Rattle.exact_write.specs.Sent.{SentSome};

use console_talk::ConsoleFault;
use std::io::Write;

/// Writes all the octets, or a beginning of them where the connection fails.
pub(crate) fn send<W: Write>(writer: &mut W, octets: &[u8]) -> Result<(), ConsoleFault>
    ensures ok { OnOk result (Appends (W.contents writer.old) (W.contents writer.new) octets.now) }
    ensures err { OnErr result (SentSome (W.contents writer.old) (W.contents writer.new) octets.now) }
{
    match exact_write::send(writer, octets) {
        Ok(()) => Ok(()),
        Err(_) => Err(ConsoleFault::NoConnection),
    }
}

/// Prints a text, and passes over a fault of the stream.
pub(crate) fn print<W: Write>(writer: &mut W, text: &str)
    ensures { SentSome (W.contents writer.old) (W.contents writer.new) text.now }
{
    match send(writer, text.as_bytes()) {
        Ok(()) => {}
        Err(_) => {}
    }
}
