//! Words and numbers on their way to a writer.
ghost use Rattle.std.specs.Prelude.{◌++◌, decimal, OnOk, OnErr};
ghost use Rattle.std.specs.Io.KnownBytes.{Appends};
ghost use Rattle.exact_write.specs.Sent.{SentSome};
ghost use Rattle.kernel_text.specs.Lines.{counted_text, named_text, numbered_text};

use exact_write::{WriteFailed, send};
use itoa::Buffer;
use std::io::Write;

/// Writes a number in decimal digits.
fn send_number<W: Write>(writer: &mut W, n: u64) -> Result<(), WriteFailed>
    ensures ok { OnOk result (Appends (W.contents writer.old) (W.contents writer.new) (decimal n)) }
    ensures err { OnErr result (SentSome (W.contents writer.old) (W.contents writer.new) (decimal n)) }
{
    let mut buffer = Buffer::new();
    send(writer, buffer.format(n).as_bytes())
}

/// Writes words, and then a number.
pub fn send_counted<W: Write>(writer: &mut W, words: &str, n: u64) -> Result<(), WriteFailed>
    ensures ok { OnOk result (Appends (W.contents writer.old) (W.contents writer.new) (counted_text words.now n)) }
    ensures err { OnErr result (SentSome (W.contents writer.old) (W.contents writer.new) (counted_text words.now n)) }
{
    send(writer, words.as_bytes())?;
    send_number(writer, n)
}

/// Writes a space, and then a name.
fn send_name<W: Write>(writer: &mut W, name: &str) -> Result<(), WriteFailed>
    ensures ok { OnOk result (Appends (W.contents writer.old) (W.contents writer.new) (named_text name.now)) }
    ensures err { OnErr result (SentSome (W.contents writer.old) (W.contents writer.new) (named_text name.now)) }
{
    send(writer, b" ")?;
    send(writer, name.as_bytes())
}

/// Writes words, a number and its name.
pub(crate) fn send_numbered<W: Write>(
    writer: &mut W,
    words: &str,
    number: u8,
    name: &str,
) -> Result<(), WriteFailed>
    ensures ok { OnOk result (Appends (W.contents writer.old) (W.contents writer.new) (numbered_text words.now number name.now)) }
    ensures err { OnErr result (SentSome (W.contents writer.old) (W.contents writer.new) (numbered_text words.now number name.now)) }
{
    send_counted(writer, words, number as u64)?;
    send_name(writer, name)
}

/// Writes words and a number, twice.
pub(crate) fn send_pair<W: Write>(
    writer: &mut W,
    words: &str,
    n: u64,
    more_words: &str,
    m: u64,
) -> Result<(), WriteFailed>
    ensures ok { OnOk result (Appends (W.contents writer.old) (W.contents writer.new)
        (counted_text words.now n ++ counted_text more_words.now m)) }
    ensures err { OnErr result (SentSome (W.contents writer.old) (W.contents writer.new)
        (counted_text words.now n ++ counted_text more_words.now m)) }
{
    send_counted(writer, words, n)?;
    send_counted(writer, more_words, m)
}
