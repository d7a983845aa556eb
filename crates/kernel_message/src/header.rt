//! The headers of messages that go out (Jupyter messaging page, "General Message Format").
ghost use Rattle.std.specs.Prelude.{◌≡◌, [], ◌∷◌, ◌++◌, string_bytes, IfOk, OnOk};
ghost use Rattle.json.specs.Token.{key, string};
ghost use Rattle.serde_json.specs.Written.{compact_text};
ghost use Rattle.kernel_message.specs.Stamp.{header as header_of, msg_id as msg_id_of};

use crate::stamp::Stamp;
use itoa::Buffer;
use json::Writer;
use std::alloc::{AllocError, Global};
use std::str;

/// The octets for which a header takes memory at first; one of a session's usual name has no more.
const HEADER_OCTETS: usize = 256;

/// The name of the n-th message.
fn msg_id(alloc: Global, stamp: &Stamp, n: u64) -> Result<String, AllocError>
    ensures { IfOk result (λ id. string_bytes id ≡ msg_id_of stamp.now n) }
{
    let mut buffer = Buffer::new();
    let mut id = String::from_str(alloc, &stamp.session)?;
    id.push_str("_")?;
    id.push_str(buffer.format(stamp.connection))?;
    id.push_str("_")?;
    id.push_str(buffer.format(n))?;
    Ok(id)
}

/// The date as text.
fn date_text(stamp: &Stamp) -> &str
    ensures { result.now ≡ stamp.now.date }
{
    match str::from_utf8(&stamp.date) {
        Ok(text) => text,
        Err(_) => unreachable!(),
    }
}

/// Writes one member whose value is a text.
fn write_text(writer: &mut Writer, name: &str, text: &str) -> Result<(), AllocError>
    ensures tokens { OnOk result (writer.new.tokens ≡ writer.old.tokens ++ key name.now ∷ string text.now ∷ []) }
    ensures before { writer.new.before ≡ writer.old.before }
{
    writer.key(name)?;
    writer.string(text)
}

/// The octets of the n-th message's header, written one member after another.
pub(crate) fn header_octets(
    alloc: Global,
    stamp: &Stamp,
    n: u64,
    msg_type: &str,
) -> Result<Vec<u8>, AllocError>
    ensures { IfOk result (λ v. v.items ≡ compact_text (header_of stamp.now n msg_type.now)) }
{
    let id = msg_id(alloc, stamp, n)?;
    let mut writer = Writer::new(Vec::with_capacity(alloc, HEADER_OCTETS)?);
    writer.begin_object()?;
    write_text(&mut writer, "date", date_text(stamp))?;
    write_text(&mut writer, "msg_id", id.as_str())?;
    write_text(&mut writer, "msg_type", msg_type)?;
    write_text(&mut writer, "session", stamp.session.as_str())?;
    write_text(&mut writer, "username", "kernel")?;
    write_text(&mut writer, "version", "5.4")?;
    writer.end_object()?;
    Ok(writer.into_inner())
}
