//! All octets to a writer, or a beginning of them and then a fault.
//!
//! `write_all` of the standard library doesn't say what went out before it failed. To the layers above this crate promises that
//! after a fault a beginning of the octets went out, and nothing else.
//!
//! A writer is any `std::io::Write`; what it holds is what its `contents` shows.
#![tactic(auto)]

ghost use Rattle.std.specs.Prelude.{OnOk, OnErr};
ghost use Rattle.std.specs.Io.KnownBytes.{Appends};
ghost use Rattle.exact_write.specs.Sent.{SentSome};

use std::io::Write;
use thiserror::Error;

/// The writer failed, or took nothing.
#[derive(Clone, Copy, Debug, Error)]
#[error("cannot write")]
pub struct WriteFailed;

/// Writes all the octets.
///
/// # Errors
/// `WriteFailed` where a write fails or takes no octet; a beginning of the octets went out then.
pub fn send<W: Write>(writer: &mut W, octets: &[u8]) -> Result<(), WriteFailed>
    ensures ok { OnOk result (Appends (W.contents writer.old) (W.contents writer.new) octets.now) }
    ensures err { OnErr result (SentSome (W.contents writer.old) (W.contents writer.new) octets.now) }
{
    let mut at = 0;
    // Each write takes an octet at least.
    for _ in 0..u64::MAX {
        if at >= octets.len() {
            return Ok(());
        }
        match writer.write(&octets[at..]) {
            Ok(0) => return Err(WriteFailed),
            Ok(count) => at += count,
            Err(_) => return Err(WriteFailed),
        }
    }
    Err(WriteFailed)
}
