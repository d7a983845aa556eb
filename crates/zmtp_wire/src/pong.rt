//! Pongs, told by their octets (RFC 37, "Heartbeating").
ghost use Rattle.std.specs.Prelude.{◌≡◌, ◌≢◌, ◌≤◌, ℕ, List, length, IfNone, IfSome};
ghost use Rattle.zmtp_wire.specs.Pong.{pong_octets, context_limit};

use crate::header::COMMAND;

/// The name of a pong, with its length.
pub(crate) const PONG: &[u8] = b"\x04PONG";

/// The octets that a ping has beside its context, in the short form of a frame: flags, size, its name with a length, and a time to live.
pub const PING_OCTETS: usize = 9;

/// The longest context that a ping may have (RFC 37, "Heartbeating").
pub const CONTEXT_LIMIT: usize = 16;

/// The context of the pong that these octets are, whole and as [`crate::send_pong`] writes it; none where they are anything else.
pub fn pong_context(octets: &[u8]) -> Option<&[u8]>
    ensures pong { IfSome result (λ context. octets.now ≡ pong_octets context.now) }
    ensures short { IfSome result (λ context. length context.now ≤ context_limit) }
    ensures none { IfNone result ((context : List ℕ) → length context ≤ context_limit → octets.now ≢ pong_octets context) }
{
    let (flags, behind) = octets.split_first()?;
    let (size, body) = behind.split_first()?;
    if *flags != COMMAND || usize::from(*size) != body.len() {
        return None;
    }
    let context = body.strip_prefix(PONG)?;
    if context.len() > CONTEXT_LIMIT {
        return None;
    }
    Some(context)
}
