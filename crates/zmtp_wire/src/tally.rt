//! How much of a message has come.
ghost use Rattle.std.specs.Prelude.{◌≡◌, IfSome, IfNone};
ghost use Rattle.zmtp_wire.specs.Tally.{Fits, counted};

use crate::header::Header;

/// The most octets that the bodies of one message may have together, and the most that the body of one command may have.
pub const MESSAGE_OCTET_LIMIT: u64 = 16_777_216;

/// The most frames that one message may have.
pub const MESSAGE_FRAME_LIMIT: u64 = 1024;

/// The frames of a message that has begun and not ended: how many they are, and the octets of their bodies.
#[derive(Clone, Copy)]
pub(crate) struct Tally {
    pub(crate) octets: u64,
    pub(crate) frames: u64,
}

impl Tally {
    /// Between two messages.
    pub(crate) const NOTHING: Tally = Tally {
        octets: 0,
        frames: 0,
    };

    /// The tally after a frame with this header; none where the frame passes a limit.
    pub(crate) fn with(self, header: Header) -> Option<Tally>
        ensures fits { IfSome result (λ tally. Fits self header) }
        ensures after { IfSome result (λ tally. tally ≡ counted self header) }
        ensures none { IfNone result (¬ (Fits self header)) }
    {
        let before = if header.command { Tally::NOTHING } else { self };
        let octets = before.octets.checked_add(header.size)?;
        if octets > MESSAGE_OCTET_LIMIT || before.frames >= MESSAGE_FRAME_LIMIT {
            return None;
        }
        if header.command {
            return Some(self);
        }
        if !header.more {
            return Some(Tally::NOTHING);
        }
        Some(Tally {
            octets,
            frames: before.frames + 1,
        })
    }
}
