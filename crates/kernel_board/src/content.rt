//! What is kept of a broadcast.
ghost use Rattle.std.specs.Prelude.{◌≡◌};
ghost use Rattle.zmtp_wire.specs.Message.{bodies_of, IsMessage, IsWithinLimits};
ghost use Rattle.zmtp_wire.proofs.OneMessage.{IsMessage-prop};
ghost use Rattle.kernel_board.specs.Frames.{topic_of};

/// A message as the wire has it. Its octets tell its frames, so these are kept as octets alone.
#[derive(Drop)]
pub(crate) struct WrittenMessage {
    pub(crate) octets: Vec<u8>,
    ghost spells: { IsMessage octets.items } by { IsMessage-prop octets.items },
    /// The first frame once more, which is short.
    pub(crate) topic: Vec<u8>,
    ghost first: { topic.items ≡ topic_of spells.0 },
}

/// A message that passes a limit of the wire: no reader takes its octets, and it has none.
#[derive(Drop)]
pub(crate) struct LongMessage {
    pub(crate) frames: Vec<Vec<u8>>,
    ghost past: { ¬ (IsWithinLimits (bodies_of frames.items)) },
}

/// A message, with its octets where it passes no limit of the wire.
#[derive(Drop)]
pub(crate) enum Content {
    Written(WrittenMessage),
    TooLong(LongMessage),
}
