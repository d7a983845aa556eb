//! What the board keeps.
ghost use Rattle.std.specs.Prelude.{◌≡◌, ◌≢◌, IfErr, IfOk, IfSome, IfNone, OnErr, OnOk, map};
ghost use Rattle.std.specs.Io.KnownBytes.{Appends};
ghost use Rattle.exact_write.specs.Sent.{SentSome};
ghost use Rattle.zmtp_wire.specs.Message.{message_octets, IsWithinLimits};
ghost use Rattle.kernel_board.specs.Frames.{topic_of};

use crate::content::Content;
use crate::packing::pack;
use exact_write::send;
use std::alloc::{AllocError, Global};
use std::io::Write;
use std::marker::Model;
use std::sync::Arc;
use zmtp_wire::SendFault;

/// One message as a publish socket sends it: its frames, the first of which is the topic. Contracts see it as the octets of its frames. Its
/// octets on the wire are made once, as it is made, and a clone is the same broadcast and shares them.
#[derive(Drop)]
pub struct Broadcast {
    content: Arc<Content>,
}

impl Model for Broadcast {
    ghost use Rattle.std.specs.Arc.{arc_value};
    ghost use Rattle.kernel_board.specs.Frames.{Frames};
    ghost use Rattle.kernel_board.specs.Kept.{frames_kept};

    ghost Value = { Frames };

    ghost view = { λ b. frames_kept (arc_value b.content) };
}

impl Broadcast {
    /// A broadcast of these frames.
    ///
    /// # Errors
    ///
    /// `AllocError` where there is no memory.
    pub fn new(alloc: Global, frames: Vec<Vec<u8>>) -> Result<Broadcast, AllocError>
        ensures { IfOk result (λ b. b ≡ map (λ f. f.items) frames.items) }
    {
        let content = pack(alloc, frames)?;
        let content = Arc::new(alloc, content)?;
        Ok(Broadcast { content })
    }

    /// The octets of the message on the wire; none where it passes a limit, so that no reader takes it. They are not made anew.
    pub fn octets(&self) -> Option<&[u8]>
        ensures octets { IfSome result (λ octets. octets.now ≡ message_octets self.now) }
        ensures within { IfSome result (λ octets. IsWithinLimits self.now) }
        ensures past { IfNone result (¬ (IsWithinLimits self.now)) }
    {
        match &*self.content {
            Content::Written(message) => Some(message.octets.as_slice()),
            Content::TooLong(_) => None,
        }
    }

    /// Writes the message from where its octets lie: all of them, or a beginning.
    ///
    /// # Errors
    ///
    /// `TooLong` where it passes a limit of the wire, and nothing goes out; `Write` where the writer failed, and a beginning went out. It is never `Memory`.
    pub fn send<W: Write>(&self, writer: &mut W) -> Result<(), SendFault>
        ensures ok { OnOk result (Appends (W.contents writer.old) (W.contents writer.new) (message_octets self.now)) }
        ensures err { OnErr result (SentSome (W.contents writer.old) (W.contents writer.new) (message_octets self.now)) }
        ensures too_long { IfErr result (λ fault. fault ≡ SendFault.TooLong → ¬ (IsWithinLimits self.now)) }
        ensures unsent { IfErr result (λ fault. fault ≡ SendFault.TooLong → writer.new ≡ writer.old) }
        ensures no_memory { IfErr result (λ fault. fault ≢ SendFault.Memory) }
    {
        let Some(octets) = self.octets() else {
            return Err(SendFault::TooLong);
        };
        match send(writer, octets) {
            Ok(()) => Ok(()),
            Err(_) => Err(SendFault::Write),
        }
    }

    /// The first frame, which a subscription's prefix is compared with; no octets where there is no frame.
    pub fn topic(&self) -> &[u8]
        ensures { result.now ≡ topic_of self.now }
    {
        match &*self.content {
            Content::Written(message) => message.topic.as_slice(),
            Content::TooLong(message) => match message.frames.first() {
                Some(topic) => topic.as_slice(),
                None => &[],
            },
        }
    }
}

impl Clone for Broadcast {
    ghost use Rattle.std.specs.Prelude.{◌≡◌};

    ghost is_clone = { λ x y. y ≡ x };

    fn clone(&self) -> Result<Broadcast, AllocError> {
        let content = Arc::try_clone(&self.content)?;
        Ok(Broadcast { content })
    }
}
