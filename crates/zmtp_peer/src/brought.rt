//! What frames bring one behind another.
use crate::event::PeerEvent;

/// A message that became whole, or the event of a command. A command may come between the frames of a message.
#[derive(Drop)]
pub(crate) enum Brought {
    /// A whole message, as the bodies of its frames.
    Message(Vec<Vec<u8>>),
    /// What a command is told as.
    Event(PeerEvent),
}
