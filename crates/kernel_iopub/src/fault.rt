//! Why a subscriber's connection ends early.
use thiserror::Error;
use zmtp_peer::PeerFault;

/// Why a half of a subscriber's connection ends before its work is done.
#[derive(Clone, Copy, Debug, Error)]
pub enum SubscriberFault {
    /// The reader failed, or no number is left for a read.
    #[error("Read")]
    Read,
    /// The writer failed, or a broadcast is longer than any reader takes.
    #[error("Write")]
    Write,
    /// The peer broke the protocol of the wire.
    #[error("Peer {0}")]
    Peer(PeerFault),
    /// The peer subscribed to more than a connection may, or sent more than that takes, or too many of its pings are unanswered.
    #[error("TooMuch")]
    TooMuch,
    /// The subscriber fell behind what the board keeps.
    #[error("Lagged")]
    Lagged,
    /// There was no memory.
    #[error("Memory")]
    Memory,
}
