//! Why a connection ends early.
use thiserror::Error;
use zmtp_peer::PeerFault;

/// Why a connection ends before its input does.
#[derive(Clone, Copy, Debug, Error)]
pub enum ServeFault {
    /// The reader failed, or no number is left for a read or for a request.
    #[error("Read")]
    Read,
    /// The writer failed, or a message is longer than any reader takes.
    #[error("Write")]
    Write,
    /// The peer broke the protocol of the wire.
    #[error("Peer {0}")]
    Peer(PeerFault),
    /// There was no memory, here or at the desk.
    #[error("Memory")]
    Memory,
}
