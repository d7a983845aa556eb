//! What a peer is told of the octets that came.

/// An event of a connection.
#[derive(Debug, Drop)]
pub enum PeerEvent {
    /// The peer's READY came, and it fits. It is the first event.
    Ready,
    /// A whole message, as the bodies of its frames.
    Message(Vec<Vec<u8>>),
    /// The peer subscribes to what begins with this prefix, by a message or a command. A publisher alone is told it.
    Subscribe(Vec<u8>),
    /// The peer takes one subscription to this prefix back, by a message or a command. A publisher alone is told it.
    Cancel(Vec<u8>),
    /// The peer asks for a sign of life: it is to be answered by `zmtp_wire::Frame::pong` with this context of 0 to 16 octets. A peer that
    /// speaks ZMTP 3.1 or later alone sends it, to each role.
    Ping(Vec<u8>),
}
