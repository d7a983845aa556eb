//! What is told.
ghost use Rattle.std.specs.Prelude.{◌≡◌, ◌≤◌, ℕ, List, ◌++◌, length};
ghost use Rattle.zmtp_wire.specs.Frame.{IsFrame};
ghost use Rattle.zmtp_peer.specs.Pings.{ping};
ghost use Rattle.kernel_watch.specs.Pings.{ping_octets, answers};

use zmtp_wire::PING_OCTETS;

/// What happened on a connection.
#[derive(Clone, Copy, Debug)]
pub enum Notice {
    /// The handshake is over.
    Ready,
    /// A message came that is signed under the key.
    Signed,
    /// A request is under way.
    Begun,
    /// It is no longer under way: its reply is out, if it has one.
    Done,
    /// A message was sent back, whole.
    Echoed,
    /// A ping was answered that had so many octets, or more.
    Answered(u64),
}

impl Notice {
    /// That a ping with this context was answered.
    pub fn answered(context: &[u8]) -> Notice
        ensures notice { result ≡ answers context.now }
        ensures counted { (frame time : List ℕ) → length time ≡ 2 → IsFrame frame (ping (time ++ context.now)) → ping_octets context.now ≤ length frame }
    {
        Notice::Answered((PING_OCTETS + context.len()) as u64)
    }
}
