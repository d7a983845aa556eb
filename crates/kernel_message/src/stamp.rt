//! What is stamped on the messages of a connection.
ghost use Rattle.std.specs.Prelude.{◌≡◌, true};
ghost use Rattle.std.specs.Str.{is_utf8};

/// Who sends, and the number and the date of the next message. The names of messages are `SESSION_CONNECTION_NEXT`.
#[derive(Drop)]
pub struct Stamp {
    /// The kernel's session.
    pub session: String,
    /// The number of the connection.
    pub connection: u64,
    /// The number of the next message.
    pub next: u64,
    /// The date and the time of the next message, as text: `2025-01-01T00:00:00Z`.
    pub date: [u8; 20],
    ghost dated: { is_utf8 date ≡ true },
}
