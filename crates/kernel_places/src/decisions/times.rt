//! The times of a connection.
/// How long connections have, and what else takes its time, in milliseconds.
#[derive(Clone, Copy)]
pub struct Times {
    /// A handshake, from when the connection was accepted.
    pub handshake: u64,
    /// A message that the kernel writes, whatever the pieces: its write deadline.
    pub message: u64,
    /// One whose handshake is not over where another one waits, and on shell and control a stranger: from when it was let in.
    pub stranger: u64,
    /// A ready connection of stdin, iopub or heartbeat where another one waits: for how long nothing came on it, and it took nothing.
    pub silence: u64,
    /// Who showed the key where another one waits: for how long no request was under way and nothing came.
    pub owner: u64,
    /// Who showed the key and answers pings where another one waits: from when it was pinged, if nothing came since.
    pub answer: u64,
    /// Connections that still write at the end, once the worker has come to its own: those that call, and then those that subscribe.
    pub grace: u64,
    /// A limit that is near until it is told.
    pub pause: u64,
}

impl Times {
    /// Those that `janus-kernel` gives.
    pub const USUAL: Times = Times {
        handshake: 10_000,
        message: 10_000,
        stranger: 200,
        silence: 60_000,
        owner: 600_000,
        answer: 60_000,
        grace: 400,
        pause: 10_000,
    };
}
