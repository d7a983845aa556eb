//! The stamp under which the answers go out.
use kernel_message::Stamp;
use std::alloc::{AllocError, Global};

/// The stamp of session `k` and a connection, at its first message. The only error is want of memory.
pub(crate) fn stamp(alloc: Global, connection: u64) -> Result<Stamp, AllocError> {
    Ok(Stamp {
        session: String::from_str(alloc, "k")?,
        connection,
        next: 0,
        date: *b"2025-01-01T00:00:00Z",
    })
}
