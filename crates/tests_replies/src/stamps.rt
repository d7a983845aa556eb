//! The stamp under which the answers go out.
ghost use Rattle.std.specs.Prelude.{◌≡◌, IfOk};

use kernel_message::Stamp;
use std::alloc::{AllocError, Global};

/// The stamp of session `k` and connection 1, at its first message. The only error is want of memory.
pub(crate) fn stamp(alloc: Global) -> Result<Stamp, AllocError>
    ensures { IfOk result (λ s. s.next ≡ 0) }
{
    Ok(Stamp {
        session: String::from_str(alloc, "k")?,
        connection: 1,
        next: 0,
        date: *b"2025-01-01T00:00:00Z",
    })
}
