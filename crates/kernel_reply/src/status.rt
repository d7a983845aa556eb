//! The status of the kernel (Jupyter messaging page, "Kernel status").
ghost use Rattle.std.specs.Prelude.{◌≡◌, IfOk};
ghost use Rattle.serde_json.specs.View.{view};
ghost use Rattle.kernel_message.specs.Draft.{said_of};
ghost use Rattle.kernel_reply.specs.Status as table;

use kernel_message::Draft;
use serde_json::{Value, json};
use std::alloc::{AllocError, Global};

/// The kernel is at work on a request.
pub(crate) fn busy(alloc: Global) -> Result<Draft, AllocError>
    ensures { IfOk result (λ s. said_of s ≡ table.busy) }
{
    Ok(Draft {
        msg_type: "status",
        content: json!(in alloc; {"execution_state": "busy"})?,
    })
}

/// The kernel is done with a request.
pub(crate) fn idle(alloc: Global) -> Result<Draft, AllocError>
    ensures { IfOk result (λ s. said_of s ≡ table.idle) }
{
    Ok(Draft {
        msg_type: "status",
        content: json!(in alloc; {"execution_state": "idle"})?,
    })
}

/// A text as the one form in which data is shown.
pub(crate) fn plain(alloc: Global, text: &str) -> Result<Value, AllocError>
    ensures { IfOk result (λ v. view v ≡ table.plain text.now) }
{
    json!(in alloc; {"text/plain": text})
}
