//! The input history.
ghost use Rattle.std.specs.Prelude.{◌≡◌, map, IfOk};
ghost use Rattle.kernel_text.specs.Written.{entry_of};
ghost use Rattle.kernel_ask.specs.History.{inputs, is_present as is_present_of, told, input_of};
ghost use Rattle.kernel_ask.specs.Tail.{AreKept};

use crate::inputs::{HistoryAsk, Input, range};
use crate::tail::tail;
use kernel_text::Entry;
use std::alloc::{AllocError, Global};

/// Whether the session is the present one.
fn is_present(session: i64) -> bool
    ensures { result ≡ is_present_of session }
{
    session == 0 || session == 1
}

/// The inputs that are asked for, in rising order.
pub(crate) fn history_of(
    alloc: Global,
    entries: &[Entry],
    counter: u64,
    ask: HistoryAsk,
) -> Result<Vec<Input>, AllocError>
    requires { AreKept (map entry_of entries.now) counter }
    ensures { IfOk result (λ v. map input_of v.items ≡ told ask (inputs (map entry_of entries.now) counter)) }
{
    match ask {
        HistoryAsk::Range {
            session,
            start,
            stop,
        } => {
            if is_present(session) {
                range(alloc, entries, counter, start, stop)
            } else {
                Ok(Vec::new(alloc))
            }
        }
        HistoryAsk::Tail(0) => Ok(Vec::new(alloc)),
        HistoryAsk::Tail(n) => tail(alloc, entries, counter, n),
    }
}
