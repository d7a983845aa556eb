//! Completion of names.
ghost use Rattle.std.specs.Prelude.{IfOk};
ghost use Rattle.std.specs.Str.{chars};
ghost use Rattle.kernel_ask.specs.Completion.{IsCompletion};
ghost use Rattle.kernel_text.specs.Defined.{in_a_row};

use crate::answer::Completion;
use crate::cursor::prefix_at;
use crate::matches::matches_of;
use janus_syntax::tree::Procedure;
use kernel_text::View;
use std::alloc::{AllocError, Global};
use std::sync::ledger::Ledger;

/// The names that go on with what stands in front of the cursor.
pub(crate) fn completion_of<L: Ledger>(
    alloc: Global,
    world: &View<'_, L>,
    procedures: &[&Procedure],
    code: &str,
    cursor: Option<u64>,
) -> Result<Completion, AllocError>
    ensures { IfOk result (IsCompletion (record { store = world.now.store; procedures = in_a_row procedures.now }) (chars code.now) cursor) }
{
    let prefix = prefix_at(alloc, code, cursor)?;
    let matches = matches_of(alloc, world, procedures, prefix.name.as_str())?;
    Ok(Completion {
        matches,
        start: prefix.start,
        end: prefix.end,
    })
}
