//! Whether the places that are told are those of the file's texts.
ghost use Rattle.std.specs.Prelude.{IsTrue, IfOk};
ghost use Rattle.steps_program.specs.Walked.{AreRead, IsReadAt};

use crate::source::{Source, source_of};
use std::alloc::{AllocError, Global};
use std::sync::ledger::Ledger;
use steps_walk::Walk;

/// Whether there is a text for a node, or for none that of the cell that is walked through, and its tree is the one whose places are told. The only error is
/// want of memory.
fn is_read<L: Ledger>(
    alloc: Global,
    walk: &Walk<L>,
    sources: &[Source],
    node: Option<usize>,
) -> Result<bool, AllocError>
    ensures { IfOk result (λ read. IsTrue read → IsReadAt sources.now walk.now node) }
{
    match source_of(sources, node) {
        Some(source) => walk.has_text(alloc, node, source.text.as_str()),
        None => Ok(false),
    }
}

/// Whether that is so of each node, and of the cell that is walked through. The only error is want of memory.
pub(crate) fn are_read<L: Ledger>(
    alloc: Global,
    walk: &Walk<L>,
    sources: &[Source],
) -> Result<bool, AllocError>
    ensures { IfOk result (λ read. IsTrue read → AreRead sources.now walk.now) }
{
    if !is_read(alloc, walk, sources, None)? {
        return Ok(false);
    }
    for k in 0..walk.nodes() {
        if !is_read(alloc, walk, sources, Some(k + 1))? {
            return Ok(false);
        }
    }
    Ok(true)
}
