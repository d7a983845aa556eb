//! The state of a kernel.
ghost use Rattle.std.specs.Prelude.{◌≡◌, ◌↔◌, IsTrue, true, not, map, string_bytes, IfOk};
ghost use Rattle.janus_meaning.specs.World.{listed};
ghost use Rattle.kernel_text.specs.State.{Idle};
ghost use Rattle.kernel_text.specs.ValueTexts.{value_text as value_text_of};
ghost use Rattle.kernel_ask.specs.EndedAt.{StandsAtEnd};
ghost use Rattle.kernel_ask.specs.State.{is_busy as is_busy_of, IsState};

use crate::answer::KernelState;
use kernel_text::{Kernel, Outcome, Phase, View, value_text};
use std::alloc::{AllocError, Global};
use std::sync::ledger::Ledger;

/// The value texts of the declared names, in the order of declaration.
fn value_texts<L: Ledger>(alloc: Global, world: &View<'_, L>) -> Result<Vec<String>, AllocError>
    ensures { IfOk result (λ v. map string_bytes v.items ≡ map value_text_of (listed world.now.store)) }
{
    let mut texts = Vec::new(alloc);
    for i in 0..world.len() {
        let (name, value) = world.entry(i);
        texts.push(value_text(alloc, name, value)?)?;
    }
    Ok(texts)
}

/// Whether a job is open.
fn is_busy<L: Ledger>(kernel: &Kernel<L>) -> bool
    ensures { result ≡ is_busy_of kernel.now.machine.state.job }
{
    match kernel.phase() {
        Phase::Idle | Phase::Queued => false,
        Phase::Border | Phase::Inside => true,
    }
}

/// Whether no job is open: then expressions can be evaluated.
pub fn is_settled<L: Ledger>(kernel: &Kernel<L>) -> bool
    ensures exact { result ≡ not (is_busy_of kernel.now.machine.state.job) }
    ensures idle { result ≡ true → kernel.now.machine.state.job ≡ Idle }
{
    match kernel.phase() {
        Phase::Idle | Phase::Queued => true,
        Phase::Border | Phase::Inside => false,
    }
}

/// Whether the kernel stands where this outcome of a job left it: after a cell that ran, at its node.
pub fn stands_at_end<L: Ledger>(kernel: &Kernel<L>, outcome: &Outcome) -> bool
    ensures { IsTrue result ↔ StandsAtEnd outcome.now kernel.now.machine.state.past }
{
    match outcome {
        Outcome::Ran(node, _) => kernel.position() == *node,
        Outcome::Failed(_, _)
        | Outcome::Interrupted(_)
        | Outcome::Undid(_, _)
        | Outcome::Redid(_, _)
        | Outcome::Went(_, _, _)
        | Outcome::Refused(_) => true,
    }
}

/// Where the kernel stands, how far an undo and a redo can go, and the shown world. The only error is want of memory.
pub fn state<L: Ledger>(alloc: Global, kernel: &Kernel<L>) -> Result<KernelState, AllocError>
    ensures { IfOk result (IsState kernel.now.machine) }
{
    let shown = kernel.world();
    let world = value_texts(alloc, &shown)?;
    let extent = kernel.extent();
    Ok(KernelState {
        node: kernel.position(),
        count: kernel.counter(),
        depth: extent.undo,
        redo: extent.redo,
        nodes: extent.nodes,
        busy: is_busy(kernel),
        world,
    })
}
