//! What is made as a job ends: its shown text, and the values of user expressions, in room that was made for them before the job was posted.
ghost use Rattle.std.specs.Prelude.{◌≡◌, ◌⊎◌, ◌≤◌, [], None, option_map, string_bytes, vec_len, vec_capacity};
ghost use Rattle.kernel_text.specs.State.{Idle};
ghost use Rattle.kernel_ask.specs.EndedAt.{StandsAtEnd};
ghost use Rattle.kernel_ask.specs.Evaluation.{AreValuesAfter};
ghost use Rattle.kernel_ask.specs.Shown.{IsShownOfNode};

use crate::ask::shown_of_node;
use crate::done::NamedValue;
use crate::making::Making;
use crate::wish::Wish;
use kernel_text::{Kernel, Outcome};
use std::alloc::Global;
use std::sync::ledger::Ledger;

/// What is shown of a job that has ended; nothing where there is no memory for it. No job is open, and the kernel stands where this one left it.
pub fn shown_after<L: Ledger>(
    alloc: Global,
    kernel: &Kernel<L>,
    outcome: &Outcome,
) -> Option<String>
    requires idle { kernel.now.machine.state.job ≡ Idle }
    requires still { StandsAtEnd outcome.now kernel.now.machine.state.past }
    ensures { IsShownOfNode outcome.now kernel.now.machine.state.past (option_map string_bytes result) ⊎ (option_map string_bytes result ≡ None) }
{
    match shown_of_node(alloc, kernel, outcome) {
        Ok(shown) => shown,
        Err(_) => None,
    }
}

/// The values of user expressions after a job that has ended: those in the world of its node where it is a cell that ran, else none. No job is open, and
/// the kernel stands where this one left it.
pub fn values_after<L: Ledger>(
    alloc: Global,
    kernel: &Kernel<L>,
    outcome: &Outcome,
    wishes: Vec<Wish>,
    room: Vec<NamedValue>,
) -> Vec<NamedValue>
    requires idle { kernel.now.machine.state.job ≡ Idle }
    requires still { StandsAtEnd outcome.now kernel.now.machine.state.past }
    requires empty { room.items ≡ [] }
    requires room { vec_len wishes ≤ vec_capacity room }
    ensures { AreValuesAfter outcome.now kernel.now.machine.state.past wishes.items result.items }
{
    let mut making = Making::new(outcome, wishes, room);
    making.finish(alloc, kernel);
    let (values, _spent) = making.values();
    values
}
