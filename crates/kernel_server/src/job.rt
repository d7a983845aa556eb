//! A job, and what is told of it.
ghost use Rattle.std.specs.Prelude.{◌≡◌, ◌≤◌, [], IfOk, IfErr, OnErr, vec_len, vec_capacity};
ghost use Rattle.kernel_core.specs.Request.{Request, request_of};
ghost use Rattle.kernel_core.specs.Runs.{IsRefusal};
ghost use Rattle.kernel_core.specs.State.{Idle};
ghost use Rattle.kernel_ask.specs.EndedAt.{StandsAtEnd};
ghost use Rattle.kernel_session.specs.Question.{wishes_of};
ghost use Rattle.kernel_server.specs.Jobs.{IsDone, IsMadeBy, IsToldOf};

use crate::finish::run_out;
use crate::slice::Slice;
use kernel_ask::laws::shown_is_of_text_law;
use kernel_ask::{Done, NamedValue, Wish, shown_after, values_after};
use kernel_core::laws::jobs_end_law;
use kernel_core::{Job, Kernel, Outcome, PostFault};
use std::alloc::Global;
use std::collections::VecDeque;
use std::sync::ledger::Ledger;

/// What is told of the job of this number, which has ended. There is room for its values.
fn told_of<L: Ledger>(
    alloc: Global,
    kernel: &Kernel<L>,
    number: u64,
    outcome: Outcome,
    wishes: Vec<Wish>,
    room: Vec<NamedValue>,
) -> Done
    requires idle { kernel.now.machine.state.job ≡ Idle }
    requires still { StandsAtEnd outcome kernel.now.machine.state.past }
    requires empty { room.items ≡ [] }
    requires room { vec_len wishes ≤ vec_capacity room }
    ensures told { (job : Request) → IsMadeBy job outcome kernel.now.machine.state.past → IsToldOf kernel.now.machine job (wishes_of wishes.items) result }
    ensures number { result.number ≡ number }
    ensures outcome { result.outcome ≡ outcome }
{
    shown_is_of_text_law();
    let shown = shown_after(alloc, kernel, &outcome);
    let values = values_after(alloc, kernel, &outcome, wishes, room);
    Done {
        number,
        outcome,
        count: kernel.counter(),
        node: kernel.position(),
        shown,
        values,
    }
}

/// Why a job is refused for whose values there is no memory.
fn refusal<L: Ledger>(kernel: &Kernel<L>) -> PostFault
    ensures { IsRefusal kernel.now.machine result }
{
    match kernel.post_fault() {
        Some(fault) => fault,
        None => PostFault::Memory,
    }
}

/// Posts a job to a kernel without an open job, brings it to its end by the slices, and tells what came of it. The room for the values of
/// the user expressions is made before the post.
pub(crate) fn run_job<L: Ledger>(
    alloc: Global,
    kernel: &mut Kernel<L>,
    slices: &mut VecDeque<Slice>,
    job: Job,
    wishes: Vec<Wish>,
) -> Result<Done, PostFault>
    requires idle { kernel.old.machine.state.job ≡ Idle }
    requires alone { kernel.old.machine.queue ≡ [] }
    ensures ok { IfOk result (λ d. IsDone kernel.old.machine slices.old.items (request_of job) (wishes_of wishes.items) d
        kernel.new.machine slices.new.items) }
    ensures refusal { IfErr result (IsRefusal kernel.old.machine) }
    ensures err { OnErr result (kernel.new.machine ≡ kernel.old.machine) }
    ensures slices { OnErr result (slices.new.items ≡ slices.old.items) }
    ensures idle { kernel.new.machine.state.job ≡ Idle }
    ensures alone { kernel.new.machine.queue ≡ [] }
{
    let Ok(room) = Vec::with_capacity(alloc, wishes.len()) else {
        return Err(refusal(kernel));
    };
    // It is looked at for its contract alone: the state is legal, so the node that a job makes is not the root.
    let _ = kernel.world();
    match run_out(kernel, slices, job) {
        Ok((number, outcome)) => {
            jobs_end_law();
            Ok(told_of(alloc, kernel, number, outcome, wishes, room))
        }
        Err(fault) => Err(fault),
    }
}
