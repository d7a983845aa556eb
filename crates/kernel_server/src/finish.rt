//! A job, from its post to its end.
ghost use Rattle.std.specs.Prelude.{◌≡◌, [], Ok, IfOk, IfErr, OnErr};
ghost use Rattle.kernel_core.specs.Request.{request_of};
ghost use Rattle.kernel_core.specs.Runs.{Machine, IsPost, IsRefusal};
ghost use Rattle.kernel_core.specs.State.{Idle, Inside, Entered};
ghost use Rattle.kernel_server.specs.Jobs.{lane, Finishes, RunsOut};

use crate::lane::LANE;
use crate::slice::{Slice, take_slice};
use kernel_core::{Begun, Job, Kernel, Outcome, PostFault, Sliced};
use std::collections::VecDeque;
use std::sync::ledger::Ledger;

/// Slices the job that stands inside a cell until it has ended, and begins its next cells.
fn finish<L: Ledger>(kernel: &mut Kernel<L>, slices: &mut VecDeque<Slice>) -> Outcome
    requires { (e : Entered) × (kernel.old.machine.state.job ≡ Inside e) }
    ensures finishes { Finishes kernel.old.machine slices.old.items result kernel.new.machine slices.new.items }
    ensures idle { kernel.new.machine.state.job ≡ Idle }
    ensures queue { kernel.new.machine.queue ≡ kernel.old.machine.queue }
{
    loop {
        let slice = take_slice(slices);
        match kernel.slice(slice.steps, slice.is_asked) {
            Sliced::Ended(outcome) => return outcome,
            Sliced::Border => match kernel.begin() {
                Begun::Ended(outcome) => return outcome,
                Begun::Going => {}
                Begun::Nothing => unreachable!(),
            },
            Sliced::Going => {}
            Sliced::Backing => {}
            Sliced::Nothing => unreachable!(),
        }
    }
}

/// Posts a job to a kernel without an open job, and brings it to its end by the slices. The number of the post, and the outcome.
pub(crate) fn run_out<L: Ledger>(
    kernel: &mut Kernel<L>,
    slices: &mut VecDeque<Slice>,
    job: Job,
) -> Result<(u64, Outcome), PostFault>
    requires idle { kernel.old.machine.state.job ≡ Idle }
    requires alone { kernel.old.machine.queue ≡ [] }
    ensures ok { IfOk result (λ r. (posted : Machine) × IsPost kernel.old.machine lane (request_of job) (Ok r.0) posted
        × RunsOut posted slices.old.items r.1 kernel.new.machine slices.new.items) }
    ensures refusal { IfErr result (IsRefusal kernel.old.machine) }
    ensures err { OnErr result (kernel.new.machine ≡ kernel.old.machine) }
    ensures slices { OnErr result (slices.new.items ≡ slices.old.items) }
    ensures idle { kernel.new.machine.state.job ≡ Idle }
    ensures alone { kernel.new.machine.queue ≡ [] }
{
    let number = kernel.post(LANE, job)?;
    match kernel.begin() {
        Begun::Ended(outcome) => Ok((number, outcome)),
        Begun::Going => {
            let outcome = finish(kernel, slices);
            Ok((number, outcome))
        }
        Begun::Nothing => unreachable!(),
    }
}
