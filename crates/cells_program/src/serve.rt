//! One request, from its post to its end.
ghost use Rattle.std.specs.Prelude.{◌≡◌, [], IfOk, IfErr};
ghost use Rattle.kernel_core.specs.Request.{request_of};
ghost use Rattle.kernel_core.specs.State.{Idle, Inside, Entered};
ghost use Rattle.cells_program.specs.OpenJob.{IsInCell, MustGoBack, is_cell as is_cell_request};
ghost use Rattle.cells_program.specs.Served.{CellFinishes, Finishes, GoesBack, Serves, NotPosted, Finished};

use kernel_core::{Begun, Job, Kernel, Outcome, PostFault, STEP_LIMIT, Sliced};
use std::sync::ledger::Ledger;

/// Slices the job that has to go back, or is asked to, until it has ended.
fn go_back<L: Ledger>(kernel: &mut Kernel<L>, asked: bool) -> Outcome
    requires { MustGoBack asked kernel.old.machine.state.job }
    ensures goes_back { GoesBack asked kernel.old.machine result kernel.new.machine }
    ensures idle { kernel.new.machine.state.job ≡ Idle }
    ensures queue { kernel.new.machine.queue ≡ kernel.old.machine.queue }
{
    loop {
        match kernel.slice(STEP_LIMIT, asked) {
            Sliced::Ended(outcome) => return outcome,
            Sliced::Backing => {}
            Sliced::Border | Sliced::Going | Sliced::Nothing => unreachable!(),
        }
    }
}

/// Gives the cell that has been entered `steps` steps, and takes it back where it has not ended by then.
fn finish_cell<L: Ledger>(kernel: &mut Kernel<L>, steps: u64) -> Outcome
    requires { IsInCell kernel.old.machine.state.job }
    ensures finishes { CellFinishes steps kernel.old.machine result kernel.new.machine }
    ensures idle { kernel.new.machine.state.job ≡ Idle }
    ensures queue { kernel.new.machine.queue ≡ kernel.old.machine.queue }
{
    match kernel.slice(steps, false) {
        Sliced::Ended(outcome) => outcome,
        Sliced::Going => go_back(kernel, true),
        Sliced::Backing => go_back(kernel, false),
        Sliced::Border | Sliced::Nothing => unreachable!(),
    }
}

/// Slices the move that stands inside a cell to its end, and begins its next cells.
fn finish<L: Ledger>(kernel: &mut Kernel<L>) -> Outcome
    requires { (e : Entered) × (kernel.old.machine.state.job ≡ Inside e) }
    ensures finishes { Finishes kernel.old.machine result kernel.new.machine }
    ensures idle { kernel.new.machine.state.job ≡ Idle }
    ensures queue { kernel.new.machine.queue ≡ kernel.old.machine.queue }
{
    loop {
        match kernel.slice(STEP_LIMIT, false) {
            Sliced::Ended(outcome) => return outcome,
            Sliced::Border => match kernel.begin() {
                Begun::Ended(outcome) => return outcome,
                Begun::Going => {}
                Begun::Nothing => unreachable!(),
            },
            Sliced::Going => {}
            Sliced::Backing => {}
            Sliced::Nothing => unreachable!(),
        }
    }
}

/// Posts a job to a kernel without an open job, and brings it to its end. A cell that has not ended after `steps` steps is
/// interrupted.
pub fn serve<L: Ledger>(kernel: &mut Kernel<L>, steps: u64, job: Job) -> Result<Outcome, PostFault>
    requires idle { kernel.old.machine.state.job ≡ Idle }
    requires alone { kernel.old.machine.queue ≡ [] }
    ensures ok { IfOk result (λ outcome. Serves steps kernel.old.machine (request_of job) (Finished outcome) kernel.new.machine) }
    ensures err { IfErr result (λ fault. Serves steps kernel.old.machine (request_of job) (NotPosted fault) kernel.new.machine) }
    ensures idle { kernel.new.machine.state.job ≡ Idle }
    ensures alone { kernel.new.machine.queue ≡ [] }
{
    let is_cell = is_cell(&job);
    kernel.post(0, job)?;
    match kernel.begin() {
        Begun::Ended(outcome) => Ok(outcome),
        Begun::Going if is_cell => Ok(finish_cell(kernel, steps)),
        Begun::Going => Ok(finish(kernel)),
        Begun::Nothing => unreachable!(),
    }
}

/// Whether a job is a cell.
fn is_cell(job: &Job) -> bool
    ensures { result ≡ is_cell_request (request_of job.now) }
{
    matches!(job, Job::Cell { .. })
}
