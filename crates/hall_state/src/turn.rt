//! One turn of the runner over the lent kernel.
ghost use Rattle.std.specs.Prelude.{◌≡◌, ◌-◌, ◌^◌, ◌<◌};
ghost use Rattle.kernel_audit.specs.Minutes.{posted_in};
ghost use Rattle.kernel_audit.specs.Course.{GoesBy};
ghost use Rattle.hall_state.specs.PendingResults.{ends_job};
ghost use Rattle.hall_state.specs.JustEnded.{EndsOrWrites};
ghost use Rattle.hall_state.specs.Turns.{IsTurn};
ghost use Rattle.hall_state.specs.TurnNotes.{IsTurnNote};

use kernel_audit::{Begun, Kernel, Note, Phase, Sliced};
use kernel_bell::{Bell, RunnerSeat};
use std::sync::ledger::Ledger;

/// What a turn was.
#[derive(Clone, Copy)]
pub enum Turn {
    /// One slice.
    Cut(Sliced),
    /// One begin.
    Began(Begun),
    /// Nothing: the bell's serials are used up.
    Worn,
}

impl Turn {
    /// Whether it ended a job.
    pub fn is_end(self) -> bool
        ensures { result ≡ ends_job self }
    {
        match self {
            Turn::Cut(Sliced::Ended(_)) | Turn::Began(Begun::Ended(_)) => true,
            Turn::Cut(_) | Turn::Began(_) | Turn::Worn => false,
        }
    }
}

/// One turn: one `slice` with the answer of one `asked` where the kernel is inside a cell, else one `begin`, with one serial of the bell
/// where a posted job is taken.
pub fn turn_on<W: Ledger>(
    kernel: &mut Kernel<W>,
    bell: &Bell,
    runner: &mut RunnerSeat,
    m: u64,
) -> Turn
    requires own { runner.old.bell ≡ bell.now }
    requires room { runner.old.knows.serial < 2 ^ 64 - 1 }
    ensures turn { IsTurn kernel.old.machine runner.old m result kernel.new.machine runner.new }
    ensures ends { EndsOrWrites (ends_job result) kernel.old.machine.minutes kernel.new.machine }
    ensures posts { posted_in kernel.new.machine.minutes ≡ posted_in kernel.old.machine.minutes }
    ensures closing { kernel.new.machine.closing ≡ kernel.old.machine.closing }
{
    let (turn, _note) = noted_turn_on(kernel, bell, runner, m);
    turn
}

/// `turn_on`, and what is noted of the turn.
pub(crate) fn noted_turn_on<W: Ledger>(
    kernel: &mut Kernel<W>,
    bell: &Bell,
    runner: &mut RunnerSeat,
    m: u64,
) -> (Turn, Note)
    requires own { runner.old.bell ≡ bell.now }
    requires room { runner.old.knows.serial < 2 ^ 64 - 1 }
    ensures turn { IsTurn kernel.old.machine runner.old m result.0 kernel.new.machine runner.new }
    ensures ends { EndsOrWrites (ends_job result.0) kernel.old.machine.minutes kernel.new.machine }
    ensures posts { posted_in kernel.new.machine.minutes ≡ posted_in kernel.old.machine.minutes }
    ensures closing { kernel.new.machine.closing ≡ kernel.old.machine.closing }
    ensures kind { IsTurnNote result.1 }
    ensures goes { GoesBy result.1 kernel.old.machine kernel.new.machine }
{
    match kernel.phase() {
        Phase::Inside => {
            let asked = bell.asked(runner);
            let sliced = kernel.slice(m, asked);
            (Turn::Cut(sliced), Note::Cut(m, asked, sliced))
        }
        Phase::Queued => {
            bell.begin(runner);
            let begun = kernel.begin();
            (Turn::Began(begun), Note::Began(begun))
        }
        Phase::Idle | Phase::Border => {
            let begun = kernel.begin();
            (Turn::Began(begun), Note::Began(begun))
        }
    }
}
