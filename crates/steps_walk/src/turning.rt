//! Steps back, after which the next steps go on again.

ghost use Rattle.std.specs.Prelude.{◌≡◌, ◌+◌, true, false};
ghost use Rattle.janus_meaning.specs.Writes.{IsWritten};
ghost use Rattle.kernel_machine.specs.StepsOfSlices.{steps_back};
ghost use Rattle.kernel_runner.specs.Runner.{IsInside, count_of, writes_of, steps_of};
ghost use Rattle.steps_walk.specs.Walking.{TurnsOn, StepsBack};

use janus_machine::Book;
use kernel_loader::{Program, Runner};
use std::sync::ledger::Ledger;

/// Turns round where it stands, once it has turned: the next steps go on again.
fn turn_on<L: Ledger>(runner: &mut Runner<L>, program: &Program)
    requires { IsInside runner.old program.now true }
    ensures turns { TurnsOn program.now runner.old runner.new }
    ensures counted { runner.new.counted ≡ runner.old.counted }
    ensures procedures { runner.new.procedures ≡ runner.old.procedures }
    ensures entries { runner.new.entries ≡ runner.old.entries }
{
    let book = Book {
        code: &program.book,
        procedures: &runner.procedures,
    };
    runner.cursor.mirror(&book);
}

/// Takes `m` steps back, or all, from where a runner stands whose next steps go on; then they go on again.
pub(crate) fn step_back<L: Ledger>(runner: &mut Runner<L>, program: &Program, m: u64)
    requires { IsInside runner.old program.now false }
    ensures goes { StepsBack program.now m runner.old runner.new }
    ensures procedures { runner.new.procedures ≡ runner.old.procedures }
    ensures entries { runner.new.entries ≡ runner.old.entries }
    ensures written { IsWritten (steps_back (count_of runner.old) m) (writes_of runner.old) (writes_of runner.new) }
    ensures counted { steps_of runner.new ≡ steps_of runner.old + steps_back (count_of runner.old) m }
{
    runner.turn(program);
    runner.back(program, m);
    turn_on(runner, program);
}
