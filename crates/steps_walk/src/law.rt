//! Laws of walks, which a program need not call.
ghost use Rattle.std.specs.Prelude.{◌≡◌};
ghost use Rattle.kernel_runner.specs.Runner.{count_of};
ghost use Rattle.steps_walk.specs.Meant.{Means, StandAlike};
ghost use Rattle.steps_walk.specs.Stops.{StopsAreMeant};
ghost use Rattle.steps_walk.specs.Walk.{runner_of, IsWalking, Moves};

use crate::walk::Walk;
use std::sync::ledger::Ledger;

impl<L: Ledger> Walk<L> {
    /// Law: a walk stands where as many steps of the meaning lead as it counts, and the values in sight are those of the meaning's store there.
    pub fn meant_law(&self)
        ensures { Means self.now }
    {}

    /// Law: a walk that has moved, and stands behind as many steps as it did before, stands at the same place with the same values: however it came back.
    pub fn again_law(&self, old: &Walk<L>)
        requires walking { IsWalking old.now }
        requires moved { Moves old.now self.now }
        requires count { count_of (runner_of self.now) ≡ count_of (runner_of old.now) }
        ensures { StandAlike old.now self.now }
    {}
}

/// Law: the places at which a search of lines and `next` may stop are those of the meaning at which a statement begins or a test is made, either way.
pub fn stops_are_meant_law()
    ensures { StopsAreMeant }
{}
