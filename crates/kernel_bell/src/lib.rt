//! The interrupt bell: one runner takes jobs one after another, and any ringer may ask the job that runs to stop. Nobody waits for
//! anybody: the calls are single atomic loads, stores and `fetch_max`, none but `Bell::new` takes memory, and none takes a lock.
//!
//! Jobs have serials, and a ring is for one serial: the ringer looks which job runs, and raises the bell to it. So a ring that comes late
//! stops no later job, and there is no flag that somebody has to take down.
//!
//! To the layer above this crate promises that `asked` answers true exactly where the bell has reached the serial of the job, and that then
//! a ringer rang this very serial; that `ring` is one look and one raise, to a serial that is at most the current one.
//!
//! The definitions are in specs/: `Views` (what each seat knows), `Rule` (what holds between any two steps), `Steps` (the kinds of step),
//! `Seats` (what contracts see), `Laws`; `Plays` puts the steps in the terms of the base, `atomic_table`.
//!
//! By the rule of the words a ring that came before the look is heard; of the look itself this is tested. A ring takes no handle with which
//! it could wait, though no clause rules out that it spins.
#![tactic(auto)]

ghost use Rattle.kernel_bell.specs.Laws.{StepsKeepTheRule, AskedIsExact, NoRingIsEarly};

mod bell;
mod rule;
mod seats;
mod view;

pub use bell::Bell;
pub use rule::BellRule;
pub use seats::{RingerSeat, RunnerSeat};
pub use view::{RingerView, RunnerView, SeatView};

/// Law: each kind of step keeps the rule.
pub fn steps_keep_the_rule_law()
    ensures { StepsKeepTheRule }
{}

/// Law: the runner is told that its job is asked to stop exactly where a ringer has rung the serial of this job.
pub fn asked_is_exact_law()
    ensures { AskedIsExact }
{}

/// Law: no ring is for a job that hasn't begun.
pub fn no_ring_is_early_law()
    ensures { NoRingIsEarly }
{}
