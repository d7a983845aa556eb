//! The rule of the two words, and what each kind of step tells the holder of the seat.
use crate::view::SeatView;
use atomic_table::{Play, Split, TableRule};

/// The rule of the bell's two words, for the base.
pub struct BellRule;

impl TableRule<(), SeatView, ()> for BellRule {
    ghost use Rattle.kernel_bell.specs.Views.{new_runner};
    ghost use Rattle.kernel_bell.specs.Rule.{IsRuled};
    ghost use Rattle.kernel_bell.specs.declared.view.SeatView.TheVariants.{Runner};

    ghost holds = { λ _. IsRuled };

    ghost first = { λ _. Runner new_runner };
}

/// The runner stores `current`.
pub(crate) struct Begin;

impl Play<(), SeatView> for Begin {
    ghost use Rattle.kernel_bell.specs.Plays.{Begins};

    ghost then = { Begins };
}

/// The runner loads `bell`.
pub(crate) struct Hear;

impl Play<(), SeatView> for Hear {
    ghost use Rattle.kernel_bell.specs.Plays.{Hears};

    ghost then = { Hears };
}

/// A ringer loads `current`.
pub(crate) struct Look;

impl Play<(), SeatView> for Look {
    ghost use Rattle.kernel_bell.specs.Plays.{Looks};

    ghost then = { Looks };
}

/// A ringer raises `bell` to what it has seen.
pub(crate) struct Raise;

impl Play<(), SeatView> for Raise {
    ghost use Rattle.kernel_bell.specs.Plays.{Raises};

    ghost then = { Raises };
}

/// One more ringer's seat is made beside the runner's.
pub(crate) struct Sit;

impl Split<SeatView> for Sit {
    ghost use Rattle.kernel_bell.specs.Plays.{same_view, as_ringer};

    ghost left = { same_view };

    ghost right = { as_ringer };
}
