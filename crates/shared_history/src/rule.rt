//! The rule of a history, and what each kind of step tells.
use crate::view::View;
use atomic_table::{Join, Play, Split, TableRule};
use std::marker::PhantomData;

/// The rule of a history, for the base.
pub struct HistoryRule<E> {
    of: PhantomData<E>,
}

impl<E> TableRule<E, View<E>, ()> for HistoryRule<E> {
    ghost use Rattle.std.specs.Prelude.{[]};
    ghost use Rattle.shared_history.specs.History.{keeping, IsRuled};

    ghost holds = { λ _. IsRuled };

    ghost first = { λ _. keeping [] };
}

/// The keeper adds an entry.
pub(crate) struct Add;

impl<E> Play<E, View<E>> for Add {
    ghost use Rattle.shared_history.specs.History.{Adds};

    ghost then = { Adds };
}

/// The keeper compares what it was shown with all entries.
pub(crate) struct Compare;

impl<E> Play<E, View<E>> for Compare {
    ghost use Rattle.shared_history.specs.History.{Compares};

    ghost then = { Compares };
}

/// The keeper gives a front of all entries, and takes a front to compare it.
pub(crate) struct Show;

impl<E> Split<View<E>> for Show {
    ghost use Rattle.shared_history.specs.History.{same, front_of};

    ghost left = { same };

    ghost right = { front_of };
}

impl<E> Join<View<E>> for Show {
    ghost use Rattle.std.specs.Prelude.{[]};
    ghost use Rattle.shared_history.specs.History.{shown_by, seeing};

    ghost both = { shown_by };

    ghost spent = { seeing [] };
}
