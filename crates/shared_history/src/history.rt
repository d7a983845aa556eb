//! A history, its keeper and its fronts.
ghost use Rattle.std.specs.Prelude.{◌≡◌, ◌++◌, ◌∷◌, [], IfOk};
ghost use mathlib.Core.List.{IsPrefix};

use crate::rule::{Add, Compare, HistoryRule, Show};
use crate::view::View;
use atomic_table::{Seat, Table};
use std::alloc::{AllocError, Global};
use std::marker::{Brand, Model, PhantomData};
use std::mem;
use std::sync::ledger::Ledger;

/// Which history it is, which one stands beside it, and which table is the bell of who keeps them, beside a ledger that a program counts with.
pub trait HistoryName: Ledger {
    ghost use Rattle.atomic_table.specs.Seated.{TableId};

    ghost history: { TableId };

    ghost beside: { TableId };

    ghost bell: { TableId };
}

impl HistoryName for Brand {
    ghost use Rattle.shared_history.specs.History.{no_history};

    ghost history = { no_history };

    ghost beside = { no_history };

    ghost bell = { no_history };
}

/// The name of the history that stands beside a named one.
#[derive(Drop)]
pub struct Beside<L: HistoryName> {
    of: PhantomData<L>,
}

impl<L: HistoryName> Ledger for Beside<L> {
    ghost name = { L.name };

    ghost parts = { L.parts };
}

impl<L: HistoryName> HistoryName for Beside<L> {
    ghost use Rattle.shared_history.specs.History.{no_history};

    ghost history = { L.beside };

    ghost beside = { no_history };

    ghost bell = { L.bell };
}

/// A history with no entries, which no type stands for yet. Contracts see which one it is.
#[derive(Drop)]
pub struct NewHistory<E: Drop> {
    table: Table<E, View<E>, (), HistoryRule<E>, Global>,
    seat: Seat<E, View<E>>,
}

impl<E: Drop> Model for NewHistory<E> {
    ghost use Rattle.std.specs.Prelude.{◌≡◌, []};
    ghost use Rattle.atomic_table.specs.Seated.{TableId, table_id_coded};
    ghost use Rattle.shared_history.specs.History.{keeping};

    ghost Value = { TableId };

    ghost coded = { table_id_coded };

    ghost view = { λ o. o.table.shared.table_id };

    ghost invariant = { λ o. (o.table.shared.table_id.words ≡ 1) × (o.seat.table_id ≡ o.table.shared.table_id) × (o.seat.me ≡ (keeping [], [])) };
}

impl<E: Drop> NewHistory<E> {
    /// A new history. It takes the memory of one word, and no other call takes any.
    pub fn new(alloc: Global) -> Result<NewHistory<E>, AllocError> {
        let (table, seat) = Table::of_words(alloc, &[0], &())?;
        Ok(NewHistory { table, seat })
    }

    /// Its keeper, under the type that stands for it.
    pub fn keeper<L: HistoryName>(self) -> Keeper<E, L>
        requires { self ≡ L.history }
        ensures { result ≡ [] }
    {
        let NewHistory { table, seat } = self;
        Keeper {
            table,
            seat,
            of: PhantomData,
        }
    }
}

/// The one that adds to a history. Contracts see it as all entries.
#[derive(Drop)]
pub struct Keeper<E: Drop, L: HistoryName> {
    table: Table<E, View<E>, (), HistoryRule<E>, Global>,
    seat: Seat<E, View<E>>,
    of: PhantomData<L>,
}

impl<E: Drop, L: HistoryName> Model for Keeper<E, L> {
    ghost use Rattle.std.specs.Prelude.{◌≡◌, List, []};
    ghost use Rattle.shared_history.specs.History.{keeping};

    ghost Value = { List E };

    ghost view = { λ k. k.seat.me.0.seen };

    ghost invariant = { λ k. (k.table.shared.table_id.words ≡ 1) × (k.table.shared.table_id ≡ L.history) × (k.seat.table_id ≡ L.history)
        × (k.seat.me ≡ (keeping k.seat.me.0.seen, [])) };
}

impl<E: Drop, L: HistoryName> Keeper<E, L> {
    /// Adds an entry.
    pub fn extend(&mut self, entry: &E)
        ensures { self.new ≡ self.old ++ entry.now ∷ [] }
    {
        let Keeper { table, seat, .. } = self;
        table
            .shared
            .compare_exchange_with::<Add>(seat, 0, 0, 0, entry);
    }

    /// A front that has seen all entries.
    pub fn front(&mut self) -> Front<E, L>
        ensures front { result ≡ self.old }
        ensures keeper { self.new ≡ self.old }
    {
        let Keeper { table, seat, .. } = self;
        let seen = table.shared.split_seat::<Show>(seat);
        Front {
            seat: seen,
            of: PhantomData,
        }
    }
}

/// A beginning of a history that its holder has seen. Contracts see it as its entries.
#[derive(Drop)]
pub struct Front<E, L: HistoryName> {
    seat: Seat<E, View<E>>,
    of: PhantomData<L>,
}

impl<E, L: HistoryName> Model for Front<E, L> {
    ghost use Rattle.std.specs.Prelude.{◌≡◌, List, []};
    ghost use Rattle.shared_history.specs.History.{seeing};

    ghost Value = { List E };

    ghost view = { λ f. f.seat.me.0.seen };

    ghost invariant = { λ f. (f.seat.table_id ≡ L.history) × (f.seat.me ≡ (seeing f.seat.me.0.seen, [])) };
}

impl<E: Drop, L: HistoryName> Front<E, L> {
    /// Sees all entries. What it had seen before is a beginning of them.
    pub fn see(&mut self, keeper: &mut Keeper<E, L>)
        ensures front { self.new ≡ keeper.old }
        ensures beginning { IsPrefix self.old self.new }
        ensures keeper { keeper.new ≡ keeper.old }
    {
        let Keeper { table, seat, .. } = keeper;
        let fresh = table.shared.split_seat::<Show>(seat);
        let old = mem::replace(&mut self.seat, fresh);
        table.shared.join_seat::<Show>(seat, old);
        table.shared.load::<Compare>(seat, 0);
    }
}
