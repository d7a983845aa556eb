//! The count of a store's writes, and a count of another kind beside it in the same ledger.

ghost use Rattle.std.specs.Prelude.{◌≡◌, ℕ, ◌+◌, ◌<◌};

use crate::moves::Moves;
use std::marker::Model;
use std::sync::ledger::{Blank, Book, Ledger, Share};

/// The count of a store's writes. Contracts alone see it, it takes no octets, and only a write changes it. It has the ledger's book, of which
/// there is one: so of a ledger there is one store.
#[derive(Drop)]
pub(crate) struct Writes<L: Ledger> {
    book: Book<L>,
    share: Share<L>,
}

impl<L: Ledger> Model for Writes<L> {
    ghost Value = { ℕ };

    ghost view = { λ a. a.share.amount };

    ghost invariant = { λ a. 0 < a.share.parts };
}

/// A count beside that of a store's writes. Contracts alone see it, and it takes no octets. Who has it, and no one else, can raise it, over the
/// store of its ledger alone.
#[derive(Drop)]
pub struct Tally<L: Ledger> {
    share: Share<L>,
}

impl<L: Ledger> Model for Tally<L> {
    ghost Value = { ℕ };

    ghost view = { λ a. a.share.amount };

    ghost invariant = { λ a. 0 < a.share.parts };
}

impl<L: Ledger> Writes<L> {
    /// A count, of no writes so far, the permit to change values without one, and a tally at 0.
    pub(crate) fn open(blank: Blank) -> (Writes<L>, Moves<L>, Tally<L>)
        requires name { blank.name ≡ L.name }
        requires parts { blank.parts ≡ L.parts }
        requires two { 1 < L.parts }
        ensures writes { result.0 ≡ 0 }
        ensures tally { result.2 ≡ 0 }
    {
        let (book, mut share) = blank.open::<L>();
        let other = share.split_off(1, 0);
        let none = share.empty();
        (
            Writes { book, share },
            Moves::new(none),
            Tally { share: other },
        )
    }

    /// One write more.
    pub(crate) fn add(&mut self)
        ensures { self.new ≡ self.old + 1 }
    {
        self.book.add(&mut self.share, 1);
    }

    /// Raises a tally.
    pub(crate) fn count(&mut self, tally: &mut Tally<L>, amount: u64)
        ensures counted { tally.new ≡ tally.old + amount }
        ensures same { self.new ≡ self.old }
    {
        self.book.add(&mut tally.share, amount);
    }
}
