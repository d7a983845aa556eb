//! A store with the count of the steps that were taken over it.

ghost use Rattle.std.specs.Prelude.{◌≡◌, ◌+◌, ◌<◌, IfOk};
ghost use Rattle.janus_frames.specs.StoreState.{empty_state};

use janus_frames::{RoomFault, Store, Tally};
use std::alloc::Global;
use std::sync::ledger::{Blank, Ledger};

/// A store, and the count of the steps that were taken over it. Contracts alone see the count, it takes no octets, and only `step` and `slice` raise
/// it. Of a ledger there is one store with one such count: neither can be had anew or put in the other one's place.
#[derive(Drop)]
pub struct CountedStore<L: Ledger> {
    pub store: Store<L>,
    pub(crate) steps: Tally<L>,
}

impl<L: Ledger> CountedStore<L> {
    ghost use Rattle.janus_machine.specs.CountedStore.{steps_in};

    /// No names, no writes and no steps so far, which are counted in the ledger that is opened by this blank. It takes the memory that every run
    /// needs; the only error is want of it.
    pub fn new(alloc: Global, blank: Blank) -> Result<CountedStore<L>, RoomFault>
        requires name { blank.name ≡ L.name }
        requires parts { blank.parts ≡ L.parts }
        requires two { 1 < L.parts }
        ensures store { IfOk result (λ counted. counted.store ≡ empty_state) }
        ensures steps { IfOk result (λ counted. steps_in counted ≡ 0) }
    {
        let (store, steps) = Store::new(alloc, blank)?;
        Ok(CountedStore { store, steps })
    }

    /// Counts steps that were taken over the store, which stays.
    pub(crate) fn count(&mut self, taken: u64)
        ensures store { self.new.store ≡ self.old.store }
        ensures steps { steps_in self.new ≡ steps_in self.old + taken }
    {
        self.store.count(&mut self.steps, taken);
    }
}
