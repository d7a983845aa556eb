//! What is being made for the job that has ended last, until all of it is there.
ghost use Rattle.std.specs.Prelude.{◌≡◌, ◌≤◌, ◌-◌, [], true, false, length};
ghost use Rattle.kernel_audit.specs.State.{Idle};
ghost use Rattle.kernel_audit.specs.Making.{HasRoom, left_of};
ghost use Rattle.hall_state.specs.OpenResults.{GoesOn};

use kernel_audit::{Kernel, Making};
use std::alloc::Global;
use std::sync::ledger::Ledger;

/// The shown text of a job that has ended, and the values of its user expressions, the first of which are made.
#[derive(Drop)]
pub struct OpenResult {
    /// The job's number.
    pub(crate) number: u64,
    /// Where its pending result stands.
    pub(crate) index: usize,
    /// Where the minutes have its end.
    pub(crate) place: usize,
    pub(crate) shown: Option<String>,
    pub(crate) making: Making,
}

impl OpenResult {
    /// Makes so many more values at most; whether more may be left.
    pub(crate) fn make<W: Ledger>(&mut self, alloc: Global, kernel: &Kernel<W>, most: u32) -> bool
        requires idle { kernel.now.machine.state.job ≡ Idle }
        requires room { HasRoom self.old.making }
        ensures goes { GoesOn kernel.now.machine.state.past self.old self.new }
        ensures fewer { length (left_of self.new.making) ≡ length (left_of self.old.making) - most }
        ensures left { result ≡ false → left_of self.new.making ≡ [] }
        ensures some { result ≡ true → most ≤ length (left_of self.old.making) }
    {
        self.making.make(alloc, kernel, most)
    }

    /// Makes all values that are left.
    pub(crate) fn finish<W: Ledger>(&mut self, alloc: Global, kernel: &Kernel<W>)
        requires idle { kernel.now.machine.state.job ≡ Idle }
        requires room { HasRoom self.old.making }
        ensures goes { GoesOn kernel.now.machine.state.past self.old self.new }
        ensures left { left_of self.new.making ≡ [] }
    {
        self.making.finish(alloc, kernel);
    }
}
