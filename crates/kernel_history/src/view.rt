//! The shown world, lent.
ghost use Rattle.std.specs.Prelude.{◌≡◌, ◌<◌, ◌↔◌, IsTrue, IfOk, Some, slice_get};
ghost use Rattle.janus_meaning.specs.Store.{look};
ghost use Rattle.janus_meaning.specs.World.{size_of, listed};
ghost use Rattle.kernel_loader.specs.FrameValues.{found};
ghost use Rattle.kernel_loader.specs.Values.{shown};
ghost use Rattle.kernel_loader.specs.Defined.{in_a_row};
ghost use Rattle.kernel_machine.specs.State.{procedures_at};
ghost use Rattle.kernel_history.specs.Fields.{past_of, job_of};
ghost use Rattle.kernel_history.specs.Kept.{HasPathAt};
ghost use Rattle.kernel_machine.specs.Legal.{IsLegal, IsPossibleAt};
ghost use Rattle.kernel_loader.specs.Runner.{world_of};

use crate::defined::{all_procedures, own_procedures};
use crate::job::Open;
use crate::tree::HistoryTree;
use janus_syntax::tree::Procedure;
use kernel_loader::{Runner, Store, ValueView};
use std::alloc::{AllocError, Global};
use std::marker::Model;
use std::sync::ledger::Ledger;

/// The shown world: the declared names in the order of their declaration, with their values, and the procedures that are defined. The store that
/// holds the names is not lent on.
#[derive(Drop)]
pub struct View<'a, L: Ledger> {
    store: &'a Store<L>,
    tree: &'a HistoryTree,
    /// The procedures of the open cell, over those of the position.
    own: &'a [Procedure],
}

impl<'a, L: Ledger> Model for View<'a, L> {
    ghost use Rattle.janus_meaning.specs.World.{World};
    ghost use Rattle.janus_meaning.specs.Codes.{world_code};
    ghost use Rattle.kernel_loader.specs.StoreState.{shown_store};
    ghost use Rattle.kernel_history.specs.Fields.{past_of};
    ghost use Rattle.kernel_machine.specs.Legal.{IsLegal};
    ghost use Rattle.kernel_history.specs.Bodies.{over_here};

    ghost Value = { World };

    ghost coded = { world_code };

    ghost view = { λ v. record { store = shown_store v.store.now; procedures = over_here v.own.now v.tree.now } };

    ghost invariant = { λ v. IsLegal (past_of v.tree.now) };
}

impl<'a, L: Ledger> View<'a, L> {
    /// The world that a runner shows, where the tree and the open job are these.
    pub(crate) fn of(runner: &'a Runner<L>, tree: &'a HistoryTree, job: &'a Open) -> View<'a, L>
        requires legal { IsLegal (past_of tree.now) }
        requires possible { IsPossibleAt (past_of tree.now) (job_of job.now) }
        requires path { HasPathAt tree.now job.now }
        ensures { result ≡ world_of (procedures_at (past_of tree.now) (job_of job.now)) runner.now }
    {
        View {
            store: &runner.counted.store,
            tree,
            own: own_procedures(tree, job),
        }
    }

    /// How many names are declared.
    pub fn len(&self) -> usize
        ensures { result ≡ size_of self.now.store }
    {
        self.store.len()
    }

    /// Whether no name is declared.
    pub fn is_empty(&self) -> bool
        ensures { IsTrue result ↔ (size_of self.now.store ≡ 0) }
    {
        self.store.has_no_names()
    }

    /// The i-th name in the order of declaration, the oldest being 0, with its value.
    pub fn entry(&self, i: usize) -> (&str, ValueView<'_>)
        requires { i < size_of self.now.store }
        ensures { slice_get (listed self.now.store) i ≡ Some (result.0.now, shown result.1) }
    {
        self.store.entry(i)
    }

    /// The value of a name, if it is declared.
    pub fn value(&self, name: &str) -> Option<ValueView<'_>>
        ensures { found result ≡ look name.now self.now.store }
    {
        self.store.value(name)
    }

    /// The procedures that are defined, the newest first. A newer one hides an older one of its name, which stands behind it. The only
    /// error is want of memory.
    pub fn procedures(&self, alloc: Global) -> Result<Vec<&Procedure>, AllocError>
        ensures { IfOk result (λ all. in_a_row all.items ≡ self.now.procedures) }
    {
        all_procedures(alloc, self.tree, self.own)
    }
}
