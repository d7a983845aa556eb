//! The declared names of a store, as the check of an expression reads them.
ghost use Rattle.std.specs.Prelude.{◌≡◌, [], None};
ghost use Rattle.janus_meaning.specs.Shape.{shape_of};
ghost use Rattle.janus_check.specs.Names.{shape_in};
ghost use Rattle.kernel_runner.specs.StoreState.{shown_store};
ghost use Rattle.kernel_runner.specs.Values.{shown};
ghost use Rattle.kernel_loader.specs.Kinds.{kind_in};
ghost use Rattle.kernel_loader.specs.Tables.{IsReadable, declared_by};

use janus_check::{Kind, SymbolTable};
use janus_meaning::limit::LIVE_STACK_LIMIT;
use kernel_runner::{Store, ValueView};
use std::marker::Model;
use std::sync::ledger::Ledger;

/// The declared names of a store between two cells, lent. Contracts see what is known by them: no procedure is.
#[derive(Drop)]
pub struct DeclaredNames<'a, L: Ledger> {
    store: &'a Store<L>,
}

impl<'a, L: Ledger> Model for DeclaredNames<'a, L> {
    ghost use Rattle.janus_check.specs.Names.{Known};
    ghost use Rattle.kernel_loader.specs.Tables.{IsReadable, declared_by};

    ghost Value = { Known };

    ghost view = { λ n. declared_by n.store.now };

    ghost invariant = { λ n. IsReadable n.store.now };
}

impl<'a, L: Ledger> DeclaredNames<'a, L> {
    /// The declared names of a store between two cells. It takes no memory.
    pub fn new(store: &'a Store<L>) -> DeclaredNames<'a, L>
        requires { IsReadable store.now }
        ensures known { result ≡ declared_by store.now }
        ensures shape { shape_in result.names ≡ shape_of (shown_store store.now) }
    {
        DeclaredNames { store }
    }
}

impl<'a, L: Ledger> SymbolTable for DeclaredNames<'a, L> {
    ghost known = { λ n. n };

    fn kind(&self, name: &str) -> Option<Kind> {
        match self.store.value(name) {
            Some(value) => Some(kind_of(value)),
            None => None,
        }
    }

    fn place(&self, name: &str) -> Option<usize> {
        self.store.slots_law();
        let texts = self.store.texts();
        texts.few_law();
        texts.number(name)
    }

    fn head(&self, _name: &str) -> Option<&[Kind]> {
        let _store = self.store;
        None
    }

    fn len(&self) -> usize {
        self.store.len()
    }

    fn stacks(&self) -> usize {
        self.store.slots_law();
        LIVE_STACK_LIMIT - self.store.stacks_left()
    }

    fn procedures(&self) -> usize {
        let _store = self.store;
        0
    }

    fn procedures_law(&self) {
        let _store = self.store;
    }
}

/// The kind of a value.
fn kind_of(value: ValueView<'_>) -> Kind
    ensures { result ≡ kind_in (shown value.entry) }
{
    match value {
        ValueView::Number(_) => Kind::Number,
        ValueView::Array(_) => Kind::Array,
        ValueView::Stack(_) => Kind::Stack,
    }
}
