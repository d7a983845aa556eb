//! The tables of a runner between two cells, as the check of a cell reads them.
ghost use Rattle.std.specs.Prelude.{◌≡◌, length};
ghost use Rattle.kernel_loader.specs.InEffect.{in_effect_from};
ghost use Rattle.kernel_loader.specs.Tables.{IsReadable, known_by};

use crate::sight::DeclaredNames;
use janus_check::{Kind, SymbolTable};
use janus_slots::Names;
use kernel_runner::{Procedures, Store};
use std::marker::Model;
use std::sync::ledger::Ledger;

/// The declared names of a store between two cells, and the procedures in effect with the table of their names, lent. Contracts see what is known by them.
#[derive(Drop)]
pub struct Tables<'a, L: Ledger> {
    declared: DeclaredNames<'a, L>,
    entries: &'a Names,
    procedures: &'a Procedures,
}

impl<'a, L: Ledger> Model for Tables<'a, L> {
    ghost use Rattle.janus_check.specs.Names.{Known};
    ghost use Rattle.kernel_loader.specs.InEffect.{in_effect_from};

    ghost Value = { Known };

    ghost view = { λ t. record { names = t.declared.names; procedures = in_effect_from t.procedures.now 0 t.entries.now } };
}

impl<'a, L: Ledger> Tables<'a, L> {
    /// The tables of a store between two cells, of the names of procedures, and of the procedures in effect.
    pub fn new(store: &'a Store<L>, entries: &'a Names, procedures: &'a Procedures) -> Tables<'a, L>
        requires { IsReadable store.now }
        ensures { result ≡ known_by store.now entries.now procedures.now }
    {
        Tables {
            declared: DeclaredNames::new(store),
            entries,
            procedures,
        }
    }
}

impl<'a, L: Ledger> SymbolTable for Tables<'a, L> {
    ghost known = { λ t. t };

    fn kind(&self, name: &str) -> Option<Kind> {
        self.declared.kind(name)
    }

    fn place(&self, name: &str) -> Option<usize> {
        self.declared.place(name)
    }

    fn head(&self, name: &str) -> Option<&[Kind]> {
        self.entries.one_number_law();
        let Some(number) = self.entries.number(name) else {
            return None;
        };
        match self.procedures.body(number) {
            Some(body) => Some(body.kinds()),
            None => None,
        }
    }

    fn len(&self) -> usize {
        self.declared.len()
    }

    fn stacks(&self) -> usize {
        self.declared.stacks()
    }

    fn procedures(&self) -> usize {
        self.entries.one_number_law();
        count_in_effect(self.entries, self.procedures)
    }

    fn procedures_law(&self) {
        self.entries.few_law();
    }
}

/// How many of these names have a procedure in effect.
fn count_in_effect(entries: &Names, procedures: &Procedures) -> usize
    ensures { result ≡ length (in_effect_from procedures.now 0 entries.now) }
{
    entries.few_law();
    let mut count = 0;
    for number in 0..entries.len() {
        if let Some(_body) = procedures.body(number) {
            count += 1;
        }
    }
    count
}
