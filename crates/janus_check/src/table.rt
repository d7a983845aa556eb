//! What a cell is checked over.

use crate::env::Kind;
use std::marker::Model;

/// What is known before a cell: the names that are declared already, in order of declaration, each with its kind, and the procedures that are defined, each
/// with the kinds of its parameters. Contracts see them as two lists. `Env` is one for who keeps no tables of its own.
pub trait SymbolTable {
    ghost use Rattle.std.specs.Prelude.{◌≡◌, Some, None, IfSome, MatchOption, length, ◌<◌, ◌^◌};
    ghost use Rattle.janus_meaning.specs.Shape.{kind_at, head_at, stack_count, different};
    ghost use Rattle.janus_meaning.specs.Syntax.{names_of};
    ghost use Rattle.janus_slots.specs.Slots.{slot, slot_in};
    ghost use Rattle.janus_check.specs.Names.{Known, kind_found, meant_kinds, shape_in, heads_in};

    /// What contracts see of it.
    ghost known: { Self → Known };

    /// The kind of a name, if it is there.
    fn kind(&self, name: &str) -> Option<Kind>
        ensures { kind_found result ≡ kind_at name.now (shape_in (known self.now).names) };

    /// The index of a name in the order of declaration, if it is there: its slot.
    fn place(&self, name: &str) -> Option<usize>
        ensures slot { MatchOption result (kind_at name.now (shape_in (known self.now).names) ≡ None)
            (λ i. slot_in (names_of (shape_in (known self.now).names)) name.now ≡ slot i) }
        ensures small { IfSome result (λ i. i < 2 ^ 63) };

    /// The kinds of a procedure's parameters, if it is there.
    fn head(&self, name: &str) -> Option<&[Kind]>
        ensures { MatchOption result (head_at name.now (heads_in (known self.now).procedures) ≡ None)
            (λ kinds. head_at name.now (heads_in (known self.now).procedures) ≡ Some (meant_kinds kinds.now)) };

    /// The number of names.
    fn len(&self) -> usize
        ensures count { result ≡ length (known self.now).names }
        ensures small { result < 2 ^ 63 };

    /// The number of stacks among the names.
    fn stacks(&self) -> usize
        ensures count { result ≡ stack_count (shape_in (known self.now).names) }
        ensures small { result < 2 ^ 63 };

    /// The number of procedures.
    fn procedures(&self) -> usize
        ensures count { result ≡ length (known self.now).procedures }
        ensures distinct { result ≡ different (heads_in (known self.now).procedures) };

    /// Law: a `usize` counts the procedures, and those of a cell with them.
    fn procedures_law(&self)
        ensures { length (known self.now).procedures < 2 ^ 63 };
}

/// What is known, as it is lent to a check. Contracts see what it shows.
#[derive(Drop)]
pub(crate) struct Lent<'a, T: SymbolTable> {
    table: &'a T,
}

impl<'a, T: SymbolTable> Model for Lent<'a, T> {
    ghost use Rattle.janus_check.specs.Names.{Known};

    ghost Value = { Known };

    ghost view = { λ l. T.known l.table.now };
}

impl<'a, T: SymbolTable> Lent<'a, T> {
    ghost use Rattle.std.specs.Prelude.{◌≡◌};

    pub(crate) fn new(table: &'a T) -> Lent<'a, T>
        ensures { result ≡ T.known table.now }
    {
        Lent { table }
    }

    /// The table that is lent.
    pub(crate) fn table(&self) -> &'a T
        ensures { T.known result.now ≡ self.now }
    {
        self.table
    }
}
