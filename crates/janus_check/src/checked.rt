//! Cells that were found well formed.
ghost use Rattle.std.specs.Prelude.{◌≡◌, []};
ghost use Rattle.janus_meaning.specs.FormedWorld.{with_declared, with_heads};
ghost use Rattle.janus_syntax.specs.Tree.{cell_view};
ghost use Rattle.janus_syntax.specs.View.{plain_cell};
ghost use Rattle.janus_check.specs.Names.{shape_in, heads_in, over};
ghost use Rattle.janus_check.specs.Check.{faults_over};
ghost use Rattle.janus_check.specs.Seen.{heads_over};

use crate::env::Env;
use crate::sight::Sight;
use crate::table::{Lent, SymbolTable};
use janus_syntax::tree::Cell;

/// A cell that was found well formed over what is known, which it borrows: the names that are declared already and the procedures that are defined. It
/// keeps what it declares and defines itself.
#[derive(Drop)]
pub struct Checked<'a, T: SymbolTable> {
    known: Lent<'a, T>,
    own: Env,
    cell: Cell,
    ghost passes: { faults_over known (cell_view cell) ≡ [] },
    ghost names: { over (shape_in known.names) own.names ≡ with_declared (shape_in known.names) (plain_cell (cell_view cell)).declarations },
    ghost heads: { heads_over known own ≡ with_heads (heads_in known.procedures) (plain_cell (cell_view cell)).procedures },
}

impl<'a, T: SymbolTable> Checked<'a, T> {
    ghost use Rattle.std.specs.Prelude.{◌≡◌, []};
    ghost use Rattle.janus_check.specs.Sight.{in_sight, heads_seen};
    ghost use Rattle.janus_check.specs.WellFormed.{IsWellFormedOver};
    ghost use Rattle.janus_check.specs.Own.{IsOwn};
    ghost use Rattle.janus_check.specs.Checked.{cell_in, known_in, names_seen, heads_called};

    /// The cell as one that was found well formed, with its own names and procedures.
    pub(crate) fn new(env: &'a T, own: Env, cell: Cell) -> Checked<'a, T>
        requires passes { faults_over (T.known env.now) (cell_view cell) ≡ [] }
        requires own { IsOwn (T.known env.now) own (cell_view cell) }
        ensures known { known_in result ≡ T.known env.now }
        ensures cell { cell_in result ≡ cell_view cell }
    {
        let known = Lent::new(env);
        Checked { known, own, cell }
    }

    /// The cell.
    pub fn cell(&self) -> &Cell
        ensures { cell_view result.now ≡ cell_in self.now }
    {
        &self.cell
    }

    /// The cell alone, which is kept for longer than what it was checked over.
    pub fn into_cell(self) -> Cell
        ensures { cell_view result ≡ cell_in self.entry }
    {
        self.cell
    }

    /// What its statements see: the names that are known and its own, and the procedures that its calls see.
    pub fn sight(&self) -> Sight<'_, T>
        ensures names { in_sight result ≡ names_seen self.now }
        ensures heads { heads_seen result ≡ heads_called self.now }
    {
        Sight::declared(self.known.table(), &self.own)
    }

    /// Law: a checked cell is well formed over what is known.
    pub fn formed_law(&self)
        ensures { IsWellFormedOver (known_in self.now) (cell_in self.now) }
    {}
}
