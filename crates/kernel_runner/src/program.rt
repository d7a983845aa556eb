//! A cell that can be run both ways: what a node of the history keeps, and no earlier store.
ghost use Rattle.std.specs.Prelude.{◌≡◌, map};
ghost use Rattle.janus_syntax.specs.Tree.{cell_view, declarations_view, procedures_view};
ghost use Rattle.janus_syntax.specs.View.{plain_declaration, plain_procedure};
ghost use Rattle.kernel_runner.specs.Program.{tree_of, declarations_of, procedures_of};

use janus_machine::LinkedCode;
use janus_syntax::tree::{Cell, Declaration, Procedure};

/// What a cell declares and defines, and its code both ways.
#[derive(Drop)]
pub struct Program {
    pub book: LinkedCode,
    /// The cell that was checked. What it declares and defines is told from it.
    pub cell: Cell,
    /// Where the bodies of its procedures begin among those that are kept.
    pub first: usize,
    /// How many names stood in the table of procedures' names before its own came behind them.
    pub first_name: usize,
}

impl Program {
    /// The cell that was checked.
    pub fn cell(&self) -> &Cell
        ensures { cell_view result.now ≡ tree_of self.now }
    {
        &self.cell
    }

    /// What it declares.
    pub(crate) fn declarations(&self) -> &[Declaration]
        ensures { map plain_declaration (declarations_view result.now) ≡ declarations_of self.now }
    {
        &self.cell.declarations
    }

    /// The procedures that it defines.
    pub fn procedures(&self) -> &[Procedure]
        ensures { map plain_procedure (procedures_view result.now) ≡ procedures_of self.now }
    {
        &self.cell.procedures
    }
}
