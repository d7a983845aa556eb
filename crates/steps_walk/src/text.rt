//! Whether the trees whose places are told are those of texts.
ghost use Rattle.std.specs.Prelude.{◌≡◌, IsTrue, IfSome, IfOk, length};
ghost use Rattle.janus_syntax.specs.Tree.{cell_view};
ghost use Rattle.steps_walk.specs.Texts.{IsTextAt, IsTreeAt, nodes_in};

use crate::walk::Walk;
use janus_sameness::is_same_cell;
use janus_syntax::tree::Cell;
use janus_syntax::{SyntaxFault, parse_cell};
use std::alloc::{AllocError, Global};
use std::sync::ledger::Ledger;

impl<L: Ledger> Walk<L> {
    /// How many nodes stand before the open cell, those of other branches among them, without the root.
    pub fn nodes(&self) -> usize
        ensures { result ≡ nodes_in self.now }
    {
        self.open.tree.cells.nodes()
    }

    /// The tree of the cell of a node; of none, that of the open cell. None if there is no such node.
    fn cell(&self, node: Option<usize>) -> Option<&Cell>
        ensures { IfSome result (λ cell. IsTreeAt self.now node (cell_view cell.now)) }
    {
        let Some(n) = node else {
            return Some(&self.open.program.cell);
        };
        if n == 0 {
            return None;
        }
        if n > self.open.tree.cells.nodes() {
            return None;
        }
        Some(&self.open.tree.cells.content(n).program.cell)
    }

    /// Reads a text once more. Where it answers true, its tree is that of the cell of a node, or for none of the open cell, with all places. The only error is
    /// want of memory.
    pub fn has_text(
        &self,
        alloc: Global,
        node: Option<usize>,
        text: &str,
    ) -> Result<bool, AllocError>
        ensures { IfOk result (λ has. IsTrue has → IsTextAt self.now node text.now) }
    {
        let Some(own) = self.cell(node) else {
            return Ok(false);
        };
        match parse_cell(alloc, text) {
            Ok(cell) => Ok(is_same_cell(&cell, own)),
            Err(SyntaxFault::Memory) => Err(AllocError),
            Err(_) => Ok(false),
        }
    }
}
