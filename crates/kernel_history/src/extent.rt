//! How far an undo and a redo can go.
ghost use Rattle.kernel_history.specs.Fields.{past_of};
ghost use Rattle.kernel_machine.specs.Legal.{IsLegal};
ghost use Rattle.kernel_machine.specs.Extent.{IsExtent};

use crate::tree::{HistoryTree, nodes_above, nodes_below};
use kernel_machine::Extent;

/// How far an undo and a redo can go, and how many nodes there are.
pub fn extent_of(tree: &HistoryTree) -> Extent
    requires { IsLegal (past_of tree.now) }
    ensures { IsExtent (past_of tree.now) result }
{
    let nodes = tree.cells.nodes();
    Extent {
        undo: nodes_above(tree, nodes),
        redo: nodes_below(tree, nodes),
        nodes,
    }
}
