//! The tree of cells that ended well, and where the kernel stands in it.
ghost use Rattle.std.specs.Prelude.{◌≡◌, ◌≤◌, ◌↔◌, ℕ, IsTrue, IsErr, IfOk, length};
ghost use Rattle.kernel_machine.specs.State.{below, is_full};
ghost use Rattle.kernel_machine.specs.declared.travel.Way.TheVariants.{Down};
ghost use Rattle.kernel_machine.specs.declared.travel.Aim.TheVariants.{Goto};
ghost use Rattle.kernel_machine.specs.Travel.{next_way};
ghost use Rattle.kernel_history.specs.Fields.{past_of, nodes_of};
ghost use Rattle.kernel_machine.specs.Legal.{IsLegal, IsPossible, IsMeeting, can_undo, can_redo};
ghost use Rattle.kernel_history.specs.Kept.{HasPath};

use cell_tree::{Route, Tree as Cells, TreeFault};
use kernel_loader::Program;
use kernel_machine::{Aim, Travel};

/// A cell that ended well, with the steps that it took: what a node of the tree holds.
#[derive(Drop)]
pub struct EndedCell {
    pub program: Program,
    pub steps: u64,
}

/// The tree of cells, and the position in it. The root has no cell.
#[derive(Drop)]
pub struct HistoryTree {
    pub cells: Cells<EndedCell>,
    /// The number of the node at which the kernel stands.
    pub position: usize,
}

/// Whether no further node may be added.
pub fn is_full(tree: &HistoryTree) -> bool
    ensures { result ≡ is_full (past_of tree.now) }
{
    tree.cells.is_full()
}

/// How many nodes the position can go up, counted up to `most`.
pub fn nodes_above(tree: &HistoryTree, most: usize) -> usize
    requires { IsLegal (past_of tree.now) }
    ensures most { result ≤ most }
    ensures within { (k : ℕ) → k ≤ most → IsTrue (can_undo (nodes_of tree.now) tree.now.position k) ↔ (k ≤ result) }
    // Of as many as there are nodes, all are counted.
    ensures all { length tree.now.cells.nodes ≤ most → (k : ℕ) → IsTrue (can_undo (nodes_of tree.now) tree.now.position k) ↔ (k ≤ result) }
{
    tree.cells.above(tree.position, most)
}

/// How many nodes the position can go down, along favourites, counted up to `most`.
pub fn nodes_below(tree: &HistoryTree, most: usize) -> usize
    requires { IsLegal (past_of tree.now) }
    ensures most { result ≤ most }
    ensures within { (k : ℕ) → k ≤ most → IsTrue (can_redo tree.now.cells.favourites tree.now.position k) ↔ (k ≤ result) }
    // Of as many as there are nodes, all are counted.
    ensures all { length tree.now.cells.nodes ≤ most → (k : ℕ) → IsTrue (can_redo tree.now.cells.favourites tree.now.position k) ↔ (k ≤ result) }
{
    tree.cells.below(tree.position, most)
}

/// Whether the position can go up `k` nodes.
pub fn can_go_up(tree: &HistoryTree, k: u32) -> bool
    requires { IsLegal (past_of tree.now) }
    ensures { result ≡ can_undo (nodes_of tree.now) tree.now.position k }
{
    let most = k as usize;
    nodes_above(tree, most) == most
}

/// Whether the position can go down `k` nodes, along favourites.
pub fn can_go_down(tree: &HistoryTree, k: u32) -> bool
    requires { IsLegal (past_of tree.now) }
    ensures { result ≡ can_redo tree.now.cells.favourites tree.now.position k }
{
    let most = k as usize;
    nodes_below(tree, most) == most
}

/// The node to which the travel goes down next.
pub fn below(tree: &HistoryTree, travel: Travel) -> usize
    requires legal { IsLegal (past_of tree.now) }
    requires possible { IsPossible (nodes_of tree.now) tree.now.cells.favourites tree.now.position travel }
    requires way { next_way travel ≡ Down }
    requires path { HasPath travel.aim tree.now travel.down }
    ensures { result ≡ below (past_of tree.now) travel }
{
    match travel.aim {
        Aim::Goto(_) => tree.cells.next_down(travel.down),
        _ => tree.cells.favourite(tree.position).unwrap(),
    }
}

/// The way from the position to a node: up to where the paths meet, and down along the way that the tree keeps. An error where there is no
/// such node.
pub fn find_way(tree: &mut HistoryTree, target: usize) -> Result<Route, TreeFault>
    requires { IsLegal (past_of tree.old) }
    ensures same { past_of tree.new ≡ past_of tree.old }
    ensures nodes { tree.new.cells.nodes ≡ tree.old.cells.nodes }
    ensures way { IfOk result (λ way. IsMeeting (nodes_of tree.new) tree.new.position target way.up way.down) }
    ensures path { IfOk result (λ way. HasPath (Goto target) tree.new way.down) }
    ensures no_node { IsErr result ↔ (length (nodes_of tree.old) ≤ target) }
{
    tree.cells.find_way(tree.position, target)
}
