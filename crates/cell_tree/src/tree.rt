//! The tree: how nodes are added, and what is read of them.
ghost use Rattle.std.specs.Prelude.{◌≡◌, ◌≢◌, ◌+◌, ◌-◌, ◌<◌, ◌≤◌, ◌↔◌, ◌⊎◌, IsTrue, IsErr, IsErrOf, OnOk, OnErr, IfOk, IfErr, IfSome, MatchOption, length, min};
ghost use Rattle.std.specs.Prelude.{slice_get, slice_set, slice_index, Some};
ghost use Rattle.cell_tree.specs.Tree.{node_limit, parent_in, parents_of, contents_of, IsNode, IsChild, IsTree, favourite_of, root_alone, grown};
ghost use Rattle.cell_tree.specs.declared.fault.TreeFault.TheVariants.{Memory};
ghost use Rattle.cell_tree.specs.Paths.{path_of, depth, meeting_of, upward, downward, IsRoute};

use crate::fault::TreeFault;
use crate::node::Node;
use crate::route::Route;
use crate::walks::{above, below, find_way, meeting, parent_of, path_to};
use std::alloc::Global;
use std::marker::Model;

/// The most nodes that may stand beside the root.
pub const NODE_LIMIT: usize = 65_536;

/// A tree of nodes that are numbered as they come. Its root is the node 0, and holds nothing.
///
/// Each node has at most one favourite among its children, and the tree keeps the way down that was found last. Contracts see the nodes, the
/// favourites and this way as lists, and for how many more nodes the memory was taken.
#[derive(Drop)]
pub struct Tree<C> {
    // the node n stands at n - 1
    nodes: Vec<Node<C>>,
    // for each node, the root included, its favourite child, or 0
    favourites: Vec<usize>,
    // the last node of the way first
    way: Vec<usize>,
    alloc: Global,
}

impl<C> Model for Tree<C> {
    ghost use Rattle.cell_tree.specs.Tree.{Tree as Nodes};
    ghost use Rattle.cell_tree.specs.Kept.{tree_code, tree_of, IsKept};

    ghost Value = { Nodes C };

    ghost coded = { tree_code C.code };

    ghost view = { λ t. tree_of t.nodes t.favourites t.way };

    ghost invariant = { λ t. IsKept t.nodes t.favourites t.way };
}

impl<C: Drop> Tree<C> {
    /// A tree with the root alone.
    ///
    /// # Errors
    ///
    /// `TreeFault::Memory` where there is no memory for it.
    pub fn new(alloc: Global) -> Result<Tree<C>, TreeFault>
        ensures new { IfOk result (λ tree. tree ≡ root_alone tree.room) }
        ensures memory { IfErr result (λ fault. fault ≡ Memory) }
    {
        let mut favourites = Vec::new(alloc);
        favourites.push(0)?;
        Ok(Tree {
            nodes: Vec::new(alloc),
            favourites,
            way: Vec::new(alloc),
            alloc,
        })
    }

    /// How many nodes there are beside the root: their numbers are 1 to this.
    pub fn nodes(&self) -> usize
        ensures count { result ≡ length self.now.nodes }
        ensures tree { IsTree self.now }
    {
        self.nodes.len()
    }

    /// Whether no further node may be added.
    pub fn is_full(&self) -> bool
        ensures full { IsTrue result ↔ (length self.now.nodes ≡ node_limit) }
        ensures tree { IsTree self.now }
    {
        self.nodes.len() == NODE_LIMIT
    }

    /// Whether this is the number of a node, of the root too.
    pub fn has(&self, node: usize) -> bool
        ensures { IsTrue result ↔ IsNode self.now node }
    {
        node <= self.nodes.len()
    }

    /// Takes the memory for one more node, for its favourite and for a way down to it.
    ///
    /// # Errors
    ///
    /// `HistoryFull` exactly where the tree is full, `Memory` only where there was no room before. Either leaves the nodes, the favourites and the way.
    pub fn room(&mut self) -> Result<(), TreeFault>
        ensures ok { OnOk result (0 < self.new.room) }
        ensures same { self.new ≡ record self.old { room = self.new.room } }

        ensures full { IsErrOf result TreeFault.HistoryFull ↔ (length self.old.nodes ≡ node_limit) }
        ensures memory { result ≡ Err TreeFault.Memory → self.old.room ≡ 0 }
        ensures known { IfErr result (λ fault. fault ≢ TreeFault.NoNode) }
    {
        if self.is_full() {
            return Err(TreeFault::HistoryFull);
        }
        self.nodes.reserve(1)?;
        self.favourites.reserve(1)?;
        self.way.reserve(self.nodes.len() + 1 - self.way.len())?;
        Ok(())
    }

    /// Adds a node in room that was made, and answers its number. It has no favourite, and the one of its parent stays. It takes no memory.
    pub fn add(&mut self, node: Node<C>) -> usize
        requires room { 0 < self.old.room }
        requires parent { IsNode self.old node.parent }
        ensures number { result ≡ length self.old.nodes + 1 }
        ensures added { self.new ≡ grown self.old node }
    {
        self.nodes.push_reserved(node);
        self.favourites.push_reserved(0);
        self.nodes.len()
    }

    /// The number of the node above, and 0 for the root.
    pub fn parent(&self, node: usize) -> usize
        requires { IsNode self.now node }
        ensures parent { result ≡ parent_in (parents_of self.now.nodes) node }
        ensures before { 0 < node → result < node }
    {
        parent_of(&self.nodes, node)
    }

    /// How many nodes stand above a node, the root among them, counted up to `most`.
    pub fn above(&self, node: usize, most: usize) -> usize
        requires { IsNode self.now node }
        ensures { result ≡ min most (depth (parents_of self.now.nodes) node) }
    {
        above(&self.nodes, node, most)
    }

    /// What a node beside the root holds.
    pub fn content(&self, node: usize) -> &C
        requires below_root { 0 < node }
        requires known { IsNode self.now node }
        ensures { slice_get (contents_of self.now) (node - 1) ≡ Some result.now }
    {
        &self.nodes[node - 1].content
    }

    /// The favourite child of a node, if it has one.
    pub fn favourite(&self, node: usize) -> Option<usize>
        requires { IsNode self.now node }
        ensures favourite { MatchOption result (favourite_of self.now node ≡ 0) (λ child. child ≡ favourite_of self.now node) }
        ensures child { IfSome result (IsChild self.now node) }
    {
        let child = self.favourites[node];
        if child == 0 { None } else { Some(child) }
    }

    /// How many nodes favourites lead down to from a node, counted up to `most`.
    pub fn below(&self, node: usize, most: usize) -> usize
        requires { IsNode self.now node }
        ensures { result ≡ length (downward self.now.favourites node most) }
    {
        below(&self.favourites, node, most)
    }

    /// Makes a child the favourite of its parent.
    pub fn set_favourite(&mut self, node: usize, child: usize)
        requires { IsChild self.old node child }
        ensures { self.new ≡ record self.old { favourites = slice_set self.old.favourites node child } }
    {
        self.favourites[node] = child;
    }

    /// The nodes from the root to a node, both included.
    ///
    /// # Errors
    ///
    /// `NoNode` exactly where there is no such node, else `Memory`.
    pub fn path(&self, node: usize) -> Result<Vec<usize>, TreeFault>
        ensures ok { IfOk result (λ path. path.items ≡ path_of (parents_of self.now.nodes) node) }
        ensures no_node { IsErrOf result TreeFault.NoNode ↔ (length self.now.nodes < node) }
        ensures known { IfErr result (λ fault. fault ≢ TreeFault.HistoryFull) }
    {
        if !self.has(node) {
            return Err(TreeFault::NoNode);
        }
        path_to(self.alloc, &self.nodes, node)
    }

    /// The node where the paths to two nodes meet: the last one that is on both. It takes no memory, and as many steps as the way from the one
    /// to the other.
    ///
    /// # Errors
    ///
    /// `NoNode` exactly where one of them is no node.
    pub fn meet(&self, a: usize, b: usize) -> Result<usize, TreeFault>
        ensures ok { IfOk result (λ node. node ≡ meeting_of (parents_of self.now.nodes) a b) }
        ensures no_node { IsErr result ↔ ((length self.now.nodes < a) ⊎ (length self.now.nodes < b)) }
        ensures err { IfErr result (λ fault. fault ≡ TreeFault.NoNode) }
    {
        if !self.has(a) || !self.has(b) {
            return Err(TreeFault::NoNode);
        }
        Ok(meeting(&self.nodes, a, b))
    }

    /// Finds the way from one node to another: up to where their paths meet, and then down. The tree keeps the nodes that it goes down to, until
    /// another way is found. It takes no memory.
    ///
    /// # Errors
    ///
    /// `NoNode` exactly where `to` is no node. The tree stands as it was.
    pub fn find_way(&mut self, from: usize, to: usize) -> Result<Route, TreeFault>
        requires { IsNode self.old from }
        ensures way { IfOk result (λ way. IsRoute (parents_of self.old.nodes) from to way.up way.down) }
        ensures few { IfOk result (λ way. (way.up ≤ from) × (way.down ≤ to)) }
        ensures kept { IfOk result (λ way. self.new ≡ record self.old { way = upward (parents_of self.old.nodes) to way.down }) }
        ensures no_node { IsErr result ↔ (length self.old.nodes < to) }
        ensures err { IfErr result (λ fault. (fault ≡ TreeFault.NoNode) × (self.new ≡ self.old)) }
    {
        if !self.has(to) {
            return Err(TreeFault::NoNode);
        }
        Ok(find_way(&self.nodes, &mut self.way, from, to))
    }

    /// The node to which the way that was found last goes down next, where `left` of its steps down are still to go.
    pub fn next_down(&self, left: usize) -> usize
        requires some { 0 < left }
        requires within { left ≤ length self.now.way }
        ensures { result ≡ slice_index self.now.way (left - 1) }
    {
        self.way[left - 1]
    }
}
