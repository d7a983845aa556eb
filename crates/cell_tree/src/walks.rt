//! Ways along a list of nodes: from a node up to the root or down along favourites, and from one node to another.
ghost use Rattle.std.specs.Prelude.{◌≡◌, ◌<◌, ◌≤◌, ℕ, IfOk, IfErr, length, min, slice_index, vec_capacity};
ghost use Rattle.cell_tree.specs.Tree.{parent_in, parents_of, IsOrdered};
ghost use Rattle.cell_tree.specs.Paths.{path_of, depth, meeting_of, upward, downward, IsRoute};

use crate::fault::TreeFault;
use crate::node::Node;
use crate::route::Route;
use std::alloc::Global;

/// The number of the node above, and 0 for the root.
pub fn parent_of<C>(nodes: &[Node<C>], node: usize) -> usize
    requires ordered { IsOrdered (parents_of nodes.now) }
    requires known { node ≤ length nodes.now }
    ensures parent { result ≡ parent_in (parents_of nodes.now) node }
    ensures before { 0 < node → result < node }
{
    if node == 0 {
        return 0;
    }
    nodes[node - 1].parent
}

/// The nodes from the root to a node.
pub fn path_to<C>(alloc: Global, nodes: &[Node<C>], node: usize) -> Result<Vec<usize>, TreeFault>
    requires ordered { IsOrdered (parents_of nodes.now) }
    requires known { node ≤ length nodes.now }
    ensures ok { IfOk result (λ path. path.items ≡ path_of (parents_of nodes.now) node) }
    ensures err { IfErr result (λ fault. fault ≡ TreeFault.Memory) }
{
    let mut path = Vec::new(alloc);
    let mut at = node;
    while at != 0 {
        path.push(at)?;
        at = parent_of(nodes, at);
    }
    path.push(0)?;
    path.reverse();
    Ok(path)
}

/// How many nodes stand above a node, counted up to `most`.
pub fn above<C>(nodes: &[Node<C>], node: usize, most: usize) -> usize
    requires ordered { IsOrdered (parents_of nodes.now) }
    requires known { node ≤ length nodes.now }
    ensures { result ≡ min most (depth (parents_of nodes.now) node) }
{
    let mut at = node;
    for count in 0..most {
        if at == 0 {
            return count;
        }
        at = parent_of(nodes, at);
    }
    most
}

/// How many nodes favourites lead down to from a node, counted up to `most`. In place of a favourite 0 stands for none.
pub fn below(favourites: &[usize], node: usize, most: usize) -> usize
    requires known { node < length favourites.now }
    requires nodes { (n : ℕ) → n < length favourites.now → slice_index favourites.now n < length favourites.now }
    ensures { result ≡ length (downward favourites.now node most) }
{
    let mut at = node;
    for count in 0..most {
        at = favourites[at];
        if at == 0 {
            return count;
        }
    }
    most
}

/// The last node on the paths to both.
pub fn meeting<C>(nodes: &[Node<C>], first: usize, second: usize) -> usize
    requires ordered { IsOrdered (parents_of nodes.now) }
    requires first { first ≤ length nodes.now }
    requires second { second ≤ length nodes.now }
    ensures { result ≡ meeting_of (parents_of nodes.now) first second }
{
    let mut a = first;
    let mut b = second;
    while a != b {
        if a > b {
            a = parent_of(nodes, a);
        } else {
            b = parent_of(nodes, b);
        }
    }
    a
}

/// How far up and then down one node lies from another. The nodes that the way goes down to are written to `way`, the last one first.
pub fn find_way<C>(nodes: &[Node<C>], way: &mut Vec<usize>, from: usize, to: usize) -> Route
    requires ordered { IsOrdered (parents_of nodes.now) }
    requires from { from ≤ length nodes.now }
    requires to { to ≤ length nodes.now }
    requires room { length nodes.now ≤ vec_capacity way.old }
    ensures way { IsRoute (parents_of nodes.now) from to result.up result.down }
    ensures kept { way.new.items ≡ upward (parents_of nodes.now) to result.down }
    ensures few { (result.up ≤ from) × (result.down ≤ to) }
    ensures room { vec_capacity way.new ≡ vec_capacity way.old }
{
    way.clear();
    let mut up = 0;
    let mut a = from;
    let mut b = to;
    while a != b {
        if a > b {
            a = parent_of(nodes, a);
            up += 1;
        } else {
            way.push_reserved(b);
            b = parent_of(nodes, b);
        }
    }
    Route {
        up,
        down: way.len(),
    }
}
