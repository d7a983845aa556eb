//! The tree of cells: nodes under a root, each with at most one favourite among its children, the paths between them, and where these meet.
//! What a node holds is a type of the layer above.
//!
//! To that layer this crate promises that parents stand before their children and that a favourite is a child of its node; that a node is
//! added in room that was made before, so without taking memory; that `path` answers the nodes from the root to a node, `meet` the last node
//! that is on both of two paths, and `find_way` the way over that node; that the nodes which this way goes down to are kept, so that each
//! step down costs one read; and that `above` counts the nodes above a node, and `below` those to which favourites lead down from it.
//!
//! A number that is no node's is refused where the caller can't know (`path`, `meet`, the end of `find_way`); elsewhere it is a condition, and
//! `has` is its test.
//!
//! The definitions are in specs/: `Tree` (what contracts see, and what holds of it), `Paths` (paths, meeting nodes and ways, over the list of
//! the parents of all nodes, and what favourites lead down to), `Laws` (what these come to), `Kept` (the tree as the code keeps it), `Fault`.
#![tactic(auto)]

mod fault;
pub mod laws;
mod node;
mod route;
mod tree;
mod walks;

pub use fault::TreeFault;
pub use node::Node;
pub use route::Route;
pub use tree::{NODE_LIMIT, Tree};
