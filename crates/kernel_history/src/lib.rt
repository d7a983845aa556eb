//! The history of a kernel: the tree of cells that ended well, the position in it, the one store, and the open job.
//!
//! A history keeps the code of each cell both ways, and no earlier store. Going back leads through the worlds of the cell's inverted code, in as many
//! steps as the cell took, and each slice counts its steps over the one store. That the cursor of a slice which goes back, or comes to a cell's end, came
//! by counted steps of the cell's code is said inside this crate (`Came`).
//!
//! What the layer above may rely on: contracts see a state of the machine of `kernel_machine`, with the worlds of all nodes, none of which is
//! kept. `begin_cell`, `begin_undo`, `begin_redo`, `begin_goto` and `enter` are the machine's begins, `slice` is its slice, and takes no memory.
//! `world` lends the world that is shown, `declared_names` what an expression is checked over between two jobs, `cell` a tree of a node's cell. The
//! store is lent by none of them.
//!
//! The code, in reading order; `cell_tree` keeps the nodes, `kernel_loader` loads a cell's text, and `kernel_runner` runs it:
//!
//! - `tree`: the tree of cells with the position, and what is asked of it; `job`: the open job.
//! - `history`: the tree, the runner and the open job in one, and how jobs begin. `settle`: a slice and its parts, and what comes at the end of a cell.
//! - `open_cell`: a posted cell that is open, taken out of its history, to be walked through.
//! - `defined`: the procedures of a world; `view`: the shown world, lent; `extent`: how far an undo and a redo can go.
//!
//! The definitions, in specs/, in reading order:
//!
//! - `Fields`: the types of the code read as the machine's. `CountedState`: what contracts see of a history, with what is counted.
//!   `NodeTrees`: a tree of a node's cell. `DeclaredNames`: what an expression is checked over.
//! - `Bodies`: which program a node has and a job runs, which bodies are defined where, and how many are kept.
//! - `Index`: what the index of bodies tells of the tree.
//! - `TableNames`: which names of procedures stand in the runner's table. `Standing`: where the runner stands.
//! - `Kept`: what a history keeps of its fields, with a map of it, what a slice leaves, and where a cell has come to its end. `Came`: that the
//!   cursor of a slice that ends a cell is where counted steps lead.
//!
//! It gives again what `kernel_core` cites of the layers below: what its calls lend and what an `OpenCell` holds, down to the store with what its calls
//! take, lend and answer, and the check's table of names with its kinds.
//!
//! The type keeps what the index of bodies tells: for each name the body that the open cell defines, where it was posted or a move goes
//! down to it, else that of the nearest node up to the root which defines the name, else none. It keeps as many bodies as the nodes and an
//! open posted cell have: so a cell that is refused or taken back leaves none. A slice makes two writes of the store at most for each step.
#![tactic(auto)]

mod defined;
mod extent;
mod history;
mod job;
mod open_cell;
mod settle;
mod tree;
mod view;

pub use crate::history::History;
pub use crate::job::Stage;
pub use crate::open_cell::OpenCell;
pub use crate::tree::{EndedCell, HistoryTree};
pub use crate::view::View;
pub use cell_tree::{Node, Route, Tree, TreeFault};
pub use janus_check::{Kind, SymbolTable, cell_names, check_exp};
pub use janus_row::Stop;
pub use janus_row::slice::Reached as RowReached;
pub use kernel_loader::{
    Args, Book, CountedStore, Cursor, DeclaredNames, LinkedCode, LinkedProcedure, Names, OpenCall,
    Procedures, Program, RoomFault, Row, Runner, StackView, Store, Tally, ValueView,
};
