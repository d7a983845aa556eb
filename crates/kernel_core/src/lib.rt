//! The core of a Janus kernel whose undo is exact: the history tree of cells with the one store and the open job, the queue of posted jobs,
//! the execution counter and the minutes.
//!
//! What the layer above may rely on:
//! - `Kernel::post`, `begin`, `slice`, `shut`: each call is a step of the kernel machine, which `kernel_machine` defines by cases over a
//!   tree with the worlds of all its nodes. `slice` and `shut` take no memory.
//! - `Kernel::world`: the shown world. With no open job it is that of the position, inside a cell that after the counted steps.
//!   The tree and the open job are legal.
//! - `Kernel::declared_names`: the names of the position's world, over which an expression is checked between two jobs.
//! - `Kernel::cell`: the tree of a node's cell, lent.
//! - `Kernel::minutes`: each post, and how each job ended. They are legal: a fold over them that knows nothing of slices gives the
//!   tree, the position, the favourites and the counter, save what the open job has done.
//! - `run_events`: the answers and the state after any list of events are a run of the machine from the state before.
//! - `laws` of `machine_laws`: what this says of undo and redo over any schedule, and that want of memory aside each answer is the only one.
//!
//! Values, cells, procedures and refusals, which its calls take, answer and lend, can be named through this crate: it gives their types again, with
//! `SymbolTable`, `Kind` and `check_exp` for `DeclaredNames`, what an `OpenCell` holds, down to its store and its tree, and what the calls of a `Store` and of
//! a `Tree` take, lend and answer. A kernel itself lends no store. What can't be named through it is what a `Row` and a `Stop` consist of: `janus_row` and
//! `janus_linear` name it.
//!
//! It has the queue, the minutes and the counter; the tree, the store and the open job are `kernel_history`'s. The names of these crates and
//! of `kernel_machine` and `machine_laws` are passed on, types and laws here and definitions in specs/, so that layers above cite this crate alone:
//! a path `kernel_core.specs.X` that is not in the folder is found through `specs/Lib.antt`, which gives the definitions of the crates below again.
//!
//! The count of the store's writes never falls. A slice adds two at most for each step that it takes or goes back; a post, a begin and a
//! shutdown add none: so no slice rewrites the store by counted writes that a run from the root makes. Each end stands in the minutes with its
//! job's number, and with the counter and the position as the job ended. Along the minutes the counters never fall, and no two counted cells
//! carry the same.
#![tactic(auto)]

mod events;
mod kernel;
mod minutes;

pub use crate::events::run_events;
pub use crate::kernel::Kernel;
pub use crate::minutes::Entry;
pub use janus_syntax::{
    Cell, Declaration, Exp, Keyword, Name, Operator, Parameter, Procedure, Sign, Span, Stm,
    SyntaxFault, Token, TokenKind, Update, What,
};
pub use kernel_history::{
    Args, Book, CountedStore, Cursor, DeclaredNames, EndedCell, HistoryTree, Kind, LinkedCode,
    LinkedProcedure, Names, Node, OpenCall, OpenCell, Procedures, Program, RoomFault, Route, Row,
    RowReached, Runner, StackView, Stop, Store, SymbolTable, Tally, Tree, TreeFault, ValueView,
    View, cell_names, check_exp,
};
pub use kernel_machine::{
    Begun, CellText, CheckFault, Event, Extent, Fault, Job, MINUTES_LIMIT, Outcome, Phase,
    PostFault, Progress, QUEUE_LIMIT, Refusal, STEP_LIMIT, STEPS_OF_A_SLICE, Sliced, Told,
    TravelEnd,
};
pub use machine_laws::laws;
