//! The runner of one cell: it alone runs the machine of `janus_machine`.
//!
//! - `Program` is a cell as it was checked, with its code both ways. It is ready where its code is the cell's block with slots in place of names,
//!   and the bodies of its procedures are kept. `kernel_loader` makes one of a text.
//! - `Runner` has the one store, the procedures in effect with the table of their names, and the place in the code of the open cell. Code and store
//!   have slots alone; that a run of slots is one of names is a law of `janus_slots`. Contracts see a runner's configuration: it shows
//!   a world, or is at a place in a program's code. `enter` and `enter_inverse` lead inside a cell, `run` takes steps onward and `step` one, `turn` faces round,
//!   `back` takes steps back, `leave` takes back what the begin declared and defined, and `forget` drops what was loaded for a cell. Of these `enter`
//!   alone takes memory.
//!
//! The definitions are in specs/: `Program` (the cell that a program is), `Declarable` (what a store has room for) and `Runner` (the model of a
//! runner, and what each call does to it).
//!
//! It gives the names of `janus_machine` again that the loader and the history cite: its books, cursors, procedures and stores, with what these
//! consist of, and its slices.
//!
//! A step makes two writes of the store at most. `enter` has no answer for want of memory where the cell declares nothing.
#![tactic(auto)]

mod program;
mod runner;

pub use crate::program::Program;
pub use crate::runner::Runner;
pub use janus_machine::{
    Args, Book, CountedStore, Cursor, LinkedCode, LinkedProcedure, Names, OpenCall, Procedures,
    RoomFault, Row, StackView, Store, Tally, ValueView, slice,
};
