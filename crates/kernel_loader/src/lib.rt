//! The loader: it makes a cell's text a program that the runner can run, and runs nothing.
//!
//! What the layer above may rely on:
//! - `load` prepares a cell's text over the names that the runner's store declares and the procedures in effect: it is parsed, checked,
//!   made flat and linked, with slots in place of names, the names of its procedures and no others come into the runner's table behind the old ones, and the
//!   bodies of its procedures are kept behind those of earlier cells. What is refused is refused for the text's fault or for want of memory
//!   (`Text` of `kernel_machine`). A well-formed world that the runner showed it goes on to show.
//! - `DeclaredNames` are the names that a store declares, lent to the check of an expression.
//!
//! The code, in reading order: `sight` (the names that a store declares), `tables` (what a cell is checked over: these and the runner's own tables, of which
//! nothing is copied), `checking` (a text's cell, and its check), `listing` (the names of its procedures), `keeping` (their bodies), `loader` (all of these for
//! one text).
//!
//! The definitions are in specs/: `Kinds`, `Defined`, `InEffect`, `Tables`, `Known` (what a cell is checked over), `Keeping` (the bodies that are kept) and
//! `Loading` (what stays while a cell is loaded, what is ready, and which names of procedures are new).
//!
//! It gives names of `kernel_runner` and of `janus_machine` again for the history, which works with a runner and loaded cells; `Cursor`, `Procedures` and
//! `slice` for a wrong body of the history that runs the machine itself.
//!
//! The store stays as it is. What is refused leaves names and bodies as they were.
#![tactic(auto)]

mod checking;
mod keeping;
mod listing;
mod loader;
mod sight;
mod tables;

pub use crate::loader::load;
pub use crate::sight::DeclaredNames;
pub use kernel_runner::{
    Args, Book, CountedStore, Cursor, LinkedCode, LinkedProcedure, Names, OpenCall, Procedures,
    Program, RoomFault, Row, Runner, StackView, Store, Tally, ValueView, slice,
};
