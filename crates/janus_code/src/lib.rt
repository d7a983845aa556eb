//! Flat code both ways, closed procedures, and inverse cells.
//!
//! To the layer above it promises that `invert` gives the inverse of a cell's statements, that `closed` gives a procedure with its local's
//! name behind each `delocal`, that flat code stands for one block over a table of names, that `flatten` gives code that over a table of slots stands for
//! the cell's block with slots in place of names, and `flatten_procedure` a procedure whose code stands for its body so, both without a statement that no
//! block holds; and that `invert_code` gives code that stands for the inverse of a code's block, in which each name keeps
//! its number: the code that runs where a cell is undone, or a procedure is uncalled. A statement's inverse has its number, and the members of each block
//! stand backward; want of memory is its one refusal. In flat code a variable's slot stands for it, and for a procedure its
//! number in a table of procedures' names, so that what runs compares no text. What code means is told over a table of names.
//! The inverse of a statement is that of Yokoyama and Glück (2007), "A reversible programming language and its invertible
//! self-interpreter": `+=` and `-=` exchange, `^=` stays; an `if` exchanges its test and its assertion, a loop its entry and its
//! exit, and their blocks stay where they are, each inverted; `skip` and a swap stay; `push` and `pop`, `call` and `uncall` exchange, a
//! local exchanges its two expressions; a block is reversed with each of its statements inverted.
//!
//! It gives again what the layers above cite with flat code: how trees are read (`View` of `janus_syntax`), of `janus_check` what makes a `Checked` and a
//! `Sight`, which its calls take, and `Names` of `janus_slots`, in which procedures have their numbers.
//!
//! Flat code tells how many slots it needs, which is a function of the cell and of the table of names.
#![tactic(auto)]

ghost use Rattle.janus_code.specs.Cells.{InverseCellTwice};
ghost use Rattle.janus_code.specs.FlatCode.{InvertedIsFlatCodeOfInverse};
ghost use Rattle.janus_code.specs.InvertedBlock.{InvertedStandsForInverse};

pub mod closed;
pub mod code;
mod copies;
pub mod expression;
mod fault;
mod flat;
mod inverse;
mod procedure;
mod statements;
mod turned;

pub use crate::code::{
    Block, Code, FlatExp, FlatParameter, FlatProcedure, SlottedCode, SlottedProcedure, Statement,
    Symbol,
};
pub use crate::expression::flat_exp;
pub use crate::fault::InvertFault;
pub use crate::flat::flatten;
pub use crate::inverse::{invert, opposite};
pub use crate::procedure::flatten_procedure;
pub use crate::turned::invert_code;
pub use janus_check::{CheckFault, Checked, Env, Kind, Sight, SymbolTable, check};
pub use janus_slots::Names;

/// A law about the definitions of `specs/`: the inverse of a cell's inverse is the cell. It does nothing.
pub fn inverse_cell_twice_law()
    ensures { InverseCellTwice }
{}

/// Law: where code stands for a block with slots in place of names, as what `flatten` gives does, what `invert_code` gives of it stands for the
/// inverted block, as the flat code of the inverted cell does.
pub fn inverted_stands_for_inverse_law()
    ensures { InvertedStandsForInverse }
{}

/// Law: what `invert_code` gives of what `flatten` gives of a cell is flat code of the inverted cell, over the same names and as many slots: it stands for the
/// inverted block. That each of its statements stands in a block, which `flatten` promises too, is no part of it.
pub fn inverted_is_flat_code_of_inverse_law()
    ensures { InvertedIsFlatCodeOfInverse }
{}
