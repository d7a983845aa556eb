//! Where code stands in its text: for each place of a block's linear code the statement there, and which part of it comes next.
//!
//! Code keeps no places of the text, so that it runs as fast as it can. This crate makes a table of them from the tree of a block, whose names and
//! numbers have their places: it has a row for each place of the code in the order in which it is written. To the layer above it promises of a
//! row what the statement of the meaning's machine at that place is (`Standing`, in specs/): the statement's own tree, in the slots of the names that are in
//! sight there, and the names of the locals that are open. A part of the text is told from the first to the last name or number in it; a `skip`, and a
//! part that is left out, has none.
//!
//! The modules, in the order in which a reader needs them: `part` (which part of a statement a place is), `span` (where it stands in the text), `table` (the
//! rows, and the locals that are open at each), `block` (the rows of a block).
//!
//! The definitions, in specs/, in reading order: `Spots` (what stands at each place, as the text has it), `Standing` (what that is in the meaning),
//! `Table` (what is kept of it).
#![tactic(auto)]

mod block;
mod part;
mod span;
mod table;

pub use crate::part::{Branch, Form, Part};
pub use crate::table::Table;
