//! Which cells are well formed: the check between the parser and everything that runs.
//!
//! A cell is checked over the names that are declared already and the procedures that are defined. What passes is a `Checked`, and it is exactly the
//! cells without a fault of the table: a name declared twice, a procedure defined twice or a parameter given twice, a name out of sight or of another
//! kind, a call of what is no procedure, with another number of arguments or with a name twice among them, an assigned name in its own index or right
//! side, a local's name in its own two expressions or in sight already, a procedure defined anew with other parameters, too many names, stacks,
//! procedures or parameters, an array's length out of its range. Calls and bodies see all procedures of the cell, over the old ones. Of several
//! faults the one that stands first in the text is told, and at one place the one with the smaller number. What passes meets the well-formedness on
//! which the laws of `janus_meaning` stand. `cell_names` tells whether a cell names a declared name. `Sight` has the names in sight, and gives each
//! its slot: how many names stand below it. What a cell declares and defines itself comes with it from `check`.
//!
//! What is known before a cell is read by a trait, `SymbolTable`: the kind and the slot of a name, and the head of a procedure. `Env` is one for who keeps no
//! tables of its own.
//!
//! The rules are those of Janus (Yokoyama and Glück 2007; Yokoyama, Axelsen and Glück 2008), with this kernel's
//! limits.
//!
//! It gives the slots of `janus_slots`, and the lemma on their stores, again: `janus_code` cites them.
//!
//! What `cell_names` tells is exact: a local's name stands for no declared name in its own statements.
#![tactic(auto)]

ghost use Rattle.janus_check.specs.WellFormed.{FaultsAreExact};

mod call;
pub mod cell;
pub mod checked;
pub mod env;
mod expression;
pub mod fault;
mod naming;
pub mod parameter;
mod procedure;
mod scope;
pub mod sight;
mod statement;
pub mod table;

pub use cell::check;
pub use checked::Checked;
pub use env::{Env, Kind};
pub use expression::check_exp;
pub use fault::CheckFault;
pub use naming::cell_names;
pub use sight::Sight;
pub use table::SymbolTable;

/// A cell has no faults exactly where it is well formed, and so an expression: a law about the definitions of `specs/`. It does
/// nothing.
pub fn faults_are_exact_law()
    ensures { FaultsAreExact }
{}
