//! The texts in which a kernel's user reads what came of a job, and what names are worth: lines of outcomes, faults and refusals,
//! value texts, and the texts of procedures.
//!
//! Each goes to any writer, a beginning of it where the writer fails (`send_outcome`, `send_post_fault`, `send_value`), or is made
//! as a text of its own, which is UTF-8 (`outcome_line`, `post_fault_line`, `fault_line`, `refusal_line`, `value_text`, `procedure_text`). A line
//! stands without its LF.
//! Programs that write lines and messages that tell errors say the same words, since both take them from here (specs/: `Lines`,
//! `ValueTexts`, `ProcedureTexts`, `Procedures`, and `NameSets`, the order of names that are told). [`laws`] says that a procedure has one text,
//! however its tree is placed.
//!
//! It gives the names of `kernel_core` again that `kernel_ask` cites, the check of expressions among them: texts are of what a kernel tells, so who names
//! them names both.
#![tactic(auto)]

pub mod laws;
mod lines;
mod procedures;
mod text;
mod values;
mod writing;

pub use crate::lines::{
    fault_line, outcome_line, post_fault_line, refusal_line, send_outcome, send_post_fault,
};
pub use crate::procedures::{newest_of, procedure_text};
pub use crate::values::{SHOWN_VALUES, send_value, value_text};
pub use crate::writing::send_counted;
pub use exact_write::{WriteFailed, send};
pub use janus_memory::{StackView, ValueView};
pub use kernel_core::{
    Begun, CellText, CheckFault, DeclaredNames, Entry, Fault, Job, Kernel, Outcome, Phase,
    PostFault, Refusal, STEPS_OF_A_SLICE, Sliced, SyntaxFault, TravelEnd, View, cell_names,
    check_exp,
};
