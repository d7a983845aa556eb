//! The machine of Janus: rows of instructions over frames of cells, with calls between them.
//!
//! To the layer above it promises that its steps are those of the meaning: `slice` takes as many steps as it is asked, or
//! all that are left to the end of the block or to a fault, and leaves the place and the store to which that many steps of
//! the meaning lead; a mirrored cursor goes back through the places that it came by. Calls run the bodies that are in effect: the values of the
//! arguments are moved to the parameters, and moved back when the call is left. The meaning of statements is that of
//! Yokoyama and Glück (2007), "A reversible programming language and its invertible self-interpreter"; `janus_meaning`
//! defines it step by step.
//!
//! The modules, in the order in which a reader needs them:
//! - `direction`, `site`, `laying`, `laid_code`: which way code runs, its calls made ready, the row of linear code, and linear code with its row and its calls.
//! - `linked_code`: the code of a cell or of a body, both ways.
//! - `linked_procedure`, `procedures`: a procedure as it runs, and all bodies with those that are in effect.
//! - `book`: a cell's linked code and the procedures, lent. `counted_store`: a store with the count of the steps over it, which nothing else raises.
//! - `cursor`, `running`: a place in code with the open calls and the count of steps, and the book in whose row it stands.
//! - `whereabouts`: where a cursor stands in code as it is written, and the open calls.
//! - `in_row`: steps in the row in which a cursor stands.
//! - `call`: the first and the last step of a call.
//! - `machine`: `step` and `slice`, which take the steps: a row is run until it comes to a call or its end, which is entered or left.
//! - `laws`: what the definitions of `specs/` say together.
//!
//! The definitions, in specs/, in reading order. Names are slots: code names a variable by its slot, and a procedure by its number.
//!
//! - `LaidCode`, `Sites`, `Laid`: what contracts see of laid code, the calls of code, and what is laid of code.
//! - `LinkedProcedure`, `Procedures`, `Places`, `Bodies`: what contracts see of bodies, which block a book stands for, and which bodies are in effect.
//! - `Cursor`, `Counts`, `Nested`, `Cursors`: a cursor's fields and its count, and which place of the meaning it is. `CountedStore`: the
//!   count of all steps.
//! - `Mirrored`, `Turns`: the other code, and what turning a cursor round does. `Whereabouts`: where a cursor stands in code as it is written. `Open`:
//!   which locals stand in the store at a cursor.
//! - `Calls`, `Pause`, `Steps`, `Law`: where a cursor stands in its row, why a row stops, steps and slices, and the laws.
//!
//! It gives again `Store` of `janus_frames` with what its calls take and lend and why none is made, `Fault` and the limit on steps of `janus_meaning`, which its calls
//! tell; and what runners cite with it: of `janus_frames` what a store holds, and `Open` and `Within` of `janus_linear`.
//!
//! A slice makes two writes of the store at most for each step. A cursor counts its steps, and at 10^12 of them the fault is that of the
//! limit, before any other. To put bodies that are kept into effect, and to take them out again, has no answer for want of memory.
#![tactic(auto)]

mod book;
mod call;
mod counted_store;
mod cursor;
mod direction;
mod in_row;
mod laid_code;
pub mod laws;
mod laying;
mod linked_code;
mod linked_procedure;
mod machine;
mod procedures;
mod running;
mod site;
mod whereabouts;

pub use crate::book::Book;
pub use crate::counted_store::CountedStore;
pub use crate::cursor::Cursor;
pub use crate::linked_code::LinkedCode;
pub use crate::linked_procedure::LinkedProcedure;
pub use crate::machine::{End, Sliced, Stepped, slice, step};
pub use crate::procedures::Procedures;
pub use crate::whereabouts::OpenCall;
pub use janus_frames::{Args, Names, RoomFault, Row, StackView, Store, Tally, ValueView};
pub use janus_meaning::Fault;
pub use janus_meaning::limit::STEP_LIMIT;
