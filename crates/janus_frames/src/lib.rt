//! The store by frames of cells: the declared names with their numbers, arrays and stacks, in the order of declaration, and above them the parameters
//! of open calls and the open locals.
//!
//! To the layer above it promises a map: the k-th name in sight, the oldest being 0, is read and written by its number k, whatever its kind, and a
//! write changes no other name. The name of a number is its `slot` of `janus_slots`, so what runs compares no text. A call is entered by moving the
//! values of its arguments to its parameters, and left by moving them back, as the meaning takes and fills them: while it is open the caller's names
//! lend those values. A move is no write, nor is it one that a declared name begins or ends, with 0, zeros or an empty stack: the store counts each other
//! change of a number, an element or a stack, in a ledger of which there is one store; the number that a row opens a local with is such a change. A
//! declared name is shown with the value that it has now, which is followed inwards through the arguments of the open calls.
//! A row of `janus_row` is run over the names in sight as they stand: `run_on` takes steps of the meaning from an instruction on, as long as it may, and
//! `run_one` that of one instruction, wherever the row takes the steps of the meaning; the callers' names stay. The store alone has the permit to move
//! values, and gives it to no run of a row; results are kept behind all cells for names. So a run changes names by counted writes alone: one step counts
//! just as many as its instruction makes, and where none was counted each name has the value that it had.
//! The memory of all stacks, calls, locals, parameters and results is taken with the store, and after that only a declared name takes memory. Which faults
//! there are is the caller's affair: each call says what must hold, and the store offers the test.
//! Contracts see what is in sight as a store of `janus_meaning`, and the open calls as the stores that they left behind, where just their arguments
//! are lent.
//!
//! The modules, in the order in which a reader needs them:
//! - `fault`: why a store isn't made.
//! - `limit`: how many locals, calls, parameters and results a store takes memory for.
//! - `args`, `arguments`: the arguments of a call.
//! - `value`: a value as it is declared.
//! - `moves`: values that are moved from the frame of a caller to that of a call, and back.
//! - `frames`: the frame in sight and those of the open calls around it, in one `janus_memory`.
//! - `store`: the frames with the texts of the declared names.
//! - `laws`: that a write changes its name alone.
//!
//! The definitions, in specs/, in reading order; `slot`, `in_slots` and `under_names` are defined in `janus_slots`, and `pull`, `bind`, `unbind` and
//! `fill` in `janus_meaning`, after the calls by reference of the Janus paper (Yokoyama, Axelsen and Glück 2008), read as an exchange of values:
//!
//! - `Cells`: cells as stores of slots.
//! - `Calls`: what entering and leaving a call does, and what is shown while calls are open.
//! - `Limits`, `StoreState`: how much may be open, and what a store holds. `Stores`, `Values`: what contracts say of a name and its value.
//!   `Laws`: the law of writes.
//! - `FramesState`, `Shown`: what frames hold, and how a name is followed inwards.
//! - `Inside`, `Kept`: the invariants that read the fields of the code.
//! - `Run`: what it is to run a row over the names in sight.
#![tactic(auto)]

mod args;
mod arguments;
mod fault;
mod frames;
pub mod laws;
mod limit;
mod moves;
mod store;
mod value;

pub use crate::args::Args;
pub use crate::fault::RoomFault;
pub use crate::limit::CALL_LIMIT;
pub use crate::store::Store;
pub use janus_memory::{StackView, Tally, ValueView};
pub use janus_slots::Names;
pub use janus_row::code::Row;
