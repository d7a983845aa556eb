//! The cells of all frames of names, with all arrays and stacks: the lowest layer of a store.
//!
//! To the layer above it promises cells: each has a number, and beside it an array, a stack or nothing. What reads and writes a number looks at
//! nothing else, so it may run over any cell, and what asks for an array or a stack finds an empty one where there is none. A frame is in sight, and
//! its cells are called by their numbers from its first one on. An array or a stack is in one cell alone, and is moved as its index.
//!
//! It is told from which place on cells are for results, whose numbers are kept and not counted. Each change of a number before that place, of an
//! element or of the values of a stack is counted, in a ledger of which there is one memory, but for what takes the permit `Moves`: to move values, to
//! let one begin or end, and to tell that place. The permit is made with the memory and cannot be had otherwise. So who has the memory without it
//! changes values by counted writes alone. To give a cell a stack, which is empty, and to take an empty one away is no write, and takes no permit.
//!
//! The modules, in the order in which a reader needs them:
//! - `limit`: how many values all stacks may hold.
//! - `cell`: a cell.
//! - `arrays`, `stacks`: all arrays, and all stacks that may live in one `cell_pool`, each at its index.
//! - `stack_view`, `value`: the values of a stack, and a value, as they are lent.
//! - `writes`: the count of the writes, and a tally beside it, which contracts alone see.
//! - `moves`: the permit to change values without a write.
//! - `memory`: the cells with all of these.
//!
//! The definitions, in specs/, in reading order:
//!
//! - `Memory`: what the cells hold, and each change of it. `Values`: what is lent and read.
//! - `Lists`, `Stacks`, `Inside`: how the fields are read, and that each array and each stack has one cell.
#![tactic(auto)]

mod arrays;
mod cell;
mod limit;
mod memory;
mod moves;
mod stack_view;
mod stacks;
mod value;
mod writes;

pub use crate::memory::Memory;
pub use crate::moves::Moves;
pub use crate::stack_view::StackView;
pub use crate::value::ValueView;
pub use crate::writes::Tally;
