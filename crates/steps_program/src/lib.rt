//! The program `janus-steps`, over the text of a file, a reader of commands and a writer: a walk through one cell of the file, step by step, on and back.
//!
//! What is promised of it: whatever commands it is given, the walk stands in the run of its one cell from the one world in which that was entered, behind some
//! number of its steps. `step`, `back`, `to-end`, `to-fault` and `to-start` take just the steps that they name (`Counted`, in specs/). The others go on or back
//! as far as the first place at which their goal is met, or to the end, a fault or the start (`Going`). What looks at the walk, as a line that is refused,
//! changes nothing (`Obeyed`). Each answer is what a definition says of the walk behind the command, or that there is no memory for it (`Told`). All that is
//! written, from where the walk begins, is the answers to the lines that are read (`Transcript`). Where the writer fails, the walk has done what was asked for
//! last, and a beginning of that went out. Before it stands what comes of the cells of the file that are run before, and the walk is one through the cell that
//! is looked for, by its number or the last, as a new kernel enters it behind them (`Before`, `Walked`: the contract of `run`).
//!
//! The modules, in the order in which a reader needs them: `source` (the cells of a file), `command` (what a line asks for), `place` (lines and columns),
//! `kept` (a value that is kept), `going` (how far a command goes), `talk` (commands that are obeyed), `text` (whether the places are those of the texts),
//! `output` (what is written), `reply` (the answers), `program` (all of it over a file's text), `law` (that lines are those of the file, and which cell is the
//! last).
#![tactic(auto)]

mod command;
mod going;
mod kept;
mod law;
mod output;
mod place;
mod program;
mod reply;
mod source;
mod talk;
mod text;

pub use crate::command::Command;
pub use crate::law::{last_cell_is_last_law, texts_stand_in_file_law};
pub use crate::program::{RunFault, run};
