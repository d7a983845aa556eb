//! A walk through a cell: its steps taken on and back, with the place in the text of the next one.
//!
//! A walk has a posted cell that is open, taken out of its history, with a table of its places in the text, and one of each body that was met. It takes so
//! many steps on or back, and stands then wherever these lead: at a fault too, which changes nothing, and at the end. Nothing is logged and nothing is run
//! again: a walk goes back by the inverse of the code.
//!
//! What the layer above may rely on:
//! - `on` and `back` take the steps of the meaning's machine over the cell, and steps back of them: however a walk is moved, it stands in the run of the one
//!   cell from the one world in which that was entered, behind as many steps as it counts (`Moves`).
//! - `meet_here` and `meet_calls` make the tables of the bodies in which the open calls run: each that is kept is of the text of the procedure which a call of
//!   its name runs.
//! - `stand` tells the place in the innermost code, which way that runs, and which part of the text stands there: in the cell's own code at the place to which
//!   the steps have led, and in a call in the text of the body that runs. `level` tells the place and the way of each open call in its caller's code, and
//!   `spot` what stands at such a place in the table of that code.
//! - `sight_here` has the names that are in sight there, each with its slot, and `value` lends the value in a slot of the innermost frame; `value_of` is the
//!   value of one of these names, and `number_of` that of an expression over them.
//! - `has_text` tells whether a text has the very tree whose places are told of a cell.
//! - A walk stands where as many steps of the meaning lead, with the values of the meaning's store (`meant_law`); when it comes back there, it stands at the
//!   same place with the same values (`again_law`).
//! - Whatever is told is so. Once `meet_here` has succeeded, `stand`, `level` and `sight_here` do answer for the innermost code, and once `meet_calls` has,
//!   `level` does for each open call: none is left out.
//!
//! The modules, in the order in which a reader needs them: `turning` (steps back, after which a runner faces on), `body` (the bodies of procedures in the texts
//! of their cells), `walk` (the open cell, its steps, and the bodies that are met), `level` (where it stands, in the cell and in the open calls), `text`
//! (whether that is the text's), `sight` (the names in sight with their values), `evaluation` (an expression over them), `quiet` (steps behind which it has the
//! value that it had), `law` (laws of walks).
//!
//! The definitions, in specs/, in reading order: `Walking` (what steps back do to where a runner stands), `Where` (what stands in the text at the place to
//! which steps have led), `Bodies` (which text a call runs), `Walk` (what contracts see of a walk, and how it moves), `Standing` (what is told of where it
//! stands), `Stops` (where a statement begins, also as the meaning has it), `Texts` (of which texts the trees are), `Sights` (which names are in sight),
//! `Values` (what they stand for), `Quiet` (which steps change no value), `Meant` (where a walk stands in the meaning).
//!
//! It gives again what programs over it cite of the layers below: parts of statements, places of texts, expressions, values and how steps end.
#![tactic(auto)]

mod body;
mod evaluation;
mod law;
mod level;
mod quiet;
mod sight;
mod text;
mod turning;
mod walk;

pub use crate::evaluation::{NoValue, is_holding, is_true, number_of, seen_number, value_of};
pub use crate::law::stops_are_meant_law;
pub use crate::level::{Level, Spot};
pub use crate::sight::Sight;
pub use crate::walk::Walk;
pub use janus_machine::ValueView;
pub use janus_places::{Branch, Form, Part};
pub use janus_syntax::{Exp, Span, Token, TokenKind, parse_exp, tokens};
pub use kernel_machine::Progress;
