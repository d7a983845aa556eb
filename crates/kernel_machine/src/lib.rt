//! The kernel machine: what a kernel whose undo is exact does, told by definitions alone. It holds no state.
//!
//! - The language as the machine sees it: cells that run forward and are taken back (specs/: `Language`, `Reached`), and which cell a text is
//!   (`Text`). The meaning of a cell is that of `janus_meaning` (Yokoyama and Glück 2007; Yokoyama, Axelsen and Glück 2008).
//! - The machine, in reading order: `Travel`, `Heading`, `State` (the tree of cells with the worlds of all its nodes, and the open job), `Legal`,
//!   `Slices`, `Begins`, `Extent`, `Request`, `Minutes`, `Runs` (its step for each event, and its runs), `StepsOfSlices` (how many steps a slice
//!   takes), `PostFault`, `Refusal`, `Midway`, `LegalState`, `Ends` (how a job may end), `LegalMinutes` (what minutes tell by themselves).
//! - The plain types of its events and answers, which the definitions cite.
//!
//! The layer above proves that its code runs this machine. The laws of its runs are those of `machine_laws`.
//!
//! It gives `CheckFault` of `janus_check`, and `Fault` and the limit on steps of `janus_meaning`, again: outcomes tell them.
#![tactic(auto)]

mod cell_text;
mod events;
mod extent;
mod heading;
mod limit;
mod outcome;
mod post;
mod progress;
mod travel;

pub use crate::cell_text::CellText;
pub use crate::events::{Event, Told};
pub use crate::extent::Extent;
pub use crate::heading::{Heading, Why};
pub use crate::limit::{MINUTES_LIMIT, QUEUE_LIMIT, STEPS_OF_A_SLICE};
pub use crate::outcome::{Begun, Outcome, Phase, Refusal, Sliced, TravelEnd};
pub use crate::post::{Job, PostFault};
pub use crate::progress::Progress;
pub use crate::travel::{Aim, Travel, Way};
pub use janus_check::{CheckFault, Env};
pub use janus_meaning::Fault;
pub use janus_meaning::limit::STEP_LIMIT;
