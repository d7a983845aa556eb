//! What a frontend asks of a kernel, and what it is answered.
//!
//! To the layers above it promises that each answer is a filter of names, of the shown world and of the minutes (specs/: `Completion`,
//! `Inspection`, `Judgement`, `History`, `State`, `Evaluation`, `Comms`), and that the kernel is lent and stays as it was. It also keeps which
//! comms are open, and says what opening and closing one comes to.
//!
//! The questions and their answers are those of the page "Messaging in Jupyter": complete, inspect, is_complete, history, comm_info, and the
//! user expressions of an execute request.
//!
//! In reading order: `answer` (questions and answers), `ask` (the answers over a lent kernel), and each of them: `cursor`, `matches` and
//! `completion`, `inspection`, `judgement`, `inputs`, `tail` and `input_history`, `standing` (the state). Then what is told of a job that ended:
//! `done`, `shown`, `wish`, `number` and `evaluation`, `making` (the values of many, with stops between), `ending` (what is made as it ends), `lines`.
//! `comms` and `comm_change` are the open comms, `limit` what several crates test, `laws` the laws.
//!
//! It names no store: of a world it reads what a `View` lends. It gives again what the layers above cite of `kernel_text` and of `kernel_core`, so that
//! most of them name this crate alone.
//!
//! A cursor is counted in code points. Names are told once each, in the order of their octets. A history is of the present session alone.
#![tactic(auto)]

mod answer;
mod ask;
mod comm_change;
mod comms;
mod completion;
mod cursor;
mod done;
mod ending;
mod evaluation;
mod input_history;
mod inputs;
mod inspection;
mod judgement;
pub mod laws;
mod limit;
mod lines;
mod making;
mod matches;
mod number;
mod shown;
mod standing;
mod tail;
mod wish;

pub use crate::answer::{Answer, Ask, Completion, Content, HallFault, KernelState};
pub use crate::ask::{ask_on, complete, evaluate, history, inspect, judge, shown_of_node};
pub use crate::comm_change::{CommChange, comm_on};
pub use crate::comms::Comms;
pub use crate::done::{Done, ExpFault, NamedValue};
pub use crate::ending::{shown_after, values_after};
pub use crate::inputs::{HistoryAsk, Input};
pub use crate::judgement::{Completeness, is_complete};
pub use crate::limit::COMM_LIMIT;
pub use crate::lines::exp_fault_line;
pub use crate::making::{Making, SpentWishes, room_for};
pub use crate::standing::{is_settled, stands_at_end, state};
pub use crate::wish::Wish;
pub use kernel_text::{
    Begun, CellText, CheckFault, Entry, Fault, Job, Kernel, Outcome, Phase, PostFault, Refusal,
    SHOWN_VALUES, STEPS_OF_A_SLICE, Sliced, StackView, SyntaxFault, TravelEnd, ValueView,
    outcome_line, post_fault_line, procedure_text, value_text,
};
