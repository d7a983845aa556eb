//! Rows of the lines in which a frontend is told outcomes, faults and values. `outcome` gives an outcome by its place in the list
//! below, and its line; `closing`, `met` and `memory` give the lines of faults, `negative` that of a number, and `ones` that of an array of a number of
//! them.
use crate::subject::write_made;
use kernel_ask::{ExpFault, ValueView, exp_fault_line, outcome_line, post_fault_line, value_text};
use kernel_core::{CheckFault, Fault, Outcome, PostFault, Refusal, Span, TravelEnd};
use tests_rows::{Sheet, cut, number};

/// Writes the answer to a call.
pub(crate) fn answer(call: &str, sheet: &mut Sheet) {
    let alloc = sheet.alloc();
    let (word, rest) = cut(call);
    match word {
        "outcome" => tell_outcome(number(rest), sheet),
        "closing" => write_made(post_fault_line(alloc, PostFault::Closing), sheet),
        "met" => tell_fault(ExpFault::Met(Fault::DivisionByZero), sheet),
        "memory" => tell_fault(ExpFault::Refused(Refusal::Memory), sheet),
        "negative" => tell_value("x", ValueView::Number(-5), sheet),
        _ => tell_ones(number(rest), sheet),
    }
}

/// Where a text is refused.
const SPAN: Span = Span { start: 4, end: 4 };

/// An outcome of each kind.
const OUTCOMES: [Outcome; 8] = [
    Outcome::Ran(2, 3),
    Outcome::Failed(Fault::DivisionByZero, 1),
    Outcome::Interrupted(4096),
    Outcome::Undid(1, TravelEnd::All),
    Outcome::Redid(0, TravelEnd::NoMemory),
    Outcome::Went(1, 2, TravelEnd::Asked),
    Outcome::Refused(Refusal::Check(CheckFault::SelfUse(SPAN))),
    Outcome::Refused(Refusal::TooFar),
];

/// The outcome at a place of the list, and its line.
fn tell_outcome(at: usize, sheet: &mut Sheet) {
    if let Some(outcome) = OUTCOMES.get(at) {
        sheet.show(outcome);
        sheet.write(" is ");
        write_made(outcome_line(sheet.alloc(), outcome), sheet);
    }
}

/// The line of the fault of an expression.
fn tell_fault(fault: ExpFault, sheet: &mut Sheet) {
    write_made(exp_fault_line(sheet.alloc(), fault), sheet);
}

/// The line of a name and its value.
fn tell_value(name: &str, value: ValueView<'_>, sheet: &mut Sheet) {
    write_made(value_text(sheet.alloc(), name, value), sheet);
}

/// The line of an array of a number of ones.
fn tell_ones(count: usize, sheet: &mut Sheet) {
    match vec![in sheet.alloc(); 1i32; count] {
        Ok(many) => tell_value("a", ValueView::Array(&many), sheet),
        Err(_) => sheet.refuse(),
    }
}
