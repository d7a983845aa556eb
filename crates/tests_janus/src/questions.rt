//! Rows of questions to a kernel. `complete` and `inspect` have a cursor (or `-`) and code, `judge` has code, `tail` a number, `range` a
//! session, a start and a stop (or `-`); `comms` and `state` have nothing. `evaluate` has an expression. `shown`
//! is told behind a cell that ran, `unshown` behind one that was interrupted.
use crate::subject::show_made;
use kernel_ask::{
    Ask, Comms, HistoryAsk, ask_on, evaluate, is_settled, shown_of_node, stands_at_end,
};
use kernel_core::{Kernel, Outcome};
use std::sync::ledger::Ledger;
use tests_rows::{Sheet, cut};

/// Writes the answer to a question.
pub(crate) fn tell_question<L: Ledger>(
    kernel: &Kernel<L>,
    word: &str,
    rest: &str,
    sheet: &mut Sheet,
) {
    match word {
        "evaluate" => tell_value(kernel, rest, sheet),
        "shown" => tell_shown(kernel, &Outcome::Ran(kernel.position(), 1), sheet),
        "unshown" => tell_shown(kernel, &Outcome::Interrupted(1), sheet),
        _ => ask(
            kernel,
            &Comms::new(sheet.alloc()),
            ask_of(word, rest),
            sheet,
        ),
    }
}

/// Asks a kernel beside these comms, and writes the answer.
fn ask<L: Ledger>(kernel: &Kernel<L>, comms: &Comms, ask: Ask<'_>, sheet: &mut Sheet) {
    sheet.show(&ask_on(sheet.alloc(), kernel, comms, ask));
}

/// A number; none for any other word.
fn number(word: &str) -> Option<u64> {
    word.parse::<u64>().ok()
}

/// What is asked.
fn ask_of<'a>(word: &str, rest: &'a str) -> Ask<'a> {
    let (first, second) = cut(rest);
    let cursor = number(first);
    match word {
        "complete" => Ask::Complete {
            code: second,
            cursor,
        },
        "inspect" => Ask::Inspect {
            code: second,
            cursor,
        },
        "judge" => Ask::IsComplete { code: rest },
        "tail" => Ask::History(HistoryAsk::Tail(cursor.unwrap_or(0))),
        "range" => Ask::History(range_of(first, second)),
        "comms" => Ask::Comms,
        _ => Ask::State,
    }
}

/// The history of a session, from a start to a stop.
fn range_of(session: &str, rest: &str) -> HistoryAsk {
    let (start, stop) = cut(rest);
    HistoryAsk::Range {
        session: session.parse::<i64>().unwrap_or(0),
        start: number(start).unwrap_or(0),
        stop: number(stop),
    }
}

/// The value of an expression, where no job is open.
fn tell_value<L: Ledger>(kernel: &Kernel<L>, text: &str, sheet: &mut Sheet) {
    if !is_settled(kernel) {
        return sheet.write("a job is open");
    }
    sheet.show(&evaluate(sheet.alloc(), kernel, text));
}

/// What is shown of a cell that came to this end, where no job is open and the kernel stands at it.
fn tell_shown<L: Ledger>(kernel: &Kernel<L>, outcome: &Outcome, sheet: &mut Sheet) {
    if !is_settled(kernel) || !stands_at_end(kernel, outcome) {
        return sheet.write("a job is open");
    }
    show_made(shown_of_node(sheet.alloc(), kernel, outcome), sheet);
}
