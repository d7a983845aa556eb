//! What is told of a request. `asked` and `stopped` are what the kernel tells of it as it asks, of a job that is asked to stop behind its
//! first slice too. The others are told whatever it asks: `state`, `comms`, `open` (whether the comm of an
//! open is open), `judged` with a judgement, `outcome` with the outcome of a
//! job, `values` (five values of a silent cell), and `unposted` with a refusal and the question that is answered beside it.
use crate::asked::asked;
use crate::kernels::{SLICES, done};
use jupyter_msg::RequestContent;
use kernel_reply::{
    Answer, Ask, Comms, Completeness, Content, Done, Kernel, NamedValue, Outcome, PostFault,
    TravelEnd, ask_on,
};
use std::alloc::{AllocError, Global};
use std::sync::ledger::Ledger;
use tests_rows::cut;

/// What is handed in to be told.
#[derive(Drop)]
pub(crate) enum Report {
    /// What came of the job.
    Ended(Done),
    /// The answer to a question.
    Answered(Answer),
    /// Why the job was not posted, and the answer beside it.
    Unposted(PostFault, Answer),
}

/// What is told of a request.
pub(crate) fn told_of<L: Ledger>(
    alloc: Global,
    kernel: &mut Kernel<L>,
    comms: &mut Comms,
    content: &RequestContent,
    how: &str,
) -> Result<Report, AllocError> {
    let (word, rest) = cut(how);
    match word {
        "asked" => asked(alloc, kernel, comms, content, SLICES),
        "stopped" => asked(alloc, kernel, comms, content, 1),
        "unposted" => unposted(alloc, kernel, comms, rest),
        "outcome" => Ok(Report::Ended(done(alloc, kernel, 1, outcome_of(rest)))),
        "values" => with_values(alloc, kernel),
        "judged" => Ok(judged(rest)),
        "open" => answered(alloc, kernel, comms, open_of(content)),
        _ => answered(alloc, kernel, comms, ask_of(word)),
    }
}

/// The answer to a question.
pub(crate) fn answered<L: Ledger>(
    alloc: Global,
    kernel: &Kernel<L>,
    comms: &Comms,
    ask: Ask<'_>,
) -> Result<Report, AllocError> {
    match ask_on(alloc, kernel, comms, ask) {
        Ok(answer) => Ok(Report::Answered(answer)),
        Err(_) => Err(AllocError),
    }
}

/// The refusal of a post.
fn unposted<L: Ledger>(
    alloc: Global,
    kernel: &Kernel<L>,
    comms: &Comms,
    row: &str,
) -> Result<Report, AllocError> {
    let (fault, question) = cut(row);
    match ask_on(alloc, kernel, comms, ask_of(question)) {
        Ok(answer) => Ok(Report::Unposted(fault_of(fault), answer)),
        Err(_) => Err(AllocError),
    }
}

/// A refusal of a post by its name.
fn fault_of(word: &str) -> PostFault {
    if word == "Closing" {
        PostFault::Closing
    } else {
        PostFault::QueueFull
    }
}

/// The question for the open comms or for the state.
fn ask_of(word: &str) -> Ask<'static> {
    if word == "comms" {
        Ask::Comms
    } else {
        Ask::State
    }
}

/// The question whether the comm of an open is open; of any other request that for the state.
fn open_of(content: &RequestContent) -> Ask<'_> {
    match content {
        RequestContent::CommOpen(request) => Ask::IsOpen {
            id: request.comm_id.as_str(),
        },
        _ => Ask::State,
    }
}

/// The answer with the judgement of this name.
fn judged(word: &str) -> Report {
    Report::Answered(Answer {
        seen: 0,
        content: Content::Completeness(judgement_of(word)),
    })
}

/// A judgement by its name.
fn judgement_of(word: &str) -> Completeness {
    match word {
        "complete" => Completeness::Complete,
        "incomplete" => Completeness::Incomplete,
        "invalid" => Completeness::Invalid,
        _ => Completeness::Unknown,
    }
}

/// An outcome by its line.
fn outcome_of(words: &str) -> Outcome {
    match words {
        "undid 1" => Outcome::Undid(1, TravelEnd::All),
        "undid 0" => Outcome::Undid(0, TravelEnd::All),
        "redid 0" => Outcome::Redid(0, TravelEnd::All),
        _ => Outcome::Redid(0, TravelEnd::NoMemory),
    }
}

/// Names of expressions, with their values.
const VALUES: [(&str, i32); 5] = [
    ("\u{1f600}", 1),
    ("\u{ffff}", 2),
    ("\"", 3),
    ("\u{1}", 4),
    ("a", -2147483648),
];

/// A cell that ran, with values.
fn with_values<L: Ledger>(alloc: Global, kernel: &Kernel<L>) -> Result<Report, AllocError> {
    let mut done = done(alloc, kernel, 1, Outcome::Ran(kernel.position(), 1));
    match push_values(alloc, &mut done.values) {
        Ok(()) => Ok(Report::Ended(done)),
        Err(_) => Err(AllocError),
    }
}

/// Adds the values of expressions.
fn push_values(alloc: Global, values: &mut Vec<NamedValue>) -> Result<(), AllocError> {
    for (name, value) in VALUES {
        values.push(value_of(String::from_str(alloc, name)?, value))?;
    }
    Ok(())
}

/// The value of an expression.
fn value_of(name: String, value: i32) -> NamedValue {
    NamedValue {
        name,
        value: Ok(value),
    }
}
