//! Rows of frontends before a hall, which keep their passes, tickets and what came of the tickets' jobs. Each is named by its place in its list, the
//! first of them is 1.
//!
//! `pass` gives the lane and the posts of a new pass, or why there is none; `passes` how many more there are, each on the next lane with no posts,
//! and why there is no further one. `order` shows the minutes to the first pass and to the last one together, and gives what each of the two is answered then:
//! how many minutes the hall has seen, and the shown world. `post` (a pass, and a job) gives the lane of the ticket, which of the posts of the pass it is, and
//! its number; or why the post is refused, with the lane and the posts of the pass. A job is `undo` with a number, or a `cell` with its code. `names` (a pass,
//! and a number) posts a cell that declares so many names, `v1`, `v2`, .. `wish` (names, each with an expression, parted by `;`, and behind a `|` what stands
//! behind `post`) posts with user expressions. `wait` (a ticket) gives the number, the outcome, the counter, the node, the shown text and the values of its
//! job; the pass of its lane waits. `state` (a pass) gives how many minutes the hall has seen and the shown world, `comms` (a pass) the same with the open
//! comms; `open` and `close` (a pass, and an id) whether a comm was opened or closed. `shut` shuts the hall. `lose` loses the last pass, which it gives.
//! `first` (a ticket) puts a ticket to the front of the others. `claim` (three numbers, and a code) claims a ticket of a cell. `alter` gives the outcome of the
//! last end, and puts another one in its place.
use crate::lines::note;
use kernel_hall::{
    Answer, Ask, CellText, CommChange, Content, Done, Hall, HallFault, HistoryName, Job, Outcome,
    Pass, Passes, PostFault, Ticket, Wish,
};
use std::alloc::{AllocError, Global};
use std::sync::Wait;
use std::sync::ledger::Ledger;
use tests_rows::{Sheet, cut, cut_cell, number};

/// What frontends came away with.
#[derive(Drop)]
pub(crate) struct Away<L: HistoryName> {
    /// The passes that are still to be given.
    pub left: Passes<L>,
    pub passes: Vec<Pass<L>>,
    pub tickets: Vec<Ticket>,
    pub dones: Vec<Done>,
    /// How many jobs of threads went wrong.
    pub wrong: u64,
    /// How many answers threads had whose jobs were run for them.
    pub answers: u64,
    /// Whether memory was refused to a thread.
    pub is_refused: bool,
}

impl<L: HistoryName> Away<L> {
    pub fn new(alloc: Global, left: Passes<L>) -> Away<L> {
        Away {
            left,
            passes: Vec::new(alloc),
            tickets: Vec::new(alloc),
            dones: Vec::new(alloc),
            wrong: 0,
            answers: 0,
            is_refused: false,
        }
    }
}

/// Writes the answer to a call.
pub(crate) fn answer<W: Ledger, L: HistoryName, R: Wait>(
    rt: &R,
    hall: &Hall<W, L>,
    away: &mut Away<L>,
    call: &str,
    sheet: &mut Sheet,
) {
    let (word, rest) = cut(call);
    match word {
        "pass" => pass(rt, hall, away, sheet),
        "passes" => passes(rt, hall, &mut away.left, sheet),
        "order" => order(rt, hall, away, sheet),
        "post" => post(rt, hall, away, rest, Vec::new(sheet.alloc()), sheet),
        "wish" => wish(rt, hall, away, rest, sheet),
        "names" => names(rt, hall, away, rest, sheet),
        "wait" => wait(rt, hall, away, rest, sheet),
        "shut" => shut(rt, hall, &away.left, sheet),
        "state" | "comms" | "open" | "close" => answer_with(rt, hall, away, word, rest, sheet),
        _ => change(away, word, rest, sheet),
    }
}

/// Writes the answer to a call for which a pass is shown.
fn answer_with<W: Ledger, L: HistoryName, R: Wait>(
    rt: &R,
    hall: &Hall<W, L>,
    away: &mut Away<L>,
    word: &str,
    rest: &str,
    sheet: &mut Sheet,
) {
    let (at, id) = cut(rest);
    let Some(pass) = away.passes.get_mut(place(at)) else {
        return;
    };
    match word {
        "state" => tell_answer(hall.ask(rt, pass, Ask::State), sheet),
        "comms" => tell_answer(hall.ask(rt, pass, Ask::Comms), sheet),
        "close" => tell_change(hall.comm(rt, pass, CommChange::Close(id)), sheet),
        _ => match String::from_str(sheet.alloc(), id) {
            Ok(id) => tell_change(hall.comm(rt, pass, CommChange::Open(id)), sheet),
            Err(_) => sheet.refuse(),
        },
    }
}

/// Writes the answer to a call by which what the frontends came away with is counted or changed.
fn change<L: HistoryName>(away: &mut Away<L>, word: &str, rest: &str, sheet: &mut Sheet) {
    match word {
        "lose" => lose(&mut away.passes, sheet),
        "first" => first(&mut away.tickets, rest, sheet),
        "claim" => claim(&mut away.tickets, rest, sheet),
        _ => alter(&mut away.dones, sheet),
    }
}

/// Where in its list something stands whose number a row writes.
fn place(word: &str) -> usize {
    number(word).wrapping_sub(1)
}

/// Keeps a value at the end of a list.
fn keep<T: Drop>(list: &mut Vec<T>, value: T, sheet: &mut Sheet) {
    if list.push(value).is_err() {
        sheet.refuse();
    }
}

/// Writes the lane of a pass and how many posts it made.
fn tell_pass<L: HistoryName>(pass: &Pass<L>, sheet: &mut Sheet) {
    note("lane ", &pass.lane(), sheet);
    note(", posts ", &pass.posts(), sheet);
}

/// Takes a new pass.
fn pass<W: Ledger, L: HistoryName, R: Wait>(
    rt: &R,
    hall: &Hall<W, L>,
    away: &mut Away<L>,
    sheet: &mut Sheet,
) {
    match hall.pass(rt, &mut away.left) {
        Ok(pass) => {
            tell_pass(&pass, sheet);
            keep(&mut away.passes, pass, sheet);
        }
        Err(fault) => sheet.write(fault.name()),
    }
}

/// Takes passes on the next lanes, until there is none or one that is on another lane or has posts: how many, and why there is no further one.
fn taken_passes<W: Ledger, L: HistoryName, R: Wait>(
    rt: &R,
    hall: &Hall<W, L>,
    left: &mut Passes<L>,
) -> (u32, Option<HallFault>) {
    for given in 0..u32::MAX {
        match hall.pass(rt, left) {
            Ok(pass) => {
                if pass.lane() != given + 1 || pass.posts() != 0 {
                    return (given, None);
                }
            }
            Err(fault) => return (given, Some(fault)),
        }
    }
    (u32::MAX, None)
}

/// Takes all passes of a new hall.
fn passes<W: Ledger, L: HistoryName, R: Wait>(
    rt: &R,
    hall: &Hall<W, L>,
    left: &mut Passes<L>,
    sheet: &mut Sheet,
) {
    let (given, fault) = taken_passes(rt, hall, left);
    note("", &given, sheet);
    note(" ", &fault, sheet);
}

/// Shows the minutes to the first pass and to the last one together, and writes what each of them is answered then.
fn order<W: Ledger, L: HistoryName, R: Wait>(
    rt: &R,
    hall: &Hall<W, L>,
    away: &mut Away<L>,
    sheet: &mut Sheet,
) {
    let Some(mut last) = away.passes.pop() else {
        return;
    };
    if let Some(first) = away.passes.first_mut() {
        hall.in_one_order(rt, first, &mut last);
        tell_answer(hall.ask(rt, first, Ask::State), sheet);
        sheet.write(", ");
        tell_answer(hall.ask(rt, &mut last, Ask::State), sheet);
    }
    keep(&mut away.passes, last, sheet);
}

/// The job that a row writes.
pub(crate) fn job_of(alloc: Global, row: &str) -> Result<Job, AllocError> {
    let (word, rest) = cut(row);
    if word == "undo" {
        return Ok(Job::Undo(rest.parse::<u32>().unwrap_or(0)));
    }
    let code = String::from_str(alloc, rest)?;
    Ok(Job::Cell {
        code: CellText::new(alloc, code)?,
        silent: false,
        store: true,
    })
}

/// Posts the job of a row with these wishes.
fn post<W: Ledger, L: HistoryName, R: Wait>(
    rt: &R,
    hall: &Hall<W, L>,
    away: &mut Away<L>,
    row: &str,
    wishes: Vec<Wish>,
    sheet: &mut Sheet,
) {
    let (at, row) = cut(row);
    let at = place(at);
    match job_of(sheet.alloc(), row) {
        Ok(job) => {
            if at < away.passes.len() {
                let pass = away.passes.remove(at);
                tell_post(hall.post(rt, pass, job, wishes), at, away, sheet);
            }
        }
        Err(_) => sheet.refuse(),
    }
}

/// Writes what came of a post, and keeps the ticket, and the pass where it was.
fn tell_post<L: HistoryName>(
    posted: Result<(Ticket, Pass<L>), (PostFault, Pass<L>)>,
    at: usize,
    away: &mut Away<L>,
    sheet: &mut Sheet,
) {
    match posted {
        Ok((ticket, pass)) => {
            tell_ticket(&ticket, sheet);
            keep(&mut away.tickets, ticket, sheet);
            put(&mut away.passes, at, pass, sheet);
        }
        Err((fault, pass)) => {
            tell_refusal(fault, sheet);
            tell_pass(&pass, sheet);
            put(&mut away.passes, at, pass, sheet);
        }
    }
}

/// Writes the lane of a ticket, which of the posts of its pass it is, and its number.
fn tell_ticket(ticket: &Ticket, sheet: &mut Sheet) {
    note("lane ", &ticket.lane, sheet);
    note(", nth ", &ticket.nth, sheet);
    note(", number ", &ticket.number, sheet);
}

/// Writes why a post is refused.
fn tell_refusal(fault: PostFault, sheet: &mut Sheet) {
    if matches!(fault, PostFault::Memory) {
        sheet.refuse();
    }
    sheet.write(fault.name());
    sheet.write(", ");
}

/// Puts a value to this place of its list.
fn put<T: Drop>(list: &mut Vec<T>, at: usize, value: T, sheet: &mut Sheet) {
    let at = at.min(list.len());
    if list.insert(at, value).is_err() {
        sheet.refuse();
    }
}

/// A wish: a name, and an expression.
pub(crate) fn wish_of(alloc: Global, text: &str) -> Result<Wish, AllocError> {
    let (name, text) = cut(text);
    let name = String::from_str(alloc, name)?;
    let text = String::from_str(alloc, text)?;
    Ok(Wish::new(alloc, name, text))
}

/// A list with the wishes that a row writes.
fn wishes_of(alloc: Global, row: &str) -> Result<Vec<Wish>, AllocError> {
    let mut wishes = Vec::new(alloc);
    for text in row.split(';') {
        let wish = wish_of(alloc, text)?;
        wishes.push(wish)?;
    }
    Ok(wishes)
}

/// What stands behind `post` for a cell that declares so many names.
fn declaring(alloc: Global, at: &str, count: usize) -> Result<String, AllocError> {
    let mut row = format!(in alloc; "{at} cell")?;
    for i in 0..count {
        let declaration = format!(in alloc; " int v{}", i.wrapping_add(1))?;
        row.push_str(declaration.as_str())?;
    }
    Ok(row)
}

/// Posts a cell that declares names.
fn names<W: Ledger, L: HistoryName, R: Wait>(
    rt: &R,
    hall: &Hall<W, L>,
    away: &mut Away<L>,
    row: &str,
    sheet: &mut Sheet,
) {
    let (at, count) = cut(row);
    let alloc = sheet.alloc();
    match declaring(alloc, at, number(count)) {
        Ok(row) => post(rt, hall, away, row.as_str(), Vec::new(alloc), sheet),
        Err(_) => sheet.refuse(),
    }
}

/// Posts a job with user expressions.
fn wish<W: Ledger, L: HistoryName, R: Wait>(
    rt: &R,
    hall: &Hall<W, L>,
    away: &mut Away<L>,
    row: &str,
    sheet: &mut Sheet,
) {
    let (wish, row) = cut_cell(row);
    match wishes_of(sheet.alloc(), wish) {
        Ok(wishes) => post(rt, hall, away, row, wishes, sheet),
        Err(_) => sheet.refuse(),
    }
}

/// Waits for the job of a ticket, and keeps what came of it.
fn wait<W: Ledger, L: HistoryName, R: Wait>(
    rt: &R,
    hall: &Hall<W, L>,
    away: &mut Away<L>,
    row: &str,
    sheet: &mut Sheet,
) {
    let Away {
        passes,
        tickets,
        dones,
        ..
    } = away;
    let Some(ticket) = tickets.get(place(row)) else {
        return;
    };
    if let Some(pass) = passes.iter_mut().find(|pass| pass.lane() == ticket.lane) {
        let done = hall.wait(rt, pass, ticket);
        tell_done(&done, sheet);
        keep(dones, done, sheet);
    }
}

/// Writes what came of a job.
fn tell_done(done: &Done, sheet: &mut Sheet) {
    note("", &done.number, sheet);
    note(" ", &done.outcome, sheet);
    note(" count ", &done.count, sheet);
    note(" node ", &done.node, sheet);
    note(" shown ", &done.shown, sheet);
    note(" values ", &done.values, sheet);
}

/// Writes how many minutes an answer has seen, and the shown world or the open comms. The only refusal is want of memory.
fn tell_answer(answer: Result<Answer, HallFault>, sheet: &mut Sheet) {
    match answer {
        Ok(Answer { seen, content }) => {
            note("", &seen, sheet);
            tell_content(&content, sheet);
        }
        Err(_) => sheet.refuse(),
    }
}

/// Writes the shown world or the open comms.
fn tell_content(content: &Content, sheet: &mut Sheet) {
    match content {
        Content::State(state) => note(" ", &state.world, sheet),
        Content::Comms(ids) => note(" ", ids, sheet),
        _ => sheet.write(" another answer"),
    }
}

/// Writes whether a comm was opened or closed. The only refusal is want of memory.
fn tell_change(change: Result<bool, HallFault>, sheet: &mut Sheet) {
    match change {
        Ok(did) => sheet.show(&did),
        Err(_) => sheet.refuse(),
    }
}

/// Shuts the hall.
fn shut<W: Ledger, L: HistoryName, R: Wait>(
    rt: &R,
    hall: &Hall<W, L>,
    left: &Passes<L>,
    sheet: &mut Sheet,
) {
    hall.shut(rt, left);
    sheet.write("done");
}

/// Loses the last pass.
fn lose<L: HistoryName>(passes: &mut Vec<Pass<L>>, sheet: &mut Sheet) {
    if let Some(pass) = passes.pop() {
        tell_pass(&pass, sheet);
    }
}

/// Puts a ticket to the front of the others.
fn first(tickets: &mut Vec<Ticket>, row: &str, sheet: &mut Sheet) {
    let at = place(row);
    if at < tickets.len() {
        let ticket = tickets.remove(at);
        tell_ticket(&ticket, sheet);
        put(tickets, 0, ticket, sheet);
    }
}

/// The ticket that a row writes.
fn ticket_of(alloc: Global, row: &str) -> Result<Ticket, AllocError> {
    let (lane, row) = cut(row);
    let (nth, row) = cut(row);
    let (at, row) = cut(row);
    Ok(Ticket {
        lane: lane.parse::<u32>().unwrap_or(0),
        nth: number(nth) as u64,
        number: number(at) as u64,
        job: job_of(alloc, row)?,
    })
}

/// Claims a ticket.
fn claim(tickets: &mut Vec<Ticket>, row: &str, sheet: &mut Sheet) {
    match ticket_of(sheet.alloc(), row) {
        Ok(ticket) => {
            tell_ticket(&ticket, sheet);
            keep(tickets, ticket, sheet);
        }
        Err(_) => sheet.refuse(),
    }
}

/// Writes the outcome of the last end, and puts another one in its place.
fn alter(dones: &mut Vec<Done>, sheet: &mut Sheet) {
    if let Some(done) = dones.last_mut() {
        sheet.show(&done.outcome);
        done.outcome = Outcome::Ran(2, 4);
    }
}
