//! The audit at the end: whether the minutes hold what the frontends came away with.
ghost use Rattle.std.specs.Prelude.{◌≡◌, ◌↔◌, IsTrue, All, IfSome, IfNone, IfOk, IfErr, map};
ghost use Rattle.kernel_ask.specs.Request.{request_of};
ghost use Rattle.kernel_ask.specs.Minutes.{Posted, Ended, posted_in};
ghost use Rattle.kernel_ask.specs.Written.{entry_of};
ghost use Rattle.kernel_audit.specs.Audit.{AddsUp, IsPosted, AreTrue, IsNotPosted, IsUntrue, IsNotEnded, Audited, IsAuditFault};
ghost use Rattle.kernel_audit.specs.Ends.{HasEnd};
ghost use Rattle.kernel_audit.specs.Marks.{IsMark, EndsInOrder};

use crate::fault::AuditFault;
use crate::mark::{Kind, Mark, numbered};
use crate::order::{by_lane, by_number, shared_number, swapped_number};
use crate::pass::{Pass, Ticket};
use crate::same::same_outcome;
use kernel_ask::{Done, Entry, Job};
use shared_history::HistoryName;

/// Compares what the frontends hold with the minutes, and sorts the tickets and the ends. It takes no memory, and goes over the minutes
/// three times: for the posts, for the tickets and for the ends.
pub fn audit<L: HistoryName>(
    minutes: &[Entry],
    passes: &[Pass<L>],
    tickets: &mut [Ticket],
    dones: &mut [Done],
) -> Result<(), AuditFault>
    requires ends { EndsInOrder (map entry_of minutes.now) }
    ensures ok { IfOk result (λ _. Audited (map entry_of minutes.now) passes.now tickets.old dones.old) }
    ensures err { IfErr result (IsAuditFault (map entry_of minutes.now) passes.now tickets.old dones.old) }
{
    if !adds_up(minutes, passes) {
        return Err(AuditFault::PassMissing);
    }
    if let Some(number) = untrue_ticket(minutes, tickets) {
        return Err(AuditFault::TicketUnknown(number));
    }
    if let Some(number) = untrue_done(minutes, dones) {
        return Err(AuditFault::TicketUnknown(number));
    }
    Ok(())
}

/// How many posts there are.
fn posts_in(minutes: &[Entry]) -> u64
    ensures { result ≡ posted_in (map entry_of minutes.now) }
{
    let mut posts = 0u64;
    for entry in minutes {
        match entry {
            Entry::Posted { .. } => posts += 1,
            Entry::Ended { .. } => {}
        }
    }
    posts
}

/// Whether the posts of the passes add up to those of the minutes.
fn adds_up<L: HistoryName>(minutes: &[Entry], passes: &[Pass<L>]) -> bool
    ensures { IsTrue result ↔ AddsUp (map entry_of minutes.now) passes.now }
{
    let mut left = posts_in(minutes);
    for pass in passes {
        if pass.posts() > left {
            return false;
        }
        left -= pass.posts();
    }
    left == 0
}

/// A number at which a ticket is untrue. It sorts the tickets.
fn untrue_ticket(minutes: &[Entry], tickets: &mut [Ticket]) -> Option<u64>
    ensures some { IfSome result (IsUntrue (map entry_of minutes.now) tickets.old) }
    ensures none { IfNone result (AreTrue (map entry_of minutes.now) tickets.old) }
{
    by_number(tickets);
    if let Some(number) = shared_number(tickets) {
        return Some(number);
    }
    if let Some(number) = unknown_ticket(minutes, tickets) {
        return Some(number);
    }
    by_lane(tickets);
    swapped_number(tickets)
}

/// The number of a ticket that doesn't stand in the minutes.
fn unknown_ticket(minutes: &[Entry], tickets: &[Ticket]) -> Option<u64>
    ensures some { IfSome result (IsNotPosted (map entry_of minutes.now) tickets.now) }
    ensures none { IfNone result (All (IsPosted (map entry_of minutes.now)) tickets.now) }
{
    let mut mark = Mark {
        place: 0,
        passed: 0,
    };
    for ticket in tickets {
        if !finds_post(minutes, &mut mark, ticket) {
            return Some(ticket.number);
        }
    }
    None
}

/// Moves the mark to a ticket's number, and tells whether its lane and job stand there.
fn finds_post(minutes: &[Entry], mark: &mut Mark, ticket: &Ticket) -> bool
    requires { IsMark Kind.Post minutes.now mark.old }
    ensures mark { IsMark Kind.Post minutes.now mark.new }
    ensures posted { IsTrue result ↔ IsPosted (map entry_of minutes.now) ticket.now }
{
    match numbered(minutes, Kind::Post, mark, ticket.number) {
        Some(entry) => is_post(entry, ticket),
        None => false,
    }
}

/// Whether an entry is the ticket's post.
fn is_post(entry: &Entry, ticket: &Ticket) -> bool
    ensures { IsTrue result ↔ (entry_of entry.now ≡ Posted ticket.now.lane (request_of ticket.now.job)) }
{
    match entry {
        Entry::Posted { lane, job } => *lane == ticket.lane && is_same(job, &ticket.job),
        Entry::Ended { .. } => false,
    }
}

/// Whether two jobs are the same.
fn is_same(a: &Job, b: &Job) -> bool
    ensures { IsTrue result ↔ (request_of a.now ≡ request_of b.now) }
{
    match (a, b) {
        (
            Job::Cell {
                code,
                silent,
                store,
            },
            Job::Cell {
                code: other,
                silent: is_silent,
                store: is_stored,
            },
        ) => code.as_str() == other.as_str() && *silent == *is_silent && *store == *is_stored,
        (Job::Undo(a), Job::Undo(b))
        | (Job::Redo(a), Job::Redo(b))
        | (Job::Goto(a), Job::Goto(b)) => { *a == *b }
        _ => false,
    }
}

/// The number of an end that is not so in the minutes. It sorts the ends.
fn untrue_done(minutes: &[Entry], dones: &mut [Done]) -> Option<u64>
    requires { EndsInOrder (map entry_of minutes.now) }
    ensures some { IfSome result (IsNotEnded (map entry_of minutes.now) dones.old) }
    ensures none { IfNone result (All (HasEnd (map entry_of minutes.now)) dones.old) }
{
    dones.sort_unstable_by_key(|done| done.number);
    unknown_done(minutes, dones)
}

/// The number of an end that is not so in the minutes.
fn unknown_done(minutes: &[Entry], dones: &[Done]) -> Option<u64>
    requires { EndsInOrder (map entry_of minutes.now) }
    ensures some { IfSome result (IsNotEnded (map entry_of minutes.now) dones.now) }
    ensures none { IfNone result (All (HasEnd (map entry_of minutes.now)) dones.now) }
{
    let mut mark = Mark {
        place: 0,
        passed: 0,
    };
    for done in dones {
        if !finds_end(minutes, &mut mark, done) {
            return Some(done.number);
        }
    }
    None
}

/// Moves the mark to the number of an end, and tells whether it stands there as it was told.
fn finds_end(minutes: &[Entry], mark: &mut Mark, done: &Done) -> bool
    requires mark { IsMark Kind.End minutes.now mark.old }
    requires ends { EndsInOrder (map entry_of minutes.now) }
    ensures mark { IsMark Kind.End minutes.now mark.new }
    ensures ended { IsTrue result ↔ HasEnd (map entry_of minutes.now) done.now }
{
    match numbered(minutes, Kind::End, mark, done.number) {
        Some(entry) => is_end(entry, done),
        None => false,
    }
}

/// Whether an entry is the end that was told.
fn is_end(entry: &Entry, done: &Done) -> bool
    ensures { IsTrue result ↔ (entry_of entry.now ≡ Ended done.now.number done.now.outcome done.now.count done.now.node) }
{
    match entry {
        Entry::Posted { .. } => false,
        Entry::Ended {
            number,
            outcome,
            count,
            node,
        } => {
            *number == done.number
                && same_outcome(*outcome, done.outcome)
                && *count == done.count
                && *node == done.node
        }
    }
}
