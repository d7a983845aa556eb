//! What is made for a job that ends, to be fetched by the first wait for it.
ghost use Rattle.std.specs.Prelude.{◌≡◌, ◌-◌, ◌<◌, ◌≤◌, ℕ, [], IfSome, IfNone, None, Some, length, map, slice_get, suc, true, false, vec_len, vec_capacity};
ghost use Rattle.kernel_audit.specs.State.{Past};
ghost use Rattle.kernel_audit.specs.Written.{entry_of};
ghost use Rattle.kernel_audit.specs.EndedAt.{StandsAtEnd};
ghost use Rattle.kernel_audit.specs.Ends.{HasEnd};
ghost use Rattle.kernel_audit.specs.Making.{IsUnderWay, left_of};
ghost use Rattle.hall_state.specs.PendingResults.{IsWaiting, IsTold, IsTakenOut, OpensLast, SettlesLast, IsBehind, IsUntold, IsToldOrEndless, HasNoEnd};
ghost use Rattle.hall_state.specs.LastEnds.{IsLastEnd, EndsNoNumber, StandsAt, IsEndAt, last_of};
ghost use Rattle.hall_state.specs.declared.pending_result.PendingResult.{PendingResult};

use crate::open_result::OpenResult;
use kernel_audit::{
    Done, Entry, Kernel, Making, NamedValue, Outcome, SpentWishes, Wish, shown_after,
};
use std::alloc::Global;
use std::mem;
use std::sync::ledger::Ledger;

/// What stands beside a post, with no fact kept of it: where the minutes have the end of its job, its wishes until it ends, and what
/// was made as it ended until the first wait.
#[derive(Drop)]
pub struct PendingResult {
    ended: Option<usize>,
    is_told: bool,
    wishes: Vec<Wish>,
    shown: Option<String>,
    /// Until the job has ended, the room for them.
    values: Vec<NamedValue>,
}

impl PendingResult {
    /// For a post, with room for the values of its wishes.
    pub(crate) fn new(wishes: Vec<Wish>, room: Vec<NamedValue>) -> PendingResult
        requires empty { room.items ≡ [] }
        requires room { vec_len wishes ≤ vec_capacity room }
        ensures { IsWaiting wishes.items result }
    {
        PendingResult {
            ended: None,
            is_told: false,
            wishes,
            shown: None,
            values: room,
        }
    }

    /// Takes its wishes out, with the room for their values: for what is made of them as the job has ended.
    fn take_out(&mut self, alloc: Global, outcome: &Outcome) -> Making
        requires empty { self.old.values.items ≡ [] }
        requires room { vec_len self.old.wishes ≤ vec_capacity self.old.values }
        ensures taken { IsTakenOut self.old self.new }
        ensures making { (s : Past) → StandsAtEnd outcome.now s → IsUnderWay outcome.now s self.old.wishes.items result }
    {
        let wishes = mem::replace(&mut self.wishes, Vec::new(alloc));
        let room = mem::replace(&mut self.values, Vec::new(alloc));
        Making::new(outcome, wishes, room)
    }

    /// Keeps what was made for it, and takes down at which place of the minutes the job has ended.
    fn settle(&mut self, place: usize, shown: Option<String>, values: Vec<NamedValue>)
        ensures ended { self.new.ended ≡ Some place }
        ensures untold { self.new.is_told ≡ false }
        ensures shown { self.new.shown ≡ shown }
        ensures values { self.new.values ≡ values }
    {
        self.ended = Some(place);
        self.is_told = false;
        self.shown = shown;
        self.values = values;
    }

    /// What came of the job of this number, if its end stands where it was taken down. What was made for it goes along.
    fn done(&mut self, alloc: Global, minutes: &[Entry], wanted: u64) -> Option<Done>
        ensures number { IfSome result (λ d. d.number ≡ wanted) }
        ensures end { IfSome result (HasEnd (map entry_of minutes.now)) }
        ensures there { IfSome result (λ d. (place : ℕ) × (self.old.ended ≡ Some place) × StandsAt (map entry_of minutes.now) place d) }
        ensures shown { IfSome result (λ d. d.shown ≡ self.old.shown) }
        ensures values { IfSome result (λ d. d.values ≡ self.old.values) }
        ensures none_shown { IfSome result (λ d. self.new.shown ≡ None) }
        ensures no_values { IfSome result (λ d. self.new.values.items ≡ []) }
        ensures told { IfSome result (λ d. self.new.is_told ≡ true) }
        ensures ended { self.new.ended ≡ self.old.ended }
        ensures wishes { self.new.wishes ≡ self.old.wishes }
        ensures none { IfNone result (self.new ≡ self.old) }
        ensures unended { IfNone result ((place : ℕ) → self.old.ended ≡ Some place → IsEndAt (map entry_of minutes.now) place wanted → ⊥) }
    {
        let place = self.ended?;
        let Entry::Ended {
            number,
            outcome,
            count,
            node,
        } = minutes.get(place)?
        else {
            return None;
        };
        if *number != wanted {
            return None;
        }
        self.is_told = true;
        Some(Done {
            number: *number,
            outcome: *outcome,
            count: *count,
            node: *node,
            shown: self.shown.take(),
            values: mem::replace(&mut self.values, Vec::new(alloc)),
        })
    }
}

/// What is to be made for the job that has just ended, whose end stands last in the minutes: its shown text is made. A shown text that finds no memory is
/// left out.
pub(crate) fn open_last<W: Ledger>(
    alloc: Global,
    kernel: &Kernel<W>,
    pending_results: &mut [PendingResult],
) -> OpenResult
    requires { IsBehind kernel.now.machine pending_results.old }
    ensures { OpensLast kernel.now.machine pending_results.old pending_results.new result }
{
    let Some(end) = last_end(kernel.minutes()) else {
        unreachable!()
    };
    let LastEnd {
        number,
        index,
        place,
        outcome,
    } = end;
    let shown = shown_after(alloc, kernel, &outcome);
    let making = pending_results[index].take_out(alloc, &outcome);
    OpenResult {
        number,
        index,
        place,
        shown,
        making,
    }
}

/// Keeps what was made for the job that has ended last, all of which is there. What is left is the memory of its user expressions.
pub(crate) fn settle_last(pending_results: &mut [PendingResult], made: OpenResult) -> SpentWishes
    requires there { made.index < length pending_results.old }
    requires all { left_of made.making ≡ [] }
    ensures { SettlesLast pending_results.old pending_results.new made }
{
    let OpenResult {
        index,
        place,
        shown,
        making,
        ..
    } = made;
    let (values, spent) = making.values();
    pending_results[index].settle(place, shown, values);
    spent
}

/// Of the end that stands last in the minutes: its number, where the pending_result of its post stands, its place, and what came of the job.
#[derive(Clone, Copy)]
struct LastEnd {
    number: u64,
    index: usize,
    place: usize,
    outcome: Outcome,
}

fn last_end(minutes: &[Entry]) -> Option<LastEnd>
    ensures some { IfSome result (IsLastEnd (map entry_of minutes.now)) }
    ensures none { IfNone result (EndsNoNumber (last_of (map entry_of minutes.now))) }
{
    let place = minutes.len().checked_sub(1)?;
    match minutes.get(place)? {
        Entry::Posted { .. } => None,
        Entry::Ended {
            number,
            outcome,
            ..
        } => {
            let index = index_of(*number)?;
            Some(LastEnd {
                number: *number,
                index,
                place,
                outcome: *outcome,
            })
        }
    }
}

/// Where the pending_result of a post stands.
fn index_of(number: u64) -> Option<usize>
    ensures some { IfSome result (λ index. number ≡ suc index) }
    ensures none { IfNone result (number ≡ 0) }
{
    number.checked_sub(1).map(|index| index as usize)
}

/// Whether nothing is to be told of the job of this number that was not told already.
fn was_told(pending_results: &[PendingResult], number: u64) -> bool
    ensures untold { result ≡ false → IsUntold pending_results.now number }
    ensures told { result ≡ true → (e : PendingResult) → 0 < number → slice_get pending_results.now (number - 1) ≡ Some e → e.is_told ≡ true }
{
    let Some(index) = index_of(number) else {
        return true;
    };
    match pending_results.get(index) {
        Some(pending_result) => pending_result.is_told,
        None => true,
    }
}

/// What came of the job of this number, if it has ended.
pub(crate) fn fetch<W: Ledger>(
    alloc: Global,
    kernel: &Kernel<W>,
    pending_results: &mut [PendingResult],
    number: u64,
) -> Option<Done>
    ensures number { IfSome result (λ d. d.number ≡ number) }
    ensures end { IfSome result (HasEnd kernel.now.machine.minutes) }
    ensures told { IfSome result (λ d. IsTold kernel.now.machine.minutes pending_results.old number d pending_results.new) }
    ensures none { IfNone result (pending_results.new ≡ pending_results.old) }
    ensures unended { IfNone result (HasNoEnd kernel.now.machine.minutes pending_results.old number) }
{
    let index = index_of(number)?;
    if index >= pending_results.len() {
        return None;
    }
    pending_results[index].done(alloc, kernel.minutes(), number)
}

/// `fetch`, where nobody was told yet of what was made for this number; else `None`.
pub(crate) fn fetch_first<W: Ledger>(
    alloc: Global,
    kernel: &Kernel<W>,
    pending_results: &mut [PendingResult],
    number: u64,
) -> Option<Done>
    ensures number { IfSome result (λ d. d.number ≡ number) }
    ensures end { IfSome result (HasEnd kernel.now.machine.minutes) }
    ensures told { IfSome result (λ d. IsTold kernel.now.machine.minutes pending_results.old number d pending_results.new) }
    ensures untold { IfSome result (λ d. IsUntold pending_results.old number) }
    ensures none { IfNone result (pending_results.new ≡ pending_results.old) }
    ensures unended { IfNone result (IsToldOrEndless kernel.now.machine.minutes pending_results.old number) }
{
    if was_told(pending_results, number) {
        return None;
    }
    fetch(alloc, kernel, pending_results, number)
}
