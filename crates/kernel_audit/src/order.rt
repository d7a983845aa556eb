//! Tickets in order.
ghost use Rattle.std.specs.Prelude.{◌≡◌, ◌<◌, ◌≤◌, ℕ, IfSome, IfNone, Contains};
ghost use Rattle.std.specs.List.Sorted.{IsNonDecreasingBy, IsPermutation};
ghost use Rattle.kernel_audit.specs.declared.pass.Ticket.{Ticket};
ghost use Rattle.kernel_audit.specs.Audit.{tickets_of, IsLater, IsSwapped};
ghost use Rattle.kernel_audit.specs.Orders.{AreByLane};

use crate::pass::Ticket;

/// Sorts tickets by their numbers.
pub(crate) fn by_number(tickets: &mut [Ticket])
    ensures sorted { IsNonDecreasingBy (λ (t : Ticket). t.number) tickets.new }
    ensures same { IsPermutation tickets.old tickets.new }
{
    tickets.sort_unstable_by_key(|ticket| ticket.number);
}

/// Sorts tickets by lane, and on each lane by number.
pub(crate) fn by_lane(tickets: &mut [Ticket])
    requires { (n : ℕ) → tickets_of n tickets.old ≤ 1 }
    ensures sorted { AreByLane tickets.new }
    ensures same { IsPermutation tickets.old tickets.new }
{
    tickets.sort_unstable_by_key(|ticket| (ticket.lane, ticket.number));
}

/// A number that two tickets share.
pub(crate) fn shared_number(tickets: &[Ticket]) -> Option<u64>
    requires { IsNonDecreasingBy (λ (t : Ticket). t.number) tickets.now }
    ensures some { IfSome result (λ n. 1 < tickets_of n tickets.now) }
    ensures none { IfNone result ((n : ℕ) → tickets_of n tickets.now ≤ 1) }
{
    for i in 1..tickets.len() {
        if tickets[i - 1].number == tickets[i].number {
            return Some(tickets[i].number);
        }
    }
    None
}

/// The number of a later post of a pass that is smaller than that of an earlier one.
pub(crate) fn swapped_number(tickets: &[Ticket]) -> Option<u64>
    requires { AreByLane tickets.now }
    ensures some { IfSome result (IsSwapped tickets.now) }
    ensures none { IfNone result ((a b : Ticket) → Contains tickets.now a → Contains tickets.now b → IsLater a b → a.number < b.number) }
{
    for i in 1..tickets.len() {
        if tickets[i - 1].lane == tickets[i].lane && tickets[i].nth < tickets[i - 1].nth {
            return Some(tickets[i - 1].number);
        }
    }
    None
}
