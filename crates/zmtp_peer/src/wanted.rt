//! Which prefixes stand at the front of a topic.
ghost use Rattle.std.specs.Prelude.{◌≡◌, ℕ, ◌<◌, ◌≤◌, List, IfSome, IfNone, IsTrue, ◌↔◌, length};
ghost use Rattle.zmtp_peer.specs.Subscriptions.{count_in, HasWanted};

/// What a topic is looked up in. Whoever is given no more than this can reach no allocator, and so takes no memory.
pub(crate) trait Prefixes {
    /// The counts of the prefixes.
    ghost table: { Self → List (List ℕ × ℕ) };

    /// How often a prefix is counted.
    fn count_of(&self, prefix: &[u8]) -> u64
        ensures { result ≡ count_in (table self.now) prefix.now };

    /// The least length of a prefix with a place, from a length on.
    fn next_length(&self, least: usize) -> Option<usize>
        ensures some { IfSome result (λ next. (least ≤ next)
            × ((q : List ℕ) → least ≤ length q → length q < next → count_in (table self.now) q ≡ 0)) }
        ensures none { IfNone result ((q : List ℕ) → least ≤ length q → count_in (table self.now) q ≡ 0) };
}

/// Whether a counted prefix stands at the front of a topic. Only lengths that some prefix has are looked at.
pub(crate) fn is_wanted<P: Prefixes>(prefixes: &P, topic: &[u8]) -> bool
    ensures { IsTrue result ↔ HasWanted (P.table prefixes.now) topic.now }
{
    let mut least = 0;
    while least <= topic.len() {
        let Some(length) = prefixes.next_length(least) else {
            return false;
        };
        if length > topic.len() {
            return false;
        }
        if prefixes.count_of(&topic[..length]) > 0 {
            return true;
        }
        least = length + 1;
    }
    false
}
