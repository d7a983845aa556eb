//! How often each prefix is counted.
ghost use Rattle.std.specs.Prelude.{◌≡◌, ℕ, ◌+◌, ◌-◌, ◌<◌, ◌≤◌, List, OnOk, OnErr, IfSome, IfNone, None, Some, if◌then◌else◌, IsTrue, ◌↔◌, [], length};
ghost use Rattle.std.specs.BTreeMap.{get};
ghost use Rattle.std.specs.Map.{count_at, set_value};
ghost use Rattle.std.specs.Option.{option_map, option_or};
ghost use Rattle.std.specs.Ordering.{nat_cmp};
ghost use Rattle.std.specs.Str.{bytes_eq};
ghost use Rattle.zmtp_peer.specs.Subscriptions.{place_of, count_in, DropsIdle};
ghost use Rattle.zmtp_peer.specs.Table.{one_at, is_key};

use crate::wanted::Prefixes;
use std::alloc::{AllocError, Global};
use std::collections::BTreeMap;
use std::marker::Model;

/// A count for each prefix that has a place. Contracts see the places, in their order.
///
/// Beside them it keeps how many have each length, so that a topic is looked up only at lengths that some prefix has.
#[derive(Drop)]
pub(crate) struct Counts {
    places: BTreeMap<Vec<u8>, u64>,
    lengths: BTreeMap<usize, usize>,
}

impl Model for Counts {
    ghost use Rattle.std.specs.Prelude.{◌≡◌, ℕ, List};
    ghost use Rattle.std.specs.BTreeMap.{get};
    ghost use Rattle.std.specs.Map.{count_at};
    ghost use Rattle.std.specs.Ordering.{nat_cmp};
    ghost use Rattle.zmtp_peer.specs.Table.{table_of, number_of_length};

    ghost Value = { List (List ℕ × ℕ) };

    ghost view = { λ c. table_of c.places.entries };

    ghost invariant = { λ c. (n : ℕ) → count_at (get nat_cmp c.lengths) n ≡ number_of_length n (table_of c.places.entries) };
}

impl Prefixes for Counts {
    ghost use Rattle.std.specs.Prelude.{List, ℕ};

    ghost table = { λ t. t };

    fn count_of(&self, prefix: &[u8]) -> u64 {
        match self.places.get(prefix) {
            Some(count) => *count,
            None => 0,
        }
    }

    fn next_length(&self, least: usize) -> Option<usize> {
        length_from(&self.lengths, least)
    }
}

impl Counts {
    /// No places.
    pub(crate) fn new(alloc: Global) -> Counts
        ensures { result ≡ [] }
    {
        Counts {
            places: BTreeMap::new(alloc),
            lengths: BTreeMap::new(alloc),
        }
    }

    /// Sets the count of a prefix, if it has a place.
    pub(crate) fn set_count(&mut self, prefix: &[u8], count: u64)
        ensures { (q : List ℕ) → place_of self.new q ≡ (if bytes_eq q prefix.now
            then option_map (λ n. count) (place_of self.old q) else place_of self.old q) }
    {
        set_at(&mut self.places, prefix, count);
    }

    /// Makes a place for a prefix.
    pub(crate) fn add_place(&mut self, alloc: Global, prefix: &[u8]) -> Result<(), AllocError>
        ensures ok { OnOk result ((q : List ℕ) → place_of self.new q
            ≡ option_or (place_of self.old q) (if bytes_eq q prefix.now then Some 0 else None)) }
        ensures err { OnErr result (self.new ≡ self.old) }
    {
        if self.places.contains_key(prefix) {
            return Ok(());
        }
        let key = Vec::from_slice(alloc, prefix)?;
        raise(&mut self.lengths, prefix.len())?;
        match self.places.insert(key, 0) {
            Ok(_) => Ok(()),
            Err(_) => {
                lower(&mut self.lengths, prefix.len());
                Err(AllocError)
            }
        }
    }

    /// Gives the place of a prefix up where its count is 0.
    pub(crate) fn drop_place(&mut self, prefix: &[u8])
        ensures same { (q : List ℕ) → count_in self.new q ≡ count_in self.old q }
        ensures idle { DropsIdle (λ q. bytes_eq q prefix.now) self.old self.new }
    {
        if self.count_of(prefix) == 0 {
            if let Some(_) = self.places.remove(prefix) {
                lower(&mut self.lengths, prefix.len());
            }
        }
    }
}

/// Sets the count of a prefix, if it has a place.
fn set_at(places: &mut BTreeMap<Vec<u8>, u64>, prefix: &[u8], count: u64)
    ensures { places.new.entries ≡ set_value (is_key prefix.now) places.old.entries count }
{
    if let Some(kept) = places.get_mut(prefix) {
        *kept = count;
    }
}

/// The least length that is counted, from a length on.
fn length_from(lengths: &BTreeMap<usize, usize>, least: usize) -> Option<usize>
    ensures some { IfSome result (λ next. (least ≤ next)
        × ((n : ℕ) → least ≤ n → n < next → get nat_cmp lengths.now n ≡ None)) }
    ensures none { IfNone result ((n : ℕ) → least ≤ n → get nat_cmp lengths.now n ≡ None) }
{
    match lengths.range(least..).next() {
        Some((length, _)) => Some(*length),
        None => None,
    }
}

/// Counts one more at a length.
fn raise(lengths: &mut BTreeMap<usize, usize>, size: usize) -> Result<(), AllocError>
    ensures ok { OnOk result ((n : ℕ) → count_at (get nat_cmp lengths.new) n
        ≡ one_at size n + count_at (get nat_cmp lengths.old) n) }
    ensures err { OnErr result ((n : ℕ) → count_at (get nat_cmp lengths.new) n ≡ count_at (get nat_cmp lengths.old) n) }
{
    let count = lengths.get(&size).copied().unwrap_or(0);
    let Some(more) = count.checked_add(1) else {
        return Err(AllocError);
    };
    lengths.insert(size, more)?;
    Ok(())
}

/// Counts one less at a length.
fn lower(lengths: &mut BTreeMap<usize, usize>, size: usize)
    ensures { (n : ℕ) → count_at (get nat_cmp lengths.new) n ≡ count_at (get nat_cmp lengths.old) n - one_at size n }
{
    let count = lengths.get(&size).copied().unwrap_or(0);
    if count > 1 {
        if let Some(kept) = lengths.get_mut(&size) {
            *kept = count - 1;
        }
    } else {
        lengths.remove(&size);
    }
}
