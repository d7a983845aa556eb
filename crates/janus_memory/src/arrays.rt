//! All arrays, each at its index.

ghost use Rattle.std.specs.Prelude.{◌≡◌, ℕ, suc, ◌<◌, ◌+◌, ◌-◌, ◌≢◌, ◌++◌, ◌∷◌, [], ◌^◌, List, ℤ, length, OnErr, IfOk, slice_set, take, pos};
ghost use Rattle.janus_meaning.specs.Fault.{IndexRange, Fine};
ghost use Rattle.janus_meaning.specs.Store.{element, set_element};
ghost use Rattle.janus_memory.specs.Lists.{list_of};
ghost use Rattle.janus_memory.specs.Values.{read_or};

use std::alloc::{AllocError, Global};
use std::marker::Model;

/// The most arrays that may live.
const ARRAY_COUNT: usize = 65_536;

/// Arrays. Contracts see the elements of each.
#[derive(Drop)]
pub(crate) struct Arrays {
    lists: Vec<Vec<i32>>,
}

impl Model for Arrays {
    ghost use Rattle.std.specs.Prelude.{List, ℤ, map, length, ◌≤◌};
    ghost use Rattle.std.specs.Global.{Vec};

    ghost Value = { List (List ℤ) };

    ghost view = { λ a. map (λ (v : Vec ℤ). v.items) a.lists.items };

    ghost invariant = { λ a. length a.lists.items ≤ 65536 };
}

impl Arrays {
    /// None.
    pub(crate) fn new(alloc: Global) -> Arrays
        ensures { result ≡ [] }
    {
        Arrays {
            lists: Vec::new(alloc),
        }
    }

    /// The elements of an array, lent.
    #[inline(always)]
    pub(crate) fn items(&self, array: usize) -> &[i32]
        requires { array < length self.now }
        ensures { result.now ≡ list_of self.now array }
    {
        &self.lists[array]
    }

    /// The element of an array at an index, if the index is within its range.
    #[inline(always)]
    pub(crate) fn element(&self, array: usize, index: i32) -> Option<i32>
        requires { array < length self.now }
        ensures { read_or IndexRange result ≡ element (list_of self.now array) index }
    {
        element_of(self.items(array), index)
    }

    /// Another number in place of an element; out of the range nothing changes.
    #[inline(always)]
    pub(crate) fn set_element(&mut self, array: usize, index: i32, number: i32)
        requires { array < length self.old }
        ensures { self.new ≡ slice_set self.old array (set_element (list_of self.old array) index number) }
    {
        if self.element(array, index).is_some() {
            self.put(array, index, number);
        }
    }

    /// Another number in place of an element, at an index within the range.
    #[inline(always)]
    fn put(&mut self, array: usize, index: i32, number: i32)
        requires there { array < length self.old }
        requires within { (n : ℤ) × (element (list_of self.old array) index ≡ Fine n) }
        ensures { self.new ≡ slice_set self.old array (set_element (list_of self.old array) index number) }
    {
        self.lists[array][index as usize] = number;
    }

    /// One array more, behind the others; the answer is its index. An error for want of memory leaves them.
    pub(crate) fn add(&mut self, items: Vec<i32>) -> Result<usize, AllocError>
        ensures added { IfOk result (λ array. self.new ≡ self.old ++ items.items ∷ []) }
        ensures index { IfOk result (λ array. array ≡ length self.old) }
        ensures low { IfOk result (λ array. array < 65536) }
        ensures err { OnErr result (self.new ≡ self.old) }
    {
        let index = self.lists.len();
        if index >= ARRAY_COUNT {
            return Err(AllocError);
        }
        self.lists.push(items)?;
        Ok(index)
    }

    /// Lets an array go that no name has. The others keep their indexes: so its own is free again only where it is the last, as it is where names are
    /// retired in the reverse order of their declaration.
    pub(crate) fn release(&mut self, array: usize)
        requires { array < length self.old }
        ensures { (i : ℕ) → i < length self.old → i ≢ array → (i < length self.new) × (list_of self.new i ≡ list_of self.old i) }
    {
        let long = self.lists.len();
        if array + 1 == long {
            self.lists.truncate(array);
        }
    }
}

/// The element at an index, if the index is within the range.
#[inline(always)]
fn element_of(items: &[i32], index: i32) -> Option<i32>
    ensures { read_or IndexRange result ≡ element items.now index }
{
    if index < 0 {
        return None;
    }
    items.get(index as usize).copied()
}
