//! All stacks that may live, and which of them no name has.

ghost use Rattle.std.specs.Prelude.{◌≡◌, ℕ, suc, ◌+◌, ◌<◌, ◌≤◌, [], ◌∷◌, ◌++◌, IfOk, IsTrue, ◌↔◌, length, slice_get, slice_set};
ghost use Rattle.cell_pool.specs.Chains.{times};
ghost use Rattle.cell_pool.specs.Lent.{values_of};
ghost use Rattle.janus_meaning.specs.Limit.{live_stack_limit, value_limit};
ghost use Rattle.janus_meaning.specs.Store.{cleared_val};
ghost use Rattle.janus_memory.specs.Lists.{list_of};
ghost use Rattle.janus_memory.specs.Stacks.{total, AreFresh};

use crate::limit::CELL_LIMIT;
use cell_pool::{Pool, Values};
use janus_meaning::limit::LIVE_STACK_LIMIT;
use std::alloc::{AllocError, Global};
use std::marker::Model;

/// The stacks by their numbers in one pool of cells. Contracts see the values of each, and the numbers that no name has: those are empty.
#[derive(Drop)]
pub(crate) struct Stacks {
    pool: Pool,
    spare: Vec<usize>,
}

impl Model for Stacks {
    ghost use Rattle.janus_memory.specs.Stacks.{Pooled, pooled_code, AreReady};

    ghost Value = { Pooled };

    ghost coded = { pooled_code };

    ghost view = { λ s. record { lists = s.pool.lists; spare = s.spare.items } };

    ghost invariant = { λ s. AreReady s.pool s.spare };
}

impl Stacks {
    /// All stacks that may live, with the memory of all values that they may hold together. No name has one.
    pub(crate) fn new(alloc: Global) -> Result<Stacks, AllocError>
        ensures { IfOk result (λ s. AreFresh s) }
    {
        let mut pool = Pool::new(alloc, CELL_LIMIT, LIVE_STACK_LIMIT)?;
        let mut spare = Vec::with_capacity(alloc, LIVE_STACK_LIMIT)?;
        for i in 0..LIVE_STACK_LIMIT {
            pool.open();
            spare.push_reserved(i);
        }
        Ok(Stacks { pool, spare })
    }

    /// How many no name has.
    pub(crate) fn len(&self) -> usize
        ensures { result ≡ length self.now.spare }
    {
        self.spare.len()
    }

    /// The number of one that no name has, for a name.
    pub(crate) fn take(&mut self) -> usize
        requires { 0 < length self.old.spare }
        ensures lists { self.new.lists ≡ self.old.lists }
        ensures spare { self.old.spare ≡ self.new.spare ++ result ∷ [] }
        ensures empty { list_of self.old.lists result ≡ [] }
    {
        match self.spare.pop() {
            Some(stack) => stack,
            None => unreachable!(),
        }
    }

    /// Takes the number of an empty one back.
    pub(crate) fn give(&mut self, stack: usize)
        requires room { length self.old.spare < live_stack_limit }
        requires empty { list_of self.old.lists stack ≡ [] }
        ensures { self.new ≡ record { lists = self.old.lists; spare = self.old.spare ++ stack ∷ [] } }
    {
        self.spare.push_reserved(stack);
    }

    /// How many values a stack has.
    pub(crate) fn length(&self, stack: usize) -> usize
        requires { stack < live_stack_limit }
        ensures { result ≡ length (list_of self.now.lists stack) }
    {
        self.pool.length(stack)
    }

    /// The value on top of a stack, if there is one.
    pub(crate) fn top(&self, stack: usize) -> Option<i32>
        requires { stack < live_stack_limit }
        ensures { result ≡ slice_get (list_of self.now.lists stack) 0 }
    {
        self.pool.top(stack)
    }

    /// Whether no stack takes a value more.
    pub(crate) fn is_full(&self) -> bool
        ensures { IsTrue result ↔ (value_limit ≤ total self.now.lists) }
    {
        self.pool.is_full()
    }

    /// The values of a stack, lent.
    pub(crate) fn values(&self, stack: usize) -> Values<'_>
        requires { stack < live_stack_limit }
        ensures { values_of result ≡ list_of self.now.lists stack }
    {
        self.pool.values(stack)
    }

    /// One value more, on top of a stack that a name has.
    pub(crate) fn push(&mut self, stack: usize, number: i32)
        requires known { stack < live_stack_limit }
        requires room { total self.old.lists < value_limit }
        requires named { times stack self.old.spare ≡ 0 }
        ensures top { list_of self.new.lists stack ≡ number ∷ list_of self.old.lists stack }
        ensures more { total self.new.lists ≡ suc (total self.old.lists) }
        ensures rest { self.new ≡ record self.old { lists = slice_set self.old.lists stack (list_of self.new.lists stack) } }
    {
        self.pool.push(stack, number);
    }

    /// Takes the value from the top of a stack.
    pub(crate) fn pop(&mut self, stack: usize) -> i32
        requires known { stack < live_stack_limit }
        requires some { 0 < length (list_of self.old.lists stack) }
        requires named { times stack self.old.spare ≡ 0 }
        ensures top { list_of self.old.lists stack ≡ result ∷ list_of self.new.lists stack }
        ensures fewer { total self.old.lists ≡ suc (total self.new.lists) }
        ensures rest { self.new ≡ record self.old { lists = slice_set self.old.lists stack (list_of self.new.lists stack) } }
    {
        self.pool.pop(stack)
    }
}
