//! The cells of all frames, with all arrays and stacks.

ghost use Rattle.std.specs.Prelude.{◌≡◌, ◌≢◌, ◌+◌, ◌-◌, ◌<◌, ◌≤◌, ◌↔◌, ◌^◌, ℤ, List, [], ◌∷◌, ◌++◌, length, replicate, IsTrue, IfOk, IfSome, OnOk, OnErr};
ghost use Rattle.std.specs.Prelude.{None, vec_capacity};
ghost use Rattle.janus_meaning.specs.Fault.{IndexRange, TopEmpty};
ghost use Rattle.janus_meaning.specs.Limit.{live_stack_limit, value_limit};
ghost use Rattle.janus_meaning.specs.Store.{element};
ghost use Rattle.janus_meaning.specs.Value.{first, is_none};
ghost use Rattle.janus_memory.specs.Memory.{Plain, HasArray, HasStack, Gone, IsBare, IsHere, place, number_at, content_at, val_at, array_of, stack_of};
ghost use Rattle.janus_memory.specs.Memory.{with_number, with_content, with_write, element_set, pushed, opened, closed, released, carried, reached, no_cells};
ghost use Rattle.janus_memory.specs.Memory.{stacks_among, values_among};
ghost use Rattle.janus_memory.specs.Values.{shown, read_or};

use crate::arrays::Arrays;
use crate::cell::{Cell, Held, LENT, PLAIN};
use crate::moves::Moves;
use crate::stack_view;
use crate::stacks::Stacks;
use crate::value::ValueView;
use crate::writes::{Tally, Writes};
use std::alloc::{AllocError, Global};
use std::marker::Model;
use std::sync::ledger::{Blank, Ledger};

/// Cells, each with a number of its own and beside it an array, a stack or nothing, and the frame in sight, which begins at one of them. It counts
/// its writes in the ledger that it opened: so of a ledger there is one memory.
#[derive(Drop)]
pub struct Memory<L: Ledger> {
    /// Those that a frame has or had.
    cells: Vec<Cell>,
    /// Where the frame in sight begins.
    base: usize,
    /// From which place on cells are for results. Those before it are for names.
    results: usize,
    arrays: Arrays,
    stacks: Stacks,
    /// How often values were written.
    writes: Writes<L>,
}

impl<L: Ledger> Model for Memory<L> {
    ghost use Rattle.janus_memory.specs.Memory.{MemoryState, memory_code};

    ghost Value = { MemoryState };

    ghost coded = { memory_code };

    ghost use Rattle.janus_memory.specs.Inside.{memory_of, IsKept};

    ghost view = { memory_of };

    ghost invariant = { IsKept };
}

impl<L: Ledger> Memory<L> {
    /// No cells, with the memory of this many and of all stacks that may be, and no writes so far, which are counted in the ledger that is opened by
    /// this blank; with the permit to move its values, and a tally of that ledger, at 0.
    ///
    /// # Errors
    ///
    /// `AllocError` where there is no memory.
    pub fn new(
        alloc: Global,
        room: usize,
        blank: Blank,
    ) -> Result<(Memory<L>, Moves<L>, Tally<L>), AllocError>
        requires name { blank.name ≡ L.name }
        requires parts { blank.parts ≡ L.parts }
        requires two { 1 < L.parts }
        ensures empty { IfOk result (λ r. r.0 ≡ no_cells r.0.room) }
        ensures room { IfOk result (λ r. room ≤ r.0.room) }
        ensures tally { IfOk result (λ r. r.2 ≡ 0) }
    {
        let cells = Vec::with_capacity(alloc, room)?;
        let stacks = Stacks::new(alloc)?;
        let (writes, moves, tally) = Writes::open(blank);
        let memory = Memory {
            cells,
            base: 0,
            results: 0,
            arrays: Arrays::new(alloc),
            stacks,
            writes,
        };
        Ok((memory, moves, tally))
    }

    /// Raises a tally of the memory's ledger, and changes nothing of the memory.
    pub fn count(&mut self, tally: &mut Tally<L>, amount: u64)
        ensures counted { tally.new ≡ tally.old + amount }
        ensures same { self.new ≡ self.old }
    {
        self.writes.count(tally, amount);
    }

    /// Law: something stands beside each number, and the stacks of cells and the spare ones are all that may live.
    #[inline(always)]
    pub fn law(&self)
        ensures contents { length self.now.contents ≡ length self.now.numbers }
        ensures stacks { self.now.spare + stacks_among self.now.contents ≡ live_stack_limit }
        ensures low { length self.now.numbers < 2 ^ 63 }
        ensures room { length self.now.numbers ≤ self.now.room }
    {
        let _base = self.base;
    }

    // ---- the frame in sight, by the numbers of its cells

    /// The number of a cell, whatever stands beside it.
    #[inline(always)]
    pub fn number(&self, k: usize) -> i32
        requires { place self.now k < length self.now.numbers }
        ensures { result ≡ number_at self.now (place self.now k) }
    {
        self.cells[self.base + k].number
    }

    /// Another number for a cell. What stands beside it stays.
    #[inline(always)]
    fn put(&mut self, k: usize, number: i32)
        requires { place self.old k < length self.old.numbers }
        ensures { self.new ≡ with_number self.old (place self.old k) number }
    {
        self.cells[self.base + k].number = number;
    }

    /// Another number for a cell that is for a result, which is no write. What stands beside it stays.
    #[inline(always)]
    pub fn keep(&mut self, k: usize, number: i32)
        requires there { place self.old k < length self.old.numbers }
        requires behind { self.old.results ≤ place self.old k }
        ensures { self.new ≡ with_number self.old (place self.old k) number }
    {
        self.put(k, number);
    }

    /// Another number for a cell, as a write. What stands beside it stays.
    #[inline(always)]
    pub fn set(&mut self, k: usize, number: i32)
        requires { place self.old k < length self.old.numbers }
        ensures { self.new ≡ with_write (with_number self.old (place self.old k) number) }
    {
        self.writes.add();
        self.put(k, number);
    }

    /// The element at an index of a cell's array; none where the index is out of its range, or there is no array.
    #[inline(always)]
    pub fn element(&self, k: usize, index: i32) -> Option<i32>
        requires { place self.now k < length self.now.numbers }
        ensures { read_or IndexRange result ≡ element (array_of (content_at self.now (place self.now k))) index }
    {
        match self.cells[self.base + k].held {
            Held::Array(array) => self.arrays.element(array as usize, index),
            Held::Nothing | Held::Stack(_) | Held::Lent => None,
        }
    }

    /// Another number for an element of a cell's array; nothing else than that it is a write, where the index is out of its range or there is no array.
    #[inline(always)]
    pub fn set_element(&mut self, k: usize, index: i32, number: i32)
        requires { place self.old k < length self.old.numbers }
        ensures { self.new ≡ with_write (with_content self.old (place self.old k) (element_set (content_at self.old (place self.old k)) index number)) }
    {
        self.writes.add();
        if let Held::Array(array) = self.cells[self.base + k].held {
            self.arrays.set_element(array as usize, index, number);
        }
    }

    /// How many values a cell's stack has; 0 where there is no stack.
    #[inline(always)]
    pub fn length(&self, k: usize) -> usize
        requires { place self.now k < length self.now.numbers }
        ensures { result ≡ length (stack_of (content_at self.now (place self.now k))) }
    {
        match self.cells[self.base + k].held {
            Held::Stack(stack) => self.stacks.length(stack as usize),
            Held::Nothing | Held::Array(_) | Held::Lent => 0,
        }
    }

    /// Whether a cell's stack has no value; a cell without one has none.
    #[inline(always)]
    pub fn is_empty(&self, k: usize) -> bool
        requires { place self.now k < length self.now.numbers }
        ensures { result ≡ is_none (stack_of (content_at self.now (place self.now k))) }
    {
        self.length(k) == 0
    }

    /// The value on top of a cell's stack; none where it is empty, or there is no stack.
    #[inline(always)]
    pub fn top(&self, k: usize) -> Option<i32>
        requires { place self.now k < length self.now.numbers }
        ensures { read_or TopEmpty result ≡ first (stack_of (content_at self.now (place self.now k))) }
    {
        match self.cells[self.base + k].held {
            Held::Stack(stack) => self.stacks.top(stack as usize),
            Held::Nothing | Held::Array(_) | Held::Lent => None,
        }
    }

    /// Whether no stack takes a value more.
    #[inline(always)]
    pub fn is_full(&self) -> bool
        ensures { IsTrue result ↔ (value_limit ≤ values_among self.now.contents) }
    {
        self.stacks.is_full()
    }

    /// One value more on top of a cell's stack, where no more values than may be are on all stacks; nothing else than that it is a write, where there
    /// is no stack.
    #[inline(always)]
    pub fn push(&mut self, k: usize, number: i32)
        requires there { place self.old k < length self.old.numbers }
        requires room { values_among self.old.contents < value_limit }
        ensures { self.new ≡ with_write (with_content self.old (place self.old k) (pushed (content_at self.old (place self.old k)) number)) }
    {
        self.writes.add();
        if let Held::Stack(stack) = self.cells[self.base + k].held {
            self.stacks.push(stack as usize, number);
        }
    }

    /// Takes the value from the top of a cell's stack; none, and nothing is changed, where it is empty or there is no stack.
    #[inline(always)]
    pub fn pop(&mut self, k: usize) -> Option<i32>
        requires { place self.old k < length self.old.numbers }
        ensures some { IfSome result
            (λ n. (l : List ℤ) × (content_at self.old (place self.old k) ≡ HasStack (n ∷ l))
            × (self.new ≡ with_write (with_content self.old (place self.old k) (HasStack l)))) }
        ensures none { result ≡ None → (stack_of (content_at self.old (place self.old k)) ≡ []) × (self.new ≡ self.old) }
    {
        match self.cells[self.base + k].held {
            Held::Stack(stack) => {
                if self.stacks.length(stack as usize) == 0 {
                    return None;
                }
                self.writes.add();
                Some(self.stacks.pop(stack as usize))
            }
            Held::Nothing | Held::Array(_) | Held::Lent => None,
        }
    }

    /// Whether a stack more may live.
    #[inline(always)]
    pub fn has_spare_stack(&self) -> bool
        ensures { IsTrue result ↔ (0 < self.now.spare) }
    {
        self.stacks.len() > 0
    }

    /// How many stacks more may live.
    pub fn stacks_left(&self) -> usize
        ensures { result ≡ self.now.spare }
    {
        self.stacks.len()
    }

    /// Gives a plain cell an empty stack, where one more may live; any other cell is left. It is no write.
    pub fn open_stack(&mut self, k: usize)
        requires there { place self.old k < length self.old.numbers }
        requires spare { 0 < self.old.spare }
        ensures { self.new ≡ opened self.old (place self.old k) }
    {
        let at = self.base + k;
        match self.cells[at].held {
            Held::Nothing => {
                let stack = self.stacks.take();
                self.cells[at].held = Held::Stack(stack as u16);
            }
            Held::Array(_) | Held::Stack(_) | Held::Lent => {}
        }
    }

    /// Takes the stack of a cell away, which is empty; a cell without one is left. It is no write.
    pub fn close_stack(&mut self, k: usize)
        requires there { place self.old k < length self.old.numbers }
        requires empty { stack_of (content_at self.old (place self.old k)) ≡ [] }
        ensures { self.new ≡ closed self.old (place self.old k) }
    {
        let at = self.base + k;
        match self.cells[at].held {
            Held::Stack(stack) => {
                self.stacks.give(stack as usize);
                self.cells[at].held = Held::Nothing;
            }
            Held::Nothing | Held::Array(_) | Held::Lent => {}
        }
    }

    // ---- all frames, by the places of cells

    /// Where the frame in sight begins.
    #[inline(always)]
    pub fn base(&self) -> usize
        ensures { result ≡ self.now.base }
    {
        self.base
    }

    /// Another frame is in sight.
    #[inline(always)]
    pub fn set_base(&mut self, base: usize)
        ensures { self.new ≡ record self.old { base = base } }
    {
        self.base = base;
    }

    /// From this place on cells are for results, and those before it are for names.
    #[inline(always)]
    pub fn tell_results(&mut self, results: usize, _moves: &Moves<L>)
        ensures { self.new ≡ record self.old { results = results } }
    {
        self.results = results;
    }

    /// Takes the memory of this many cells. An error for want of memory leaves the cells.
    pub fn reserve(&mut self, room: usize) -> Result<(), AllocError>
        ensures same { self.new ≡ record self.old { room = self.new.room } }
        ensures reached { OnOk result (room ≤ self.new.room) }
        ensures room { self.old.room ≤ self.new.room }
    {
        let long = self.cells.len();
        if room > long {
            self.cells.reserve(room - long)?;
        }
        Ok(())
    }

    /// Where its memory is from.
    pub fn allocator(&self) -> Global {
        *self.cells.allocator()
    }

    /// Lets there be this many cells, or more: the new ones have the number 0 alone.
    #[inline(always)]
    pub fn reach(&mut self, count: usize)
        requires { count ≤ self.old.room }
        ensures { self.new ≡ reached self.old count }
    {
        reach(&mut self.cells, count);
    }

    /// The value of a cell, lent.
    pub fn view(&self, at: usize) -> ValueView<'_>
        requires there { at < length self.now.numbers }
        requires here { IsHere (content_at self.now at) }
        ensures { shown result ≡ val_at self.now at }
    {
        match self.cells[at].held {
            Held::Nothing => ValueView::Number(self.cells[at].number),
            Held::Array(array) => ValueView::Array(self.arrays.items(array as usize)),
            Held::Stack(stack) => ValueView::Stack(stack_view::lend(
                self.stacks.values(stack as usize),
            )),
            Held::Lent => unreachable!(),
        }
    }

    /// Lets a cell of the frame in sight begin with a number. It is no write.
    #[inline(always)]
    pub fn put_number(&mut self, k: usize, number: i32, _moves: &Moves<L>)
        requires { place self.old k < length self.old.numbers }
        ensures { self.new ≡ with_number self.old (place self.old k) number }
    {
        self.put(k, number);
    }

    /// Gives a plain cell an array. An error for want of memory leaves the cells. It is no write.
    pub fn put_array(
        &mut self,
        at: usize,
        items: Vec<i32>,
        _moves: &Moves<L>,
    ) -> Result<(), AllocError>
        requires there { at < length self.old.numbers }
        requires plain { content_at self.old at ≡ Plain }
        ensures ok { OnOk result (self.new ≡ with_content self.old at (HasArray items.items)) }
        ensures err { OnErr result (self.new ≡ self.old) }
    {
        let array = self.arrays.add(items)?;
        self.cells[at].held = Held::Array(array as u16);
        Ok(())
    }

    /// Lets the array of a cell go, or takes its empty stack away: it is plain then. Any other cell is left. It is no write.
    pub fn release(&mut self, at: usize, _moves: &Moves<L>)
        requires there { at < length self.old.numbers }
        requires empty { stack_of (content_at self.old at) ≡ [] }
        ensures { self.new ≡ released self.old at }
    {
        match self.cells[at].held {
            Held::Array(array) => {
                self.arrays.release(array as usize);
                self.cells[at].held = Held::Nothing;
            }
            Held::Stack(stack) => {
                self.stacks.give(stack as usize);
                self.cells[at].held = Held::Nothing;
            }
            Held::Nothing | Held::Lent => {}
        }
    }

    /// Moves what a cell has to another, which has neither an array nor a stack. The first is lent then. It is no write.
    #[inline(always)]
    pub fn lend(&mut self, from: usize, to: usize, _moves: &Moves<L>)
        requires from { from < length self.old.numbers }
        requires to { to < length self.old.numbers }
        requires apart { from ≢ to }
        requires bare { IsBare (content_at self.old to) }
        ensures { self.new ≡ carried Gone self.old from to }
    {
        let cell = self.cells[from];
        self.cells[to] = cell;
        self.cells[from] = LENT;
    }

    /// Moves what a cell has to another, which has neither an array nor a stack. The first is plain then. It is no write.
    #[inline(always)]
    pub fn give_back(&mut self, from: usize, to: usize, _moves: &Moves<L>)
        requires from { from < length self.old.numbers }
        requires to { to < length self.old.numbers }
        requires apart { from ≢ to }
        requires bare { IsBare (content_at self.old to) }
        ensures { self.new ≡ carried Plain self.old from to }
    {
        let cell = self.cells[from];
        self.cells[to] = cell;
        self.cells[from] = PLAIN;
    }
}

/// Lets there be this many cells, or more: the new ones have the number 0 alone.
#[inline(always)]
fn reach(cells: &mut Vec<Cell>, count: usize)
    requires { count ≤ vec_capacity cells.old }
    ensures more { cells.new.items ≡ cells.old.items ++ replicate (count - length cells.old.items) PLAIN }
    ensures room { vec_capacity cells.new ≡ vec_capacity cells.old }
{
    for _i in cells.len()..count {
        cells.push_reserved(PLAIN);
    }
}
