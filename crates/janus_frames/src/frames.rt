//! The names in sight, each with its value in a cell of one frame, and the frames of the open calls around it.

ghost use Rattle.std.specs.Prelude.{◌≡◌, ◌<◌, ◌≤◌, ◌+◌, ◌-◌, ℕ, ℤ, List, [], ◌∷◌, length, reverse, IfOk, OnOk, OnErr, IsTrue, ◌↔◌};
ghost use Rattle.std.specs.Prelude.{IfSome, None, true, false, ◌^◌};
ghost use Rattle.janus_meaning.specs.Fault.{Fine, TopEmpty};
ghost use Rattle.janus_meaning.specs.Limit.{live_stack_limit, value_limit};
ghost use Rattle.janus_meaning.specs.Store.{Val, Slot, Num, Arr, Stk, look, element, set_element};
ghost use Rattle.janus_meaning.specs.Value.{first};
ghost use Rattle.janus_meaning.specs.World.{size_of};
ghost use Rattle.janus_meaning.specs.Writes.{IsWritten};
ghost use Rattle.janus_row.specs.Acts.{Fits};
ghost use Rattle.janus_row.specs.Rows.{IsRow, IsBody, instruction_at, body_at, lead_at, sight_of};
ghost use Rattle.janus_row.specs.OneStep.{IsWrittenOnce};
ghost use Rattle.janus_row.specs.Sound.{World};
ghost use Rattle.janus_slots.specs.Slots.{slot};
ghost use Rattle.janus_memory.specs.Values.{shown, read_or};
ghost use Rattle.janus_frames.specs.Cells.{has, from};
ghost use Rattle.janus_frames.specs.Calls.{CanLend, Enters, AreAlone, Returns, given_back, own_names, names_lent, slots_of, names_of};
ghost use Rattle.janus_frames.specs.FramesState.{no_frames, names_there, stacks_there, values_there, with_names, HasShape};
ghost use Rattle.janus_frames.specs.Limits.{call_limit};
ghost use Rattle.janus_frames.specs.Run.{HasCellRoom, KeepsCalls, IsSafeRunOn, IsRunnableOnce, RunsOn, RunsOnce, KeepsValues, undeclared};
ghost use Rattle.janus_frames.specs.Shown.{place_in, through, AreLow, IsStored};
ghost use Rattle.janus_frames.specs.Stores.{IsNumber, IsStack, IsHeldStack, HasElementAt, IsFirstOnTop, rest_of, write};
ghost use Rattle.janus_frames.specs.Values.{first_of};

use crate::args::Args;
use crate::limit::CALL_LIMIT;
use crate::moves::{give_back, lend};
use crate::value::Declared;
use janus_memory::{Memory, Moves, Tally, ValueView};
use janus_row::code::Row;
use janus_row::over::{run_over, take_one_over};
use janus_row::slice::{Reached, body_of};
use janus_row::{Stop, fits_wider_law};
use std::alloc::{AllocError, Global};
use std::marker::Model;
use std::sync::ledger::{Blank, Ledger};

/// Where an open call stands.
#[derive(Clone, Copy)]
struct OpenCall {
    /// What it lent.
    args: Args,
    /// Where its caller's frame begins.
    base: usize,
}

/// Frames of cells, one behind another, in one memory. Contracts see the names in sight as a store, and the stores that open calls left behind.
#[derive(Drop)]
pub(crate) struct Frames<L: Ledger> {
    /// The cells, and where the frame in sight begins.
    memory: Memory<L>,
    /// Behind its last name. From there on are plain cells.
    top: usize,
    /// The open calls, the innermost last.
    calls: Vec<OpenCall>,
}

impl<L: Ledger> Model for Frames<L> {
    ghost use Rattle.janus_frames.specs.FramesState.{FramesState, frames_code};

    ghost Value = { FramesState };

    ghost coded = { frames_code };

    ghost use Rattle.janus_frames.specs.Inside.{frames_of, IsKept};

    ghost view = { frames_of };

    ghost invariant = { IsKept };
}

impl<L: Ledger> Frames<L> {
    /// No names, with the memory of this many cells and of all stacks and calls that may be, and no writes so far, which are counted in the ledger that
    /// is opened by this blank; with the permit to move its values, and a tally of that ledger, at 0.
    ///
    /// # Errors
    ///
    /// `AllocError` where there is no memory.
    pub(crate) fn new(
        alloc: Global,
        room: usize,
        blank: Blank,
    ) -> Result<(Frames<L>, Moves<L>, Tally<L>), AllocError>
        requires name { blank.name ≡ L.name }
        requires parts { blank.parts ≡ L.parts }
        requires two { 1 < L.parts }
        ensures empty { IfOk result (λ r. r.0 ≡ no_frames r.0.room) }
        ensures room { IfOk result (λ r. room ≤ r.0.room) }
        ensures tally { IfOk result (λ r. r.2 ≡ 0) }
    {
        let calls = Vec::with_capacity(alloc, CALL_LIMIT)?;
        let (memory, moves, tally) = Memory::new(alloc, room, blank)?;
        let frames = Frames {
            memory,
            top: 0,
            calls,
        };
        Ok((frames, moves, tally))
    }

    /// Raises a tally of the ledger, and changes nothing of the frames.
    pub(crate) fn count(&mut self, tally: &mut Tally<L>, amount: u64)
        ensures counted { tally.new ≡ tally.old + amount }
        ensures same { self.new ≡ self.old }
    {
        self.memory.count(tally, amount);
    }

    /// Takes the memory of this many cells. An error for want of memory leaves the names.
    pub(crate) fn reserve(&mut self, room: usize) -> Result<(), AllocError>
        ensures same { self.new ≡ record self.old { room = self.new.room } }
        ensures reached { OnOk result (room ≤ self.new.room) }
        ensures room { self.old.room ≤ self.new.room }
    {
        self.memory.reserve(room)
    }

    /// Where its memory is from.
    pub(crate) fn allocator(&self) -> Global {
        self.memory.allocator()
    }

    /// How many names are in sight.
    pub(crate) fn len(&self) -> usize
        ensures names { result ≡ size_of self.now.slots }
        ensures low { result < 2 ^ 63 }
    {
        self.memory.law();
        self.top - self.memory.base()
    }

    /// The value on top of the k-th name's stack; none where it is empty.
    #[inline(always)]
    pub(crate) fn top(&self, k: usize) -> Option<i32>
        requires { IsStack (look (slot k) self.now.slots) }
        ensures { (l : List ℤ) → look (slot k) self.now.slots ≡ Fine (Stk l) → read_or TopEmpty result ≡ first l }
    {
        self.memory.top(k)
    }

    /// How many values the k-th name's stack has.
    #[inline(always)]
    pub(crate) fn length(&self, k: usize) -> usize
        requires { IsStack (look (slot k) self.now.slots) }
        ensures { (l : List ℤ) → look (slot k) self.now.slots ≡ Fine (Stk l) → result ≡ length l }
    {
        self.memory.length(k)
    }

    /// Whether no stack takes a value more.
    #[inline(always)]
    pub(crate) fn is_full(&self) -> bool
        ensures { IsTrue result ↔ (value_limit ≤ values_there self.now) }
    {
        self.memory.is_full()
    }

    /// How many stacks more may live.
    pub(crate) fn stacks_left(&self) -> usize
        ensures { result + stacks_there self.now ≡ live_stack_limit }
    {
        self.memory.stacks_left()
    }

    /// The value of the k-th name in sight, lent.
    pub(crate) fn value(&self, k: usize) -> ValueView<'_>
        requires { k < size_of self.now.slots }
        ensures { look (slot k) self.now.slots ≡ Fine (shown result) }
    {
        self.memory.law();
        self.memory.view(self.memory.base() + k)
    }

    /// The value of the k-th of the outermost names, lent, while calls are open: it is followed inwards through their arguments.
    pub(crate) fn shown(&self, k: usize) -> ValueView<'_>
        requires { k < size_of (given_back self.now.slots self.now.callers) }
        ensures { look (slot k) (given_back self.now.slots self.now.callers) ≡ Fine (shown result) }
    {
        self.memory.law();
        let place = place_shown(&self.calls, self.memory.base(), k);
        self.memory.view(place)
    }

    /// Law: the names in sight are slots, and so are those outside of calls.
    #[inline(always)]
    pub(crate) fn slots_law(&self)
        ensures sight { IsStored self.now.slots }
        ensures shown { IsStored (given_back self.now.slots self.now.callers) }
    {
        let _top = self.top;
    }

    /// Another number for the k-th name in sight.
    #[inline(always)]
    pub(crate) fn set(&mut self, k: usize, number: i32)
        requires { IsNumber (look (slot k) self.old.slots) }
        ensures written { write (slot k) (Num number) self.old.slots ≡ Fine self.new.slots }
        ensures shape { HasShape self.old self.new }
        ensures counted { self.new.writes ≡ self.old.writes + 1 }
    {
        self.memory.law();
        self.memory.set(k, number);
    }

    /// Another number for an element of the k-th name's array, at an index within its range.
    #[inline(always)]
    pub(crate) fn set_element(&mut self, k: usize, at: i32, number: i32)
        requires { HasElementAt (look (slot k) self.old.slots) at }
        ensures written { (l : List ℤ) → look (slot k) self.old.slots ≡ Fine (Arr l) →
            write (slot k) (Arr (set_element l at number)) self.old.slots ≡ Fine self.new.slots }
        ensures shape { HasShape self.old self.new }
        ensures counted { self.new.writes ≡ self.old.writes + 1 }
    {
        self.memory.law();
        self.memory.set_element(k, at, number);
    }

    /// One number more, on top of the k-th name's stack.
    #[inline(always)]
    pub(crate) fn push(&mut self, k: usize, number: i32)
        requires stack { IsStack (look (slot k) self.old.slots) }
        requires room { values_there self.old < value_limit }
        ensures written { (l : List ℤ) → look (slot k) self.old.slots ≡ Fine (Stk l) → write (slot k) (Stk (number ∷ l)) self.old.slots ≡ Fine self.new.slots }
        ensures shape { HasShape self.old self.new }
        ensures counted { self.new.writes ≡ self.old.writes + 1 }
    {
        self.memory.law();
        self.memory.push(k, number);
    }

    /// Takes the number from the top of the k-th name's stack, which isn't empty.
    #[inline(always)]
    pub(crate) fn pop(&mut self, k: usize) -> i32
        requires { IsHeldStack (look (slot k) self.old.slots) }
        ensures top { (n : ℤ) (l : List ℤ) → look (slot k) self.old.slots ≡ Fine (Stk (n ∷ l)) → result ≡ n }
        ensures written { (n : ℤ) (l : List ℤ) → look (slot k) self.old.slots ≡ Fine (Stk (n ∷ l)) →
            write (slot k) (Stk l) self.old.slots ≡ Fine self.new.slots }
        ensures shape { HasShape self.old self.new }
        ensures counted { self.new.writes ≡ self.old.writes + 1 }
    {
        self.memory.law();
        match self.memory.pop(k) {
            Some(number) => number,
            None => unreachable!(),
        }
    }

    /// Opens a name with a number.
    #[inline(always)]
    pub(crate) fn open(&mut self, number: i32, moves: &Moves<L>)
        requires { names_there self.old < self.old.room }
        ensures { self.new ≡ with_names (Slot (slot (size_of self.old.slots)) (Num number) self.old.slots) self.old }
    {
        self.memory.law();
        self.memory.reach(self.top + 1);
        self.memory.law();
        self.memory
            .put_number(self.top - self.memory.base(), number, moves);
        self.top += 1;
    }

    /// Opens a name with an empty stack.
    pub(crate) fn open_stack(&mut self)
        requires room { names_there self.old < self.old.room }
        requires few { stacks_there self.old < live_stack_limit }
        ensures { self.new ≡ with_names (Slot (slot (size_of self.old.slots)) (Stk []) self.old.slots) self.old }
    {
        self.memory.law();
        self.memory.reach(self.top + 1);
        self.memory.law();
        self.memory.open_stack(self.top - self.memory.base());
        self.top += 1;
    }

    /// Opens a name with an array. An error for want of memory leaves the names.
    pub(crate) fn open_array(&mut self, items: Vec<i32>, moves: &Moves<L>) -> Result<(), AllocError>
        requires room { names_there self.old < self.old.room }
        ensures ok { OnOk result (self.new ≡ with_names (Slot (slot (size_of self.old.slots)) (Arr items.items) self.old.slots) self.old) }
        ensures err { OnErr result (self.new ≡ self.old) }
    {
        self.memory.law();
        self.memory.reach(self.top + 1);
        self.memory.law();
        self.memory.put_array(self.top, items, moves)?;
        self.top += 1;
        Ok(())
    }

    /// Opens a name with what it is declared as. An error for want of memory leaves the names.
    pub(crate) fn declare(&mut self, declared: Declared, moves: &Moves<L>) -> Result<(), AllocError>
        requires room { names_there self.old < self.old.room }
        requires few { first_of declared ≡ Stk [] → stacks_there self.old < live_stack_limit }
        ensures ok { OnOk result (self.new ≡ with_names (Slot (slot (size_of self.old.slots)) (first_of declared) self.old.slots) self.old) }
        ensures err { OnErr result (self.new ≡ self.old) }
    {
        match declared {
            Declared::Number => self.open(0, moves),
            Declared::Array(items) => return self.open_array(items, moves),
            Declared::Stack => self.open_stack(),
        }
        Ok(())
    }

    /// Takes the newest name away, which has the value that it was opened with: 0, zeros, or an empty stack.
    pub(crate) fn retire(&mut self, moves: &Moves<L>)
        requires first { IsFirstOnTop self.old.slots }
        requires own { own_names 0 self.old.callers < size_of self.old.slots }
        ensures { self.new ≡ with_names (rest_of self.old.slots) self.old }
    {
        self.memory.law();
        self.top -= 1;
        self.memory.release(self.top, moves);
    }

    /// So many cells of the frame in sight are for names, and those behind them are for results.
    #[inline(always)]
    pub(crate) fn tell_names(&mut self, names: u32, moves: &Moves<L>)
        ensures { self.new ≡ record self.old { results = names_lent self.old.callers + names } }
    {
        let base = self.memory.base();
        self.memory.law();
        self.memory.tell_results(base + names as usize, moves);
    }

    /// Instructions of a row from one on, with the ticks before them, as long as steps enough are left of m.
    #[inline(always)]
    pub(crate) fn run_on(&mut self, row: &Row, at: usize, m: u64) -> Reached
        requires row { IsRow row.now.instructions.items }
        requires fits { Fits row.now.names row.now.width row.now.instructions.items row.now.spans.items row.now.primitives.items }
        requires body { IsBody row.now.instructions.items at }
        requires room { HasCellRoom row.now self.old }
        requires told { self.old.results ≡ names_lent self.old.callers + row.now.names }
        requires sound { IsSafeRunOn row.now at m (undeclared self.old) }
        ensures there { IsBody row.now.instructions.items result.at }
        ensures left { result.left ≤ m }
        // Not even the ticks of the first instruction are counted twice.
        ensures moved { result.left + lead_at row.now.instructions.items at ≤ m + lead_at row.now.instructions.items result.at }
        ensures run { RunsOn row.now at m result (undeclared self.old) (undeclared self.new) }
        ensures size { size_of self.new.slots ≡ sight_of row.now result.at }
        ensures kept { KeepsCalls self.old self.new }
        ensures written { IsWritten (m - (result.left + lead_at row.now.instructions.items at)) self.old.writes self.new.writes }
        // Only a counted write gives a name another value.
        ensures unwritten { self.new.writes ≡ self.old.writes → KeepsValues self.old.slots self.new.slots }
        ensures stays { m ≤ result.left + lead_at row.now.instructions.items at → (self.new ≡ self.old) × (result.at ≡ at) × (result.left ≡ m) }
    {
        fits_wider_law();
        let base = self.memory.base();
        self.memory.law();
        self.memory.reach(base + row.width as usize);
        self.memory.law();
        let reached = run_over(
            &row.instructions,
            &row.spans,
            &row.primitives,
            at,
            &mut self.memory,
            m,
        );
        self.memory.law();
        self.top = base + sight_there(row, reached.at);
        reached
    }

    /// The step of one instruction of a row, which is no tick; where it is not taken, the names stay.
    pub(crate) fn run_one(&mut self, row: &Row, at: usize) -> Result<usize, Stop>
        requires row { IsRow row.now.instructions.items }
        requires fits { Fits row.now.names row.now.width row.now.instructions.items row.now.spans.items row.now.primitives.items }
        requires body { IsBody row.now.instructions.items at }
        requires room { HasCellRoom row.now self.old }
        requires told { self.old.results ≡ names_lent self.old.callers + row.now.names }
        requires sound { (w : World) × IsRunnableOnce w row.now at (undeclared self.old) }
        ensures stands { IfOk result (λ next. next < length row.now.instructions.items) }
        ensures run { RunsOnce row.now at result (undeclared self.old) (undeclared self.new) }
        ensures size { IfOk result (λ next. size_of self.new.slots ≡ sight_of row.now (body_at row.now.instructions.items next)) }
        ensures kept { KeepsCalls self.old self.new }
        ensures counted { IsWrittenOnce (instruction_at row.now.instructions.items at).op result self.old.writes self.new.writes }
        ensures stays { OnErr result (self.new ≡ self.old) }
    {
        fits_wider_law();
        let base = self.memory.base();
        self.memory.law();
        self.memory.reach(base + row.width as usize);
        self.memory.law();
        let taken = take_one_over(
            &row.instructions,
            &row.spans,
            &row.primitives,
            at,
            &mut self.memory,
        );
        self.memory.law();
        match taken {
            Ok(next) => {
                self.top = base + sight_at(row, next);
                Ok(next)
            }
            Err(stop) => Err(stop),
        }
    }

    /// Enters a call of these arguments.
    #[inline(always)]
    pub(crate) fn enter(&mut self, args: &Args, moves: &Moves<L>)
        requires found { CanLend (names_of args.now) self.old.slots }
        requires calls { length self.old.callers < call_limit }
        requires room { names_there self.old + length (slots_of args.now) ≤ self.old.room }
        ensures entered { Enters (names_of args.now) self.old.slots self.old.callers self.new.slots self.new.callers }
        ensures room { self.new.room ≡ self.old.room }
        ensures unwritten { self.new.writes ≡ self.old.writes }
    {
        let slots = args.slots();
        let base = self.memory.base();
        self.memory.law();
        self.memory.reach(self.top + slots.len());
        lend(&mut self.memory, moves, base, self.top, slots);
        self.calls.push_reserved(OpenCall { args: *args, base });
        self.memory.set_base(self.top);
        self.top += slots.len();
    }

    /// Leaves the innermost call, of which no local is open.
    #[inline(always)]
    pub(crate) fn leave(&mut self, moves: &Moves<L>)
        requires { AreAlone self.old.callers self.old.slots }
        ensures left { Returns self.old.callers self.old.slots self.new.slots self.new.callers }
        ensures room { self.new.room ≡ self.old.room }
        ensures unwritten { self.new.writes ≡ self.old.writes }
    {
        match self.calls.pop() {
            Some(call) => {
                let base = self.memory.base();
                give_back(&mut self.memory, moves, call.base, base, call.args.slots());
                self.top = base;
                self.memory.set_base(call.base);
            }
            None => unreachable!(),
        }
    }
}

/// How many names are in sight at a place of a row.
#[inline(always)]
fn sight_at(row: &Row, at: usize) -> usize
    requires row { IsRow row.now.instructions.items }
    requires here { at < length row.now.instructions.items }
    ensures sight { result ≡ sight_of row.now (body_at row.now.instructions.items at) }
    ensures there { body_at row.now.instructions.items at < length row.now.instructions.items }
{
    let body = body_of(&row.instructions, at);
    match row.sights.get(body) {
        Some(sight) => *sight as usize,
        None => 0,
    }
}

/// How many names are in sight at an instruction of a row.
#[inline(always)]
fn sight_there(row: &Row, at: usize) -> usize
    ensures { result ≡ sight_of row.now at }
{
    match row.sights.get(at) {
        Some(sight) => *sight as usize,
        None => 0,
    }
}

/// The place at which the k-th of the outermost names is found, where the frame in sight begins at `base`.
fn place_shown(calls: &[OpenCall], base: usize, k: usize) -> usize
    requires calls { AreLow (2 ^ 63) calls.now }
    requires base { base < 2 ^ 63 }
    requires low { k < 2 ^ 63 }
    ensures { (v : ℕ → Val) → through v (from v base) (reverse calls.now) k ≡ v result }
{
    let mut slot = k;
    for i in 0..calls.len() {
        let call = &calls[i];
        match place_in(call.args.slots(), slot) {
            Some(place) => slot = call.args.count - (place + 1),
            None => return call.base + slot,
        }
    }
    base + slot
}

/// The place of a slot among arguments, if it is one of them.
fn place_in(args: &[u16], slot: usize) -> Option<usize>
    ensures some { IfSome result (λ i. (has args.now slot ≡ true) × (i ≡ place_in args.now slot)) }
    ensures none { result ≡ None → has args.now slot ≡ false }
{
    for i in 0..args.len() {
        if args[i] as usize == slot {
            return Some(i);
        }
    }
    None
}
