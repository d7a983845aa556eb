//! A place in code.

ghost use Rattle.std.specs.Prelude.{◌≡◌, ◌+◌, ◌-◌, ◌≤◌, ◌<◌, ◌^◌, ℕ, List, [], true, false, IfOk, vec_capacity};
ghost use Rattle.janus_meaning.specs.Stepping.{BeforeBlock as Before};
ghost use Rattle.janus_meaning.specs.Limit.{step_limit};
ghost use Rattle.janus_frames.specs.Limits.{call_limit};

use crate::book::Book;
use crate::direction::Direction;
use crate::running::running;
use janus_frames::{CALL_LIMIT, RoomFault};
use janus_meaning::limit::STEP_LIMIT;
use std::alloc::Global;

/// An open call.
#[derive(Clone, Copy)]
pub(crate) struct Call {
    /// The number of its procedure's name.
    pub(crate) procedure: usize,
    /// Where the call stands in the row of its caller's code as it is written.
    pub(crate) place: usize,
    /// Whether caller and callee face opposite ways.
    pub(crate) uncalled: bool,
    /// How many frames are open outside its caller's row.
    pub(crate) used: u32,
}

/// A place in the code of a book, or of the procedures that are called there.
#[derive(Drop)]
pub struct Cursor {
    pub(crate) direction: Direction,
    /// How many places of the row come behind this one.
    pub(crate) to_go: usize,
    /// The open calls, the innermost last.
    pub(crate) calls: Vec<Call>,
    /// How many frames are open outside the row.
    pub(crate) used: u32,
    /// How many steps from the entry of the block it stands.
    pub(crate) count: u64,
    /// It was turned round: its steps take those back that it had taken.
    pub(crate) turned: bool,
    pub ghost room: { call_limit ≤ vec_capacity calls },
}

impl Cursor {
    ghost use Rattle.janus_frames.specs.StoreState.{StoreState};
    ghost use Rattle.janus_frames.specs.Calls.{Caller};
    ghost use Rattle.janus_machine.specs.declared.procedures.Procedures as declared;
    ghost use Rattle.janus_machine.specs.declared.linked_code.LinkedCode.{LinkedCode};
    ghost use Rattle.janus_machine.specs.declared.direction.Direction.TheVariants.{Forward, Inverse};
    ghost use Rattle.janus_machine.specs.Places.{block_in};
    ghost use Rattle.janus_machine.specs.Cursors.{place_of, has_ended, IsStanding};
    ghost use Rattle.janus_machine.specs.Counts.{counted, IsAtEntry, TurnsRound};
    ghost use Rattle.janus_machine.specs.Cursor.{count_in, with_count, is_turned};
    ghost use Rattle.janus_machine.specs.Turns.{IsMirrored, AgreesMirrored};

    /// A cursor at no place of a book yet, with the memory of all calls that may be open. No step is taken.
    ///
    /// # Errors
    ///
    /// `RoomFault::Memory` where there is no memory for it.
    pub fn new(alloc: Global) -> Result<Cursor, RoomFault>
        ensures ended { IfOk result (λ cursor. has_ended cursor ≡ true) }
        ensures stands { IfOk result (λ cursor. (t : declared.Procedures) (b : LinkedCode) (h : StoreState) → h.callers ≡ [] → IsStanding t b cursor h) }
        ensures counts { IfOk result IsAtEntry }
    {
        let calls = Vec::with_capacity(alloc, CALL_LIMIT)?;
        Ok(Cursor {
            direction: Direction::Forward,
            to_go: 0,
            calls,
            used: 0,
            count: 0,
            turned: false,
        })
    }

    /// How many steps from the entry of the block it stands. Once the cursor is turned, its steps take them back.
    pub fn count(&self) -> u64
        ensures { result ≡ count_in self.now }
    {
        self.count
    }

    /// Goes before the block of a book's code. No call is open then.
    pub fn enter(&mut self, book: &Book<'_>)
        ensures stands { (t : declared.Procedures) (h : StoreState) → h.callers ≡ [] → IsStanding t book.now.code.now self.new h }
        ensures place { (t : declared.Procedures) (hs : List Caller) →
            place_of t book.now.code.now self.new hs ≡ Before (block_in book.now.code.now Forward) [] }
        ensures counts { IsAtEntry self.new }
    {
        self.calls.clear();
        self.used = 0;
        self.direction = Direction::Forward;
        self.to_go = book.code.forward.last();
        self.count = 0;
        self.turned = false;
    }

    /// Goes before the block of a book's inverse code. No call is open then.
    pub fn enter_inverse(&mut self, book: &Book<'_>)
        ensures stands { (t : declared.Procedures) (h : StoreState) → h.callers ≡ [] → IsStanding t book.now.code.now self.new h }
        ensures place { (t : declared.Procedures) (hs : List Caller) →
            place_of t book.now.code.now self.new hs ≡ Before (block_in book.now.code.now Inverse) [] }
        ensures counts { IsAtEntry self.new }
    {
        self.calls.clear();
        self.used = 0;
        self.direction = Direction::Inverse;
        self.to_go = book.code.inverse.last();
        self.count = 0;
        self.turned = false;
    }

    /// Whether the whole block has been left.
    pub fn is_ended(&self) -> bool
        ensures { result ≡ has_ended self.now }
    {
        self.to_go == 0 && self.calls.is_empty()
    }

    /// Turns round where it stands: the steps from here go back by the way that the cursor came, through the open calls too.
    pub fn mirror(&mut self, book: &Book<'_>)
        ensures stands { (h : StoreState) → IsStanding book.now.procedures.now book.now.code.now self.old h →
            IsStanding book.now.procedures.now book.now.code.now self.new h }
        ensures place { IsMirrored book.now.procedures.now book.now.code.now self.old self.new }
        ensures agrees { AgreesMirrored book.now.procedures.now book.now.code.now self.old self.new }
        ensures counts { TurnsRound self.old self.new }
    {
        let code = running(book.procedures, book.code, &self.calls).laid(self.direction);
        self.to_go = code.last().saturating_sub(self.to_go);
        self.direction = self.direction.opposite();
        self.turned = !self.turned;
    }

    /// How many steps may be taken before the limit: the way back has none.
    pub(crate) fn steps_left(&self) -> u64
        requires few { count_in self.now ≤ step_limit }
        ensures forward { is_turned self.now ≡ false → result ≡ step_limit - count_in self.now }
        ensures back { is_turned self.now ≡ true → result ≡ 2 ^ 64 - 1 }
    {
        if self.turned {
            u64::MAX
        } else {
            STEP_LIMIT - self.count
        }
    }

    /// Counts `taken` steps more.
    pub(crate) fn add(&mut self, taken: u64)
        requires few { is_turned self.old ≡ false → count_in self.old + taken ≤ step_limit }
        ensures { (self.new ≡ with_count self.old (count_in self.new)) × (count_in self.new ≡ counted (is_turned self.old) (count_in self.old) taken) }
    {
        if self.turned {
            self.count = self.count.saturating_sub(taken);
        } else {
            self.count += taken;
        }
    }
}
