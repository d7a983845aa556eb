//! What a frontend holds.
ghost use Rattle.std.specs.Prelude.{◌≡◌, ◌+◌, ◌-◌, ◌^◌, ◌<◌, ◌≤◌, map};
ghost use mathlib.Core.List.{IsPrefix};
ghost use Rattle.kernel_ask.specs.Written.{entry_of};
ghost use Rattle.kernel_audit.specs.Passes.{pass_of, acted};

use crate::note::Note;
use kernel_ask::{Entry, Job};
use shared_history::{Beside, Front, HistoryName, Keeper};
use std::marker::Model;
use std::sync::ledger::{Book, Share};

/// A frontend's pass: its lane, how many posts it made, which its share of the ledger counts too, how many acts, and the beginnings of the minutes and of the
/// notes beside them that it has seen. The type parameter names the ledger and the histories, so that a pass fits its own hall alone.
#[derive(Drop)]
pub struct Pass<L: HistoryName> {
    lane: u32,
    posts: u64,
    /// Shutdowns, changes of the comms, and ends that it was told.
    acts: u64,
    share: Share<L>,
    front: Front<Entry, L>,
    notes: Front<Note, Beside<L>>,
}

impl<L: HistoryName> Model for Pass<L> {
    ghost use Rattle.std.specs.Prelude.{◌≡◌, map};
    ghost use Rattle.kernel_ask.specs.Written.{entry_of};
    ghost use Rattle.kernel_audit.specs.Passes.{PassOf, pass_of};

    ghost Value = { PassOf };

    ghost view = { λ p. pass_of p.lane p.posts p.acts (map entry_of p.front) p.notes };

    ghost invariant = { λ p. (p.share.parts ≡ 1) × (p.share.amount ≡ p.posts) };
}

impl<L: HistoryName> Pass<L> {
    /// A pass on this lane, with no posts and no acts, around one part of the ledger. It has seen what the fronts have.
    pub fn new(
        lane: u32,
        share: Share<L>,
        front: Front<Entry, L>,
        notes: Front<Note, Beside<L>>,
    ) -> Pass<L>
        requires part { share.parts ≡ 1 }
        requires empty { share.amount ≡ 0 }
        ensures { result ≡ pass_of lane 0 0 (map entry_of front) notes }
    {
        Pass {
            lane,
            posts: 0,
            acts: 0,
            share,
            front,
            notes,
        }
    }

    /// Counts one more post, in the ledger's book too.
    pub fn count(&mut self, book: &mut Book<L>)
        requires room { book.old.total < 2 ^ 64 - 1 }
        ensures pass { self.new ≡ pass_of self.old.lane (self.old.posts + 1) self.old.acts self.old.front self.old.notes }
        ensures book { book.new.total ≡ book.old.total + 1 }
    {
        let Pass { posts, share, .. } = self;
        book.audit(share);
        book.add(share, 1);
        *posts += 1;
    }

    /// Counts one more act.
    pub fn act(&mut self)
        ensures { self.new ≡ acted self.old }
    {
        self.acts = self.acts.wrapping_add(1);
    }

    /// Sees all entries of the history, and all notes. Those that it had seen are beginnings of them, and the book has counted its posts.
    pub fn see(
        &mut self,
        book: &mut Book<L>,
        history: &mut Keeper<Entry, L>,
        notes: &mut Keeper<Note, Beside<L>>,
    )
        ensures pass { self.new ≡ pass_of self.old.lane self.old.posts self.old.acts (map entry_of history.old) notes.old }
        ensures onward { IsPrefix self.old.front self.new.front }
        ensures noted { IsPrefix self.old.notes self.new.notes }
        ensures counted { self.new.posts ≤ book.old.total }
        ensures book { book.new.total ≡ book.old.total }
        ensures history { history.new ≡ history.old }
        ensures notes { notes.new ≡ notes.old }
    {
        let Pass {
            share,
            front,
            notes: noted,
            ..
        } = self;
        book.audit(share);
        front.see(history);
        noted.see(notes);
    }

    /// The number of the frontend that posts with it.
    pub fn lane(&self) -> u32
        ensures { result ≡ self.now.lane }
    {
        self.lane
    }

    /// How many posts it made.
    pub fn posts(&self) -> u64
        ensures { result ≡ self.now.posts }
    {
        self.posts
    }
}

/// That a post was taken: whose it is, which of that pass's posts it is, its number and its job.
#[derive(Drop)]
pub struct Ticket {
    pub lane: u32,
    pub nth: u64,
    pub number: u64,
    pub job: Job,
}
