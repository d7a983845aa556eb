//! What strangers hold: connections on which no message with a valid signature came.
ghost use Rattle.std.specs.Prelude.{◌≡◌, ◌+◌, ◌-◌, ◌≤◌, ◌<◌, ◌↔◌, IsTrue, true, false, IfSome, IfNone};
ghost use Rattle.kernel_sockets.specs.declared.shares.TheConstants.{OWN_OCTETS};
ghost use Rattle.kernel_sockets.specs.Shares.{common_of};

use std::sync::ledger::{Blank, Book, Ledger, Share as Part};
use std::sync::{Mutex, Wait};

/// The octets that each stranger may bring, whatever others do: enough for a first message, which shows the key.
pub const OWN_OCTETS: u64 = 8_192;

/// The most octets of a stranger that are read at once. A whole message of one empty frame has two octets and takes 136 in the lists that it passes through
/// until it is dropped, so those of one read take 34 KiB.
pub const READ_OCTETS: usize = 512;

/// The octets that all strangers together may bring beyond their own shares, where nothing else is said.
///
/// What they hold by it stays below 64 MiB. An octet takes four at most: a frame is gathered in room for twice its octets, its body is a copy, and so is a
/// prefix that is kept. That is 16 MiB. An own share takes 128 KiB at most, as 1,024 frames of a message that isn't whole: 74 KiB for their list as it
/// grows, 32 for each with a body of its own, and the room in which they are gathered; of the 160 who may be strangers at once that is 20 MiB. The messages
/// of one read take 34 KiB, of 160 at once 5.4 MiB. The 4,096 prefixes of a subscriber take 512 KiB at most beside their octets, and those of 32 subscribers
/// 16 MiB. All that is 57.4 MiB. What goes out is not in it, and neither is a ping that was answered, of which nothing is kept.
pub const COMMON_OCTETS: u32 = 4_194_304;

/// How much strangers hold together past their own shares. Its type keeps that it is no more than there is, and that it is the sum of what each of
/// them holds: the book has the total of all parts of its ledger.
#[derive(Drop)]
pub struct Common<S: Ledger> {
    pub held: u64,
    /// The most that they may hold so.
    pub most: u32,
    book: Book<S>,
    /// The parts of the ledger that no place has, and how many they are.
    rest: Part<S>,
    pub left: u64,
    ghost within: { held ≤ most },
    ghost summed: { held ≡ book.total },
    ghost parts: { rest.parts ≡ left },
    ghost idle: { rest.amount ≡ 0 },
}

/// What a place has for a connection: a part of the ledger by which nothing is held.
#[derive(Drop)]
pub struct Allowance<S: Ledger> {
    part: Part<S>,
    ghost one: { part.parts ≡ 1 },
    ghost empty: { part.amount ≡ 0 },
}

/// What a stranger brought. Its type keeps that the ledger counts what of that lies past its own share. It can't be let go of: [`Strangers::end`] alone
/// takes it, and gives the allowance back.
pub struct Share<S: Ledger> {
    pub brought: u64,
    part: Part<S>,
    ghost one: { part.parts ≡ 1 },
    ghost counted: { part.amount ≡ common_of brought },
}

impl<S: Ledger> Share<S> {
    /// That of a connection on which nothing came.
    pub fn new(allowance: Allowance<S>) -> Share<S>
        ensures { result.brought ≡ 0 }
    {
        let Allowance { part } = allowance;
        Share { brought: 0, part }
    }

    /// Brings `count` octets more where that stays within its own share; whether it does. Nothing changes where it doesn't.
    pub fn bring_own(&mut self, count: u64) -> bool
        ensures own { IsTrue result ↔ self.old.brought + count ≤ OWN_OCTETS }
        ensures brought { IsTrue result → self.new.brought ≡ self.old.brought + count }
        ensures same { result ≡ false → self.new.brought ≡ self.old.brought }
    {
        if self.brought > OWN_OCTETS || count > OWN_OCTETS - self.brought {
            return false;
        }
        self.brought += count;
        true
    }

    /// Whether it may bring `count` octets more where `most` are the most that it may bring.
    pub fn may_bring(&self, count: u64, most: u64) -> bool
        ensures { IsTrue result ↔ self.now.brought + count ≤ most }
    {
        self.brought <= most && count <= most - self.brought
    }

    /// How much of it lies past its own share.
    fn common(&self) -> u64
        ensures { result ≡ common_of self.now.brought }
    {
        self.brought.saturating_sub(OWN_OCTETS)
    }

    /// The allowance of a connection of which nothing is held.
    fn into_allowance(self) -> Allowance<S>
        requires { self.brought ≡ 0 }
    {
        let Share { brought: _, part } = self;
        Allowance { part }
    }
}

impl<S: Ledger> Common<S> {
    /// Nobody holds anything, each of `places` places may have an allowance, and `most` octets may be held.
    pub fn new(blank: Blank, places: u64, most: u32) -> Common<S>
        requires name { blank.name ≡ S.name }
        requires parts { (blank.parts ≡ S.parts) × (blank.parts ≡ places) }
        ensures held { result.held ≡ 0 }
        ensures most { result.most ≡ most }
        ensures left { result.left ≡ places }
    {
        let (book, rest) = blank.open::<S>();
        Common {
            held: 0,
            most,
            book,
            rest,
            left: places,
        }
    }

    /// An allowance for one place more; `None` where as many places have one as may.
    pub fn allowance(&mut self) -> Option<Allowance<S>>
        ensures some { IfSome result (λ _. self.old.left ≡ self.new.left + 1) }
        ensures none { IfNone result ((self.old.left ≡ 0) × (self.new.left ≡ 0)) }
        ensures held { self.new.held ≡ self.old.held }
        ensures most { self.new.most ≡ self.old.most }
    {
        if self.left == 0 {
            return None;
        }
        let part = self.rest.split_off(1, 0);
        self.left -= 1;
        Some(Allowance { part })
    }

    /// A stranger brings `count` octets more. False, and nothing changes, where strangers would hold too much together by that.
    pub fn bring(&mut self, share: &mut Share<S>, count: u64) -> bool
        ensures brought { IsTrue result → share.new.brought ≡ share.old.brought + count }
        ensures counted { self.new.held + common_of share.old.brought ≡ self.old.held + common_of share.new.brought }
        ensures same { result ≡ false → share.new.brought ≡ share.old.brought }
        ensures refused { result ≡ false → self.old.most + common_of share.old.brought < self.old.held + common_of (share.old.brought + count) }
        ensures most { self.new.most ≡ self.old.most }
    {
        let most = self.most as u64;
        let before = share.common();
        let Share { brought, part } = share;
        self.book.audit(part);
        let Some(after) = brought.checked_add(count) else {
            return false;
        };
        let more = after.saturating_sub(OWN_OCTETS) - before;
        if more > most - self.held {
            return false;
        }
        self.hold(part, more);
        *brought = after;
        true
    }

    /// Counts `more` that is held by a part of the ledger.
    fn hold(&mut self, part: &mut Part<S>, more: u64)
        requires room { self.old.held + more ≤ self.old.most }
        requires part { part.old.parts ≡ 1 }
        ensures held { self.new.held ≡ self.old.held + more }
        ensures amount { part.new.amount ≡ part.old.amount + more }
        ensures parts { part.new.parts ≡ part.old.parts }
        ensures left { self.new.left ≡ self.old.left }
        ensures most { self.new.most ≡ self.old.most }
    {
        self.book.add(part, more);
        self.held += more;
    }

    /// A stranger lets go of what it brought: it showed the key, or all of it was answered, or its connection ended.
    pub fn settle(&mut self, share: &mut Share<S>)
        ensures gone { share.new.brought ≡ 0 }
        ensures counted { self.new.held + common_of share.old.brought ≡ self.old.held }
        ensures most { self.new.most ≡ self.old.most }
    {
        let before = share.common();
        let Share { brought, part } = share;
        self.book.audit(part);
        self.book.sub(part, before);
        self.held -= before;
        *brought = 0;
    }

    /// A stranger lets go of `count` octets of what it brought, or of all where it brought fewer: these were answered, and are no longer kept.
    pub fn give_back(&mut self, share: &mut Share<S>, count: u64)
        ensures less { share.new.brought ≡ share.old.brought - count }
        ensures counted { self.new.held + common_of share.old.brought ≡ self.old.held + common_of share.new.brought }
        ensures most { self.new.most ≡ self.old.most }
    {
        let before = share.common();
        let Share { brought, part } = share;
        self.book.audit(part);
        let after = brought.saturating_sub(count);
        let less = before - after.saturating_sub(OWN_OCTETS);
        self.book.sub(part, less);
        self.held -= less;
        *brought = after;
    }
}

/// What strangers hold together, for all threads: [`Common`] under a lock, which no one asks who stays within its own share.
#[derive(Drop)]
pub struct Strangers<S: Ledger> {
    common: Mutex<Common<S>>,
}

impl<S: Ledger> Strangers<S> {
    /// Nobody holds anything, each of `places` places may have an allowance, and `most` octets may be held past their own shares.
    pub fn new(blank: Blank, places: u64, most: u32) -> Strangers<S>
        requires name { blank.name ≡ S.name }
        requires parts { (blank.parts ≡ S.parts) × (blank.parts ≡ places) }
    {
        Strangers {
            common: Mutex::new(Common::new(blank, places, most)),
        }
    }

    /// An allowance for one place more; `None` where as many places have one as may.
    pub fn allowance<R: Wait>(&self, rt: &R) -> Option<Allowance<S>> {
        let mut common = self.common.lock(rt);
        common.allowance()
    }

    /// A stranger brings `count` octets more: what `Common::bring` answers of what strangers hold as it is under the lock. No lock is taken for what
    /// stays within its own share.
    pub fn bring<R: Wait>(&self, rt: &R, share: &mut Share<S>, count: u64) -> bool
        ensures own { share.old.brought + count ≤ OWN_OCTETS → IsTrue result }
        ensures brought { IsTrue result → share.new.brought ≡ share.old.brought + count }
        ensures same { result ≡ false → share.new.brought ≡ share.old.brought }
    {
        if share.bring_own(count) {
            return true;
        }
        let mut common = self.common.lock(rt);
        common.bring(share, count)
    }

    /// A stranger lets go of what it brought, without a lock where that was within its own share.
    pub fn settle<R: Wait>(&self, rt: &R, share: &mut Share<S>)
        ensures { share.new.brought ≡ 0 }
    {
        if share.brought <= OWN_OCTETS {
            share.brought = 0;
            return;
        }
        let mut common = self.common.lock(rt);
        common.settle(share);
    }

    /// A stranger lets go of `count` octets of what it brought, without a lock where all that was within its own share.
    pub fn give_back<R: Wait>(&self, rt: &R, share: &mut Share<S>, count: u64)
        ensures { share.new.brought ≡ share.old.brought - count }
    {
        if share.brought > OWN_OCTETS {
            let mut common = self.common.lock(rt);
            common.give_back(share, count);
        } else {
            share.brought = share.brought.saturating_sub(count);
        }
    }

    /// A connection has come to its end. Its place has its allowance again, by whose type nothing is held any longer.
    pub fn end<R: Wait>(&self, rt: &R, share: Share<S>) -> Allowance<S> {
        let mut share = share;
        self.settle(rt, &mut share);
        share.into_allowance()
    }
}
