//! The book of what came on one connection.
ghost use Rattle.std.specs.Prelude.{◌≡◌, ◌+◌, ◌-◌, ◌<◌, ◌≤◌, ◌↔◌, IsTrue, false, if◌then◌else◌};
ghost use Rattle.kernel_sockets.specs.declared.shares.TheConstants.{OWN_OCTETS};
ghost use Rattle.kernel_sockets.specs.Shares.{left_of, settles, IsWithin};

use crate::presence::Noted;
use crate::shares::{Allowance, OWN_OCTETS, Share, Strangers};
use std::sync::Wait;
use std::sync::ledger::Ledger;

/// How much a stranger may bring on a connection.
#[derive(Clone, Copy, PartialEq, Eq)]
pub enum Quota {
    /// Its own share, and of the common one what others left.
    Common,
    /// The same, and so many octets at most.
    Within(u64),
    /// Its own share alone, and what was sent back counts no longer: nobody needs more for a heartbeat.
    Own,
}

impl Quota {
    /// Whether all that came is counted no longer, where it was answered or wasn't.
    fn settles(self, was_answered: bool) -> bool
        ensures { result ≡ settles self was_answered }
    {
        match self {
            Quota::Own => was_answered,
            Quota::Common | Quota::Within(_) => false,
        }
    }
}

/// What came on one connection, as long as it is counted: while no message with a valid signature came on it, less what was answered. It can't be let go of:
/// [`Account::close`] alone takes it, and gives the allowance back.
pub struct Account<'a, S: Ledger> {
    strangers: &'a Strangers<S>,
    pub quota: Quota,
    pub share: Share<S>,
}

impl<'a, S: Ledger> Account<'a, S> {
    /// That of a connection on which nothing came.
    pub fn new(strangers: &'a Strangers<S>, quota: Quota, allowance: Allowance<S>) -> Account<'a, S>
        ensures nothing { result.share.brought ≡ 0 }
        ensures quota { result.quota ≡ quota }
    {
        Account {
            strangers,
            quota,
            share: Share::new(allowance),
        }
    }

    /// Counts `count` octets more, if it may bring them; false if it may not.
    fn bring<R: Wait>(&mut self, rt: &R, count: u64) -> bool
        ensures brought { IsTrue result → self.new.share.brought ≡ self.old.share.brought + count }
        ensures same { result ≡ false → self.new.share.brought ≡ self.old.share.brought }
        ensures within { IsTrue result → IsWithin self.old.quota self.new.share.brought }
        ensures quota { self.new.quota ≡ self.old.quota }
    {
        match self.quota {
            Quota::Common => self.strangers.bring(rt, &mut self.share, count),
            Quota::Within(most) => {
                self.share.may_bring(count, most)
                    && self.strangers.bring(rt, &mut self.share, count)
            }
            Quota::Own => self.share.bring_own(count),
        }
    }

    /// Counts no longer what was answered: all that came, or `answered` octets of it.
    fn let_go<R: Wait>(&mut self, rt: &R, is_all: bool, answered: u64)
        ensures left { self.new.share.brought ≡ (if is_all then 0 else self.old.share.brought - answered) }
        ensures quota { self.new.quota ≡ self.old.quota }
    {
        if is_all {
            self.strangers.settle(rt, &mut self.share);
        } else if answered > 0 {
            self.strangers.give_back(rt, &mut self.share, answered);
        }
    }

    /// Counts octets that came, before anything of them is kept, and tells whether they may be, by what was noted of the connection until now. Nothing is
    /// counted of who showed the key, and what was answered no longer is. Otherwise these octets are counted beside what is left of those before; or none
    /// of them, and then they may not be kept. No more is counted than the quota of the connection lets it bring.
    pub fn enter<R: Wait>(&mut self, rt: &R, noted: Noted, count: u64) -> bool
        ensures trusted { IsTrue noted.is_trusted → IsTrue result × (self.new.share.brought ≡ 0) }
        ensures brought { noted.is_trusted ≡ false → IsTrue result
            → self.new.share.brought ≡ left_of self.old.quota noted self.old.share.brought + count }
        ensures refused { noted.is_trusted ≡ false → result ≡ false
            → self.new.share.brought ≡ left_of self.old.quota noted self.old.share.brought }
        ensures within { noted.is_trusted ≡ false → IsTrue result → IsWithin self.old.quota self.new.share.brought }
        ensures quota { self.new.quota ≡ self.old.quota }
    {
        let is_all = noted.is_trusted || self.quota.settles(noted.was_answered);
        self.let_go(rt, is_all, noted.answered);
        noted.is_trusted || self.bring(rt, count)
    }

    /// Whether more is counted than its own share has.
    pub fn is_past_own(&self) -> bool
        ensures { IsTrue result ↔ OWN_OCTETS < self.now.share.brought }
    {
        self.share.brought > OWN_OCTETS
    }

    /// The connection has come to its end: nothing of what came on it is counted any longer, and its place has its allowance again.
    pub fn close<R: Wait>(self, rt: &R) -> Allowance<S> {
        let Account {
            strangers,
            quota: _,
            share,
        } = self;
        strangers.end(rt, share)
    }
}
