//! What the two halves of a subscriber's connection share.
ghost use Rattle.std.specs.Prelude.{◌≡◌, ◌≢◌, ℕ, ◌+◌, ◌-◌, ◌<◌, ◌≤◌, ◌⊎◌, List, [], IsTrue, IfErr, IfOk, OnOk, OnErr, vec_len};
ghost use Rattle.zmtp_peer.specs.declared.role.Role.TheVariants.{Pub};
ghost use Rattle.zmtp_peer.specs.Events.{Event};
ghost use Rattle.zmtp_peer.specs.Reading.{Stands};
ghost use Rattle.zmtp_wire.specs.Message.{bodies_of};
ghost use Rattle.kernel_iopub.specs.Round.{AreWanted, WasFed, IsChosen};
ghost use Rattle.kernel_iopub.specs.Pings.{HasAsked, WereAsked, BringsPings};
ghost use Rattle.kernel_iopub.specs.declared.subscriber.TheConstants.{PREFIX_LIMIT, PREFIX_OCTET_LIMIT};

use crate::bulletin::Bulletin;
use crate::fault::SubscriberFault;
use crate::news::{News, news_of};
use crate::signals::Signals;
use kernel_board::{Broadcast, Place};
use std::alloc::Global;
use std::mem;
use std::sync::ledger::{Blank, Book, Ledger, Share};
use std::sync::{Mutex, Wait};
use zmtp_peer::{Peer, PeerFault, Role};
use zmtp_wire::WireFault;

/// The most prefixes that a connection may subscribe to over its life: each is kept, and whoever connects may have no key.
pub const PREFIX_LIMIT: u32 = 4096;

/// The most octets that those prefixes may have together.
pub const PREFIX_OCTET_LIMIT: usize = 1_048_576;

/// The number of unanswered pings at which a connection ends.
const UNANSWERED_PING_LIMIT: usize = 64;

/// The peer, and how far it is. Its type keeps that the peer is a publisher's, and stands as some octets from the first of a connection on have it.
#[derive(Drop)]
pub struct Subscriber<L: Ledger> {
    alloc: Global,
    peer: Peer,
    ghost publishes: { peer.role ≡ Pub },
    ghost fed: { WasFed peer },
    /// The contexts of its pings that the writing half has not taken yet, in their order.
    pings: Vec<Vec<u8>>,
    /// How many of its pings the writing half took: as many as the share of the ledger has that it keeps.
    taken: Book<L>,
    /// No ping is lost: none came for which there was no memory.
    is_whole: bool,
    ghost asked: { IsTrue is_whole → HasAsked peer taken.total (bodies_of pings.items) },
    /// How many of its pings are not answered yet.
    unanswered: usize,
    /// The place on the board at which it joined, once it was ready.
    joined: Option<Place>,
    /// Nothing more comes from it.
    is_silent: bool,
    /// How many prefixes it has subscribed to over its life, and how many octets they have together.
    prefixes: u32,
    prefix_octets: usize,
    ghost few_prefixes: { prefixes ≤ PREFIX_LIMIT },
    ghost short_prefixes: { prefix_octets ≤ PREFIX_OCTET_LIMIT },
}

/// What the writing half finds.
#[derive(Clone, Copy)]
pub(crate) struct Sight {
    pub joined: Option<Place>,
    pub is_silent: bool,
}

impl<L: Ledger> Subscriber<L> {
    /// A subscriber from which nothing has come, and the share of the half that writes to it: it has every part of the ledger, and took no ping yet.
    pub fn new(alloc: Global, blank: Blank) -> (Subscriber<L>, Share<L>)
        requires name { blank.name ≡ L.name }
        requires parts { blank.parts ≡ L.parts }
        ensures whole { result.1.parts ≡ L.parts }
        ensures none { result.1.amount ≡ 0 }
    {
        let (taken, share) = blank.open::<L>();
        let subscriber = Subscriber {
            alloc,
            peer: Peer::new(alloc, Role::Pub),
            pings: Vec::new(alloc),
            taken,
            is_whole: true,
            unanswered: 0,
            joined: None,
            is_silent: false,
            prefixes: 0,
            prefix_octets: 0,
        };
        (subscriber, share)
    }

    /// What this end sends first.
    pub fn opening(&self) -> Result<Vec<u8>, SubscriberFault> {
        match self.peer.opening() {
            Ok(opening) => Ok(opening),
            Err(_) => Err(SubscriberFault::Memory),
        }
    }

    /// Counts what came.
    ///
    /// # Errors
    /// `TooMuch` if a limit of the prefixes or of the pings without an answer would be passed, and no other; then nothing is counted.
    fn count(&mut self, news: News) -> Result<(), SubscriberFault>
        ensures same { (self.new.peer ≡ self.old.peer) × (self.new.pings ≡ self.old.pings) }
        ensures unanswered { OnOk result ((self.new.unanswered ≡ self.old.unanswered + news.pings) × (self.new.unanswered < UNANSWERED_PING_LIMIT)) }
        ensures prefixes { OnOk result (self.new.prefixes ≡ self.old.prefixes + news.prefixes) }
        ensures prefix_octets { OnOk result (self.new.prefix_octets ≡ self.old.prefix_octets + news.prefix_octets) }
        ensures too_much { OnErr result ((UNANSWERED_PING_LIMIT ≤ self.old.unanswered + news.pings)
            ⊎ ((PREFIX_LIMIT < self.old.prefixes + news.prefixes) ⊎ (PREFIX_OCTET_LIMIT < self.old.prefix_octets + news.prefix_octets))) }
    {
        let prefixes = self.prefixes.saturating_add(news.prefixes);
        let prefix_octets = self.prefix_octets.saturating_add(news.prefix_octets);
        let unanswered = self.unanswered.saturating_add(news.pings);
        if prefixes > PREFIX_LIMIT
            || prefix_octets > PREFIX_OCTET_LIMIT
            || unanswered >= UNANSWERED_PING_LIMIT
        {
            return Err(SubscriberFault::TooMuch);
        }
        self.prefixes = prefixes;
        self.prefix_octets = prefix_octets;
        self.unanswered = unanswered;
        Ok(())
    }

    /// The contexts of the pings that wait, in their order. None waits behind this, and each counts as unanswered as before. The share counts them: it has
    /// all that were taken.
    fn give_pings(&mut self, share: &mut Share<L>) -> Vec<Vec<u8>>
        requires whole { IsTrue self.old.is_whole }
        requires share { (share.old.parts ≡ L.parts) × (0 < share.old.parts) }
        ensures all { result ≡ self.old.pings }
        ensures asked { WereAsked share.old.amount (bodies_of result.items) }
        ensures taken { share.new.amount ≡ share.old.amount + vec_len result }
        ensures parts { share.new.parts ≡ share.old.parts }
        ensures none { self.new.pings.items ≡ [] }
        ensures unanswered { self.new.unanswered ≡ self.old.unanswered }
        ensures peer { self.new.peer ≡ self.old.peer }
    {
        self.taken.audit(share);
        self.taken.add(share, self.pings.len() as u64);
        mem::replace(&mut self.pings, Vec::new(self.alloc))
    }

    /// So many pings more were answered.
    fn answered(&mut self, count: usize)
        ensures fewer { self.new.unanswered ≡ self.old.unanswered - count }
        ensures same { (self.new.peer ≡ self.old.peer) × (self.new.pings ≡ self.old.pings) }
    {
        self.unanswered = self.unanswered.saturating_sub(count);
    }

    /// Feeds the peer what came. As it is ready it joins the board. What came: the pings in it wait behind the others, and each counts as unanswered.
    fn take<R: Wait>(
        &mut self,
        rt: &R,
        bulletin: &Bulletin,
        piece: &[u8],
    ) -> Result<News, SubscriberFault>
        ensures pings { IfOk result (λ news. BringsPings self.old.peer piece.now self.new.peer (bodies_of self.old.pings.items)
            (bodies_of self.new.pings.items) news.pings) }
        ensures unanswered { IfOk result (λ news. self.new.unanswered ≡ self.old.unanswered + news.pings) }
    {
        let news = match feed(self.alloc, &mut self.peer, &mut self.pings, piece) {
            Ok(news) => news,
            Err(SubscriberFault::Memory) => {
                self.is_whole = false;
                return Err(SubscriberFault::Memory);
            }
            Err(fault) => return Err(fault),
        };
        self.count(news)?;
        if news.is_ready {
            self.joined = Some(bulletin.join(rt));
        }
        Ok(news)
    }
}

/// Feeds a peer what came, and adds the contexts of its pings to those that wait. What came.
fn feed(
    alloc: Global,
    peer: &mut Peer,
    pings: &mut Vec<Vec<u8>>,
    piece: &[u8],
) -> Result<News, SubscriberFault>
    ensures role { peer.new.role ≡ peer.old.role }
    ensures fed { WasFed peer.old → WasFed peer.new }
    // None of those that wait is lost, but where memory is wanted.
    ensures asked { OnOk result ((taken : ℕ) → HasAsked peer.old taken (bodies_of pings.old.items) → HasAsked peer.new taken (bodies_of pings.new.items)) }
    ensures still { IfErr result (λ fault. fault ≢ SubscriberFault.Memory → (taken : ℕ)
        → HasAsked peer.old taken (bodies_of pings.old.items) → HasAsked peer.new taken (bodies_of pings.new.items)) }
    ensures told { IfOk result (λ news. BringsPings peer.old piece.now peer.new (bodies_of pings.old.items) (bodies_of pings.new.items) news.pings) }
{
    let events = match peer.feed(piece) {
        Ok(events) => events,
        Err(PeerFault::Wire(WireFault::Memory)) => return Err(SubscriberFault::Memory),
        Err(fault) => return Err(SubscriberFault::Peer(fault)),
    };
    let is_none = events.is_empty();
    let mut contexts = Vec::new(alloc);
    let news = match news_of(events, &mut contexts) {
        Ok(news) => news,
        Err(fault) => return Err(fault),
    };
    let told = contexts.len();
    match pings.append(&mut contexts) {
        Ok(()) => Ok(News {
            pings: told,
            is_none,
            ..news
        }),
        Err(_) => Err(SubscriberFault::Memory),
    }
}

/// Those of the broadcasts to which a peer has subscribed, in their order.
fn wanted_of(
    alloc: Global,
    peer: &Peer,
    broadcasts: &[Broadcast],
) -> Result<Vec<Broadcast>, SubscriberFault>
    ensures { IfOk result (λ kept. (fed : List ℕ) (given : List Event) → Stands fed given peer.now → AreWanted given broadcasts.now kept.items) }
{
    let mut kept: Vec<Broadcast> = Vec::new(alloc);
    for broadcast in broadcasts {
        if peer.wants(broadcast.topic()) {
            let Ok(copy) = broadcast.clone() else {
                return Err(SubscriberFault::Memory);
            };
            if kept.push(copy).is_err() {
                return Err(SubscriberFault::Memory);
            }
        }
    }
    Ok(kept)
}

/// Takes note of the pings that were answered, feeds the peer what came, and tells its fault. What came. It takes one lock.
pub(crate) fn take<L: Ledger, R: Wait>(
    rt: &R,
    bulletin: &Bulletin,
    signals: &Signals,
    shared: &Mutex<Subscriber<L>>,
    piece: &[u8],
) -> Result<News, SubscriberFault> {
    let answered = signals.take_answered();
    let mut guard = shared.lock(rt);
    let subscriber = &mut *guard;
    subscriber.answered(answered);
    let news = subscriber.take(rt, bulletin, piece)?;
    if !news.is_none {
        // A fault behind events is told by a call of its own.
        subscriber.take(rt, bulletin, &[])?;
    }
    Ok(news)
}

/// Takes the pings that wait, in their order. Each counts as unanswered until it is told otherwise. The share counts them.
///
/// # Errors
/// `Memory` where one is lost for want of it.
pub(crate) fn take_pings<L: Ledger, R: Wait>(
    rt: &R,
    shared: &Mutex<Subscriber<L>>,
    share: &mut Share<L>,
) -> Result<Vec<Vec<u8>>, SubscriberFault>
    requires share { (share.old.parts ≡ L.parts) × (0 < share.old.parts) }
    ensures asked { IfOk result (λ contexts. WereAsked share.old.amount (bodies_of contexts.items)) }
    ensures taken { IfOk result (λ contexts. share.new.amount ≡ share.old.amount + vec_len contexts) }
    ensures parts { share.new.parts ≡ share.old.parts }
    ensures err { IfErr result (λ fault. fault ≡ SubscriberFault.Memory) }
{
    let mut guard = shared.lock(rt);
    let subscriber = &mut *guard;
    if !subscriber.is_whole {
        return Err(SubscriberFault::Memory);
    }
    Ok(subscriber.give_pings(share))
}

/// Nothing more comes from the peer.
pub(crate) fn fall_silent<L: Ledger, R: Wait>(rt: &R, shared: &Mutex<Subscriber<L>>) {
    let mut guard = shared.lock(rt);
    guard.is_silent = true;
}

/// What the writing half finds, and the pings that wait, which it takes in their order. Each counts as unanswered until it is told otherwise. The share
/// counts them. It takes one lock.
///
/// # Errors
/// `Memory` if one is lost for lack of it.
pub(crate) fn look<L: Ledger, R: Wait>(
    rt: &R,
    shared: &Mutex<Subscriber<L>>,
    share: &mut Share<L>,
) -> Result<(Sight, Vec<Vec<u8>>), SubscriberFault>
    requires share { (share.old.parts ≡ L.parts) × (0 < share.old.parts) }
    ensures asked { IfOk result (λ found. WereAsked share.old.amount (bodies_of found.1.items)) }
    ensures taken { IfOk result (λ found. share.new.amount ≡ share.old.amount + vec_len found.1) }
    ensures parts { share.new.parts ≡ share.old.parts }
    ensures err { IfErr result (λ fault. fault ≡ SubscriberFault.Memory) }
{
    let mut guard = shared.lock(rt);
    let subscriber = &mut *guard;
    if !subscriber.is_whole {
        return Err(SubscriberFault::Memory);
    }
    let sight = Sight {
        joined: subscriber.joined,
        is_silent: subscriber.is_silent,
    };
    Ok((sight, subscriber.give_pings(share)))
}

/// Those of the broadcasts that the peer wants, as it stands under the lock.
pub(crate) fn wanted<L: Ledger, R: Wait>(
    rt: &R,
    alloc: Global,
    shared: &Mutex<Subscriber<L>>,
    broadcasts: &[Broadcast],
) -> Result<Vec<Broadcast>, SubscriberFault>
    ensures { IfOk result (λ kept. IsChosen broadcasts.now kept.items) }
{
    let subscriber = shared.lock(rt);
    wanted_of(alloc, &subscriber.peer, broadcasts)
}
