//! The register of the connections that are served.
ghost use Rattle.std.specs.Prelude.{◌≡◌, ◌+◌, ◌<◌, ◌≤◌, ◌↔◌, None, Some, true, false};
ghost use Rattle.std.specs.Prelude.{All, IfOk, IfSome, IfNone, IsTrue, slice_get, slice_set, slice_range, length, position, vec_len, is_some};
ghost use Rattle.kernel_sockets.specs.Relief.{is_orphan};
ghost use Rattle.kernel_sockets.specs.Room.{MakesRoom, is_to_be_pinged};
ghost use Rattle.kernel_sockets.specs.Seen.{is_taken as is_taken_of, is_relieved as is_relieved_of, AreSeen};

use crate::hangups::Hangups;
use crate::presence::{Ping, Presence};
use crate::relief::who_is_relieved;
use crate::room::{Sight, Stays, who_is_pinged, who_makes_room};
use std::alloc::{AllocError, Global};
use std::net::{Shutdown, TcpStream};
use std::sync::{Arc, Wait};

/// A connection, shared by who serves it and the register.
pub type Stream = Arc<TcpStream, Global>;

/// Which connection is served at which place, and whether more may come: what lies under the lock of [`Connections`](crate::Connections).
#[derive(Drop)]
pub struct Register {
    pub streams: Vec<Option<Stream>>,
    pub is_closed: bool,
    /// Of each place, whether it was relieved of its connection, which is served to its end all the same.
    pub relieved: Vec<bool>,
    /// What was seen of each place when one was looked for that makes room, or is relieved. It is kept, so that looking takes no memory.
    pub sights: Vec<Sight>,
    ghost all_seen: { vec_len sights ≡ vec_len streams },
    ghost all_marked: { vec_len relieved ≡ vec_len streams },
}

impl Register {
    /// No connections, at a number of places.
    pub fn new(alloc: Global, places: usize) -> Result<Register, AllocError>
        ensures open { IfOk result (λ r. r.is_closed ≡ false) }
        ensures places { IfOk result (λ r. length r.streams.items ≡ places) }
        ensures empty { IfOk result (λ r. All (λ s. s ≡ None) r.streams.items) }
        ensures unrelieved { IfOk result (λ r. All (λ was. was ≡ false) r.relieved.items) }
    {
        let mut streams = Vec::with_capacity(alloc, places)?;
        for _ in 0..places {
            streams.push(None)?;
        }
        Ok(Register {
            streams,
            is_closed: false,
            relieved: vec![in alloc; false; places]?,
            sights: vec![in alloc; Sight::NOBODY; places]?,
        })
    }

    /// Enters a connection at a place. False, and nothing changes, exactly where no more may come, or where there is no such place. It
    /// takes no memory.
    pub fn enter(&mut self, place: usize, stream: Stream) -> bool
        ensures entered { IsTrue result ↔ (self.old.is_closed ≡ false) × (place < length self.old.streams.items) }
        ensures streams { IsTrue result → self.new.streams.items ≡ slice_set self.old.streams.items place (Some stream) }
        ensures refused { result ≡ false → self.new.streams.items ≡ self.old.streams.items }
        ensures closed { self.new.is_closed ≡ self.old.is_closed }
        ensures relieved { self.new.relieved.items ≡ self.old.relieved.items }
    {
        if self.is_closed || place >= self.streams.len() {
            return false;
        }
        self.streams[place] = Some(stream);
        true
    }

    /// Takes the connection at a place away, if there is such a place. Whether the place was relieved of it; from now on it is not.
    pub fn leave(&mut self, place: usize) -> bool
        ensures closed { self.new.is_closed ≡ self.old.is_closed }
        ensures left { place < length self.old.streams.items → self.new.streams.items ≡ slice_set self.old.streams.items place None }
        ensures elsewhere { length self.old.streams.items ≤ place → self.new.streams.items ≡ self.old.streams.items }
        ensures relieved { place < length self.old.streams.items → slice_get self.old.relieved.items place ≡ Some result }
        ensures no_longer { place < length self.old.streams.items → self.new.relieved.items ≡ slice_set self.old.relieved.items place false }
        ensures nobody { length self.old.streams.items ≤ place → result ≡ false }
    {
        if place >= self.streams.len() {
            return false;
        }
        self.streams[place] = None;
        let was_relieved = self.relieved[place];
        self.relieved[place] = false;
        was_relieved
    }

    /// Whether a connection is at a place.
    pub fn is_taken(&self, place: usize) -> bool
        ensures { result ≡ is_taken_of self.now.streams.items place }
    {
        match self.streams.get(place) {
            Some(stream) => stream.is_some(),
            None => false,
        }
    }

    /// Shuts the connection at a place, where there is one: who serves it meets its end, and takes it away.
    fn end(&self, place: usize) {
        if let Some(Some(stream)) = self.streams.get(place) {
            let _ = stream.shutdown(Shutdown::Both);
        }
    }

    /// Whether a place was relieved of its connection.
    fn is_relieved(&self, place: usize) -> bool
        ensures { result ≡ is_relieved_of self.now.relieved.items place }
    {
        match self.relieved.get(place) {
            Some(is_relieved) => *is_relieved,
            None => false,
        }
    }

    /// What is seen of a place. Of one of which nothing is known it is seen alone whether a connection is there, and whether the place was relieved of it.
    fn sight(&self, presences: &[Presence], place: usize) -> Sight
        ensures taken { result.is_taken ≡ is_taken_of self.now.streams.items place }
        ensures relieved { result.is_relieved ≡ is_relieved_of self.now.relieved.items place }
    {
        let is_taken = self.is_taken(place);
        let is_relieved = self.is_relieved(place);
        match presences.get(place) {
            Some(presence) => presence.sight(is_taken, is_relieved),
            None => Sight {
                is_taken,
                is_relieved,
                ..Sight::NOBODY
            },
        }
    }

    /// What is seen of a place, and of a request that is under way there whether the peer has hung up. Of one of which the place was relieved that is not asked.
    fn sight_of_peer(&self, presences: &[Presence], hangups: &mut Hangups, place: usize) -> Sight
        ensures taken { result.is_taken ≡ is_taken_of self.now.streams.items place }
        ensures relieved { result.is_relieved ≡ is_relieved_of self.now.relieved.items place }
    {
        let sight = self.sight(presences, place);
        if !sight.is_under_way() || sight.is_relieved {
            return sight;
        }
        let has_hung_up = match self.streams.get(place) {
            Some(Some(stream)) => hangups.has_hung_up(stream),
            _ => false,
        };
        Sight {
            has_hung_up,
            ..sight
        }
    }

    /// Looks at all places.
    fn look(&mut self, presences: &[Presence])
        ensures streams { self.new.streams.items ≡ self.old.streams.items }
        ensures closed { self.new.is_closed ≡ self.old.is_closed }
        ensures relieved { self.new.relieved.items ≡ self.old.relieved.items }
        ensures seen { AreSeen self.new.streams.items self.new.relieved.items self.new.sights.items }
    {
        for place in 0..self.streams.len() {
            self.sights[place] = self.sight(presences, place);
        }
    }

    /// Looks at all places, and where a request is under way at its peer.
    fn look_at_peers(&mut self, presences: &[Presence], hangups: &mut Hangups)
        ensures streams { self.new.streams.items ≡ self.old.streams.items }
        ensures closed { self.new.is_closed ≡ self.old.is_closed }
        ensures relieved { self.new.relieved.items ≡ self.old.relieved.items }
        ensures seen { AreSeen self.new.streams.items self.new.relieved.items self.new.sights.items }
    {
        for place in 0..self.streams.len() {
            self.sights[place] = self.sight_of_peer(presences, hangups, place);
        }
    }

    /// Looks at all places, and shuts the connection that has to make room among `count` of them from `first` on: whom `who_makes_room` answers. The
    /// answer is its place, counted from the first. None where no connection has to, or where there are fewer places. It takes no memory.
    pub fn make_room(
        &mut self,
        presences: &[Presence],
        first: usize,
        count: usize,
        stays: Stays,
        now: u64,
    ) -> Option<usize>
        ensures streams { self.new.streams.items ≡ self.old.streams.items }
        ensures closed { self.new.is_closed ≡ self.old.is_closed }
        ensures relieved { self.new.relieved.items ≡ self.old.relieved.items }
        ensures seen { AreSeen self.new.streams.items self.new.relieved.items self.new.sights.items }
        ensures rule { first + count ≤ length self.old.streams.items
            → MakesRoom stays now (slice_range self.new.sights.items first (first + count)) result }
        ensures none { length self.old.streams.items < first + count → result ≡ None }
    {
        self.look(presences);
        let end = first.checked_add(count)?;
        let row = self.sights.get(first..end)?;
        let place = who_makes_room(row, stays, now)?;
        self.end(first + place);
        Some(place)
    }

    /// Pings the peer of the connection at a place, where there is one.
    fn ping_peer<R: Wait>(
        &self,
        rt: &R,
        presences: &[Presence],
        place: usize,
        ping: Ping<'_>,
        now: u64,
    ) {
        if let (Some(Some(stream)), Some(presence)) = (
            self.streams.get(place),
            presences.get(place),
        ) {
            presence.ping(rt, stream, ping, now);
        }
    }

    /// Looks at all places, and pings the peer at one of `count` of them from `first` on: the one that `who_is_pinged` answers. The answer is its place,
    /// counted from the first. None where none is pinged, or where there are fewer places. It takes no memory.
    pub fn ask<R: Wait>(
        &mut self,
        rt: &R,
        presences: &[Presence],
        first: usize,
        count: usize,
        stays: Stays,
        now: u64,
        ping: Ping<'_>,
    ) -> Option<usize>
        ensures streams { self.new.streams.items ≡ self.old.streams.items }
        ensures closed { self.new.is_closed ≡ self.old.is_closed }
        ensures relieved { self.new.relieved.items ≡ self.old.relieved.items }
        ensures seen { AreSeen self.new.streams.items self.new.relieved.items self.new.sights.items }
        ensures rule { first + count ≤ length self.old.streams.items
            → result ≡ position (is_to_be_pinged stays now) (slice_range self.new.sights.items first (first + count)) }
        ensures none { length self.old.streams.items < first + count → result ≡ None }
    {
        self.look(presences);
        let end = first.checked_add(count)?;
        let row = self.sights.get(first..end)?;
        let place = who_is_pinged(row, stays, now)?;
        self.ping_peer(rt, presences, first + place, ping, now);
        Some(place)
    }

    /// Looks at all places and at the peers of requests that are under way, and relieves one of `count` places from `first` on of its connection: the one that
    /// `who_is_relieved` answers. Who serves it does so to its end, and another one may be served beside it from now on. The answer is its place, counted
    /// from the first. None where no place is relieved, or where there are fewer places. It takes no memory.
    pub fn relieve(
        &mut self,
        presences: &[Presence],
        hangups: &mut Hangups,
        first: usize,
        count: usize,
    ) -> Option<usize>
        ensures streams { self.new.streams.items ≡ self.old.streams.items }
        ensures closed { self.new.is_closed ≡ self.old.is_closed }
        ensures seen { AreSeen self.old.streams.items self.old.relieved.items self.new.sights.items }
        ensures rule { first + count ≤ length self.old.streams.items
            → result ≡ position is_orphan (slice_range self.new.sights.items first (first + count)) }
        ensures none { length self.old.streams.items < first + count → result ≡ None }
        ensures relieved { IfSome result (λ place. self.new.relieved.items ≡ slice_set self.old.relieved.items (first + place) true) }
        ensures same { IfNone result (self.new.relieved.items ≡ self.old.relieved.items) }
    {
        self.look_at_peers(presences, hangups);
        let end = first.checked_add(count)?;
        let row = self.sights.get(first..end)?;
        let place = who_is_relieved(row)?;
        self.relieved[first + place] = true;
        Some(place)
    }

    /// Lets no more connections in, and shuts those that are there.
    pub fn close(&mut self, how: Shutdown)
        ensures closed { self.new.is_closed ≡ true }
        ensures streams { self.new.streams.items ≡ self.old.streams.items }
        ensures relieved { self.new.relieved.items ≡ self.old.relieved.items }
    {
        self.is_closed = true;
        for stream in &self.streams {
            if let Some(stream) = stream {
                let _ = stream.shutdown(how);
            }
        }
    }

    /// Whether no connection is there.
    pub fn is_empty(&self) -> bool
        ensures { IsTrue result ↔ All (λ s. s ≡ None) self.now.streams.items }
    {
        self.streams.iter().all(Option::is_none)
    }
}
