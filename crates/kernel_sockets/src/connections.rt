//! The connections that are served.
use crate::hangups::Hangups;
use crate::presence::{Ping, Presence};
use crate::register::{Register, Stream};
use crate::room::Stays;
use std::alloc::{AllocError, Global};
use std::net::Shutdown;
use std::sync::atomic::{AtomicBool, Ordering};
use std::sync::{Condvar, Mutex, Wait};
use std::time::{Clock, Duration};

/// The connections that are served at some places.
#[derive(Drop)]
pub struct Connections {
    register: Mutex<Register>,
    left: Condvar,
    /// Whether the register is closed, for readers who don't wait for the lock.
    is_closed: AtomicBool,
    /// What is known of the connection at each place.
    presences: Vec<Presence>,
}

impl Connections {
    /// No connections, at a number of places.
    ///
    /// # Errors
    ///
    /// `AllocError` where there is no memory. No other call takes any.
    pub fn new(alloc: Global, places: usize) -> Result<Connections, AllocError> {
        let register = Register::new(alloc, places)?;
        let presences = presences_of(alloc, places)?;
        Ok(Connections {
            register: Mutex::new(register),
            left: Condvar::new(),
            is_closed: AtomicBool::new(false),
            presences,
        })
    }

    /// Whether no more connections are let in.
    pub fn is_closed(&self) -> bool {
        self.is_closed.load(Ordering::SeqCst)
    }

    /// What is known of the connection at a place, where there is such a place.
    pub fn presence(&self, place: usize) -> Option<&Presence> {
        self.presences.get(place)
    }

    /// Enters a connection at a place, at a time in milliseconds. False where no more are let in, or where there is no such place: what
    /// `Register::enter` answers of the register as it is under the lock.
    pub fn enter<R: Wait>(&self, rt: &R, place: usize, stream: Stream, now: u64) -> bool {
        let mut register = self.register.lock(rt);
        if let Some(presence) = self.presences.get(place) {
            presence.begin(now);
        }
        register.enter(place, stream)
    }

    /// Takes the connection at a place away. Whether the place was relieved of it: then another one has been let in in its stead.
    pub fn leave<R: Wait>(&self, rt: &R, place: usize) -> bool {
        let mut register = self.register.lock(rt);
        let was_relieved = register.leave(place);
        drop(register);
        self.left.notify_all();
        was_relieved
    }

    /// Relieves one of `count` places from `first` on of its connection, if one has an orphan, by what is seen of the places and told of their peers under
    /// the lock: what `Register::relieve` does of the register there. Whether it does. It takes no memory.
    pub fn relieve<R: Wait>(
        &self,
        rt: &R,
        hangups: &mut Hangups,
        first: usize,
        count: usize,
    ) -> bool {
        let mut register = self.register.lock(rt);
        register
            .relieve(&self.presences, hangups, first, count)
            .is_some()
    }

    /// Ends the connection at one of `count` places from `first` on that has to make room, if one has to, by what is seen of the places under the lock:
    /// what `Register::make_room` does of the register there. If none has to, the peers there are pinged that are to be, one after another: what
    /// `Register::ask` does. It takes no memory.
    pub fn make_room<R: Wait>(
        &self,
        rt: &R,
        first: usize,
        count: usize,
        stays: Stays,
        now: u64,
        ping: Ping<'_>,
    ) {
        let mut register = self.register.lock(rt);
        let ended = register.make_room(&self.presences, first, count, stays, now);
        if ended.is_some() {
            return;
        }
        for _ in 0..count {
            let asked = register.ask(rt, &self.presences, first, count, stays, now, ping);
            if asked.is_none() {
                return;
            }
        }
    }

    /// Lets no more connections in, and shuts those that are there: for reading, so that each is still answered, or altogether.
    pub fn close<R: Wait>(&self, rt: &R, how: Shutdown) {
        self.is_closed.store(true, Ordering::SeqCst);
        let mut register = self.register.lock(rt);
        register.close(how);
    }

    /// Waits until none is there, at most this long.
    pub fn wait_until_empty<R: Wait + Clock>(&self, rt: &R, most: Duration) {
        let register = self.register.lock(rt);
        drop(
            self.left
                .wait_timeout_while(rt, register, most, |register| !register.is_empty()),
        );
    }
}

/// What is known at a number of places, where no connection has been yet.
fn presences_of(alloc: Global, places: usize) -> Result<Vec<Presence>, AllocError> {
    let mut presences = Vec::with_capacity(alloc, places)?;
    for _ in 0..places {
        presences.push(Presence::new())?;
    }
    Ok(presences)
}
