//! The door of a socket: where a connection that was accepted waits for a place.
use crate::decisions::entrance::{Entrance, Stuck};
use crate::decisions::places::places_of;
use kernel_desk::Socket;
use std::net::TcpStream;
use std::sync::{Condvar, Mutex, Wait};
use std::time::{Clock, Duration};

/// The door of a socket: one connection at a time waits here until a place takes it, which is once fewer are served than may be at once.
#[derive(Drop)]
pub(crate) struct Door {
    entrance: Mutex<Entrance>,
    offered: Condvar,
    taken: Condvar,
}

impl Door {
    /// A door at which nobody waits, of so many places, for so many connections at once. It takes no memory.
    pub fn new(places: usize, free: usize) -> Door {
        Door {
            entrance: Mutex::new(Entrance::new(places, free)),
            offered: Condvar::new(),
            taken: Condvar::new(),
        }
    }

    /// The next connection for a place, with its number, once there is one and may be served; `None` once the door is closed.
    pub fn take<R: Wait>(&self, rt: &R) -> Option<(TcpStream, u64)> {
        let entrance = self.entrance.lock(rt);
        let mut entrance = self
            .offered
            .wait_while(rt, entrance, |entrance| !entrance.may_take());
        let next = entrance.take();
        drop(entrance);
        self.taken.notify_all();
        next
    }

    /// A place serves no connection any longer, and takes the next one. One more may be served then, unless the place was relieved of its one.
    pub fn come_back<R: Wait>(&self, rt: &R, was_relieved: bool) {
        let mut entrance = self.entrance.lock(rt);
        entrance.come_back(was_relieved);
        drop(entrance);
        self.offered.notify_one();
    }

    /// One more connection may be served: a place was relieved of one.
    pub fn admit<R: Wait>(&self, rt: &R) {
        let mut entrance = self.entrance.lock(rt);
        entrance.admit();
        drop(entrance);
        self.offered.notify_one();
    }

    /// Has a connection wait for a place, once none waits before it. Whether it waits in vain. Once the door is closed it goes away.
    pub fn offer<R: Wait>(&self, rt: &R, stream: TcpStream, number: u64) -> Option<Stuck> {
        let entrance = self.entrance.lock(rt);
        let mut entrance = self
            .taken
            .wait_while(rt, entrance, |entrance| entrance.next.is_some());
        if entrance.is_closed {
            return None;
        }
        entrance.put(stream, number);
        let stuck = entrance.stuck();
        drop(entrance);
        self.offered.notify_one();
        stuck
    }

    /// Whether a connection waits in vain.
    pub fn stuck<R: Wait>(&self, rt: &R) -> Option<Stuck> {
        let entrance = self.entrance.lock(rt);
        entrance.stuck()
    }

    /// Waits until no connection waits for a place, at most this long, and tells whether none does.
    pub fn wait_until_free<R: Wait + Clock>(&self, rt: &R, most: Duration) -> bool {
        let entrance = self.entrance.lock(rt);
        let (entrance, _) = self
            .taken
            .wait_timeout_while(rt, entrance, most, |entrance| entrance.next.is_some());
        entrance.next.is_none()
    }

    /// Lets no more connections in: the one that waits goes away, and each place is told.
    pub fn close<R: Wait>(&self, rt: &R) {
        let mut entrance = self.entrance.lock(rt);
        entrance.close();
        drop(entrance);
        self.offered.notify_all();
        self.taken.notify_all();
    }
}

/// The doors of the five sockets.
#[derive(Drop)]
pub(crate) struct Doors {
    pub shell: Door,
    pub iopub: Door,
    pub stdin: Door,
    pub control: Door,
    pub heartbeat: Door,
}

impl Doors {
    /// Doors at which nobody waits, each for so many connections at once. It takes no memory.
    pub fn new(free: usize) -> Doors {
        Doors {
            shell: Door::new(places_of(Socket::Shell), free),
            iopub: Door::new(places_of(Socket::Iopub), free),
            stdin: Door::new(places_of(Socket::Stdin), free),
            control: Door::new(places_of(Socket::Control), free),
            heartbeat: Door::new(places_of(Socket::Heartbeat), free),
        }
    }

    /// The door of a socket.
    pub fn of(&self, socket: Socket) -> &Door {
        match socket {
            Socket::Shell => &self.shell,
            Socket::Iopub => &self.iopub,
            Socket::Stdin => &self.stdin,
            Socket::Control => &self.control,
            Socket::Heartbeat => &self.heartbeat,
        }
    }

    /// Closes all of them.
    pub fn close<R: Wait>(&self, rt: &R) {
        self.shell.close(rt);
        self.iopub.close(rt);
        self.stdin.close(rt);
        self.control.close(rt);
        self.heartbeat.close(rt);
    }
}
