//! Who is let in at a socket: where a connection that was accepted waits, and how many more may be served.
ghost use Rattle.std.specs.Prelude.{◌≡◌, ◌+◌, ◌-◌, ◌<◌, ◌≤◌, ◌⊎◌, ◌↔◌, IsTrue, IsSome, false, true, IfSome, IfNone, None, Some};

use std::net::TcpStream;

/// What lies under the lock of a door.
#[derive(Drop)]
pub(crate) struct Entrance {
    /// The connection that waits for a place, with its number.
    pub next: Option<(TcpStream, u64)>,
    /// How many places serve no connection.
    pub idle: usize,
    /// How many more connections may be served at once.
    pub free: usize,
    pub is_closed: bool,
}

/// A connection was seen to wait in vain: no place is idle, or no more may be served at once. Who has it may have one of those that are served make room.
/// [`Entrance::stuck`] alone gives it.
#[derive(Drop)]
pub(crate) struct Stuck {
    _seen: (),
}

impl Entrance {
    /// Nobody waits, none of so many places serves a connection, and so many may be served at once.
    pub fn new(idle: usize, free: usize) -> Entrance
        ensures nobody { result.next ≡ None }
        ensures idle { result.idle ≡ idle }
        ensures free { result.free ≡ free }
        ensures open { result.is_closed ≡ false }
    {
        Entrance {
            next: None,
            idle,
            free,
            is_closed: false,
        }
    }

    /// Whether a place that waits here has something to do: a connection waits for it and may be served, or no more will come.
    pub fn may_take(&self) -> bool
        ensures { IsTrue result ↔ (IsTrue self.now.is_closed ⊎ (IsSome self.now.next × (0 < self.now.free))) }
    {
        self.is_closed || (self.next.is_some() && self.free > 0)
    }

    /// The connection that waits for a place, if one does: it waits no longer, and its place and itself count among those that serve and are served.
    pub fn take(&mut self) -> Option<(TcpStream, u64)>
        ensures given { result ≡ self.old.next }
        ensures gone { self.new.next ≡ None }
        ensures counted { IfSome result (λ _. (self.new.idle ≡ self.old.idle - 1) × (self.new.free ≡ self.old.free - 1)) }
        ensures none { IfNone result ((self.new.idle ≡ self.old.idle) × (self.new.free ≡ self.old.free)) }
        ensures closed { self.new.is_closed ≡ self.old.is_closed }
    {
        let next = self.next.take()?;
        self.idle = self.idle.saturating_sub(1);
        self.free = self.free.saturating_sub(1);
        Some(next)
    }

    /// A place serves no connection any longer. One more may be served, unless the place was relieved of its one: then that was said before.
    pub fn come_back(&mut self, was_relieved: bool)
        ensures idle { self.old.idle < usize.MAX → self.new.idle ≡ self.old.idle + 1 }
        ensures free { was_relieved ≡ false → self.old.free < usize.MAX → self.new.free ≡ self.old.free + 1 }
        ensures relieved { IsTrue was_relieved → self.new.free ≡ self.old.free }
        ensures next { self.new.next ≡ self.old.next }
        ensures closed { self.new.is_closed ≡ self.old.is_closed }
    {
        self.idle = self.idle.saturating_add(1);
        if !was_relieved {
            self.admit();
        }
    }

    /// One more connection may be served.
    pub fn admit(&mut self)
        ensures free { self.old.free < usize.MAX → self.new.free ≡ self.old.free + 1 }
        ensures idle { self.new.idle ≡ self.old.idle }
        ensures next { self.new.next ≡ self.old.next }
        ensures closed { self.new.is_closed ≡ self.old.is_closed }
    {
        self.free = self.free.saturating_add(1);
    }

    /// Has a connection wait for a place, where none waits yet.
    pub fn put(&mut self, stream: TcpStream, number: u64)
        requires open { self.old.is_closed ≡ false }
        requires free { self.old.next ≡ None }
        ensures next { self.new.next ≡ Some (stream, number) }
        ensures idle { self.new.idle ≡ self.old.idle }
        ensures free { self.new.free ≡ self.old.free }
        ensures closed { self.new.is_closed ≡ self.old.is_closed }
    {
        self.next = Some((stream, number));
    }

    /// Whether a connection waits in vain: no place is idle, or no more may be served at once.
    pub fn stuck(&self) -> Option<Stuck>
        ensures { IsSome result ↔ (IsSome self.now.next × ((self.now.idle ≡ 0) ⊎ (self.now.free ≡ 0))) }
    {
        if self.next.is_some() && (self.idle == 0 || self.free == 0) {
            Some(Stuck { _seen: () })
        } else {
            None
        }
    }

    /// No connection comes in any more, and the one that waits goes away.
    pub fn close(&mut self)
        ensures closed { self.new.is_closed ≡ true }
        ensures gone { self.new.next ≡ None }
        ensures idle { self.new.idle ≡ self.old.idle }
        ensures free { self.new.free ≡ self.old.free }
    {
        self.is_closed = true;
        self.next = None;
    }
}
