//! Which peers have hung up.
use mio::unix::SourceFd;
use mio::{Events, Interest, Poll, Token};
use std::alloc::Global;
use std::io;
use std::net::{Net, TcpStream};
use std::os::fd::AsRawFd;
use std::time::Duration;

/// Tells of connections whether their peers have hung up, as the system knows it. Nothing of what came is read for that, and nobody waits for anything.
#[derive(Drop)]
pub struct Hangups {
    poll: Poll,
    events: Events,
}

impl Hangups {
    /// Over no connection.
    ///
    /// # Errors
    ///
    /// What the system refuses, and lack of memory.
    pub fn new<R: Net>(rt: &R, alloc: Global) -> io::Result<Hangups> {
        let events = Events::with_capacity(alloc, 1)?;
        let poll = Poll::new(rt)?;
        Ok(Hangups { poll, events })
    }

    /// Whether the peer has closed the connection, or reset it: nothing comes from it after what has come. False if the system doesn't tell. It takes no
    /// memory.
    pub fn has_hung_up(&mut self, stream: &TcpStream) -> bool {
        let descriptor = stream.as_raw_fd();
        let mut source = SourceFd(&descriptor);
        let registry = self.poll.registry();
        if registry
            .register(&mut source, Token(0), Interest::READABLE)
            .is_err()
        {
            return false;
        }
        let told = self.poll.poll(&mut self.events, Some(Duration::ZERO));
        let _ = self.poll.registry().deregister(&mut source);
        told.is_ok() && self.events.iter().any(|event| event.is_read_closed())
    }
}
