//! A listening socket.
use std::io;
use std::net::{Net, Shutdown, TcpListener, TcpStream};
use std::os::fd::OwnedFd;
use std::time::Duration;

/// A listening socket that any thread can close while others wait at it.
#[derive(Drop)]
pub struct Listener {
    listener: TcpListener,
    /// The same socket once more, as one that can be shut down.
    closer: TcpStream,
}

impl Listener {
    /// Binds a port of an address.
    ///
    /// # Errors
    ///
    /// What the system refuses, and want of memory.
    pub fn bind<R: Net<Listener = TcpListener, Stream = TcpStream>>(
        rt: &R,
        ip: &str,
        port: u16,
    ) -> io::Result<Listener> {
        let listener = TcpListener::bind(rt, (ip, port))?;
        let closer = TcpStream::from(OwnedFd::from(listener.try_clone()?));
        Ok(Listener { listener, closer })
    }

    /// Waits for the next connection, on which a write waits so many milliseconds at most.
    ///
    /// # Errors
    ///
    /// That the socket is closed, and what else the system refuses.
    pub fn accept(&self, most: u64) -> io::Result<TcpStream> {
        let (stream, _) = self.listener.accept()?;
        stream.set_nodelay(true)?;
        stream.set_write_timeout(Some(Duration::from_millis(most)))?;
        Ok(stream)
    }

    /// Whether its address is one of the loopback, at which no other machine can come in.
    pub fn is_local(&self) -> bool {
        match self.listener.local_addr() {
            Ok(address) => address.ip().is_loopback(),
            Err(_) => false,
        }
    }

    /// Refuses all that wait for a connection, and all that come later. On Linux a blocked `accept` ends by the shutdown of its socket.
    pub fn close(&self) {
        let _ = self.closer.shutdown(Shutdown::Both);
    }
}
