//! A connection to a socket of the kernel, for what a console has no words for, by a frontend of ZMTP 3.0 or 3.1.
use crate::octets::{opening_as, wrong};
use std::alloc::{AllocError, Global};
use std::collections::VecDeque;
use std::io::{Error, ErrorKind, Read, Result, Write};
use std::net::TcpStream;
use std::time::Duration;
use zmtp_peer::{Peer, PeerEvent, PeerFault, Role};

/// How long a read waits.
const PATIENCE_MILLISECONDS: u64 = 5;

/// How long a write waits.
const WRITE_SECONDS: u64 = 10;

/// The answer to a ping without a context.
const PONG: &[u8] = b"\x04\x05\x04PONG";

/// The reads that wait for what has to come.
pub(crate) const READS: usize = 4_000;

/// A connection to a socket of the kernel.
#[derive(Drop)]
pub(crate) struct Frontend {
    stream: TcpStream,
    peer: Peer,
    messages: VecDeque<Vec<Vec<u8>>>,
    /// How many pings came.
    pings: usize,
}

/// Whether a read ended because nothing came in the time that it waits.
fn is_late(error: &Error) -> bool {
    matches!(error.kind(), ErrorKind::WouldBlock | ErrorKind::TimedOut)
}

/// Sets how long a read waits, and sends what a frontend in this role and of this minor version sends first.
fn begin(alloc: Global, stream: &TcpStream, role: Role, minor: u8) -> Result<()> {
    stream.set_read_timeout(Some(Duration::from_millis(PATIENCE_MILLISECONDS)))?;
    stream.set_write_timeout(Some(Duration::from_secs(WRITE_SECONDS)))?;
    let opening = opening_as(alloc, role, minor)?;
    let mut writer = stream;
    writer.write_all(&opening)
}

impl Frontend {
    /// Opens a connection over this stream in this role and of this minor version.
    pub fn over(alloc: Global, stream: TcpStream, role: Role, minor: u8) -> Result<Frontend> {
        match begin(alloc, &stream, role, minor) {
            Ok(()) => Ok(Frontend {
                stream,
                peer: Peer::new(alloc, role),
                messages: VecDeque::new(alloc),
                pings: 0,
            }),
            Err(error) => Err(error),
        }
    }

    /// Waits until the kernel is ready on this connection, for as many reads at most, and tells whether it is.
    pub fn becomes_ready(&mut self, reads: usize) -> Result<bool> {
        for _ in 0..reads {
            if self.peer.is_ready() {
                return Ok(true);
            }
            self.hear()?;
        }
        Ok(self.peer.is_ready())
    }

    /// Writes octets.
    pub fn write(&self, octets: &[u8]) -> Result<()> {
        let mut writer = &self.stream;
        writer.write_all(octets)
    }

    /// Writes octets a number of times, and tells whether the kernel ends the connection meanwhile.
    pub fn is_ended_by(&self, octets: &[u8], times: usize) -> bool {
        for _ in 0..times {
            if let Err(error) = self.write(octets) {
                return !is_late(&error);
            }
        }
        false
    }

    /// Takes in what an event tells.
    fn take(&mut self, event: PeerEvent) -> Result<()> {
        match event {
            PeerEvent::Message(frames) => Ok(self.messages.push_back(frames)?),
            PeerEvent::Ping(_) => {
                self.pings = self.pings.saturating_add(1);
                Ok(())
            }
            PeerEvent::Ready | PeerEvent::Subscribe(_) | PeerEvent::Cancel(_) => Ok(()),
        }
    }

    /// Takes in octets that came.
    fn take_in(&mut self, octets: &[u8]) -> Result<()> {
        match self.peer.feed(octets) {
            Ok(events) => self.take_all(events),
            Err(PeerFault::MEMORY) => Err(AllocError.into()),
            Err(_) => Err(wrong()),
        }
    }

    /// Takes in what events tell.
    fn take_all(&mut self, events: Vec<PeerEvent>) -> Result<()> {
        for event in events {
            self.take(event)?;
        }
        Ok(())
    }

    /// Takes in what comes in the time that a read waits. It is a fault where the kernel has closed the connection.
    fn hear(&mut self) -> Result<()> {
        let mut room = [0u8; 4096];
        let mut stream = &self.stream;
        match stream.read(&mut room) {
            Ok(0) => Err(ErrorKind::UnexpectedEof.into()),
            Ok(count) => self.take_in(&room[..count]),
            Err(error) => {
                if is_late(&error) {
                    return Ok(());
                }
                Err(error)
            }
        }
    }

    /// The frames of the next message; none where none comes in the time that a read waits.
    pub fn next_frames(&mut self) -> Result<Option<Vec<Vec<u8>>>> {
        if self.messages.is_empty() {
            self.hear()?;
        }
        Ok(self.messages.pop_front())
    }

    /// The frames of the next message, which comes.
    pub fn frames(&mut self) -> Result<Vec<Vec<u8>>> {
        for _ in 0..READS {
            if let Some(frames) = self.next_frames()? {
                return Ok(frames);
            }
        }
        Err(ErrorKind::TimedOut.into())
    }

    /// Waits until a ping comes, and answers it. Whether one came.
    pub fn answers_ping(&mut self) -> Result<bool> {
        for _ in 0..READS {
            if self.pings > 0 {
                self.write(PONG)?;
                return Ok(true);
            }
            self.hear()?;
        }
        Ok(false)
    }

    /// Hears all that comes until the kernel closes the connection: how many pings came on it.
    pub fn pings_to_end(&mut self) -> Result<usize> {
        for _ in 0..READS {
            if self.hear().is_err() {
                return Ok(self.pings);
            }
        }
        Err(ErrorKind::TimedOut.into())
    }

    /// Reads once, and tells whether the kernel has closed the connection.
    pub fn is_ended(&self) -> bool {
        let mut room = [0u8; 4096];
        let mut stream = &self.stream;
        match stream.read(&mut room) {
            Ok(count) => count == 0,
            Err(error) => !is_late(&error),
        }
    }

    /// Reads all that comes, and tells whether the kernel has closed the connection behind it.
    pub fn reads_to_end(&self) -> bool {
        for _ in 0..READS {
            if self.is_ended() {
                return true;
            }
        }
        false
    }
}
