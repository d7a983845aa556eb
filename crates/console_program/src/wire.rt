//! One connection to a socket of the kernel, from a frontend's side.
ghost use Rattle.std.specs.Prelude.{◌≡◌, ℕ, List, OnOk, OnErr};
ghost use Rattle.std.specs.Io.KnownBytes.{Appends};
ghost use Rattle.exact_write.specs.Sent.{SentSome};
ghost use Rattle.zmtp_wire.specs.Frame.{written};
ghost use Rattle.zmtp_wire.specs.Message.{bodies_of, message_octets};
ghost use Rattle.zmtp_wire.specs.Pong.{pong_octets};
ghost use Rattle.zmtp_peer.specs.Events.{Event};
ghost use Rattle.zmtp_peer.specs.Reading.{Stands};
ghost use Rattle.zmtp_peer.specs.Subscribing.{subscription_frame, IsReady};
ghost use Rattle.zmtp_peer.specs.Terms.{terms_of};

use crate::output::send;
use console_talk::ConsoleFault;
use std::alloc::Global;
use std::collections::VecDeque;
use std::io::{ErrorKind, Read, Write};
use zmtp_peer::{Peer, PeerEvent, PeerFault, Role};
use zmtp_wire::{SendFault, WireFault, send_message, send_pong};

/// The most octets that are read at once.
const READ_OCTETS: usize = 8192;

/// A connection to one socket of the kernel, over a reader and a writer.
#[derive(Drop)]
pub struct Wire<R, W> {
    pub alloc: Global,
    pub reader: R,
    pub writer: W,
    pub peer: Peer,
    /// Whether the kernel's READY came.
    pub is_ready: bool,
    /// The messages that came and were not taken yet.
    pub messages: VecDeque<Vec<Vec<u8>>>,
}

/// What a fault of the kernel's end comes to.
fn peer_fault(fault: PeerFault) -> ConsoleFault {
    match fault {
        PeerFault::Wire(WireFault::Memory) => ConsoleFault::NoMemory,
        _ => ConsoleFault::NoConnection,
    }
}

/// What it comes to that a message, or the answer to a ping, did not go out whole. No kernel takes one that is too long.
fn unsent(fault: SendFault) -> ConsoleFault {
    match fault {
        SendFault::Memory => ConsoleFault::NoMemory,
        SendFault::TooLong | SendFault::Write => ConsoleFault::NoConnection,
    }
}

impl<R: Read + Drop, W: Write + Drop> Wire<R, W> {
    /// Opens the connection in this role: sends what goes first, and waits until the kernel is ready.
    pub fn open(
        alloc: Global,
        reader: R,
        writer: W,
        role: Role,
    ) -> Result<Wire<R, W>, ConsoleFault> {
        let mut wire = Wire {
            alloc,
            reader,
            writer,
            peer: Peer::new(alloc, role),
            is_ready: false,
            messages: VecDeque::new(alloc),
        };
        wire.begin()?;
        Ok(wire)
    }

    /// Sends what goes first, and waits until the kernel is ready.
    fn begin(&mut self) -> Result<(), ConsoleFault> {
        match self.peer.opening() {
            Ok(opening) => send(&mut self.writer, &opening)?,
            Err(fault) => return Err(peer_fault(fault)),
        }
        self.await_ready()
    }

    /// Reads until the kernel is ready.
    fn await_ready(&mut self) -> Result<(), ConsoleFault> {
        // A loop is proved to end, so this one counts its reads.
        for _ in 0..u64::MAX {
            if self.is_ready {
                return Ok(());
            }
            if !self.read_once()? {
                return Err(ConsoleFault::NoConnection);
            }
        }
        Err(ConsoleFault::NoConnection)
    }

    /// Takes in the next octets. It answers false where none came in the time that the reader waits.
    fn read_once(&mut self) -> Result<bool, ConsoleFault> {
        let mut room = [0u8; READ_OCTETS];
        match self.reader.read(&mut room) {
            Ok(0) => Err(ConsoleFault::NoConnection),
            Ok(count) => {
                self.take(&room[..count])?;
                Ok(true)
            }
            Err(error) => match error.kind() {
                ErrorKind::WouldBlock | ErrorKind::TimedOut => Ok(false),
                ErrorKind::Interrupted => Ok(true),
                _ => Err(ConsoleFault::NoConnection),
            },
        }
    }

    /// Takes octets that came.
    fn take(&mut self, octets: &[u8]) -> Result<(), ConsoleFault> {
        let events = match self.peer.feed(octets) {
            Ok(events) => events,
            Err(fault) => return Err(peer_fault(fault)),
        };
        for event in events {
            self.keep(event)?;
        }
        Ok(())
    }

    /// Keeps what an event tells.
    fn keep(&mut self, event: PeerEvent) -> Result<(), ConsoleFault> {
        match event {
            PeerEvent::Ready => self.is_ready = true,
            PeerEvent::Message(frames) => self.messages.push_back(frames)?,
            PeerEvent::Ping(context) => self.answer(&context)?,
            PeerEvent::Subscribe(_prefix) | PeerEvent::Cancel(_prefix) => {}
        }
        Ok(())
    }

    /// Answers a ping: the pong with its context goes out, or a beginning of it.
    fn answer(&mut self, context: &[u8]) -> Result<(), ConsoleFault>
        ensures ok { OnOk result (Appends (W.contents self.old.writer) (W.contents self.new.writer) (pong_octets context.now)) }
        ensures err { OnErr result (SentSome (W.contents self.old.writer) (W.contents self.new.writer) (pong_octets context.now)) }
        ensures peer { self.new.peer ≡ self.old.peer }
    {
        match send_pong(self.alloc, &mut self.writer, context) {
            Ok(()) => Ok(()),
            Err(fault) => Err(unsent(fault)),
        }
    }

    /// Subscribes to all that begins with a prefix, in the form that the kernel's version takes: that goes out, or a beginning of it. `NoConnection`, and
    /// nothing goes out, where the kernel isn't ready.
    pub fn subscribe(&mut self, prefix: &[u8]) -> Result<(), ConsoleFault>
        ensures ready { OnOk result (IsReady self.old.peer.state) }
        ensures ok { (fed : List ℕ) → (given : List Event) → Stands fed given self.old.peer → OnOk result (Appends
            (W.contents self.old.writer) (W.contents self.new.writer)
            (written (subscription_frame (terms_of self.old.peer.role self.old.peer.greeting) prefix.now))) }
        ensures err { (fed : List ℕ) → (given : List Event) → Stands fed given self.old.peer → OnErr result (SentSome
            (W.contents self.old.writer) (W.contents self.new.writer)
            (written (subscription_frame (terms_of self.old.peer.role self.old.peer.greeting) prefix.now))) }
        ensures peer { self.new.peer ≡ self.old.peer }
    {
        if !self.peer.is_ready() {
            return Err(ConsoleFault::NoConnection);
        }
        match self.peer.subscription(prefix) {
            Ok(octets) => send(&mut self.writer, &octets),
            Err(WireFault::Memory) => Err(ConsoleFault::NoMemory),
            // No kernel takes so long a prefix.
            Err(_) => Err(ConsoleFault::NoConnection),
        }
    }

    /// The next message; none where none came in the time that the reader waits.
    pub fn next(&mut self) -> Result<Option<Vec<Vec<u8>>>, ConsoleFault> {
        for _ in 0..u64::MAX {
            if let Some(frames) = self.messages.pop_front() {
                return Ok(Some(frames));
            }
            if !self.read_once()? {
                return Ok(None);
            }
        }
        Err(ConsoleFault::NoConnection)
    }

    /// Writes a message of these frames: all its octets, or where that fails a beginning of them.
    pub fn write(&mut self, frames: &[Vec<u8>]) -> Result<(), ConsoleFault>
        ensures ok { OnOk result (Appends (W.contents self.old.writer) (W.contents self.new.writer) (message_octets (bodies_of frames.now))) }
        ensures err { OnErr result (SentSome (W.contents self.old.writer) (W.contents self.new.writer) (message_octets (bodies_of frames.now))) }
    {
        match send_message(self.alloc, &mut self.writer, frames) {
            Ok(()) => Ok(()),
            Err(fault) => Err(unsent(fault)),
        }
    }
}
