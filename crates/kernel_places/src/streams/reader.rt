//! A stream that is read in its time: the handshake within its own, and what comes behind it without one.
ghost use Rattle.std.specs.Prelude.{◌≡◌, min, if◌then◌else◌};
ghost use Rattle.std.specs.Io.{ReadsAtMost};
ghost use Rattle.kernel_sockets.specs.declared.shares.TheConstants.{READ_OCTETS};

use crate::decisions::limits::Limits;
use crate::decisions::sockets::{is_signed, quota};
use crate::decisions::times::Times;
use crate::streams::clock::{INTERRUPTIONS, clock_of, handshake_end, milliseconds};
use kernel_desk::Socket;
use kernel_sockets::{Account, Allowance, ConnectionInput, Presence, READ_OCTETS, Strangers};
use std::io;
use std::io::{ErrorKind, Read};
use std::net::TcpStream;
use std::sync::Wait;
use std::sync::ledger::Ledger;
use std::time::{Clock, Duration};

/// How many octets are read at once where there is room for `room`: of a stranger no more than its messages may take lists for.
fn most_at_once(is_trusted: bool, room: usize) -> usize
    ensures { result ≡ (if is_trusted then room else min room READ_OCTETS) }
{
    if is_trusted {
        room
    } else {
        room.min(READ_OCTETS)
    }
}

/// What comes on a connection, up to its end. A handshake that takes longer than its time fails, and so does a stranger of whom nothing more can be held.
/// Whether the handshake is over, who showed the key and what was answered stands at the place, where who serves the connection tells it.
/// It can't be let go of: [`TimedReader::end`] gives back what is counted of it.
pub(crate) struct TimedReader<'a, R: Clock, S: Ledger> {
    rt: &'a R,
    stream: &'a TcpStream,
    input: ConnectionInput<'a>,
    presence: &'a Presence,
    /// Whether each read has a time, that of the handshake.
    is_timed: bool,
    times: Times,
    /// When the handshake has to be over.
    until: Duration,
    socket: Socket,
    /// What came, as long as it is counted.
    account: Account<'a, S>,
}

impl<'a, R: Clock + Wait, S: Ledger> TimedReader<'a, R, S> {
    /// What comes on a connection of a socket that was accepted just now.
    pub fn new(
        rt: &'a R,
        stream: &'a TcpStream,
        input: ConnectionInput<'a>,
        presence: &'a Presence,
        socket: Socket,
        limits: Limits,
        strangers: &'a Strangers<S>,
        allowance: Allowance<S>,
    ) -> TimedReader<'a, R, S> {
        TimedReader {
            rt,
            stream,
            input,
            presence,
            is_timed: true,
            times: limits.times,
            until: handshake_end(rt, limits.times),
            socket,
            account: Account::new(strangers, quota(socket, limits), allowance),
        }
    }

    /// The connection has come to its end: nothing of what came on it is counted any longer, and its place has its allowance again.
    pub fn end(self) -> Allowance<S> {
        let TimedReader {
            rt,
            stream: _,
            input: _,
            presence: _,
            is_timed: _,
            times: _,
            until: _,
            socket: _,
            account,
        } = self;
        account.close(rt)
    }

    /// Counts octets that came before anything of them is kept.
    ///
    /// # Errors
    ///
    /// `OutOfMemory` where a stranger, or all strangers together, would hold too much by them.
    fn count(&mut self, count: usize) -> io::Result<()> {
        let noted = self.presence.take_noted();
        if self.account.enter(self.rt, noted, count as u64) {
            return Ok(());
        }
        Err(io::Error::from(ErrorKind::OutOfMemory))
    }

    /// Reads what comes. Where a signal interrupted that it reads anew, and the time for the handshake begins anew: a process that was stopped and goes on
    /// loses no connection.
    fn read_on(&mut self, buf: &mut [u8]) -> io::Result<usize>
        ensures bound { ReadsAtMost result buf.new }
    {
        for _ in 0..INTERRUPTIONS {
            match self.input.read(buf) {
                Err(error) if error.kind() == ErrorKind::Interrupted => {
                    self.until = handshake_end(self.rt, self.times);
                }
                answer => return answer,
            }
        }
        Err(io::Error::from(ErrorKind::Interrupted))
    }

    /// Reads what comes. Where the key is shown nothing is written meanwhile by who serves the connection, so its peer may be pinged.
    fn listen(&mut self, buf: &mut [u8]) -> io::Result<usize>
        ensures bound { ReadsAtMost result buf.new }
    {
        if !is_signed(self.socket) {
            return self.read_on(buf);
        }
        let presence = self.presence;
        let listening = presence.listen(self.rt);
        let answer = self.read_on(buf);
        listening.end(self.rt);
        answer
    }

    /// Has the next read take no longer than what is left of the time for the handshake.
    fn bound_handshake(&mut self) -> io::Result<()> {
        // It took more than a stranger has for itself.
        if self.account.is_past_own() {
            return Err(io::Error::from(ErrorKind::InvalidData));
        }
        let left = self.until.saturating_sub(clock_of(self.rt));
        if left.is_zero() {
            return Err(io::Error::from(ErrorKind::TimedOut));
        }
        self.stream.set_read_timeout(Some(left))
    }

    /// Has the next read take no longer than it may: behind the handshake as long as it takes.
    fn bound_next(&mut self) -> io::Result<()> {
        if !self.presence.is_ready() {
            return self.bound_handshake();
        }
        if self.is_timed {
            self.is_timed = false;
            return self.stream.set_read_timeout(None);
        }
        Ok(())
    }

    /// Notes that something came behind the handshake. Where nothing is signed who sends something is there.
    fn note_heard(&self) {
        let now = milliseconds(self.rt);
        self.presence.stir(now);
        if !is_signed(self.socket) && self.presence.is_ready() {
            self.presence.hear(now);
        }
    }
}

impl<R: Clock + Wait, S: Ledger> Read for TimedReader<'_, R, S> {
    /// Of a stranger no more than 512 octets are read at once. What was noted since the last read counts before one waits: of who showed the key nothing is
    /// counted meanwhile.
    fn read(&mut self, buf: &mut [u8]) -> io::Result<usize> {
        let most = most_at_once(self.presence.is_trusted(), buf.len());
        self.count(0)?;
        self.bound_next()?;
        let count = self.listen(&mut buf[..most])?;
        self.count(count)?;
        self.note_heard();
        Ok(count)
    }
}
