//! A stream that is written in its time: each message within the write deadline.
ghost use Rattle.std.specs.Prelude.{◌≡◌, true};
ghost use Rattle.std.specs.Io.{WritesAtMost};

use crate::decisions::sockets::is_signed;
use crate::decisions::times::Times;
use crate::streams::clock::{INTERRUPTIONS, milliseconds};
use kernel_desk::Socket;
use kernel_iopub::HangUp;
use kernel_sockets::{Presence, WriteDeadline};
use std::io;
use std::io::{ErrorKind, Write};
use std::net::{Shutdown, TcpStream};
use std::time::{Clock, Duration};

/// What goes out on a connection. A message that takes longer than its time fails, in whatever pieces it is taken.
#[derive(Drop)]
pub(crate) struct TimedWriter<'a, R: Clock> {
    rt: &'a R,
    stream: &'a TcpStream,
    presence: &'a Presence,
    /// When the message has to be out of which a piece is.
    deadline: WriteDeadline,
    socket: Socket,
    /// It has ended the connection.
    pub is_over: bool,
}

impl<'a, R: Clock> TimedWriter<'a, R> {
    /// What goes out on a connection of a socket.
    pub fn new(
        rt: &'a R,
        stream: &'a TcpStream,
        presence: &'a Presence,
        socket: Socket,
        times: Times,
    ) -> TimedWriter<'a, R> {
        TimedWriter {
            rt,
            stream,
            presence,
            deadline: WriteDeadline::new(times.message),
            socket,
            is_over: false,
        }
    }

    /// Ends the connection both ways. Nothing goes out on it from now on.
    pub fn end(&mut self)
        ensures { self.new.is_over ≡ true }
    {
        let _ = self.stream.shutdown(Shutdown::Both);
        self.is_over = true;
    }

    /// Notes that something went out, where no signed message shows who is there: who takes it is there.
    fn note_taken(&self) {
        if !is_signed(self.socket) {
            self.presence.hear(milliseconds(self.rt));
        }
    }

    /// The next piece has the whole time of a message again.
    fn begin_anew(&mut self) -> io::Result<()> {
        self.deadline.wrote(true);
        let whole = Duration::from_millis(self.deadline.most);
        self.stream.set_write_timeout(Some(whole))
    }

    /// Has the next piece take no longer than what is left of the time of its message. The first one has what the socket has for each write.
    fn bound_next(&mut self) -> io::Result<()> {
        let is_first = self.deadline.until.is_none();
        match self.deadline.left(milliseconds(self.rt)) {
            None => Err(io::Error::from(ErrorKind::TimedOut)),
            Some(_) if is_first => Ok(()),
            Some(left) => {
                self.stream
                    .set_write_timeout(Some(Duration::from_millis(left)))
            }
        }
    }

    /// Writes some of these octets, in what is left of the time of their message.
    fn write_piece(&mut self, buf: &[u8]) -> io::Result<usize>
        ensures bound { WritesAtMost result buf.now }
    {
        let is_first = self.deadline.until.is_none();
        self.bound_next()?;
        let mut stream = self.stream;
        let count = stream.write(buf)?;
        self.note_taken();
        if count == buf.len() && !is_first {
            self.begin_anew()?;
        } else {
            self.deadline.wrote(count == buf.len());
        }
        Ok(count)
    }
}

impl<R: Clock> Write for TimedWriter<'_, R> {
    /// Where a signal interrupted a write it writes anew, and the time of the message begins anew.
    fn write(&mut self, buf: &[u8]) -> io::Result<usize> {
        for _ in 0..INTERRUPTIONS {
            match self.write_piece(buf) {
                Err(error) if error.kind() == ErrorKind::Interrupted => self.begin_anew()?,
                answer => return answer,
            }
        }
        Err(io::Error::from(ErrorKind::Interrupted))
    }

    fn flush(&mut self) -> io::Result<()> {
        Ok(())
    }
}

impl<R: Clock> HangUp for TimedWriter<'_, R> {
    ghost is_over = { λ writer. writer.is_over };

    fn hang_up(&mut self) {
        self.end();
    }
}
