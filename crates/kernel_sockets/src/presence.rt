//! What is known of the connection at a place.
ghost use Rattle.std.specs.Prelude.{◌≡◌};

use crate::room::Sight;
use std::io::Write;
use std::net::{Shutdown, TcpStream};
use std::sync::atomic::{AtomicBool, AtomicU64, Ordering};
use std::sync::{Mutex, Wait};
use std::time::Duration;

/// How long a ping may take to be written. It is short, and who listens reads, so its octets go into the room that the system has for them at once.
const PING_MILLISECONDS: u64 = 1;

/// What silent peers are asked by.
#[derive(Clone, Copy)]
pub struct Ping<'a> {
    /// Its octets.
    pub octets: &'a [u8],
    /// How many milliseconds a write waits on these connections otherwise.
    pub message: u64,
}

impl Ping<'_> {
    /// Writes it between two messages, as far as the system takes it at once. Where it is taken in part the connection ends, since what goes out behind it
    /// couldn't be read.
    fn write(self, stream: &TcpStream) {
        let mut writer = stream;
        let brief = Duration::from_millis(PING_MILLISECONDS);
        let _ = stream.set_write_timeout(Some(brief));
        let count = writer.write(self.octets).unwrap_or(0);
        let usual = Duration::from_millis(self.message);
        let is_usual = stream.set_write_timeout(Some(usual)).is_ok();
        if !is_usual || (count > 0 && count < self.octets.len()) {
            let _ = stream.shutdown(Shutdown::Both);
        }
    }
}

/// What was noted of a connection until now, that counts for what it brought.
#[derive(Clone, Copy)]
pub struct Noted {
    /// A message with a valid signature came on it.
    pub is_trusted: bool,
    /// All that came was answered by something that went out.
    pub was_answered: bool,
    /// How many octets that came were answered one by one.
    pub answered: u64,
}

/// What is known of the connection at a place, for all who look, without a lock.
#[derive(Drop)]
pub struct Presence {
    /// Its handshake is over.
    is_ready: AtomicBool,
    /// A message with a valid signature came on it.
    is_trusted: AtomicBool,
    /// Something went out on it that answers all that came before.
    is_answered: AtomicBool,
    /// The octets of what came that were answered one by one since this was asked last.
    answered: AtomicU64,
    /// When it was let in, or when it was seen last that who is not known by a signature is there, in milliseconds of a clock.
    heard: AtomicU64,
    /// No request is under way.
    is_resting: AtomicBool,
    /// Since when that is so and nothing came.
    rested: AtomicU64,
    /// Its peer answers pings: it speaks ZMTP 3.1 or later.
    answers_pings: AtomicBool,
    /// When it was pinged last; 0 if it was not. A peer counts as pinged where its window took nothing of the ping: it reads nothing.
    pinged: AtomicU64,
    /// Who serves it waits for what comes, and writes nothing meanwhile: a ping may be written, under this lock, as nothing else goes out.
    is_listening: Mutex<bool>,
}

/// Who serves a connection waits for what comes, and writes nothing meanwhile: its peer may be pinged. It can't be let go of: [`Listening::end`] alone
/// takes it, so whoever began to wait says when the wait is over.
pub struct Listening<'a> {
    presence: &'a Presence,
}

impl Listening<'_> {
    /// Who serves the connection may write again, once no ping is being written.
    pub fn end<R: Wait>(self, rt: &R) {
        let Listening { presence } = self;
        let mut is_listening = presence.is_listening.lock(rt);
        *is_listening = false;
    }
}

impl Presence {
    /// Of a place at which no connection has been yet.
    pub(crate) fn new() -> Presence {
        Presence {
            is_ready: AtomicBool::new(false),
            is_trusted: AtomicBool::new(false),
            is_answered: AtomicBool::new(false),
            answered: AtomicU64::new(0),
            heard: AtomicU64::new(0),
            is_resting: AtomicBool::new(true),
            rested: AtomicU64::new(0),
            answers_pings: AtomicBool::new(false),
            pinged: AtomicU64::new(0),
            is_listening: Mutex::new(false),
        }
    }

    /// A connection is let in at this time.
    pub(crate) fn begin(&self, now: u64) {
        self.is_ready.store(false, Ordering::SeqCst);
        self.is_trusted.store(false, Ordering::SeqCst);
        self.is_answered.store(false, Ordering::SeqCst);
        self.answered.store(0, Ordering::SeqCst);
        self.heard.store(now, Ordering::SeqCst);
        self.is_resting.store(true, Ordering::SeqCst);
        self.rested.store(now, Ordering::SeqCst);
        self.answers_pings.store(false, Ordering::SeqCst);
        self.pinged.store(0, Ordering::SeqCst);
    }

    /// Whether its peer answers pings.
    pub fn set_answers_pings(&self, answers: bool) {
        self.answers_pings.store(answers, Ordering::SeqCst);
    }

    /// Who serves it waits for what comes from now on, and writes nothing until [`Listening::end`].
    pub fn listen<R: Wait>(&self, rt: &R) -> Listening<'_> {
        let mut is_listening = self.is_listening.lock(rt);
        *is_listening = true;
        Listening { presence: self }
    }

    /// Pings the peer at this time, unless who serves it may write: then something came. It counts as pinged also where nothing of the ping was taken.
    pub(crate) fn ping<R: Wait>(&self, rt: &R, stream: &TcpStream, ping: Ping<'_>, now: u64) {
        let is_listening = self.is_listening.lock(rt);
        if *is_listening {
            self.pinged.store(now, Ordering::SeqCst);
            ping.write(stream);
        }
    }

    /// From this time on no request is under way.
    pub fn rest(&self, now: u64) {
        self.rested.store(now, Ordering::SeqCst);
        self.is_resting.store(true, Ordering::SeqCst);
    }

    /// A request is under way.
    pub fn work(&self) {
        self.is_resting.store(false, Ordering::SeqCst);
    }

    /// Something came on it at this time, whoever sent it: it is not silent.
    pub fn stir(&self, now: u64) {
        self.rested.store(now, Ordering::SeqCst);
    }

    /// Whether its handshake is over.
    pub fn is_ready(&self) -> bool {
        self.is_ready.load(Ordering::SeqCst)
    }

    /// Its handshake is over.
    pub fn set_ready(&self) {
        self.is_ready.store(true, Ordering::SeqCst);
    }

    /// Who is not known by a signature is there at this time.
    pub fn hear(&self, now: u64) {
        self.heard.store(now, Ordering::SeqCst);
    }

    /// A message with a valid signature came on it.
    pub fn trust(&self) {
        self.is_trusted.store(true, Ordering::SeqCst);
    }

    /// Whether a message with a valid signature came on it.
    pub fn is_trusted(&self) -> bool {
        self.is_trusted.load(Ordering::SeqCst)
    }

    /// All that came on it is answered by something that went out.
    pub fn answer(&self) {
        self.is_answered.store(true, Ordering::SeqCst);
    }

    /// Notes octets that came on it, are answered and no longer kept, as those of a ping.
    pub fn answer_octets(&self, count: u64) {
        let _before = self.answered.fetch_add(count, Ordering::SeqCst);
    }

    /// Takes what was noted since this was taken last: of what was answered it is not told again.
    pub fn take_noted(&self) -> Noted {
        Noted {
            is_trusted: self.is_trusted.load(Ordering::SeqCst),
            was_answered: self.is_answered.swap(false, Ordering::SeqCst),
            answered: self.answered.swap(0, Ordering::SeqCst),
        }
    }

    /// What is seen of the place, where a connection is there or isn't, and the place was relieved of it or wasn't. Its peer is not asked for.
    pub(crate) fn sight(&self, is_taken: bool, is_relieved: bool) -> Sight
        ensures taken { result.is_taken ≡ is_taken }
        ensures relieved { result.is_relieved ≡ is_relieved }
    {
        Sight {
            is_taken,
            is_ready: self.is_ready.load(Ordering::SeqCst),
            is_trusted: self.is_trusted.load(Ordering::SeqCst),
            is_resting: self.is_resting.load(Ordering::SeqCst),
            heard: self.heard.load(Ordering::SeqCst),
            rested: self.rested.load(Ordering::SeqCst),
            answers_pings: self.answers_pings.load(Ordering::SeqCst),
            pinged: self.pinged.load(Ordering::SeqCst),
            has_hung_up: false,
            is_relieved,
        }
    }
}
