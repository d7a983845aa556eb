//! A conversation with a kernel over its shell and iopub sockets.
ghost use Rattle.std.specs.Prelude.{◌≡◌, ◌+◌, ◌%◌, ◌^◌, OnOk, IfOk, string_bytes};
ghost use Rattle.std.specs.Io.KnownBytes.{Appends};
ghost use Rattle.kernel_message.specs.Draft.{said_of};
ghost use Rattle.console_program.specs.Requests.{request_octets};

use crate::wire::Wire;
use console_talk::{
    ConsoleCommand, ConsoleFault, Heard, Printed, comm_close_draft, comm_open_draft, comm_told,
    complete_draft, completion_told, execute_draft, is_answer_to, is_in_session, kernel_info_draft,
    message, move_draft, run_told, state_draft, what_is_heard,
};
use jupyter_msg::{Key, MsgFault, Opened, open};
use kernel_message::Draft;
use serde_json::Value;
use std::alloc::Global;
use std::io::{Read, Write};

/// The most times that the kernel is asked what it is, until a status with its parent came.
const ASKING_LIMIT: u32 = 100;

/// The most broadcasts that are looked at for each asking, be they refused or not: in all askings more than a kernel keeps.
const BROADCAST_LIMIT: u32 = 64;

/// A conversation with a kernel: a connection to shell, one to iopub that is subscribed to all, and the session.
#[derive(Drop)]
pub struct Frontend<R, W> {
    pub alloc: Global,
    pub key: Key,
    pub session: String,
    /// The number of the next message.
    pub next: u64,
    pub shell: Wire<R, W>,
    pub iopub: Wire<R, W>,
}

/// Subscribes to all broadcasts.
pub fn subscribe<R: Read + Drop, W: Write + Drop>(
    iopub: &mut Wire<R, W>,
) -> Result<(), ConsoleFault> {
    iopub.subscribe(&[])
}

/// The message of these frames; none where it is refused.
fn opened(alloc: Global, frames: Vec<Vec<u8>>, key: &Key) -> Result<Option<Opened>, ConsoleFault> {
    match open(alloc, frames, key) {
        Ok(opened) => Ok(Some(opened)),
        Err(MsgFault::Memory) => Err(ConsoleFault::NoMemory),
        Err(_) => Ok(None),
    }
}

/// Passes over a message.
fn pass_over(_: Opened) {}

/// The content of a message.
fn content_of(opened: Opened) -> Value {
    opened.content
}

/// What a kernel told of a message until it was done with it.
#[derive(Drop)]
struct News {
    /// What its cell shows, if it shows something.
    shown: Option<Value>,
    /// What is printed of what was said on the comm, if something was.
    said: Option<Printed>,
    /// Whether the comm was closed.
    is_closed: bool,
}

impl<R: Read + Drop, W: Write + Drop> Frontend<R, W> {
    /// Sends a request on shell, and answers its number: its octets go out, those of the message of the session under this number, signed. The next
    /// request has the number behind it, and 0 behind the last one.
    pub fn send(&mut self, draft: &Draft) -> Result<u64, ConsoleFault>
        ensures number { IfOk result (λ n. n ≡ self.old.next) }
        ensures next { OnOk result (self.new.next ≡ (self.old.next + 1) % 2 ^ 64) }
        ensures written { OnOk result (Appends (W.contents self.old.shell.writer) (W.contents self.new.shell.writer)
            (request_octets self.old.key (string_bytes self.old.session) self.old.next (said_of draft.now))) }
    {
        let n = self.next;
        let message = message(self.alloc, &self.session, n, draft)?;
        let Ok(frames) = message.into_frames(self.alloc, &self.key) else {
            return Err(ConsoleFault::NoMemory);
        };
        self.shell.write(&frames)?;
        self.next = n.wrapping_add(1);
        Ok(n)
    }

    /// Sends a request that is sent once, and answers its number.
    fn ask(&mut self, draft: Draft) -> Result<u64, ConsoleFault> {
        self.send(&draft)
    }

    /// The broadcast that comes next, where one has to come; none where it is refused.
    fn next_broadcast(&mut self) -> Result<Option<Opened>, ConsoleFault> {
        let Some(frames) = self.iopub.next()? else {
            return Err(ConsoleFault::NoConnection);
        };
        opened(self.alloc, frames, &self.key)
    }

    /// The next broadcast, where one has to come. Those that are refused are passed over.
    fn some_broadcast(&mut self) -> Result<Opened, ConsoleFault> {
        for _ in 0..u64::MAX {
            if let Some(broadcast) = self.next_broadcast()? {
                return Ok(broadcast);
            }
        }
        Err(ConsoleFault::NoConnection)
    }

    /// Whether a broadcast is a status that answers this session.
    fn has_own_status(&self, broadcast: &Opened) -> Result<bool, ConsoleFault> {
        match what_is_heard(&broadcast.header, &broadcast.content) {
            Heard::Idle | Heard::Status => {
                Ok(is_in_session(self.alloc, &broadcast.message, &self.session)?)
            }
            Heard::Result | Heard::CommData | Heard::CommClosed | Heard::Other => Ok(false),
        }
    }

    /// Whether a broadcast, as it came, is a status that answers this session.
    fn tells_own_status(&self, frames: Vec<Vec<u8>>) -> Result<bool, ConsoleFault> {
        match opened(self.alloc, frames, &self.key)? {
            Some(broadcast) => self.has_own_status(&broadcast),
            None => Ok(false),
        }
    }

    /// Whether a status that answers this session comes among the next broadcasts, and in the time that the reader waits.
    fn hears_status(&mut self) -> Result<bool, ConsoleFault> {
        for _ in 0..BROADCAST_LIMIT {
            let Some(frames) = self.iopub.next()? else {
                return Ok(false);
            };
            if self.tells_own_status(frames)? {
                return Ok(true);
            }
        }
        Ok(false)
    }

    /// Asks what the kernel is, and answers whether a status with its parent came.
    fn try_greeting(&mut self) -> Result<bool, ConsoleFault> {
        self.ask(kernel_info_draft(self.alloc))?;
        self.hears_status()
    }

    /// Asks what the kernel is, until a status with its parent came: then all later broadcasts come too.
    pub fn greet(&mut self) -> Result<(), ConsoleFault> {
        for _ in 0..ASKING_LIMIT {
            if self.try_greeting()? {
                return Ok(());
            }
        }
        Err(ConsoleFault::NoConnection)
    }

    /// The message that comes next on shell, where one has to come; none where it is refused.
    fn next_reply(&mut self) -> Result<Option<Opened>, ConsoleFault> {
        let Some(frames) = self.shell.next()? else {
            return Err(ConsoleFault::NoConnection);
        };
        opened(self.alloc, frames, &self.key)
    }

    /// The message, if it answers the n-th one.
    fn if_answers(&self, came: Opened, n: u64) -> Result<Option<Opened>, ConsoleFault> {
        match is_answer_to(self.alloc, &came.message, &self.session, n) {
            Ok(true) => Ok(Some(came)),
            Ok(false) => {
                pass_over(came);
                Ok(None)
            }
            Err(fault) => {
                pass_over(came);
                Err(ConsoleFault::from(fault))
            }
        }
    }

    /// The message that comes next on shell, if it is the reply to the n-th message.
    fn if_reply_to(&mut self, n: u64) -> Result<Option<Opened>, ConsoleFault> {
        match self.next_reply()? {
            Some(reply) => self.if_answers(reply, n),
            None => Ok(None),
        }
    }

    /// The reply to the n-th message.
    fn reply_to(&mut self, n: u64) -> Result<Opened, ConsoleFault> {
        for _ in 0..u64::MAX {
            if let Some(reply) = self.if_reply_to(n)? {
                return Ok(reply);
            }
        }
        Err(ConsoleFault::NoConnection)
    }

    /// The next broadcast, if it answers the n-th message.
    fn if_broadcast_for(&mut self, n: u64) -> Result<Option<Opened>, ConsoleFault> {
        let broadcast = self.some_broadcast()?;
        self.if_answers(broadcast, n)
    }

    /// The next broadcast that answers the n-th message.
    fn broadcast_for(&mut self, n: u64) -> Result<Opened, ConsoleFault> {
        for _ in 0..u64::MAX {
            if let Some(broadcast) = self.if_broadcast_for(n)? {
                return Ok(broadcast);
            }
        }
        Err(ConsoleFault::NoConnection)
    }

    /// What is heard in the next broadcast that answers the n-th message, and its content.
    fn hear(&mut self, n: u64) -> Result<(Heard, Value), ConsoleFault> {
        let broadcast = self.broadcast_for(n)?;
        let heard = what_is_heard(&broadcast.header, &broadcast.content);
        Ok((heard, content_of(broadcast)))
    }

    /// What is printed of what was said on a comm.
    fn data_told(&self, content: Value) -> Result<Printed, ConsoleFault> {
        match comm_told(self.alloc, &content) {
            Ok(told) => Ok(told),
            Err(fault) => Err(ConsoleFault::from(fault)),
        }
    }

    /// Notes what a broadcast tells. Whether it is the last one: the kernel is done with the message.
    fn note(&self, heard: Heard, content: Value, news: &mut News) -> Result<bool, ConsoleFault> {
        match heard {
            Heard::Idle => return Ok(true),
            Heard::Result => news.shown = Some(content),
            Heard::CommData => news.said = Some(self.data_told(content)?),
            Heard::CommClosed => news.is_closed = true,
            Heard::Status | Heard::Other => {}
        }
        Ok(false)
    }

    /// Waits until the kernel is done with the n-th message, and keeps what it tells of it until then.
    fn listen(&mut self, n: u64, news: &mut News) -> Result<(), ConsoleFault> {
        for _ in 0..u64::MAX {
            let (heard, content) = self.hear(n)?;
            if self.note(heard, content, news)? {
                return Ok(());
            }
        }
        Err(ConsoleFault::NoConnection)
    }

    /// Waits until the kernel is done with the n-th message, and answers what it told of it until then.
    fn news_of(&mut self, n: u64) -> Result<News, ConsoleFault> {
        let mut news = News {
            shown: None,
            said: None,
            is_closed: false,
        };
        self.listen(n, &mut news)?;
        Ok(news)
    }

    /// Runs a text as a cell. The broadcasts are read first, so that none wait unread while others run theirs.
    fn run(&mut self, code: &str) -> Result<Printed, ConsoleFault> {
        let n = self.ask(execute_draft(self.alloc, code)?)?;
        self.ran(n)
    }

    /// What came of the cell that the n-th message runs.
    fn ran(&mut self, n: u64) -> Result<Printed, ConsoleFault> {
        let news = self.news_of(n)?;
        let reply = content_of(self.reply_to(n)?);
        Ok(run_told(self.alloc, &reply, news.shown.as_ref())?)
    }

    /// Completes the name at the end of a text.
    fn complete(&mut self, text: &str) -> Result<Printed, ConsoleFault> {
        let n = self.ask(complete_draft(self.alloc, text)?)?;
        self.completed(n)
    }

    /// What came of the completion that the n-th message asks for.
    fn completed(&mut self, n: u64) -> Result<Printed, ConsoleFault> {
        let reply = content_of(self.reply_to(n)?);
        Ok(completion_told(self.alloc, &reply)?)
    }

    /// Asks on the comm that the n-th message opened.
    fn ask_on_open_comm(&mut self, n: u64, asked: &Draft) -> Result<Printed, ConsoleFault> {
        if self.news_of(n)?.is_closed {
            return Err(ConsoleFault::NoComm);
        }
        let n = self.send(asked)?;
        let News {
            shown: _,
            said,
            is_closed: _,
        } = self.news_of(n)?;
        match said {
            Some(said) => Ok(said),
            None => Err(ConsoleFault::NoConnection),
        }
    }

    /// Closes the comm, and waits until the kernel is done with that.
    fn close_comm(&mut self, close: &Draft) -> Result<(), ConsoleFault> {
        let n = self.send(close)?;
        let _news = self.news_of(n)?;
        Ok(())
    }

    /// Closes the comm behind an answer, and gives the answer.
    fn close_after(&mut self, close: &Draft, told: Printed) -> Result<Printed, ConsoleFault> {
        self.close_comm(close)?;
        Ok(told)
    }

    /// Closes the comm behind a fault, and gives that fault, also where closing fails.
    fn close_after_fault(&mut self, close: &Draft, fault: ConsoleFault) -> ConsoleFault {
        match self.close_comm(close) {
            Ok(()) | Err(_) => fault,
        }
    }

    /// Asks on the comm that the n-th message opened, and closes it, unless the kernel closed it at once.
    fn ask_and_close(
        &mut self,
        n: u64,
        asked: &Draft,
        close: &Draft,
    ) -> Result<Printed, ConsoleFault> {
        match self.ask_on_open_comm(n, asked) {
            Ok(told) => self.close_after(close, told),
            Err(ConsoleFault::NoComm) => Err(ConsoleFault::NoComm),
            Err(fault) => Err(self.close_after_fault(close, fault)),
        }
    }

    /// Opens a comm, asks on it, and closes it: also where the answer isn't understood, or memory ran out.
    fn ask_on_comm(&mut self, asked: &Draft) -> Result<Printed, ConsoleFault> {
        let open = comm_open_draft(self.alloc, &self.session)?;
        let close = comm_close_draft(self.alloc, &self.session)?;
        let n = self.ask(open)?;
        self.ask_and_close(n, asked, &close)
    }

    /// Has the kernel make a move.
    fn go(&mut self, op: &str, n: u32) -> Result<Printed, ConsoleFault> {
        let asked = move_draft(self.alloc, &self.session, op, n)?;
        self.ask_on_comm(&asked)
    }

    /// Asks where the kernel stands.
    fn show(&mut self) -> Result<Printed, ConsoleFault> {
        let asked = state_draft(self.alloc, &self.session)?;
        self.ask_on_comm(&asked)
    }

    /// Has the kernel do what the command says, and answers what is printed.
    pub fn obey(&mut self, command: &ConsoleCommand) -> Result<Printed, ConsoleFault> {
        match command {
            ConsoleCommand::Run(code) => self.run(code),
            ConsoleCommand::Undo(k) => self.go("undo", *k),
            ConsoleCommand::Redo(k) => self.go("redo", *k),
            ConsoleCommand::Goto(n) => self.go("goto", *n),
            ConsoleCommand::Show => self.show(),
            ConsoleCommand::Complete(text) => self.complete(text),
        }
    }
}
