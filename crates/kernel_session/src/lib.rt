//! One connection of a kernel, from octets to octets: what is read is turned into events, each request is served by the kernel behind
//! the connection, and what goes out, what is asked of that kernel and what a watcher is told is the session of what came in.
//!
//! [`serve`] is the connection, over any reader, any writer, any [`Desk`], which is the kernel as a connection sees it, and any [`Watcher`]. To the layer
//! above it promises (specs/Ends.antt, by its answer) that the octets written, the calls made of the desk and the notices told to the watcher are those of the
//! opening of the socket's role and then of the session of the events that the octets read tell, each in their order; that they are a beginning of that
//! after a write fault, which also binds how octets, calls and notices follow each other, and after want of memory a beginning of the session of
//! some beginning of the input; and on iopub that at the end of the input the broadcasts that the desk keeps go out, as far as the
//! peer has subscribed to them: where a write fails or memory is wanting among these, those that went out were wanted at the end of some
//! beginning of the input. A message that is refused brings nothing, and the connection goes on; a fault of the peer ends it without
//! a word; a shutdown ends it once it is answered. In the place of a reply that is longer than any reader takes goes one that tells so
//! (specs/Sendable.antt).
//!
//! When the watcher is told is part of the session (specs/Session.antt): that the handshake is over, by the event that tells it; that a message is signed, of
//! each message on shell and control whose signature is right, before anything is done for it, and of no other; that a request is under way before its
//! first call, and that it is done behind its reply; that a message was sent back, and that a ping was answered, behind the last of their octets.
//!
//! The session is defined event by event (specs/: `Question`, `Call`, `Order`, `Action`, `Talk`, `Sendable`, `Session`, `Closing`, `Ends`, in this order). Its
//! sources are RFC 23 for what octets tell, as `zmtp_peer` has it, and the Jupyter messaging page (version 5.4) for what a message asks
//! and what is answered, as `jupyter_msg` and `kernel_reply` have it. `talk` says what each request has the desk do, `IsServed` what it
//! brings, `IsSession` what the events bring one after the other. A desk's own relation `leads` says what it may answer, so the session
//! of one desk is had by its relation. `laws` says of these definitions, over all requests and events, that busy is the first broadcast and idle
//! the last, which orders each request gives the desk (`Order`), with all that they carry, and that a session goes on event by event.
//!
//! No contract says when `serve` reads: that it answers each request before it reads the next is tested, not proved. No contract can say that
//! a stream failed: that `Read` and `Write` come only where one did is tested, not proved. The tests stand in `tests_sessions`.
//!
//! Control serves no execution and no message on comms, the heartbeat sends each message back, and stdin and iopub pass it over. Where no
//! number is left for a request, past 2^64 - 16, it is not served and the connection ends. `Ok` comes at the end of the input without a
//! fault of the peer, and once a shutdown is answered.
#![tactic(auto)]

mod connection;
mod desk;
mod fault;
mod flow;
pub mod laws;
mod message;
mod request;
mod send;
mod sendable;
mod socket;
mod talk;

pub use connection::serve;
pub use desk::Desk;
pub use fault::ServeFault;
pub use flow::Flow;
pub use kernel_watch::{Notice, Unwatched, Watcher};
pub use socket::Socket;
pub use talk::DeskReply;
