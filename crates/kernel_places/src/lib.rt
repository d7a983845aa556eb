//! The places at which a kernel serves its connections: 32 for each of the five sockets, and 32 more for shell. Each takes a connection, serves it to its
//! end and takes the next. Beside them are an acceptor for each socket, who accepts the connections, and the worker that runs the cells; and all of them
//! come to an end together.
//!
//! A socket serves 32 connections at once. On shell orphans don't count among them: connections whose peer has hung up while their request is under way. If
//! another connection comes when 32 are served, a place is relieved of an orphan, if there is one (`kernel_sockets::who_is_relieved`). The orphan's job stays
//! in the queue and its place goes on with it, and the other connection is served at one of the further places.
//!
//! How long connections have [`Times`] says, and how much they may bring [`Limits`]. A connection whose handshake takes ten seconds fails, and so does a
//! message that takes ten seconds to be written. Where there is no orphan, one connection makes room (`kernel_sockets::who_makes_room`): one whose
//! handshake is not over, 200 milliseconds after it was let in. Where there is none, on shell and control it is the one that was let in longest ago of
//! those on which no message came that is signed, if 200 milliseconds ago; on stdin, iopub and the heartbeat, where nothing is signed, the one that has
//! been silent longest, and for a minute at least: nothing came on it, and it took nothing. Where there is none of these either, it is who showed the key
//! and has been silent longest, for ten minutes at least with no request under way: a connection whose peer is gone without a word keeps nobody out for
//! ever. One whose partner speaks ZMTP 3.1 is pinged then (`kernel_sockets::who_is_pinged`), and makes room only if nothing comes from it for a minute.
//! Where none of the 32 has to, the next one waits.
//!
//! What strangers send is counted before it is kept (`kernel_sockets::Strangers`): until a message signed under the key came on shell and control,
//! until a message was sent back on the heartbeat, and as long as the connection is there on iopub and stdin, but for pings that were answered. One by
//! which they would hold too much ends, and so does a subscriber that brings more than its prefixes may take. Each place has an allowance, and has it again
//! behind each connection.
//!
//! Nobody reads these facts from octets: who serves a connection tells them to the [`Watcher`](kernel_watch::Watcher) that it is lent, which notes them at
//! the connection's place: that the handshake is over, whether the partner answers pings, that a message is signed, that a request is under way and that it is
//! done, that a message was sent back, and how many octets a ping had that was answered.
//!
//! A read or a write that a signal interrupted is begun anew, with its time, so a process that was stopped and goes on loses no connection.
//!
//! [`Service`] is what all places share: the hall, the board, the connections that are served, and the latches that all threads look at.
//! [`serve_all`] starts the threads, and no connection is accepted before all of them stand; it tells when it is ready, waits for a
//! shutdown and joins every thread. While it waits it looks every ten seconds at how many nodes and minutes there are, and tells once of each, by a line
//! to the errors, that nine tenths of them are used. A place of shell or control has a pass of the hall and a ringer's seat for as long as it lives.
//!
//! As a shutdown is answered no more connections are accepted, and those on which requests come are shut for reading. The worker comes to
//! its end first: the cell that ran was rung for, and goes back in as many steps as it took. Each connection has a grace then in which it
//! still gets the answer that it waits for; behind it the same is done to the subscribers, who so get the last broadcasts. Both graces
//! together are less than a second.
//!
//! To the layer above this crate promises safety alone, that each place's seat is one of the bell of the hall (the type of `HallDesk`), and
//! that nothing of a connection is counted behind its end (the type of `Allowance`): that a thread runs, a connection is served or an end
//! comes, no contract can say.
//!
//! The crate has three rooms. `decisions` has plain values and what is decided by them: `entrance`, who is let in at a socket; `places`, how many there are,
//! no two of which are one ([`places_are_apart_law`]); `sockets`, `times` and `limits`, the rules of each socket (specs/Sockets.antt), its times, and what else
//! it has. Who has to leave, who is pinged and what of a stranger is counted
//! `kernel_sockets` decides.
//! `streams` are those of a connection: `reader`, on which it comes within the time of its handshake, and `writer`, on which answers go out within their
//! deadline; `witness` notes what is told of it, and `clock` tells the time. `threads` has the life of all threads, in the order in which a connection passes
//! them: `listeners`, where it comes; `acceptor`, who accepts it and has others make room; `door`, where it waits for a place; `attending`, its place; `host`,
//! by which it is served there. `worker` runs the cells, `task` is what a thread does, `latch` what all of them look at, `service` what they share; `start`
//! starts and ends them, `runtime` is what they are handed, and `warning` tells which limits are near.
//!
//! It gives again what a program needs to start it: the kernel, the hall and the comms that it makes.
//!
//! By what is noted at a place `kernel_sockets::Account` promises that of who showed the key no octets are counted, and that a stranger's may be kept only
//! if they are counted. That none are kept before it is asked is no clause's. A ping is written by the acceptor, while the place waits for what comes and
//! so writes nothing: it holds a `kernel_sockets::Listening` meanwhile, which can't be let go of. That it stays out of messages is no clause's either. When
//! the watcher is told `kernel_session::serve` and `kernel_iopub` promise; that what it is told is noted at the place is tested. `serve_all` has a
//! condition alone.
#![tactic(auto)]

mod decisions;
mod streams;
mod threads;

pub use decisions::limits::Limits;
pub use decisions::places::{ALL_PLACES, DESKS, PLACES, places_are_apart_law};
pub use decisions::times::Times;
pub use kernel_desk::{
    Comms, Entry, Hall, HistoryName, Kernel, NewHistory, Note, PARTS_OF_POSTS, Passes,
};
pub use threads::listeners::Listeners;
pub use threads::runtime::Runtime;
pub use threads::service::Service;
pub use threads::start::{Seats, serve_all};
