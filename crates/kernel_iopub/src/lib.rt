//! The publish socket of a kernel: one connection of it, served by two threads, one of which reads what the peer subscribes to while the
//! other writes what it wants of the broadcasts on the board.
//!
//! The broadcasts of a kernel lie on the board of [`Bulletin`], with the [`Signals`] of the subscriber at each place: a count of its own that rises whenever
//! its writing half has something to look at. Who published wakes those that read the board, a reading half its own writing half alone, and who ends the
//! kernel all of them: each does so first and then raises the count, and who waits takes the count, looks at everything, and waits until the count is another
//! one. So no waking is lost, and nobody polls. A count has no lock: who waits sleeps on its word. So on its way to its answer a ping takes two locks, both
//! times the subscriber's: as it is heard, and as the writing half takes it.
//!
//! [`serve_subscriber`] is a connection, over any reader and writer. The peer joins the board as it is ready; one that falls behind what
//! the board keeps is disconnected.
//!
//! Its promise is that of the writing half ([`speak`], by specs/Round.antt). It goes in rounds, each of them one read of the board, from the place
//! where the round before ended. What goes out of a round are exactly the broadcasts of its read to which the peer had subscribed by all that it was
//! fed until it was asked, in their order and each whole. Before each of them, and behind a round, go the answers of one look at the pings, each whole and
//! in their order: all that a peer sent behind those that were taken, which a share of a ledger counts that the writing half keeps. So no
//! more answers go out than it counts. Where a turn fails all those before it are out whole, and of it nothing or a beginning. Board and peer lie under
//! locks, and no clause can name what lies there as a call takes it: so each round speaks of some log that the board's type allows, and each look at the
//! pings of some peer that its type allows, maybe another one at each look. So a look that finds none is allowed too. Of a subscriber that is lent it is
//! said exactly: what it gives are all pings that wait, in their order, each once (`Subscriber::give_pings`).
//! That is also why [`Bulletin::publish`] and [`Bulletin::join`] have no clause, as the board's own calls have none: what they do is said of a lent
//! log alone (`kernel_board::publish_on`, `BroadcastLog::end`).
//!
//! Each half tells a watcher that it is lent what it knows (`kernel_watch`): the reading half, once, that the handshake is over, and the writing half of
//! each ping that it answered, once the answer is out. What is told and what goes out is said in one list (specs/Signs.antt), so of a turn that fails it is
//! told what went out of it whole, and no more.
//!
//! Pings are answered before the next whole message, in their order: the reading half has those that came wait under the lock, and wakes the writing
//! half, which takes them. A peer with 64 of them unanswered is disconnected. The octets of a broadcast are written from where the board has them, so
//! none are made here.
//!
//! No contract says that a round comes, that one who waits wakes, or that a subscriber is heard. The sources are RFC 23 for messages, RFC 29 for a
//! publisher's subscriptions, and RFC 37 for pings.
//!
//! A writing half has hung up on its peer once it has ended, however it ended, and has written what [`speak`] writes ([`speak_and_hang_up`]): so a subscriber
//! that fell behind what the board keeps is disconnected. `serve_subscriber`, which runs the halves on two threads, has no clause. That a subscriber which
//! lost a ping for want of memory is marked so is no clause's. Neither is it that the reading half tells of a handshake that is over, since the peer which
//! tells it so lies under the lock: the clause is that it tells it once at most, and nothing else. That it does is tested.
//!
//! How many octets a subscriber may send is counted by who reads them from its connection (`kernel_sockets`), before they come here. Here the prefixes are
//! counted, and the pings.
#![tactic(auto)]

mod bulletin;
mod event_count;
mod fault;
mod half;
mod news;
mod send;
mod serve;
mod signals;
mod subscriber;

pub use bulletin::Bulletin;
pub use event_count::EventCount;
pub use fault::SubscriberFault;
pub use half::{hear, speak};
pub use kernel_watch::{Notice, Unwatched, Watcher};
pub use serve::{HangUp, serve_subscriber, speak_and_hang_up};
pub use signals::Signals;
pub use subscriber::{PREFIX_LIMIT, PREFIX_OCTET_LIMIT, Subscriber};
