//! The TCP sockets of a kernel, as threads share them: listening sockets that any thread can close while others wait at them, and the
//! connections that are being served, so that they can be brought to an end.
//!
//! A [`Listener`] hands out connections with no delay by Nagle's algorithm, on which a write waits as long as it is told at most. [`Connections`] are
//! those that are served at a number of places: who serves one enters it and leaves again, and who ends the kernel closes them all, so that
//! no more come in, and reads from those that are there come to their end ([`ConnectionInput`]). Of the connection at each place a [`Presence`] tells
//! whether it is ready, whether it is trusted, when it was heard and since when no request is under way, as it was noted there, so that one makes room where
//! all places are taken.
//! Who that is [`who_makes_room`] answers, by specs/Room.antt: of those whose time is over one that is not ready, else a stranger, and else who showed the
//! key and has been silent for long with no request under way; of a class the one that has been silent longest. Who showed the key and answers pings stays
//! until one was unanswered for long, and whom [`who_is_pinged`] answers is pinged where nobody has to leave. Before that a place is relieved of an
//! orphan, if there is one: a connection whose peer has hung up, as the system tells ([`Hangups`]), while its request is under way
//! ([`who_is_relieved`], specs/Relief.antt). It is served to its end, and another one beside it. What strangers bring is counted by
//! [`Strangers`]: each has its own share, and past their shares they bring no more together than they may, [`COMMON_OCTETS`] where nothing else is said. A
//! place has an [`Allowance`] for each connection that it serves, whose [`Account`] counts what comes on it by a [`Share`] and can't be let go of: it is given
//! back, and the types keep that the count is the sum of what the shares have, so that one which is given back is counted no longer. By its [`Quota`] a
//! connection may be held to fewer octets than strangers left. The time of a message that is written begins with its first piece and stays with the others
//! ([`WriteDeadline`]).
//!
//! To the layer above this crate promises that rule, that count, that time and safety: no clause can say what a socket does. The register under the
//! lock is exact on what it is lent ([`Connections`] is that register under a lock). It stands on no other crate of the kernel.
//!
//! A register that was closed stays so, and closing it takes nobody from its place. What stays within a stranger's own share is never
//! refused, and `Common::bring` refuses other octets only where there would be more than strangers may hold together. Who waits for what comes on a connection
//! holds a [`Listening`] that can't be let go of, so whoever began to wait says when the wait is over, and a ping goes out only in between.
#![tactic(auto)]

mod account;
mod connections;
mod deadline;
mod hangups;
mod input;
mod listener;
mod presence;
mod register;
mod relief;
mod room;
mod shares;

pub use account::{Account, Quota};
pub use connections::Connections;
pub use deadline::WriteDeadline;
pub use hangups::Hangups;
pub use input::ConnectionInput;
pub use listener::Listener;
pub use presence::{Listening, Noted, Ping, Presence};
pub use register::{Register, Stream};
pub use relief::who_is_relieved;
pub use room::{Sight, Stays, who_is_pinged, who_makes_room};
pub use shares::{Allowance, COMMON_OCTETS, Common, OWN_OCTETS, READ_OCTETS, Share, Strangers};
