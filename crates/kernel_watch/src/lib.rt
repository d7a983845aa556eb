//! What a connection tells who watches it.
//!
//! Who serves a connection knows when its handshake is over, when a message shows the key, when a request is under way and when it is done, and what of
//! that which came is answered. It tells these facts to a [`Watcher`] that it is lent, one [`Notice`] for each, so that nobody has to read them from octets.
//! [`Unwatched`] is told for nothing. Who watches may want to know whether a silent partner is there; [`ping`] has the octets by which it is asked, and
//! [`Watcher::meet`] tells whether it answers them.
//!
//! To the layer above this crate promises that a watcher that keeps what it is told has each notice once, in the order in which they were told
//! (specs/Hears.antt), and that the notice of a ping counts no more octets than the ping had, in whatever form its frame was (specs/Pings.antt; RFC 37,
//! "Heartbeating"). When each notice is told the crates above say: `kernel_session` and `kernel_iopub`.
//! The octets of a ping are those of the frame that it is. What `meet` tells is no clause's.
#![tactic(auto)]

mod asking;
mod notice;
mod watcher;

pub use asking::ping;
pub use notice::Notice;
pub use watcher::{Unwatched, Watcher};
