//! The messages that a Jupyter kernel sends: their headers, numbers and dates, and their JSON octet for octet.
//!
//! A [`Draft`] is what one message says: its type and its content. [`broadcast_of`] and [`send`] make messages of drafts: each has the
//! next number of a [`Stamp`], the header of the request as its parent header, and compact JSON with the keys in the order of
//! their octets, which [`put_text`] and its like add to an object one by one. Where there is no memory the stamp is as before, so no number is lost.
//!
//! What goes out is a function of what was asked, the stamp and the drafts (specs/: `Stamp`, `Message`, `Sent`). JSON is written by
//! `serde_json`. The header is that of the Jupyter messaging page (version 5.4, "General Message Format"), and a broadcast's topic
//! is its type. No message is cut or left out for its length: that a message is longer than a reader takes is told by who writes it.
//!
//! That the numbers stay below 2^64 is a condition of `send`.
#![tactic(auto)]

mod draft;
mod header;
pub mod laws;
mod members;
mod message;
mod outgoing;
mod stamp;

pub use crate::draft::Draft;
pub use crate::members::{put_count, put_empty, put_flag, put_text, put_value};
pub use crate::outgoing::{Drafts, Outgoing, Publication, broadcast_of, send};
pub use crate::stamp::Stamp;
