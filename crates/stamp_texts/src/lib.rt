//! The texts that stamp what a kernel sends: the name of its session, and the date.
//!
//! To the layer above it promises that `session_name` is the version 4 identifier that a generator's stream draws (RFC 9562, section 5.4),
//! in the lower-case hyphenated form (section 4), and that `date_text` is the civil date and time in UTC of an instant, to the second, as
//! ISO 8601 writes it (specs/Date.antt). `present_date` asks a clock, and answers the date of some instant: no contract says of which. The
//! identifier is that of `uuid`, the calendar that of `jiff`.
#![tactic(auto)]

mod date;
mod name;
mod present;

pub use date::{date_text, has_date};
pub use name::session_name;
pub use present::present_date;
