//! The streams of a connection, each read and written in its time, and what is noted of it.
pub(crate) mod clock;
pub(crate) mod reader;
pub(crate) mod witness;
pub(crate) mod writer;
