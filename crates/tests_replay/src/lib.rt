//! Replays recorded sessions over memory, each to a kernel of its own, and writes what goes out.
//!
//! A block is a session. Its first line is the key of its messages. A line `slices 3 go, 1 ask` behind it names the slices that the kernel
//! is given, each by its number of steps and whether it asks the job to stop; behind them, and where there is no such line, come unasked
//! ones of 4,096 steps. Each further line is a socket's name and the octets that a frontend sent on a connection to it, in hexadecimal
//! digits.
//!
//! For each connection stand the socket's name and how it ended, and then the octets that went out, in a line of their own: printable
//! ones of ASCII as they are, others as `\xNN`. Each connection stands on the store that the ones before it in its session left. The
//! kernel is that of `kernel_server` in which nobody else has a part, so that what goes out is the session of what came in, as
//! `serve_lone` promises. A line that can't be read is told in place of its answer.
//!
//! The rows stand in the part `== replay` of the files `stdin` and `stdout` of `tests_calls`.
#![tactic(auto)]

mod connections;
mod escaped;
mod sessions;
mod slices;
mod stamps;

pub use sessions::tell;
