//! The threads: acceptors, places and the worker, from their start to their end.
mod acceptor;
mod attending;
mod door;
mod host;
mod latch;
pub mod listeners;
pub mod runtime;
pub mod service;
pub mod start;
mod task;
mod warning;
mod worker;
