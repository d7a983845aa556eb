//! What the threads of the places are handed.
use std::sync::Wait;
use std::thread::Threads;
use std::time::Clock;

/// A runtime by which threads are started, wait and tell the time, and which they share.
pub trait Runtime: Threads + Wait + Clock + Sync {}

impl<R: Threads + Wait + Clock + Sync> Runtime for R {}
