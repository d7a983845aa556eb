//! The clock by which streams are read and written.
use crate::decisions::times::Times;
use std::time::{Clock, Duration};

/// The most times that a read or a write is begun anew which a signal interrupted.
pub(crate) const INTERRUPTIONS: u32 = 1_000;

/// The time on the clock; its start where it can't be read.
pub(crate) fn clock_of<R: Clock>(rt: &R) -> Duration {
    match rt.monotonic() {
        Ok(time) => time,
        Err(_) => Duration::ZERO,
    }
}

/// When a handshake has to be over that begins now.
pub(crate) fn handshake_end<R: Clock>(rt: &R, times: Times) -> Duration {
    clock_of(rt).saturating_add(Duration::from_millis(times.handshake))
}

/// Milliseconds of the clock.
pub(crate) fn milliseconds<R: Clock>(rt: &R) -> u64 {
    let now = clock_of(rt);
    now.as_secs()
        .saturating_mul(1000)
        .saturating_add(now.subsec_millis() as u64)
}
