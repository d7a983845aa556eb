//! What connections have, how much they may bring, and when people are warned.
ghost use Rattle.std.specs.Prelude.{◌*◌, ◌≤◌, ◌↔◌, IsTrue};

use crate::decisions::places::PLACES;
use crate::decisions::times::Times;
use kernel_iopub::{PREFIX_LIMIT, PREFIX_OCTET_LIMIT};
use kernel_sockets::COMMON_OCTETS;

/// The octets that a frame has at most beside the prefix that it subscribes to or cancels: flags, a size, and the name of a command with its length.
const FRAME_OCTETS: u64 = 32;

/// The octets that a subscriber may bring: each prefix that it may subscribe to, once to subscribe and once to cancel, by messages or by commands.
const SUBSCRIBER_OCTETS: u64 = 2
    * (PREFIX_OCTET_LIMIT as u64 + FRAME_OCTETS * (PREFIX_LIMIT as u64));

/// What the connections of a kernel have, and when people are warned that a limit of the kernel is near.
#[derive(Clone, Copy)]
pub struct Limits {
    /// How long they have.
    pub times: Times,
    /// How many are served at once on a socket, but for orphans. No more than [`PLACES`] are.
    pub places: usize,
    /// How many octets all strangers together may bring past their own shares.
    pub common: u32,
    /// How many octets a connection to iopub may bring, but for pings that were answered.
    pub subscriber: u64,
    /// How many nodes the history of the kernel has at most beside its root: people are warned of them.
    pub nodes: usize,
    /// How many minutes the kernel has at most, of which each job takes two: people are warned of them.
    pub minutes: usize,
}

impl Limits {
    /// Those that `janus-kernel` has.
    pub const USUAL: Limits = Limits {
        times: Times::USUAL,
        places: PLACES,
        common: COMMON_OCTETS,
        subscriber: SUBSCRIBER_OCTETS,
        nodes: 65_536,
        minutes: 1_000_000,
    };
}

/// Whether nine tenths of `most` are used.
pub(crate) fn is_near(used: usize, most: usize) -> bool
    ensures { IsTrue result ↔ 9 * most ≤ 10 * used }
{
    9 * (most as u128) <= 10 * (used as u128)
}
