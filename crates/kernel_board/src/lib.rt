//! The board: the last 4,096 broadcasts, numbered one after another, under a lock. Who publishes never waits for a reader: each reader
//! has a place, the number of the broadcast that it wants next, and one that falls behind what is kept is told so.
//!
//! To the layer above this crate promises that `publish_on` appends to the lent log by the definition of the log, and that `read_on`
//! answers `Lagged` exactly where the place is below the oldest broadcast that is kept, else the kept broadcasts from the place on, without
//! a gap, as many as there are up to 64. `publish` and `read_from` are these under the lock. No clause can name what lies under a lock when
//! a call takes it, so of `read_from` it is said that its answer is such a read of some log, and `publish` and `join` are tested.
//!
//! A `Broadcast` is the frames of one message. It is kept as their octets on the wire, which are made once, as the broadcast is made: a clone
//! shares them, a read copies none, and who writes it to a subscriber writes them from where they lie (`Broadcast::send`). Of the crates of
//! the kernel the board stands on `zmtp_wire` alone, which says what these octets are, and that they tell the frames, and on `exact_write`.
//! It knows nothing else of messages, so who publishes seals one once, whatever the crates above make of it.
//!
//! The definitions are in specs/: `Frames`, `Kept` (what is kept of a broadcast), `Log`
//! (which broadcasts are kept), `Reads` (what a read answers), `Laws` (both, over the whole list of broadcasts), `Fault`.
//!
//! So an answer of `read_from` that has no broadcast may be a read at any place.
#![tactic(auto)]

ghost use Rattle.kernel_board.specs.Laws.{LogIsOfAll, LaggedIsExact, ReadersMissNothing};

mod board;
mod broadcast;
mod content;
mod fault;
mod limit;
mod log;
mod packing;

pub use board::Board;
pub use broadcast::Broadcast;
pub use fault::BoardFault;
pub use limit::{BROADCASTS_OF_A_READ, KEPT_BROADCASTS};
pub use log::{BroadcastLog, Place, Read, publish_on, read_on};

/// Law: broadcasts published one after another give the log of their whole list.
pub fn log_is_of_all_law()
    ensures { LogIsOfAll }
{}

/// Law: a reader is told that it lagged exactly where more than [`KEPT_BROADCASTS`] broadcasts were published from its place on.
pub fn lagged_is_exact_law()
    ensures { LaggedIsExact }
{}

/// Law: a reader that reads on from place to place, and is never told that it lagged, misses nothing and gets nothing twice.
pub fn readers_miss_nothing_law()
    ensures { ReadersMissNothing }
{}
