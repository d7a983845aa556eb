//! Whether the steps of a cell are taken, or taken back.
use janus_meaning::Fault;

/// Why a job goes back, and at which count it turned.
#[derive(Clone, Copy)]
pub enum Why {
    /// A slice was asked to stop.
    WasAsked(u64),
    /// The next step met a fault.
    Faulted(Fault, u64),
}

/// Whether the steps of the cell are taken, or taken back.
#[derive(Clone, Copy)]
pub enum Heading {
    GoesOn,
    GoesBack(Why),
}
