//! The open job: what it does, and how far it is.
use kernel_loader::Program;
use kernel_machine::{Heading, Travel};

/// What runs inside a cell: a posted cell, or the next cell of a travel.
#[derive(Drop)]
pub enum Work {
    Cell(Program),
    Move(Travel),
}

/// A job inside a cell, and how many steps of the cell are taken.
#[derive(Drop)]
pub struct Entered {
    pub work: Work,
    pub count: u64,
    pub heading: Heading,
}

/// The open job, if there is one.
#[derive(Drop)]
pub enum Open {
    Idle,
    /// A travel between two of its cells.
    Border(Travel),
    Inside(Entered),
}

/// Where the open job stands.
#[derive(Clone, Copy)]
pub enum Stage {
    Idle,
    Border(Travel),
    Inside,
}
