//! What the calls of a kernel answer.
ghost use Rattle.std.specs.Prelude.{◌≡◌};
ghost use Rattle.kernel_machine.specs.Refusal.{number_of, name_of, span_of};
ghost use Rattle.kernel_machine.specs.Text.{refused_by_syntax, refused_by_check};

use janus_check::CheckFault;
use janus_meaning::Fault;
use janus_syntax::SyntaxFault;
use janus_syntax::token::Span;
use thiserror::Error;

/// How a travel ended.
#[derive(Clone, Copy, Debug, PartialEq, Eq)]
pub enum TravelEnd {
    /// All its cells are done.
    All,
    /// It was asked to stop, and went back to the border before the cell in which it stood.
    Asked,
    /// There was no memory for the names that the next cell declares.
    NoMemory,
}

/// Why a job was not begun. The world, the tree and the position are as before.
#[derive(Clone, Copy, Debug, PartialEq, Eq, Error)]
pub enum Refusal {
    /// The text is no cell.
    #[error(transparent)]
    Syntax(SyntaxFault),
    /// The cell is not well formed over the declared names and procedures.
    #[error(transparent)]
    Check(CheckFault),
    /// The history has its 65,536 nodes beside the root.
    #[error("HistoryFull")]
    HistoryFull,
    /// There are fewer cells above, or fewer favourites below, than the job would undo or redo.
    #[error("TooFar")]
    TooFar,
    /// There is no node of this number.
    #[error("NoNode")]
    NoNode,
    /// The kernel was shut.
    #[error("Closing")]
    Closing,
    /// There was no memory for a cell's code, names or node, or its code has more statements or places than 32 bits count.
    #[error("Memory")]
    Memory,
}

impl Refusal {
    /// How a text is refused for a fault of its own, or for want of memory.
    pub fn of_syntax(fault: SyntaxFault) -> Refusal
        ensures { result ≡ refused_by_syntax fault }
    {
        match fault {
            SyntaxFault::Memory => Refusal::Memory,
            fault => Refusal::Syntax(fault),
        }
    }

    /// How what was read is refused for a fault of the check, or for want of memory.
    pub fn of_check(fault: CheckFault) -> Refusal
        ensures { result ≡ refused_by_check fault }
    {
        match fault {
            CheckFault::Memory => Refusal::Memory,
            fault => Refusal::Check(fault),
        }
    }

    /// The number under which the refusal is told.
    pub fn number(self) -> u8
        ensures { result ≡ number_of self }
    {
        match self {
            Refusal::Syntax(fault) => fault.number(),
            Refusal::Check(fault) => fault.number(),
            Refusal::HistoryFull => 70,
            Refusal::NoNode => 71,
            Refusal::TooFar => 73,
            Refusal::Closing => 75,
            Refusal::Memory => 76,
        }
    }

    /// The word under which the refusal is told.
    pub fn name(self) -> &'static str
        ensures { result.now ≡ name_of self }
    {
        match self {
            Refusal::Syntax(fault) => fault.name(),
            Refusal::Check(fault) => fault.name(),
            Refusal::HistoryFull => "HistoryFull",
            Refusal::NoNode => "NoNode",
            Refusal::TooFar => "TooFar",
            Refusal::Closing => "Closing",
            Refusal::Memory => "Memory",
        }
    }

    /// The octets of the text where it is refused, if it is the text that is.
    pub fn span(self) -> Option<Span>
        ensures { result ≡ span_of self }
    {
        match self {
            Refusal::Syntax(fault) => fault.span(),
            Refusal::Check(fault) => fault.span(),
            Refusal::HistoryFull => None,
            Refusal::NoNode => None,
            Refusal::TooFar => None,
            Refusal::Closing => None,
            Refusal::Memory => None,
        }
    }
}

/// What came of a job.
#[derive(Clone, Copy, Debug, PartialEq, Eq)]
pub enum Outcome {
    /// The cell is a new node: its number, and the steps that it took.
    Ran(usize, u64),
    /// The cell met this fault and was taken back: the fault, and how many steps it had taken.
    Failed(Fault, u64),
    /// The cell was asked to stop and was taken back: how many steps it had taken.
    Interrupted(u64),
    /// An undo: how many cells were undone, and why it ended there.
    Undid(usize, TravelEnd),
    /// A redo: how many cells were redone, and why it ended there.
    Redid(usize, TravelEnd),
    /// A goto: how many cells were undone, how many were redone then, and why it ended there.
    Went(usize, usize, TravelEnd),
    /// The job was not begun, for this reason.
    Refused(Refusal),
}

/// What `begin` answers.
#[derive(Clone, Copy, Debug, PartialEq, Eq)]
pub enum Begun {
    /// There is no job to begin, or the open one stands inside a cell.
    Nothing,
    /// The open job stands inside a cell now.
    Going,
    /// The job is over, and no job is open.
    Ended(Outcome),
}

/// What `slice` answers.
#[derive(Clone, Copy, Debug, PartialEq, Eq)]
pub enum Sliced {
    /// No job stands inside a cell.
    Nothing,
    /// The cell goes on.
    Going,
    /// A cell is done, and the job has further ones.
    Border,
    /// The cell is being taken back, and steps of that are left.
    Backing,
    /// The job is over, and no job is open.
    Ended(Outcome),
}

/// What the next call is to be.
#[derive(Clone, Copy, Debug)]
pub enum Phase {
    /// No job is open, and none is posted.
    Idle,
    /// No job is open, and `begin` takes the earliest posted one.
    Queued,
    /// The open job stands between two cells, and `begin` enters the next one.
    Border,
    /// The open job stands inside a cell, and `slice` takes steps of it.
    Inside,
}
