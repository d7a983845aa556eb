//! What a frontend asks, and what is answered.
use crate::inputs::{HistoryAsk, Input};
use crate::judgement::Completeness;
use thiserror::Error;

/// What a frontend asks. A cursor counts Unicode code points; none is the end of the code, and so is one past it. Texts are lent: who asks
/// keeps them, and nothing of them is copied.
#[derive(Clone, Copy)]
pub enum Ask<'a> {
    /// Which names go on with what stands in front of the cursor.
    Complete { code: &'a str, cursor: Option<u64> },
    /// What is known of the name that touches the cursor.
    Inspect { code: &'a str, cursor: Option<u64> },
    /// Whether the code can be executed as it stands.
    IsComplete { code: &'a str },
    /// The input history.
    History(HistoryAsk),
    /// The open comms.
    Comms,
    /// Whether the comm of this id is open.
    IsOpen { id: &'a str },
    /// The state of the kernel.
    State,
}

/// The names that begin with the longest name in front of a cursor, and where that stands, in Unicode code points.
#[derive(Debug, Drop)]
pub struct Completion {
    /// Declared names, names of procedures and keywords, each once, in the order of their octets.
    pub matches: Vec<String>,
    pub start: usize,
    pub end: usize,
}

/// What is answered.
#[derive(Debug, Drop)]
pub enum Content {
    Completion(Completion),
    /// The value text of the name, if it is declared, and the text of its procedure, if it has one, parted by LF.
    Inspection(Option<String>),
    Completeness(Completeness),
    /// The inputs, in rising order.
    History(Vec<Input>),
    /// The ids of the open comms, in the order of their octets.
    Comms(Vec<String>),
    /// Whether the comm that was asked for is open.
    IsOpen(bool),
    State(KernelState),
}

/// The state of a kernel.
#[derive(Debug, Drop)]
pub struct KernelState {
    /// The number of the node at which the kernel stands.
    pub node: usize,
    /// The execution counter.
    pub count: u64,
    /// How many cells can be undone.
    pub depth: usize,
    /// How many cells can be redone, along favourites.
    pub redo: usize,
    /// How many nodes there are beside the root.
    pub nodes: usize,
    /// Whether a job is open.
    pub busy: bool,
    /// The value texts of the declared names, in the order of declaration.
    pub world: Vec<String>,
}

/// An answer, and how many minutes it has seen.
#[derive(Debug, Drop)]
pub struct Answer {
    pub seen: usize,
    pub content: Content,
}

/// Why a question is not answered.
#[derive(Clone, Copy, Debug, Error)]
pub enum HallFault {
    /// There was no memory for the answer.
    #[error("Memory")]
    Memory,
    /// As many frontends as may be have a pass.
    #[error("NoPass")]
    NoPass,
}

impl HallFault {
    ghost use Rattle.std.specs.Prelude.{◌≡◌};
    ghost use Rattle.kernel_ask.specs.HallFault.{number_of, name_of};

    /// The number under which the refusal is told.
    pub fn number(self) -> u8
        ensures { result ≡ number_of self }
    {
        match self {
            HallFault::Memory => 76,
            HallFault::NoPass => 81,
        }
    }

    /// The word under which the refusal is told.
    pub fn name(self) -> &'static str
        ensures { result.now ≡ name_of self }
    {
        match self {
            HallFault::Memory => "Memory",
            HallFault::NoPass => "NoPass",
        }
    }
}
