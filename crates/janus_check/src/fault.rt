//! Why a cell is refused.
ghost use Rattle.std.specs.Prelude.{◌≡◌, Some};
ghost use Rattle.janus_check.specs.Fault.{number_of, fault_name, span_of, start_of, end_of, comes_before, sooner_of};

use janus_syntax::token::Span;
use std::alloc::AllocError;
use thiserror::Error;

/// The first fault of a cell, with the octets of its text where it stands.
#[derive(Clone, Copy, Debug, PartialEq, Eq, Error)]
pub enum CheckFault {
    /// A declared name that is declared already, a procedure's that the same cell defines already, or a parameter's that is
    /// given already.
    #[error("Declared")]
    Declared(Span),
    /// A name that is not in sight, or a called name that is no procedure.
    #[error("Unknown")]
    Unknown(Span),
    /// A name whose kind doesn't fit its use.
    #[error("WrongKind")]
    WrongKind(Span),
    /// The assigned name in its own index or right side, or a local's name in one of its own two expressions.
    #[error("SelfUse")]
    SelfUse(Span),
    /// The second place of a name among the arguments of a call.
    #[error("SameArgument")]
    SameArgument(Span),
    /// The called name, where the procedure has another number of parameters.
    #[error("Arity")]
    Arity(Span),
    /// A local's name that is in sight already.
    #[error("Shadow")]
    Shadow(Span),
    /// The name of a procedure that is defined already with parameters of other kinds.
    #[error("ChangedParameters")]
    ChangedParameters(Span),
    /// The name past the limit of declared names, of stacks, of procedures or of parameters.
    #[error("TooMany")]
    TooMany(Span),
    /// An array's length that isn't 1 to 65,536.
    #[error("ArrayLength")]
    ArrayLength(Span),
    /// There was no memory for the check.
    #[error("Memory")]
    Memory,
}

impl CheckFault {
    /// The number under which the fault is told.
    pub fn number(self) -> u8
        ensures { result ≡ number_of self }
    {
        match self {
            CheckFault::Memory => 35,
            CheckFault::Declared(_) => 40,
            CheckFault::Unknown(_) => 41,
            CheckFault::WrongKind(_) => 42,
            CheckFault::SelfUse(_) => 43,
            CheckFault::SameArgument(_) => 44,
            CheckFault::Arity(_) => 45,
            CheckFault::Shadow(_) => 46,
            CheckFault::ChangedParameters(_) => 47,
            CheckFault::TooMany(_) => 48,
            CheckFault::ArrayLength(_) => 49,
        }
    }

    /// The word under which the fault is told.
    pub fn name(self) -> &'static str
        ensures { result.now ≡ fault_name self }
    {
        match self {
            CheckFault::Memory => "Memory",
            CheckFault::Declared(_) => "Declared",
            CheckFault::Unknown(_) => "Unknown",
            CheckFault::WrongKind(_) => "WrongKind",
            CheckFault::SelfUse(_) => "SelfUse",
            CheckFault::SameArgument(_) => "SameArgument",
            CheckFault::Arity(_) => "Arity",
            CheckFault::Shadow(_) => "Shadow",
            CheckFault::ChangedParameters(_) => "ChangedParameters",
            CheckFault::TooMany(_) => "TooMany",
            CheckFault::ArrayLength(_) => "ArrayLength",
        }
    }

    /// The octets where the fault stands; none for want of memory.
    pub fn span(self) -> Option<Span>
        ensures { result ≡ span_of self }
    {
        match self {
            CheckFault::Memory => None,
            CheckFault::Declared(at) => Some(at),
            CheckFault::Unknown(at) => Some(at),
            CheckFault::WrongKind(at) => Some(at),
            CheckFault::SelfUse(at) => Some(at),
            CheckFault::SameArgument(at) => Some(at),
            CheckFault::Arity(at) => Some(at),
            CheckFault::Shadow(at) => Some(at),
            CheckFault::ChangedParameters(at) => Some(at),
            CheckFault::TooMany(at) => Some(at),
            CheckFault::ArrayLength(at) => Some(at),
        }
    }

    /// Where the fault begins, in octets; 0 for want of memory.
    fn start(self) -> usize
        ensures { result ≡ start_of self }
    {
        match self.span() {
            Some(at) => at.start,
            None => 0,
        }
    }

    /// Where the fault ends, in octets; 0 for want of memory.
    fn end(self) -> usize
        ensures { result ≡ end_of self }
    {
        match self.span() {
            Some(at) => at.end,
            None => 0,
        }
    }

    /// Whether this fault is told rather than the other: it stands earlier, or at the same place under a smaller number.
    pub(crate) fn is_before(self, other: CheckFault) -> bool
        ensures { result ≡ comes_before self other }
    {
        self.start() < other.start()
            || (self.start() == other.start()
                && (self.number() < other.number()
                    || (self.number() == other.number() && self.end() < other.end())))
    }
}

/// The fault that is told, of the first one so far and one more.
pub(crate) fn sooner(first: Option<CheckFault>, fault: CheckFault) -> Option<CheckFault>
    ensures { result ≡ Some (sooner_of first fault) }
{
    match first {
        Some(found) if !fault.is_before(found) => Some(found),
        _ => Some(fault),
    }
}

impl From<AllocError> for CheckFault {
    ghost use Rattle.std.specs.Prelude.{◌≡◌};
    ghost use Rattle.janus_check.specs.declared.fault.CheckFault.TheVariants.{Memory};

    ghost from_gives = { λ _ e. e ≡ Memory };

    fn from(_: AllocError) -> Self {
        CheckFault::Memory
    }
}
