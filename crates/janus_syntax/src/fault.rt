//! Why a text is refused.

ghost use Rattle.std.specs.Prelude.{◌≡◌};
ghost use Rattle.janus_syntax.specs.declared.fault.SyntaxFault.TheVariants.{Memory};
ghost use Rattle.janus_syntax.specs.Fault.{what_text, fault_number, fault_name, fault_span};

use crate::token::{Keyword, Sign, Span};
use std::alloc::{AllocError, AllocFailed};
use thiserror::Error;

/// What has to come next where the reading of a cell or an expression cannot go on. A `Kind` is `int` or `stack`, where both
/// may stand.
#[derive(Clone, Copy, PartialEq, Eq, Debug)]
pub enum What {
    Statement,
    Expression,
    Name,
    Number,
    Kind,
    Operator,
    End,
    Keyword(Keyword),
    Sign(Sign),
}

impl What {
    /// The item as it is shown: its kind, or the fixed token's own text.
    pub fn text(self) -> &'static str
        ensures { result.now ≡ what_text self }
    {
        match self {
            What::Statement => "statement",
            What::Expression => "expression",
            What::Name => "name",
            What::Number => "number",
            What::Kind => "kind",
            What::Operator => "operator",
            What::End => "end",
            What::Keyword(keyword) => keyword.text(),
            What::Sign(sign) => sign.text(),
        }
    }
}

/// Why a text is no cell, with the octets where it is refused.
#[derive(Clone, Copy, PartialEq, Eq, Debug, Error)]
pub enum SyntaxFault {
    /// A character that begins no token.
    #[error("BadToken")]
    BadToken(Span),
    /// No cell goes on with this token; at the end of the text the span is empty.
    #[error("Expected")]
    Expected(What, Span),
    /// A number past 2147483647.
    #[error("NumberTooLarge")]
    NumberTooLarge(Span),
    /// A token that opens a 65th construct (`if`, `from`, `local`, `(` of grouping, `[` of an index, prefix minus), or the
    /// 257th operator of one whole expression.
    #[error("TooNested")]
    TooNested(Span),
    /// A kind or a name behind `delocal` that differs from the one behind its `local`.
    #[error("DelocalName")]
    DelocalName(Span),
    /// There was no memory.
    #[error("Memory")]
    Memory,
}

impl SyntaxFault {
    /// The number of the refusal.
    pub fn number(&self) -> u8
        ensures { result ≡ fault_number self.now }
    {
        match self {
            SyntaxFault::BadToken(_) => 30,
            SyntaxFault::Expected(_, _) => 31,
            SyntaxFault::NumberTooLarge(_) => 32,
            SyntaxFault::TooNested(_) => 33,
            SyntaxFault::DelocalName(_) => 34,
            SyntaxFault::Memory => 35,
        }
    }

    /// The refusal's name, as programs print it.
    pub fn name(&self) -> &'static str
        ensures { result.now ≡ fault_name self.now }
    {
        match self {
            SyntaxFault::BadToken(_) => "BadToken",
            SyntaxFault::Expected(_, _) => "Expected",
            SyntaxFault::NumberTooLarge(_) => "NumberTooLarge",
            SyntaxFault::TooNested(_) => "TooNested",
            SyntaxFault::DelocalName(_) => "DelocalName",
            SyntaxFault::Memory => "Memory",
        }
    }

    /// Where the text is refused; want of memory has no place.
    pub fn span(&self) -> Option<Span>
        ensures { result ≡ fault_span self.now }
    {
        match self {
            SyntaxFault::BadToken(span) => Some(*span),
            SyntaxFault::Expected(_, span) => Some(*span),
            SyntaxFault::NumberTooLarge(span) => Some(*span),
            SyntaxFault::TooNested(span) => Some(*span),
            SyntaxFault::DelocalName(span) => Some(*span),
            SyntaxFault::Memory => None,
        }
    }
}

impl From<AllocError> for SyntaxFault {
    ghost from_gives = { λ _ e. e ≡ Memory };

    fn from(_e: AllocError) -> SyntaxFault {
        SyntaxFault::Memory
    }
}

impl<T: Drop> From<AllocFailed<T>> for SyntaxFault {
    ghost from_gives = { λ _ e. e ≡ Memory };

    fn from(_e: AllocFailed<T>) -> SyntaxFault {
        SyntaxFault::Memory
    }
}
