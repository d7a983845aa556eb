//! Whether code can be executed as it stands.
ghost use Rattle.std.specs.Prelude.{◌≡◌};
ghost use Rattle.kernel_ask.specs.Judgement.{IsJudged, ends_early};

use janus_syntax::{SyntaxFault, parse_cell};
use std::alloc::Global;

/// Whether code can be executed as it stands.
#[derive(Clone, Copy, Debug)]
pub enum Completeness {
    /// It is a cell.
    Complete,
    /// More is expected where it ends.
    Incomplete,
    /// It is refused before its end.
    Invalid,
    /// There was no memory to tell.
    Unknown,
}

/// Whether the refusal is that more was expected where a text of this length ends.
fn is_at_end(fault: SyntaxFault, length: usize) -> bool
    ensures { result ≡ ends_early length fault }
{
    match fault {
        SyntaxFault::Expected(_, span) => span.start == length,
        _ => false,
    }
}

/// Whether code can be executed as it stands: it is a cell, more is expected where it ends, or it is refused before that.
/// Where memory runs out that is unknown.
pub fn is_complete(alloc: Global, code: &str) -> Completeness
    ensures { IsJudged code.now result }
{
    match parse_cell(alloc, code) {
        Ok(_) => Completeness::Complete,
        Err(SyntaxFault::Memory) => Completeness::Unknown,
        Err(fault) => {
            if is_at_end(fault, code.len()) {
                Completeness::Incomplete
            } else {
                Completeness::Invalid
            }
        }
    }
}
