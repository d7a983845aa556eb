//! When two outcomes are the same. What `==` says to contracts is followed type by type, so that they have it as identity.
ghost use Rattle.std.specs.Prelude.{◌≡◌, ◌↔◌, IsTrue};

use janus_syntax::fault::What;
use janus_syntax::token::{Keyword, Sign};
use kernel_ask::{CheckFault, Fault, Outcome, Refusal, SyntaxFault};

/// Whether two outcomes are the same.
pub(crate) fn same_outcome(a: Outcome, b: Outcome) -> bool
    ensures { IsTrue result ↔ (a ≡ b) }
{
    match (a, b) {
        (Outcome::Failed(a, m), Outcome::Failed(b, n)) => same_fault(a, b) && m == n,
        (Outcome::Refused(a), Outcome::Refused(b)) => same_refusal(a, b),
        (Outcome::Ran(k, m), Outcome::Ran(l, n)) => k == l && m == n,
        (Outcome::Interrupted(m), Outcome::Interrupted(n)) => m == n,
        (Outcome::Undid(k, a), Outcome::Undid(l, b)) => k == l && a == b,
        (Outcome::Redid(k, a), Outcome::Redid(l, b)) => k == l && a == b,
        (Outcome::Went(k, m, a), Outcome::Went(l, n, b)) => k == l && m == n && a == b,
        _ => false,
    }
}

/// Whether two refusals are the same.
fn same_refusal(a: Refusal, b: Refusal) -> bool
    ensures { IsTrue result ↔ (a ≡ b) }
{
    match (a, b) {
        (Refusal::Syntax(a), Refusal::Syntax(b)) => same_syntax(a, b),
        (Refusal::Check(a), Refusal::Check(b)) => same_check(a, b),
        (Refusal::HistoryFull, Refusal::HistoryFull)
        | (Refusal::TooFar, Refusal::TooFar)
        | (Refusal::NoNode, Refusal::NoNode)
        | (Refusal::Closing, Refusal::Closing)
        | (Refusal::Memory, Refusal::Memory) => true,
        _ => false,
    }
}

/// Whether two texts are refused alike.
fn same_syntax(a: SyntaxFault, b: SyntaxFault) -> bool
    ensures { IsTrue result ↔ (a ≡ b) }
{
    match (a, b) {
        (SyntaxFault::Expected(a, at), SyntaxFault::Expected(b, there)) => {
            same_what(a, b) && at == there
        }
        (SyntaxFault::BadToken(a), SyntaxFault::BadToken(b))
        | (SyntaxFault::NumberTooLarge(a), SyntaxFault::NumberTooLarge(b))
        | (SyntaxFault::TooNested(a), SyntaxFault::TooNested(b))
        | (SyntaxFault::DelocalName(a), SyntaxFault::DelocalName(b)) => a == b,
        (SyntaxFault::Memory, SyntaxFault::Memory) => true,
        _ => false,
    }
}

/// Whether two items are the same.
fn same_what(a: What, b: What) -> bool
    ensures { IsTrue result ↔ (a ≡ b) }
{
    match (a, b) {
        (What::Keyword(a), What::Keyword(b)) => same_keyword(a, b),
        (What::Sign(a), What::Sign(b)) => same_sign(a, b),
        (What::Statement, What::Statement)
        | (What::Expression, What::Expression)
        | (What::Name, What::Name)
        | (What::Number, What::Number)
        | (What::Kind, What::Kind)
        | (What::Operator, What::Operator)
        | (What::End, What::End) => true,
        _ => false,
    }
}

fn same_keyword(a: Keyword, b: Keyword) -> bool
    ensures { IsTrue result ↔ (a ≡ b) }
{
    a == b
}

fn same_sign(a: Sign, b: Sign) -> bool
    ensures { IsTrue result ↔ (a ≡ b) }
{
    a == b
}

fn same_fault(a: Fault, b: Fault) -> bool
    ensures { IsTrue result ↔ (a ≡ b) }
{
    a == b
}

fn same_check(a: CheckFault, b: CheckFault) -> bool
    ensures { IsTrue result ↔ (a ≡ b) }
{
    a == b
}
