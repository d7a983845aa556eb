//! Operators, places and names.
ghost use Rattle.std.specs.Prelude.{◌≡◌, IsTrue};
ghost use Rattle.janus_syntax.specs.Tree.{name_view, names_view};

use janus_syntax::Span;
use janus_syntax::tree::{Name, Operator, Update};

/// Whether two operators are the same.
pub(crate) fn is_same_operator(one: Operator, other: Operator) -> bool
    ensures { IsTrue result → one ≡ other }
{
    match one {
        Operator::Add => matches!(other, Operator::Add),
        Operator::Subtract => matches!(other, Operator::Subtract),
        Operator::Multiply => matches!(other, Operator::Multiply),
        Operator::Divide => matches!(other, Operator::Divide),
        Operator::Remainder => matches!(other, Operator::Remainder),
        Operator::BitAnd => matches!(other, Operator::BitAnd),
        Operator::BitOr => matches!(other, Operator::BitOr),
        Operator::Xor => matches!(other, Operator::Xor),
        Operator::Less => matches!(other, Operator::Less),
        Operator::Greater => matches!(other, Operator::Greater),
        Operator::AtMost => matches!(other, Operator::AtMost),
        Operator::AtLeast => matches!(other, Operator::AtLeast),
        Operator::Equal => matches!(other, Operator::Equal),
        Operator::Differ => matches!(other, Operator::Differ),
    }
}

/// Whether two operators of assignments are the same.
pub(crate) fn is_same_update(one: Update, other: Update) -> bool
    ensures { IsTrue result → one ≡ other }
{
    match one {
        Update::Add => matches!(other, Update::Add),
        Update::Subtract => matches!(other, Update::Subtract),
        Update::Xor => matches!(other, Update::Xor),
    }
}

/// Whether two places are the same.
pub(crate) fn is_same_span(one: Span, other: Span) -> bool
    ensures { IsTrue result → one ≡ other }
{
    one == other
}

/// Whether two names are the same, and stand at the same place.
pub(crate) fn is_same_name(one: &Name, other: &Name) -> bool
    ensures { IsTrue result → name_view one.now ≡ name_view other.now }
{
    if !is_same_span(one.span, other.span) {
        return false;
    }
    one.text.as_str() == other.text.as_str()
}

/// Whether two lists of names are the same.
pub(crate) fn are_same_names(one: &[Name], other: &[Name]) -> bool
    ensures { IsTrue result → names_view one.now ≡ names_view other.now }
{
    if one.len() != other.len() {
        return false;
    }
    for i in 0..one.len() {
        if !is_same_name(&one[i], &other[i]) {
            return false;
        }
    }
    true
}
