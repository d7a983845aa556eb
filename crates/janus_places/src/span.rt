//! Where the parts of a statement stand in the text.

ghost use Rattle.std.specs.Prelude.{◌≡◌, Some};
ghost use Rattle.janus_syntax.specs.Tree.{exp_view, stm_view, names_view};
ghost use Rattle.janus_places.specs.Spots.{exp_span, names_span, head_of, tail_of, joined as joined_of};

use janus_syntax::Span;
use janus_syntax::tree::{Exp, Name, Stm};

/// From where one begins to where another ends.
fn joined(from: Span, to: Span) -> Span
    ensures { result ≡ joined_of from to }
{
    Span {
        start: from.start,
        end: to.end,
    }
}

/// From the first to the last name or number of an expression.
pub(crate) fn span_of(exp: &Exp) -> Span
    ensures { result ≡ exp_span (exp_view exp.now) }
{
    match exp {
        Exp::Number(_, span) => *span,
        Exp::Variable(name) => name.span,
        Exp::Element(name, index) => joined(name.span, span_of(index)),
        Exp::Empty(name) => name.span,
        Exp::Top(name) => name.span,
        Exp::Negative(operand) => span_of(operand),
        Exp::Binary(_, left, right) => joined(span_of(left), span_of(right)),
        Exp::And(left, right) => joined(span_of(left), span_of(right)),
        Exp::Or(left, right) => joined(span_of(left), span_of(right)),
    }
}

/// From a place to the last of these names.
fn span_to(from: Span, names: &[Name]) -> Span
    ensures { result ≡ names_span from (names_view names.now) }
{
    let mut span = from;
    for i in 0..names.len() {
        span = joined(span, names[i].span);
    }
    span
}

/// What stands before the first block of a statement, and of one without blocks all of it; a `skip` has no place.
pub(crate) fn head_of(statement: &Stm) -> Option<Span>
    ensures { result ≡ head_of (stm_view statement.now) }
{
    match statement {
        Stm::Skip => None,
        Stm::Assign(name, _, exp) => Some(joined(name.span, span_of(exp))),
        Stm::AssignElement(name, _, _, exp) => Some(joined(name.span, span_of(exp))),
        Stm::Push(one, other) | Stm::Pop(one, other) | Stm::Swap(one, other) => {
            Some(joined(one.span, other.span))
        }
        Stm::If(test, _, _, _) => Some(span_of(test)),
        Stm::Loop(test, _, _, _) => Some(span_of(test)),
        Stm::LocalInt(name, exp, _, _, _) => Some(joined(name.span, span_of(exp))),
        Stm::LocalStack(name, _, _) => Some(name.span),
        Stm::Call(name, names) | Stm::Uncall(name, names) => Some(span_to(name.span, names)),
    }
}

/// What stands behind the last block of a statement, and of one without blocks all of it; a `skip` has no place.
pub(crate) fn tail_of(statement: &Stm) -> Option<Span>
    ensures { result ≡ tail_of (stm_view statement.now) }
{
    match statement {
        Stm::Skip => None,
        Stm::Assign(name, _, exp) => Some(joined(name.span, span_of(exp))),
        Stm::AssignElement(name, _, _, exp) => Some(joined(name.span, span_of(exp))),
        Stm::Push(one, other) | Stm::Pop(one, other) | Stm::Swap(one, other) => {
            Some(joined(one.span, other.span))
        }
        Stm::If(_, _, _, test) => Some(span_of(test)),
        Stm::Loop(_, _, _, test) => Some(span_of(test)),
        Stm::LocalInt(_, _, _, name, exp) => Some(joined(name.span, span_of(exp))),
        Stm::LocalStack(_, _, name) => Some(name.span),
        Stm::Call(name, names) | Stm::Uncall(name, names) => Some(span_to(name.span, names)),
    }
}
