//! Expressions.
ghost use Rattle.std.specs.Prelude.{◌≡◌, IsTrue};
ghost use Rattle.janus_syntax.specs.Tree.{exp_view};

use crate::word::{is_same_name, is_same_operator, is_same_span};
use janus_syntax::tree::Exp;

/// Whether two expressions are the same.
pub(crate) fn is_same_exp(one: &Exp, other: &Exp) -> bool
    ensures { IsTrue result → exp_view one.now ≡ exp_view other.now }
{
    match (one, other) {
        (Exp::Number(n, at), Exp::Number(m, there)) => n == m && is_same_span(*at, *there),
        (Exp::Variable(x), Exp::Variable(y)) => is_same_name(x, y),
        (Exp::Element(x, i), Exp::Element(y, j)) => is_same_name(x, y) && is_same_exp(i, j),
        (Exp::Empty(x), Exp::Empty(y)) => is_same_name(x, y),
        (Exp::Top(x), Exp::Top(y)) => is_same_name(x, y),
        (Exp::Negative(a), Exp::Negative(b)) => is_same_exp(a, b),
        (Exp::Binary(o, a, b), Exp::Binary(p, c, d)) => {
            is_same_operator(*o, *p) && is_same_exp(a, c) && is_same_exp(b, d)
        }
        (Exp::And(a, b), Exp::And(c, d)) => is_same_exp(a, c) && is_same_exp(b, d),
        (Exp::Or(a, b), Exp::Or(c, d)) => is_same_exp(a, c) && is_same_exp(b, d),
        _ => false,
    }
}
