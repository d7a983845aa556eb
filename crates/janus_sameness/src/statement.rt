//! Statements and blocks.
ghost use Rattle.std.specs.Prelude.{◌≡◌, IsTrue};
ghost use Rattle.janus_syntax.specs.Tree.{name_view, exp_view, stm_view, block_view};

use crate::exp::is_same_exp;
use crate::word::{are_same_names, is_same_name, is_same_update};
use janus_syntax::tree::{Exp, Name, Stm};

/// Whether the expressions in front of two statements are the same, and those behind them.
fn are_same_tests(front: &Exp, other: &Exp, behind: &Exp, another: &Exp) -> bool
    ensures front { IsTrue result → exp_view front.now ≡ exp_view other.now }
    ensures behind { IsTrue result → exp_view behind.now ≡ exp_view another.now }
{
    is_same_exp(front, other) && is_same_exp(behind, another)
}

/// Whether the names in front of two statements are the same, and those behind them.
fn are_same_ends(front: &Name, other: &Name, behind: &Name, another: &Name) -> bool
    ensures front { IsTrue result → name_view front.now ≡ name_view other.now }
    ensures behind { IsTrue result → name_view behind.now ≡ name_view another.now }
{
    is_same_name(front, other) && is_same_name(behind, another)
}

/// Whether two statements are the same.
#[cycle(sameness)]
fn is_same_statement(one: &Stm, other: &Stm) -> bool
    ensures { IsTrue result → stm_view one.now ≡ stm_view other.now }
{
    match (one, other) {
        (Stm::Skip, Stm::Skip) => true,
        (Stm::Assign(x, u, e), Stm::Assign(y, v, f)) => {
            is_same_name(x, y) && is_same_update(*u, *v) && is_same_exp(e, f)
        }
        (Stm::AssignElement(x, i, u, e), Stm::AssignElement(y, j, v, f)) => {
            is_same_name(x, y) && is_same_exp(i, j) && is_same_update(*u, *v) && is_same_exp(e, f)
        }
        (Stm::Push(x, s), Stm::Push(y, t)) => is_same_name(x, y) && is_same_name(s, t),
        (Stm::Pop(x, s), Stm::Pop(y, t)) => is_same_name(x, y) && is_same_name(s, t),
        (Stm::Swap(x, s), Stm::Swap(y, t)) => is_same_name(x, y) && is_same_name(s, t),
        (Stm::If(a, b, c, d), Stm::If(e, f, g, h)) => {
            if !are_same(b, f) {
                return false;
            }
            if !are_same(c, g) {
                return false;
            }
            are_same_tests(a, e, d, h)
        }
        (Stm::Loop(a, b, c, d), Stm::Loop(e, f, g, h)) => {
            if !are_same(b, f) {
                return false;
            }
            if !are_same(c, g) {
                return false;
            }
            are_same_tests(a, e, d, h)
        }
        (Stm::LocalInt(x, a, b, y, c), Stm::LocalInt(z, d, e, w, f)) => {
            if !are_same(b, e) {
                return false;
            }
            if !are_same_ends(x, z, y, w) {
                return false;
            }
            are_same_tests(a, d, c, f)
        }
        (Stm::LocalStack(x, b, y), Stm::LocalStack(z, e, w)) => {
            if !are_same(b, e) {
                return false;
            }
            are_same_ends(x, z, y, w)
        }
        (Stm::Call(f, xs), Stm::Call(g, ys)) => is_same_name(f, g) && are_same_names(xs, ys),
        (Stm::Uncall(f, xs), Stm::Uncall(g, ys)) => is_same_name(f, g) && are_same_names(xs, ys),
        _ => false,
    }
}

/// Whether two blocks are the same.
#[cycle(sameness)]
pub(crate) fn are_same(one: &[Stm], other: &[Stm]) -> bool
    ensures { IsTrue result → block_view one.now ≡ block_view other.now }
{
    if one.len() != other.len() {
        return false;
    }
    for i in 0..one.len() {
        if !is_same_statement(&one[i], &other[i]) {
            return false;
        }
    }
    true
}
