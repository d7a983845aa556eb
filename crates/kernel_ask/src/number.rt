//! The number of an expression over the declared names.

ghost use Rattle.std.specs.Prelude.{◌≡◌, ◌≢◌};
ghost use Rattle.janus_meaning.specs.Fault.{Fine, Bad, Broken};
ghost use Rattle.janus_meaning.specs.Store.{Num, Arr, Stk, look, element};
ghost use Rattle.janus_meaning.specs.Value.{value as value_of, first, is_none};
ghost use Rattle.janus_meaning.specs.Word.{wrap, bit, nonzero};
ghost use Rattle.kernel_text.specs.Stacks.{held};
ghost use Rattle.kernel_ask.specs.LookedUp.{IsNumber, IsArray, IsStack};
ghost use Rattle.janus_row.specs.NumberResults.{result_of};
ghost use Rattle.janus_syntax.specs.View.{exp_of};

use janus_row::{ValueFault, bit_of, holds, negative, operate};
use janus_syntax::tree::Exp;
use kernel_text::{StackView, ValueView, View};
use std::sync::ledger::Ledger;

/// The number of an expression, or the first fault from left to right. Its names are declared, each as what its use wants.
pub(crate) fn number<L: Ledger>(exp: &Exp, world: &View<'_, L>) -> Result<i32, ValueFault>
    requires safe { value_of (exp_of exp.now) world.now.store ≢ Bad Broken }
    ensures { result_of result ≡ value_of (exp_of exp.now) world.now.store }
{
    match exp {
        Exp::Number(number, _) => Ok(number.cast_signed()),
        Exp::Variable(name) => Ok(variable(&name.text, world)),
        Exp::Element(name, index) => {
            let index = number(index, world)?;
            item(array(&name.text, world), index)
        }
        Exp::Empty(name) => Ok(bit_of(has_none(stack(&name.text, world)))),
        Exp::Top(name) => newest(stack(&name.text, world)),
        Exp::Negative(positive) => {
            let positive = number(positive, world)?;
            Ok(negative(positive))
        }
        Exp::Binary(operator, left, right) => {
            let left = number(left, world)?;
            let right = number(right, world)?;
            operate(*operator, left, right)
        }
        Exp::And(left, right) => {
            let left = number(left, world)?;
            if !holds(left) {
                return Ok(0);
            }
            let right = number(right, world)?;
            Ok(truth(right))
        }
        Exp::Or(left, right) => {
            let left = number(left, world)?;
            if holds(left) {
                return Ok(1);
            }
            let right = number(right, world)?;
            Ok(truth(right))
        }
    }
}

/// The number of a declared variable.
fn variable<L: Ledger>(name: &str, world: &View<'_, L>) -> i32
    requires { IsNumber (look name.now world.now.store) }
    ensures { look name.now world.now.store ≡ Fine (Num result) }
{
    match world.value(name) {
        Some(ValueView::Number(number)) => number,
        _ => unreachable!(),
    }
}

/// The elements of a declared array.
fn array<'a, L: Ledger>(name: &str, world: &'a View<'_, L>) -> &'a [i32]
    requires { IsArray (look name.now world.now.store) }
    ensures { look name.now world.now.store ≡ Fine (Arr result.now) }
{
    match world.value(name) {
        Some(ValueView::Array(items)) => items,
        _ => unreachable!(),
    }
}

/// The values of a declared stack.
fn stack<'a, L: Ledger>(name: &str, world: &'a View<'_, L>) -> StackView<'a>
    requires { IsStack (look name.now world.now.store) }
    ensures { look name.now world.now.store ≡ Fine (Stk (held result)) }
{
    match world.value(name) {
        Some(ValueView::Stack(values)) => values,
        _ => unreachable!(),
    }
}

/// The element at an index; a fault where that is out of the range.
fn item(items: &[i32], index: i32) -> Result<i32, ValueFault>
    ensures { result_of result ≡ element items.now index }
{
    if index < 0 {
        return Err(ValueFault::IndexRange);
    }
    match items.get(index as usize) {
        Some(number) => Ok(*number),
        None => Err(ValueFault::IndexRange),
    }
}

/// Whether a stack is empty.
fn has_none(values: StackView<'_>) -> bool
    ensures { result ≡ is_none (held values.entry) }
{
    values.len() == 0
}

/// The newest value of a stack; a fault where it is empty.
fn newest(values: StackView<'_>) -> Result<i32, ValueFault>
    ensures { result_of result ≡ first (held values.entry) }
{
    if has_none(values) {
        return Err(ValueFault::TopEmpty);
    }
    Ok(values.get(0))
}

/// 1 for a number that holds as a test, 0 for one that doesn't.
fn truth(number: i32) -> i32
    ensures { result ≡ wrap (bit (nonzero number)) }
{
    bit_of(holds(number))
}
