//! The number of an expression over the names in sight.
ghost use Rattle.std.specs.Prelude.{◌≡◌, List, neg_ℤ};
ghost use Rattle.janus_meaning.specs.Fault.{Fine, and_then};
ghost use Rattle.janus_meaning.specs.Syntax.{Name};
ghost use Rattle.janus_meaning.specs.Store.{look, number as number_in, array as array_in, stack as stack_in, element};
ghost use Rattle.janus_meaning.specs.Value.{value as value_of_exp, first, is_none, both as both_of, either as either_of};
ghost use Rattle.janus_meaning.specs.Word.{wrap, bit, nonzero, operate as operate_of};
ghost use Rattle.janus_syntax.specs.View.{exp_of, operator_of};
ghost use Rattle.steps_walk.specs.Sights.{AreInSight};
ghost use Rattle.steps_walk.specs.Quiet.{IsNumberAt};
ghost use Rattle.steps_walk.specs.Walk.{slots_in, IsWalking};
ghost use Rattle.steps_walk.specs.Standing.{IsMetHere};
ghost use Rattle.steps_walk.specs.Values.{sighted, told, found_value, found_array, found_stack, holds_as, TellsHolding};

use crate::level::Level;
use crate::sight::Sight;
use crate::walk::Walk;
use janus_row::{ValueFault, bit_of, holds, negative, operate};
use janus_machine::ValueView;
use janus_memory::StackView;
use janus_syntax::tree::{Exp, Operator};
use std::sync::ledger::Ledger;

/// Why an expression has no number.
#[derive(Clone, Copy)]
pub enum NoValue {
    /// One of its names is not in sight.
    Unknown,
    /// A name stands for another kind of value.
    Kind,
    /// An operator, an index or a stack has none.
    Fault(ValueFault),
}

/// The value of a name, if it is in sight.
#[tactic(auto, using(crate::proofs::Values::unknown, crate::proofs::Values::lent_value, crate::proofs::Values::no_value))]
#[inline(always)]
pub fn value_of<'a, L: Ledger>(
    walk: &'a Walk<L>,
    sight: &Sight<'_>,
    name: &str,
) -> Option<ValueView<'a>>
    ensures { (g : List Name) → AreInSight sight.now g → found_value result ≡ look name.now (sighted (slots_in walk.now) g) }
{
    let Some(slot) = sight.slot(name) else {
        return None;
    };
    match walk.value(slot) {
        Some(value) => Some(value),
        None => None,
    }
}

/// The number of a name that stands for one.
#[inline(always)]
fn variable<L: Ledger>(walk: &Walk<L>, sight: &Sight<'_>, name: &str) -> Result<i32, NoValue>
    ensures { (g : List Name) → AreInSight sight.now g → told result ≡ and_then (look name.now (sighted (slots_in walk.now) g)) number_in }
{
    match value_of(walk, sight, name) {
        Some(ValueView::Number(number)) => Ok(number),
        Some(ValueView::Array(_)) | Some(ValueView::Stack(_)) => Err(NoValue::Kind),
        None => Err(NoValue::Unknown),
    }
}

/// The elements of a name that stands for an array.
#[inline(always)]
fn array<'a, L: Ledger>(
    walk: &'a Walk<L>,
    sight: &Sight<'_>,
    name: &str,
) -> Result<&'a [i32], NoValue>
    ensures { (g : List Name) → AreInSight sight.now g → found_array result ≡ and_then (look name.now (sighted (slots_in walk.now) g)) array_in }
{
    match value_of(walk, sight, name) {
        Some(ValueView::Array(items)) => Ok(items),
        Some(ValueView::Number(_)) | Some(ValueView::Stack(_)) => Err(NoValue::Kind),
        None => Err(NoValue::Unknown),
    }
}

/// The values of a name that stands for a stack.
#[inline(always)]
fn stack<'a, L: Ledger>(
    walk: &'a Walk<L>,
    sight: &Sight<'_>,
    name: &str,
) -> Result<StackView<'a>, NoValue>
    ensures { (g : List Name) → AreInSight sight.now g → found_stack result ≡ and_then (look name.now (sighted (slots_in walk.now) g)) stack_in }
{
    match value_of(walk, sight, name) {
        Some(ValueView::Stack(values)) => Ok(values),
        Some(ValueView::Number(_)) | Some(ValueView::Array(_)) => Err(NoValue::Kind),
        None => Err(NoValue::Unknown),
    }
}

/// The element at an index.
#[inline(always)]
fn item(items: &[i32], index: i32) -> Result<i32, NoValue>
    ensures { told result ≡ element items.now index }
{
    if index < 0 {
        return Err(NoValue::Fault(ValueFault::IndexRange));
    }
    match items.get(index as usize) {
        Some(number) => Ok(*number),
        None => Err(NoValue::Fault(ValueFault::IndexRange)),
    }
}

/// The element of an array at an index.
#[inline(always)]
fn element(items: Result<&[i32], NoValue>, index: Result<i32, NoValue>) -> Result<i32, NoValue>
    ensures { told result ≡ and_then (found_array items.entry) (λ l. and_then (told index) (λ k. element l k)) }
{
    let items = items?;
    let index = index?;
    item(items, index)
}

/// Whether a stack has no value.
#[inline(always)]
fn emptiness(values: Result<StackView<'_>, NoValue>) -> Result<i32, NoValue>
    ensures { told result ≡ and_then (found_stack values.entry) (λ l. Fine (wrap (bit (is_none l)))) }
{
    let values = values?;
    Ok(bit_of(values.len() == 0))
}

/// The newest value of a stack.
#[inline(always)]
fn newest(values: Result<StackView<'_>, NoValue>) -> Result<i32, NoValue>
    ensures { told result ≡ and_then (found_stack values.entry) first }
{
    let values = values?;
    if values.len() == 0 {
        return Err(NoValue::Fault(ValueFault::TopEmpty));
    }
    Ok(values.get(0))
}

/// A number with the other sign.
#[inline(always)]
fn negated(operand: Result<i32, NoValue>) -> Result<i32, NoValue>
    ensures { told result ≡ and_then (told operand) (λ v. Fine (wrap (neg_ℤ v))) }
{
    Ok(negative(operand?))
}

/// What an operator makes of two numbers.
#[inline(always)]
fn combined(
    operator: Operator,
    left: Result<i32, NoValue>,
    right: Result<i32, NoValue>,
) -> Result<i32, NoValue>
    ensures { told result ≡ and_then (told left) (λ a. and_then (told right) (λ b. operate_of (operator_of operator) a b)) }
{
    let left = left?;
    let right = right?;
    match operate(operator, left, right) {
        Ok(number) => Ok(number),
        Err(fault) => Err(NoValue::Fault(fault)),
    }
}

/// Whether both of two numbers hold as tests; the other is left out where the first doesn't.
#[inline(always)]
fn both(left: Result<i32, NoValue>, right: Result<i32, NoValue>) -> Result<i32, NoValue>
    ensures { told result ≡ and_then (told left) (λ a. both_of (nonzero a) (told right)) }
{
    let left = left?;
    if !holds(left) {
        return Ok(bit_of(false));
    }
    Ok(bit_of(holds(right?)))
}

/// Whether one of two numbers holds as a test; the other is left out where the first does.
#[inline(always)]
fn either(left: Result<i32, NoValue>, right: Result<i32, NoValue>) -> Result<i32, NoValue>
    ensures { told result ≡ and_then (told left) (λ a. either_of (nonzero a) (told right)) }
{
    let left = left?;
    if holds(left) {
        return Ok(bit_of(true));
    }
    Ok(bit_of(holds(right?)))
}

/// The number of an expression over the names in sight, or why it has none.
pub fn number_of<L: Ledger>(walk: &Walk<L>, sight: &Sight<'_>, exp: &Exp) -> Result<i32, NoValue>
    ensures { (g : List Name) → AreInSight sight.now g → told result ≡ value_of_exp (exp_of exp.now) (sighted (slots_in walk.now) g) }
{
    match exp {
        Exp::Number(number, _) => Ok(number.cast_signed()),
        Exp::Variable(name) => variable(walk, sight, name.text.as_str()),
        Exp::Element(name, index) => element(
            array(walk, sight, name.text.as_str()),
            number_of(walk, sight, index),
        ),
        Exp::Empty(name) => emptiness(stack(walk, sight, name.text.as_str())),
        Exp::Top(name) => newest(stack(walk, sight, name.text.as_str())),
        Exp::Negative(operand) => negated(number_of(walk, sight, operand)),
        Exp::Binary(operator, left, right) => combined(
            *operator,
            number_of(walk, sight, left),
            number_of(walk, sight, right),
        ),
        Exp::And(left, right) => both(number_of(walk, sight, left), number_of(walk, sight, right)),
        Exp::Or(left, right) => either(number_of(walk, sight, left), number_of(walk, sight, right)),
    }
}

/// Whether there is a number, and it isn't 0.
#[inline(always)]
pub fn is_true(number: Result<i32, NoValue>) -> bool
    ensures { result ≡ holds_as (told number) }
{
    match number {
        Ok(number) => holds(number),
        Err(_) => false,
    }
}

/// The innermost level, and the number of an expression over the names in sight there, or why it has none.
pub fn seen_number<L: Ledger>(walk: &Walk<L>, exp: &Exp) -> (Level, Result<i32, NoValue>)
    requires walking { IsWalking walk.now }
    requires met { IsMetHere walk.now }
    ensures { IsNumberAt exp.now walk.now result.0 (told result.1) }
{
    let Some(level) = walk.level_here() else {
        unreachable!()
    };
    let Some(sight) = walk.sight(&level) else {
        unreachable!()
    };
    (level, number_of(walk, &sight, exp))
}

/// Whether an expression over the names in sight at the innermost level holds: it has a number, and that isn't 0.
pub fn is_holding<L: Ledger>(walk: &Walk<L>, exp: &Exp) -> bool
    requires walking { IsWalking walk.now }
    requires met { IsMetHere walk.now }
    ensures { TellsHolding exp.now walk.now result }
{
    let Some(sight) = walk.sight_here() else {
        unreachable!()
    };
    is_true(number_of(walk, &sight, exp))
}
