//! The names and the expressions of flat code.

ghost use Rattle.std.specs.Prelude.{◌≡◌, ◌<◌, ◌≤◌, ◌^◌, List, IfOk, length, map};
ghost use Rattle.janus_slots.specs.Numbers.{IsMet};
ghost use Rattle.janus_meaning.specs.Syntax.{Name as MeaningName, names_of};
ghost use Rattle.janus_meaning.specs.Formed.{IsExp};
ghost use Rattle.janus_check.specs.Slots.{slot, slot_in, slots_in, exp_in, number_in};
ghost use Rattle.janus_syntax.specs.Tree.{names_view};
ghost use Rattle.janus_syntax.specs.View.{name_of, text_of, exp_of as plain};
ghost use Rattle.janus_check.specs.Sight.{in_sight, IsSeen};
ghost use Rattle.janus_code.specs.Expressions.{exp_of, symbol_name, names_in};
ghost use Rattle.janus_code.specs.Numbered.{HasItsNumber, HaveTheirNumbers, HasNumbers, IsCopy};
ghost use Rattle.janus_code.specs.Seen.{AreSeen, SeesExp};
ghost use Rattle.janus_code.specs.Slotted.{AreSlots, all_slots};

use crate::code::{FlatExp, Symbol};
use crate::copies::both;
use janus_check::{Sight, SymbolTable};
use janus_slots::Names;
use janus_syntax::tree;
use std::alloc::{AllocError, Global};

/// The symbol of a number.
pub(crate) fn symbol_of(number: usize) -> Symbol
    ensures name { symbol_name all_slots result ≡ slot number }
    ensures number { result.number ≡ number }
    ensures small { result.number < 2 ^ 64 }
{
    Symbol { number }
}

/// The symbol of a name in sight: its slot.
pub(crate) fn symbol<T: SymbolTable>(sight: &Sight<T>, name: &tree::Name) -> Symbol
    requires seen { IsSeen (in_sight sight.now) (name_of name.now) }
    requires small { length (in_sight sight.now) < 2 ^ 64 }
    ensures name { symbol_name all_slots result ≡ slot_in (names_of (in_sight sight.now)) (name_of name.now) }
    ensures numbered { HasItsNumber (names_of (in_sight sight.now)) result }
{
    symbol_of(sight.slot(name))
}

/// The symbol of a procedure whose name is in the table.
pub(crate) fn entry(entries: &Names, name: &tree::Name) -> Symbol
    requires { IsMet entries.now (name_of name.now) }
    ensures name { symbol_name all_slots result ≡ number_in entries.now (name_of name.now) }
    ensures numbered { HasItsNumber entries.now result }
    ensures small { result.number < 2 ^ 64 }
{
    entries.one_number_law();
    match entries.number(&name.text) {
        Some(number) => symbol_of(number),
        None => unreachable!(),
    }
}

/// The symbols of names in sight; an error for want of memory.
pub(crate) fn symbols<T: SymbolTable>(
    alloc: Global,
    sight: &Sight<T>,
    list: &[tree::Name],
) -> Result<Vec<Symbol>, AllocError>
    requires seen { AreSeen (in_sight sight.now) (map text_of (names_view list.now)) }
    requires small { length (in_sight sight.now) < 2 ^ 64 }
    ensures names { IfOk result (λ symbols. names_in all_slots symbols.items ≡ slots_in (names_of (in_sight sight.now)) (map text_of (names_view list.now))) }
    ensures numbered { IfOk result (λ symbols. HaveTheirNumbers (names_of (in_sight sight.now)) symbols.items) }
{
    let mut symbols = Vec::new(alloc);
    for i in 0..list.len() {
        symbols.push(symbol(sight, &list[i]))?;
    }
    Ok(symbols)
}

/// The flat form of a well-formed expression over these names in sight; an error for want of memory, as which more names than a `usize` counts are
/// refused too.
pub fn flat_exp<T: SymbolTable>(
    alloc: Global,
    exp: &tree::Exp,
    sight: &Sight<T>,
) -> Result<FlatExp, AllocError>
    requires { IsExp (in_sight sight.now) (plain exp.now) }
    ensures tree { IfOk result
        (λ flat. (xs : List MeaningName) → AreSlots xs → HasNumbers xs flat →
        exp_of xs flat ≡ exp_in (names_of (in_sight sight.now)) (plain exp.now)) }
    ensures wide { IfOk result (λ flat. (xs : List MeaningName) → length (in_sight sight.now) ≤ length xs → HasNumbers xs flat) }
{
    match sight.counted() {
        Some(_) => slotted_exp(alloc, exp, sight),
        None => Err(AllocError),
    }
}

/// The flat form of an expression whose names are in sight; an error for want of memory.
#[cycle(flat_exp)]
pub(crate) fn slotted_exp<T: SymbolTable>(
    alloc: Global,
    exp: &tree::Exp,
    sight: &Sight<T>,
) -> Result<FlatExp, AllocError>
    requires seen { SeesExp (in_sight sight.now) (plain exp.now) }
    requires small { length (in_sight sight.now) < 2 ^ 64 }
    ensures tree { IfOk result (λ flat. exp_of all_slots flat ≡ exp_in (names_of (in_sight sight.now)) (plain exp.now)) }
    ensures numbered { IfOk result (λ flat. HasNumbers (names_of (in_sight sight.now)) flat) }
{
    match exp {
        tree::Exp::Number(number, _) => Ok(FlatExp::Number(*number)),
        tree::Exp::Variable(name) => Ok(FlatExp::Variable(symbol(sight, name))),
        tree::Exp::Element(name, index) => {
            let index = boxed_exp(alloc, index, sight)?;
            Ok(FlatExp::Element(symbol(sight, name), index))
        }
        tree::Exp::Empty(name) => Ok(FlatExp::Empty(symbol(sight, name))),
        tree::Exp::Top(name) => Ok(FlatExp::Top(symbol(sight, name))),
        tree::Exp::Negative(operand) => Ok(FlatExp::Negative(boxed_exp(alloc, operand, sight)?)),
        tree::Exp::Binary(operator, left, right) => {
            let left = boxed_exp(alloc, left, sight)?;
            let right = boxed_exp(alloc, right, sight)?;
            Ok(FlatExp::Binary(*operator, left, right))
        }
        tree::Exp::And(left, right) => {
            let left = boxed_exp(alloc, left, sight)?;
            let right = boxed_exp(alloc, right, sight)?;
            Ok(FlatExp::And(left, right))
        }
        tree::Exp::Or(left, right) => {
            let left = boxed_exp(alloc, left, sight)?;
            let right = boxed_exp(alloc, right, sight)?;
            Ok(FlatExp::Or(left, right))
        }
    }
}

/// The flat form of a part.
#[cycle(flat_exp)]
fn boxed_exp<T: SymbolTable>(
    alloc: Global,
    exp: &tree::Exp,
    sight: &Sight<T>,
) -> Result<Box<FlatExp>, AllocError>
    requires seen { SeesExp (in_sight sight.now) (plain exp.now) }
    requires small { length (in_sight sight.now) < 2 ^ 64 }
    ensures tree { IfOk result (λ flat. exp_of all_slots flat.value ≡ exp_in (names_of (in_sight sight.now)) (plain exp.now)) }
    ensures numbered { IfOk result (λ flat. HasNumbers (names_of (in_sight sight.now)) flat.value) }
{
    let flat = slotted_exp(alloc, exp, sight)?;
    Ok(Box::new(alloc, flat)?)
}

/// The flat forms of two expressions whose names are in sight; an error for want of memory.
pub(crate) fn two_flat_exps<T: SymbolTable>(
    alloc: Global,
    first: &tree::Exp,
    second: &tree::Exp,
    sight: &Sight<T>,
) -> Result<(FlatExp, FlatExp), AllocError>
    requires first { SeesExp (in_sight sight.now) (plain first.now) }
    requires second { SeesExp (in_sight sight.now) (plain second.now) }
    requires small { length (in_sight sight.now) < 2 ^ 64 }
    ensures trees { IfOk result (λ x.
        (exp_of all_slots x.0 ≡ exp_in (names_of (in_sight sight.now)) (plain first.now))
        × (exp_of all_slots x.1 ≡ exp_in (names_of (in_sight sight.now)) (plain second.now))) }
    ensures numbered { IfOk result (λ x. HasNumbers (names_of (in_sight sight.now)) x.0 × HasNumbers (names_of (in_sight sight.now)) x.1) }
{
    let first = slotted_exp(alloc, first, sight)?;
    both(first, slotted_exp(alloc, second, sight))
}

/// The same expression in memory of its own; an error for want of memory.
#[cycle(copy)]
pub fn copy(alloc: Global, exp: &FlatExp) -> Result<FlatExp, AllocError>
    ensures { IfOk result (λ copy. IsCopy exp.now copy) }
{
    match exp {
        FlatExp::Number(number) => Ok(FlatExp::Number(*number)),
        FlatExp::Variable(name) => Ok(FlatExp::Variable(*name)),
        FlatExp::Element(name, index) => {
            let index = boxed_copy(alloc, index)?;
            Ok(FlatExp::Element(*name, index))
        }
        FlatExp::Empty(name) => Ok(FlatExp::Empty(*name)),
        FlatExp::Top(name) => Ok(FlatExp::Top(*name)),
        FlatExp::Negative(operand) => {
            let operand = boxed_copy(alloc, operand)?;
            Ok(FlatExp::Negative(operand))
        }
        FlatExp::Binary(operator, left, right) => {
            let left = boxed_copy(alloc, left)?;
            let right = boxed_copy(alloc, right)?;
            Ok(FlatExp::Binary(*operator, left, right))
        }
        FlatExp::And(left, right) => {
            let left = boxed_copy(alloc, left)?;
            let right = boxed_copy(alloc, right)?;
            Ok(FlatExp::And(left, right))
        }
        FlatExp::Or(left, right) => {
            let left = boxed_copy(alloc, left)?;
            let right = boxed_copy(alloc, right)?;
            Ok(FlatExp::Or(left, right))
        }
    }
}

/// The copy of a part.
#[cycle(copy)]
fn boxed_copy(alloc: Global, exp: &FlatExp) -> Result<Box<FlatExp>, AllocError>
    ensures { IfOk result (λ copy. IsCopy exp.now copy.value) }
{
    let copy = copy(alloc, exp)?;
    Ok(Box::new(alloc, copy)?)
}

/// Two expressions in memory of their own; an error for want of memory.
pub fn two_copies(
    alloc: Global,
    first: &FlatExp,
    second: &FlatExp,
) -> Result<(FlatExp, FlatExp), AllocError>
    ensures { IfOk result (λ x. IsCopy first.now x.0 × IsCopy second.now x.1) }
{
    both(copy(alloc, first)?, copy(alloc, second))
}
