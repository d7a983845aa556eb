//! A value that is kept, to see whether it changes.
ghost use Rattle.std.specs.Prelude.{◌≡◌, ◌↔◌, IfOk, IsTrue, Some, length, slice_get};
ghost use Rattle.janus_meaning.specs.Fault.{Fine, Bad, Broken};
ghost use Rattle.janus_meaning.specs.Store.{Num, Arr, Stk};
ghost use Rattle.janus_memory.specs.Stacks.{held};
ghost use Rattle.steps_walk.specs.Values.{found_value};
ghost use Rattle.steps_program.specs.Kept.{value_in};

use janus_memory::StackView;
use std::alloc::{AllocError, Global};
use steps_walk::ValueView;

/// A value that is kept; it is absent where its name was not in sight.
#[derive(Drop)]
pub(crate) enum Kept {
    Absent,
    Number(i32),
    Array(Vec<i32>),
    Stack(Vec<i32>),
}

impl Kept {
    /// Keeps a value; the only error is want of memory.
    pub(crate) fn of(alloc: Global, value: Option<ValueView<'_>>) -> Result<Kept, AllocError>
        ensures { IfOk result (λ kept. value_in kept ≡ found_value value.entry) }
    {
        match value {
            None => Ok(Kept::Absent),
            Some(ValueView::Number(number)) => Ok(Kept::Number(number)),
            Some(ValueView::Array(items)) => Ok(Kept::Array(copied(alloc, items)?)),
            Some(ValueView::Stack(values)) => Ok(Kept::Stack(taken(alloc, values)?)),
        }
    }

    /// Whether a value is this one.
    pub(crate) fn is(&self, value: Option<ValueView<'_>>) -> bool
        ensures { IsTrue result ↔ (value_in self.now ≡ found_value value.entry) }
    {
        match value {
            None => self.is_absent(),
            Some(ValueView::Number(number)) => self.is_number(number),
            Some(ValueView::Array(items)) => self.is_array(items),
            Some(ValueView::Stack(values)) => self.is_stack(values),
        }
    }

    /// Whether there is none.
    pub(crate) fn is_absent(&self) -> bool
        ensures { IsTrue result ↔ (value_in self.now ≡ Bad Broken) }
    {
        match self {
            Kept::Absent => true,
            Kept::Number(_) | Kept::Array(_) | Kept::Stack(_) => false,
        }
    }

    /// Whether it is this number.
    fn is_number(&self, number: i32) -> bool
        ensures { IsTrue result ↔ (value_in self.now ≡ Fine (Num number)) }
    {
        match self {
            Kept::Number(old) => *old == number,
            Kept::Absent | Kept::Array(_) | Kept::Stack(_) => false,
        }
    }

    /// Whether it is an array of these elements.
    fn is_array(&self, items: &[i32]) -> bool
        ensures { IsTrue result ↔ (value_in self.now ≡ Fine (Arr items.now)) }
    {
        match self {
            Kept::Array(old) => are_same(old, items),
            Kept::Absent | Kept::Number(_) | Kept::Stack(_) => false,
        }
    }

    /// Whether it is a stack of these values.
    fn is_stack(&self, values: StackView<'_>) -> bool
        ensures { IsTrue result ↔ (value_in self.now ≡ Fine (Stk (held values.entry))) }
    {
        match self {
            Kept::Stack(old) => are_held(old, values),
            Kept::Absent | Kept::Number(_) | Kept::Array(_) => false,
        }
    }
}

/// The elements of an array; the only error is want of memory.
fn copied(alloc: Global, items: &[i32]) -> Result<Vec<i32>, AllocError>
    ensures { IfOk result (λ all. all.items ≡ items.now) }
{
    let mut all = Vec::new(alloc);
    all.extend_from_slice(items)?;
    Ok(all)
}

/// The values of a stack, the top first; the only error is want of memory.
fn taken(alloc: Global, values: StackView<'_>) -> Result<Vec<i32>, AllocError>
    ensures { IfOk result (λ all. all.items ≡ held values.entry) }
{
    values.collect::<Vec<i32>>(alloc)
}

/// Whether two arrays have the same numbers.
fn are_same(one: &[i32], other: &[i32]) -> bool
    ensures { IsTrue result ↔ (one.now ≡ other.now) }
{
    one == other
}

/// Whether a stack has these values, the top first.
fn are_held(old: &[i32], values: StackView<'_>) -> bool
    ensures { IsTrue result ↔ (old.now ≡ held values.entry) }
{
    let mut rest = values;
    for i in 0..old.len() {
        match rest.next() {
            Some(value) => {
                if !stands_at(old, i, value) {
                    return false;
                }
            }
            None => return false,
        }
    }
    rest.next().is_none()
}

/// Whether a number stands at an index.
fn stands_at(numbers: &[i32], at: usize, value: i32) -> bool
    ensures { IsTrue result ↔ (slice_get numbers.now at ≡ Some value) }
{
    match numbers.get(at) {
        Some(number) => *number == value,
        None => false,
    }
}
