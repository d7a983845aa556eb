//! The values of a stack, lent.

ghost use Rattle.std.specs.Prelude.{◌≡◌, ◌<◌, Some, length, slice_get};
ghost use Rattle.cell_pool.specs.Lent.{values_of};
ghost use Rattle.janus_memory.specs.Stacks.{held};

use cell_pool::Values;

/// The values of a stack, lent to be read, and an iterator over them from the top down. Contracts see them by `held`, and say nothing of how they
/// lie in memory.
#[derive(Clone, Copy)]
pub struct StackView<'a> {
    values: Values<'a>,
}

impl StackView<'_> {
    /// How many values there are.
    pub fn len(&self) -> usize
        ensures { result ≡ length (held self.now) }
    {
        self.values.len()
    }

    /// The i-th value from the top, which is the 0-th. It passes over the ones above.
    pub fn get(&self, i: usize) -> i32
        requires { i < length (held self.now) }
        ensures { slice_get (held self.now) i ≡ Some result }
    {
        let mut values = self.values;
        for _i in 0..i {
            let _above = values.next();
        }
        match values.next() {
            Some(number) => number,
            None => unreachable!(),
        }
    }
}

impl Iterator for StackView<'_> {
    ghost use Rattle.std.specs.Iterator.{YieldsFirst, item_count};

    type Item = i32;

    ghost next_gives = { YieldsFirst held };

    ghost remaining = { item_count held };

    fn next(&mut self) -> Option<i32> {
        self.values.next()
    }
}

/// Lends the values of a stack of the pool.
pub(crate) fn lend(values: Values<'_>) -> StackView<'_>
    ensures { held result ≡ values_of values.entry }
{
    StackView { values }
}
