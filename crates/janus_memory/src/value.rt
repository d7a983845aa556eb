//! Values as they are lent.

use crate::stack_view::StackView;

/// A value that is lent to be read.
#[derive(Clone, Copy)]
pub enum ValueView<'a> {
    Number(i32),
    /// The elements, from index 0 on.
    Array(&'a [i32]),
    /// The values, from the top down.
    Stack(StackView<'a>),
}
