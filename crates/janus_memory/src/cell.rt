//! A cell.

/// What a cell has beside its number.
#[derive(Clone, Copy)]
pub(crate) enum Held {
    /// Nothing.
    Nothing,
    /// The array of an index among all arrays.
    Array(u16),
    /// The stack of an index among all stacks.
    Stack(u16),
    /// Nothing, and its value is lent.
    Lent,
}

/// A cell: a number of its own, and beside it what it has.
#[derive(Clone, Copy)]
pub(crate) struct Cell {
    pub(crate) number: i32,
    pub(crate) held: Held,
}

/// A cell of the number 0 alone.
pub(crate) const PLAIN: Cell = Cell {
    number: 0,
    held: Held::Nothing,
};

/// A cell whose value is lent.
pub(crate) const LENT: Cell = Cell {
    number: 0,
    held: Held::Lent,
};
