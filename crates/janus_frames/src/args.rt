//! The arguments of a call, in a place of their own.

ghost use Rattle.std.specs.Prelude.{◌≡◌, ◌≤◌, length};

/// The arguments of a call: the numbers of their slots in its caller's frame, in the order of the parameters.
#[derive(Clone, Copy)]
pub struct Args {
    pub(crate) slots: [u16; 16],
    pub(crate) count: usize,
    ghost few: { count ≤ 16 },
    ghost long: { length slots ≡ 16 },
}
