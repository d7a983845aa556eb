//! Which way code runs.

/// Which code of a book runs.
#[derive(Clone, Copy)]
pub(crate) enum Direction {
    /// The cell's own code.
    Forward,
    /// The code that takes it back.
    Inverse,
}

impl Direction {
    ghost use Rattle.std.specs.Prelude.{◌≡◌};
    ghost use Rattle.janus_machine.specs.Mirrored.{opposite_direction};

    /// The other direction.
    pub(crate) fn opposite(self) -> Direction
        ensures { result ≡ opposite_direction self }
    {
        match self {
            Direction::Forward => Direction::Inverse,
            Direction::Inverse => Direction::Forward,
        }
    }
}
