//! The seats. Each belongs to one bell, and is the right to step at it. At run time it is one number.
ghost use Rattle.std.specs.Prelude.{◌≡◌};

use crate::view::SeatView;
use atomic_table::Seat;
use std::marker::Model;

/// The one seat of the runner. Contracts see which bell it belongs to, and what the runner knows.
#[derive(Drop)]
pub struct RunnerSeat {
    pub(crate) serial: u64,
    pub(crate) seat: Seat<(), SeatView>,
}

impl Model for RunnerSeat {
    ghost use Rattle.std.specs.Prelude.{◌≡◌};
    ghost use Rattle.kernel_bell.specs.Plays.{runner_of, seated_runner};
    ghost use Rattle.kernel_bell.specs.Seats.{RunnerOf, runner_seat};

    ghost Value = { RunnerOf };

    ghost view = { λ s. runner_seat s.seat.table_id (runner_of s.seat.me.0) };

    ghost invariant = { λ s. (s.seat.me ≡ seated_runner (runner_of s.seat.me.0)) × (s.serial ≡ (runner_of s.seat.me.0).serial) };
}

/// A seat of one ringer. Contracts see which bell it belongs to, and what the ringer knows.
#[derive(Drop)]
pub struct RingerSeat {
    pub(crate) seen: u64,
    pub(crate) seat: Seat<(), SeatView>,
}

impl Model for RingerSeat {
    ghost use Rattle.std.specs.Prelude.{◌≡◌};
    ghost use Rattle.kernel_bell.specs.Plays.{ringer_of, seated_ringer};
    ghost use Rattle.kernel_bell.specs.Seats.{RingerOf, ringer_seat};

    ghost Value = { RingerOf };

    ghost view = { λ s. ringer_seat s.seat.table_id (ringer_of s.seat.me.0) };

    ghost invariant = { λ s. (s.seat.me ≡ seated_ringer (ringer_of s.seat.me.0)) × (s.seen ≡ (ringer_of s.seat.me.0).seen) };
}

impl RunnerSeat {
    /// The serial of the job that was begun last, or 0.
    pub fn serial(&self) -> u64
        ensures { result ≡ self.now.knows.serial }
    {
        self.serial
    }
}
