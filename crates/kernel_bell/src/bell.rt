//! The bell and its calls.
ghost use Rattle.std.specs.Prelude.{◌≡◌, ◌+◌, ◌-◌, ◌^◌, ◌<◌, ◌≤◌, IfOk, IsTrue, All, vec_len};
ghost use Rattle.kernel_bell.specs.Views.{new_runner, new_ringer, after_begin, after_hearing, after_look, after_raise};
ghost use Rattle.kernel_bell.specs.Seats.{runner_seat, ringer_seat, is_asked, WasRung, IsNeverLater};

use crate::rule::{Begin, BellRule, Hear, Look, Raise, Sit};
use crate::seats::{RingerSeat, RunnerSeat};
use crate::view::SeatView;
use atomic_table::{Seat, Table};
use std::alloc::{AllocError, Global};
use std::marker::Model;

/// The word with the serial of the job that runs.
const CURRENT: usize = 0;

/// The word with the highest serial whose job was asked to stop.
const BELL: usize = 1;

/// The bell: its two words. Contracts see it as which bell it is.
#[derive(Drop)]
pub struct Bell {
    table: Table<(), SeatView, (), BellRule, Global>,
}

impl Model for Bell {
    ghost use Rattle.std.specs.Prelude.{◌≡◌};
    ghost use Rattle.atomic_table.specs.Seated.{TableId, table_id_coded};

    ghost Value = { TableId };

    ghost coded = { table_id_coded };

    ghost view = { λ b. b.table.shared.table_id };

    ghost invariant = { λ b. b.table.shared.table_id.words ≡ 2 };
}

impl Bell {
    /// A bell at which no job has begun and nobody has rung, with the runner's seat and as many ringers' seats as are asked for.
    ///
    /// # Errors
    ///
    /// `AllocError` where there is no memory. No other call takes any.
    pub fn new(
        alloc: Global,
        ringers: usize,
    ) -> Result<(Bell, RunnerSeat, Vec<RingerSeat>), AllocError>
        ensures runner { IfOk result (λ b. b.1 ≡ runner_seat b.0 new_runner) }
        ensures ringers { IfOk result (λ b. All (λ s. s ≡ ringer_seat b.0 new_ringer) b.2.items) }
        ensures count { IfOk result (λ b. vec_len b.2 ≡ ringers) }
    {
        let mut seats: Vec<RingerSeat> = Vec::with_capacity(alloc, ringers)?;
        let (table, mut seat) = Table::of_words(alloc, &[0, 0], &())?;
        for _ in 0..ringers {
            let ringer = table.shared.split_seat::<Sit>(&mut seat);
            seats.push(RingerSeat {
                seen: 0,
                seat: ringer,
            })?;
        }
        Ok((Bell { table }, RunnerSeat { serial: 0, seat }, seats))
    }

    /// Begins a job: stores the next serial in `current`, and answers it.
    pub fn begin(&self, runner: &mut RunnerSeat) -> u64
        requires own { runner.old.bell ≡ self.now }
        requires room { runner.old.knows.serial < 2 ^ 64 - 1 }
        ensures serial { result ≡ runner.old.knows.serial + 1 }
        ensures step { runner.new ≡ runner_seat self.now (after_begin runner.old.knows) }
    {
        let serial = runner.serial + 1;
        self.table
            .shared
            .store::<Begin>(&mut runner.seat, CURRENT, serial);
        runner.serial = serial;
        serial
    }

    /// Whether the job that runs is asked to stop: one load of `bell`, and true exactly where the job's serial is at least 1 and the
    /// serial found has reached it. Then a ringer has rung this very serial.
    pub fn asked(&self, runner: &mut RunnerSeat) -> bool
        requires own { runner.old.bell ≡ self.now }
        ensures answer { result ≡ is_asked runner.new.knows }
        ensures step { runner.new ≡ runner_seat self.now (after_hearing runner.old.knows runner.new.knows.heard) }
        ensures later { runner.old.knows.heard ≤ runner.new.knows.heard }
        ensures rung { IsTrue result → WasRung runner.new.knows }
    {
        let heard = self.table.shared.load::<Hear>(&mut runner.seat, BELL);
        1 <= runner.serial && runner.serial <= heard
    }

    /// Looks which job runs: one load of `current`. It answers the serial found.
    pub fn look(&self, ringer: &mut RingerSeat) -> u64
        requires own { ringer.old.bell ≡ self.now }
        ensures step { ringer.new ≡ ringer_seat self.now (after_look ringer.old.knows result) }
        ensures later { ringer.old.knows.seen ≤ result }
        ensures within { IsNeverLater ringer.new.knows }
    {
        let seen = self.table.shared.load::<Look>(&mut ringer.seat, CURRENT);
        ringer.seen = seen;
        seen
    }

    /// Asks the job that the ringer has seen to stop: one raise of `bell` to its serial, which it answers.
    pub fn raise(&self, ringer: &mut RingerSeat) -> u64
        requires own { ringer.old.bell ≡ self.now }
        ensures serial { result ≡ ringer.old.knows.seen }
        ensures step { ringer.new ≡ ringer_seat self.now (after_raise ringer.old.knows) }
        ensures within { IsNeverLater ringer.new.knows }
    {
        let seen = ringer.seen;
        self.table
            .shared
            .fetch_max::<Raise>(&mut ringer.seat, BELL, seen);
        seen
    }

    /// Asks the job that runs to stop: a look, and then a raise. It answers the serial that it rang, which is at most the current one, so a
    /// ring stops no later job.
    pub fn ring(&self, ringer: &mut RingerSeat) -> u64
        requires own { ringer.old.bell ≡ self.now }
        ensures step { ringer.new ≡ ringer_seat self.now (after_raise (after_look ringer.old.knows result)) }
        ensures serial { ringer.new.knows.rung ≡ result }
        ensures later { ringer.old.knows.seen ≤ result }
        ensures within { IsNeverLater ringer.new.knows }
    {
        self.look(ringer);
        self.raise(ringer)
    }
}
