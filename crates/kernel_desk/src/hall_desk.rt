//! The desk before a hall.
ghost use Rattle.std.specs.Prelude.{◌≡◌, ℕ, false, IfOk};
ghost use Rattle.kernel_desk.specs.HallDesk.{AreRead};

use kernel_bell::RingerSeat;
use kernel_board::{BROADCASTS_OF_A_READ, BoardFault, Broadcast, KEPT_BROADCASTS, Place, Read};
use kernel_hall::{
    Answer, Ask, CommChange, Done, Hall, HallFault, HistoryName, Job, Pass, PostFault, Wish,
};
use kernel_iopub::Bulletin;
use kernel_message::Stamp;
use kernel_session::Desk;
use stamp_texts::present_date;
use std::alloc::{AllocError, Global};
use std::marker::Model;
use std::sync::Wait;
use std::sync::ledger::Ledger;
use std::time::Clock;

/// The desk of one connection at a time before a hall, with a pass of the hall and a ringer's seat of the hall's bell. Contracts see what it holds.
#[derive(Drop)]
pub struct HallDesk<'a, W: Ledger, L: HistoryName, R: Wait + Clock> {
    rt: &'a R,
    hall: &'a Hall<W, L>,
    bulletin: &'a Bulletin,
    pass: Pass<L>,
    seat: RingerSeat,
    /// Where the next broadcast is read.
    place: Place,
    was_shut: bool,
}

impl<'a, W: Ledger, L: HistoryName, R: Wait + Clock> Model for HallDesk<'a, W, L, R> {
    ghost use Rattle.std.specs.Prelude.{◌≡◌, true};
    ghost use Rattle.kernel_hall.specs.Notes.{has_shutdown};
    ghost use Rattle.kernel_desk.specs.HallDesk.{DeskState};

    ghost Value = { DeskState };

    ghost view = { λ d. record { pass = d.pass; seat = d.seat; place = d.place.number; was_shut = d.was_shut } };

    ghost invariant = { λ d. (d.seat.bell ≡ d.hall.now) × (d.was_shut ≡ true → has_shutdown d.pass.notes ≡ true) };
}

impl<'a, W: Ledger, L: HistoryName, R: Wait + Clock> HallDesk<'a, W, L, R> {
    /// The desk of a pass of the hall and a seat of its bell. It reads the broadcasts that are published from now on.
    pub fn new(
        rt: &'a R,
        hall: &'a Hall<W, L>,
        bulletin: &'a Bulletin,
        pass: Pass<L>,
        seat: RingerSeat,
    ) -> HallDesk<'a, W, L, R>
        requires own { seat.bell ≡ hall.now }
        ensures pass { result.pass ≡ pass }
        ensures seat { result.seat ≡ seat }
        ensures open { result.was_shut ≡ false }
    {
        HallDesk {
            rt,
            hall,
            bulletin,
            pass,
            seat,
            place: bulletin.join(rt),
            was_shut: false,
        }
    }

    /// Whether a shutdown came to this desk.
    pub fn was_shut(&self) -> bool
        ensures { result ≡ self.now.was_shut }
    {
        self.was_shut
    }
}

/// Reads once from a place on, behind what was read before. Whether more may come, and the place behind it.
fn read_more<R: Wait>(
    rt: &R,
    bulletin: &Bulletin,
    kept: &mut Vec<Broadcast>,
    place: Place,
) -> Result<(bool, Place), AllocError>
    ensures { IfOk result (λ r. (from : ℕ) → AreRead from kept.old.items place.number → AreRead from kept.new.items r.1.number) }
{
    match bulletin.read_from(rt, place) {
        Ok(Read::Lagged(oldest)) => Ok((true, oldest)),
        Ok(Read::Got(mut got, next)) => {
            let is_more = !got.is_empty();
            kept.append(&mut got)?;
            Ok((is_more, next))
        }
        Err(BoardFault::Memory) => Err(AllocError),
    }
}

/// All that the board keeps from a place on, and the place behind it. What is no longer kept is left out.
fn read_all<R: Wait>(
    rt: &R,
    bulletin: &Bulletin,
    alloc: Global,
    from: Place,
) -> Result<(Vec<Broadcast>, Place), AllocError>
    ensures { IfOk result (λ r. AreRead from.number r.0.items r.1.number) }
{
    let mut kept: Vec<Broadcast> = Vec::new(alloc);
    let mut place = from;
    // The reads that give all that is kept at once, behind one that tells of a gap.
    for _ in 0..KEPT_BROADCASTS / BROADCASTS_OF_A_READ + 1 {
        let (is_more, next) = read_more(rt, bulletin, &mut kept, place)?;
        place = next;
        if !is_more {
            break;
        }
    }
    Ok((kept, place))
}

impl<W: Ledger, L: HistoryName, R: Wait + Clock> Desk for HallDesk<'_, W, L, R> {
    ghost use Rattle.kernel_desk.specs.HallDesk.{hall_desk_leads};

    ghost leads = { hall_desk_leads };

    fn job(&mut self, job: Job, wishes: Vec<Wish>) -> Result<Done, PostFault> {
        let HallDesk { rt, hall, pass, .. } = self;
        hall.run(*rt, pass, job, wishes)
    }

    fn ask(&mut self, ask: Ask<'_>) -> Result<Answer, HallFault> {
        let HallDesk { rt, hall, pass, .. } = self;
        hall.ask(*rt, pass, ask)
    }

    fn comm(&mut self, change: CommChange<'_>) -> Result<bool, HallFault> {
        let HallDesk { rt, hall, pass, .. } = self;
        hall.comm(*rt, pass, change)
    }

    fn ring(&mut self) {
        let HallDesk { hall, seat, .. } = self;
        let _serial = hall.bell().ring(seat);
    }

    fn shut(&mut self) {
        let HallDesk {
            rt,
            hall,
            pass,
            was_shut,
            ..
        } = self;
        *was_shut = true;
        hall.shut_by(*rt, pass);
    }

    fn publish(&mut self, broadcast: Broadcast) {
        self.bulletin.publish(self.rt, broadcast);
    }

    fn wake(&mut self) {
        self.bulletin.wake();
    }

    /// What the board keeps from the desk's place on, which moves behind it.
    fn broadcasts(&mut self, alloc: Global) -> Result<Vec<Broadcast>, AllocError> {
        let (kept, place) = read_all(self.rt, self.bulletin, alloc, self.place)?;
        self.place = place;
        Ok(kept)
    }

    /// The present date, where its year is 0 to 9999; else the date stays.
    fn date(&mut self, stamp: &mut Stamp) {
        let Some(date) = present_date(self.rt) else {
            return;
        };
        stamp.date = date;
    }
}
