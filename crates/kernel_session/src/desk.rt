//! What a connection asks of the kernel behind it.
ghost use Rattle.std.specs.Prelude.{◌≡◌, IfOk, OnErr};
ghost use Rattle.kernel_reply.specs.Request.{request_of};
ghost use Rattle.kernel_session.specs.Question.{question_of, change_of, wishes_of};
ghost use Rattle.kernel_session.specs.Session.{IsDated};

use kernel_board::Broadcast;
use kernel_message::Stamp;
use kernel_reply::{Answer, Ask, CommChange, Done, HallFault, Job, PostFault, Wish};
use std::alloc::{AllocError, Global};

/// The calls that a connection makes. What they mean is the relation `leads`: each call with its answer leads from one desk to the
/// next, so what a desk may answer is what its relation allows.
pub trait Desk {
    ghost use Rattle.kernel_session.specs.Call.{Call, Posted, Asked, Changed, Rang, Shut, Published, Kept, Dated};

    // From the first desk, this call with its answer may leave the second.
    ghost leads: { Self → Call → Self → Type 0 };

    /// Posts a job, and waits until it has ended; with the user expressions that are evaluated after it. An `Err` tells why it was
    /// refused as it was posted.
    fn job(&mut self, job: Job, wishes: Vec<Wish>) -> Result<Done, PostFault>
        ensures { leads self.old (Posted (request_of job) (wishes_of wishes.items) result) self.new };

    /// Answers a question. An `Err` tells that there was no memory.
    fn ask(&mut self, ask: Ask<'_>) -> Result<Answer, HallFault>
        ensures { leads self.old (Asked (question_of ask.entry) result) self.new };

    /// Opens or closes a comm, and tells whether it did. An `Err` tells that there was no memory.
    fn comm(&mut self, change: CommChange<'_>) -> Result<bool, HallFault>
        ensures { leads self.old (Changed (change_of change.entry) result) self.new };

    /// Interrupts the open job.
    fn ring(&mut self)
        ensures { leads self.old Rang self.new };

    /// A shutdown: from now on jobs are refused.
    fn shut(&mut self)
        ensures { leads self.old Shut self.new };

    /// Hands a broadcast, sealed, to who keeps them. Nobody is woken for it.
    fn publish(&mut self, broadcast: Broadcast)
        ensures { leads self.old (Published broadcast) self.new };

    /// Wakes those who wait for broadcasts: what was published before is there for them. Nothing else changes.
    fn wake(&mut self)
        ensures { self.new ≡ self.old };

    /// The broadcasts that are kept. An `Err` tells that there was no memory, and changes nothing.
    fn broadcasts(&mut self, alloc: Global) -> Result<Vec<Broadcast>, AllocError>
        ensures ok { IfOk result (λ kept. leads self.old (Kept kept.items) self.new) }
        ensures err { OnErr result (self.new ≡ self.old) };

    /// Sets the date of what is sent next, or leaves it.
    fn date(&mut self, stamp: &mut Stamp)
        ensures dated { IsDated stamp.old stamp.new }
        ensures leads { leads self.old (Dated stamp.old.date stamp.new.date) self.new };
}
