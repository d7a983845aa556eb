//! The desk of connections at which nothing is asked.
use kernel_board::Broadcast;
use kernel_hall::{Answer, Ask, CommChange, Done, HallFault, Job, PostFault, Wish};
use kernel_message::Stamp;
use kernel_session::Desk;
use std::alloc::{AllocError, Global};

/// The desk of a connection of stdin or of the heartbeat. It has no kernel behind it: jobs, questions and changes are refused, and broadcasts are dropped.
#[derive(Drop)]
pub struct QuietDesk;

impl Desk for QuietDesk {
    ghost use Rattle.kernel_desk.specs.Quiet.{quiet_leads};

    ghost leads = { quiet_leads };

    fn job(&mut self, _job: Job, _wishes: Vec<Wish>) -> Result<Done, PostFault> {
        Err(PostFault::Closing)
    }

    fn ask(&mut self, _ask: Ask<'_>) -> Result<Answer, HallFault> {
        Err(HallFault::Memory)
    }

    fn comm(&mut self, _change: CommChange<'_>) -> Result<bool, HallFault> {
        Err(HallFault::Memory)
    }

    fn ring(&mut self) {}

    fn shut(&mut self) {}

    fn publish(&mut self, _broadcast: Broadcast) {}

    fn wake(&mut self) {}

    fn broadcasts(&mut self, alloc: Global) -> Result<Vec<Broadcast>, AllocError> {
        Ok(Vec::new(alloc))
    }

    fn date(&mut self, _stamp: &mut Stamp) {}
}
