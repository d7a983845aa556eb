//! A lone kernel as a desk.
ghost use Rattle.std.specs.Prelude.{◌≡◌, [], true};
ghost use Rattle.kernel_core.specs.State.{Idle};

use crate::job::run_job;
use crate::slice::Slice;
use kernel_ask::{Answer, Ask, CommChange, Comms, Done, HallFault, Wish, ask_on, comm_on};
use kernel_board::Broadcast;
use kernel_core::{Job, Kernel, PostFault};
use kernel_message::Stamp;
use kernel_session::Desk;
use std::alloc::{AllocError, Global};
use std::collections::VecDeque;
use std::marker::Model;
use std::sync::ledger::Ledger;

/// A kernel that no runner and no other frontend has a part in, with the slices that its jobs are to be given, and the broadcasts that it
/// keeps. No job is open between two calls. Contracts see the machine that the kernel is, the ids of the open comms, the slices that are
/// left, the broadcasts, and whether these are all.
#[derive(Drop)]
pub struct LoneDesk<L: Ledger> {
    alloc: Global,
    kernel: Kernel<L>,
    comms: Comms,
    slices: VecDeque<Slice>,
    kept: Vec<Broadcast>,
    /// Whether each broadcast found memory.
    is_whole: bool,
}

impl<L: Ledger> Model for LoneDesk<L> {
    ghost use Rattle.std.specs.Prelude.{◌≡◌, []};
    ghost use Rattle.kernel_core.specs.State.{Idle};
    ghost use Rattle.kernel_server.specs.Lone.{Lone, lone_code};

    ghost Value = { Lone };

    ghost coded = { lone_code };

    ghost view = { λ d. record { machine = d.kernel.machine; comms = d.comms; slices = d.slices.items; kept = d.kept.items; is_whole = d.is_whole } };

    ghost invariant = { λ d. (d.kernel.machine.state.job ≡ Idle) × (d.kernel.machine.queue ≡ []) };
}

impl<L: Ledger> LoneDesk<L> {
    /// The desk of a kernel without an open job, which is to be given these slices, and behind them slices of
    /// [`STEPS_OF_A_SLICE`](kernel_core::STEPS_OF_A_SLICE). It takes no memory.
    pub fn new(alloc: Global, kernel: Kernel<L>, comms: Comms, slices: Vec<Slice>) -> LoneDesk<L>
        requires idle { kernel.machine.state.job ≡ Idle }
        requires alone { kernel.machine.queue ≡ [] }
        ensures { result ≡ record { machine = kernel.machine; comms = comms; slices = slices.items; kept = []; is_whole = true } }
    {
        LoneDesk {
            alloc,
            kernel,
            comms,
            slices: VecDeque::from_vec(slices),
            kept: Vec::new(alloc),
            is_whole: true,
        }
    }

    /// Discards the desk, with its kernel by `Kernel::discard`.
    pub fn discard(self) {
        let LoneDesk { kernel, .. } = self;
        kernel.discard();
    }

    /// The kernel. No job is open.
    pub fn kernel(&self) -> &Kernel<L>
        ensures machine { result.now.machine ≡ self.now.machine }
        ensures idle { result.now.machine.state.job ≡ Idle }
        ensures alone { result.now.machine.queue ≡ [] }
    {
        &self.kernel
    }

    /// The broadcasts that are kept, the earliest first.
    pub fn kept(&self) -> &[Broadcast]
        ensures { result.now ≡ self.now.kept }
    {
        &self.kept
    }
}

impl<L: Ledger> Desk for LoneDesk<L> {
    ghost use Rattle.kernel_server.specs.Lone.{lone_leads};

    ghost leads = { lone_leads };

    fn job(&mut self, job: Job, wishes: Vec<Wish>) -> Result<Done, PostFault> {
        let LoneDesk {
            alloc,
            kernel,
            slices,
            ..
        } = self;
        run_job(*alloc, kernel, slices, job, wishes)
    }

    fn ask(&mut self, ask: Ask<'_>) -> Result<Answer, HallFault> {
        ask_on(self.alloc, &self.kernel, &self.comms, ask)
    }

    fn comm(&mut self, change: CommChange<'_>) -> Result<bool, HallFault> {
        comm_on(&mut self.comms, change)
    }

    /// There is no open job to interrupt.
    fn ring(&mut self) {}

    fn shut(&mut self) {
        let LoneDesk { kernel, .. } = self;
        kernel.shut();
    }

    /// One that finds no memory is not kept, and then the list is not told any more.
    fn publish(&mut self, broadcast: Broadcast) {
        if self.kept.push(broadcast).is_err() {
            self.is_whole = false;
        }
    }

    /// Nobody waits for broadcasts.
    fn wake(&mut self) {}

    fn broadcasts(&mut self, alloc: Global) -> Result<Vec<Broadcast>, AllocError> {
        if !self.is_whole {
            return Err(AllocError);
        }
        self.kept.as_slice().to_vec(alloc)
    }

    /// The date stays.
    fn date(&mut self, _stamp: &mut Stamp) {}
}
