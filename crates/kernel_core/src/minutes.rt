//! The minutes: each post, and how each job ended. The room for the end of a job is taken with its post.
ghost use Rattle.std.specs.Prelude.{◌≡◌, ◌+◌, ◌*◌, ◌<◌, ◌≤◌, ◌∷◌, ◌++◌, [], OnOk, suc, length, vec_capacity};
ghost use Rattle.kernel_machine.specs.Request.{request_of};
ghost use Rattle.kernel_machine.specs.Minutes.{minutes_limit};
ghost use Rattle.kernel_core.specs.Written.{HasPlaces, IsPostAt, entries_in, job_at};

use kernel_machine::{Job, Outcome};
use std::alloc::{AllocError, Global};

/// One entry of the minutes.
#[derive(Debug, Drop)]
pub enum Entry {
    /// A job that was posted, and the lane of the frontend that did. Jobs are numbered 1, 2, .. in the order of their posts.
    Posted {
        lane: u32,
        job: Job,
    },
    /// The end of the job of this number: what came of it, and the execution counter and the position as it ended.
    Ended {
        number: u64,
        outcome: Outcome,
        count: u64,
        node: usize,
    },
}

/// The entries, how many jobs were posted, and how many of them have ended.
#[derive(Drop)]
pub struct MinuteBook {
    pub entries: Vec<Entry>,
    pub posted: usize,
    pub ended: usize,
}

impl MinuteBook {
    /// No entries. It takes no memory.
    pub fn new(alloc: Global) -> MinuteBook
        ensures kept { HasPlaces result }
        ensures none { entries_in result ≡ [] }
    {
        MinuteBook {
            entries: Vec::new(alloc),
            posted: 0,
            ended: 0,
        }
    }

    /// Makes room for one more post and the end of its job.
    pub fn make_room(&mut self) -> Result<(), AllocError>
        requires kept { HasPlaces self.old }
        ensures kept { HasPlaces self.new }
        ensures same { entries_in self.new ≡ entries_in self.old }
        ensures ok { OnOk result (2 * suc self.new.posted ≤ vec_capacity self.new.entries) }
    {
        let places = 2 * (self.posted + 1) - self.entries.len();
        self.entries.reserve(places)
    }

    /// Writes a post down, and gives its number.
    pub fn post(&mut self, lane: u32, job: Job) -> u64
        requires kept { HasPlaces self.old }
        requires room { 2 * suc self.old.posted ≤ vec_capacity self.old.entries }
        requires within { 2 * suc self.old.posted ≤ minutes_limit }
        ensures kept { HasPlaces self.new }
        ensures written { self.new.entries.items ≡ self.old.entries.items ++ Entry.Posted lane job ∷ [] }
        ensures number { result ≡ suc self.old.posted }
    {
        self.entries.push_reserved(Entry::Posted { lane, job });
        self.posted += 1;
        self.posted as u64
    }

    /// Writes down the end of the earliest job that has not ended. It takes no memory.
    pub fn end(&mut self, outcome: Outcome, count: u64, node: usize)
        requires kept { HasPlaces self.old }
        requires some { self.old.ended < self.old.posted }
        ensures kept { HasPlaces self.new }
        ensures written { self.new.entries.items ≡ self.old.entries.items ++ Entry.Ended (suc self.old.ended) outcome count node ∷ [] }
    {
        self.ended += 1;
        let number = self.ended as u64;
        self.entries.push_reserved(Entry::Ended {
            number,
            outcome,
            count,
            node,
        });
    }

    /// The job that was posted at this place of the minutes.
    pub fn job(&self, place: usize) -> &Job
        requires { IsPostAt (entries_in self.now) place }
        ensures { request_of result.now ≡ job_at (entries_in self.now) place }
    {
        match &self.entries[place] {
            Entry::Posted { lane: _, job } => job,
            Entry::Ended {
                number: _,
                outcome: _,
                count: _,
                node: _,
            } => unreachable!(),
        }
    }
}
