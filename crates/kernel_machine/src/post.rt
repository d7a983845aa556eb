//! What frontends post, and why a post is refused.
ghost use Rattle.std.specs.Prelude.{◌≡◌, IfOk};
ghost use Rattle.kernel_machine.specs.Request.{request_of, is_counted};

use crate::cell_text::CellText;
use std::alloc::AllocError;
use thiserror::Error;

/// What a frontend posts.
#[derive(Debug, Drop)]
pub enum Job {
    /// The text of a cell. One that is not silent and is to be stored raises the execution counter as it is begun.
    Cell {
        code: CellText,
        silent: bool,
        store: bool,
    },
    /// An undo: how many cells, from the position up.
    Undo(u32),
    /// A redo: how many cells, from the position down along favourites.
    Redo(u32),
    /// A goto: the node of this number, to which the cells lead up to where the paths meet, and then down.
    Goto(u32),
}

impl Job {
    /// The same job: the text of a cell is shared. The only error is want of memory.
    pub fn try_clone(&self) -> Result<Job, AllocError>
        ensures { IfOk result (λ job. request_of job ≡ request_of self.now) }
    {
        match self {
            Job::Cell {
                code,
                silent,
                store,
            } => Ok(Job::Cell {
                code: code.clone()?,
                silent: *silent,
                store: *store,
            }),
            Job::Undo(k) => Ok(Job::Undo(*k)),
            Job::Redo(k) => Ok(Job::Redo(*k)),
            Job::Goto(n) => Ok(Job::Goto(*n)),
        }
    }

    /// Whether it raises the execution counter.
    pub fn is_counted(&self) -> bool
        ensures { result ≡ is_counted (request_of self.now) }
    {
        match self {
            Job::Cell {
                code: _,
                silent,
                store,
            } => !*silent && *store,
            Job::Undo(_) => false,
            Job::Redo(_) => false,
            Job::Goto(_) => false,
        }
    }
}

/// Why a post was refused. It changed nothing.
#[derive(Clone, Copy, Debug, Error)]
pub enum PostFault {
    /// The kernel was shut.
    #[error("Closing")]
    Closing,
    /// The minutes have no places for one more post and its end.
    #[error("MinutesFull")]
    MinutesFull,
    /// As many jobs as may wait are posted and not begun.
    #[error("QueueFull")]
    QueueFull,
    /// There was no memory for the queue and the minutes, or for the job.
    #[error("Memory")]
    Memory,
}

impl PostFault {
    ghost use Rattle.kernel_machine.specs.PostFault.{number_of, name_of};

    /// The number under which the refusal is told.
    pub fn number(self) -> u8
        ensures { result ≡ number_of self }
    {
        match self {
            PostFault::QueueFull => 74,
            PostFault::Closing => 75,
            PostFault::Memory => 76,
            PostFault::MinutesFull => 77,
        }
    }

    /// The word under which the refusal is told.
    pub fn name(self) -> &'static str
        ensures { result.now ≡ name_of self }
    {
        match self {
            PostFault::QueueFull => "QueueFull",
            PostFault::Closing => "Closing",
            PostFault::Memory => "Memory",
            PostFault::MinutesFull => "MinutesFull",
        }
    }
}
