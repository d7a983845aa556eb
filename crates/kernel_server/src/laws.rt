//! What holds of a lone kernel and its jobs. The functions do nothing: their contracts are the laws.
ghost use Rattle.kernel_server.specs.Laws.{LoneJobsEnd, LoneJobsAreDetermined, LoneDesksKeepAll};

/// What is told of a job is how it ended: a cell as a new node or with all as before, a move after whole cells, and after a shutdown as
/// refused.
pub fn lone_jobs_end_law()
    ensures { LoneJobsEnd }
{}

/// Where memory is ample, the kernel and the slices alone decide what comes of a job: its outcome, its number, the counter and the node,
/// the kernel after it and the slices that are left.
pub fn lone_jobs_are_determined_law()
    ensures { LoneJobsAreDetermined }
{}

/// The broadcasts that a desk tells are all that were handed to it: one that finds no memory ends that, and then none are told.
pub fn lone_desks_keep_all_law()
    ensures { LoneDesksKeepAll }
{}
