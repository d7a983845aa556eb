//! The theorems above the transcript. The functions' contracts are the laws.
ghost use Rattle.cells_program.specs.Determined.{TranscriptIsDetermined};
ghost use Rattle.cells_program.specs.ServedEnds.{ServesByARun, ServedJobEnds, StopsCellsAlone};

use kernel_core::laws::{
    jobs_end_law, new_is_legal_law, only_asked_slices_stop_law, stays_legal_law,
    step_is_determined_law,
};

/// An input has at most one transcript that nowhere tells want of memory: two such are the same.
pub fn transcript_is_determined_law()
    ensures { TranscriptIsDetermined }
{
    new_is_legal_law();
    stays_legal_law();
    step_is_determined_law();
}

/// A request that is served is posted, and a run of the kernel's machine brings it to its end.
pub fn serves_by_a_run_law()
    ensures { ServesByARun }
{}

/// What comes of a request that is served is what the kernel's law says of each job: a cell is a new node or has left all as it was, an
/// undo, a redo or a goto ends after all of its cells or some, or is refused whole.
pub fn served_job_ends_law()
    ensures { ServedJobEnds }
{
    jobs_end_law();
}

/// No undo, redo or goto that is served is stopped before its end, and a cell only where it has not ended after the steps that it may take: it
/// is interrupted after exactly these, and all is as it was.
pub fn stops_cells_alone_law()
    ensures { StopsCellsAlone }
{
    jobs_end_law();
    only_asked_slices_stop_law();
}
