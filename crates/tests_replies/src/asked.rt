//! What a kernel tells of a request as it asks.
use crate::kernels::{cell_of, ended};
use crate::report::{Report, answered};
use jupyter_msg::{
    CommAsk, ExecuteRequest, HistoryAccess, HistoryRequest, RequestContent, UserExpression,
};
use kernel_reply::{Ask, Comms, HistoryAsk, Job, Kernel};
use std::alloc::{AllocError, Global};
use std::sync::ledger::Ledger;

/// Runs the cell or the move, or asks the question. A job is asked to stop behind its first `calm` slices.
pub(crate) fn asked<L: Ledger>(
    alloc: Global,
    kernel: &mut Kernel<L>,
    comms: &mut Comms,
    content: &RequestContent,
    calm: usize,
) -> Result<Report, AllocError> {
    match content {
        RequestContent::Execute(request) => executed(alloc, kernel, request, calm),
        RequestContent::CommMessage(message) => on_comm(alloc, kernel, comms, message.ask, calm),
        RequestContent::CommOpen(request) => {
            opened(alloc, kernel, comms, request.comm_id.as_str())
        }
        _ => answered(alloc, kernel, comms, ask_of(content)),
    }
}

/// Runs the cell of a request.
fn executed<L: Ledger>(
    alloc: Global,
    kernel: &mut Kernel<L>,
    request: &ExecuteRequest,
    calm: usize,
) -> Result<Report, AllocError> {
    let code = request.code.clone()?;
    let job = cell_of(alloc, code, request.silent, request.store_history)?;
    run_job(alloc, kernel, job, &request.user_expressions, calm)
}

/// Runs a job, with the expressions beside it.
fn run_job<L: Ledger>(
    alloc: Global,
    kernel: &mut Kernel<L>,
    job: Job,
    expressions: &[UserExpression],
    calm: usize,
) -> Result<Report, AllocError> {
    match ended(alloc, kernel, job, expressions, calm) {
        Ok(done) => Ok(Report::Ended(done)),
        Err(_) => Err(AllocError),
    }
}

/// Makes the move that is asked for on a comm, or asks for the state.
fn on_comm<L: Ledger>(
    alloc: Global,
    kernel: &mut Kernel<L>,
    comms: &Comms,
    ask: CommAsk,
    calm: usize,
) -> Result<Report, AllocError> {
    match ask {
        CommAsk::Undo(count) => run_job(alloc, kernel, Job::Undo(count), &[], calm),
        CommAsk::Redo(count) => run_job(alloc, kernel, Job::Redo(count), &[], calm),
        CommAsk::Goto(node) => run_job(alloc, kernel, Job::Goto(node), &[], calm),
        CommAsk::State | CommAsk::Other => answered(alloc, kernel, comms, Ask::State),
    }
}

/// Opens a comm, and asks whether it is open.
fn opened<L: Ledger>(
    alloc: Global,
    kernel: &Kernel<L>,
    comms: &mut Comms,
    id: &str,
) -> Result<Report, AllocError> {
    let _opened = comms.open(String::from_str(alloc, id)?)?;
    answered(alloc, kernel, comms, Ask::IsOpen { id })
}

/// What is asked of the kernel by a request that changes nothing.
fn ask_of(content: &RequestContent) -> Ask<'_> {
    match content {
        RequestContent::Complete(request) => Ask::Complete {
            code: request.code.as_str(),
            cursor: request.cursor,
        },
        RequestContent::Inspect(request) => Ask::Inspect {
            code: request.code.as_str(),
            cursor: request.cursor,
        },
        RequestContent::IsComplete(request) => Ask::IsComplete {
            code: request.code.as_str(),
        },
        RequestContent::History(request) => history_of(request),
        RequestContent::CommInfo(_) | RequestContent::CommClose(_) => Ask::Comms,
        _ => Ask::State,
    }
}

/// The history that is asked for; a search is none.
fn history_of(request: &HistoryRequest) -> Ask<'static> {
    match request.access {
        HistoryAccess::Tail => Ask::History(HistoryAsk::Tail(request.n)),
        HistoryAccess::Range => Ask::History(HistoryAsk::Range {
            session: request.session,
            start: request.start,
            stop: request.stop,
        }),
        HistoryAccess::Search => Ask::State,
    }
}
