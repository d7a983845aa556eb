//! What is said in answer to each request.
ghost use Rattle.std.specs.Prelude.{◌≡◌, ◌≤◌, vec_len, IfOk, string_bytes, option_map};
ghost use Rattle.kernel_message.specs.Draft.{said_of};
ghost use Rattle.kernel_message.specs.Drafts.{says_of};
ghost use Rattle.kernel_reply.specs.Answers as table;
ghost use Rattle.kernel_reply.specs.Moves.{move_shown, unposted_shown};

use crate::comms::{asks_target, comm_close, comm_info_reply, is_target, state_msg};
use crate::execution::{error_reply, execute_broadcasts, execute_reply};
use crate::moves::{move_msg, unposted_msg};
use crate::problem::{cell_problem, post_problem};
use crate::replies::{
    complete_reply, history_reply, inspect_reply, interrupt_reply, is_complete_reply,
    kernel_info_reply, no_search_reply, shutdown_reply,
};
use crate::status::idle;
use jupyter_msg::{CommAsk, CommMessage, CommOpen, HistoryAccess, HistoryRequest, RequestContent};
use kernel_ask::{Content, Done, KernelState, Outcome, PostFault};
use kernel_message::{Draft, Drafts};
use std::alloc::{AllocError, Global};

/// A reply, and the status.
fn only(alloc: Global, reply: Draft) -> Result<Drafts, AllocError>
    ensures says { IfOk result (λ s. says_of s ≡ table.only (said_of reply)) }
    ensures few { IfOk result (λ s. vec_len s.broadcasts ≤ 3) }
{
    Ok(Drafts {
        reply: Some(reply),
        broadcasts: Vec::from_array(alloc, [idle(alloc)?])?,
    })
}

/// The status alone.
fn status_alone(alloc: Global) -> Result<Drafts, AllocError>
    ensures says { IfOk result (λ s. says_of s ≡ table.status_alone) }
    ensures few { IfOk result (λ s. vec_len s.broadcasts ≤ 3) }
{
    Ok(Drafts {
        reply: None,
        broadcasts: Vec::from_array(alloc, [idle(alloc)?])?,
    })
}

/// A broadcast, and the status.
fn tells(alloc: Global, broadcast: Draft) -> Result<Drafts, AllocError>
    ensures says { IfOk result (λ s. says_of s ≡ table.tells (said_of broadcast)) }
    ensures few { IfOk result (λ s. vec_len s.broadcasts ≤ 3) }
{
    Ok(Drafts {
        reply: None,
        broadcasts: Vec::from_array(alloc, [broadcast, idle(alloc)?])?,
    })
}

/// Whether a cell ends so.
fn is_of_cell(outcome: &Outcome) -> bool
    ensures { result ≡ table.is_of_cell outcome.now }
{
    match *outcome {
        Outcome::Ran(_, _) => true,
        Outcome::Failed(_, _) => true,
        Outcome::Interrupted(_) => true,
        Outcome::Refused(_) => true,
        Outcome::Undid(_, _) => false,
        Outcome::Redid(_, _) => false,
        Outcome::Went(_, _, _) => false,
    }
}

/// What is said of a cell of this text.
fn cell_drafts(alloc: Global, silent: bool, code: &str, done: &Done) -> Result<Drafts, AllocError>
    ensures says { IfOk result (λ s. says_of s ≡ table.cell_says_with silent code.now done.now) }
    ensures few { IfOk result (λ s. vec_len s.broadcasts ≤ 3) }
{
    let problem = cell_problem(alloc, &done.outcome)?;
    let reply = execute_reply(alloc, done.count, problem.as_ref(), &done.values)?;
    let broadcasts = execute_broadcasts(
        alloc,
        silent,
        code,
        done.count,
        problem.as_ref(),
        done.shown.as_deref(),
    )?;
    Ok(Drafts {
        reply: Some(reply),
        broadcasts,
    })
}

/// What is said of a move.
fn move_drafts(alloc: Global, request: &CommMessage, done: &Done) -> Result<Drafts, AllocError>
    ensures says { IfOk result (λ s. says_of s
        ≡ table.tells_on_comm (string_bytes request.now.comm_id) (move_shown request.now.ask done.now.node done.now.outcome)) }
    ensures few { IfOk result (λ s. vec_len s.broadcasts ≤ 3) }
{
    match move_msg(
        alloc,
        &request.comm_id,
        request.ask,
        done.node,
        &done.outcome,
    )? {
        Some(draft) => tells(alloc, draft),
        None => status_alone(alloc),
    }
}

/// What is said of a job that ended. The code is the text of the cell, if that is what ran.
pub(crate) fn job_drafts(
    alloc: Global,
    request: &RequestContent,
    code: &str,
    done: &Done,
) -> Result<Drafts, AllocError>
    ensures says { IfOk result (λ s. says_of s ≡ table.job_says_with request.now code.now done.now) }
    ensures few { IfOk result (λ s. vec_len s.broadcasts ≤ 3) }
{
    match request {
        RequestContent::Execute(request) => {
            if is_of_cell(&done.outcome) {
                cell_drafts(alloc, request.silent, code, done)
            } else {
                status_alone(alloc)
            }
        }
        RequestContent::CommMessage(request) => move_drafts(alloc, request, done),
        _ => status_alone(alloc),
    }
}

/// What is said of a cell of this text that was not posted.
fn unposted_cell_drafts(
    alloc: Global,
    silent: bool,
    code: &str,
    fault: PostFault,
    state: &KernelState,
) -> Result<Drafts, AllocError>
    ensures says { IfOk result (λ s. says_of s ≡ table.unposted_cell_says_with silent code.now fault state.now) }
    ensures few { IfOk result (λ s. vec_len s.broadcasts ≤ 3) }
{
    let problem = post_problem(alloc, fault)?;
    let reply = error_reply(alloc, state.count, &problem)?;
    let broadcasts = execute_broadcasts(alloc, silent, code, state.count, Some(&problem), None)?;
    Ok(Drafts {
        reply: Some(reply),
        broadcasts,
    })
}

/// What is said of a move that was not posted.
fn unposted_move_drafts(
    alloc: Global,
    request: &CommMessage,
    fault: PostFault,
    state: &KernelState,
) -> Result<Drafts, AllocError>
    ensures says { IfOk result (λ s. says_of s
        ≡ table.tells_on_comm (string_bytes request.now.comm_id) (unposted_shown request.now.ask state.now.node fault)) }
    ensures few { IfOk result (λ s. vec_len s.broadcasts ≤ 3) }
{
    match unposted_msg(alloc, &request.comm_id, request.ask, state.node, fault)? {
        Some(draft) => tells(alloc, draft),
        None => status_alone(alloc),
    }
}

/// What is said of a job that was not posted. The code is the text of the cell, if that is what was to run.
pub(crate) fn refusal_drafts(
    alloc: Global,
    request: &RequestContent,
    code: &str,
    fault: PostFault,
    content: &Content,
) -> Result<Drafts, AllocError>
    ensures says { IfOk result (λ s. says_of s ≡ table.refusal_says_with request.now code.now fault content.now) }
    ensures few { IfOk result (λ s. vec_len s.broadcasts ≤ 3) }
{
    let Content::State(state) = content else {
        return status_alone(alloc);
    };
    match request {
        RequestContent::Execute(request) => {
            unposted_cell_drafts(alloc, request.silent, code, fault, state)
        }
        RequestContent::CommMessage(request) => unposted_move_drafts(alloc, request, fault, state),
        _ => status_alone(alloc),
    }
}

/// What is said of completions.
fn completion_drafts(alloc: Global, content: &Content) -> Result<Drafts, AllocError>
    ensures says { IfOk result (λ s. says_of s ≡ table.completion_says content.now) }
    ensures few { IfOk result (λ s. vec_len s.broadcasts ≤ 3) }
{
    match content {
        Content::Completion(completion) => only(alloc, complete_reply(alloc, completion)?),
        _ => status_alone(alloc),
    }
}

/// What is said of a name.
fn inspection_drafts(alloc: Global, content: &Content) -> Result<Drafts, AllocError>
    ensures says { IfOk result (λ s. says_of s ≡ table.inspection_says content.now) }
    ensures few { IfOk result (λ s. vec_len s.broadcasts ≤ 3) }
{
    match content {
        Content::Inspection(known) => only(alloc, inspect_reply(alloc, known.as_deref())?),
        _ => status_alone(alloc),
    }
}

/// What is said of code that may be complete.
fn completeness_drafts(alloc: Global, content: &Content) -> Result<Drafts, AllocError>
    ensures says { IfOk result (λ s. says_of s ≡ table.completeness_says content.now) }
    ensures few { IfOk result (λ s. vec_len s.broadcasts ≤ 3) }
{
    match content {
        Content::Completeness(completeness) => only(
            alloc,
            is_complete_reply(alloc, *completeness)?,
        ),
        _ => status_alone(alloc),
    }
}

/// The input history, as it is asked for.
fn history_drafts(
    alloc: Global,
    request: &HistoryRequest,
    content: &Content,
) -> Result<Drafts, AllocError>
    ensures says { IfOk result (λ s. says_of s
        ≡ table.history_says request.now.access request.now.output content.now) }
    ensures few { IfOk result (λ s. vec_len s.broadcasts ≤ 3) }
{
    if let HistoryAccess::Search = request.access {
        return only(alloc, no_search_reply(alloc)?);
    }
    match content {
        Content::History(inputs) => only(alloc, history_reply(alloc, request.output, inputs)?),
        _ => status_alone(alloc),
    }
}

/// The open comms; of another target none.
fn comms_drafts(
    alloc: Global,
    target: Option<&str>,
    content: &Content,
) -> Result<Drafts, AllocError>
    ensures says { IfOk result (λ s. says_of s
        ≡ table.comms_say (option_map (λ t. t.now) target.entry) content.now) }
    ensures few { IfOk result (λ s. vec_len s.broadcasts ≤ 3) }
{
    if !asks_target(target) {
        return only(alloc, comm_info_reply(alloc, target, &[])?);
    }
    match content {
        Content::Comms(ids) => only(alloc, comm_info_reply(alloc, target, ids)?),
        _ => status_alone(alloc),
    }
}

/// An open is answered by a close where it is for another target, and where its comm is not open after it.
fn opened_drafts(alloc: Global, request: &CommOpen, is_open: bool) -> Result<Drafts, AllocError>
    ensures says { IfOk result (λ s. says_of s ≡ table.opened_says request.now is_open) }
    ensures few { IfOk result (λ s. vec_len s.broadcasts ≤ 3) }
{
    if is_target(&request.target_name) && is_open {
        status_alone(alloc)
    } else {
        tells(alloc, comm_close(alloc, &request.comm_id)?)
    }
}

/// What is said of an open, by whether its comm is told open after it.
fn comm_open_drafts(
    alloc: Global,
    request: &CommOpen,
    content: &Content,
) -> Result<Drafts, AllocError>
    ensures says { IfOk result (λ s. says_of s ≡ table.comm_open_says request.now content.now) }
    ensures few { IfOk result (λ s. vec_len s.broadcasts ≤ 3) }
{
    match content {
        Content::IsOpen(is_open) => opened_drafts(alloc, request, *is_open),
        _ => status_alone(alloc),
    }
}

/// The state, where it is asked for on a comm.
fn comm_drafts(
    alloc: Global,
    request: &CommMessage,
    content: &Content,
) -> Result<Drafts, AllocError>
    ensures says { IfOk result (λ s. says_of s
        ≡ table.comm_says request.now.ask (string_bytes request.now.comm_id) content.now) }
    ensures few { IfOk result (λ s. vec_len s.broadcasts ≤ 3) }
{
    match request.ask {
        CommAsk::State => match content {
            Content::State(state) => tells(alloc, state_msg(alloc, &request.comm_id, state)?),
            _ => status_alone(alloc),
        },
        _ => status_alone(alloc),
    }
}

/// What is said at once.
pub(crate) fn ask_drafts(
    alloc: Global,
    request: &RequestContent,
    content: &Content,
) -> Result<Drafts, AllocError>
    ensures says { IfOk result (λ s. says_of s ≡ table.ask_says request.now content.now) }
    ensures few { IfOk result (λ s. vec_len s.broadcasts ≤ 3) }
{
    match request {
        RequestContent::KernelInfo => only(alloc, kernel_info_reply(alloc)?),
        RequestContent::Execute(_) => status_alone(alloc),
        RequestContent::Complete(_) => completion_drafts(alloc, content),
        RequestContent::Inspect(_) => inspection_drafts(alloc, content),
        RequestContent::IsComplete(_) => completeness_drafts(alloc, content),
        RequestContent::History(request) => history_drafts(alloc, request, content),
        RequestContent::CommInfo(request) => {
            comms_drafts(alloc, request.target_name.as_deref(), content)
        }
        RequestContent::Interrupt => only(alloc, interrupt_reply(alloc)?),
        RequestContent::Shutdown(request) => only(alloc, shutdown_reply(alloc, request.restart)?),
        RequestContent::CommOpen(request) => comm_open_drafts(alloc, request, content),
        RequestContent::CommMessage(request) => comm_drafts(alloc, request, content),
        RequestContent::CommClose(_) => status_alone(alloc),
    }
}
