//! What a request has the desk do.
ghost use Rattle.std.specs.Prelude.{◌≡◌, ◌++◌, ◌∷◌, [], Bool, IfOk, OnOk, OnErr, Result, option_map, string_bytes};
ghost use Rattle.std.specs.Str.{bytes_eq};
ghost use Rattle.jupyter_msg.specs.Requests.{expressions_of};
ghost use Rattle.kernel_reply.specs.Request.{request_of, RunCell};
ghost use Rattle.kernel_reply.specs.post.PostFault.{PostFault};
ghost use Rattle.kernel_reply.specs.done.Done.{Done};
ghost use Rattle.kernel_reply.specs.answer.Answer.{Answer};
ghost use Rattle.kernel_reply.specs.answer.HallFault.{HallFault};
ghost use Rattle.kernel_session.specs.Question.{question_of, wishes_of, Complete, Inspect, IsComplete};
ghost use Rattle.kernel_reply.specs.Comms.{target as undo_target};
ghost use Rattle.kernel_session.specs.Call.{Rang, Shut};
ghost use Rattle.kernel_session.specs.Talk.{Heard, IsHeld, ask as ask_talk, post as post_talk, answered as answered_by, says_open as says_open_of};
ghost use Rattle.kernel_session.specs.Talk.{history as history_talk, list_comms as list_talk, open_then_ask as open_then_ask_talk};
ghost use Rattle.kernel_session.specs.Talk.{open_comm as open_talk, close_comm as close_talk};
ghost use Rattle.kernel_session.specs.Parts.{text_of, HasHandedOn};
ghost use Rattle.kernel_session.specs.Talk.{follow as follow_talk, if_open, talk, only, no_answer as no_answer_is};

use crate::desk::Desk;
use jupyter_msg::{
    CommAsk, CommOpen, CompleteRequest, ExecuteRequest, HistoryAccess, HistoryRequest,
    InspectRequest, IsCompleteRequest, RequestContent, UserExpression,
};
use kernel_reply::{
    Answer, Ask, COMM_TARGET, CellText, CommChange, Content, Done, HallFault, HistoryAsk, Job,
    PostFault, Wish, asks_target,
};
use std::alloc::{AllocError, Global};
use std::mem;

/// What a request is answered from.
#[derive(Drop)]
pub enum DeskReply {
    /// It became a job, which ended so.
    Ended(Done),
    /// It became a job that was refused as it was posted, for this reason and in this state.
    Unposted(PostFault, Answer),
    /// It was answered at once.
    Answered(Answer),
}

/// What a request came to at the desk.
#[derive(Drop)]
pub(crate) struct Consulted {
    /// What the request is answered from; nothing where the desk found no memory.
    pub(crate) told: Option<DeskReply>,
    /// The text of the cell, if it was one: its job shares it.
    pub(crate) code: Option<CellText>,
}

impl Consulted {
    ghost use Rattle.kernel_session.specs.Parts.{text_of};

    /// The text of the cell; empty where it was none.
    pub(crate) fn code(&self) -> &str
        ensures { result.now ≡ text_of self.now.code }
    {
        match &self.code {
            Some(code) => code.as_str(),
            None => "",
        }
    }
}

/// An answer that nothing is read of.
fn no_answer() -> Answer
    ensures { result ≡ no_answer_is }
{
    Answer {
        seen: 0,
        content: Content::Inspection(None),
    }
}

/// What an answer of the desk tells; nothing where it found no memory.
fn answered(answer: Result<Answer, HallFault>) -> Option<DeskReply>
    ensures { result ≡ answered_by answer }
{
    match answer {
        Ok(answer) => Some(DeskReply::Answered(answer)),
        Err(_) => None,
    }
}

/// Asks the desk one question.
fn ask<D: Desk>(desk: &mut D, question: Ask<'_>) -> Option<DeskReply>
    ensures { (a : Result Answer HallFault) × IsHeld D.leads desk.old (ask_talk (question_of question.entry) a) result desk.new }
{
    answered(desk.ask(question))
}

/// Posts a job, and asks for the state where it is refused.
fn post<D: Desk>(desk: &mut D, job: Job, wishes: Vec<Wish>) -> Option<DeskReply>
    ensures { (j : Result Done PostFault) × (a : Result Answer HallFault)
        × IsHeld D.leads desk.old (post_talk (request_of job) (wishes_of wishes.items) j a) result desk.new }
{
    match desk.job(job, wishes) {
        Ok(done) => Some(DeskReply::Ended(done)),
        Err(fault) => match desk.ask(Ask::State) {
            Ok(answer) => Some(DeskReply::Unposted(fault, answer)),
            Err(_) => None,
        },
    }
}

/// Adds one user expression of a request. Its text is read here, before the desk is called.
fn push_wish(
    alloc: Global,
    wishes: &mut Vec<Wish>,
    expression: UserExpression,
) -> Result<(), AllocError>
    ensures { OnOk result (wishes_of wishes.new.items
        ≡ wishes_of wishes.old.items ++ expressions_of (expression ∷ [])) }
{
    let UserExpression { name, expression } = expression;
    wishes.push(Wish::new(alloc, name, expression))?;
    Ok(())
}

/// The user expressions of a request, whose texts are moved.
fn wishes(alloc: Global, expressions: Vec<UserExpression>) -> Result<Vec<Wish>, AllocError>
    ensures { IfOk result (λ v. wishes_of v.items ≡ expressions_of expressions.items) }
{
    let mut wishes = Vec::with_capacity(alloc, expressions.len())?;
    for expression in expressions {
        push_wish(alloc, &mut wishes, expression)?;
    }
    Ok(wishes)
}

/// Posts the cell of a request, and answers its text too, which the job shares. Text and user expressions are moved out of the request.
fn execute<D: Desk>(
    alloc: Global,
    desk: &mut D,
    request: &mut ExecuteRequest,
) -> Result<Consulted, AllocError>
    ensures ok { IfOk result (λ c. (j : Result Done PostFault) × (a : Result Answer HallFault)
        × IsHeld D.leads desk.old (post_talk (RunCell (string_bytes request.old.code) request.old.silent request.old.store_history)
        (expressions_of request.old.user_expressions.items) j a) c.told desk.new) }
    ensures code { IfOk result (λ c. text_of c.code ≡ string_bytes request.old.code) }
    ensures silent { request.new.silent ≡ request.old.silent }
    ensures err { OnErr result (desk.new ≡ desk.old) }
{
    let expressions = mem::replace(&mut request.user_expressions, Vec::new(alloc));
    let wishes = wishes(alloc, expressions)?;
    let code = CellText::new(alloc, mem::replace(&mut request.code, String::new(alloc)))?;
    let job = Job::Cell {
        code: code.clone()?,
        silent: request.silent,
        store: request.store_history,
    };
    Ok(Consulted {
        told: post(desk, job, wishes),
        code: Some(code),
    })
}

/// Asks for the history, unless it is to be searched.
fn history<D: Desk>(desk: &mut D, request: &HistoryRequest) -> Option<DeskReply>
    ensures { (a : Result Answer HallFault) × IsHeld D.leads desk.old (history_talk request.now request.now.access a) result desk.new }
{
    match request.access {
        HistoryAccess::Range => {
            let range = HistoryAsk::Range {
                session: request.session,
                start: request.start,
                stop: request.stop,
            };
            ask(desk, Ask::History(range))
        }
        HistoryAccess::Tail => ask(desk, Ask::History(HistoryAsk::Tail(request.n))),
        HistoryAccess::Search => Some(DeskReply::Answered(no_answer())),
    }
}

/// Asks for the open comms, unless they are to be those of another target, for which none is open.
fn list_comms<D: Desk>(desk: &mut D, target: Option<&str>) -> Option<DeskReply>
    ensures { (a : Result Answer HallFault) × IsHeld D.leads desk.old (list_talk (option_map (λ t. t.now) target.entry) a) result desk.new }
{
    if asks_target(target) {
        ask(desk, Ask::Comms)
    } else {
        Some(DeskReply::Answered(no_answer()))
    }
}

/// Opens a comm, and asks whether it is open after it. The desk keeps its id, so it is given one of its own.
fn open_then_ask<D: Desk>(desk: &mut D, id: String, same: &str) -> Option<DeskReply>
    requires { same.now ≡ string_bytes id }
    ensures { (b : Result Bool HallFault) × (a : Result Answer HallFault)
        × IsHeld D.leads desk.old (open_then_ask_talk (string_bytes id) b a) result desk.new }
{
    match desk.comm(CommChange::Open(id)) {
        Ok(_) => ask(desk, Ask::IsOpen { id: same }),
        Err(_) => None,
    }
}

/// Whether comms are opened for this target.
fn is_undo_target(name: &str) -> bool
    ensures { result ≡ bytes_eq name.now undo_target }
{
    name == COMM_TARGET
}

/// Opens a comm, if it is for the one target, and asks whether it is open after it.
fn open_comm<D: Desk>(desk: &mut D, request: &CommOpen) -> Result<Option<DeskReply>, AllocError>
    ensures ok { IfOk result (λ told. (h : Heard)
        × IsHeld D.leads desk.old (open_talk (string_bytes request.now.target_name) (string_bytes request.now.comm_id) h) told desk.new) }
    ensures err { OnErr result (desk.new ≡ desk.old) }
{
    let id = request.comm_id.as_str();
    if is_undo_target(request.target_name.as_str()) {
        let kept = request.comm_id.clone()?;
        return Ok(open_then_ask(desk, kept, id));
    }
    Ok(ask(desk, Ask::IsOpen { id }))
}

/// Closes a comm.
fn close_comm<D: Desk>(desk: &mut D, id: &str) -> Option<DeskReply>
    ensures { (b : Result Bool HallFault) × IsHeld D.leads desk.old (close_talk id.now b) result desk.new }
{
    match desk.comm(CommChange::Close(id)) {
        Ok(_) => Some(DeskReply::Answered(no_answer())),
        Err(_) => None,
    }
}

/// Whether the desk has told the comm as open.
fn says_open(content: &Content) -> bool
    ensures { result ≡ says_open_of content.now }
{
    match content {
        Content::IsOpen(is_open) => *is_open,
        Content::Completion(_)
        | Content::Inspection(_)
        | Content::Completeness(_)
        | Content::History(_)
        | Content::Comms(_)
        | Content::State(_) => false,
    }
}

/// Does what is asked on an open comm.
fn follow<D: Desk>(alloc: Global, desk: &mut D, asked: CommAsk) -> Option<DeskReply>
    ensures { (h : Heard) × IsHeld D.leads desk.old (follow_talk asked h) result desk.new }
{
    match asked {
        CommAsk::Undo(k) => post(desk, Job::Undo(k), Vec::new(alloc)),
        CommAsk::Redo(k) => post(desk, Job::Redo(k), Vec::new(alloc)),
        CommAsk::Goto(n) => post(desk, Job::Goto(n), Vec::new(alloc)),
        CommAsk::State => ask(desk, Ask::State),
        CommAsk::Other => Some(DeskReply::Answered(no_answer())),
    }
}

/// Does what a message on a comm asks, if the comm of this id is open.
fn on_comm<D: Desk>(alloc: Global, desk: &mut D, id: &str, asked: CommAsk) -> Option<DeskReply>
    ensures { (h : Heard) × IsHeld D.leads desk.old (if_open id.now h.comm (follow_talk asked h)) result desk.new }
{
    let open = match desk.ask(Ask::IsOpen { id }) {
        Ok(answer) => answer,
        Err(_) => return None,
    };
    if says_open(&open.content) {
        follow(alloc, desk, asked)
    } else {
        Some(DeskReply::Answered(open))
    }
}

/// Interrupts the open job.
fn interrupt<D: Desk>(desk: &mut D) -> Option<DeskReply>
    ensures { IsHeld D.leads desk.old (only (Rang ∷ [])) result desk.new }
{
    desk.ring();
    Some(DeskReply::Answered(no_answer()))
}

/// Shuts the desk, and interrupts the open job.
fn shut<D: Desk>(desk: &mut D) -> Option<DeskReply>
    ensures { IsHeld D.leads desk.old (only (Shut ∷ Rang ∷ [])) result desk.new }
{
    desk.shut();
    desk.ring();
    Some(DeskReply::Answered(no_answer()))
}

/// Asks for the completion of a name.
fn complete<D: Desk>(desk: &mut D, request: &CompleteRequest) -> Option<DeskReply>
    ensures { (a : Result Answer HallFault)
        × IsHeld D.leads desk.old (ask_talk (Complete (string_bytes request.now.code) request.now.cursor) a) result desk.new }
{
    let code = request.code.as_str();
    let cursor = request.cursor;
    ask(desk, Ask::Complete { code, cursor })
}

/// Asks what is known of a name.
fn inspect<D: Desk>(desk: &mut D, request: &InspectRequest) -> Option<DeskReply>
    ensures { (a : Result Answer HallFault)
        × IsHeld D.leads desk.old (ask_talk (Inspect (string_bytes request.now.code) request.now.cursor) a) result desk.new }
{
    let code = request.code.as_str();
    let cursor = request.cursor;
    ask(desk, Ask::Inspect { code, cursor })
}

/// Asks whether code can be executed as it stands.
fn judge<D: Desk>(desk: &mut D, request: &IsCompleteRequest) -> Option<DeskReply>
    ensures { (a : Result Answer HallFault) × IsHeld D.leads desk.old (ask_talk (IsComplete (string_bytes request.now.code)) a) result desk.new }
{
    let code = request.code.as_str();
    ask(desk, Ask::IsComplete { code })
}

/// Nothing of the request was handed on.
fn kept(told: Option<DeskReply>) -> Consulted
    ensures told { result.told ≡ told }
    ensures code { text_of result.code ≡ [] }
{
    Consulted { told, code: None }
}

/// Has the desk do what a request asks. The text of a cell and its user expressions are moved out of the request. An `Err` tells that there was
/// no memory here; then the desk was not called.
pub(crate) fn consult<D: Desk>(
    alloc: Global,
    desk: &mut D,
    content: &mut RequestContent,
) -> Result<Consulted, AllocError>
    ensures ok { IfOk result (λ c. (h : Heard) × IsHeld D.leads desk.old (talk content.old h) c.told desk.new) }
    ensures handed { IfOk result (λ c. HasHandedOn content.old content.new (text_of c.code)) }
    ensures err { OnErr result (desk.new ≡ desk.old) }
{
    match content {
        RequestContent::KernelInfo => Ok(kept(Some(DeskReply::Answered(no_answer())))),
        RequestContent::Execute(request) => execute(alloc, desk, request),
        RequestContent::Complete(request) => Ok(kept(complete(desk, request))),
        RequestContent::Inspect(request) => Ok(kept(inspect(desk, request))),
        RequestContent::IsComplete(request) => Ok(kept(judge(desk, request))),
        RequestContent::History(request) => Ok(kept(history(desk, request))),
        RequestContent::CommInfo(request) => Ok(kept(list_comms(
            desk,
            request.target_name.as_deref(),
        ))),
        RequestContent::Interrupt => Ok(kept(interrupt(desk))),
        RequestContent::Shutdown(_) => Ok(kept(shut(desk))),
        RequestContent::CommOpen(request) => Ok(kept(open_comm(desk, request)?)),
        RequestContent::CommMessage(request) => Ok(kept(on_comm(
            alloc,
            desk,
            request.comm_id.as_str(),
            request.ask,
        ))),
        RequestContent::CommClose(request) => {
            Ok(kept(close_comm(desk, request.comm_id.as_str())))
        }
    }
}
