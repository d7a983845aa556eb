//! The answers to requests (Jupyter messaging page, version 5.4). What they say is given by the tables of specs/Answers.antt.
ghost use Rattle.std.specs.Prelude.{◌≡◌, ◌≤◌, ◌-◌, ◌+◌, ◌^◌, IfOk, IfErr, OnOk, OnErr};
ghost use Rattle.kernel_message.specs.Message.{asker_of, broadcast_message};
ghost use Rattle.kernel_message.specs.Sent.{sent_of, sent, next_after};
ghost use Rattle.kernel_reply.specs.Status.{busy as busy_said};
ghost use Rattle.kernel_reply.specs.Answers.{job_says_with, ask_says, refusal_says_with};

use crate::status::busy;
use crate::tables::{ask_drafts, job_drafts, refusal_drafts};
use jupyter_msg::{Message, MsgFault, Request};
use kernel_ask::{Answer, Done, PostFault};
use kernel_message::{Outgoing, Publication, Stamp, broadcast_of, send};
use std::alloc::Global;

/// The broadcast with which a request is taken: the status busy. Its parent header is the header of the message, which is that of the
/// request that is read of it, so it is that of the answer too.
///
/// # Errors
///
/// `Memory`; the stamp is then as before.
pub fn opening(alloc: Global, message: &Message, stamp: &mut Stamp) -> Result<Publication, MsgFault>
    requires { stamp.old.next ≤ 2 ^ 64 - 16 }
    ensures sent { IfOk result (λ b. b
        ≡ broadcast_message message.now.header.items stamp.old stamp.old.next busy_said) }
    ensures next { OnOk result (stamp.new ≡ record stamp.old { next = stamp.old.next + 1 }) }
    ensures err { IfErr result (λ e. e ≡ MsgFault.Memory) }
    ensures unchanged { OnErr result (stamp.new ≡ stamp.old) }
{
    opening_by_header(alloc, &message.header, stamp)
}

/// The broadcast with which a request is taken, as [`opening`] has it, by the header of the request alone: so a request needs no message
/// beside it.
///
/// # Errors
///
/// `Memory`; the stamp is then as before.
pub fn opening_by_header(
    alloc: Global,
    header: &[u8],
    stamp: &mut Stamp,
) -> Result<Publication, MsgFault>
    requires { stamp.old.next ≤ 2 ^ 64 - 16 }
    ensures sent { IfOk result (λ b. b ≡ broadcast_message header.now stamp.old stamp.old.next busy_said) }
    ensures next { OnOk result (stamp.new ≡ record stamp.old { next = stamp.old.next + 1 }) }
    ensures err { IfErr result (λ e. e ≡ MsgFault.Memory) }
    ensures unchanged { OnErr result (stamp.new ≡ stamp.old) }
{
    let busy = busy(alloc)?;
    let out = broadcast_of(alloc, header, stamp, &busy)?;
    stamp.next += 1;
    Ok(out)
}

/// The messages in answer to a request that became a job, which ended so: an `execute_request`, or an undo, a redo or a goto on a
/// comm. Where the outcome is that of another kind of job they are the status alone. The code is the text of the cell, which its request may have
/// handed on; of another request nothing is read of it.
///
/// # Errors
///
/// `Memory`; the stamp is then as before.
pub fn answer(
    alloc: Global,
    request: &Request,
    code: &str,
    done: &Done,
    stamp: &mut Stamp,
) -> Result<Outgoing, MsgFault>
    requires { stamp.old.next ≤ 2 ^ 64 - 15 }
    ensures sent { IfOk result (λ out. sent_of out
        ≡ sent (asker_of request.now) stamp.old (job_says_with request.now.content code.now done.now)) }
    ensures next { OnOk result (stamp.new
        ≡ record stamp.old { next = next_after stamp.old (job_says_with request.now.content code.now done.now) }) }
    ensures err { IfErr result (λ e. e ≡ MsgFault.Memory) }
    ensures unchanged { OnErr result (stamp.new ≡ stamp.old) }
{
    let drafts = job_drafts(alloc, &request.content, code, done)?;
    Ok(send(alloc, request, &drafts, stamp)?)
}

/// The messages in answer to a request that is answered at once. The answer to a `comm_open` is that of the comms as they are after it:
/// one that is not open then, for as many are open as may be, is told as closed, and so is each open for another target, also under the
/// id of a comm that stays open. Where the answer is to another question they are the status alone.
///
/// # Errors
///
/// `Memory`; the stamp is then as before.
pub fn answer_ask(
    alloc: Global,
    request: &Request,
    answer: &Answer,
    stamp: &mut Stamp,
) -> Result<Outgoing, MsgFault>
    requires { stamp.old.next ≤ 2 ^ 64 - 15 }
    ensures sent { IfOk result (λ out. sent_of out
        ≡ sent (asker_of request.now) stamp.old (ask_says request.now.content answer.now.content)) }
    ensures next { OnOk result (stamp.new
        ≡ record stamp.old { next = next_after stamp.old (ask_says request.now.content answer.now.content) }) }
    ensures err { IfErr result (λ e. e ≡ MsgFault.Memory) }
    ensures unchanged { OnErr result (stamp.new ≡ stamp.old) }
{
    let drafts = ask_drafts(alloc, &request.content, &answer.content)?;
    Ok(send(alloc, request, &drafts, stamp)?)
}

/// The messages in answer to a request whose job was refused as it was posted. The answer is that of the state, of which position and
/// counter are told; another brings the status alone. The code is as for [`answer`].
///
/// # Errors
///
/// `Memory`; the stamp is then as before.
pub fn refuse(
    alloc: Global,
    request: &Request,
    code: &str,
    fault: &PostFault,
    answer: &Answer,
    stamp: &mut Stamp,
) -> Result<Outgoing, MsgFault>
    requires { stamp.old.next ≤ 2 ^ 64 - 15 }
    ensures sent { IfOk result (λ out. sent_of out
        ≡ sent (asker_of request.now) stamp.old (refusal_says_with request.now.content code.now fault.now answer.now.content)) }
    ensures next { OnOk result (stamp.new
        ≡ record stamp.old { next = next_after stamp.old (refusal_says_with request.now.content code.now fault.now answer.now.content) }) }
    ensures err { IfErr result (λ e. e ≡ MsgFault.Memory) }
    ensures unchanged { OnErr result (stamp.new ≡ stamp.old) }
{
    let drafts = refusal_drafts(alloc, &request.content, code, *fault, &answer.content)?;
    Ok(send(alloc, request, &drafts, stamp)?)
}
