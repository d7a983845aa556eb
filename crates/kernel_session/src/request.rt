//! One request, from the status busy to the status idle.
ghost use Rattle.std.specs.Prelude.{◌≡◌, ◌≤◌, ◌-◌, ◌^◌, ◌⊎◌, List, [], ◌∷◌, ◌++◌, map, option_map, Some, IfOk, IfErr, OnOk, OnErr};
ghost use Rattle.std.specs.Io.KnownBytes.{Appends};
ghost use Rattle.jupyter_msg.specs.Octets.{octets, octets_of};
ghost use Rattle.jupyter_msg.specs.Message.{frames_of};
ghost use Rattle.kernel_message.specs.Message.{asker_of};
ghost use Rattle.kernel_message.specs.Sent.{sent, sent_of, next_after};
ghost use Rattle.kernel_session.specs.Call.{Leads, Published};
ghost use Rattle.exact_write.specs.Sent.{SentSome};
ghost use Rattle.kernel_session.specs.Action.{Action, Acts, IsStartOf};
ghost use Rattle.kernel_session.specs.Talk.{says_with};
ghost use Rattle.kernel_session.specs.Session.{State, IsServed, answered, reply_octets, ends_with};
ghost use Rattle.kernel_session.specs.Parts.{LedPart, IsBegun, IsDatedAlone, IsTakenUp, IsTakenUpPart, ActedPart, HasHandedOn, text_of};
ghost use Rattle.kernel_session.specs.Ends.{IsMidway};

use crate::desk::Desk;
use crate::fault::ServeFault;
use crate::flow::Flow;
use crate::send::send_message;
use crate::sendable::sendable;
use crate::talk::{Consulted, DeskReply, consult};
use jupyter_msg::{Key, Message, Request, RequestContent};
use kernel_board::Broadcast;
use kernel_message::{Outgoing, Publication, Stamp};
use kernel_reply::{answer, answer_ask, opening_by_header, refuse};
use std::alloc::Global;
use std::io::Write;

/// Signs a broadcast and publishes it. An `Err` tells that there was no memory; then the desk was not called.
fn publish<D: Desk>(
    alloc: Global,
    desk: &mut D,
    key: &Key,
    publication: Publication,
) -> Result<(), ServeFault>
    ensures ok { OnOk result (Leads D.leads desk.old (Published (frames_of key.now publication) ∷ []) desk.new) }
    ensures err { OnErr result (desk.new ≡ desk.old) }
    ensures midway { IfErr result IsMidway }
{
    let Ok(frames) = publication.into_frames(alloc, key) else {
        return Err(ServeFault::Memory);
    };
    let Ok(broadcast) = Broadcast::new(alloc, frames) else {
        return Err(ServeFault::Memory);
    };
    desk.publish(broadcast);
    Ok(())
}

/// Publishes a broadcast, and wakes who waits for it.
fn publish_awake<D: Desk>(
    alloc: Global,
    desk: &mut D,
    key: &Key,
    publication: Publication,
) -> Result<(), ServeFault>
    ensures ok { OnOk result (Leads D.leads desk.old (Published (frames_of key.now publication) ∷ []) desk.new) }
    ensures err { OnErr result (desk.new ≡ desk.old) }
    ensures midway { IfErr result IsMidway }
{
    let published = publish(alloc, desk, key, publication);
    desk.wake();
    published
}

/// Publishes each in turn.
fn publish_each<D: Desk>(
    alloc: Global,
    desk: &mut D,
    key: &Key,
    broadcasts: Vec<Publication>,
) -> Result<(), ServeFault>
    ensures ok { OnOk result (Leads D.leads desk.old (map (λ b. Published (frames_of key.now b)) broadcasts.items) desk.new) }
    ensures err { OnErr result (LedPart D.leads desk.old (map (λ b. Published (frames_of key.now b)) broadcasts.items) desk.new) }
    ensures midway { IfErr result IsMidway }
{
    for broadcast in broadcasts {
        publish(alloc, desk, key, broadcast)?;
    }
    Ok(())
}

/// Publishes each in turn, and wakes who waits for them once.
fn publish_all<D: Desk>(
    alloc: Global,
    desk: &mut D,
    key: &Key,
    broadcasts: Vec<Publication>,
) -> Result<(), ServeFault>
    ensures ok { OnOk result (Leads D.leads desk.old (map (λ b. Published (frames_of key.now b)) broadcasts.items) desk.new) }
    ensures err { OnErr result (LedPart D.leads desk.old (map (λ b. Published (frames_of key.now b)) broadcasts.items) desk.new) }
    ensures midway { IfErr result IsMidway }
{
    let published = publish_each(alloc, desk, key, broadcasts);
    desk.wake();
    published
}

/// Sets the date, and publishes the status busy.
fn begin<D: Desk>(
    alloc: Global,
    key: &Key,
    desk: &mut D,
    stamp: &mut Stamp,
    request: &Request,
) -> Result<(), ServeFault>
    requires { stamp.old.next ≤ 2 ^ 64 - 16 }
    ensures ok { OnOk result (IsBegun D.leads desk.old desk.new key.now request.now.header.items stamp.old stamp.new) }
    ensures err { OnErr result (IsDatedAlone D.leads desk.old desk.new stamp.old) }
    ensures midway { IfErr result IsMidway }
{
    desk.date(stamp);
    let Ok(busy) = opening_by_header(alloc, &request.header, stamp) else {
        return Err(ServeFault::Memory);
    };
    publish_awake(alloc, desk, key, busy)
}

/// Sets the date, publishes the status busy and has the desk do what the request asks. The text of a cell and its user expressions are moved out of
/// the request.
fn take_up<D: Desk>(
    alloc: Global,
    key: &Key,
    desk: &mut D,
    stamp: &mut Stamp,
    request: &mut Request,
) -> Result<Consulted, ServeFault>
    requires { stamp.old.next ≤ 2 ^ 64 - 16 }
    ensures ok { IfOk result (λ c. IsTakenUp D.leads desk.old desk.new key.now request.old stamp.old stamp.new c.told) }
    ensures handed { IfOk result (λ c. HasHandedOn request.old.content request.new.content (text_of c.code)) }
    ensures asker { asker_of request.new ≡ asker_of request.old }
    ensures err { OnErr result (IsTakenUpPart D.leads desk.old desk.new key.now request.old stamp.old) }
    ensures midway { IfErr result IsMidway }
{
    begin(alloc, key, desk, stamp, request)?;
    match consult(alloc, desk, &mut request.content) {
        Ok(consulted) => Ok(consulted),
        Err(_) => Err(ServeFault::Memory),
    }
}

/// The messages in answer to a request that has handed the text of its cell on.
fn outgoing(
    alloc: Global,
    stamp: &mut Stamp,
    request: &Request,
    code: &str,
    told: &DeskReply,
) -> Result<Outgoing, ServeFault>
    requires { stamp.old.next ≤ 2 ^ 64 - 15 }
    ensures sent { IfOk result (λ out. sent_of out
        ≡ sent (asker_of request.now) stamp.old (says_with request.now.content code.now told.now)) }
    ensures next { OnOk result (stamp.new
        ≡ record stamp.old { next = next_after stamp.old (says_with request.now.content code.now told.now) }) }
    ensures midway { IfErr result IsMidway }
{
    let out = match told {
        DeskReply::Ended(done) => answer(alloc, request, code, done, stamp),
        DeskReply::Unposted(fault, state) => refuse(alloc, request, code, fault, state, stamp),
        DeskReply::Answered(told) => answer_ask(alloc, request, told, stamp),
    };
    match out {
        Ok(out) => Ok(out),
        Err(_) => Err(ServeFault::Memory),
    }
}

/// Seals a reply and writes it, if there is one; in the place of one that no reader takes it writes one that tells so.
fn send_reply<W: Write>(
    alloc: Global,
    key: &Key,
    writer: &mut W,
    reply: Option<Message>,
) -> Result<(), ServeFault>
    ensures ok { OnOk result (Appends (W.contents writer.old) (W.contents writer.new) (reply_octets key.now (option_map octets_of reply))) }
    ensures err { OnErr result (SentSome (W.contents writer.old) (W.contents writer.new) (reply_octets key.now (option_map octets_of reply))) }
    ensures midway { IfErr result IsMidway }
{
    let Some(reply) = reply else {
        return Ok(());
    };
    let reply = match sendable(alloc, reply) {
        Ok(reply) => reply,
        Err(fault) => return Err(fault),
    };
    let Ok(frames) = reply.into_frames(alloc, key) else {
        return Err(ServeFault::Memory);
    };
    send_message(alloc, writer, &frames)
}

/// Answers a request that has handed the text of its cell on: publishes the broadcasts, the status idle last, and then writes the reply.
fn finish<W: Write, D: Desk>(
    alloc: Global,
    key: &Key,
    writer: &mut W,
    desk: &mut D,
    stamp: &mut Stamp,
    request: &Request,
    code: &str,
    told: &DeskReply,
) -> Result<(), ServeFault>
    requires { stamp.old.next ≤ 2 ^ 64 - 15 }
    ensures ok { OnOk result (Acts W.contents D.leads writer.old writer.new desk.old desk.new
        (answered key.now request.now stamp.old (says_with request.now.content code.now told.now))) }
    ensures stamp { OnOk result (stamp.new
        ≡ record stamp.old { next = next_after stamp.old (says_with request.now.content code.now told.now) }) }
    ensures err { OnErr result (ActedPart W.contents D.leads writer.old writer.new desk.old desk.new
        (answered key.now request.now stamp.old (says_with request.now.content code.now told.now))) }
    ensures midway { IfErr result IsMidway }
{
    let out = outgoing(alloc, stamp, request, code, told)?;
    publish_all(alloc, desk, key, out.broadcasts)?;
    send_reply(alloc, key, writer, out.reply)
}

/// How a session goes on once the request is answered.
fn flow_after(content: &RequestContent) -> Flow
    ensures { result ≡ ends_with content.now }
{
    match content {
        RequestContent::Shutdown(_) => Flow::Closed,
        RequestContent::KernelInfo
        | RequestContent::Execute(_)
        | RequestContent::Complete(_)
        | RequestContent::Inspect(_)
        | RequestContent::IsComplete(_)
        | RequestContent::History(_)
        | RequestContent::CommInfo(_)
        | RequestContent::Interrupt
        | RequestContent::CommOpen(_)
        | RequestContent::CommMessage(_)
        | RequestContent::CommClose(_) => Flow::Going,
    }
}

/// Serves a request for which a number is left. The text of a cell and its user expressions are moved out of it.
pub(crate) fn take_request<W: Write, D: Desk>(
    alloc: Global,
    key: &Key,
    writer: &mut W,
    desk: &mut D,
    stamp: &mut Stamp,
    request: &mut Request,
) -> Result<Flow, ServeFault>
    requires { stamp.old.next ≤ 2 ^ 64 - 16 }
    ensures ok { IfOk result (λ flow. (actions : List Action)
        × Acts W.contents D.leads writer.old writer.new desk.old desk.new actions
        × IsServed key.now request.old stamp.old actions (record { stamp = stamp.new; flow = flow })) }
    ensures err { OnErr result ((actions : List Action) × (new : State) × IsServed key.now request.old stamp.old actions new
        × ActedPart W.contents D.leads writer.old writer.new desk.old desk.new actions) }
    ensures midway { IfErr result IsMidway }
{
    let consulted = take_up(alloc, key, desk, stamp, request)?;
    let told = match &consulted.told {
        Some(told) => told,
        None => return Ok(Flow::OutOfMemory),
    };
    let code = consulted.code();
    finish(alloc, key, writer, desk, stamp, request, code, told)?;
    Ok(flow_after(&request.content))
}
