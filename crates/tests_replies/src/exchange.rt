//! A request and what goes out in answer to it.
ghost use Rattle.jupyter_msg.specs.Opened.{IsRead};

use crate::report::{Report, told_of};
use jupyter_msg::{Key, Message, MsgFault, Opened, Request, RequestContent, open, seal};
use kernel_message::{Outgoing, Stamp};
use kernel_reply::{Comms, Kernel, answer, answer_ask, opening, refuse};
use std::alloc::{AllocError, Global};
use std::sync::ledger::Ledger;
use tests_rows::{Sheet, frames_shown};

/// How many messages go out at most on a kernel.
const MESSAGES: u64 = 1000;

/// Takes the frames of a request, and tells all messages that go out: the status busy, the reply and the broadcasts. How it is told what
/// came of it is said by `report`. Where a call finds no memory, that alone is told.
pub(crate) fn exchange<L: Ledger>(
    kernel: &mut Kernel<L>,
    comms: &mut Comms,
    stamp: &mut Stamp,
    how: &str,
    key: &Key,
    frames: Vec<Vec<u8>>,
    sheet: &mut Sheet,
) {
    match open(sheet.alloc(), frames, key) {
        Ok(opened) => exchange_opened(kernel, comms, stamp, how, key, &opened, sheet),
        Err(fault) => tell_fault(fault, sheet),
    }
}

/// Tells why a request is refused.
pub(crate) fn tell_fault(fault: MsgFault, sheet: &mut Sheet) {
    sheet.show(&fault);
}

/// Tells the number of the next message, and all messages that go out in answer to a message.
fn exchange_opened<L: Ledger>(
    kernel: &mut Kernel<L>,
    comms: &mut Comms,
    stamp: &mut Stamp,
    how: &str,
    key: &Key,
    opened: &Opened,
    sheet: &mut Sheet,
)
    requires { IsRead opened.now }
{
    let mut messages = Sheet::new(sheet.alloc());
    let came = answer_opened(kernel, comms, stamp, how, key, opened, &mut messages);
    tell_exchange(came, stamp.next, messages.finish(), sheet);
}

/// Tells the number of the next message and the messages that went out, or why the request is refused.
fn tell_exchange(
    came: Result<(), MsgFault>,
    next: u64,
    messages: Result<String, AllocError>,
    sheet: &mut Sheet,
) {
    match messages {
        Ok(messages) => tell_sent(came, next, &messages, sheet),
        Err(_) => tell_fault(MsgFault::Memory, sheet),
    }
}

/// Tells the number of the next message and these messages, or why the request is refused.
fn tell_sent(came: Result<(), MsgFault>, next: u64, messages: &str, sheet: &mut Sheet) {
    match came {
        Ok(()) => {
            sheet.write("next ");
            sheet.show(&next);
            sheet.write(messages);
        }
        Err(fault) => tell_fault(fault, sheet),
    }
}

/// Writes the status busy, and the messages in answer to a message, once it is read.
fn answer_opened<L: Ledger>(
    kernel: &mut Kernel<L>,
    comms: &mut Comms,
    stamp: &mut Stamp,
    how: &str,
    key: &Key,
    opened: &Opened,
    messages: &mut Sheet,
) -> Result<(), MsgFault>
    requires { IsRead opened.now }
{
    write_busy(&opened.message, stamp, key, messages);
    match Request::read(messages.alloc(), opened) {
        Ok(request) => {
            answer_request(kernel, comms, stamp, how, key, &request, messages);
            Ok(())
        }
        Err(fault) => Err(fault),
    }
}

/// Writes the status with which the answer to a message begins.
fn write_busy(message: &Message, stamp: &mut Stamp, key: &Key, messages: &mut Sheet) {
    if stamp.next > MESSAGES {
        return messages.refuse();
    }
    match opening(messages.alloc(), message, stamp) {
        Ok(busy) => write_message(busy.message(), key, messages),
        Err(_) => messages.refuse(),
    }
}

/// Writes the messages in answer to a request.
fn answer_request<L: Ledger>(
    kernel: &mut Kernel<L>,
    comms: &mut Comms,
    stamp: &mut Stamp,
    how: &str,
    key: &Key,
    request: &Request,
    messages: &mut Sheet,
) {
    match told_of(messages.alloc(), kernel, comms, &request.content, how) {
        Ok(report) => send(request, &report, stamp, key, messages),
        Err(_) => messages.refuse(),
    }
}

/// Writes the messages in which this is told of a request.
fn send(request: &Request, report: &Report, stamp: &mut Stamp, key: &Key, messages: &mut Sheet) {
    match sent(messages.alloc(), request, report, stamp) {
        Ok(sent) => write_sent(&sent, key, messages),
        Err(_) => messages.refuse(),
    }
}

/// The text of the cell that a request asks to execute; of another request the empty one.
fn code_of(content: &RequestContent) -> &str {
    match content {
        RequestContent::Execute(cell) => &cell.code,
        _ => "",
    }
}

/// The messages in which this is told of a request.
fn sent(
    alloc: Global,
    request: &Request,
    report: &Report,
    stamp: &mut Stamp,
) -> Result<Outgoing, MsgFault> {
    if stamp.next > MESSAGES {
        return Err(MsgFault::Memory);
    }
    let code = code_of(&request.content);
    match report {
        Report::Ended(done) => answer(alloc, request, code, done, stamp),
        Report::Answered(answer) => answer_ask(alloc, request, answer, stamp),
        Report::Unposted(fault, answer) => refuse(alloc, request, code, fault, answer, stamp),
    }
}

/// Writes the reply and the broadcasts, in the order in which they are sent.
fn write_sent(sent: &Outgoing, key: &Key, messages: &mut Sheet) {
    if let Some(reply) = &sent.reply {
        write_message(reply, key, messages);
    }
    for broadcast in &sent.broadcasts {
        write_message(broadcast.message(), key, messages);
    }
}

/// Writes the frames of a message, sealed with the key, in a line of its own.
fn write_message(message: &Message, key: &Key, messages: &mut Sheet) {
    messages.write("\n");
    match seal(messages.alloc(), message, key) {
        Ok(frames) => write_made(frames_shown(messages.alloc(), frames), messages),
        Err(_) => messages.refuse(),
    }
}

/// Writes a text that was made, or keeps that there was no memory for it.
fn write_made(text: Result<String, AllocError>, sheet: &mut Sheet) {
    match text {
        Ok(text) => sheet.write(&text),
        Err(_) => sheet.refuse(),
    }
}
