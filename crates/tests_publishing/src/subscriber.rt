//! Rows of a subscriber's connection. `publish` (a topic, a number of octets behind it, and how often) publishes broadcasts. `hear` (octets) has the
//! reading half hear all that comes, and gives how that ends. `speak` has the writing half write to a subscriber that falls silent: how that ends,
//! and what is written; `amid` (a number, and octets) the same where the octets come from the subscriber once it has this number of octets of what is
//! written, of which it takes one at a time. `over` has the writing half write on a connection that can be hung up on: how that ends, and whether it
//! was hung up on. `ready` (octets) is `hear`, and gives what the watcher of the reading half was told; `answers` (a number) has
//! the writing half write to a subscriber that takes this number of octets and then fails, and gives what its watcher was told. `limits` gives how many
//! prefixes, and how many octets of them, a connection may subscribe to.
ghost use Rattle.std.specs.Prelude.{◌≡◌, ◌<◌};

use crate::line::Line;
use crate::notices::{Notebook, Taking};
use crate::pinging::Pinging;
use kernel_board::Broadcast;
use kernel_iopub::{
    Bulletin, PREFIX_LIMIT, PREFIX_OCTET_LIMIT, Signals, Subscriber, SubscriberFault, Unwatched,
    hear, speak, speak_and_hang_up,
};
use std::alloc::{AllocError, Global};
use std::marker::Brand;
use std::sync::ledger::{Blank, Ledger, Share};
use std::sync::{Mutex, Wait};
use tests_rows::{Sheet, cut, number, octets_of};

/// Writes the calls of a new subscriber at a new bulletin with their answers.
pub(crate) fn tell<R: Wait>(rt: &R, calls: &str, sheet: &mut Sheet) {
    match String::from_str(sheet.alloc(), calls) {
        Ok(calls) => tell_owned(rt, calls, sheet),
        Err(_) => sheet.refuse(),
    }
}

/// Writes the calls of a new subscriber at a new bulletin with their answers.
fn tell_owned<R: Wait>(rt: &R, calls: String, sheet: &mut Sheet) {
    tell_in::<Brand, R>(rt, Blank::new(1), calls, sheet);
}

/// A subscriber under its lock, at a bulletin, with the share by which what is written to it counts the pings that were taken.
#[derive(Drop)]
struct Connected<L: Ledger> {
    bulletin: Bulletin,
    signals: Signals,
    shared: Mutex<Subscriber<L>>,
    share: Share<L>,
    ghost whole: { share.parts ≡ 1 },
}

/// Writes the calls of a subscriber over this ledger with their answers.
fn tell_in<L: Ledger, R: Wait>(rt: &R, blank: Blank, calls: String, sheet: &mut Sheet)
    requires { (blank.name ≡ L.name) × (blank.parts ≡ L.parts) × (blank.parts ≡ 1) }
{
    match Bulletin::new(sheet.alloc(), 1) {
        Ok(bulletin) => {
            let (subscriber, share) = Subscriber::<L>::new(sheet.alloc(), blank);
            let mut connected = Connected {
                bulletin,
                signals: Signals::new(),
                shared: Mutex::new(subscriber),
                share,
            };
            tell_calls(rt, &mut connected, &calls, sheet);
        }
        Err(_) => sheet.refuse(),
    }
}

/// Writes the calls with their answers.
fn tell_calls<L: Ledger, R: Wait>(
    rt: &R,
    connected: &mut Connected<L>,
    calls: &str,
    sheet: &mut Sheet,
)
    requires { L.parts ≡ 1 }
{
    for call in calls.lines() {
        sheet.write(call);
        sheet.write(": ");
        answer(rt, connected, call, sheet);
        sheet.write("\n");
    }
}

/// Writes the answer to a call.
fn answer<L: Ledger, R: Wait>(rt: &R, connected: &mut Connected<L>, call: &str, sheet: &mut Sheet)
    requires { L.parts ≡ 1 }
{
    let (word, rest) = cut(call);
    match word {
        "publish" => publish(rt, &connected.bulletin, rest, sheet),
        "hear" => hear_row(rt, connected, rest, sheet),
        "speak" => speak_out(rt, connected, sheet),
        "amid" => amid(rt, connected, rest, sheet),
        "over" => tell_over(rt, connected, sheet),
        "ready" => tell_ready(rt, connected, rest, sheet),
        "answers" => tell_answers(rt, connected, rest, sheet),
        _ => limits(sheet),
    }
}

/// A broadcast of this topic, with a number of octets behind it.
fn broadcast(alloc: Global, topic: &str, octets: usize) -> Result<Broadcast, AllocError> {
    let topic = Vec::from_slice(alloc, topic.as_bytes())?;
    let rest = vec![in alloc; 0u8; octets]?;
    Broadcast::new(alloc, Vec::from_array(alloc, [topic, rest])?)
}

/// Publishes broadcasts, and writes how many.
fn publish<R: Wait>(rt: &R, bulletin: &Bulletin, row: &str, sheet: &mut Sheet) {
    let (topic, row) = cut(row);
    let (octets, times) = cut(row);
    for _ in 0..number(times) {
        match broadcast(sheet.alloc(), topic, number(octets)) {
            Ok(broadcast) => {
                bulletin.publish(rt, broadcast);
                bulletin.wake();
            }
            Err(_) => sheet.refuse(),
        }
    }
    sheet.show(&bulletin.join(rt).number);
}

/// Writes how a half of the connection ends.
fn tell_ended(ended: Result<(), SubscriberFault>, sheet: &mut Sheet) {
    match ended {
        Ok(()) => sheet.write("ok"),
        Err(SubscriberFault::Memory) => sheet.refuse(),
        Err(fault) => sheet.show(&fault),
    }
}

/// Has the reading half hear the octets of a row.
fn hear_row<L: Ledger, R: Wait>(rt: &R, connected: &Connected<L>, row: &str, sheet: &mut Sheet) {
    match octets_of(sheet.alloc(), row) {
        Ok(octets) => {
            let mut reader = octets.as_slice();
            let ended = hear(
                rt,
                &connected.bulletin,
                &connected.signals,
                &connected.shared,
                &mut reader,
                &mut Unwatched,
            );
            tell_ended(ended, sheet);
        }
        Err(_) => sheet.refuse(),
    }
}

/// Writes how the writing half ends, and what it wrote.
fn tell_spoken(ended: Result<(), SubscriberFault>, written: &[u8], sheet: &mut Sheet) {
    tell_ended(ended, sheet);
    sheet.write(" ");
    match hex::encode(sheet.alloc(), written) {
        Ok(digits) => sheet.show(&digits),
        Err(_) => sheet.refuse(),
    }
}

/// Has the writing half write.
fn speak_out<L: Ledger, R: Wait>(rt: &R, connected: &mut Connected<L>, sheet: &mut Sheet)
    requires { L.parts ≡ 1 }
{
    let alloc = sheet.alloc();
    let mut written: Vec<u8> = Vec::new(alloc);
    let Connected {
        bulletin,
        signals,
        shared,
        share,
    } = connected;
    let ended = speak(
        rt,
        alloc,
        bulletin,
        signals,
        shared,
        share,
        &mut written,
        &mut Unwatched,
    );
    tell_spoken(ended, &written, sheet);
}

/// Has the writing half write to a subscriber that sends the octets of a row meanwhile.
fn amid<L: Ledger, R: Wait>(rt: &R, connected: &mut Connected<L>, row: &str, sheet: &mut Sheet)
    requires { L.parts ≡ 1 }
{
    let (at, row) = cut(row);
    let Connected {
        bulletin,
        signals,
        shared,
        share,
    } = connected;
    match octets_of(sheet.alloc(), row) {
        Ok(octets) => speak_amid(
            rt,
            bulletin,
            signals,
            shared,
            share,
            number(at),
            &octets,
            sheet,
        ),
        Err(_) => sheet.refuse(),
    }
}

/// Has the writing half write to a subscriber that sends octets once it has a number of them.
fn speak_amid<L: Ledger, R: Wait>(
    rt: &R,
    bulletin: &Bulletin,
    signals: &Signals,
    shared: &Mutex<Subscriber<L>>,
    share: &mut Share<L>,
    at: usize,
    sent: &[u8],
    sheet: &mut Sheet,
)
    requires { (share.old.parts ≡ L.parts) × (0 < share.old.parts) }
    ensures { share.new.parts ≡ share.old.parts }
{
    let alloc = sheet.alloc();
    let mut writer = Pinging {
        rt,
        bulletin,
        signals,
        shared,
        written: Vec::new(alloc),
        at,
        sent,
    };
    let ended = speak(
        rt,
        alloc,
        bulletin,
        signals,
        shared,
        share,
        &mut writer,
        &mut Unwatched,
    );
    tell_spoken(ended, &writer.written, sheet);
}

/// Has the writing half write on a line, and writes how that ends, and whether the line was hung up on.
fn tell_over<L: Ledger, R: Wait>(rt: &R, connected: &mut Connected<L>, sheet: &mut Sheet)
    requires { L.parts ≡ 1 }
{
    let alloc = sheet.alloc();
    let mut line = Line { is_over: false };
    let Connected {
        bulletin,
        signals,
        shared,
        share,
    } = connected;
    let ended = speak_and_hang_up(
        rt,
        alloc,
        bulletin,
        signals,
        shared,
        share,
        &mut line,
        &mut Unwatched,
    );
    tell_ended(ended, sheet);
    sheet.write(" ");
    sheet.show(&line.is_over);
}

/// Has the reading half hear the octets of a row, and writes what its watcher was told.
fn tell_ready<L: Ledger, R: Wait>(rt: &R, connected: &Connected<L>, row: &str, sheet: &mut Sheet) {
    match octets_of(sheet.alloc(), row) {
        Ok(octets) => {
            let mut reader = octets.as_slice();
            let mut notebook = Notebook::new(sheet.alloc());
            let ended = hear(
                rt,
                &connected.bulletin,
                &connected.signals,
                &connected.shared,
                &mut reader,
                &mut notebook,
            );
            tell_ended(ended, sheet);
            sheet.add(&notebook.notices);
        }
        Err(_) => sheet.refuse(),
    }
}

/// Has the writing half write to a subscriber that takes a number of octets, and writes what its watcher was told.
fn tell_answers<L: Ledger, R: Wait>(
    rt: &R,
    connected: &mut Connected<L>,
    row: &str,
    sheet: &mut Sheet,
)
    requires { L.parts ≡ 1 }
{
    let alloc = sheet.alloc();
    let mut writer = Taking { left: number(row) };
    let mut notebook = Notebook::new(alloc);
    let Connected {
        bulletin,
        signals,
        shared,
        share,
    } = connected;
    let ended = speak(
        rt,
        alloc,
        bulletin,
        signals,
        shared,
        share,
        &mut writer,
        &mut notebook,
    );
    tell_ended(ended, sheet);
    sheet.add(&notebook.notices);
}

/// The limits of a connection.
fn limits(sheet: &mut Sheet) {
    sheet.show(&PREFIX_LIMIT);
    sheet.write(" ");
    sheet.show(&PREFIX_OCTET_LIMIT);
}
