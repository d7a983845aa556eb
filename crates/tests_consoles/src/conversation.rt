//! A conversation of a console with a kernel, and what is told of it.
use crate::kernel::{Kernel, Slow, opening, stream};
use console_program::{Frontend, Wire, subscribe};
use console_talk::{ConsoleCommand, ConsoleFault, Printed, session_name};
use jupyter_msg::{Key, open};
use tests_rows::{Sheet, cut, frames_shown};
use zmtp_peer::{Peer, PeerEvent, Role};

/// How many events are written out at most.
const EVENTS: usize = 10;

/// More octets than a console writes here. A stream has room for them from the start, so that want of memory is no write fault.
const ROOM: usize = 100_000;

/// Has a console do what a row says, and writes what is told of it.
pub(crate) fn tell(minor: u8, row: &str, kernel: &Kernel, sheet: &mut Sheet) {
    let shell = stream(Role::Router, minor, &kernel.shell, sheet);
    let replies = Slow::new(&shell, kernel.shell.len(), 0);
    sheet.write(": ");
    if row == "next" {
        tell_next(replies, sheet);
    } else {
        tell_conversation(minor, row, kernel, replies, sheet);
    }
}

/// Has a conversation with these replies, and writes what is told of it.
fn tell_conversation(minor: u8, row: &str, kernel: &Kernel, replies: Slow<'_>, sheet: &mut Sheet) {
    let iopub = stream(Role::Pub, minor, &kernel.iopub, sheet);
    let broadcasts = Slow::new(&iopub, kernel.iopub.len(), kernel.late);
    let command = command_of(row, sheet);
    converse(replies, broadcasts, &command, sheet);
}

/// The command that a row writes.
fn command_of(row: &str, sheet: &mut Sheet) -> ConsoleCommand {
    let (word, rest) = cut(row);
    let number = rest.parse::<u32>().unwrap_or(0);
    match word {
        "undo" => ConsoleCommand::Undo(number),
        "redo" => ConsoleCommand::Redo(number),
        "goto" => ConsoleCommand::Goto(number),
        "show" => ConsoleCommand::Show,
        _ => text_command(word, rest, sheet),
    }
}

/// The command with a text.
fn text_command(word: &str, text: &str, sheet: &mut Sheet) -> ConsoleCommand {
    let text = sheet.made(String::from_str(sheet.alloc(), text));
    if word == "run" {
        ConsoleCommand::Run(text)
    } else {
        ConsoleCommand::Complete(text)
    }
}

/// Has a conversation over these streams of the kernel.
fn converse(replies: Slow<'_>, broadcasts: Slow<'_>, command: &ConsoleCommand, sheet: &mut Sheet) {
    let writer = sheet.room(ROOM);
    match Wire::open(sheet.alloc(), broadcasts, writer, Role::Sub) {
        Ok(iopub) => converse_over(replies, iopub, command, sheet),
        Err(fault) => sheet.show(&fault),
    }
}

/// Has a conversation over this connection to iopub, once it subscribed there.
fn converse_over<'a>(
    replies: Slow<'a>,
    mut iopub: Wire<Slow<'a>, Vec<u8>>,
    command: &ConsoleCommand,
    sheet: &mut Sheet,
) {
    if let Err(fault) = subscribe(&mut iopub) {
        sheet.show(&fault);
    }
    let writer = sheet.room(ROOM);
    match Wire::open(sheet.alloc(), replies, writer, Role::Dealer) {
        Ok(shell) => converse_on(shell, iopub, command, sheet),
        Err(fault) => sheet.show(&fault),
    }
}

/// Has a conversation over these connections.
fn converse_on<'a>(
    shell: Wire<Slow<'a>, Vec<u8>>,
    iopub: Wire<Slow<'a>, Vec<u8>>,
    command: &ConsoleCommand,
    sheet: &mut Sheet,
) {
    let alloc = sheet.alloc();
    let mut frontend = Frontend {
        alloc,
        key: Key::new(sheet.copied(b"key")),
        session: sheet.made(session_name(alloc, 7)),
        next: 0,
        shell,
        iopub,
    };
    tell_obeyed(&mut frontend, command, sheet);
}

/// Greets the kernel, obeys a command, and writes what is printed, and what went out.
fn tell_obeyed(
    frontend: &mut Frontend<Slow<'_>, Vec<u8>>,
    command: &ConsoleCommand,
    sheet: &mut Sheet,
) {
    let told = match frontend.greet() {
        Ok(()) => frontend.obey(command),
        Err(fault) => Err(fault),
    };
    tell_printed(told, sheet);
    tell_behind_opening(Role::Sub, &frontend.iopub.writer, sheet);
    tell_sent(&frontend.shell.writer, sheet);
}

/// Writes the status and what is printed, or the fault.
fn tell_printed(told: Result<Printed, ConsoleFault>, sheet: &mut Sheet) {
    match told {
        Ok(told) => {
            sheet.show(&told.status());
            sheet.write(" ");
            sheet.show(&told.lines);
        }
        Err(fault) => sheet.show(&fault),
    }
}

/// Writes the octets behind the opening of an end in this role.
fn tell_behind_opening(role: Role, octets: &[u8], sheet: &mut Sheet) {
    let opening = opening(role, sheet);
    sheet.write("\n  behind the opening: ");
    match octets.strip_prefix(opening.as_slice()) {
        Some(behind) => sheet.write_hex(behind),
        None => sheet.write("no opening"),
    }
}

/// Writes what a console sent on shell.
fn tell_sent(octets: &[u8], sheet: &mut Sheet) {
    match Peer::new(sheet.alloc(), Role::Router).feed(octets) {
        Ok(events) => tell_events(events, sheet),
        Err(fault) => sheet.show(&fault),
    }
}

/// Writes events; of many messages how many stand before the last one, and that one.
fn tell_events(events: Vec<PeerEvent>, sheet: &mut Sheet) {
    if events.len() > EVENTS {
        tell_many(events, sheet);
    } else {
        for event in events {
            tell_event(event, sheet);
        }
    }
}

/// Writes how many messages under the key stand before the last event, each event that is none, and the last event.
fn tell_many(mut events: Vec<PeerEvent>, sheet: &mut Sheet) {
    let last = events.pop();
    let count = count_messages(events, sheet);
    sheet.write("\n  messages before the last one: ");
    sheet.show(&count);
    if let Some(last) = last {
        tell_event(last, sheet);
    }
}

/// How many events are messages under the key. Writes each event that is none.
fn count_messages(events: Vec<PeerEvent>, sheet: &mut Sheet) -> usize {
    let key = Key::new(sheet.copied(b"key"));
    let mut count: usize = 0;
    for event in events {
        if is_message(event, &key, sheet) {
            count = count.saturating_add(1);
        }
    }
    count
}

/// Whether an event is a message under the key. Writes one that is none, or why it is not opened.
fn is_message(event: PeerEvent, key: &Key, sheet: &mut Sheet) -> bool {
    match event {
        PeerEvent::Message(frames) => is_opened(frames, key, sheet),
        event => {
            tell_event(event, sheet);
            false
        }
    }
}

/// Whether a message is one under the key. Writes why it is not opened.
fn is_opened(frames: Vec<Vec<u8>>, key: &Key, sheet: &mut Sheet) -> bool {
    match open(sheet.alloc(), frames, key) {
        Ok(_) => true,
        Err(fault) => {
            sheet.write("\n  ");
            sheet.show(&fault);
            false
        }
    }
}

/// Writes an event, a message by its frames.
fn tell_event(event: PeerEvent, sheet: &mut Sheet) {
    sheet.write("\n  ");
    match event {
        PeerEvent::Message(frames) => tell_frames(frames, sheet),
        event => sheet.show(&event),
    }
}

/// Writes the frames of a message.
fn tell_frames(frames: Vec<Vec<u8>>, sheet: &mut Sheet) {
    let text = sheet.made(frames_shown(sheet.alloc(), frames));
    sheet.write(&text);
}

/// Opens shell over this stream of the kernel, and writes the next message, and what went out.
fn tell_next(replies: Slow<'_>, sheet: &mut Sheet) {
    let writer = sheet.room(ROOM);
    match Wire::open(sheet.alloc(), replies, writer, Role::Dealer) {
        Ok(mut shell) => tell_next_on(&mut shell, sheet),
        Err(fault) => sheet.show(&fault),
    }
}

/// Writes the next message on shell, and what went out.
fn tell_next_on(shell: &mut Wire<Slow<'_>, Vec<u8>>, sheet: &mut Sheet) {
    match shell.next() {
        Ok(Some(frames)) => tell_frames(frames, sheet),
        Ok(None) => sheet.write("none"),
        Err(fault) => sheet.show(&fault),
    }
    tell_behind_opening(Role::Dealer, &shell.writer, sheet);
}
