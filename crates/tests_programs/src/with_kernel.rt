//! Rows of frontends of one version before a kernel, which runs on a thread of its own until it is shut; the last row is what the kernel wrote, and its
//! status.
//!
//! `await` waits until the kernel serves its sockets. `console` (a command, and its word) runs a console, and gives its status and what it wrote.
//! `shutdown` asks for a shutdown on a connection of its own, first under another key and then under the kernel's, and gives the content of the next
//! message, which is the reply to the latter where the former is passed over.
//! `open` (a socket, and a role) connects a frontend, and gives how many are connected; `fill` (a number, a socket and a role) that many, each of
//! which the kernel becomes ready on, and `sign` that many, on each of which the kernel is then asked what it is, so that it has shown the key. `abandon` (a
//! number, and the content of an execution) connects that many to shell, one after another, each of which posts that and leaves before it is answered.
//! `ready` (a frontend, and how many reads it waits) tells whether the kernel is ready there, `silent` the same whether nothing comes. `pong` (a
//! frontend) answers the ping that comes there, and `pings` tells how many came until the kernel closed the connection. `leave` (a
//! frontend) and `clear` disconnect one, and all. `write` (a frontend, and octets) and `press` (a frontend, a number of zeros, and octets before
//! them) write octets, the latter as far as they are taken. `send` (a frontend, a type and a content) sends a request. `reply` gives the content of
//! the next message, `begins` its beginning, `topic` its topic, `skip` the next topic that isn't the status, and `out` whether all that is left is the
//! status. `ask` asks what the kernel is and hears the reply, `asks` does so on each connection that there is, and gives how many there are, and `stamp`
//! gives what the header of the reply tells, and whether it is of the session of the `stamp` before, in this block or an earlier one. `dates` (a frontend)
//! tells whether two replies, a second apart, have different dates. `heard` (a frontend, and a subscriber) asks so until the subscriber hears of it, and
//! `interrupt` (a frontend, and another) has the other ask for interrupts until the frontend is answered, and gives the beginning of that content; `stop` is
//! the same with one interrupt. `flood` (a frontend, and a number) asks so often what the kernel is, hears nothing, and tells whether the kernel closes the
//! connection meanwhile. `end` tells whether the kernel closes a connection, `either` whether one of two.
//!
//! `hold` (a number) opens that many connections to each socket on which nothing is said, and gives how many there are. `stream` (a socket, a role,
//! and that of the kernel's end) opens a stream, and gives how many there are, where what such an end sends first comes back. `echo` (a stream, a
//! number, octets, and others) gives how often the others come back where the octets are written that often, and `until` (a stream, and a text)
//! whether the text comes, and `lapse` (a stream) whether the kernel closes it. `part` closes the last stream.
use crate::frontend::{Frontend, READS};
use crate::programs::{Ran, ask};
use crate::site::{Site, await_port, connect};
use crate::streams::{echoes, lapses, opened, read_to};
use crate::talk;
use crate::talk::{
    asked, asked_on_each, begins, clear, dates, ends, flood, hear_out, heard, interrupted, leave,
    one_ends, pings, place, pong, press, ready, reply, say, silent, skip, stamped, stopped, topic,
    write,
};
use crate::told::told;
use std::alloc::Global;
use std::io::{ErrorKind, Result};
use std::net::{Net, TcpListener, TcpStream};
use std::rt::Files;
use std::sync::Wait;
use std::thread::Threads;
use std::time::Clock;
use std::{fs, thread};
use tests_rows::{Sheet, cut, cut_block, number, octets_of};
use zmtp_peer::Role;

/// The sockets of a kernel.
const SOCKETS: [&str; 5] = ["shell", "iopub", "stdin", "control", "heartbeat"];

/// Who is connected to a kernel.
#[derive(Drop)]
struct Connections<'a> {
    site: &'a Site,
    frontends: Vec<Frontend>,
    streams: Vec<TcpStream>,
}

/// Writes the calls of a block before this kernel, with their answers. What was seen is the session of the last message that was looked at for it.
pub(crate) fn tell<R>(rt: &R, site: &Site, block: &str, seen: &mut String, sheet: &mut Sheet)
where
    R: Net<Listener = TcpListener, Stream = TcpStream> + Files + Clock,
{
    let (_title, _subject, calls) = cut_block(block);
    let mut connections = Connections {
        site,
        frontends: Vec::new(sheet.alloc()),
        streams: Vec::new(sheet.alloc()),
    };
    tell_calls(rt, &mut connections, calls, seen, sheet);
}

/// Ends a block: writes what the kernel wrote, and its status, and that its connection file is removed.
pub(crate) fn end<R: Files>(rt: &R, site: &Site, ran: &Ran, sheet: &mut Sheet) {
    sheet.write("kernel: ");
    ran.tell(usize::MAX, sheet);
    sheet.write(" ");
    told(fs::remove_file(rt, &site.path), sheet);
    sheet.write("\n");
}

/// Writes calls with their answers.
fn tell_calls<R>(
    rt: &R,
    connections: &mut Connections<'_>,
    calls: &str,
    seen: &mut String,
    sheet: &mut Sheet,
)
where
    R: Net<Listener = TcpListener, Stream = TcpStream> + Files + Clock,
{
    for call in calls.lines() {
        sheet.write(call);
        sheet.write(": ");
        answer(rt, connections, call, seen, sheet);
        sheet.write("\n");
    }
}

/// Writes the answer to a call.
fn answer<R>(
    rt: &R,
    connections: &mut Connections<'_>,
    call: &str,
    seen: &mut String,
    sheet: &mut Sheet,
)
where
    R: Net<Listener = TcpListener, Stream = TcpStream> + Files + Clock,
{
    let alloc = sheet.alloc();
    let (word, rest) = cut(call);
    match word {
        "await" => told(await_kernel(rt, alloc, connections.site), sheet),
        "console" => console(rt, connections.site, rest, sheet),
        "shutdown" => told(shutdown(rt, alloc, connections.site), sheet),
        "open" | "fill" | "sign" | "abandon" | "hold" | "stream" => {
            told(connected(rt, alloc, connections, word, rest), sheet);
        }
        "stamp" => {
            let stamp = stamped(alloc, &mut connections.frontends, seen, rest);
            told(stamp, sheet);
        }
        _ => answer_within(connections, word, rest, sheet),
    }
}

/// Runs a console with the command of a row and its word.
fn console<R>(rt: &R, site: &Site, row: &str, sheet: &mut Sheet)
where
    R: Net<Listener = TcpListener, Stream = TcpStream> + Files,
{
    let (command, word) = cut(row);
    ask(rt, &site.path, command, word, sheet);
}

/// The answer to a call by which connections are made: how many there are.
fn connected<R>(
    rt: &R,
    alloc: Global,
    connections: &mut Connections<'_>,
    word: &str,
    rest: &str,
) -> Result<usize>
where
    R: Net<Listener = TcpListener, Stream = TcpStream>,
{
    let (first, second) = cut(rest);
    match word {
        "open" => open(rt, alloc, connections, first, second),
        "fill" => fill(rt, alloc, connections, number(first), second, false),
        "sign" => fill(rt, alloc, connections, number(first), second, true),
        "abandon" => abandon(rt, alloc, connections, number(first), second),
        "hold" => hold_all(rt, connections, number(first)),
        _ => stream(rt, alloc, connections, rest),
    }
}

/// Writes the answer to a call over the connections that there are.
fn answer_within(connections: &mut Connections<'_>, word: &str, rest: &str, sheet: &mut Sheet) {
    let alloc = sheet.alloc();
    match word {
        "echo" => told(echo(alloc, &connections.streams, rest), sheet),
        "until" => told(until(alloc, &connections.streams, rest), sheet),
        "part" => sheet.show(&part(&mut connections.streams)),
        "lapse" => told(lapse(&connections.streams, rest), sheet),
        _ => answer_talk(&mut connections.frontends, word, rest, sheet),
    }
}

/// Writes the answer to a call of frontends that are connected.
fn answer_talk(frontends: &mut Vec<Frontend>, word: &str, rest: &str, sheet: &mut Sheet) {
    let alloc = sheet.alloc();
    match word {
        "ready" => told(ready(frontends, rest), sheet),
        "silent" => told(silent(frontends, rest), sheet),
        "pong" => told(pong(frontends, rest), sheet),
        "pings" => told(pings(frontends, rest), sheet),
        "leave" => sheet.show(&leave(frontends, rest)),
        "clear" => sheet.show(&clear(frontends)),
        "write" => told(write(alloc, frontends, rest), sheet),
        "press" => told(press(alloc, frontends, rest), sheet),
        "send" => told(say(alloc, frontends, rest), sheet),
        _ => answer_heard(frontends, word, rest, sheet),
    }
}

/// Writes the answer to a call by which something is heard.
fn answer_heard(frontends: &mut [Frontend], word: &str, rest: &str, sheet: &mut Sheet) {
    let alloc = sheet.alloc();
    match word {
        "reply" => told(reply(alloc, frontends, rest), sheet),
        "begins" => told(begins(alloc, frontends, rest), sheet),
        "dates" => told(dates(alloc, frontends, rest), sheet),
        "topic" => told(topic(alloc, frontends, rest), sheet),
        "skip" => told(skip(alloc, frontends, rest), sheet),
        "out" => told(hear_out(frontends, rest), sheet),
        "ask" => told(asked(alloc, frontends, rest), sheet),
        "asks" => told(asked_on_each(alloc, frontends), sheet),
        "heard" => told(heard(alloc, frontends, rest), sheet),
        "interrupt" => told(interrupted(alloc, frontends, rest), sheet),
        "stop" => told(stopped(alloc, frontends, rest), sheet),
        "flood" => told(flood(alloc, frontends, rest), sheet),
        "end" => told(ends(frontends, rest), sheet),
        _ => told(one_ends(frontends, rest), sheet),
    }
}

/// Waits until the kernel serves its sockets. (The threads of all of them stand before it accepts a connection.)
fn await_kernel<R>(rt: &R, alloc: Global, site: &Site) -> Result<bool>
where
    R: Net<Listener = TcpListener, Stream = TcpStream> + Clock,
{
    let stream = await_port(rt, site.port("control"))?;
    match Frontend::over(alloc, stream, Role::Dealer, site.minor) {
        Ok(mut frontend) => frontend.becomes_ready(READS),
        Err(error) => Err(error),
    }
}

/// Asks for a shutdown on a connection of its own: the content of the reply.
fn shutdown<R>(rt: &R, alloc: Global, site: &Site) -> Result<String>
where
    R: Net<Listener = TcpListener, Stream = TcpStream>,
{
    let stream = connect(rt, site.port("control"))?;
    match Frontend::over(alloc, stream, Role::Dealer, site.minor) {
        Ok(mut frontend) => talk::shut_down(alloc, &mut frontend),
        Err(error) => Err(error),
    }
}

/// The role that a word names.
fn role_of(word: &str) -> Role {
    match word {
        "router" => Role::Router,
        "pub" => Role::Pub,
        "rep" => Role::Rep,
        "sub" => Role::Sub,
        _ => Role::Dealer,
    }
}

/// Connects a frontend in this role to a socket: how many are connected.
fn open<R>(
    rt: &R,
    alloc: Global,
    connections: &mut Connections<'_>,
    socket: &str,
    role: &str,
) -> Result<usize>
where
    R: Net<Listener = TcpListener, Stream = TcpStream>,
{
    let site = connections.site;
    let stream = connect(rt, site.port(socket))?;
    let frontend = Frontend::over(alloc, stream, role_of(role), site.minor)?;
    connections.frontends.push(frontend)?;
    Ok(connections.frontends.len())
}

/// Waits until the kernel is ready on a connection, and asks there what it is, or doesn't.
fn settle(alloc: Global, frontend: &mut Frontend, asks: bool) -> Result<()> {
    if !frontend.becomes_ready(READS)? {
        return Err(ErrorKind::TimedOut.into());
    }
    if asks {
        return talk::ask(alloc, frontend);
    }
    Ok(())
}

/// Connects a number of frontends, on each of which the kernel becomes ready, and is asked what it is, or isn't: how many are connected.
fn fill<R>(
    rt: &R,
    alloc: Global,
    connections: &mut Connections<'_>,
    times: usize,
    row: &str,
    asks: bool,
) -> Result<usize>
where
    R: Net<Listener = TcpListener, Stream = TcpStream>,
{
    let (socket, role) = cut(row);
    for _ in 0..times {
        open(rt, alloc, connections, socket, role)?;
        if let Some(frontend) = connections.frontends.last_mut() {
            settle(alloc, frontend, asks)?;
        }
    }
    Ok(connections.frontends.len())
}

/// Connects a frontend to shell, which posts a cell and leaves.
fn post_and_leave<R>(
    rt: &R,
    alloc: Global,
    connections: &mut Connections<'_>,
    content: &str,
) -> Result<()>
where
    R: Net<Listener = TcpListener, Stream = TcpStream>,
{
    open(rt, alloc, connections, "shell", "dealer")?;
    if let Some(mut frontend) = connections.frontends.pop() {
        settle(alloc, &mut frontend, false)?;
        talk::post(alloc, &frontend, content)?;
    }
    Ok(())
}

/// Connects a number of frontends to shell, one after another, each of which posts a cell and leaves: how many are connected.
fn abandon<R>(
    rt: &R,
    alloc: Global,
    connections: &mut Connections<'_>,
    times: usize,
    content: &str,
) -> Result<usize>
where
    R: Net<Listener = TcpListener, Stream = TcpStream>,
{
    for _ in 0..times {
        post_and_leave(rt, alloc, connections, content)?;
    }
    Ok(connections.frontends.len())
}

/// Opens a number of connections to a socket.
fn hold<R>(rt: &R, connections: &mut Connections<'_>, socket: &str, times: usize) -> Result<()>
where
    R: Net<Listener = TcpListener, Stream = TcpStream>,
{
    let port = connections.site.port(socket);
    for _ in 0..times {
        connections.streams.push(connect(rt, port)?)?;
    }
    Ok(())
}

/// Opens a number of connections to each socket: how many there are.
fn hold_all<R>(rt: &R, connections: &mut Connections<'_>, times: usize) -> Result<usize>
where
    R: Net<Listener = TcpListener, Stream = TcpStream>,
{
    for socket in SOCKETS {
        hold(rt, connections, socket, times)?;
    }
    Ok(connections.streams.len())
}

/// Opens a stream to a socket: how many there are.
fn stream<R>(rt: &R, alloc: Global, connections: &mut Connections<'_>, row: &str) -> Result<usize>
where
    R: Net<Listener = TcpListener, Stream = TcpStream>,
{
    let (socket, roles) = cut(row);
    let (role, back) = cut(roles);
    let (port, minor) = (connections.site.port(socket), connections.site.minor);
    let stream = opened(rt, alloc, port, role_of(role), role_of(back), minor)?;
    connections.streams.push(stream)?;
    Ok(connections.streams.len())
}

/// The stream that a row names.
fn stream_at<'a>(streams: &'a [TcpStream], word: &str) -> Result<&'a TcpStream> {
    match streams.get(place(word)) {
        Some(stream) => Ok(stream),
        None => Err(ErrorKind::NotFound.into()),
    }
}

/// How often octets come back on a stream.
fn echo(alloc: Global, streams: &[TcpStream], row: &str) -> Result<usize> {
    let (word, row) = cut(row);
    let (times, row) = cut(row);
    let (said, back) = cut(row);
    let stream = stream_at(streams, word)?;
    let said = octets_of(alloc, said)?;
    let back = octets_of(alloc, back)?;
    echoes(alloc, stream, number(times), &said, &back)
}

/// Whether a text comes on a stream.
fn until(alloc: Global, streams: &[TcpStream], row: &str) -> Result<bool> {
    let (word, text) = cut(row);
    let stream = stream_at(streams, word)?;
    let mut octets = Vec::new(alloc);
    read_to(stream, &mut octets, text.as_bytes())
}

/// Whether the kernel closes a stream.
fn lapse(streams: &[TcpStream], word: &str) -> Result<bool> {
    match stream_at(streams, word) {
        Ok(stream) => lapses(stream),
        Err(error) => Err(error),
    }
}

/// Closes the last stream: how many there are then.
fn part(streams: &mut Vec<TcpStream>) -> usize {
    drop(streams.pop());
    streams.len()
}
