//! The program over its command line and its two output streams.
ghost use Rattle.std.specs.Prelude.{◌≡◌, ◌≢◌, codes, string_bytes, IfOk, IfErr, OnErr};
ghost use Rattle.console_talk.specs.Faults.{status_of as fault_status};
ghost use Rattle.console_talk.specs.Lines.{status_of as told_status};
ghost use Rattle.console_words.specs.Refusals.{status_of as refusal_status};
ghost use Rattle.exact_write.specs.Sent.{SentSome};

use crate::frontend::{Frontend, subscribe};
use crate::output::print;
use crate::wire::Wire;
use console_talk::{ConsoleCommand, ConsoleFault, Printed, session_name};
use console_words::{Arguments, RefusalKind, Refused, arguments_of};
use jupyter_msg::{Connection, Key, Setting};
use program_words::{send_unread_words, unread_words_status};
use std::alloc::Global;
use std::convert::AsStr;
use std::io::{ErrorKind, Write};
use std::net::{Net, TcpListener, TcpStream};
use std::rt::Files;
use std::time::Duration;
use std::{fs, io};
use zmtp_peer::Role;

/// How long a read waits until the kernel is ready on a connection: its places may all be taken, or no kernel listens there.
const OPENING_SECONDS: u64 = 2;

/// How long a read of iopub waits while it is not known whether broadcasts come.
const GREETING_MILLISECONDS: u64 = 20;

/// The status of a program that had no memory for its words.
const NO_MEMORY: u8 = 3;

/// The octets of the connection file.
fn octets_of_file<'a, R: Files>(
    rt: &R,
    alloc: &'a Global,
    path: &str,
) -> Result<Vec<u8, &'a Global>, ConsoleFault> {
    match fs::read(&(rt, alloc), path) {
        Ok(octets) => Ok(octets),
        Err(error) => match error.kind() {
            ErrorKind::OutOfMemory => Err(ConsoleFault::NoMemory),
            _ => Err(ConsoleFault::BadFile(Setting::File)),
        },
    }
}

/// Reads the connection file.
fn read_file<R: Files>(rt: &R, alloc: Global, path: &str) -> Result<Connection, ConsoleFault> {
    let octets = octets_of_file(rt, &alloc, path)?;
    match Connection::read(alloc, &octets) {
        Ok(file) => Ok(file),
        Err(fault) => Err(ConsoleFault::of_file(fault)),
    }
}

/// What a fault of a socket comes to.
fn socket_fault(error: io::Error) -> ConsoleFault {
    match error.kind() {
        ErrorKind::OutOfMemory => ConsoleFault::NoMemory,
        _ => ConsoleFault::NoConnection,
    }
}

/// Where a kernel is that listens at this `ip` of its connection file: for each interface of the machine Jupyter writes `*`.
fn address_of(ip: &str) -> &str
    ensures every { ip.now ≡ codes "*" → result.now ≡ codes "127.0.0.1" }
    ensures other { ip.now ≢ codes "*" → result.now ≡ ip.now }
{
    if ip == "*" { "127.0.0.1" } else { ip }
}

/// Connects to a port of the kernel.
fn dial<R>(rt: &R, file: &Connection, port: u16) -> Result<TcpStream, ConsoleFault>
where
    R: Net<Listener = TcpListener, Stream = TcpStream>,
{
    let ip = address_of(&file.ip);
    let stream = match TcpStream::connect(rt, (ip, port)) {
        Ok(stream) => stream,
        Err(error) => return Err(socket_fault(error)),
    };
    match stream.set_nodelay(true) {
        Ok(()) => Ok(stream),
        Err(error) => Err(socket_fault(error)),
    }
}

/// Lets a read of the stream wait this long, or for ever.
fn set_patience(stream: &TcpStream, patience: Option<Duration>) -> Result<(), ConsoleFault> {
    match stream.set_read_timeout(patience) {
        Ok(()) => Ok(()),
        Err(error) => Err(socket_fault(error)),
    }
}

/// The connection over a stream, which is given up where the kernel isn't ready in time.
fn open_wire(
    alloc: Global,
    stream: &TcpStream,
    role: Role,
) -> Result<Wire<&TcpStream, &TcpStream>, ConsoleFault> {
    set_patience(stream, Some(Duration::from_secs(OPENING_SECONDS)))?;
    let wire = Wire::open(alloc, stream, stream, role)?;
    set_patience(stream, None)?;
    Ok(wire)
}

/// The port of this end of a stream.
fn local_port(stream: &TcpStream) -> Result<u16, ConsoleFault> {
    match stream.local_addr() {
        Ok(address) => Ok(address.port()),
        Err(error) => Err(socket_fault(error)),
    }
}

/// The connection to iopub over a stream, subscribed to all broadcasts.
fn open_iopub(
    alloc: Global,
    stream: &TcpStream,
) -> Result<Wire<&TcpStream, &TcpStream>, ConsoleFault> {
    let mut iopub = open_wire(alloc, stream, Role::Sub)?;
    subscribe(&mut iopub)?;
    Ok(iopub)
}

/// The name of the session over a stream.
fn session_over(alloc: Global, stream: &TcpStream) -> Result<String, ConsoleFault> {
    let port = local_port(stream)?;
    Ok(session_name(alloc, port)?)
}

/// The connection to shell over a stream, and the name of the session.
fn open_shell(
    alloc: Global,
    stream: &TcpStream,
) -> Result<(Wire<&TcpStream, &TcpStream>, String), ConsoleFault> {
    let shell = open_wire(alloc, stream, Role::Dealer)?;
    let session = session_over(alloc, stream)?;
    Ok((shell, session))
}

/// Waits until broadcasts come over the stream, and then has the kernel do what the command says.
fn greet_and_obey(
    frontend: &mut Frontend<&TcpStream, &TcpStream>,
    broadcasts: &TcpStream,
    command: &ConsoleCommand,
) -> Result<Printed, ConsoleFault> {
    set_patience(
        broadcasts,
        Some(Duration::from_millis(GREETING_MILLISECONDS)),
    )?;
    frontend.greet()?;
    set_patience(broadcasts, None)?;
    frontend.obey(command)
}

/// Opens the connection to shell, and has the kernel do what the command says, over it and the one to iopub.
fn converse_over(
    alloc: Global,
    key: Key,
    broadcasts: &TcpStream,
    iopub: Wire<&TcpStream, &TcpStream>,
    requests: &TcpStream,
    command: &ConsoleCommand,
) -> Result<Printed, ConsoleFault> {
    let (shell, session) = open_shell(alloc, requests)?;
    let mut frontend = Frontend {
        alloc,
        key,
        session,
        next: 0,
        shell,
        iopub,
    };
    greet_and_obey(&mut frontend, broadcasts, command)
}

/// Connects to iopub and then to shell, and has the kernel do what the command says.
fn converse<R>(
    rt: &R,
    alloc: Global,
    file: Connection,
    command: &ConsoleCommand,
) -> Result<Printed, ConsoleFault>
where
    R: Net<Listener = TcpListener, Stream = TcpStream>,
{
    let broadcasts = dial(rt, &file, file.iopub_port)?;
    let iopub = open_iopub(alloc, &broadcasts)?;
    let requests = dial(rt, &file, file.shell_port)?;
    let key = Key::new(file.key.into_bytes());
    converse_over(alloc, key, &broadcasts, iopub, &requests, command)
}

/// Has the kernel of a connection file do what the command says.
fn run<R>(rt: &R, alloc: Global, arguments: Arguments) -> Result<Printed, ConsoleFault>
where
    R: Net<Listener = TcpListener, Stream = TcpStream> + Files,
{
    let Arguments { file, command } = arguments;
    let file = read_file(rt, alloc, &file)?;
    converse(rt, alloc, file, &command)
}

/// Prints why nothing came of it.
fn tell<E: Write>(fault: ConsoleFault, err: &mut E) {
    print(err, "janus-console: ");
    print(err, fault.reason());
    print(err, "\n");
}

/// Prints what came of it, and answers the status.
fn end<W: Write, E: Write>(came: Result<Printed, ConsoleFault>, out: &mut W, err: &mut E) -> u8
    ensures told { IfOk came (λ told. result ≡ told_status told.is_well) }
    ensures fault { IfErr came (λ fault. result ≡ fault_status fault) }
    ensures lines { IfOk came (λ told. SentSome (W.contents out.old) (W.contents out.new) (string_bytes told.lines)) }
    ensures no_error { IfOk came (λ _. err.new ≡ err.old) }
    ensures no_line { OnErr came (out.new ≡ out.old) }
{
    match came {
        Ok(told) => {
            print(out, &told.lines);
            told.status()
        }
        Err(fault) => {
            tell(fault, err);
            fault.status()
        }
    }
}

/// Prints the help, or why the words ask for nothing, and answers the status.
fn refuse<W: Write, E: Write>(refused: &Refused, out: &mut W, err: &mut E) -> u8
    ensures status { result ≡ refusal_status refused.now.kind }
    ensures help { refused.now.kind ≡ RefusalKind.Help → SentSome (W.contents out.old) (W.contents out.new) (string_bytes refused.now.text) }
    ensures wrong { refused.now.kind ≡ RefusalKind.Wrong → SentSome (E.contents err.old) (E.contents err.new) (string_bytes refused.now.text) }
{
    match refused.kind {
        RefusalKind::Help => print(out, &refused.text),
        RefusalKind::Wrong => print(err, &refused.text),
        RefusalKind::Memory => tell(ConsoleFault::NoMemory, err),
    }
    refused.kind.status()
}

/// Tells why the words of the command line could not be had, and answers the program's status: 3 where there was no memory for them, else 2. A fault of the
/// stream is passed over.
pub fn refuse_unread_words<E: Write>(kind: ErrorKind, err: &mut E) -> u8
    ensures memory { kind ≡ ErrorKind.OutOfMemory → result ≡ 3 }
    ensures wrong { kind ≢ ErrorKind.OutOfMemory → result ≡ 2 }
{
    if kind == ErrorKind::OutOfMemory {
        tell(ConsoleFault::NoMemory, err);
    } else {
        let _ = send_unread_words(err);
    }
    unread_words_status(kind, NO_MEMORY)
}

/// Runs the program over the words of its command line (see [`arguments_of`]), and answers its status: 0 where all went well; 1 where the kernel answered an
/// error or a refusal; 2 where the words or the connection file are wrong; 3 where the kernel can't be reached or breaks off, or there is no memory.
/// What came of it goes to `out`; why nothing came goes to `err`. A fault of these two is passed over.
pub fn console<'a, R, S: AsStr, W: Write, E: Write>(
    rt: &R,
    alloc: Global,
    words: &'a [S],
    out: &mut W,
    err: &mut E,
) -> u8
where
    R: Net<Listener = TcpListener, Stream = TcpStream> + Files,
{
    match arguments_of(alloc, words) {
        Ok(arguments) => end(run(rt, alloc, arguments), out, err),
        Err(refused) => refuse(&refused, out, err),
    }
}
