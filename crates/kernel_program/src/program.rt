//! The program over the words of its command line.
ghost use Rattle.std.specs.Prelude.{◌≡◌, ◌≢◌, ◌<◌, IfOk, All};
ghost use Rattle.clap.specs.Values.{kind_of};
ghost use Rattle.program_words.specs.Status.{status_of};
ghost use Rattle.kernel_places.specs.limit.TheConstants.{PARTS_OF_POSTS};

use crate::fault::ProgramFault;
use crate::opening::{connection_of, listeners_of, tell_readers};
use crate::words::file_of;
use clap::Error;
use clap::error::ErrorKind as ClapErrorKind;
use jupyter_msg::Key;
use kernel_bell::Bell;
use kernel_places::{
    ALL_PLACES, DESKS, Entry, Hall, HistoryName, Kernel, Limits, Listeners, NewHistory, Note,
    PARTS_OF_POSTS, Passes, Seats, Service, serve_all,
};
use program_words::{send_unread_words, unread_words_status, words_status};
use rand::make_rng;
use rand::rngs::StdRng;
use stamp_texts::session_name;
use std::alloc::{AllocError, Global};
use std::convert::AsStr;
use std::io::{ErrorKind, Write};
use std::marker::Brand;
use std::net::{Net, TcpListener, TcpStream};
use std::random::RandomSource;
use std::rt::Files;
use std::sync::Wait;
use std::sync::ledger::{Blank, Ledger};
use std::thread::Threads;
use std::time::Clock;

/// The status of a program that was shut down, or told its help or its version.
const DONE: u8 = 0;

/// The name of the kernel's session, drawn from the system's random numbers.
fn new_session<R: RandomSource>(rt: &R, alloc: Global) -> Result<String, ProgramFault> {
    let Ok(made) = make_rng::<StdRng, R>(rt) else {
        return Err(ProgramFault::Memory);
    };
    let mut rng = made;
    Ok(session_name(alloc, &mut rng)?)
}

/// A hall round a new kernel, with this bell, and the passes that it is to give.
fn new_hall<W: Ledger, L: HistoryName>(
    alloc: Global,
    writes: Blank,
    posts: Blank,
    history: NewHistory<Entry>,
    notes: NewHistory<Note>,
    bell: Bell,
) -> Result<(Hall<W, L>, Passes<L>), AllocError>
    requires writes { (writes.name ≡ W.name) × (writes.parts ≡ W.parts) × (1 < W.parts) }
    requires posts { (posts.name ≡ L.name) × (posts.parts ≡ PARTS_OF_POSTS) × (posts.parts ≡ L.parts) }
    requires history { history ≡ L.history }
    requires notes { notes ≡ L.beside }
    requires bell { bell ≡ L.bell }
    ensures { IfOk result (λ made. made.0 ≡ bell) }
{
    let Ok(kernel) = Kernel::<W>::new(alloc, writes) else {
        return Err(AllocError);
    };
    Ok(Hall::<W, L>::new(alloc, posts, history, notes, kernel, bell))
}

/// Builds a new kernel and all that its places share, with the passes of its hall.
fn new_service<W: Ledger, L: HistoryName, S: Ledger, R: RandomSource>(
    rt: &R,
    alloc: Global,
    writes: Blank,
    posts: Blank,
    history: NewHistory<Entry>,
    notes: NewHistory<Note>,
    bell: Bell,
    strangers: Blank,
    limits: Limits,
    key: Key,
) -> Result<(Service<W, L, S>, Passes<L>), ProgramFault>
    requires writes { (writes.name ≡ W.name) × (writes.parts ≡ W.parts) × (1 < W.parts) }
    requires posts { (posts.name ≡ L.name) × (posts.parts ≡ PARTS_OF_POSTS) × (posts.parts ≡ L.parts) }
    requires history { history ≡ L.history }
    requires notes { notes ≡ L.beside }
    requires bell { bell ≡ L.bell }
    requires strangers { (strangers.name ≡ S.name) × (strangers.parts ≡ S.parts) × (strangers.parts ≡ 192) }
    ensures { IfOk result (λ made. made.0.hall ≡ bell) }
{
    let session = new_session(rt, alloc)?;
    let (hall, passes) = new_hall::<W, L>(alloc, writes, posts, history, notes, bell)?;
    let service = Service::new(alloc, session, key, hall, limits, strangers)?;
    Ok((service, passes))
}

/// Builds a new kernel with this bell and all that its places share, and serves these sockets until a shutdown, at places with these seats of the bell.
fn serve_new_kernel<
    W: Ledger + Send + Sync,
    L: HistoryName + Send + Sync,
    S: Ledger + Send + Sync,
    R,
    O: Write,
    E: Write,
>(
    rt: &R,
    alloc: Global,
    writes: Blank,
    posts: Blank,
    history: NewHistory<Entry>,
    notes: NewHistory<Note>,
    bell: Bell,
    seats: Seats,
    strangers: Blank,
    limits: Limits,
    listeners: &Listeners,
    key: Key,
    out: &mut O,
    err: &mut E,
) -> Result<(), ProgramFault>
where
    R: RandomSource + Threads + Wait + Clock + Sync,
    requires writes { (writes.name ≡ W.name) × (writes.parts ≡ W.parts) × (1 < W.parts) }
    requires posts { (posts.name ≡ L.name) × (posts.parts ≡ PARTS_OF_POSTS) × (posts.parts ≡ L.parts) }
    requires history { history ≡ L.history }
    requires notes { notes ≡ L.beside }
    requires bell { bell ≡ L.bell }
    requires runner { seats.runner.bell ≡ bell }
    requires ringers { All (λ seat. seat.bell ≡ bell) seats.ringers.items }
    requires strangers { (strangers.name ≡ S.name) × (strangers.parts ≡ S.parts) × (strangers.parts ≡ 192) }
{
    let (service, passes) = new_service::<W, L, S, R>(
        rt, alloc, writes, posts, history, notes, bell, strangers, limits, key,
    )?;
    let served = serve_all(rt, &service, listeners, passes, seats, out, err);
    service.discard();
    match served {
        Ok(true) => Ok(()),
        _ => Err(ProgramFault::Memory),
    }
}

/// Tells that other machines can come in, where that is so: what goes over a socket is signed, but not hidden. A fault of the stream is passed over.
fn tell_reach<E: Write>(listeners: &Listeners, ip: &str, err: &mut E) {
    if listeners.shell.is_local() {
        return;
    }
    let _ = writeln!(
        err,
        "janus-kernel: {ip} is no address of the loopback: other machines can connect, and read what goes over the network"
    );
    let _ = err.flush();
}

/// Serves the sockets that a connection file names until a shutdown.
fn serve_file<R, O: Write, E: Write>(
    rt: &R,
    alloc: Global,
    limits: Limits,
    path: &str,
    out: &mut O,
    err: &mut E,
) -> Result<(), ProgramFault>
where
    R: Net<Listener = TcpListener, Stream = TcpStream>
        + Files
        + RandomSource
        + Threads
        + Wait
        + Clock
        + Sync,
{
    let file = connection_of(rt, alloc, path)?;
    tell_readers(rt, path, err);
    let listeners = listeners_of(rt, alloc, &file)?;
    tell_reach(&listeners, &file.ip, err);
    let key = Key::new(file.key.into_bytes());
    let (bell, runner, ringers) = Bell::new(alloc, DESKS)?;
    serve_new_kernel::<Brand, Brand, Brand, R, O, E>(
        rt,
        alloc,
        Blank::new(2),
        Blank::new(PARTS_OF_POSTS),
        NewHistory::new(alloc)?,
        NewHistory::new(alloc)?,
        bell,
        Seats { runner, ringers },
        Blank::new(ALL_PLACES),
        limits,
        &listeners,
        key,
        out,
        err,
    )
}

/// Tells why words run nothing: the help and the version to the output, all else to the errors. A fault of the streams is passed over.
fn refuse_words<O: Write, E: Write>(error: &Error, out: &mut O, err: &mut E) -> u8
    ensures { result ≡ status_of 1 (kind_of error.now) }
{
    let kind = error.kind();
    if kind == ClapErrorKind::OutOfMemory {
        ProgramFault::Memory.tell(err);
    } else if error.use_stderr() {
        let _ = write!(err, "{error}");
        let _ = err.flush();
    } else {
        let _ = write!(out, "{error}");
        let _ = out.flush();
    }
    words_status(kind, ProgramFault::Memory.status())
}

/// Tells why the words of the command line could not be had, and answers the program's status: 1 where there was no memory for them, else 2.
pub fn refuse_unread_words<E: Write>(kind: ErrorKind, err: &mut E) -> u8
    ensures memory { kind ≡ ErrorKind.OutOfMemory → result ≡ 1 }
    ensures wrong { kind ≢ ErrorKind.OutOfMemory → result ≡ 2 }
{
    if kind == ErrorKind::OutOfMemory {
        ProgramFault::Memory.tell(err);
    } else {
        let _ = send_unread_words(err);
    }
    unread_words_status(kind, ProgramFault::Memory.status())
}

/// The program `janus-kernel`, over what connections have, the words of its command line, of which the first is its name, and its two output
/// streams: it serves the sockets of the connection file until a shutdown, and answers its status. 0 after a shutdown, for help and for the version;
/// 2 for wrong words or a wrong connection file, 3 where a socket can't be bound, 1 where there is no memory at the start, each with a line to the
/// errors. A line there also tells that the sockets are not of the loopback, and one that other users can read the connection file. A fault of the two
/// streams is passed over.
pub fn kernel_main<R, S: AsStr, O: Write, E: Write>(
    rt: &R,
    alloc: Global,
    limits: Limits,
    words: &[S],
    out: &mut O,
    err: &mut E,
) -> u8
where
    R: Net<Listener = TcpListener, Stream = TcpStream>
        + Files
        + RandomSource
        + Threads
        + Wait
        + Clock
        + Sync,
{
    let path = match file_of(alloc, words) {
        Ok(path) => path,
        Err(error) => return refuse_words(&error, out, err),
    };
    match serve_file(rt, alloc, limits, path, out, err) {
        Ok(()) => DONE,
        Err(fault) => {
            fault.tell(err);
            fault.status()
        }
    }
}
