//! How the threads are started, and how they come to an end.
ghost use Rattle.std.specs.Prelude.{◌≡◌, All};

use crate::decisions::places::{Place, places_of};
use crate::threads::host::Host;
use crate::threads::listeners::Listeners;
use crate::threads::runtime::Runtime;
use crate::threads::service::Service;
use crate::threads::task::Task;
use crate::threads::warning::tell_until_end;
use crate::threads::worker::Worker;
use kernel_bell::{RingerSeat, RunnerSeat};
use kernel_desk::{HallDesk, HistoryName, Pass, Passes, Socket};
use kernel_sockets::Connections;
use std::alloc::AllocError;
use std::io::Write;
use std::net::Shutdown;
use std::sync::Wait;
use std::sync::ledger::Ledger;
use std::thread;
use std::thread::Scope;
use std::time::{Clock, Duration};

/// The seats of a hall's bell: that of the worker, and one for each place of shell and control.
#[derive(Drop)]
pub struct Seats {
    pub runner: RunnerSeat,
    pub ringers: Vec<RingerSeat>,
}

/// The desks of the places of shell and control, as many as there are seats.
fn desks_of<'a, W: Ledger, L: HistoryName, S: Ledger, R: Wait + Clock>(
    rt: &'a R,
    service: &'a Service<W, L, S>,
    passes: &mut Passes<L>,
    seats: Vec<RingerSeat>,
) -> Result<Vec<HallDesk<'a, W, L, R>>, AllocError>
    requires { All (λ seat. seat.bell ≡ service.now.hall) seats.items }
{
    let mut desks = Vec::with_capacity(service.alloc, seats.len())?;
    for seat in seats {
        let Ok(pass) = service.hall.pass(rt, passes) else {
            return Err(AllocError);
        };
        desks.push(HallDesk::new(rt, &service.hall, &service.bulletin, pass, seat))?;
    }
    Ok(desks)
}

/// Starts a thread that does this task. False where it could not be made.
fn start<
    's,
    E,
    W: Ledger + Send + Sync,
    L: HistoryName + Send + Sync,
    S: Ledger + Send + Sync,
    R: Runtime,
>(
    scope: &Scope<'s, E>,
    rt: &'s R,
    service: &'s Service<W, L, S>,
    listeners: &'s Listeners,
    task: Task<'s, W, L, R>,
) -> bool {
    scope
        .spawn(move || task.run(rt, service, listeners))
        .is_ok()
}

/// What the next place of a socket serves its connections with; one of these desks on shell and control, and `None` where none is left.
fn host_of<'a, W: Ledger, L: HistoryName, R: Runtime>(
    socket: Socket,
    desks: &mut Vec<HallDesk<'a, W, L, R>>,
) -> Option<Host<'a, W, L, R>> {
    match socket {
        Socket::Shell | Socket::Control => Some(Host::Desk(desks.pop()?)),
        Socket::Stdin | Socket::Heartbeat => Some(Host::Quiet),
        Socket::Iopub => Some(Host::Board),
    }
}

/// Starts the places of a socket, with desks of these where it has any. False where a thread could not be made.
fn start_places<
    's,
    E,
    W: Ledger + Send + Sync,
    L: HistoryName + Send + Sync,
    S: Ledger + Send + Sync,
    R: Runtime,
>(
    scope: &Scope<'s, E>,
    rt: &'s R,
    service: &'s Service<W, L, S>,
    listeners: &'s Listeners,
    socket: Socket,
    desks: &mut Vec<HallDesk<'s, W, L, R>>,
) -> bool {
    for at in 0..places_of(socket) {
        let Some(host) = host_of(socket, desks) else {
            return false;
        };
        let task = Task::Attend(Place::first(socket).behind(at), host);
        if !start(scope, rt, service, listeners, task) {
            return false;
        }
    }
    true
}

/// Starts the places of iopub, none of which has a desk. False where a thread could not be made.
fn start_subscribed<
    's,
    E,
    W: Ledger + Send + Sync,
    L: HistoryName + Send + Sync,
    S: Ledger + Send + Sync,
    R: Runtime,
>(
    scope: &Scope<'s, E>,
    rt: &'s R,
    service: &'s Service<W, L, S>,
    listeners: &'s Listeners,
) -> bool {
    let mut none: Vec<HallDesk<'s, W, L, R>> = Vec::new(service.alloc);
    start_places(scope, rt, service, listeners, Socket::Iopub, &mut none)
}

/// Starts the worker. False where its thread could not be made; then there is none that has to come to its end.
fn start_worker<
    's,
    E,
    W: Ledger + Send + Sync,
    L: HistoryName + Send + Sync,
    S: Ledger + Send + Sync,
    R: Runtime,
>(
    scope: &Scope<'s, E>,
    rt: &'s R,
    service: &'s Service<W, L, S>,
    worker: Worker<'s, W, L>,
) -> bool {
    if scope
        .spawn(move || worker.run(rt, &service.rested))
        .is_err()
    {
        service.rested.set(rt);
        return false;
    }
    true
}

/// Starts the acceptors of all sockets. False where a thread could not be made.
fn start_acceptors<
    's,
    E,
    W: Ledger + Send + Sync,
    L: HistoryName + Send + Sync,
    S: Ledger + Send + Sync,
    R: Runtime,
>(
    scope: &Scope<'s, E>,
    rt: &'s R,
    service: &'s Service<W, L, S>,
    listeners: &'s Listeners,
) -> bool {
    let sockets = [
        Socket::Shell,
        Socket::Control,
        Socket::Iopub,
        Socket::Stdin,
        Socket::Heartbeat,
    ];
    for socket in sockets.iter() {
        if !start(scope, rt, service, listeners, Task::LetIn(*socket)) {
            return false;
        }
    }
    true
}

/// Starts the worker and all places on which something comes. False where a thread could not be made.
fn start_all<
    's,
    E,
    W: Ledger + Send + Sync,
    L: HistoryName + Send + Sync,
    S: Ledger + Send + Sync,
    R: Runtime,
>(
    scope: &Scope<'s, E>,
    rt: &'s R,
    service: &'s Service<W, L, S>,
    listeners: &'s Listeners,
    worker: Worker<'s, W, L>,
    desks: Vec<HallDesk<'s, W, L, R>>,
) -> bool {
    let mut desks = desks;
    start_worker(scope, rt, service, worker)
        && start_places(scope, rt, service, listeners, Socket::Shell, &mut desks)
        && start_places(scope, rt, service, listeners, Socket::Control, &mut desks)
        && start_places(scope, rt, service, listeners, Socket::Stdin, &mut desks)
        && start_places(scope, rt, service, listeners, Socket::Heartbeat, &mut desks)
        && start_acceptors(scope, rt, service, listeners)
}

/// Tells that all is ready. A fault of the stream is passed over.
fn tell_ready<O: Write>(out: &mut O) {
    let _ = writeln!(out, "ready");
    let _ = out.flush();
}

/// Tells all places and the worker that all is to come to an end, and lets no more connections in. What comes on those that are served comes to its end.
fn end_all<W: Ledger, L: HistoryName, S: Ledger, R: Wait>(
    rt: &R,
    service: &Service<W, L, S>,
    listeners: &Listeners,
    passes: &Passes<L>,
) {
    service.ending.set(rt);
    service.started.set(rt);
    service.hall.shut(rt, passes);
    listeners.close();
    service.doors.close(rt);
    service.callers.close(rt, Shutdown::Read);
}

/// Waits until these connections have come to their end, or for their grace in milliseconds, and ends those that are left.
fn see_out<R: Wait + Clock>(rt: &R, connections: &Connections, grace: u64) {
    connections.wait_until_empty(rt, Duration::from_millis(grace));
    connections.close(rt, Shutdown::Both);
}

/// Brings the subscribers to an end, behind what was published last.
fn end_subscribers<W: Ledger, L: HistoryName, S: Ledger, R: Wait + Clock>(
    rt: &R,
    service: &Service<W, L, S>,
) {
    service.subscribers.close(rt, Shutdown::Read);
    service.bulletin.wake_all();
    see_out(rt, &service.subscribers, service.limits.times.grace);
}

/// Serves requests until a shutdown was answered, and brings all that serve them to an end. With the pass of a watcher it tells meanwhile which limits
/// are near. False where a thread could not be made.
fn serve_callers<
    W: Ledger + Send + Sync,
    L: HistoryName + Send + Sync,
    S: Ledger + Send + Sync,
    R: Runtime,
    O: Write,
    E: Write,
>(
    rt: &R,
    service: &Service<W, L, S>,
    listeners: &Listeners,
    worker: Worker<'_, W, L>,
    desks: Vec<HallDesk<'_, W, L, R>>,
    watcher: Pass<L>,
    passes: &Passes<L>,
    out: &mut O,
    err: &mut E,
) -> bool {
    thread::scope(thread::scope_env(), rt, |scope| {
        let is_started = start_all(scope, rt, service, listeners, worker, desks);
        if is_started {
            service.started.set(rt);
            tell_ready(out);
            tell_until_end(rt, service, watcher, err);
        }
        end_all(rt, service, listeners, passes);
        service.rested.wait(rt);
        see_out(rt, &service.callers, service.limits.times.grace);
        is_started
    })
}

/// Serves all connections of these sockets until a shutdown was answered, with passes that were made with the hall, brings all threads to an end and joins
/// them. Once all are started it writes the line `ready`, and to the errors a line for each limit of which nine tenths are used. False where a thread could
/// not be made, after all those that were have ended.
///
/// # Errors
///
/// `AllocError` where there is no memory before the first thread, or where the hall has no passes left for its places.
pub fn serve_all<
    W: Ledger + Send + Sync,
    L: HistoryName + Send + Sync,
    S: Ledger + Send + Sync,
    R: Runtime,
    O: Write,
    E: Write,
>(
    rt: &R,
    service: &Service<W, L, S>,
    listeners: &Listeners,
    mut passes: Passes<L>,
    seats: Seats,
    out: &mut O,
    err: &mut E,
) -> Result<bool, AllocError>
    requires runner { seats.runner.bell ≡ service.now.hall }
    requires ringers { All (λ seat. seat.bell ≡ service.now.hall) seats.ringers.items }
{
    let Seats { runner, ringers } = seats;
    let desks = desks_of(rt, service, &mut passes, ringers)?;
    let worker = Worker::new(&service.hall, runner);
    let Ok(watcher) = service.hall.pass(rt, &mut passes) else {
        return Err(AllocError);
    };
    let is_started = thread::scope(thread::scope_env(), rt, |scope| {
        let is_started = if start_subscribed(scope, rt, service, listeners) {
            serve_callers(
                rt, service, listeners, worker, desks, watcher, &passes, out, err,
            )
        } else {
            end_all(rt, service, listeners, &passes);
            false
        };
        end_subscribers(rt, service);
        is_started
    });
    Ok(is_started)
}
