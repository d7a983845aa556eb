//! The places of the sockets, at each of which one connection is served after another.
use crate::decisions::places::Place;
use crate::streams::clock::milliseconds;
use crate::threads::host::Host;
use crate::threads::runtime::Runtime;
use crate::threads::service::Service;
use kernel_desk::HistoryName;
use kernel_sockets::{Allowance, Stream};
use std::alloc::Global;
use std::net::TcpStream;
use std::sync::Arc;
use std::sync::ledger::Ledger;

/// Shares a stream between its place and the register; the two handles.
fn share(alloc: Global, stream: TcpStream) -> Option<(Stream, Stream)> {
    let stream = Arc::new(alloc, stream).ok()?;
    let shared = Arc::try_clone(&stream).ok()?;
    Some((stream, shared))
}

/// Takes a connection in, serves it and sees it out. The allowance of the place is given back, and whether the place was relieved of the connection.
fn receive<W: Ledger, L: HistoryName, S: Ledger, R: Runtime>(
    rt: &R,
    service: &Service<W, L, S>,
    host: &mut Host<'_, W, L, R>,
    place: Place,
    stream: TcpStream,
    number: u64,
    allowance: Allowance<S>,
) -> (Allowance<S>, bool) {
    let Some((stream, shared)) = share(service.alloc, stream) else {
        return (allowance, false);
    };
    let connections = service.connections(place.socket);
    if !connections.enter(rt, place.index, shared, milliseconds(rt)) {
        return (allowance, false);
    }
    let allowance = host.serve(rt, service, place, &stream, number, allowance);
    let was_relieved = connections.leave(rt, place.index);
    (allowance, was_relieved)
}

/// Serves the connection that was taken from the door to its end, and comes back to the door. The next one may be let in then, unless the place was relieved
/// of this one: then another one was let in before. The allowance of the place is given back.
fn attend_to<W: Ledger, L: HistoryName, S: Ledger, R: Runtime>(
    rt: &R,
    service: &Service<W, L, S>,
    host: &mut Host<'_, W, L, R>,
    place: Place,
    stream: TcpStream,
    number: u64,
    allowance: Allowance<S>,
) -> Allowance<S> {
    let (allowance, was_relieved) = receive(rt, service, host, place, stream, number, allowance);
    service.doors.of(place.socket).come_back(rt, was_relieved);
    allowance
}

/// A place of a socket: it serves connections until all is to end, and says so itself once a shutdown came to it.
pub(crate) fn attend<W: Ledger, L: HistoryName, S: Ledger, R: Runtime>(
    rt: &R,
    service: &Service<W, L, S>,
    place: Place,
    mut host: Host<'_, W, L, R>,
) {
    let door = service.doors.of(place.socket);
    let Some(mut allowance) = service.strangers.allowance(rt) else {
        return;
    };
    for _ in rt.forever() {
        let Some((stream, number)) = door.take(rt) else {
            break;
        };
        allowance = attend_to(rt, service, &mut host, place, stream, number, allowance);
        if host.was_shut() {
            service.ending.set(rt);
        }
    }
}
