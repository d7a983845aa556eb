//! The acceptor of a socket: it accepts connections, and has others make room where all places are taken.
use crate::decisions::entrance::Stuck;
use crate::decisions::places::{Place, places_of};
use crate::decisions::sockets::stays;
use crate::decisions::times::Times;
use crate::streams::clock::milliseconds;
use crate::threads::door::Door;
use crate::threads::listeners::Listeners;
use crate::threads::service::Service;
use kernel_desk::{HistoryName, Socket};
use kernel_sockets::{Connections, Listener, Ping};
use kernel_watch::ping;
use std::net::TcpStream;
use std::sync::Wait;
use std::sync::ledger::Ledger;
use std::thread;
use std::time::{Clock, Duration};

/// How long the acceptor rests where no connection could be accepted.
const REST_MILLISECONDS: u64 = 20;

/// How long a connection waits for a place before a further one has to make room.
const WAIT_MILLISECONDS: u64 = 10;

/// The next connection of a socket, with its number. `None` where none could be accepted, after a rest: no descriptor may be free for
/// a while, and the acceptor is not to spin.
fn accept<W: Ledger, L: HistoryName, S: Ledger, R: Wait + Clock>(
    rt: &R,
    service: &Service<W, L, S>,
    listener: &Listener,
) -> Option<(TcpStream, u64)> {
    let Ok(stream) = listener.accept(service.limits.times.message) else {
        if !service.ending.is_set() {
            thread::sleep(rt, Duration::from_millis(REST_MILLISECONDS));
        }
        return None;
    };
    let number = service.number(rt)?;
    Some((stream, number))
}

/// Relieves a place of shell of an orphan, if there is one, and lets one more connection in then. Whether it does. On the other sockets nothing waits for a
/// cell.
fn relieve<R: Wait>(
    rt: &R,
    connections: &Connections,
    listeners: &Listeners,
    door: &Door,
    socket: Socket,
) -> bool {
    if socket != Socket::Shell {
        return false;
    }
    let mut hangups = listeners.hangups.lock(rt);
    let first = Place::first(socket).index;
    let is_relieved = connections.relieve(rt, &mut *hangups, first, places_of(socket));
    drop(hangups);
    if is_relieved {
        door.admit(rt);
    }
    is_relieved
}

/// Has a connection make room, if one has to, or pings a peer that has been silent for long.
fn make_room<R: Wait + Clock>(rt: &R, connections: &Connections, socket: Socket, times: Times) {
    let (first, count) = (Place::first(socket).index, places_of(socket));
    let octets = ping();
    let ping = Ping {
        octets: octets.as_slice(),
        message: times.message,
    };
    let now = milliseconds(rt);
    connections.make_room(rt, first, count, stays(socket, times), now, ping);
}

/// Has one connection make room for the one that was seen to wait in vain: an orphan, if there is one, and else one whose time is over.
fn give_way<R: Wait + Clock>(
    rt: &R,
    connections: &Connections,
    listeners: &Listeners,
    door: &Door,
    socket: Socket,
    times: Times,
    _seen: Stuck,
) {
    if !relieve(rt, connections, listeners, door, socket) {
        make_room(rt, connections, socket, times);
    }
}

/// Has connections make room, one after another, until a place of the socket has taken the one that waits at the door. Before each it is seen that the one
/// that waits does so in vain.
fn see_in<R: Wait + Clock>(
    rt: &R,
    connections: &Connections,
    listeners: &Listeners,
    door: &Door,
    socket: Socket,
    times: Times,
    seen: Stuck,
) {
    give_way(rt, connections, listeners, door, socket, times, seen);
    for _ in rt.forever() {
        if door.wait_until_free(rt, Duration::from_millis(WAIT_MILLISECONDS)) {
            return;
        }
        if let Some(seen) = door.stuck(rt) {
            give_way(rt, connections, listeners, door, socket, times, seen);
        }
    }
}

/// Accepts the connections of a socket until all is to end, and then closes its door. No connection is accepted before all threads stand.
pub(crate) fn accept_all<W: Ledger, L: HistoryName, S: Ledger, R: Wait + Clock>(
    rt: &R,
    service: &Service<W, L, S>,
    listeners: &Listeners,
    socket: Socket,
) {
    let door = service.doors.of(socket);
    service.started.wait(rt);
    for _ in rt.forever() {
        if service.ending.is_set() {
            break;
        }
        if let Some((stream, number)) = accept(rt, service, listeners.of(socket)) {
            if let Some(seen) = door.offer(rt, stream, number) {
                let connections = service.connections(socket);
                let times = service.limits.times;
                see_in(rt, connections, listeners, door, socket, times, seen);
            }
        }
    }
    door.close(rt);
}
