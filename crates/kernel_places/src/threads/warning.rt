//! What people are told before a limit is met at which all work ends.
use crate::decisions::limits::is_near;
use crate::threads::service::Service;
use kernel_desk::{Ask, Content, HistoryName, Pass};
use std::io::Write;
use std::sync::Wait;
use std::sync::ledger::Ledger;
use std::time::{Clock, Duration};

/// Which of the two was told: each is told once.
#[derive(Clone, Copy)]
struct Told {
    nodes: bool,
    minutes: bool,
}

/// Tells that a history is nearly full of so many nodes. A fault of the stream is passed over.
fn tell_nodes<E: Write>(err: &mut E, most: usize) {
    let _ = writeln!(
        err,
        "janus-kernel: nine tenths of the {most} nodes of its history are used: save the session with janus-save-session, and start another kernel"
    );
    let _ = err.flush();
}

/// Tells that nearly all of so many minutes are there, of which each job takes two. A fault of the stream is passed over.
fn tell_minutes<E: Write>(err: &mut E, most: usize) {
    let _ = writeln!(
        err,
        "janus-kernel: nine tenths of the {} jobs that it can do are done: save the session with janus-save-session, and start another kernel",
        most / 2
    );
    let _ = err.flush();
}

/// Tells what is near now and was not told yet. Where the kernel finds no memory to answer, nothing is told this time.
fn tell_near<W: Ledger, L: HistoryName, S: Ledger, R: Wait, E: Write>(
    rt: &R,
    service: &Service<W, L, S>,
    pass: &mut Pass<L>,
    told: Told,
    err: &mut E,
) -> Told {
    let Ok(answer) = service.hall.ask(rt, pass, Ask::State) else {
        return told;
    };
    let seen = answer.seen;
    let Content::State(state) = answer.content else {
        return told;
    };
    let is_full_of_nodes = is_near(state.nodes, service.limits.nodes);
    let is_full_of_minutes = is_near(seen, service.limits.minutes);
    if is_full_of_nodes && !told.nodes {
        tell_nodes(err, service.limits.nodes);
    }
    if is_full_of_minutes && !told.minutes {
        tell_minutes(err, service.limits.minutes);
    }
    Told {
        nodes: is_full_of_nodes || told.nodes,
        minutes: is_full_of_minutes || told.minutes,
    }
}

/// Waits until all is to end, and tells meanwhile, once each, that nine tenths of the nodes or of the minutes are used.
pub(crate) fn tell_until_end<W: Ledger, L: HistoryName, S: Ledger, R: Wait + Clock, E: Write>(
    rt: &R,
    service: &Service<W, L, S>,
    mut pass: Pass<L>,
    err: &mut E,
) {
    let mut told = Told {
        nodes: false,
        minutes: false,
    };
    for _ in rt.forever() {
        if service
            .ending
            .wait_for(rt, Duration::from_millis(service.limits.times.pause))
        {
            return;
        }
        if !told.nodes || !told.minutes {
            told = tell_near(rt, service, &mut pass, told, err);
        }
    }
}
