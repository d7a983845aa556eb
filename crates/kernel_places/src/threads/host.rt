//! What a place serves its connections with.
ghost use Rattle.std.specs.Prelude.{◌≡◌, IsTrue, false};
ghost use Rattle.kernel_desk.specs.HallDesk.{DeskState};

use crate::decisions::places::Place;
use crate::streams::reader::TimedReader;
use crate::streams::witness::Witness;
use crate::streams::writer::TimedWriter;
use crate::threads::runtime::Runtime;
use crate::threads::service::Service;
use kernel_desk::{Desk, HallDesk, HistoryName, QuietDesk, Socket, serve};
use kernel_iopub::serve_subscriber;
use kernel_sockets::{Allowance, ConnectionInput};
use std::net::TcpStream;
use std::sync::Wait;
use std::sync::ledger::Ledger;
use std::time::Clock;

/// What a place serves its connections with, one after another.
#[derive(Drop)]
pub(crate) enum Host<'a, W: Ledger, L: HistoryName, R: Wait + Clock> {
    /// A desk before the hall: on shell and control.
    Desk(HallDesk<'a, W, L, R>),
    /// Nothing is asked of the kernel: on stdin and heartbeat.
    Quiet,
    /// The board: on iopub.
    Board,
}

/// Serves a connection that was let in, to its end. The allowance of the place is given back.
fn converse<W: Ledger, L: HistoryName, S: Ledger, D: Desk, R: Wait + Clock>(
    rt: &R,
    service: &Service<W, L, S>,
    desk: &mut D,
    place: Place,
    stream: &TcpStream,
    number: u64,
    allowance: Allowance<S>,
) -> Allowance<S> {
    let Ok(mut stamp) = service.stamp(number) else {
        return allowance;
    };
    let Some(presence) = service.callers.presence(place.index) else {
        return allowance;
    };
    let input = ConnectionInput::new(stream, &service.callers);
    let mut reader = TimedReader::new(
        rt,
        stream,
        input,
        presence,
        place.socket,
        service.limits,
        &service.strangers,
        allowance,
    );
    let mut writer = TimedWriter::new(rt, stream, presence, place.socket, service.limits.times);
    let mut witness = Witness::new(rt, presence);
    let _ = serve(
        service.alloc,
        place.socket,
        &service.key,
        &mut reader,
        &mut writer,
        desk,
        &mut witness,
        &mut stamp,
    );
    reader.end()
}

/// Serves a subscriber that was let in, to its end. The allowance of the place is given back.
fn supply<W: Ledger, L: HistoryName, S: Ledger, R: Runtime>(
    rt: &R,
    service: &Service<W, L, S>,
    index: usize,
    stream: &TcpStream,
    allowance: Allowance<S>,
) -> Allowance<S> {
    let Some(presence) = service.subscribers.presence(index) else {
        return allowance;
    };
    let Some(signals) = service.bulletin.signals(index) else {
        return allowance;
    };
    let input = ConnectionInput::new(stream, &service.subscribers);
    let mut reader = TimedReader::new(
        rt,
        stream,
        input,
        presence,
        Socket::Iopub,
        service.limits,
        &service.strangers,
        allowance,
    );
    let writer = TimedWriter::new(rt, stream, presence, Socket::Iopub, service.limits.times);
    let mut hearing = Witness::new(rt, presence);
    let speaking = Witness::new(rt, presence);
    let _ = serve_subscriber(
        rt,
        service.alloc,
        &service.bulletin,
        signals,
        &mut reader,
        writer,
        &mut hearing,
        speaking,
    );
    reader.end()
}

impl<W: Ledger, L: HistoryName, R: Runtime> Host<'_, W, L, R> {
    /// Serves a connection that was let in, to its end. The allowance of the place is given back.
    pub fn serve<S: Ledger>(
        &mut self,
        rt: &R,
        service: &Service<W, L, S>,
        place: Place,
        stream: &TcpStream,
        number: u64,
        allowance: Allowance<S>,
    ) -> Allowance<S> {
        match self {
            Host::Desk(desk) => converse(rt, service, desk, place, stream, number, allowance),
            Host::Quiet => {
                let mut desk = QuietDesk;
                converse(rt, service, &mut desk, place, stream, number, allowance)
            }
            Host::Board => supply(rt, service, place.index, stream, allowance),
        }
    }

    /// Whether a shutdown came to it: to its desk, if it has one.
    pub fn was_shut(&self) -> bool
        ensures desk { (desk : DeskState) → self.now ≡ Host.Desk desk → result ≡ desk.was_shut }
        ensures quiet { self.now ≡ Host.Quiet → result ≡ false }
        ensures board { self.now ≡ Host.Board → result ≡ false }
    {
        match self {
            Host::Desk(desk) => desk.was_shut(),
            Host::Quiet | Host::Board => false,
        }
    }
}
