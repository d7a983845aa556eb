//! What the threads of the places do.
use crate::decisions::places::Place;
use crate::threads::acceptor::accept_all;
use crate::threads::attending::attend;
use crate::threads::host::Host;
use crate::threads::listeners::Listeners;
use crate::threads::runtime::Runtime;
use crate::threads::service::Service;
use kernel_desk::{HistoryName, Socket};
use std::sync::Wait;
use std::sync::ledger::Ledger;
use std::time::Clock;

/// What a thread does until all is to end.
#[derive(Drop)]
pub(crate) enum Task<'a, W: Ledger, L: HistoryName, R: Wait + Clock> {
    /// Serves the connections of a place.
    Attend(Place, Host<'a, W, L, R>),
    /// Lets the connections of a socket in.
    LetIn(Socket),
}

impl<W: Ledger, L: HistoryName, R: Runtime> Task<'_, W, L, R> {
    /// Runs the task to its end.
    pub fn run<S: Ledger>(self, rt: &R, service: &Service<W, L, S>, listeners: &Listeners) {
        match self {
            Task::Attend(place, host) => attend(rt, service, place, host),
            Task::LetIn(socket) => accept_all(rt, service, listeners, socket),
        }
    }
}
