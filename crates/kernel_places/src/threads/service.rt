//! What all places share.
ghost use Rattle.std.specs.Prelude.{◌≡◌, ◌≤◌, ◌<◌, ◌^◌, IfOk, IfSome, string_bytes};
ghost use Rattle.kernel_places.specs.declared.decisions.places.TheConstants.{ALL_PLACES};

use crate::decisions::limits::Limits;
use crate::decisions::places::{ALL_PLACES, CALLED_PLACES, PLACES};
use crate::threads::door::Doors;
use crate::threads::latch::Latch;
use jupyter_msg::Key;
use kernel_desk::{Hall, HistoryName, Socket};
use kernel_iopub::Bulletin;
use kernel_message::Stamp;
use kernel_sockets::{Connections, Strangers};
use std::alloc::{AllocError, Global};
use std::sync::ledger::{Blank, Ledger};
use std::sync::{Mutex, Wait};

/// The date of a message before a desk has set one.
const NO_DATE: [u8; 20] = *b"1970-01-01T00:00:00Z";

/// What all places share.
#[derive(Drop)]
pub struct Service<W: Ledger, L: HistoryName, S: Ledger> {
    pub(crate) alloc: Global,
    pub(crate) session: String,
    pub(crate) key: Key,
    pub(crate) hall: Hall<W, L>,
    pub(crate) limits: Limits,
    pub(crate) bulletin: Bulletin,
    /// The connections of shell, control, stdin and heartbeat.
    pub(crate) callers: Connections,
    /// Those of iopub.
    pub(crate) subscribers: Connections,
    /// What all who did not show the key hold together.
    pub(crate) strangers: Strangers<S>,
    /// Where connections that were accepted wait for a place.
    pub(crate) doors: Doors,
    /// All threads stand, or all is to come to an end.
    pub(crate) started: Latch,
    /// All is to come to an end.
    pub(crate) ending: Latch,
    /// The worker has come to its end, or there is none.
    pub(crate) rested: Latch,
    /// The number of the connection that was accepted last.
    last: Mutex<u64>,
}

/// A board with nothing on it, and no connections, of callers and of subscribers.
fn shared(alloc: Global) -> Result<(Bulletin, Connections, Connections), AllocError> {
    let bulletin = Bulletin::new(alloc, PLACES)?;
    let callers = Connections::new(alloc, CALLED_PLACES)?;
    let subscribers = Connections::new(alloc, PLACES)?;
    Ok((bulletin, callers, subscribers))
}

impl<W: Ledger, L: HistoryName, S: Ledger> Service<W, L, S> {
    /// What the places of a kernel share, before any of them is started: its session's name, the key under which messages are signed, and
    /// its hall; with what connections have, and the ledger of what strangers hold.
    ///
    /// # Errors
    ///
    /// `AllocError` where there is no memory.
    pub fn new(
        alloc: Global,
        session: String,
        key: Key,
        hall: Hall<W, L>,
        limits: Limits,
        strangers: Blank,
    ) -> Result<Service<W, L, S>, AllocError>
        requires name { strangers.name ≡ S.name }
        requires parts { (strangers.parts ≡ S.parts) × (strangers.parts ≡ ALL_PLACES) }
        ensures hall { IfOk result (λ s. s.hall ≡ hall) }
        ensures session { IfOk result (λ s. s.session ≡ session) }
    {
        match shared(alloc) {
            Ok((bulletin, callers, subscribers)) => Ok(Service {
                alloc,
                session,
                key,
                hall,
                limits,
                bulletin,
                callers,
                subscribers,
                strangers: Strangers::new(strangers, ALL_PLACES, limits.common),
                doors: Doors::new(limits.places.min(PLACES)),
                started: Latch::new(),
                ending: Latch::new(),
                rested: Latch::new(),
                last: Mutex::new(0),
            }),
            Err(fault) => {
                hall.discard();
                Err(fault)
            }
        }
    }

    /// Lets all of it go, once no place is served any longer.
    pub fn discard(self) {
        let Service { hall, .. } = self;
        hall.discard();
    }

    /// The connections among which those of a socket are.
    pub(crate) fn connections(&self, socket: Socket) -> &Connections {
        match socket {
            Socket::Iopub => &self.subscribers,
            Socket::Shell | Socket::Control | Socket::Stdin | Socket::Heartbeat => &self.callers,
        }
    }

    /// The number of the next connection: from 1 on, and none after the last.
    pub fn number<R: Wait>(&self, rt: &R) -> Option<u64>
        ensures { IfSome result (λ n. 1 ≤ n) }
    {
        let mut last = self.last.lock(rt);
        if *last == u64::MAX {
            return None;
        }
        *last += 1;
        Some(*last)
    }

    /// What is stamped on the messages of a connection, before its desk has set the date.
    pub fn stamp(&self, connection: u64) -> Result<Stamp, AllocError>
        ensures session { IfOk result (λ s. string_bytes s.session ≡ string_bytes self.now.session) }
        ensures connection { IfOk result (λ s. s.connection ≡ connection) }
        ensures next { IfOk result (λ s. s.next ≡ 0) }
    {
        Ok(Stamp {
            session: self.session.clone()?,
            connection,
            next: 0,
            date: NO_DATE,
        })
    }
}
