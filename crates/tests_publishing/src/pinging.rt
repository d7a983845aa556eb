//! A writer whose peer sends something while a message goes out to it.
use kernel_iopub::{Bulletin, Signals, Subscriber, Unwatched, hear};
use std::io;
use std::io::{ErrorKind, Write};
use std::sync::ledger::Ledger;
use std::sync::{Mutex, Wait};

/// What is written to a subscriber that takes an octet at each write, and sends octets once it has a number of them.
#[derive(Drop)]
pub(crate) struct Pinging<'r, 'b, 'i, 'c, 's, L: Ledger, R> {
    pub rt: &'r R,
    pub bulletin: &'b Bulletin,
    pub signals: &'i Signals,
    pub shared: &'c Mutex<Subscriber<L>>,
    pub written: Vec<u8>,
    /// The number of octets that it has as it sends.
    pub at: usize,
    /// What it sends.
    pub sent: &'s [u8],
}

impl<L: Ledger, R: Wait> Write for Pinging<'_, '_, '_, '_, '_, L, R> {
    fn write(&mut self, buf: &[u8]) -> io::Result<usize> {
        if self.written.len() == self.at {
            let mut reader = self.sent;
            let heard = hear(
                self.rt,
                self.bulletin,
                self.signals,
                self.shared,
                &mut reader,
                &mut Unwatched,
            );
            if heard.is_err() {
                return Err(ErrorKind::ConnectionReset.into());
            }
        }
        let count = buf.len().min(1);
        self.written.extend_from_slice(&buf[..count])?;
        Ok(count)
    }

    fn flush(&mut self) -> io::Result<()> {
        Ok(())
    }
}
