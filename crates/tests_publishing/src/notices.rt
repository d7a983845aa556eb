//! What the watchers of a subscriber's two halves are told.
use kernel_iopub::{Notice, Watcher};
use std::alloc::Global;
use std::io;
use std::io::{ErrorKind, Write};
use tests_rows::Sheet;

/// Takes each notice down, behind a space.
#[derive(Drop)]
pub(crate) struct Notebook {
    pub notices: Sheet,
}

impl Notebook {
    /// A notebook in which nothing stands.
    pub(crate) fn new(alloc: Global) -> Notebook {
        Notebook {
            notices: Sheet::new(alloc),
        }
    }
}

impl Watcher for Notebook {
    fn tell(&mut self, notice: Notice) {
        self.notices.write(" ");
        self.notices.show(&notice);
    }
}

/// Takes a number of octets, and fails behind them.
#[derive(Drop)]
pub(crate) struct Taking {
    pub left: usize,
}

impl Write for Taking {
    fn write(&mut self, buf: &[u8]) -> io::Result<usize> {
        let count = buf.len().min(self.left);
        if count == 0 {
            return Err(ErrorKind::ConnectionReset.into());
        }
        self.left -= count;
        Ok(count)
    }

    fn flush(&mut self) -> io::Result<()> {
        Ok(())
    }
}
