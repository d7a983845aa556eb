//! A watcher that takes down what it is told, and how many octets had gone out by then.
use kernel_server::{Notice, Watcher};
use std::alloc::Global;
use std::sync::atomic::{AtomicUsize, Ordering};
use tests_rows::Sheet;

/// Takes each notice down, in a line of its own.
#[derive(Drop)]
pub(crate) struct Notebook<'a> {
    pub notices: Sheet,
    written: &'a AtomicUsize,
}

impl<'a> Notebook<'a> {
    /// A notebook in which nothing stands, of a connection on which so many octets have gone out.
    pub(crate) fn new(alloc: Global, written: &'a AtomicUsize) -> Notebook<'a> {
        Notebook {
            notices: Sheet::new(alloc),
            written,
        }
    }
}

impl Watcher for Notebook<'_> {
    fn tell(&mut self, notice: Notice) {
        let octets = self.written.load(Ordering::SeqCst);
        self.notices.write("\n  told: ");
        self.notices.show(&(notice, octets));
    }
}
