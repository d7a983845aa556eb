//! Rows of the open comms: `open` and `close` with an id, `list`, and `fill` with a number of further ids.
use crate::subject::{Subject, show_made, tell_rows};
use kernel_ask::Comms;
use std::alloc::{AllocError, Global};
use tests_rows::{Sheet, cut, number, shown};

/// Makes the calls on comms of which none is open, and writes each with its answer.
pub(crate) fn tell(calls: &str, sheet: &mut Sheet) {
    tell_rows(&mut Comms::new(sheet.alloc()), calls, sheet);
}

impl Subject for Comms {
    fn answer(&mut self, call: &str, sheet: &mut Sheet) {
        let (word, rest) = cut(call);
        match word {
            "open" => show_made(open(self, String::from_str(sheet.alloc(), rest)), sheet),
            "close" => sheet.show(&self.close(rest)),
            "list" => show_made(self.list(), sheet),
            _ => show_made(fill(sheet.alloc(), self, number(rest)), sheet),
        }
    }
}

/// Opens a comm, and tells whether it wasn't open.
fn open(comms: &mut Comms, id: Result<String, AllocError>) -> Result<bool, AllocError> {
    comms.open(id?)
}

/// Opens a number of comms, and tells the first that wasn't opened.
fn fill(alloc: Global, comms: &mut Comms, count: usize) -> Result<Option<usize>, AllocError> {
    for i in 0..count {
        if !open(comms, shown(alloc, &i))? {
            return Ok(Some(i));
        }
    }
    Ok(None)
}
