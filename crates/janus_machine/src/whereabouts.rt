//! Where a cursor stands in code as it is written.

ghost use Rattle.std.specs.Prelude.{◌≡◌, ◌<◌, length};

use crate::book::Book;
use crate::cursor::Cursor;
use crate::direction::Direction;
use crate::running::running;

/// An open call.
#[derive(Clone, Copy)]
pub struct OpenCall {
    /// The number of its procedure's name.
    pub procedure: usize,
    /// Where the call stands in the row of its caller's code as it is written.
    pub place: usize,
    /// Whether caller and callee face opposite ways.
    pub uncalled: bool,
}

impl Cursor {
    ghost use Rattle.janus_machine.specs.Cursor.{calls_of, direction_of};
    ghost use Rattle.janus_machine.specs.Whereabouts.{IsWrittenAt, IsCallOf, faces_inverse};

    /// How many calls are open.
    pub fn open_calls(&self) -> usize
        ensures { result ≡ length (calls_of self.now) }
    {
        self.calls.len()
    }

    /// The i-th open call, the outermost being 0.
    pub fn open_call(&self, i: usize) -> OpenCall
        requires { i < length (calls_of self.now) }
        ensures { IsCallOf self.now i result }
    {
        let call = &self.calls[i];
        OpenCall {
            procedure: call.procedure,
            place: call.place,
            uncalled: call.uncalled,
        }
    }

    /// Whether the inverse of the code in whose row it stands runs there.
    pub fn faces_inverse(&self) -> bool
        ensures { result ≡ faces_inverse (direction_of self.now) }
    {
        match self.direction {
            Direction::Forward => false,
            Direction::Inverse => true,
        }
    }

    /// Its place in the row of the innermost code as that is written, whichever way it runs.
    pub fn written_place(&self, book: &Book<'_>) -> usize
        ensures { IsWrittenAt book.now.procedures.now book.now.code.now self.now result }
    {
        let last = running(book.procedures, book.code, &self.calls)
            .laid(self.direction)
            .last();
        let at = last.saturating_sub(self.to_go);
        match self.direction {
            Direction::Forward => at,
            Direction::Inverse => last.saturating_sub(at),
        }
    }
}
