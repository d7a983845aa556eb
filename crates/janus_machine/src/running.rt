//! The book in whose row code runs.

ghost use Rattle.std.specs.Prelude.{◌≡◌, reverse};
ghost use Rattle.janus_machine.specs.Nested.{book_in};

use crate::cursor::Call;
use crate::linked_code::LinkedCode;
use crate::procedures::Procedures;

/// The book in whose row the code of the innermost of these calls stands, or where none is open the cell's.
pub(crate) fn running<'a>(
    procedures: &'a Procedures,
    book: &'a LinkedCode,
    calls: &[Call],
) -> &'a LinkedCode
    ensures { result.now ≡ book_in procedures.now book.now (reverse calls.now) }
{
    match calls.last() {
        Some(call) => match procedures.body(call.procedure) {
            Some(procedure) => &procedure.book,
            None => book,
        },
        None => book,
    }
}
