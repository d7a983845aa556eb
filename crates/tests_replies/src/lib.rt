//! Rows of requests with the answers that a frontend is sent, as whole messages octet for octet: a request is opened and read, a real
//! kernel runs the cell or answers the question, and what goes out is what the Jupyter messaging page and the tables ask for.
//!
//! Contracts say what each message is, so these rows show that the definitions mean what they are to mean, by texts that were worked
//! out by hand. And they show that each call which takes memory succeeds where there is enough. The signatures were computed by
//! Python's `hmac`, and the signed messages of a client are those that `jupyter_client` 7.4.9 wrote (see `tests_wire`).
//!
//! A row of `messages` has, with bars between them: lines before the request, what is told, the type of the request, and its content.
//! It stands on a new kernel. A row of a `connection` has a key and the frames of a request, each on the kernel as the row before
//! left it. Under each row stand the messages that go out, in order, each with its frames, and before them the number of the next
//! message. Where a call finds no memory the row has the one answer `Memory`, and the rows behind it go on. `lines` says what may stand
//! as lines, and `report` what may be told.
//!
//! The rows stand in the part `== replies` of the files `stdin` and `stdout` of `tests_calls`.
#![tactic(auto)]

mod asked;
mod exchange;
mod kernels;
mod lines;
mod report;
mod rows;
mod stamps;

use crate::rows::{tell_connection, tell_messages};
use tests_rows::{Sheet, cut_block};

/// Writes a block, with the answers to its rows.
pub fn tell(block: &str, sheet: &mut Sheet) {
    let (title, subject, rows) = cut_block(block);
    sheet.write(title);
    sheet.write("\n");
    if subject == "connection" {
        tell_connection(rows, sheet);
    } else {
        tell_messages(rows, sheet);
    }
    sheet.write("\n");
}
