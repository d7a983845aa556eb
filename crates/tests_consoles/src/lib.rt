//! Rows of a console's conversations over memory, with a kernel whose messages were written by hand: what is sent, on iopub octet for octet and on shell
//! by frames, what is printed, and that the comm is closed in each case.
//!
//! In each block the kernel says something else. `shell` and `iopub` add a message to what it says there behind its opening, by the frames; `noise` so many
//! broadcasts of one frame, which no console can open; `octets` octets in hexadecimal to what it says on shell. `late` sets how often no broadcast comes in
//! time before the first one. These rows have no answer.
//!
//! The other rows have the version of ZMTP that the kernel speaks, and what a console is to do, which then has a conversation of its own: `run` and `complete`
//! with a text, `undo`, `redo` and `goto` with a number, and `show`. The answer has the status and what is printed, or the fault that ends the conversation;
//! below it stand the octets that went out on iopub behind the opening, and the events that went out on shell; of more than ten, how many messages under
//! the key stand before the last one, and that one. `next` is answered by the next message on shell, and below it by the octets that went out there
//! behind the opening.
//!
//! The session is `console-7`, the key `key`. The signatures were computed by Python's `hmac`.
//!
//! The rows stand in the part `== consoles` of the files `stdin` and `stdout` of `tests_calls`.
#![tactic(auto)]

mod conversation;
mod kernel;

use crate::kernel::Kernel;
use tests_rows::{Sheet, cut, cut_block};

/// Writes a block, with the answers to its rows.
pub fn tell(block: &str, sheet: &mut Sheet) {
    let (title, _, rows) = cut_block(block);
    let mut kernel = Kernel::new(sheet.alloc());
    sheet.write(title);
    for row in rows.lines() {
        sheet.write("\n");
        sheet.write(row);
        answer(row, &mut kernel, sheet);
    }
    sheet.write("\n\n");
}

/// Does what a row says, and writes the answer, if it has one.
fn answer(row: &str, kernel: &mut Kernel, sheet: &mut Sheet) {
    let (word, rest) = cut(row);
    match word {
        "3.0" => conversation::tell(0, rest, kernel, sheet),
        "3.1" => conversation::tell(1, rest, kernel, sheet),
        _ => kernel.add(word, rest, sheet),
    }
}
