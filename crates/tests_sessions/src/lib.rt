//! Rows of whole connections over memory, octet for octet and in pieces of any size, and of streams that fail.
//!
//! Contracts say that what goes out is the session of what came in. These rows show that the session means what it is to mean, by octets that were
//! worked out by hand from RFC 23, RFC 37 and the Jupyter messaging page; that a question carries what its request has, that refused messages bring nothing,
//! that `Read` and `Write` come only where a stream failed, and what no contract can say: that a request is answered before the next read, and in how many
//! writes a message goes out.
//!
//! In a block of a `connection` a desk without a kernel is served; in one that is `lone` each connection stands before a new kernel in which nobody
//! else has a part.
//!
//! Rows without an answer say what comes and how: `octets`, in hexadecimal, and a `message`, by its frames, are added to what comes; `aside` puts it aside,
//! so that nothing comes; `key` has the key, and any other word is a setting, of which the module `case` tells. Octets that go out are written as in a
//! byte string of Rust.
//!
//! `serve` a socket tells how the connection ended, what went out, and what the desk of the block has published and was called for by then; `calls` tells of
//! these the calls alone, `notices` what the watcher was told, with how many octets had gone out by then, and `watch` how many octets had gone out before
//! the last read. `sweep` has a setting, a socket and numbers, which may be written
//! with repeated parts: with each number the socket is served before a new desk, and what is told is written where it differs from what was told before.
//! `date` tells that of the instant so many seconds behind the beginning of 1970, and `name` that of a session whose generator is keyed by zeros.
//! `see` serves shell before a new kernel, and then what was put aside. `send` sends a message of these frames, and tells in how many writes it goes out.
//!
//! The rows stand in the part `== sessions` of the files `stdin` and `stdout` of `tests_calls`.
#![tactic(auto)]

mod case;
mod connections;
mod desk;
mod lone;
mod sending;
mod stamps;
mod streams;
mod sweeps;
mod watcher;

use crate::case::Case;
use crate::desk::NoKernel;
use tests_rows::{Sheet, cut, cut_block};

/// Writes a block, with the answers to its rows.
pub fn tell(block: &str, sheet: &mut Sheet) {
    let (title, subject, rows) = cut_block(block);
    let mut case = Case::new(sheet.alloc(), subject == "lone");
    let mut desk = NoKernel::new(sheet.alloc());
    sheet.write(title);
    for row in rows.lines() {
        sheet.write("\n");
        sheet.write(row);
        answer(row, &mut case, &mut desk, sheet);
    }
    sheet.write("\n\n");
}

/// Does what a row says, and writes the answer, if it has one.
fn answer(row: &str, case: &mut Case, desk: &mut NoKernel, sheet: &mut Sheet) {
    let (word, rest) = cut(row);
    match word {
        "serve" | "calls" | "notices" | "watch" => connections::tell(word, rest, case, desk, sheet),
        "sweep" => sweeps::tell(rest, case, sheet),
        "see" => lone::tell_whole(case, sheet),
        "send" => sending::tell(rest, sheet),
        "date" => stamps::tell_date(rest, sheet),
        "name" => stamps::tell_name(sheet),
        _ => case.add(word, rest, sheet),
    }
}
