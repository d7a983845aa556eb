//! Rows of the two programs over loopback, with their answers: kernels and their frontends, on threads of one process.
//!
//! No contract says what a socket delivers, nor that an end comes. These rows run the programs from their command lines: what the consoles print,
//! which statuses come, that an endless cell is interrupted from another connection, what comes on each socket and under which key, and that a kernel
//! ends once a shutdown was asked for, with all its threads. Whatever connects to a kernel does so in turn by ZMTP 3.0 and by 3.1. The rows stand in
//! the file `stdin`, the rows with their answers in the file `stdout`, in the form of `tests_rows`. A block of `3.0` or `3.1` has a kernel
//! of its own and frontends of that version, one of `reach` has frontends of 3.1 and a kernel that listens at all addresses, one of `brief` has
//! frontends of 3.1 and a kernel of which an owner who is silent for 200 milliseconds makes room, once a ping has not been answered for 500, one of
//! `older` such a kernel and frontends of 3.0, one of `hasty` frontends of 3.1 and a kernel of which handshakes and messages take a second at most and whose
//! silent subscribers stay for 300 milliseconds, one of `tight` frontends of 3.1 and a kernel that serves two at once on a socket and has room for little, and
//! the rows of any other block need no kernel. What may stand in them is said by `with_kernel` and by
//! `without_kernel`.
#![tactic(auto)]

mod content;
mod frontend;
mod octets;
mod programs;
mod site;
mod streams;
mod talk;
mod told;
mod with_kernel;
mod without_kernel;

use kernel_program::{Limits, Times};
use programs::run_kernel;
use site::{LOOPBACK, Site, make_site};
use std::net::{Net, TcpListener, TcpStream};
use std::random::RandomSource;
use std::rt::Files;
use std::sync::Wait;
use std::thread::Threads;
use std::time::Clock;
use std::{io, thread};
use tests_rows::{Sheet, cut_block};

/// A kernel whose owners of connections have to make room after 200 milliseconds of silence, and 500 milliseconds behind a ping if they answer such.
const BRIEF: Limits = Limits {
    times: Times {
        owner: 200,
        answer: 500,
        ..Times::USUAL
    },
    ..Limits::USUAL
};

/// A kernel whose handshakes and messages take a second at most, and where who is silent for 300 milliseconds on a socket without a key makes room.
const HASTY: Limits = Limits {
    times: Times {
        handshake: 1_000,
        message: 1_000,
        silence: 300,
        ..Times::USUAL
    },
    ..Limits::USUAL
};

/// A kernel that serves two connections at once on a socket, whose strangers bring 16 kibibytes together past their own shares, and that counts to three
/// nodes and four jobs, at which it looks every 50 milliseconds.
const TIGHT: Limits = Limits {
    times: Times {
        pause: 50,
        ..Times::USUAL
    },
    places: 2,
    common: 16_384,
    nodes: 3,
    minutes: 8,
    ..Limits::USUAL
};

fn main(rt: HostRuntime) -> anyhow::Result<()> {
    let alloc = rt.alloc();
    let text = io::read_to_string(alloc, rt.stdin())?;
    let mut sheet = Sheet::new(alloc);
    // The session of the last message that was looked at for it, whichever kernel sent it.
    let mut seen = String::new(alloc);
    for block in blocks(&text).split("\n\n") {
        if let Some(site) = begin(&rt, block, &mut sheet) {
            // The kernel runs on a thread of its own, beside its frontends.
            let (ran, ()) = thread::join(
                &rt,
                || run_kernel(&rt, alloc, site.limits, &["janus-kernel", &site.path]),
                || with_kernel::tell(&rt, &site, block, &mut seen, &mut sheet),
            );
            with_kernel::end(&rt, &site, &ran, &mut sheet);
        }
        sheet.write("\n");
    }
    let told = sheet.finish()?;
    print!(rt; "{told}")?;
    Ok(())
}

/// The blocks of a text, without the end of its last line.
fn blocks(text: &str) -> &str {
    text.strip_suffix('\n').unwrap_or(text)
}

/// Writes the title of a block, and where it needs no kernel its calls with their answers. Where it needs one: where that is to listen.
fn begin<R>(rt: &R, block: &str, sheet: &mut Sheet) -> Option<Site>
where
    R: Net<Listener = TcpListener, Stream = TcpStream>
        + Files
        + RandomSource
        + Threads
        + Wait
        + Clock
        + Sync,
{
    let (title, subject, calls) = cut_block(block);
    sheet.write(title);
    sheet.write("\n");
    match subject {
        "3.0" => make_site(rt, LOOPBACK, 0, Limits::USUAL, sheet),
        "3.1" => make_site(rt, LOOPBACK, 1, Limits::USUAL, sheet),
        "brief" => make_site(rt, LOOPBACK, 1, BRIEF, sheet),
        "older" => make_site(rt, LOOPBACK, 0, BRIEF, sheet),
        "hasty" => make_site(rt, LOOPBACK, 1, HASTY, sheet),
        "tight" => make_site(rt, LOOPBACK, 1, TIGHT, sheet),
        "reach" => make_site(rt, "0.0.0.0", 1, Limits::USUAL, sheet),
        "every" => make_site(rt, "*", 1, Limits::USUAL, sheet),
        _ => {
            without_kernel::tell(rt, calls, sheet);
            None
        }
    }
}
