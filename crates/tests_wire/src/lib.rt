//! Rows of the wire with their answers: what no contract of `zmtp_wire`, `zmtp_peer` and `jupyter_msg` says.
//!
//! They show that the definitions mean what the public documents say, by octets from outside: rows by hand from RFC 23 in each
//! cut, octets of a real libzmq, the vectors of RFC 4231, messages of a real client, and a table of the fields of all requests
//! with values of each kind. And they show that each call which takes memory succeeds where there is enough, and how faults are
//! printed. What may stand in the rows of a block is said by the module that tells its answers.
//!
//! What libzmq sends is from libzmq 4.3.4 (pyzmq 24.0.1, Debian's python3-zmq), recorded on 2026-11-22 from a plain TCP listener
//! on 127.0.0.1, and on 2026-11-27 from one that greets with version 3.1, with `ZMQ_HEARTBEAT_IVL` of 100 ms, once with
//! `ZMQ_HEARTBEAT_TTL`. The messages of a client are the frames that `jupyter_client` 7.4.9 (Debian's python3-jupyter-client 7.4.9-2)
//! wrote on 2026-11-22, by `Session(key, signature_scheme="hmac-sha256").serialize`.
//!
//! The rows stand in the part `== wire` of the files `stdin` and `stdout` of `tests_calls`.
#![tactic(auto)]

mod connections;
mod cuts;
mod fields;
mod frames;
mod lists;
mod messages;
mod peers;
mod printed;
mod requests;

use tests_rows::{Sheet, cut_block};
use zmtp_peer::{Peer, Role};

/// Writes a block, with the answers to its calls. The calls of a block on peers have one peer.
pub fn tell(block: &str, sheet: &mut Sheet) {
    let (title, subject, calls) = cut_block(block);
    let mut peer = Peer::new(sheet.alloc(), Role::Sub);
    sheet.write(title);
    for call in calls.lines() {
        sheet.write("\n");
        sheet.write(call);
        sheet.write(": ");
        answer(subject, call, &mut peer, sheet);
    }
    sheet.write("\n\n");
}

/// Writes the answer to a call.
fn answer(subject: &str, call: &str, peer: &mut Peer, sheet: &mut Sheet) {
    match subject {
        "frames" => frames::answer(call, sheet),
        "cuts" => cuts::answer(call, sheet),
        "peer" => peers::answer(call, peer, sheet),
        "messages" => messages::answer(call, sheet),
        "requests" => requests::answer(call, sheet),
        "fields" => fields::answer(call, sheet),
        "connections" => connections::answer(call, sheet),
        _ => printed::answer(call, sheet),
    }
}
