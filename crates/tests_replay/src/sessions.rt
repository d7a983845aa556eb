//! Sessions, each of which is replayed to a kernel of its own.
ghost use Rattle.std.specs.Prelude.{◌≡◌, ◌<◌};

use crate::connections::replay_all;
use crate::slices::read_slices;
use jupyter_msg::Key;
use kernel_server::{Comms, Kernel, LoneDesk, Slice};
use std::marker::Brand;
use std::sync::ledger::{Blank, Ledger};
use tests_rows::Sheet;

/// Replays a session to a kernel of its own.
pub fn tell(session: &str, sheet: &mut Sheet) {
    match String::from_str(sheet.alloc(), session) {
        Ok(session) => replay_alone(&session, sheet),
        Err(_) => sheet.refuse(),
    }
}

/// Replays a session to a kernel of its own.
fn replay_alone(session: &String, sheet: &mut Sheet) {
    replay_session::<Brand>(Blank::new(2), session, sheet);
}

/// Replays a session to a new kernel, whose writes are counted in the ledger of this blank.
fn replay_session<L: Ledger>(blank: Blank, session: &String, sheet: &mut Sheet)
    requires name { blank.name ≡ L.name }
    requires parts { blank.parts ≡ L.parts }
    requires two { 1 < L.parts }
{
    let (key, behind) = session.split_once('\n').unwrap_or((session, ""));
    let (list, connections) = parts_of(behind);
    let mut slices = Vec::new(sheet.alloc());
    read_slices(list, &mut slices, sheet);
    replay_to_new::<L>(blank, slices, key, connections, sheet);
}

/// The list of slices and the connections behind a session's key.
fn parts_of(behind: &str) -> (&str, &str) {
    match behind.strip_prefix("slices ") {
        Some(named) => named.split_once('\n').unwrap_or((named, "")),
        None => ("", behind),
    }
}

/// Replays connections to a new kernel with these slices, whose writes are counted in the ledger of this blank.
fn replay_to_new<L: Ledger>(
    blank: Blank,
    slices: Vec<Slice>,
    key: &str,
    connections: &str,
    sheet: &mut Sheet,
)
    requires name { blank.name ≡ L.name }
    requires parts { blank.parts ≡ L.parts }
    requires two { 1 < L.parts }
{
    let alloc = sheet.alloc();
    match Kernel::<L>::new(alloc, blank) {
        Ok(kernel) => {
            let mut desk = LoneDesk::new(alloc, kernel, Comms::new(alloc), slices);
            replay_to(&mut desk, key, connections, sheet);
            desk.discard();
        }
        Err(_) => sheet.refuse(),
    }
}

/// Replays connections under a key to the kernel of a desk.
fn replay_to<L: Ledger>(desk: &mut LoneDesk<L>, key: &str, connections: &str, sheet: &mut Sheet) {
    match key.as_bytes().to_vec(sheet.alloc()) {
        Ok(key) => replay_all(desk, &Key::new(key), connections, sheet),
        Err(_) => sheet.refuse(),
    }
}
