//! A connection to a lone kernel.
ghost use Rattle.std.specs.Prelude.{◌≡◌, ℕ, List};
ghost use Rattle.std.specs.Io.KnownBytes.{Consumes};
ghost use Rattle.zmtp_peer.specs.Opening.{opening_of};
ghost use Rattle.kernel_session.specs.Action.{sends};
ghost use Rattle.kernel_session.specs.Session.{going, role_of};
ghost use Rattle.kernel_session.specs.Ends.{ends_by};
ghost use Rattle.kernel_server.specs.Lone.{lone_leads};
ghost use Rattle.kernel_server.specs.Course.{RanOn};

use crate::lone::LoneDesk;
use jupyter_msg::Key;
use kernel_message::Stamp;
use kernel_session::{ServeFault, Socket, Watcher, serve};
use std::alloc::Global;
use std::io::{Read, Write};
use std::sync::ledger::Ledger;

/// Serves one connection to a lone kernel: what is written, and what becomes of the kernel, is the session of what was read, in which
/// each answer is the kernel's own. The kernel ran on by whole jobs, with the slices that it was given. No job is open behind it. The watcher is told as
/// [`serve`] tells.
///
/// # Errors
///
/// Those of [`serve`].
pub fn serve_lone<R: Read, W: Write, L: Ledger, V: Watcher>(
    alloc: Global,
    socket: Socket,
    key: &Key,
    reader: &mut R,
    writer: &mut W,
    desk: &mut LoneDesk<L>,
    watcher: &mut V,
    stamp: &mut Stamp,
) -> Result<(), ServeFault>
    ensures session { (input : List ℕ) × Consumes (R.remaining reader.old) (R.remaining reader.new) input
        × ends_by W.contents lone_leads V.notices socket key.now (sends (opening_of (role_of socket))) writer.old writer.new desk.old desk.new
        watcher.old watcher.new (going stamp.old) stamp.new result input (R.remaining reader.new) }
    ensures ran { RanOn desk.old desk.new }
{
    serve(alloc, socket, key, reader, writer, desk, watcher, stamp)
}
