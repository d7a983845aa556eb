//! A connection of the publish socket.
ghost use Rattle.std.specs.Prelude.{◌≡◌, ◌<◌, true, OnOk, OnErr};
ghost use Rattle.kernel_iopub.specs.Round.{IsServed, IsServedInPart};
ghost use Rattle.kernel_iopub.specs.Signs.{gone};

use crate::bulletin::Bulletin;
use crate::fault::SubscriberFault;
use crate::half::{hear, speak};
use crate::signals::Signals;
use crate::subscriber::Subscriber;
use exact_write::send;
use kernel_watch::Watcher;
use std::alloc::Global;
use std::io::{Read, Write};
use std::marker::{Brand, Send};
use std::sync::ledger::{Blank, Ledger, Share};
use std::sync::{Mutex, Wait};
use std::thread;
use std::thread::{Scope, Threads};

/// The end of a connection at which the writer stands, so that the reader's end comes too.
pub trait HangUp: Write {
    ghost use Rattle.std.specs.Prelude.{◌≡◌, Bool, true};

    // It has hung up.
    ghost is_over: { Self → Bool };

    /// Ends the connection both ways: a read that waits at its other handle ends. Nothing more is written.
    fn hang_up(&mut self)
        ensures over { is_over self.new ≡ true }
        ensures same { Self.contents self.new ≡ Self.contents self.old };
}

/// The writing half on its thread, and its end. What it writes is what [`speak`] writes; then it has hung up, however that ended, so that the reading half
/// ends too: a subscriber that fell behind what the board keeps is disconnected. It answers how the writing half ended.
pub fn speak_and_hang_up<L: Ledger, R: Wait, W: HangUp, V: Watcher>(
    rt: &R,
    alloc: Global,
    bulletin: &Bulletin,
    signals: &Signals,
    shared: &Mutex<Subscriber<L>>,
    share: &mut Share<L>,
    writer: &mut W,
    watcher: &mut V,
) -> Result<(), SubscriberFault>
    requires share { (share.old.parts ≡ L.parts) × (0 < share.old.parts) }
    ensures ok { OnOk result (IsServed share.old.amount (gone (W.contents writer.old) (V.notices watcher.old))
        (gone (W.contents writer.new) (V.notices watcher.new)) share.new.amount) }
    ensures err { OnErr result (IsServedInPart share.old.amount (gone (W.contents writer.old) (V.notices watcher.old))
        (gone (W.contents writer.new) (V.notices watcher.new))) }
    ensures over { W.is_over writer.new ≡ true }
    ensures parts { share.new.parts ≡ share.old.parts }
{
    let spoken = speak(rt, alloc, bulletin, signals, shared, share, writer, watcher);
    writer.hang_up();
    spoken
}

/// Serves one connection of the publish socket: a thread beside this one writes what the peer wants of the broadcasts from the time on at
/// which it is ready, while this one reads what it subscribes to. Once nothing more comes, what is left on the board is still written. It
/// answers how the reading half ended; the writer hangs up once its thread has begun, and else goes away with the call.
///
/// Each half tells a watcher of its own: the reading half that the handshake is over ([`hear`]), and the writing half of each ping that it answered
/// ([`speak`]).
///
/// # Errors
///
/// `Read` where the reader failed; `Write` where the opening could not be written; `Peer` where the peer broke the protocol of the wire;
/// `TooMuch` where it subscribed to more than a connection may, or too many of its pings are unanswered;
/// `Memory` where there is none, also for a thread. What the writing half met is not told.
pub fn serve_subscriber<
    R: Threads + Wait + Sync,
    I: Read,
    W: HangUp + Send + Drop,
    H: Watcher,
    V: Watcher + Send + Drop,
>(
    rt: &R,
    alloc: Global,
    bulletin: &Bulletin,
    signals: &Signals,
    reader: &mut I,
    writer: W,
    hearing: &mut H,
    speaking: V,
) -> Result<(), SubscriberFault> {
    serve_counted::<Brand, R, I, W, H, V>(
        rt,
        alloc,
        bulletin,
        signals,
        reader,
        writer,
        hearing,
        speaking,
        Blank::new(1),
    )
}

/// Starts the writing half on a thread of its own. False where the thread could not be made.
fn start_speaking<
    's,
    E,
    L: Ledger + Send + Sync + 's,
    R: Threads + Wait + Sync,
    W: HangUp + Send + Drop + 's,
    V: Watcher + Send + Drop + 's,
>(
    scope: &Scope<'s, E>,
    rt: &'s R,
    alloc: Global,
    bulletin: &'s Bulletin,
    signals: &'s Signals,
    shared: &'s Mutex<Subscriber<L>>,
    share: Share<L>,
    writer: W,
    watcher: V,
) -> bool
    requires { (share.parts ≡ L.parts) × (0 < share.parts) }
{
    let (mut share, mut writer, mut watcher) = (share, writer, watcher);
    let half = move ||
        requires { (share.parts ≡ L.parts) × (0 < share.parts) }
    {
        let _ = speak_and_hang_up(
            rt,
            alloc,
            bulletin,
            signals,
            shared,
            &mut share,
            &mut writer,
            &mut watcher,
        );
    };
    scope.spawn(half).is_ok()
}

/// Runs the two halves of a connection, the one that writes on a thread of its own.
fn run_halves<
    L: Ledger + Send + Sync,
    R: Threads + Wait + Sync,
    I: Read,
    W: HangUp + Send + Drop,
    H: Watcher,
    V: Watcher + Send + Drop,
>(
    rt: &R,
    alloc: Global,
    bulletin: &Bulletin,
    signals: &Signals,
    shared: &Mutex<Subscriber<L>>,
    share: Share<L>,
    reader: &mut I,
    writer: W,
    hearing: &mut H,
    speaking: V,
) -> Result<(), SubscriberFault>
    requires { (share.parts ≡ L.parts) × (0 < share.parts) }
{
    thread::scope(
        thread::scope_env(),
        rt,
        |scope|
            requires { (share.parts ≡ L.parts) × (0 < share.parts) }
        {
            if !start_speaking(
                scope, rt, alloc, bulletin, signals, shared, share, writer, speaking,
            ) {
                return Err(SubscriberFault::Memory);
            }
            hear(rt, bulletin, signals, shared, reader, hearing)
        },
    )
}

/// Serves one connection, over a ledger of its own in which the writing half counts the pings that it took.
fn serve_counted<
    L: Ledger + Send + Sync,
    R: Threads + Wait + Sync,
    I: Read,
    W: HangUp + Send + Drop,
    H: Watcher,
    V: Watcher + Send + Drop,
>(
    rt: &R,
    alloc: Global,
    bulletin: &Bulletin,
    signals: &Signals,
    reader: &mut I,
    mut writer: W,
    hearing: &mut H,
    speaking: V,
    blank: Blank,
) -> Result<(), SubscriberFault>
    requires name { blank.name ≡ L.name }
    requires parts { (blank.parts ≡ L.parts) × (blank.parts ≡ 1) }
{
    signals.begin();
    let (subscriber, share) = Subscriber::<L>::new(alloc, blank);
    let opening = subscriber.opening()?;
    if send(&mut writer, &opening).is_err() {
        return Err(SubscriberFault::Write);
    }
    let shared = Mutex::new(subscriber);
    run_halves(
        rt, alloc, bulletin, signals, &shared, share, reader, writer, hearing, speaking,
    )
}
