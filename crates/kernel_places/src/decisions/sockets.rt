//! How each of the five sockets tells whether its peer is active.
ghost use Rattle.std.specs.Prelude.{◌≡◌};
ghost use Rattle.kernel_places.specs.Sockets.{is_signed_on, stays_on, quota_on};

use crate::decisions::limits::Limits;
use crate::decisions::times::Times;
use kernel_desk::Socket;
use kernel_sockets::{Quota, Stays};

/// How long connections of a socket stay where another one waits. On shell and control a signed message shows who has the key, so a stranger has little
/// time; on the others nothing is signed, and whoever is heard or takes what goes out stays.
pub(crate) fn stays(socket: Socket, times: Times) -> Stays
    ensures { result ≡ stays_on socket times }
{
    let stranger = match socket {
        Socket::Shell | Socket::Control => times.stranger,
        Socket::Iopub | Socket::Stdin | Socket::Heartbeat => times.silence,
    };
    Stays {
        handshake: times.stranger,
        stranger,
        owner: times.owner,
        answer: times.answer,
    }
}

/// Whether a signed message shows who has the key. On the other sockets nothing is signed, and who is heard or takes what goes out is there.
pub(crate) fn is_signed(socket: Socket) -> bool
    ensures { result ≡ is_signed_on socket }
{
    match socket {
        Socket::Shell | Socket::Control => true,
        Socket::Iopub | Socket::Stdin | Socket::Heartbeat => false,
    }
}

/// How much a stranger may bring on a socket. On the heartbeat what is sent back answers all that came. On iopub prefixes are kept, and on stdin nothing is
/// asked, so there what came counts as long as the connection is there, but for pings that were answered.
pub(crate) fn quota(socket: Socket, limits: Limits) -> Quota
    ensures { result ≡ quota_on socket limits }
{
    match socket {
        Socket::Heartbeat => Quota::Own,
        Socket::Iopub => Quota::Within(limits.subscriber),
        Socket::Shell | Socket::Control | Socket::Stdin => Quota::Common,
    }
}
