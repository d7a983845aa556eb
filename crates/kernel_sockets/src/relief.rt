//! Which place is relieved of its connection, so that another one is served beside it.
ghost use Rattle.std.specs.Prelude.{◌≡◌, ◌<◌, IfSome, length, position};
ghost use Rattle.kernel_sockets.specs.Relief.{is_orphan};

use crate::room::Sight;

/// Which of these places is relieved of its connection: the first one that has an orphan, if one has: who showed the key, whose request is under way, whose
/// peer has hung up, and of which the place was not relieved yet. Nobody waits for the answer, so another one may be served meanwhile.
pub fn who_is_relieved(sights: &[Sight]) -> Option<usize>
    ensures rule { result ≡ position is_orphan sights.now }
    ensures there { IfSome result (λ place. place < length sights.now) }
{
    sights.iter().position(|sight| sight.is_orphan())
}
