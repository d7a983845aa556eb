//! What decides how the frames of a partner are told.
ghost use Rattle.std.specs.Prelude.{◌≡◌, length};
ghost use Rattle.zmtp_peer.specs.Terms.{is_newer, terms_of};

use crate::role::Role;

/// The side that this end takes, and what its partner speaks.
#[derive(Clone, Copy)]
pub(crate) struct Terms {
    /// The side that this end takes.
    pub(crate) role: Role,
    /// The partner speaks ZMTP 3.1 or a later version.
    pub(crate) newer: bool,
}

/// Whether a version is 3.1 or a later one.
fn is_newer(major: u8, minor: u8) -> bool
    ensures { result ≡ is_newer major minor }
{
    major > 3 || (major == 3 && minor >= 1)
}

impl Terms {
    /// The terms between a role and a partner with this greeting.
    pub(crate) fn of(role: Role, greeting: &[u8; 64]) -> Terms
        ensures terms { result ≡ terms_of role greeting.now }
        ensures size { length greeting.now ≡ 64 }
    {
        Terms {
            role,
            newer: is_newer(greeting[10], greeting[11]),
        }
    }
}
