//! The places of a socket.
ghost use Rattle.std.specs.Prelude.{◌≡◌, ◌+◌, ◌≤◌};
ghost use Rattle.kernel_places.specs.Sockets.{places_on, first_on, PlacesAreApart, PlacesAreThere};

use kernel_desk::Socket;

/// The most connections that are served at once on one socket, but for orphans: those whose peer has hung up while their request is under way.
pub const PLACES: usize = 32;

/// So many more connections of shell are served beside those, where orphans wait for their cells.
const ORPHANS: usize = 32;

/// The places of shell.
const SHELL_PLACES: usize = PLACES + ORPHANS;

/// The places of shell and control, each of which has a desk.
pub const DESKS: usize = SHELL_PLACES + PLACES;

/// The places of the sockets that take requests or octets to send back; the fifth is that of broadcasts.
pub(crate) const CALLED_PLACES: usize = DESKS + 2 * PLACES;

/// The places that the five sockets have together.
pub const ALL_PLACES: u64 = 192;

const _: () = prove!(ALL_PLACES == (DESKS as u64) + 3 * (PLACES as u64));

/// Law: no place of a register is of two sockets, and each is there.
pub fn places_are_apart_law()
    ensures apart { PlacesAreApart }
    ensures there { PlacesAreThere }
{}

/// How many places a socket has.
pub(crate) fn places_of(socket: Socket) -> usize
    ensures { result ≡ places_on socket }
{
    match socket {
        Socket::Shell => SHELL_PLACES,
        Socket::Iopub | Socket::Stdin | Socket::Control | Socket::Heartbeat => PLACES,
    }
}

/// Which place it is: of which socket, and where in the register of its connections. Iopub has a register of its own; the other four share
/// one.
#[derive(Clone, Copy, PartialEq, Eq)]
pub(crate) struct Place {
    pub socket: Socket,
    pub index: usize,
}

impl Place {
    /// The first place of a socket.
    pub fn first(socket: Socket) -> Place
        ensures socket { result.socket ≡ socket }
        ensures index { result.index ≡ first_on socket }
    {
        let index = match socket {
            Socket::Shell | Socket::Iopub => 0,
            Socket::Control => SHELL_PLACES,
            Socket::Stdin => SHELL_PLACES + PLACES,
            Socket::Heartbeat => SHELL_PLACES + 2 * PLACES,
        };
        Place { socket, index }
    }

    /// The place that is `count` behind this one.
    pub fn behind(self, count: usize) -> Place
        ensures socket { result.socket ≡ self.socket }
        ensures index { self.index + count ≤ usize.MAX → result.index ≡ self.index + count }
    {
        Place {
            socket: self.socket,
            index: self.index.saturating_add(count),
        }
    }
}
