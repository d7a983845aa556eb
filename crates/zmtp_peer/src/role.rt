//! The roles in which a peer can stand, by the socket type that it announces.
ghost use Rattle.std.specs.Prelude.{◌≡◌, map};
ghost use Rattle.std.specs.List.{list_any};
ghost use Rattle.std.specs.Str.{bytes_eq};
ghost use Rattle.zmtp_peer.specs.Roles.{socket_type_of, partners_of, is_partner};

const ROUTER: &[u8] = b"ROUTER";

const DEALER: &[u8] = b"DEALER";

const REQ: &[u8] = b"REQ";

const REP: &[u8] = b"REP";

const PUB: &[u8] = b"PUB";

const SUB: &[u8] = b"SUB";

const XSUB: &[u8] = b"XSUB";

/// The side that this end of the connection takes.
#[derive(Clone, Copy)]
pub enum Role {
    /// Takes requests of any number of peers, and answers them.
    Router,
    /// Sends what its peers have subscribed to.
    Pub,
    /// Answers each request with one reply.
    Rep,
    /// Sends requests and takes the answers.
    Dealer,
    /// Subscribes, and takes what it has subscribed to.
    Sub,
}

impl Role {
    /// The socket type that this role announces in its READY.
    pub fn socket_type(self) -> &'static [u8]
        ensures { result.now ≡ socket_type_of self }
    {
        match self {
            Role::Router => ROUTER,
            Role::Pub => PUB,
            Role::Rep => REP,
            Role::Dealer => DEALER,
            Role::Sub => SUB,
        }
    }

    /// The socket types of the peers that this role takes.
    fn partners(self) -> &'static [&'static [u8]]
        ensures { map (λ partner. partner.now) result.now ≡ partners_of self }
    {
        match self {
            Role::Router => &[ROUTER, DEALER, REQ],
            Role::Pub => &[SUB, XSUB],
            Role::Rep => &[REQ, DEALER],
            Role::Dealer => &[ROUTER],
            Role::Sub => &[PUB],
        }
    }

    /// Whether this role takes a peer of a socket type, which is told as it stands in READY: in upper case.
    pub fn fits(self, socket_type: &[u8]) -> bool
        ensures { result ≡ is_partner self socket_type.now }
    {
        is_one_of(socket_type, self.partners())
    }
}

/// Whether a socket type is one of these.
fn is_one_of(socket_type: &[u8], types: &[&[u8]]) -> bool
    ensures { result ≡ list_any (bytes_eq socket_type.now) (map (λ one. one.now) types.now) }
{
    for one in types {
        if socket_type == *one {
            return true;
        }
    }
    false
}
