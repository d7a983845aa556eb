//! How who watches asks whether the partner is there.
ghost use Rattle.std.specs.Prelude.{◌≡◌, ◌∷◌, []};
ghost use Rattle.zmtp_wire.specs.Frame.{written};
ghost use Rattle.zmtp_peer.specs.Pings.{ping as ping_frame};

/// The octets of a ping with no context and no time to live, as they are written: a partner that speaks ZMTP 3.1 or later answers it (RFC 37,
/// "Heartbeating").
pub fn ping() -> [u8; 9]
    ensures { result ≡ written (ping_frame (0 ∷ 0 ∷ [])) }
{
    *b"\x04\x07\x04PING\0\0"
}
