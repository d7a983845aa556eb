//! The greeting (RFC 23, "Formal Grammar": greeting).
ghost use Rattle.std.specs.Prelude.{◌≡◌, ◌≤◌, IfErr, IfOk};

use crate::fault::WireFault;

/// How many octets a greeting has.
pub const GREETING_LENGTH: usize = 64;

/// The major version that this crate writes and the least that it reads.
pub const MAJOR: u8 = 3;

/// The minor version that this crate writes.
pub const MINOR: u8 = 1;

/// The mechanism NULL: its name, and zeros up to 20 octets.
const MECHANISM: [u8; 20] = *b"NULL\0\0\0\0\0\0\0\0\0\0\0\0\0\0\0\0";

/// What a peer says first: its version, and whether it is the server. The mechanism is always NULL.
#[derive(Clone, Copy, Debug)]
pub struct Greeting {
    /// The major version; 3 or later in a greeting that was read.
    pub major: u8,
    /// The minor version.
    pub minor: u8,
    /// Whether the peer is the server; the mechanism NULL makes no use of it.
    pub as_server: bool,
}

impl Greeting {
    ghost use Rattle.zmtp_wire.specs.Greeting.{written, IsGreeting, IsGreetingFault};

    /// The octets of the greeting; padding and filler are zero.
    pub fn write(&self) -> [u8; 64]
        ensures written { result ≡ written self.now }
        ensures read_back { 3 ≤ self.now.major → IsGreeting result self.now }
    {
        let mut octets = [0; GREETING_LENGTH];
        octets[0] = 0xFF;
        octets[9] = 0x7F;
        octets[10] = self.major;
        octets[11] = self.minor;
        octets[12..32].copy_from_slice(&MECHANISM);
        octets[32] = u8::from(self.as_server);
        octets
    }

    /// The greeting that the octets are. Padding and filler are not looked at.
    ///
    /// # Errors
    /// The first of these: `BadSignature` where the first octet isn't FF or the tenth isn't 7F; `OldVersion` where the
    /// major version is below 3; `BadMechanism` where the mechanism isn't NULL.
    pub fn read(octets: &[u8; 64]) -> Result<Greeting, WireFault>
        ensures greeting { IfOk result (IsGreeting octets.now) }
        ensures fault { IfErr result (IsGreetingFault octets.now) }
    {
        if octets[0] != 0xFF || octets[9] != 0x7F {
            return Err(WireFault::BadSignature);
        }
        if octets[10] < MAJOR {
            return Err(WireFault::OldVersion);
        }
        if octets[12..32] != MECHANISM[..] {
            return Err(WireFault::BadMechanism);
        }
        Ok(Greeting {
            major: octets[10],
            minor: octets[11],
            as_server: octets[32] != 0,
        })
    }
}
