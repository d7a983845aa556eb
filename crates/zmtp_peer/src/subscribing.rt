//! How this end subscribes.
ghost use Rattle.std.specs.Prelude.{◌≡◌, ◌≢◌, ◌≤◌, length, IfOk, OnOk, IfErr};
ghost use Rattle.zmtp_wire.specs.Frame.{written, IsWriteFault, frame_of};
ghost use Rattle.zmtp_wire.specs.Tally.{octet_limit};
ghost use Rattle.zmtp_peer.specs.Subscribing.{subscription_frame};

use crate::terms::Terms;
use std::alloc::{AllocError, Global};
use zmtp_wire::{Frame, WireFault};

/// The frame by which a subscriber asks a partner for what begins with a prefix.
fn subscription(alloc: Global, terms: Terms, prefix: &[u8]) -> Result<Frame, AllocError>
    ensures { IfOk result (λ frame. frame_of frame ≡ subscription_frame terms prefix.now) }
{
    let asks: &[u8] = if terms.newer {
        b"\x09SUBSCRIBE"
    } else {
        b"\x01"
    };
    let mut body = Vec::from_slice(alloc, asks)?;
    body.extend_from_slice(prefix)?;
    Ok(Frame {
        more: false,
        command: terms.newer,
        body,
    })
}

/// The same as it is written.
pub(crate) fn subscription_octets(
    alloc: Global,
    terms: Terms,
    prefix: &[u8],
) -> Result<Vec<u8>, WireFault>
    ensures octets { IfOk result (λ octets. octets.items ≡ written (subscription_frame terms prefix.now)) }
    ensures within { OnOk result (length (subscription_frame terms prefix.now).body ≤ octet_limit) }
    ensures fault { IfErr result (λ fault. fault ≢ WireFault.Memory → IsWriteFault (subscription_frame terms prefix.now) fault) }
{
    let frame = match subscription(alloc, terms, prefix) {
        Ok(frame) => frame,
        Err(_) => return Err(WireFault::Memory),
    };
    frame.write(alloc)
}
