//! What a peer sends first.
ghost use Rattle.std.specs.Prelude.{◌≡◌, ◌++◌, ◌∷◌, IfOk, OnOk, length, ◌<◌, ◌^◌};
ghost use Rattle.zmtp_peer.specs.Opening.{opening_of, ready_of, property_octets};

use crate::role::Role;
use std::alloc::{AllocError, Global};
use zmtp_wire::{Frame, Greeting, MAJOR, MINOR};

/// The greeting and the READY of a role.
pub(crate) fn opening_octets(alloc: Global, role: Role) -> Result<Vec<u8>, AllocError>
    ensures { IfOk result (λ octets. octets.items ≡ opening_of role) }
{
    let greeting = Greeting {
        major: MAJOR,
        minor: MINOR,
        as_server: false,
    };
    let ready = Frame {
        more: false,
        command: true,
        body: ready_body(alloc, role)?,
    };
    let Ok(frame) = ready.write(alloc) else {
        return Err(AllocError);
    };
    let mut octets = Vec::from_slice(alloc, &greeting.write())?;
    octets.extend_from_slice(&frame)?;
    Ok(octets)
}

/// The command READY with the socket type of a role.
fn ready_body(alloc: Global, role: Role) -> Result<Vec<u8>, AllocError>
    ensures { IfOk result (λ body. body.items ≡ ready_of role) }
{
    let mut body = Vec::from_slice(alloc, b"\x05READY")?;
    push_property(&mut body, b"Socket-Type", role.socket_type())?;
    Ok(body)
}

/// Writes a property at the end.
fn push_property(body: &mut Vec<u8>, name: &[u8], value: &[u8]) -> Result<(), AllocError>
    requires name { length name.now < 256 }
    requires value { length value.now < 2 ^ 32 }
    ensures { OnOk result (body.new.items ≡ body.old.items
        ++ property_octets (record { name = name.now; value = value.now })) }
{
    body.push(name.len() as u8)?;
    body.extend_from_slice(name)?;
    body.extend_from_slice(&(value.len() as u32).to_be_bytes())?;
    body.extend_from_slice(value)?;
    Ok(())
}
