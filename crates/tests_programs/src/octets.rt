//! Octets of texts and messages. Their only fault is want of memory, where they are within the limits of the wire.
use std::alloc::{AllocError, Global};
use std::io::{Error, ErrorKind, Result};
use std::str;
use zmtp_peer::{Peer, Role};
use zmtp_wire::write_message;

/// The octet of a greeting that has the minor version.
const MINOR: usize = 11;

/// What is told where octets are not what they have to be.
pub(crate) fn wrong() -> Error {
    ErrorKind::InvalidData.into()
}

/// A text that these octets are.
pub(crate) fn text_of(alloc: Global, octets: &[u8]) -> Result<String> {
    match str::from_utf8(octets) {
        Ok(text) => Ok(String::from_str(alloc, text)?),
        Err(_) => Err(wrong()),
    }
}

/// What an end in this role sends first.
pub(crate) fn opening_of(alloc: Global, role: Role) -> Result<Vec<u8>> {
    match Peer::new(alloc, role).opening() {
        Ok(opening) => Ok(opening),
        Err(_) => Err(AllocError.into()),
    }
}

/// What a frontend in this role and of this minor version sends first.
pub(crate) fn opening_as(alloc: Global, role: Role, minor: u8) -> Result<Vec<u8>> {
    let mut opening = opening_of(alloc, role)?;
    if let Some(octet) = opening.get_mut(MINOR) {
        *octet = minor;
    }
    Ok(opening)
}

/// The octets of a message of these frames.
pub(crate) fn message_of(alloc: Global, frames: &[Vec<u8>]) -> Result<Vec<u8>> {
    if frames.is_empty() {
        return Err(wrong());
    }
    let mut octets = Vec::new(alloc);
    match write_message(&mut octets, frames) {
        Ok(()) => Ok(octets),
        Err(_) => Err(AllocError.into()),
    }
}

/// Octets with a number of zeros behind them.
pub(crate) fn with_zeros(octets: &mut Vec<u8>, zeros: usize) -> Result<()> {
    let length = octets.len().saturating_add(zeros);
    octets.resize(length, 0)?;
    Ok(())
}
