//! Streams to the sockets of a kernel, octet for octet.
use crate::octets::{opening_as, opening_of};
use crate::site::connect;
use std::alloc::Global;
use std::io::{ErrorKind, Read, Result, Write};
use std::net::{Net, TcpListener, TcpStream};
use std::time::Duration;
use zmtp_peer::Role;

/// How long a read waits.
const PATIENCE_SECONDS: u64 = 5;

/// The reads that wait for what has to come.
const READS: u32 = 1_000;

/// Whether the next octets of a stream are these.
fn reads(alloc: Global, stream: &TcpStream, wanted: &[u8]) -> Result<bool> {
    let mut octets = vec![in alloc; 0u8; wanted.len()]?;
    let mut reader = stream;
    match reader.read_exact(&mut octets) {
        Ok(()) => Ok(octets.as_slice() == wanted),
        Err(error) => Err(error),
    }
}

/// Writes octets to a stream, and tells whether these come back.
fn comes_back(alloc: Global, stream: &TcpStream, said: &[u8], back: &[u8]) -> Result<bool> {
    let mut writer = stream;
    writer.write_all(said)?;
    reads(alloc, stream, back)
}

/// How often these octets come back, up to the first time that others do, where octets are written a number of times.
pub(crate) fn echoes(
    alloc: Global,
    stream: &TcpStream,
    times: usize,
    said: &[u8],
    back: &[u8],
) -> Result<usize> {
    for time in 0..times {
        if !comes_back(alloc, stream, said, back)? {
            return Ok(time);
        }
    }
    Ok(times)
}

/// Opens a connection over a stream, by a frontend in the first role, and tells whether what an end in the second one sends first comes back.
fn opens(alloc: Global, stream: &TcpStream, role: Role, back: Role, minor: u8) -> Result<bool> {
    stream.set_read_timeout(Some(Duration::from_secs(PATIENCE_SECONDS)))?;
    let opening = opening_as(alloc, role, minor)?;
    let wanted = opening_of(alloc, back)?;
    comes_back(alloc, stream, &opening, &wanted)
}

/// Opens a connection to a port, by a frontend in the first role and of this minor version, to an end in the second one.
pub(crate) fn opened<R>(
    rt: &R,
    alloc: Global,
    port: u16,
    role: Role,
    back: Role,
    minor: u8,
) -> Result<TcpStream>
where
    R: Net<Listener = TcpListener, Stream = TcpStream>,
{
    let stream = connect(rt, port)?;
    match opens(alloc, &stream, role, back, minor) {
        Ok(true) => Ok(stream),
        Ok(false) => Err(ErrorKind::InvalidData.into()),
        Err(error) => Err(error),
    }
}

/// Whether the kernel closes a stream, whatever comes on it before.
pub(crate) fn lapses(stream: &TcpStream) -> Result<bool> {
    stream.set_read_timeout(Some(Duration::from_secs(PATIENCE_SECONDS)))?;
    let mut room = [0u8; 4096];
    let mut reader = stream;
    for _ in 0..READS {
        match reader.read(&mut room) {
            Ok(0) => return Ok(true),
            Ok(_) => {}
            Err(error) => return Ok(error.kind() == ErrorKind::ConnectionReset),
        }
    }
    Ok(false)
}

/// Adds what comes next on a stream.
fn push_next(stream: &TcpStream, octets: &mut Vec<u8>) -> Result<()> {
    let mut room = [0u8; 4096];
    let mut reader = stream;
    let count = reader.read(&mut room)?;
    octets.extend_from_slice(&room[..count])?;
    Ok(())
}

/// Reads what comes on a stream to these octets, until it ends in others.
pub(crate) fn read_to(stream: &TcpStream, octets: &mut Vec<u8>, end: &[u8]) -> Result<bool> {
    for _ in 0..READS {
        push_next(stream, octets)?;
        if octets.as_slice().ends_with(end) {
            return Ok(true);
        }
    }
    Ok(false)
}
