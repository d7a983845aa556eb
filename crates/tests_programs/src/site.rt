//! Where a kernel listens, and its connection file.
use crate::content::KEY;
use crate::told::tell_error;
use kernel_program::Limits;
use std::alloc::Global;
use std::fs::Permissions;
use std::io::{ErrorKind, Result};
use std::net::{Net, TcpListener, TcpStream};
use std::os::unix::fs::PermissionsExt;
use std::rt::Files;
use std::time::{Clock, Duration};
use std::{fs, thread};
use tests_rows::Sheet;

/// The address of the loopback.
pub(crate) const LOOPBACK: &str = "127.0.0.1";

/// The most times that a connection is tried, until the kernel listens.
const TRIES: u32 = 500;

/// How long it is waited before the next try.
const PAUSE_MILLISECONDS: u64 = 10;

/// Where a kernel listens.
#[derive(Drop)]
pub(crate) struct Site {
    /// The connection file.
    pub path: String,
    /// The ports of shell, iopub, stdin, control and heartbeat.
    pub ports: [u16; 5],
    /// The minor version of ZMTP 3 that frontends speak there.
    pub minor: u8,
    /// What the kernel's connections have.
    pub limits: Limits,
}

impl Site {
    /// The port of a socket.
    pub fn port(&self, name: &str) -> u16 {
        let [shell, iopub, stdin, control, heartbeat] = self.ports;
        match name {
            "shell" => shell,
            "iopub" => iopub,
            "stdin" => stdin,
            "control" => control,
            _ => heartbeat,
        }
    }
}

/// Listens at a port.
pub(crate) fn listen<R>(rt: &R, port: u16) -> Result<TcpListener>
where
    R: Net<Listener = TcpListener, Stream = TcpStream>,
{
    TcpListener::bind(rt, ("127.0.0.1", port))
}

/// Listens at a port that was free, and answers it.
pub(crate) fn listen_anywhere<R>(rt: &R, listeners: &mut Vec<TcpListener>) -> Result<u16>
where
    R: Net<Listener = TcpListener, Stream = TcpStream>,
{
    let listener = listen(rt, 0)?;
    let port = listener.local_addr()?.port();
    listeners.push(listener)?;
    Ok(port)
}

/// Listens at five ports that were free.
fn listen_five<R>(rt: &R, listeners: &mut Vec<TcpListener>) -> Result<[u16; 5]>
where
    R: Net<Listener = TcpListener, Stream = TcpStream>,
{
    let shell = listen_anywhere(rt, listeners)?;
    let iopub = listen_anywhere(rt, listeners)?;
    let stdin = listen_anywhere(rt, listeners)?;
    let control = listen_anywhere(rt, listeners)?;
    let heartbeat = listen_anywhere(rt, listeners)?;
    Ok([shell, iopub, stdin, control, heartbeat])
}

/// Five ports that were free a moment ago, none of them twice.
pub(crate) fn free_ports<R>(rt: &R, alloc: Global) -> Result<[u16; 5]>
where
    R: Net<Listener = TcpListener, Stream = TcpStream>,
{
    let mut listeners = Vec::new(alloc);
    listen_five(rt, &mut listeners)
}

/// The fields of a connection file that have these ports.
fn fields_of(alloc: Global, ports: [u16; 5]) -> Result<String> {
    let [shell, iopub, stdin, control, heartbeat] = ports;
    Ok(format!(in alloc;
        "\"shell_port\":{shell},\"iopub_port\":{iopub},\"stdin_port\":{stdin},\"control_port\":{control},\"hb_port\":{heartbeat}"
    )?)
}

/// The text of a connection file with this address and these ports.
fn connection_text(alloc: Global, ip: &str, ports: [u16; 5], key: &str) -> Result<String> {
    let ports = fields_of(alloc, ports)?;
    match format!(in alloc; "{{\"transport\":\"tcp\",\"ip\":\"{ip}\",{ports},\"key\":\"{key}\"}}") {
        Ok(text) => Ok(text),
        Err(error) => Err(error.into()),
    }
}

/// Writes a file that nobody reads but its owner.
pub(crate) fn write_own<R: Files>(rt: &R, path: &str, octets: &[u8]) -> Result<()> {
    fs::write(rt, path, octets)?;
    fs::set_permissions(rt, path, Permissions::from_mode(0o600))
}

/// Writes a connection file with this address and these ports.
pub(crate) fn write_connection<R: Files>(
    rt: &R,
    alloc: Global,
    path: &str,
    ip: &str,
    ports: [u16; 5],
    key: &str,
) -> Result<()> {
    match connection_text(alloc, ip, ports, key) {
        Ok(text) => write_own(rt, path, text.as_bytes()),
        Err(error) => Err(error),
    }
}

/// The path of the connection file of a kernel with these ports.
fn path_of(alloc: Global, ports: [u16; 5]) -> Result<String> {
    let [shell, ..] = ports;
    Ok(format!(in alloc; "kernel-{shell}.json")?)
}

/// Writes a connection file with free ports, this address and the key, for frontends of this minor version and a kernel of these limits.
fn new_site<R>(rt: &R, alloc: Global, ip: &str, minor: u8, limits: Limits) -> Result<Site>
where
    R: Net<Listener = TcpListener, Stream = TcpStream> + Files,
{
    let ports = free_ports(rt, alloc)?;
    let path = path_of(alloc, ports)?;
    match write_connection(rt, alloc, &path, ip, ports, KEY) {
        Ok(()) => Ok(Site {
            path,
            ports,
            minor,
            limits,
        }),
        Err(error) => Err(error),
    }
}

/// Writes a connection file with free ports, this address and the key, for frontends of this minor version and a kernel of these limits; none where
/// that fails, which is told.
pub(crate) fn make_site<R>(
    rt: &R,
    ip: &str,
    minor: u8,
    limits: Limits,
    sheet: &mut Sheet,
) -> Option<Site>
where
    R: Net<Listener = TcpListener, Stream = TcpStream> + Files,
{
    match new_site(rt, sheet.alloc(), ip, minor, limits) {
        Ok(site) => Some(site),
        Err(error) => {
            tell_error(&error, sheet);
            None
        }
    }
}

/// Connects to a port, at which a kernel may not listen yet.
pub(crate) fn connect<R>(rt: &R, port: u16) -> Result<TcpStream>
where
    R: Net<Listener = TcpListener, Stream = TcpStream>,
{
    TcpStream::connect(rt, ("127.0.0.1", port))
}

/// Waits until something listens at a port, and connects to it.
pub(crate) fn await_port<R>(rt: &R, port: u16) -> Result<TcpStream>
where
    R: Net<Listener = TcpListener, Stream = TcpStream> + Clock,
{
    for _ in 0..TRIES {
        if let Ok(stream) = connect(rt, port) {
            return Ok(stream);
        }
        thread::sleep(rt, Duration::from_millis(PAUSE_MILLISECONDS));
    }
    Err(ErrorKind::TimedOut.into())
}
