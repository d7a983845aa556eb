//! What is opened before anything is served: the connection file and the five sockets.
ghost use Rattle.std.specs.Prelude.{◌≡◌, ◌≢◌, codes};

use crate::fault::ProgramFault;
use jupyter_msg::{Connection, MsgFault, Setting};
use kernel_places::Listeners;
use kernel_sockets::{Hangups, Listener};
use std::alloc::Global;
use std::fs;
use std::io::{ErrorKind, Write};
use std::net::{Net, TcpListener, TcpStream};
use std::os::unix::fs::PermissionsExt;
use std::rt::Files;
use std::sync::Mutex;

/// The bits of a file's mode by which its group and all others read it.
const OTHERS_READ: u32 = 0o044;

/// Reads the connection file.
///
/// # Errors
///
/// `File` with the first wrong field, and with `file` where it can't be read or isn't an object; `Memory`.
pub(crate) fn connection_of<R: Files>(
    rt: &R,
    alloc: Global,
    path: &str,
) -> Result<Connection, ProgramFault> {
    let octets = match fs::read(&(rt, &alloc), path) {
        Ok(octets) => octets,
        Err(error) if error.kind() == ErrorKind::OutOfMemory => return Err(ProgramFault::Memory),
        Err(_) => return Err(ProgramFault::File(Setting::File)),
    };
    match Connection::read(alloc, &octets) {
        Ok(connection) => Ok(connection),
        Err(MsgFault::BadConnection(setting)) => Err(ProgramFault::File(setting)),
        Err(_) => Err(ProgramFault::Memory),
    }
}

/// Tells that other users of this machine can read the connection file, where that is so: who has its key can run cells. A fault of the stream, and a file
/// whose mode can't be had, are passed over.
pub(crate) fn tell_readers<R: Files, E: Write>(rt: &R, path: &str, err: &mut E) {
    let Ok(metadata) = fs::metadata(rt, path) else {
        return;
    };
    if metadata.permissions().mode() & OTHERS_READ == 0 {
        return;
    }
    let _ = writeln!(
        err,
        "janus-kernel: other users can read {path}, and who has its key can run cells; chmod 600 keeps them out"
    );
    let _ = err.flush();
}

/// Binds one socket.
fn bind<R: Net<Listener = TcpListener, Stream = TcpStream>>(
    rt: &R,
    ip: &str,
    port: u16,
    setting: Setting,
) -> Result<Listener, ProgramFault> {
    match Listener::bind(rt, ip, port) {
        Ok(listener) => Ok(listener),
        Err(error) if error.kind() == ErrorKind::OutOfMemory => Err(ProgramFault::Memory),
        Err(_) => Err(ProgramFault::Bind(setting)),
    }
}

/// The address that a connection file's `ip` stands for: Jupyter writes `*` for each interface of the machine.
fn address_of(ip: &str) -> &str
    ensures every { ip.now ≡ codes "*" → result.now ≡ codes "0.0.0.0" }
    ensures other { ip.now ≢ codes "*" → result.now ≡ ip.now }
{
    if ip == "*" { "0.0.0.0" } else { ip }
}

/// Binds the five sockets of a connection file, in the order of its fields.
///
/// # Errors
///
/// `Bind` with the field of the first one that can't be bound; `Memory`, also where the system can't tell who hangs up.
pub(crate) fn listeners_of<R: Net<Listener = TcpListener, Stream = TcpStream>>(
    rt: &R,
    alloc: Global,
    file: &Connection,
) -> Result<Listeners, ProgramFault> {
    let ip = address_of(&file.ip);
    let shell = bind(rt, ip, file.shell_port, Setting::ShellPort)?;
    let iopub = bind(rt, ip, file.iopub_port, Setting::IopubPort)?;
    let stdin = bind(rt, ip, file.stdin_port, Setting::StdinPort)?;
    let control = bind(rt, ip, file.control_port, Setting::ControlPort)?;
    let heartbeat = bind(rt, ip, file.hb_port, Setting::HbPort)?;
    let Ok(hangups) = Hangups::new(rt, alloc) else {
        return Err(ProgramFault::Memory);
    };
    Ok(Listeners {
        shell,
        iopub,
        stdin,
        control,
        heartbeat,
        hangups: Mutex::new(hangups),
    })
}
