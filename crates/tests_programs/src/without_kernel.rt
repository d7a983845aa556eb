//! Rows where no kernel comes to run, each with the status of a program and what it wrote. `kernel` and `console` (a number, and the words of a command
//! line) run a program over its words, and give no more than this number of octets of each of its two streams. `file` (a text) runs both programs on a
//! connection file with this text, and `missing` on one that isn't there. `alone` runs a console at ports where no kernel listens, and `unanswered` where
//! one listens that says nothing. `taken` (a socket, of shell, iopub, stdin, control and heartbeat the first is 1) runs a kernel whose port for this socket
//! another one has. `readable` (a mode in octal digits) runs a kernel on a connection file of this mode, whose ports another one has. `limits` gives how
//! many milliseconds `janus-kernel` gives a handshake, a message, a stranger, who is silent where nothing is signed, who showed the key, a pong, who still
//! writes at the end, and a limit that is near; how many octets strangers may bring together, and a subscriber; and how many are served at once on a
//! socket, and the nodes and the minutes that there are.
use crate::content::KEY;
use crate::programs::{ask, run_console, run_kernel};
use crate::site::{LOOPBACK, free_ports, listen, listen_anywhere, write_connection, write_own};
use crate::talk::place;
use crate::told::tell_error;
use kernel_program::Limits;
use std::fs::{self, Permissions};
use std::io::Result;
use std::net::{Net, TcpListener, TcpStream};
use std::os::unix::fs::PermissionsExt;
use std::random::RandomSource;
use std::rt::Files;
use std::sync::Wait;
use std::thread::Threads;
use std::time::Clock;
use tests_rows::{Sheet, cut, number};

/// The connection file of these rows.
const PATH: &str = "connection.json";

/// Writes the calls with their answers.
pub(crate) fn tell<R>(rt: &R, calls: &str, sheet: &mut Sheet)
where
    R: Net<Listener = TcpListener, Stream = TcpStream>
        + Files
        + RandomSource
        + Threads
        + Wait
        + Clock
        + Sync,
{
    for call in calls.lines() {
        sheet.write(call);
        sheet.write(": ");
        if let Err(error) = answer(rt, call, sheet) {
            tell_error(&error, sheet);
        }
        sheet.write("\n");
    }
}

/// Writes the answer to a call.
fn answer<R>(rt: &R, call: &str, sheet: &mut Sheet) -> Result<()>
where
    R: Net<Listener = TcpListener, Stream = TcpStream>
        + Files
        + RandomSource
        + Threads
        + Wait
        + Clock
        + Sync,
{
    let (word, rest) = cut(call);
    match word {
        "file" => file(rt, rest, sheet),
        "alone" => alone(rt, sheet),
        "unanswered" => unanswered(rt, sheet),
        "taken" => taken(rt, place(rest), sheet),
        "readable" => readable(rt, rest, sheet),
        "limits" => {
            show_limits(Limits::USUAL, sheet);
            Ok(())
        }
        _ => {
            run_words(rt, word, rest, sheet);
            Ok(())
        }
    }
}

/// Writes the times of a kernel, in milliseconds, and its other limits.
fn show_limits(limits: Limits, sheet: &mut Sheet) {
    let times = limits.times;
    let all = [
        times.handshake,
        times.message,
        times.stranger,
        times.silence,
        times.owner,
        times.answer,
        times.grace,
        times.pause,
        limits.common as u64,
        limits.subscriber,
    ];
    sheet.show(&all);
    sheet.write(" ");
    sheet.show(&[limits.places, limits.nodes, limits.minutes]);
}

/// Runs the kernel on the connection file.
fn run_kernel_on_file<R>(rt: &R, sheet: &mut Sheet)
where
    R: Net<Listener = TcpListener, Stream = TcpStream>
        + Files
        + RandomSource
        + Threads
        + Wait
        + Clock
        + Sync,
{
    run_kernel(rt, sheet.alloc(), Limits::USUAL, &["janus-kernel", PATH]).tell(usize::MAX, sheet);
}

/// Runs both programs on the connection file.
fn run_both<R>(rt: &R, sheet: &mut Sheet)
where
    R: Net<Listener = TcpListener, Stream = TcpStream>
        + Files
        + RandomSource
        + Threads
        + Wait
        + Clock
        + Sync,
{
    run_kernel_on_file(rt, sheet);
    sheet.write(" ");
    ask(rt, PATH, "show", "", sheet);
}

/// Runs both programs on a connection file with this text.
fn file<R>(rt: &R, text: &str, sheet: &mut Sheet) -> Result<()>
where
    R: Net<Listener = TcpListener, Stream = TcpStream>
        + Files
        + RandomSource
        + Threads
        + Wait
        + Clock
        + Sync,
{
    write_own(rt, PATH, text.as_bytes())?;
    run_both(rt, sheet);
    fs::remove_file(rt, PATH)
}

/// Runs a console on a connection file with these ports and this key.
fn run_console_at<R>(rt: &R, ports: [u16; 5], key: &str, sheet: &mut Sheet) -> Result<()>
where
    R: Net<Listener = TcpListener, Stream = TcpStream> + Files,
{
    write_connection(rt, sheet.alloc(), PATH, LOOPBACK, ports, key)?;
    ask(rt, PATH, "show", "", sheet);
    fs::remove_file(rt, PATH)
}

/// Runs a console at free ports.
fn alone<R>(rt: &R, sheet: &mut Sheet) -> Result<()>
where
    R: Net<Listener = TcpListener, Stream = TcpStream> + Files,
{
    let ports = free_ports(rt, sheet.alloc())?;
    run_console_at(rt, ports, KEY, sheet)
}

/// Runs a console at a port of a listener that says nothing.
fn unanswered<R>(rt: &R, sheet: &mut Sheet) -> Result<()>
where
    R: Net<Listener = TcpListener, Stream = TcpStream> + Files,
{
    let mut listeners = Vec::new(sheet.alloc());
    match listen_anywhere(rt, &mut listeners) {
        Ok(port) => run_console_at(rt, [port; 5], "", sheet),
        Err(error) => Err(error),
    }
}

/// Runs a kernel of whose ports another one has that of this place.
fn taken<R>(rt: &R, at: usize, sheet: &mut Sheet) -> Result<()>
where
    R: Net<Listener = TcpListener, Stream = TcpStream>
        + Files
        + RandomSource
        + Threads
        + Wait
        + Clock
        + Sync,
{
    let ports = free_ports(rt, sheet.alloc())?;
    write_connection(rt, sheet.alloc(), PATH, LOOPBACK, ports, "")?;
    match listen(rt, ports.get(at).copied().unwrap_or(0)) {
        Ok(_taken) => run_kernel_on_file(rt, sheet),
        Err(error) => return Err(error),
    }
    fs::remove_file(rt, PATH)
}

/// Runs a kernel on a connection file of this mode; another one has its ports.
fn readable<R>(rt: &R, mode: &str, sheet: &mut Sheet) -> Result<()>
where
    R: Net<Listener = TcpListener, Stream = TcpStream>
        + Files
        + RandomSource
        + Threads
        + Wait
        + Clock
        + Sync,
{
    let ports = free_ports(rt, sheet.alloc())?;
    write_connection(rt, sheet.alloc(), PATH, LOOPBACK, ports, "")?;
    let mode = u32::from_str_radix(mode, 8).unwrap_or(0);
    fs::set_permissions(rt, PATH, Permissions::from_mode(mode))?;
    let [shell, ..] = ports;
    match listen(rt, shell) {
        Ok(_taken) => run_kernel_on_file(rt, sheet),
        Err(error) => return Err(error),
    }
    fs::remove_file(rt, PATH)
}

/// Runs a program over the words of its command line.
fn run_words<R>(rt: &R, program: &str, row: &str, sheet: &mut Sheet)
where
    R: Net<Listener = TcpListener, Stream = TcpStream>
        + Files
        + RandomSource
        + Threads
        + Wait
        + Clock
        + Sync,
{
    let (most, line) = cut(row);
    match line.split(' ').collect::<Vec<&str>>(sheet.alloc()) {
        Ok(words) => run_program(rt, program, &words, number(most), sheet),
        Err(_) => sheet.refuse(),
    }
}

/// Runs a program over these words, or both on the connection file, and writes no more than a number of octets of each stream.
fn run_program<R>(rt: &R, program: &str, words: &[&str], most: usize, sheet: &mut Sheet)
where
    R: Net<Listener = TcpListener, Stream = TcpStream>
        + Files
        + RandomSource
        + Threads
        + Wait
        + Clock
        + Sync,
{
    match program {
        "kernel" => run_kernel(rt, sheet.alloc(), Limits::USUAL, words).tell(most, sheet),
        "console" => run_console(rt, sheet.alloc(), words).tell(most, sheet),
        _ => run_both(rt, sheet),
    }
}
