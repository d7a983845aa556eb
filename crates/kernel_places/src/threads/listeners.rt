//! The listening sockets.
use kernel_desk::Socket;
use kernel_sockets::{Hangups, Listener};
use std::sync::Mutex;

/// The five listening sockets, and who tells of the connections that came from them whether their peers have hung up.
#[derive(Drop)]
pub struct Listeners {
    pub shell: Listener,
    pub iopub: Listener,
    pub stdin: Listener,
    pub control: Listener,
    pub heartbeat: Listener,
    pub hangups: Mutex<Hangups>,
}

impl Listeners {
    /// The listener of a socket.
    pub(crate) fn of(&self, socket: Socket) -> &Listener {
        match socket {
            Socket::Shell => &self.shell,
            Socket::Iopub => &self.iopub,
            Socket::Stdin => &self.stdin,
            Socket::Control => &self.control,
            Socket::Heartbeat => &self.heartbeat,
        }
    }

    /// Refuses all that wait for a connection, and all that come later.
    pub(crate) fn close(&self) {
        self.shell.close();
        self.iopub.close();
        self.stdin.close();
        self.control.close();
        self.heartbeat.close();
    }
}
