//! The sockets of a kernel.
ghost use Rattle.std.specs.Prelude.{◌≡◌};
ghost use Rattle.kernel_session.specs.Session.{role_of, serves as is_served};

use jupyter_msg::RequestType;
use zmtp_peer::Role;

/// Which socket of the kernel a connection came to (Jupyter messaging page, "Introduction").
#[derive(Clone, Copy, PartialEq, Eq)]
pub enum Socket {
    /// Requests of frontends.
    Shell,
    /// Requests that don't wait behind those on shell.
    Control,
    /// Broadcasts, to who subscribes to them.
    Iopub,
    /// Input for cells, of which none asks for any.
    Stdin,
    /// Whatever comes is sent back.
    Heartbeat,
}

impl Socket {
    /// The side that the kernel takes on the socket.
    pub fn role(self) -> Role
        ensures { result ≡ role_of self }
    {
        match self {
            Socket::Shell | Socket::Control | Socket::Stdin => Role::Router,
            Socket::Iopub => Role::Pub,
            Socket::Heartbeat => Role::Rep,
        }
    }

    /// Whether requests of this type are served on the socket: on shell all, on control all but execution and the comms.
    pub(crate) fn serves(self, request_type: RequestType) -> bool
        ensures { result ≡ is_served self request_type }
    {
        match self {
            Socket::Shell => true,
            Socket::Control => !matches!(
                request_type,
                RequestType::Execute
                    | RequestType::CommOpen
                    | RequestType::CommMessage
                    | RequestType::CommClose
            ),
            Socket::Iopub | Socket::Stdin | Socket::Heartbeat => false,
        }
    }
}
