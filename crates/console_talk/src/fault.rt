//! What goes wrong beside the kernel.
ghost use Rattle.std.specs.Prelude.{◌≡◌};

use crate::printed::AnswerFault;
use jupyter_msg::{MsgFault, Setting};
use std::alloc::{AllocError, AllocFailed};
use thiserror::Error;

/// Why a console ends without an answer of the kernel.
#[derive(Clone, Copy, Debug, Error)]
#[error("{}", self.reason())]
pub enum ConsoleFault {
    /// The field of the connection file is missing or wrong; `file` where there is no such file, or where it is no JSON object.
    BadFile(Setting),
    /// The kernel could not be reached, or it broke off, or what it said is no answer.
    NoConnection,
    /// There was no memory.
    NoMemory,
    /// The kernel closed the comm at once: as many are open as may be.
    NoComm,
}

impl ConsoleFault {
    ghost use Rattle.console_talk.specs.Faults.{reason_of, status_of, file_fault};

    /// What the program says of the fault on standard error, behind its own name.
    pub fn reason(self) -> &'static str
        ensures { result.now ≡ reason_of self }
    {
        match self {
            ConsoleFault::BadFile(Setting::File) => "connection file: file",
            ConsoleFault::BadFile(Setting::Transport) => "connection file: transport",
            ConsoleFault::BadFile(Setting::Ip) => "connection file: ip",
            ConsoleFault::BadFile(Setting::ShellPort) => "connection file: shell_port",
            ConsoleFault::BadFile(Setting::IopubPort) => "connection file: iopub_port",
            ConsoleFault::BadFile(Setting::StdinPort) => "connection file: stdin_port",
            ConsoleFault::BadFile(Setting::ControlPort) => "connection file: control_port",
            ConsoleFault::BadFile(Setting::HbPort) => "connection file: hb_port",
            ConsoleFault::BadFile(Setting::Key) => "connection file: key",
            ConsoleFault::BadFile(Setting::SignatureScheme) => "connection file: signature_scheme",
            ConsoleFault::NoConnection => "no connection",
            ConsoleFault::NoMemory => "no memory",
            ConsoleFault::NoComm => "comm refused",
        }
    }

    /// The status with which the program ends: 1 where the kernel refused the comm, 2 for a connection file, else 3.
    pub fn status(self) -> u8
        ensures { result ≡ status_of self }
    {
        match self {
            ConsoleFault::BadFile(_) => 2,
            ConsoleFault::NoConnection | ConsoleFault::NoMemory => 3,
            ConsoleFault::NoComm => 1,
        }
    }

    /// The fault for which a connection file is refused.
    pub fn of_file(fault: MsgFault) -> ConsoleFault
        ensures { result ≡ file_fault fault }
    {
        match fault {
            MsgFault::BadConnection(setting) => ConsoleFault::BadFile(setting),
            MsgFault::Memory => ConsoleFault::NoMemory,
            MsgFault::NoDelimiter
            | MsgFault::ShortMessage
            | MsgFault::BadSignature
            | MsgFault::NotJson(_)
            | MsgFault::BadField(_)
            | MsgFault::UnknownType => ConsoleFault::BadFile(Setting::File),
        }
    }
}

impl From<AnswerFault> for ConsoleFault {
    ghost use Rattle.std.specs.Prelude.{◌≡◌};
    ghost use Rattle.console_talk.specs.Faults.{answer_fault};

    ghost from_gives = { λ fault e. e ≡ answer_fault fault };

    fn from(fault: AnswerFault) -> Self {
        match fault {
            AnswerFault::NoAnswer => ConsoleFault::NoConnection,
            AnswerFault::Memory => ConsoleFault::NoMemory,
        }
    }
}

impl From<AllocError> for ConsoleFault {
    ghost use Rattle.std.specs.Prelude.{◌≡◌};
    ghost use Rattle.console_talk.specs.declared.fault.ConsoleFault.TheVariants.{NoMemory};

    ghost from_gives = { λ _ e. e ≡ NoMemory };

    fn from(_: AllocError) -> Self {
        ConsoleFault::NoMemory
    }
}

impl<T: Drop> From<AllocFailed<T>> for ConsoleFault {
    ghost use Rattle.std.specs.Prelude.{◌≡◌};
    ghost use Rattle.console_talk.specs.declared.fault.ConsoleFault.TheVariants.{NoMemory};

    ghost from_gives = { λ _ e. e ≡ NoMemory };

    fn from(_: AllocFailed<T>) -> Self {
        ConsoleFault::NoMemory
    }
}
