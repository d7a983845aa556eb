//! Why a message, a request or a connection file is refused.
ghost use Rattle.std.specs.Prelude.{◌≡◌, option_map};
ghost use Rattle.jupyter_msg.specs.Fault.{number_of, fault_name, place_name, part_name, field_name, setting_name};

use std::alloc::{AllocError, AllocFailed};
use std::fmt;
use thiserror::Error;

/// One of the four parts of a message that are signed.
#[derive(Clone, Copy, Debug, PartialEq, Eq)]
pub enum Part {
    /// The header.
    Header,
    /// The header of the message that is answered.
    Parent,
    /// The metadata.
    Metadata,
    /// The content.
    Content,
}

impl Part {
    /// The part as the wire protocol calls it: `header`, `parent_header`, `metadata` or `content`.
    pub fn name(self) -> &'static str
        ensures { result.now ≡ part_name self }
    {
        match self {
            Part::Header => "header",
            Part::Parent => "parent_header",
            Part::Metadata => "metadata",
            Part::Content => "content",
        }
    }
}

/// A field of a header or of a request's content.
#[derive(Clone, Copy, Debug, PartialEq, Eq)]
pub enum Field {
    /// `msg_id` of a header.
    MsgId,
    /// `session` of a header and of a history request.
    Session,
    /// `msg_type` of a header.
    MsgType,
    /// `code` of the requests to execute, complete, inspect and judge code.
    Code,
    /// `silent` of a request to execute.
    Silent,
    /// `store_history` of a request to execute.
    StoreHistory,
    /// `user_expressions` of a request to execute.
    UserExpressions,
    /// `cursor_pos` of the requests to complete and to inspect.
    CursorPos,
    /// `hist_access_type` of a history request.
    HistAccessType,
    /// `output` of a history request.
    Output,
    /// `start` of a history request.
    Start,
    /// `stop` of a history request.
    Stop,
    /// `n` of a history request, and of what a comm message asks.
    N,
    /// `target_name` of a comm's opening and of the request for open comms.
    TargetName,
    /// `restart` of a request to shut down.
    Restart,
    /// `comm_id` of what is sent on a comm.
    CommId,
    /// `data` of what is sent on a comm.
    Data,
    /// `op` of what a comm message asks.
    Op,
}

impl Field {
    /// The field's name in JSON, as the messaging page has it.
    pub fn name(self) -> &'static str
        ensures { result.now ≡ field_name self }
    {
        match self {
            Field::MsgId => "msg_id",
            Field::Session => "session",
            Field::MsgType => "msg_type",
            Field::Code => "code",
            Field::Silent => "silent",
            Field::StoreHistory => "store_history",
            Field::UserExpressions => "user_expressions",
            Field::CursorPos => "cursor_pos",
            Field::HistAccessType => "hist_access_type",
            Field::Output => "output",
            Field::Start => "start",
            Field::Stop => "stop",
            Field::N => "n",
            Field::TargetName => "target_name",
            Field::Restart => "restart",
            Field::CommId => "comm_id",
            Field::Data => "data",
            Field::Op => "op",
        }
    }
}

/// A field of a connection file, or the file as a whole.
#[derive(Clone, Copy, Debug, PartialEq, Eq)]
pub enum Setting {
    /// The file as a whole.
    File,
    /// `transport`.
    Transport,
    /// `ip`.
    Ip,
    /// `shell_port`.
    ShellPort,
    /// `iopub_port`.
    IopubPort,
    /// `stdin_port`.
    StdinPort,
    /// `control_port`.
    ControlPort,
    /// `hb_port`.
    HbPort,
    /// `key`.
    Key,
    /// `signature_scheme`.
    SignatureScheme,
}

impl Setting {
    /// The field's name in the file; `file` is the file as a whole.
    pub fn name(self) -> &'static str
        ensures { result.now ≡ setting_name self }
    {
        match self {
            Setting::File => "file",
            Setting::Transport => "transport",
            Setting::Ip => "ip",
            Setting::ShellPort => "shell_port",
            Setting::IopubPort => "iopub_port",
            Setting::StdinPort => "stdin_port",
            Setting::ControlPort => "control_port",
            Setting::HbPort => "hb_port",
            Setting::Key => "key",
            Setting::SignatureScheme => "signature_scheme",
        }
    }
}

/// Why a message, a request or a connection file is refused.
#[derive(Clone, Copy, Debug, PartialEq, Eq, Error)]
pub enum MsgFault {
    /// No frame is the delimiter `<IDS|MSG>`.
    NoDelimiter,
    /// Fewer than five frames follow the delimiter.
    ShortMessage,
    /// The signature is not that of the four parts under the key.
    BadSignature,
    /// The part is not the text of a JSON object.
    NotJson(Part),
    /// The field is missing, or its value is none that the field may have.
    BadField(Field),
    /// No request has this type.
    UnknownType,
    /// There was no memory.
    Memory,
    /// The field of the connection file is missing, or its value is none that the field may have.
    BadConnection(Setting),
}

impl MsgFault {
    /// The number under which the refusal is told.
    pub fn number(self) -> u8
        ensures { result ≡ number_of self }
    {
        match self {
            MsgFault::NoDelimiter => 20,
            MsgFault::ShortMessage => 21,
            MsgFault::BadSignature => 22,
            MsgFault::NotJson(_) => 23,
            MsgFault::BadField(_) => 24,
            MsgFault::UnknownType => 25,
            MsgFault::Memory => 26,
            MsgFault::BadConnection(_) => 27,
        }
    }

    /// The word under which the refusal is told.
    pub fn name(self) -> &'static str
        ensures { result.now ≡ fault_name self }
    {
        match self {
            MsgFault::NoDelimiter => "NoDelimiter",
            MsgFault::ShortMessage => "ShortMessage",
            MsgFault::BadSignature => "BadSignature",
            MsgFault::NotJson(_) => "NotJson",
            MsgFault::BadField(_) => "BadField",
            MsgFault::UnknownType => "UnknownType",
            MsgFault::Memory => "Memory",
            MsgFault::BadConnection(_) => "BadConnection",
        }
    }
}

impl MsgFault {
    /// The name of the part or the field that is refused, if it is one alone.
    fn place(self) -> Option<&'static str>
        ensures { option_map (λ name. name.now) result ≡ place_name self }
    {
        match self {
            MsgFault::NotJson(part) => Some(part.name()),
            MsgFault::BadField(field) => Some(field.name()),
            MsgFault::BadConnection(setting) => Some(setting.name()),
            MsgFault::NoDelimiter
            | MsgFault::ShortMessage
            | MsgFault::BadSignature
            | MsgFault::UnknownType
            | MsgFault::Memory => None,
        }
    }
}

/// The refusal's word, and behind a space the name of what is refused, if there is one.
impl fmt::Display for MsgFault {
    fn fmt<W: fmt::Write>(&self, f: &mut fmt::Formatter<W>) -> fmt::Result {
        f.write_str(self.name())?;
        match self.place() {
            Some(place) => write!(f, " {place}"),
            None => Ok(()),
        }
    }
}

impl From<AllocError> for MsgFault {
    ghost use Rattle.jupyter_msg.specs.declared.fault.MsgFault.TheVariants.{Memory};

    ghost from_gives = { λ _ e. e ≡ Memory };

    fn from(_: AllocError) -> Self {
        MsgFault::Memory
    }
}

impl<T: Drop> From<AllocFailed<T>> for MsgFault {
    ghost use Rattle.jupyter_msg.specs.declared.fault.MsgFault.TheVariants.{Memory};

    ghost from_gives = { λ _ e. e ≡ Memory };

    fn from(_: AllocFailed<T>) -> Self {
        MsgFault::Memory
    }
}
