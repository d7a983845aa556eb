//! Requests: what a message asks on the shell or the control socket (Jupyter messaging page, "Messages on the shell
//! (ROUTER/DEALER) channel", "Messages on the Control (ROUTER/DEALER) channel" and "Custom Messages").
//!
//! The fields of each request stand here in the order in which they are looked at: the first that is missing without a
//! default, or whose value is of another kind, is the one that is told. A value in parentheses stands where the field is
//! missing or null.
//!
//! | Request | Fields | Not looked at |
//! |---|---|---|
//! | `kernel_info_request` | none | |
//! | `execute_request` | `code`: text; `silent`: truth value (false); `store_history`: truth value (true, false if silent); | `allow_stdin`, `stop_on_error` |
//! | | `user_expressions`: object of texts (none) | |
//! | `complete_request` | `code`: text; `cursor_pos`: count (the end) | |
//! | `inspect_request` | `code`: text; `cursor_pos`: count (the end) | `detail_level` |
//! | `is_complete_request` | `code`: text | |
//! | `history_request` | `hist_access_type`: `range`, `tail` or `search`; `output`: truth value (false); `session`: whole number (0); | `raw`, `pattern`, |
//! | | `start`: count (1); `stop`: count (none); `n`: count (10) | `unique` |
//! | `comm_info_request` | `target_name`: text (all) | |
//! | `interrupt_request` | none | |
//! | `shutdown_request` | `restart`: truth value (false) | |
//! | `comm_open` | `comm_id`: text; `target_name`: text; `data`: object | |
//! | `comm_msg` | `comm_id`: text; `data`: object, in which `op`: `undo`, `redo` or `goto` with `n`: count below 2^32, or `state`; other data asks nothing | |
//! | `comm_close` | `comm_id`: text | `data` |
//!
//! A count is a whole number from 0 to 2^64 - 1, and a whole number one of 64 bits with its sign. Neither is written with a
//! fraction or an exponent.
ghost use Rattle.std.specs.Prelude.{◌≡◌, ◌⊎◌, false, Ok, Err, IfOk, IfErr};
ghost use Rattle.serde_json.specs.Data.{Data};
ghost use Rattle.serde_json.specs.View.{view};
ghost use Rattle.jupyter_msg.specs.Asked.{Reads, Tells, asked, type_in};
ghost use Rattle.jupyter_msg.specs.Fields.{first_wrong, flag_at};
ghost use Rattle.jupyter_msg.specs.Octets.{octets, octets_of};
ghost use Rattle.jupyter_msg.specs.Opened.{IsRead};
ghost use Rattle.jupyter_msg.specs.Requests.{IsRequest, type_of, fields_of};

use crate::comm::{CommClose, CommInfoRequest, CommMessage, CommOpen};
use crate::execution::ExecuteRequest;
use crate::fault::{Field, MsgFault};
use crate::fields::{flag, text_in};
use crate::history::HistoryRequest;
use crate::introspection::{CompleteRequest, InspectRequest, IsCompleteRequest};
use crate::message::{Message, Opened, push_copies};
use crate::request_type::RequestType;
use serde_json::Value;
use std::alloc::Global;

/// The request to end the kernel.
#[derive(Debug, Drop)]
pub struct ShutdownRequest {
    /// A new kernel will be started in its place; `false` where the field is missing.
    pub restart: bool,
}

/// What the content of a message asks.
#[derive(Debug, Drop)]
pub enum RequestContent {
    /// What the kernel is.
    KernelInfo,
    /// Execute a cell.
    Execute(ExecuteRequest),
    /// Complete a name.
    Complete(CompleteRequest),
    /// Tell what is known of a name.
    Inspect(InspectRequest),
    /// Judge whether code can be executed as it stands.
    IsComplete(IsCompleteRequest),
    /// Tell the input history.
    History(HistoryRequest),
    /// Tell the open comms.
    CommInfo(CommInfoRequest),
    /// Interrupt what runs.
    Interrupt,
    /// End the kernel.
    Shutdown(ShutdownRequest),
    /// Open a comm.
    CommOpen(CommOpen),
    /// Say something on a comm.
    CommMessage(CommMessage),
    /// Close a comm.
    CommClose(CommClose),
}

/// What a message asks, with what its answer needs of it.
#[derive(Drop)]
pub struct Request {
    /// The routing frames of the message.
    pub identities: Vec<Vec<u8>>,
    /// The header of the message, as JSON.
    pub header: Vec<u8>,
    /// What is asked.
    pub content: RequestContent,
}

impl ShutdownRequest {
    /// Reads the content of a `shutdown_request`.
    fn read(content: &Value) -> Result<ShutdownRequest, MsgFault>
        ensures { Tells (λ r. r.restart ≡ flag_at Field.Restart false (view content.now)) result
            (first_wrong (fields_of RequestType.Shutdown) (view content.now)) }
    {
        let restart = flag(content, Field::Restart)?.unwrap_or(false);
        Ok(ShutdownRequest { restart })
    }
}

/// The type that a header names. Its fields `msg_id`, `session` and `msg_type` are texts.
#[tactic(auto, unfolding(crate::specs::Asked::type_in))]
fn type_in(header: &Value) -> Result<RequestType, MsgFault>
    ensures { result ≡ type_in (view header.now) }
{
    text_in(header, Field::MsgId)?;
    text_in(header, Field::Session)?;
    RequestType::named(text_in(header, Field::MsgType)?).ok_or(MsgFault::UnknownType)
}

impl RequestContent {
    /// The type of the request.
    pub fn request_type(&self) -> RequestType
        ensures { result ≡ type_of self.now }
    {
        match self {
            RequestContent::KernelInfo => RequestType::KernelInfo,
            RequestContent::Execute(_) => RequestType::Execute,
            RequestContent::Complete(_) => RequestType::Complete,
            RequestContent::Inspect(_) => RequestType::Inspect,
            RequestContent::IsComplete(_) => RequestType::IsComplete,
            RequestContent::History(_) => RequestType::History,
            RequestContent::CommInfo(_) => RequestType::CommInfo,
            RequestContent::Interrupt => RequestType::Interrupt,
            RequestContent::Shutdown(_) => RequestType::Shutdown,
            RequestContent::CommOpen(_) => RequestType::CommOpen,
            RequestContent::CommMessage(_) => RequestType::CommMessage,
            RequestContent::CommClose(_) => RequestType::CommClose,
        }
    }

    /// Reads the content of a request of this type.
    fn read(
        alloc: Global,
        request_type: RequestType,
        content: &Value,
    ) -> Result<RequestContent, MsgFault>
        ensures { Reads (λ r. (type_of r ≡ request_type) × IsRequest (view content.now) r) result
            (first_wrong (fields_of request_type) (view content.now)) }
    {
        Ok(match request_type {
            RequestType::KernelInfo => RequestContent::KernelInfo,
            RequestType::Execute => RequestContent::Execute(ExecuteRequest::read(alloc, content)?),
            RequestType::Complete => RequestContent::Complete(CompleteRequest::read(
                alloc, content,
            )?),
            RequestType::Inspect => RequestContent::Inspect(InspectRequest::read(alloc, content)?),
            RequestType::IsComplete => RequestContent::IsComplete(IsCompleteRequest::read(
                alloc, content,
            )?),
            RequestType::History => RequestContent::History(HistoryRequest::read(content)?),
            RequestType::CommInfo => RequestContent::CommInfo(CommInfoRequest::read(
                alloc, content,
            )?),
            RequestType::Interrupt => RequestContent::Interrupt,
            RequestType::Shutdown => RequestContent::Shutdown(ShutdownRequest::read(content)?),
            RequestType::CommOpen => RequestContent::CommOpen(CommOpen::read(alloc, content)?),
            RequestType::CommMessage => RequestContent::CommMessage(CommMessage::read(
                alloc, content,
            )?),
            RequestType::CommClose => RequestContent::CommClose(CommClose::read(alloc, content)?),
        })
    }

    /// As [`RequestContent::read`], of a content that is handed over: the text of a cell and its user expressions are moved out of it.
    fn take(
        alloc: Global,
        request_type: RequestType,
        content: Value,
    ) -> Result<RequestContent, MsgFault>
        ensures { Reads (λ r. (type_of r ≡ request_type) × IsRequest (view content) r) result
            (first_wrong (fields_of request_type) (view content)) }
    {
        match request_type {
            RequestType::Execute => Ok(RequestContent::Execute(ExecuteRequest::take(
                alloc, content,
            )?)),
            RequestType::KernelInfo
            | RequestType::Complete
            | RequestType::Inspect
            | RequestType::IsComplete
            | RequestType::History
            | RequestType::CommInfo
            | RequestType::Interrupt
            | RequestType::Shutdown
            | RequestType::CommOpen
            | RequestType::CommMessage
            | RequestType::CommClose => RequestContent::read(alloc, request_type, &content),
        }
    }
}

impl Request {
    /// Reads what an opened message asks, as on the shell socket. A field that is null counts as missing; fields that the
    /// request does not have are passed over, and of one given twice the last value counts. A whole number is one that is
    /// written with neither a fraction nor an exponent. The header and the content are those that were read as the message was
    /// opened.
    ///
    /// # Errors
    ///
    /// The first that holds of: `BadField` with the first of the header's `msg_id`, `session` and `msg_type` that is no
    /// text; `UnknownType`; `BadField` with the first wrong field of the content. `Memory` may stand in the place of any other
    /// answer.
    pub fn read(alloc: Global, opened: &Opened) -> Result<Request, MsgFault>
        requires { IsRead opened.now }
        ensures request { IfOk result (λ r. (content : Data)
            × (asked (octets_of opened.now.message) ≡ Ok (type_of r.content, content)) × IsRequest content r.content) }
        ensures refused { IfErr result (λ e. (e ≡ MsgFault.Memory)
            ⊎ (asked (octets_of opened.now.message) ≡ Err e)) }

        // Identities and header are the message's.
        ensures identities { IfOk result (λ r. octets r.identities.items ≡ octets opened.now.message.identities.items) }
        ensures header { IfOk result (λ r. r.header.items ≡ opened.now.message.header.items) }
    {
        let request_type = type_in(&opened.header)?;
        let content = RequestContent::read(alloc, request_type, &opened.content)?;
        let mut identities = Vec::new(alloc);
        push_copies(alloc, &mut identities, &opened.message.identities)?;
        Ok(Request {
            identities,
            header: opened.message.header.to_vec(alloc)?,
            content,
        })
    }

    /// As [`Request::read`], of an opened message that is handed over: its identities, its header, the text of a cell and its user expressions
    /// are moved into the request, and not copied. What a request does not have of it is dropped, and with an error all of it.
    ///
    /// # Errors
    ///
    /// Those of [`Request::read`].
    pub fn take(alloc: Global, opened: Opened) -> Result<Request, MsgFault>
        requires { IsRead opened }
        ensures request { IfOk result (λ r. (content : Data)
            × (asked (octets_of opened.message) ≡ Ok (type_of r.content, content)) × IsRequest content r.content) }
        ensures refused { IfErr result (λ e. (e ≡ MsgFault.Memory)
            ⊎ (asked (octets_of opened.message) ≡ Err e)) }

        // Identities and header are the message's.
        ensures identities { IfOk result (λ r. octets r.identities.items ≡ octets opened.message.identities.items) }
        ensures header { IfOk result (λ r. r.header.items ≡ opened.message.header.items) }
    {
        let Opened {
            message,
            header,
            content,
        } = opened;
        let request_type = type_in(&header)?;
        let content = RequestContent::take(alloc, request_type, content)?;
        let Message {
            identities,
            header,
            ..
        } = message;
        Ok(Request {
            identities,
            header,
            content,
        })
    }
}
