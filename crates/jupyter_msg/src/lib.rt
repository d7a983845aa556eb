//! The messages of a Jupyter kernel: signed frames, the requests that they carry, and the connection file.
//!
//! To the layer above it promises that `open` answers a message exactly for frames that are one, octet for octet, with its
//! header and its content as they were read, and else the first refusal; that what `seal` writes is opened again under its key,
//! where its four parts are JSON objects and no identity is the delimiter; and that `Request::read`, `Request::take` and
//! `Connection::read` give what an opened message asks, with its identities and its header, and what a connection file says, or the
//! first refusal. Want of memory aside, all of it is exact.
//!
//! Keys, HMAC and the signature are those of `jupyter_signature`, whose names are passed on: types and calls here, and definitions
//! in specs/Lib.antt.
//!
//! Frames and requests are those of the Jupyter messaging page (version 5.4, with its wire protocol), the connection file that of
//! Jupyter's page on kernels. JSON is read by `serde_json`.
//!
//! Memory is asked for only once the signature fits.
#![tactic(auto)]

mod comm;
mod connection;
mod execution;
mod fault;
mod fields;
mod history;
mod introspection;
mod message;
mod object;
mod request;
mod request_type;
mod signature;

pub use comm::{CommAsk, CommClose, CommInfoRequest, CommMessage, CommOpen};
pub use connection::Connection;
pub use execution::{ExecuteRequest, UserExpression};
pub use fault::{Field, MsgFault, Part, Setting};
pub use history::{HistoryAccess, HistoryRequest};
pub use introspection::{CompleteRequest, InspectRequest, IsCompleteRequest};
pub use jupyter_signature::{Key, Parts, hmac};
pub use message::{Message, Opened, open, seal};
pub use request::{Request, RequestContent, ShutdownRequest};
pub use request_type::RequestType;
pub use signature::sign;
