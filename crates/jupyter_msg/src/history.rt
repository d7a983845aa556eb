//! The request for the input history (Jupyter messaging page, "History").
ghost use Rattle.std.specs.Prelude.{◌≡◌, Some, None, IfSome, IfOk, IfErr, option_and_then};
ghost use Rattle.serde_json.specs.View.{view};
ghost use Rattle.jupyter_msg.specs.Asked.{Tells};
ghost use Rattle.jupyter_msg.specs.Fields.{first_wrong, value_at};
ghost use Rattle.jupyter_msg.specs.Requests.{IsHistory, access_name, access_named, as_access, fields_of};

use crate::fault::{Field, MsgFault};
use crate::fields::{count, flag, text_in, whole};
use crate::request_type::RequestType;
use serde_json::Value;

/// How the history is asked for.
#[derive(Clone, Copy, Debug)]
pub enum HistoryAccess {
    /// From `start` on, without `stop`.
    Range,
    /// The last `n`.
    Tail,
    /// By a pattern.
    Search,
}

impl HistoryAccess {
    /// The access of this name: `range`, `tail` or `search`.
    #[tactic(auto, unfolding(crate::specs::Requests::access_named))]
    pub fn named(name: &str) -> Option<HistoryAccess>
        ensures access { result ≡ access_named name.now }

        // It is the one access that has the name.
        ensures has_name { IfSome result (λ a. access_name a ≡ name.now) }
        ensures every { (a : HistoryAccess) → access_name a ≡ name.now → result ≡ Some a }
    {
        if name == "range" {
            Some(HistoryAccess::Range)
        } else if name == "tail" {
            Some(HistoryAccess::Tail)
        } else if name == "search" {
            Some(HistoryAccess::Search)
        } else {
            None
        }
    }
}

/// The request for the input history. A field that is missing has the value in parentheses.
#[derive(Debug, Drop)]
pub struct HistoryRequest {
    /// How the history is asked for.
    pub access: HistoryAccess,
    /// With the output (`false`).
    pub output: bool,
    /// The session: 0 is the present one, a number below 0 counts back from it, and one above 0 is the number of a
    /// session (0).
    pub session: i64,
    /// The first number of a range (1).
    pub start: u64,
    /// The number after the last of a range (none).
    pub stop: Option<u64>,
    /// How many of the last (10).
    pub n: u64,
}

/// The access of the field `hist_access_type`.
fn access_in(content: &Value) -> Result<HistoryAccess, MsgFault>
    ensures value { IfOk result (λ a. option_and_then as_access
        (value_at Field.HistAccessType (view content.now)) ≡ Some a) }
    ensures refused { IfErr result (λ e. (e ≡ MsgFault.BadField Field.HistAccessType)
        × (option_and_then as_access (value_at Field.HistAccessType (view content.now)) ≡ None)) }
{
    HistoryAccess::named(text_in(content, Field::HistAccessType)?).ok_or(MsgFault::BadField(
        Field::HistAccessType,
    ))
}

impl HistoryRequest {
    /// Reads the content of a `history_request`.
    pub(crate) fn read(content: &Value) -> Result<HistoryRequest, MsgFault>
        ensures { Tells (IsHistory (view content.now)) result
            (first_wrong (fields_of RequestType.History) (view content.now)) }
    {
        let access = access_in(content)?;
        let output = flag(content, Field::Output)?.unwrap_or(false);
        let session = whole(content, Field::Session)?.unwrap_or(0);
        let start = count(content, Field::Start)?.unwrap_or(1);
        let stop = count(content, Field::Stop)?;
        let n = count(content, Field::N)?.unwrap_or(10);
        Ok(HistoryRequest {
            access,
            output,
            session,
            start,
            stop,
            n,
        })
    }
}
