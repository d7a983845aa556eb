//! What an audit finds untrue.
use thiserror::Error;

/// What the minutes don't hold.
#[derive(Clone, Copy, Debug, Error)]
pub enum AuditFault {
    /// The posts of the passes don't add up to those of the minutes.
    #[error("PassMissing")]
    PassMissing,
    /// Something that was told of the post of this number is not so.
    #[error("TicketUnknown({0})")]
    TicketUnknown(u64),
}

impl AuditFault {
    ghost use Rattle.std.specs.Prelude.{◌≡◌};
    ghost use Rattle.kernel_audit.specs.AuditFault.{number_of, name_of};

    /// The number under which the fault is told.
    pub fn number(self) -> u8
        ensures { result ≡ number_of self }
    {
        match self {
            AuditFault::PassMissing => 78,
            AuditFault::TicketUnknown(_) => 79,
        }
    }

    /// The word under which the fault is told.
    pub fn name(self) -> &'static str
        ensures { result.now ≡ name_of self }
    {
        match self {
            AuditFault::PassMissing => "PassMissing",
            AuditFault::TicketUnknown(_) => "TicketUnknown",
        }
    }
}
