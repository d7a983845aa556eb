//! Changes of the open comms.
ghost use Rattle.kernel_ask.specs.CommChanges.{IsChange};

use crate::answer::HallFault;
use crate::comms::Comms;

/// A change of the open comms, by the id of one: an id that is opened is kept, and one that is closed is lent.
#[derive(Drop)]
pub enum CommChange<'a> {
    Open(String),
    Close(&'a str),
}

/// Opens or closes a comm over the lent comms, and tells whether it did: one that is open is not opened, nor is one past the limit, and
/// one that is not open is not closed. The only refusal is `Memory`, of an opening, and it leaves the comms as they were.
pub fn comm_on(comms: &mut Comms, change: CommChange<'_>) -> Result<bool, HallFault>
    ensures { IsChange comms.old change.entry result comms.new }
{
    match change {
        CommChange::Open(id) => match comms.open(id) {
            Ok(is_opened) => Ok(is_opened),
            Err(_) => Err(HallFault::Memory),
        },
        CommChange::Close(id) => Ok(comms.close(id)),
    }
}
