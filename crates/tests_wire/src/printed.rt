//! Rows of the texts under which faults and refusals are printed: of the `wire`, of a `peer` and of `messages`, by their places in the
//! lists below.
use jupyter_msg::{Field, MsgFault, Part, Setting};
use tests_rows::{Sheet, cut, number};
use zmtp_peer::PeerFault;
use zmtp_wire::WireFault;

const WIRE: [WireFault; 7] = [
    WireFault::BadSignature,
    WireFault::OldVersion,
    WireFault::BadMechanism,
    WireFault::ReservedBits,
    WireFault::CommandWithMore,
    WireFault::TooLong,
    WireFault::Memory,
];

const PEER: [PeerFault; 6] = [
    PeerFault::MEMORY,
    PeerFault::NoSocketType,
    PeerFault::WrongPair,
    PeerFault::BadMetadata,
    PeerFault::NotReady,
    PeerFault::BadPing,
];

const MESSAGES: [MsgFault; 8] = [
    MsgFault::NoDelimiter,
    MsgFault::ShortMessage,
    MsgFault::BadSignature,
    MsgFault::NotJson(Part::Parent),
    MsgFault::BadField(Field::CursorPos),
    MsgFault::UnknownType,
    MsgFault::Memory,
    MsgFault::BadConnection(Setting::File),
];

/// Writes the text of the fault at a place of a list.
pub(crate) fn answer(call: &str, sheet: &mut Sheet) {
    let (word, rest) = cut(call);
    let at = number(rest);
    match word {
        "wire" if at < WIRE.len() => sheet.display(&WIRE[at]),
        "peer" if at < PEER.len() => sheet.display(&PEER[at]),
        "messages" if at < MESSAGES.len() => sheet.display(&MESSAGES[at]),
        _ => {}
    }
}
