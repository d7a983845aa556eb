//! The wire of ZMTP 3.1: the greeting, frames, and the reading of a stream that comes in any pieces.
//!
//! To the layer above this crate promises that the frames which a `Decoder` gives are those of the whole list of octets
//! fed to it, whatever the cut; that it tells the fault of that list where there is one, and for good; and that what
//! `Greeting::write`, `Frame::write` and `write_message` give is read again, whatever follows. `send_message` writes a message to
//! any writer, or a beginning of it, and `send_pong` the answer to a ping; `pong_context` tells such an answer by its octets.
//!
//! The definitions, in specs/, are those of RFC 23 (ZMTP 3.0), "Formal Grammar" (greeting, command, message), with the
//! mechanism NULL and with this project's limits on the size of a message, and of RFC 37 (ZMTP 3.1): the minor version, and PONG.
//!
//! A piece that came leaves memory for what there was, or for four times the octets that aren't given; a size that a header tells takes
//! none. Where all was given, `settle` leaves 131,072 octets at most. Of what is kept as a piece comes, less than half was given already.
//! `next` wants memory only where a whole frame comes next. That no message past a limit goes to a writer is no clause's.
#![tactic(auto)]

ghost use Rattle.zmtp_wire.specs.Laws.{EveryStreamIsRead, StreamsHaveOneReading, ReadingsGoOn, FaultsStay, FramesAreReadBack, MessagesAreReadBack};
ghost use Rattle.zmtp_wire.specs.Laws.{PongsAreReadBack, OctetsTellOneMessage, NoCutMatters, CutsAgree};

mod decoder;
mod fault;
mod frame;
mod greeting;
mod header;
mod message;
mod pong;
mod sending;
mod tally;

pub use decoder::{Decoder, KEPT_BUFFER_OCTETS};
pub use fault::WireFault;
pub use frame::Frame;
pub use greeting::{GREETING_LENGTH, Greeting, MAJOR, MINOR};
pub use header::COMMAND;
pub use message::{octets_of_message, write_message};
pub use pong::{CONTEXT_LIMIT, PING_OCTETS, pong_context};
pub use sending::{SendFault, send_message, send_pong};
pub use tally::{MESSAGE_FRAME_LIMIT, MESSAGE_OCTET_LIMIT};

/// Law: each list of octets has a reading.
pub fn every_stream_is_read_law()
    ensures { EveryStreamIsRead }
{}

/// Law: no list of octets has two readings.
pub fn streams_have_one_reading_law()
    ensures { StreamsHaveOneReading }
{}

/// Law: with more octets behind them the octets have the same frames, and maybe more.
pub fn readings_go_on_law()
    ensures { ReadingsGoOn }
{}

/// Law: a fault is the same whatever follows.
pub fn faults_stay_law()
    ensures { FaultsStay }
{}

/// Law: the octets of a frame that keeps the limits are read as this frame, whatever follows, in either form.
pub fn frames_are_read_back_law()
    ensures { FramesAreReadBack }
{}

/// Law: the octets of a message that keeps the limits are read as its frames, whatever follows, which is read as if it stood
/// alone.
pub fn messages_are_read_back_law()
    ensures { MessagesAreReadBack }
{}

/// Law: the octets of a message that keeps the limits are those of no other one.
pub fn octets_tell_one_message_law()
    ensures { OctetsTellOneMessage }
{}

/// Law: the octets of a pong are read as that frame, also within a message, and what follows as if it stood alone.
pub fn pongs_are_read_back_law()
    ensures { PongsAreReadBack }
{}

/// Law: for each list of pieces, and whenever frames are asked for in between, the frames are those of all octets joined.
pub fn no_cut_matters_law()
    ensures { NoCutMatters }
{}

/// Law: two ways to cut one stream, each followed to its end, give the same frames and the same end.
pub fn cuts_agree_law()
    ensures { CutsAgree }
{}
