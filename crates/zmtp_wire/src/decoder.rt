//! The reading of a stream of frames that comes in pieces.
ghost use Rattle.std.specs.Prelude.{◌≡◌, ◌≢◌, ◌+◌, ◌*◌, ◌≤◌, ◌↔◌, ◌++◌, [], List, ℕ, drop, length, max, IfErr, IfNone, IfOk, IfSome, IsErrOf, IsOkUnless};
ghost use Rattle.std.specs.Prelude.{IsTrue, OnErr, OnOk, vec_capacity, vec_len};
ghost use Rattle.zmtp_wire.specs.Frame.{Frame as FrameSeen, frame_of};
ghost use Rattle.zmtp_wire.specs.Stream.{Takes, HasFrame, IsPartial, IsFaultAt};
ghost use Rattle.zmtp_wire.specs.Decoding.{new_decoding, fed, unfed, SameButRoom, IsMostlyLeft, HasGiven, Tells};

use crate::fault::WireFault;
use crate::frame::Frame;
use crate::header::Header;
use crate::tally::Tally;
use std::alloc::{AllocError, Global};
use std::marker::Model;

/// The most octets of memory that a decoder keeps for the next pieces, where nothing of the stream is left.
pub const KEPT_BUFFER_OCTETS: usize = 131_072;

/// How far a stream is read.
#[derive(Clone, Copy)]
struct Position {
    /// How many octets of the buffer are read.
    at: usize,
    /// The frames of the message that the next frame goes on with.
    tally: Tally,
}

/// Reads a stream of frames, whatever the pieces in which it comes. Contracts see the rest of the stream that isn't given
/// yet, and what the rest was before the last piece.
///
/// It keeps what came and isn't given. What was given is dropped as the next piece comes, once it is at least half of what
/// is kept; so each octet is moved a bounded number of times, and memory grows with what comes, never with a size that was
/// told. Memory past 131,072 octets is given back once all that came was given.
#[derive(Drop)]
pub struct Decoder {
    alloc: Global,
    buffer: Vec<u8>,
    position: Position,
    /// How many octets were in the buffer before the last piece, and how far they were read.
    length_before: usize,
    position_before: Position,
}

impl Model for Decoder {
    ghost use Rattle.std.specs.Prelude.{◌≤◌, drop, take, vec_capacity, vec_len};
    ghost use Rattle.zmtp_wire.specs.Decoding.{Decoding, IsMostlyLeft};

    ghost Value = { Decoding };

    ghost view = { λ d. record {
      rest = record { octets = drop d.position.at d.buffer.items; tally = d.position.tally };
      before = record { octets = drop d.position_before.at (take d.length_before d.buffer.items); tally = d.position_before.tally };
      room = vec_capacity d.buffer;
    } };

    // Of what was kept when the last piece came, less than half was given, or nothing.
    ghost invariant = { λ d. (d.position.at ≤ vec_len d.buffer)
        × (d.position_before.at ≤ d.length_before)
        × (d.length_before ≤ vec_len d.buffer)
        × IsMostlyLeft d.position_before.at d.length_before };
}

impl Decoder {
    /// A decoder that was fed nothing.
    pub fn new(alloc: Global) -> Decoder
        ensures { result ≡ new_decoding }
    {
        let start = Position {
            at: 0,
            tally: Tally::NOTHING,
        };
        Decoder {
            alloc,
            buffer: Vec::new(alloc),
            position: start,
            length_before: 0,
            position_before: start,
        }
    }

    /// Takes the next piece of the stream.
    ///
    /// # Errors
    /// `Memory` alone. Then nothing came: all is as after an empty piece.
    pub fn feed(&mut self, piece: &[u8]) -> Result<(), WireFault>
        ensures fed { OnOk result (SameButRoom (fed self.old piece.now) self.new) }
        ensures memory { IsOkUnless result WireFault.Memory }
        ensures nothing { OnErr result (SameButRoom (fed self.old []) self.new) }
        ensures given { (octets : List ℕ) (given : List FrameSeen) → HasGiven self.old octets given →
            OnOk result (HasGiven self.new (octets ++ piece.now) given) }

        // There is memory for what there was, or for four times what came and isn't given; a size that is told takes none.
        ensures room { OnOk result (self.new.room ≤ max self.old.room (4 * (length self.old.rest.octets + length piece.now))) }
        ensures given_back { OnOk result (self.old.rest.octets ≡ [] → self.new.room ≤ max KEPT_BUFFER_OCTETS (4 * length piece.now)) }
    {
        self.position.at = drop_given(&mut self.buffer, self.position.at);
        self.length_before = self.buffer.len();
        self.position_before = self.position;
        append(&mut self.buffer, piece)?;
        Ok(())
    }

    /// Gives up what was given: it can't be taken back any more. Where nothing is left, a large memory is given back.
    pub fn settle(&mut self)
        ensures rest { self.new.rest ≡ self.old.rest }
        ensures before { self.new.before ≡ self.old.rest }
        ensures room { self.new.room ≤ self.old.room }
        ensures given_back { self.old.rest.octets ≡ [] → self.new.room ≤ KEPT_BUFFER_OCTETS }
    {
        self.position.at = drop_given(&mut self.buffer, self.position.at);
        self.length_before = self.buffer.len();
        self.position_before = self.position;
    }

    /// Whether less than a whole frame is left, and no fault. It takes no memory.
    pub fn is_partial(&self) -> bool
        ensures { IsTrue result ↔ IsPartial self.now.rest }
    {
        match Front::read(&self.buffer[self.position.at..], self.position.tally) {
            Ok(Some(_)) => false,
            Ok(None) => true,
            Err(_) => false,
        }
    }

    /// The next frame, or `None` where less than a whole frame is left.
    ///
    /// # Errors
    /// `ReservedBits`, `CommandWithMore` or `TooLong` where this fault comes next in the stream; it is told again at each
    /// further call. `Memory` where a frame comes next and there was none for its body. After an error the decoder is as
    /// before.
    pub fn next(&mut self) -> Result<Option<Frame>, WireFault>
        ensures frame { IfOk result (λ found. IfSome found (λ f. Takes self.old.rest (frame_of f) self.new.rest)) }
        ensures partial { IfOk result (λ found. IfNone found (IsPartial self.old.rest)) }
        ensures fault { IfErr result (λ fault. fault ≢ WireFault.Memory → IsFaultAt self.old.rest fault) }
        ensures memory { IsErrOf result WireFault.Memory → HasFrame self.old.rest }

        // Without a frame it stays as it is, and with one it can still be taken back with the last piece.
        ensures none { IfOk result (λ found. IfNone found (self.new ≡ self.old)) }
        ensures err { OnErr result (self.new ≡ self.old) }
        ensures before { self.new.before ≡ self.old.before }
        ensures room { self.new.room ≡ self.old.room }

        // What this says of all octets that were fed.
        ensures whole { (octets : List ℕ) (given : List FrameSeen) → HasGiven self.old octets given → Tells octets given result self.new }
    {
        let octets = &self.buffer[self.position.at..];
        let Some(front) = Front::read(octets, self.position.tally)? else {
            return Ok(None);
        };
        let frame = Frame {
            more: front.more,
            command: front.command,
            body: Vec::from_slice(self.alloc, front.body)?,
        };
        self.position = Position {
            at: self.position.at + front.length,
            tally: front.tally,
        };
        Ok(Some(frame))
    }

    /// Takes the last piece back, and with it the frames that were given since: the rest is what it was before.
    pub fn unfeed(&mut self)
        ensures { self.new ≡ unfed self.old }
    {
        self.buffer.truncate(self.length_before);
        self.position = self.position_before;
    }
}

/// Drops what was given of a buffer where it is at least half of what is kept, and answers how much of it was given then.
fn drop_given(buffer: &mut Vec<u8>, given: usize) -> usize
    requires { given ≤ vec_len buffer.old }
    ensures rest { drop result buffer.new.items ≡ drop given buffer.old.items }
    ensures within { result ≤ vec_len buffer.new }
    ensures mostly { IsMostlyLeft result (vec_len buffer.new) }
    ensures room { vec_capacity buffer.new ≤ vec_capacity buffer.old }
    ensures given_back { drop given buffer.old.items ≡ [] → vec_capacity buffer.new ≤ KEPT_BUFFER_OCTETS }
{
    if given < buffer.len() - given {
        return given;
    }
    drop_front(buffer, given);
    0
}

/// Drops `count` octets at the front. Where none is left, memory past what is kept for the next pieces is given back.
fn drop_front(buffer: &mut Vec<u8>, count: usize)
    requires { count ≤ vec_len buffer.old }
    ensures items { buffer.new.items ≡ drop count buffer.old.items }
    ensures given_back { buffer.new.items ≡ [] → vec_capacity buffer.new ≤ KEPT_BUFFER_OCTETS }
    ensures room { vec_capacity buffer.new ≤ vec_capacity buffer.old }
{
    let rest = buffer.len() - count;
    if rest == 0 {
        buffer.clear();
        if buffer.capacity() > KEPT_BUFFER_OCTETS {
            buffer.shrink_to_fit();
        }
        return;
    }
    buffer.copy_within(count.., 0);
    buffer.truncate(rest);
}

/// Writes octets at the end, with memory for what there was, or for twice what there is then.
fn append(buffer: &mut Vec<u8>, octets: &[u8]) -> Result<(), AllocError>
    ensures ok { OnOk result (buffer.new.items ≡ buffer.old.items ++ octets.now) }
    ensures err { OnErr result (buffer.new.items ≡ buffer.old.items) }
    ensures room { OnOk result (vec_capacity buffer.new
        ≤ max (vec_capacity buffer.old) (2 * (vec_len buffer.old + length octets.now))) }
{
    let length = buffer.len();
    if octets.len() > buffer.capacity() - length {
        buffer.reserve_exact(length + octets.len())?;
    }
    let reserved = buffer.capacity();
    buffer.extend_from_slice(octets)?;
    // There was memory for them. That none was taken on top is nowhere promised, so it is looked at.
    if buffer.capacity() > reserved {
        buffer.truncate(length);
        return Err(AllocError);
    }
    Ok(())
}

/// A frame at the front of octets: its body as it lies there, how many of the octets the frame takes, and the tally behind it.
#[derive(Clone, Copy)]
struct Front<'a> {
    more: bool,
    command: bool,
    body: &'a [u8],
    length: usize,
    tally: Tally,
}

impl Front<'_> {
    /// The frame at the front of the octets, which go on a message with this tally; none where some of it is missing. It has no
    /// allocator: a size that is told reserves nothing.
    fn read(octets: &[u8], tally: Tally) -> Result<Option<Front<'_>>, WireFault>
        ensures within { IfOk result (λ found. IfSome found (λ front. front.length ≤ length octets.now)) }
        ensures frame { IfOk result (λ found. IfSome found (λ front.
            Takes (record { octets = octets.now; tally = tally })
            (record { more = front.more; command = front.command; body = front.body.now })
            (record { octets = drop front.length octets.now; tally = front.tally }))) }
        ensures partial { IfOk result (λ found. IfNone found (IsPartial (record { octets = octets.now; tally = tally }))) }
        ensures fault { IfErr result (λ fault. IsFaultAt (record { octets = octets.now; tally = tally }) fault) }
    {
        let Some((header, behind)) = Header::read(octets)? else {
            return Ok(None);
        };
        let Some(tally) = tally.with(header) else {
            return Err(WireFault::TooLong);
        };
        let size = header.size as usize;
        if behind.len() < size {
            return Ok(None);
        }
        Ok(Some(Front {
            more: header.more,
            command: header.command,
            body: &behind[..size],
            length: octets.len() - (behind.len() - size),
            tally,
        }))
    }
}
