//! The stream behind the greeting. A piece of it is read whole, or not at all where memory runs out.
ghost use Rattle.std.specs.Prelude.{◌≡◌, ℕ, ◌+◌, ◌≤◌, List, [], OnOk, OnErr, IfOk, vec_len, vec_capacity, length, map, true};
ghost use Rattle.std.specs.List.{flat_map};
ghost use Rattle.zmtp_wire.specs.Decoding.{fed};
ghost use Rattle.zmtp_peer.specs.Events.{bodies, events_of};
ghost use Rattle.zmtp_peer.specs.Brought.{brought_of, brought_told};
ghost use Rattle.zmtp_peer.specs.Subscriptions.{count_in, counted_all, HasRoom, AddsIdle, IsIdle, IsTidy, is_asked};
ghost use Rattle.zmtp_peer.specs.Intake.{front_of, told_by, Keeps, IsFresh, IsRefusal, GrowsBy, TakesFrames};
ghost use Rattle.zmtp_peer.specs.Connection.{ReadsPiece, IsUnread, IsConnection, IsOpeningEmpty, state_in, room_in};
ghost use Rattle.zmtp_peer.specs.Reading.{GivesBack, ReservesFor};

use crate::counts::Counts;
use crate::event::PeerEvent;
use crate::intake::{Intake, take_frames};
use crate::subscriptions::{count_events, drop_places, release, reserve};
use crate::terms::Terms;
use crate::told::tell;
use std::alloc::{AllocError, Global};
use std::mem;
use zmtp_wire::Decoder;

/// How far the stream is read, and what is kept of it.
#[derive(Drop)]
pub(crate) struct Connection {
    /// How far the connection is, and the frames of the message that isn't whole yet; while a piece is read, also what it brought.
    pub(crate) intake: Intake,
    /// What came and isn't a whole frame yet.
    pub(crate) decoder: Decoder,
    /// How often the peer has subscribed to each prefix. One to which it no longer does has no place.
    pub(crate) counts: Counts,
}

/// Takes the frames that came, and all memory that is needed to tell them. The answer is room for the events.
fn gather(
    alloc: Global,
    terms: Terms,
    decoder: &mut Decoder,
    counts: &mut Counts,
    intake: &mut Intake,
) -> Result<Vec<PeerEvent>, AllocError>
    requires { IsFresh intake.old }
    ensures taken { OnOk result (TakesFrames terms decoder.old.rest intake.old decoder.new.rest intake.new) }
    ensures empty { IfOk result (λ events. events.items ≡ []) }
    ensures space { IfOk result (λ events. vec_capacity events ≡ vec_len intake.new.brought + 1) }
    ensures room { OnOk result (HasRoom (vec_len intake.new.brought + 1) counts.new
        (flat_map (brought_told terms.role) (map brought_of intake.new.brought.items))) }
    ensures same { (q : List ℕ) → count_in counts.new q
        ≡ count_in counts.old q }
    ensures idle { AddsIdle (is_asked terms.role intake.new.brought.items) counts.old counts.new }
    ensures before { decoder.new.before ≡ decoder.old.before }
    ensures stream { decoder.new.room ≡ decoder.old.room }
    ensures kept { Keeps (front_of intake.old) (front_of intake.new) }
    ensures grows { OnOk result (GrowsBy (length decoder.old.rest.octets) intake.old intake.new) }
    ensures fresh { IsFresh intake.new }
{
    take_frames(alloc, terms, decoder, intake)?;
    let most = intake.brought.len() + 1;
    reserve(alloc, counts, terms.role, &intake.brought, most)?;
    Vec::with_capacity(alloc, most)
}

/// Takes the last piece back. Where nothing is left then, a large memory is given back.
fn take_back(decoder: &mut Decoder)
    ensures rest { decoder.new.rest ≡ decoder.old.before }
    ensures given_back { GivesBack decoder.new.rest decoder.new.room }
{
    decoder.unfeed();
    decoder.settle();
}

impl Connection {
    /// Reads the next piece of the stream, and answers the events that it brings.
    ///
    /// # Errors
    /// Want of memory. Then nothing was read.
    pub(crate) fn read(
        &mut self,
        alloc: Global,
        terms: Terms,
        piece: &[u8],
    ) -> Result<Vec<PeerEvent>, AllocError>
        requires connection { IsConnection self.old }
        // The peer isn't refused.
        requires going { ¬ (IsRefusal (state_in self.old)) }
        ensures read { IfOk result (λ events. ReadsPiece terms (fed self.old.decoder piece.now).rest
            (state_in self.old) self.new.decoder.rest (state_in self.new) (events_of events.items)) }
        ensures counted { IfOk result (λ events. (q : List ℕ) → count_in self.new.counts q
            ≡ counted_all q (count_in self.old.counts q) (events_of events.items)) }
        ensures unread { OnErr result (IsUnread self.old self.new) }
        ensures uncounted { OnErr result ((q : List ℕ) → count_in self.new.counts q
            ≡ count_in self.old.counts q) }
        ensures opening { IsOpeningEmpty self.new.intake.stage (bodies self.new.intake.held.items) }
        ensures tidy { IsTidy self.new.counts }
        ensures given_back { GivesBack self.new.decoder.rest self.new.decoder.room }
        ensures brought { vec_capacity self.new.intake.brought ≡ 0 }
        ensures room { IfOk result (λ events. ReservesFor (length self.old.decoder.rest.octets + length piece.now)
            (vec_len self.old.intake.held) (room_in self.old) (room_in self.new) (vec_capacity events)) }
    {
        if self.decoder.feed(piece).is_err() {
            take_back(&mut self.decoder);
            return Err(AllocError);
        }
        if self.decoder.is_partial() {
            return Ok(Vec::new(alloc));
        }
        self.read_frames(alloc, terms)
    }

    /// Reads the frames that came with the last piece, and answers the events that they bring.
    ///
    /// # Errors
    /// Want of memory. Then the piece is taken back.
    fn read_frames(&mut self, alloc: Global, terms: Terms) -> Result<Vec<PeerEvent>, AllocError>
        requires connection { IsConnection self.old }
        // The peer isn't refused.
        requires going { ¬ (IsRefusal (state_in self.old)) }
        ensures read { IfOk result (λ events. ReadsPiece terms self.old.decoder.rest (state_in self.old)
            self.new.decoder.rest (state_in self.new) (events_of events.items)) }
        ensures counted { IfOk result (λ events. (q : List ℕ) → count_in self.new.counts q
            ≡ counted_all q (count_in self.old.counts q) (events_of events.items)) }
        ensures rest { OnErr result (self.new.decoder.rest ≡ self.old.decoder.before) }
        ensures stage { OnErr result (self.new.intake.stage ≡ self.old.intake.stage) }
        ensures held { OnErr result (bodies self.new.intake.held.items ≡ bodies self.old.intake.held.items) }
        ensures uncounted { OnErr result ((q : List ℕ) → count_in self.new.counts q
            ≡ count_in self.old.counts q) }
        ensures opening { IsOpeningEmpty self.new.intake.stage (bodies self.new.intake.held.items) }
        ensures tidy { IsTidy self.new.counts }
        ensures given_back { GivesBack self.new.decoder.rest self.new.decoder.room }
        ensures brought { vec_capacity self.new.intake.brought ≡ 0 }
        ensures room { IfOk result (λ events. ReservesFor (length self.old.decoder.rest.octets)
            (vec_len self.old.intake.held) (room_in self.old) (room_in self.new) (vec_capacity events)) }
    {
        let was_open = self.intake.is_open();
        let kept = self.intake.held.len();
        self.intake.begin(alloc);
        let gathered = gather(
            alloc,
            terms,
            &mut self.decoder,
            &mut self.counts,
            &mut self.intake,
        );
        match gathered {
            Err(_) => {
                take_back(&mut self.decoder);
                release(&mut self.counts, terms.role, &self.intake.brought);
                self.intake.take_back(alloc, was_open, kept);
                Err(AllocError)
            }
            Ok(room) => {
                self.decoder.settle();
                Ok(self.tell(alloc, terms, room))
            }
        }
    }

    /// Tells what the piece brought. It is kept no longer.
    fn tell(&mut self, alloc: Global, terms: Terms, room: Vec<PeerEvent>) -> Vec<PeerEvent>
        requires empty { room.items ≡ [] }
        requires space { vec_len self.old.intake.brought + 1 ≤ vec_capacity room }
        requires room { HasRoom (vec_len self.old.intake.brought + 1) self.old.counts
            (flat_map (brought_told terms.role) (map brought_of self.old.intake.brought.items)) }
        requires idle { (q : List ℕ) → IsIdle self.old.counts q → is_asked terms.role self.old.intake.brought.items q ≡ true }
        ensures told { events_of result.items ≡ told_by terms.role self.old.intake }
        ensures state { self.new.intake.stage ≡ self.old.intake.stage }
        ensures held { self.new.intake.held ≡ self.old.intake.held }
        ensures capacity { vec_capacity result ≡ vec_capacity room }
        ensures decoder { self.new.decoder ≡ self.old.decoder }
        ensures tidy { IsTidy self.new.counts }
        ensures counted { (q : List ℕ) → count_in self.new.counts q
            ≡ counted_all q (count_in self.old.counts q) (events_of result.items) }
        ensures brought { vec_capacity self.new.intake.brought ≡ 0 }
    {
        let brought = mem::replace(&mut self.intake.brought, Vec::new(alloc));
        let events = tell(terms.role, self.intake.ready, brought, room);
        count_events(&mut self.counts, &events);
        drop_places(&mut self.counts, &events);
        events
    }
}
