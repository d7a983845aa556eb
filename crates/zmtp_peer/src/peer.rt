//! A peer: one end of a connection, in one role.
ghost use Rattle.std.specs.Prelude.{◌≡◌, ◌≢◌, ℕ, List, ◌+◌, ◌<◌, ◌≤◌, ◌↔◌, ◌⊎◌, [], ◌++◌, take, length, vec_capacity};
ghost use Rattle.std.specs.Prelude.{IfOk, OnOk, IfErr, IfSome, IfNone, IsErrAnd, IsTrue};
ghost use Rattle.zmtp_wire.specs.declared.fault.WireFault.{WireFault};
ghost use Rattle.zmtp_wire.specs.Greeting.{IsGreeting, IsGreetingFault, minor_in};
ghost use Rattle.zmtp_wire.specs.Frame.{written, IsWriteFault};
ghost use Rattle.zmtp_wire.specs.Tally.{octet_limit};
ghost use Rattle.zmtp_peer.specs.Faults.{Fault, Wire, fault_of, want_of_memory};
ghost use Rattle.zmtp_peer.specs.Events.{Event, Refused, events_of};
ghost use Rattle.zmtp_peer.specs.Intake.{IsRefusal, state_at};
ghost use Rattle.zmtp_peer.specs.Reading.{Stands, Brings, GivesBack, Reserves};
ghost use Rattle.zmtp_peer.specs.Subscriptions.{IsWanted};
ghost use Rattle.zmtp_peer.specs.Opening.{opening_of};
ghost use Rattle.zmtp_peer.specs.Subscribing.{subscription_frame, IsReady};
ghost use Rattle.zmtp_peer.specs.Terms.{terms_of};

use crate::connection::Connection;
use crate::counts::Counts;
use crate::event::PeerEvent;
use crate::fault::PeerFault;
use crate::intake::{Intake, Stage};
use crate::opening::opening_octets;
use crate::role::Role;
use crate::subscribing::subscription_octets;
use crate::terms::Terms;
use crate::wanted::is_wanted;
use std::alloc::Global;
use std::marker::Model;
use zmtp_wire::{Decoder, GREETING_LENGTH, Greeting, WireFault};

/// One end of a ZMTP 3.1 connection in one role. It is fed the octets that come, in any pieces, and answers the events
/// that they bring.
#[derive(Drop)]
pub struct Peer {
    alloc: Global,
    role: Role,
    /// The octets of the greeting, and how many of them came.
    greeting: [u8; GREETING_LENGTH],
    greeted: usize,
    connection: Connection,
}

impl Model for Peer {
    ghost use Rattle.std.specs.Prelude.{take, ◌≤◌};
    ghost use Rattle.zmtp_peer.specs.Reading.{PeerState};

    ghost Value = { PeerState };

    ghost use Rattle.zmtp_peer.specs.Connection.{state_in, room_in, IsConnection};

    ghost view = { λ p. record {
      role = p.role;
      greeting = take p.greeted p.greeting;
      state = state_in p.connection;
      rest = p.connection.decoder.rest;
      table = p.connection.counts;
      room = room_in p.connection;
    } };

    ghost invariant = { λ p. (p.greeted ≤ 64) × IsConnection p.connection };
}

impl Peer {
    /// A peer that was fed nothing.
    pub fn new(alloc: Global, role: Role) -> Peer
        ensures role { result.role ≡ role }
        ensures stands { Stands [] [] result }
    {
        Peer {
            alloc,
            role,
            greeting: [0; GREETING_LENGTH],
            greeted: 0,
            connection: Connection {
                intake: Intake::new(alloc),
                decoder: Decoder::new(alloc),
                counts: Counts::new(alloc),
            },
        }
    }

    /// What this end sends first, without waiting for the peer: its greeting, and a READY with its socket type alone.
    ///
    /// Nothing is to be written behind it before the event `Ready`: libzmq drops a connection on which a frame comes together
    /// with READY.
    ///
    /// # Errors
    /// Want of memory alone.
    pub fn opening(&self) -> Result<Vec<u8>, PeerFault>
        ensures octets { IfOk result (λ octets. octets.items ≡ opening_of self.now.role) }
        ensures memory { IfErr result (λ fault. fault_of fault ≡ want_of_memory) }
    {
        Ok(opening_octets(self.alloc, self.role)?)
    }

    /// The partner's greeting, with its minor version, once all of it came; none where it is refused.
    pub fn partner(&self) -> Option<Greeting>
        ensures some { IfSome result (IsGreeting self.now.greeting) }
        ensures whole { IfSome result (λ greeting. length self.now.greeting ≡ 64) }
        ensures none { IfNone result ((length self.now.greeting < 64)
            ⊎ ((fault : WireFault) × IsGreetingFault self.now.greeting fault)) }
    {
        if self.greeted < GREETING_LENGTH {
            return None;
        }
        welcome(&self.greeting)
    }

    /// The partner's minor version, once all of its greeting came; none where that is refused.
    pub fn minor(&self) -> Option<u8>
        ensures some { IfSome result (λ minor. minor_in self.now.greeting ≡ minor) }
        ensures whole { IfSome result (λ minor. length self.now.greeting ≡ 64) }
        ensures greeting { IfSome result (λ minor. (greeting : Greeting)
            × IsGreeting self.now.greeting greeting × (greeting.minor ≡ minor)) }
        ensures none { IfNone result ((length self.now.greeting < 64)
            ⊎ ((fault : WireFault) × IsGreetingFault self.now.greeting fault)) }
    {
        match self.partner() {
            Some(greeting) => Some(greeting.minor),
            None => None,
        }
    }

    /// Whether the peer's READY came, and the peer isn't refused.
    pub fn is_ready(&self) -> bool
        ensures { IsTrue result ↔ IsReady self.now.state }
    {
        match self.connection.intake.stage {
            Stage::Open => true,
            Stage::Opening | Stage::Refused(_) => false,
        }
    }

    /// What subscribes to all that begins with a prefix, as the partner takes it: a command where it speaks ZMTP 3.1 or later, else a
    /// message. The peer is ready.
    ///
    /// # Errors
    /// `TooLong` for no prefix that fits a frame; `Memory` where there is none, also for a longer prefix.
    pub fn subscription(&self, prefix: &[u8]) -> Result<Vec<u8>, WireFault>
        requires { IsReady self.now.state }
        ensures octets { (fed : List ℕ) → (given : List Event) → Stands fed given self.now → IfOk result (λ octets.
            octets.items ≡ written (subscription_frame (terms_of self.now.role self.now.greeting) prefix.now)) }
        ensures within { (fed : List ℕ) → (given : List Event) → Stands fed given self.now → OnOk result
            (length (subscription_frame (terms_of self.now.role self.now.greeting) prefix.now).body ≤ octet_limit) }
        ensures fault { (fed : List ℕ) → (given : List Event) → Stands fed given self.now → IfErr result (λ fault.
            fault ≢ WireFault.Memory → IsWriteFault (subscription_frame (terms_of self.now.role self.now.greeting) prefix.now) fault) }
    {
        subscription_octets(self.alloc, Terms::of(self.role, &self.greeting), prefix)
    }

    /// Whether the peer has subscribed to a topic: a prefix to which it subscribes, and has not taken that back as often,
    /// stands at its front. It takes no memory, and a look-up for each length that a
    /// prefix has, up to the topic's.
    pub fn wants(&self, topic: &[u8]) -> bool
        ensures { (fed : List ℕ) → (given : List Event) → Stands fed given self.now →
            (IsTrue result ↔ IsWanted given topic.now) }
    {
        is_wanted(&self.connection.counts, topic)
    }

    /// Takes the next octets, and answers the events that they bring.
    ///
    /// # Errors
    /// The fault for which the peer is refused, where no event stands before it: it is told again at each further call,
    /// whatever is fed. Want of memory, which leaves the peer as if it had not been fed.
    pub fn feed(&mut self, piece: &[u8]) -> Result<Vec<PeerEvent>, PeerFault>
        ensures role { self.new.role ≡ self.old.role }
        // The events answered are the next ones of all octets so far.
        ensures events { IfOk result (λ events. Brings self.old piece.now (events_of events.items) self.new) }
        // Where there are none, the peer isn't refused.
        ensures quiet { IfOk result (λ events. events_of events.items ≡ [] → ¬ (IsRefusal self.new.state)) }
        ensures fault { IfErr result (λ fault. fault_of fault ≢ want_of_memory
            → Brings self.old piece.now [] self.new × (self.new.state ≡ Refused (fault_of fault))) }
        ensures memory { IfErr result (λ fault. fault_of fault ≡ want_of_memory → Brings self.old [] [] self.new) }
        // A refusal is final.
        ensures stays { (fault : Fault) → self.old.state ≡ Refused fault
            → IsErrAnd result (λ told. fault_of told ≡ fault) × (self.new ≡ self.old) }
        // Where nothing of the stream is left, a large memory was given back, also where memory ran out.
        ensures given_back { GivesBack self.new.rest self.new.room.octets }
        // Memory is reserved for what came alone; a size that is told takes none.
        ensures room { IfOk result (λ events. Reserves piece.now self.old self.new (vec_capacity events)) }
        ensures fault_room { IfErr result (λ fault. fault_of fault ≢ want_of_memory → Reserves piece.now self.old self.new 0) }
    {
        if let Stage::Refused(fault) = self.connection.intake.stage {
            return Err(fault);
        }
        if self.greeted == GREETING_LENGTH {
            // The greeting was taken, or the peer would be refused.
            let terms = Terms::of(self.role, &self.greeting);
            let events = self.connection.read(self.alloc, terms, piece)?;
            return answer(events, &self.connection.intake.stage);
        }
        let missing = GREETING_LENGTH - self.greeted;
        if piece.len() < missing {
            write_at(&mut self.greeting, self.greeted, piece);
            self.greeted += piece.len();
            return Ok(Vec::new(self.alloc));
        }
        let (front, stream) = piece.split_at(missing);
        write_at(&mut self.greeting, self.greeted, front);
        if let Err(fault) = Greeting::read(&self.greeting) {
            self.greeted = GREETING_LENGTH;
            self.connection.intake.stage = Stage::Refused(PeerFault::Wire(fault));
            return Err(PeerFault::Wire(fault));
        }
        let terms = Terms::of(self.role, &self.greeting);
        let first = self.connection.read(self.alloc, terms, stream)?;
        self.greeted = GREETING_LENGTH;
        answer(first, &self.connection.intake.stage)
    }
}

/// The greeting that the octets are, unless it is refused.
fn welcome(octets: &[u8; 64]) -> Option<Greeting>
    ensures some { IfSome result (IsGreeting octets.now) }
    ensures none { IfNone result ((fault : WireFault) × IsGreetingFault octets.now fault) }
    ensures size { length octets.now ≡ 64 }
{
    match Greeting::read(octets) {
        Ok(greeting) => Some(greeting),
        Err(_) => None,
    }
}

/// Writes octets of the greeting behind those that came before.
fn write_at(greeting: &mut [u8; 64], at: usize, octets: &[u8])
    requires { at + length octets.now ≤ 64 }
    ensures written { take (at + length octets.now) greeting.new ≡ take at greeting.old ++ octets.now }
    ensures before { take at greeting.new ≡ take at greeting.old }
    ensures size { length greeting.new ≡ 64 }
{
    greeting[at..at + octets.len()].copy_from_slice(octets);
}

/// The events, or where there are none the fault for which the peer is refused.
fn answer(events: Vec<PeerEvent>, stage: &Stage) -> Result<Vec<PeerEvent>, PeerFault>
    ensures events { IfOk result (λ told. told ≡ events) }
    ensures quiet { IfOk result (λ told. events_of told.items ≡ [] → ¬ (IsRefusal (state_at stage.now []))) }
    ensures fault { IfErr result (λ fault. (events.items ≡ []) × (stage.now ≡ Stage.Refused fault)) }
{
    match stage {
        Stage::Refused(fault) if events.is_empty() => Err(*fault),
        _ => Ok(events),
    }
}
