//! What the frames of one piece bring. Where memory runs out all of it is taken back.
ghost use Rattle.std.specs.Prelude.{◌≡◌, ◌++◌, ◌∷◌, [], ℕ, ◌+◌, ◌*◌, ◌≤◌, ◌≢◌, OnOk, OnErr, length, map, max, true, false, vec_len, vec_capacity};
ghost use Rattle.zmtp_wire.specs.Frame.{frame_of};
ghost use Rattle.zmtp_peer.specs.Events.{after_frame, frame_told, after_later, behind_ready, later_told, bodies, event_of};
ghost use Rattle.zmtp_peer.specs.Brought.{Whole, OfCommand, brought_of, first_of};
ghost use Rattle.zmtp_peer.specs.Intake.{state_of, told_by, front_of, brought_in, Keeps, IsFresh, GrowsBy, TakesFrames};

use crate::brought::Brought;
use crate::event::PeerEvent;
use crate::fault::PeerFault;
use crate::handshake::first_refusal;
use crate::later::{Later, behind_ready};
use crate::terms::Terms;
use std::alloc::{AllocError, Global};
use std::mem;
use zmtp_wire::{Decoder, Frame, WireFault};

/// How far a connection is.
#[derive(Clone, Copy)]
pub(crate) enum Stage {
    /// READY didn't come yet.
    Opening,
    /// READY came.
    Open,
    /// The peer is refused, for good.
    Refused(PeerFault),
}

/// How far a connection is, and what the frames of one piece bring. It stands in the connection, so no piece copies a stage with its fault.
#[derive(Drop)]
pub(crate) struct Intake {
    /// How far the connection is behind them.
    pub(crate) stage: Stage,
    /// Whether READY is among them.
    pub(crate) ready: bool,
    /// The messages that became whole, and the events of commands, in their order.
    pub(crate) brought: Vec<Brought>,
    /// The frames of the message that isn't whole yet.
    pub(crate) held: Vec<Vec<u8>>,
}

/// Takes the next frame.
pub(crate) fn take_frame(
    alloc: Global,
    terms: Terms,
    intake: &mut Intake,
    frame: Frame,
) -> Result<(), AllocError>
    requires { IsFresh intake.old }
    ensures state { OnOk result (state_of intake.new ≡ after_frame terms (state_of intake.old) (frame_of frame)) }
    ensures told { OnOk result (told_by terms.role intake.new
        ≡ told_by terms.role intake.old ++ frame_told terms (state_of intake.old) (frame_of frame)) }
    ensures kept { Keeps (front_of intake.old) (front_of intake.new) }
    ensures grows { OnOk result (GrowsBy 1 intake.old intake.new) }
    ensures fresh { IsFresh intake.new }
{
    match intake.stage {
        Stage::Opening => {
            take_first(terms, intake, &frame);
            Ok(())
        }
        Stage::Open => {
            if frame.command {
                take_command(alloc, terms, intake, &frame.body)
            } else {
                hold(alloc, intake, frame.more, frame.body)
            }
        }
        Stage::Refused(_) => Ok(()),
    }
}

/// Takes the first frame, which has to be a READY that the role takes.
fn take_first(terms: Terms, intake: &mut Intake, frame: &Frame)
    requires fresh { IsFresh intake.old }
    requires opening { intake.old.stage ≡ Stage.Opening }
    ensures state { state_of intake.new ≡ after_frame terms (state_of intake.old) (frame_of frame.now) }
    ensures told { told_by terms.role intake.new
        ≡ told_by terms.role intake.old ++ frame_told terms (state_of intake.old) (frame_of frame.now) }
    ensures held { intake.new.held ≡ intake.old.held }
    ensures brought { intake.new.brought ≡ intake.old.brought }
    ensures fresh { IsFresh intake.new }
{
    if !frame.command {
        intake.stage = Stage::Refused(PeerFault::NotReady);
        return;
    }
    match first_refusal(terms.role, &frame.body) {
        None => {
            intake.stage = Stage::Open;
            intake.ready = true;
        }
        Some(fault) => intake.stage = Stage::Refused(fault),
    }
}

/// Takes a command behind READY. The frames of a message that are held stay.
fn take_command(
    alloc: Global,
    terms: Terms,
    intake: &mut Intake,
    body: &[u8],
) -> Result<(), AllocError>
    requires open { intake.old.stage ≡ Stage.Open }
    ensures state { OnOk result (state_of intake.new
        ≡ after_later (bodies intake.old.held.items) (behind_ready terms body.now)) }
    ensures told { OnOk result (told_by terms.role intake.new
        ≡ told_by terms.role intake.old ++ later_told (behind_ready terms body.now)) }
    ensures kept { Keeps (front_of intake.old) (front_of intake.new) }
    ensures grows { OnOk result (GrowsBy 1 intake.old intake.new) }
    ensures fresh { IsFresh intake.new }
{
    match behind_ready(alloc, terms, body)? {
        Later::Passed => Ok(()),
        Later::Event(event) => add_event(&mut intake.brought, event),
        Later::Refused(fault) => {
            intake.stage = Stage::Refused(fault);
            Ok(())
        }
    }
}

/// Adds the event of a command.
fn add_event(brought: &mut Vec<Brought>, event: PeerEvent) -> Result<(), AllocError>
    ensures ok { OnOk result (map brought_of brought.new.items ≡ map brought_of brought.old.items ++ OfCommand (event_of event) ∷ []) }
    ensures err { OnErr result (brought.new.items ≡ brought.old.items) }
    ensures length { OnOk result (vec_len brought.new ≡ vec_len brought.old + 1) }
{
    brought.push(Brought::Event(event))?;
    Ok(())
}

/// Holds one more frame of a message, which is the last one unless more follow.
fn hold(alloc: Global, intake: &mut Intake, more: bool, body: Vec<u8>) -> Result<(), AllocError>
    requires { intake.old.stage ≡ Stage.Open }
    ensures stage { intake.new.stage ≡ Stage.Open }
    ensures ready { intake.new.ready ≡ intake.old.ready }
    ensures kept { Keeps (front_of intake.old) (front_of intake.new) }
    ensures more { OnOk result (more ≡ true → (intake.new.brought.items ≡ intake.old.brought.items)
        × (intake.new.held.items ≡ intake.old.held.items ++ body ∷ [])) }
    ensures last { OnOk result (more ≡ false → (brought_in intake.new ≡ brought_in intake.old ++
        Whole (bodies intake.old.held.items ++ body.items ∷ []) ∷ []) × (intake.new.held.items ≡ [])) }
    ensures grows { OnOk result (GrowsBy 1 intake.old intake.new) }
{
    if !more && intake.held.is_empty() {
        return add_alone(alloc, &mut intake.brought, body);
    }
    add_frame(&mut intake.held, body)?;
    if more {
        return Ok(());
    }
    complete(alloc, intake)
}

/// Adds a whole message of one frame.
fn add_alone(alloc: Global, brought: &mut Vec<Brought>, body: Vec<u8>) -> Result<(), AllocError>
    ensures ok { OnOk result (map brought_of brought.new.items ≡ map brought_of brought.old.items ++ Whole (body.items ∷ []) ∷ []) }
    ensures err { OnErr result (brought.new.items ≡ brought.old.items) }
    ensures length { OnOk result (vec_len brought.new ≡ vec_len brought.old + 1) }
{
    let mut message = Vec::with_capacity(alloc, 1)?;
    message.push_reserved(body);
    brought.push(Brought::Message(message))?;
    Ok(())
}

/// Makes the frames that are held a whole message.
fn complete(alloc: Global, intake: &mut Intake) -> Result<(), AllocError>
    ensures stage { intake.new.stage ≡ intake.old.stage }
    ensures ready { intake.new.ready ≡ intake.old.ready }
    ensures kept { Keeps (front_of intake.old) (front_of intake.new) }
    ensures whole { OnOk result (brought_in intake.new ≡ brought_in intake.old ++ Whole (bodies intake.old.held.items) ∷ []) }
    ensures held { OnOk result (intake.new.held.items ≡ []) }
    ensures room { OnOk result (vec_capacity intake.new.held ≡ 0) }
    ensures length { OnOk result (vec_len intake.new.brought ≡ vec_len intake.old.brought + 1) }
{
    if intake.brought.reserve(1).is_err() {
        return Err(AllocError);
    }
    let message = mem::replace(&mut intake.held, Vec::new(alloc));
    intake.brought.push_reserved(Brought::Message(message));
    Ok(())
}

/// Adds a frame, with memory for what there was, or for twice the frames that there are then.
fn add_frame(held: &mut Vec<Vec<u8>>, body: Vec<u8>) -> Result<(), AllocError>
    ensures ok { OnOk result (held.new.items ≡ held.old.items ++ body ∷ []) }
    ensures err { OnErr result (held.new.items ≡ held.old.items) }
    ensures length { OnOk result (vec_len held.new ≡ vec_len held.old + 1) }
    ensures room { OnOk result (vec_capacity held.new ≤ max (vec_capacity held.old) (2 * (vec_len held.old + 1))) }
{
    if held.len() == held.capacity() {
        held.reserve_exact(held.len() + 1)?;
    }
    held.push_reserved(body);
    Ok(())
}

/// Takes frames until no whole one is left or the peer is refused.
pub(crate) fn take_frames(
    alloc: Global,
    terms: Terms,
    decoder: &mut Decoder,
    intake: &mut Intake,
) -> Result<(), AllocError>
    requires { IsFresh intake.old }
    ensures taken { OnOk result (TakesFrames terms decoder.old.rest intake.old decoder.new.rest intake.new) }
    ensures before { decoder.new.before ≡ decoder.old.before }
    ensures room { decoder.new.room ≡ decoder.old.room }
    ensures kept { Keeps (front_of intake.old) (front_of intake.new) }
    ensures grows { OnOk result (GrowsBy (length decoder.old.rest.octets) intake.old intake.new) }
    ensures fresh { IsFresh intake.new }
{
    loop {
        if let Stage::Refused(_) = intake.stage {
            return Ok(());
        }
        match decoder.next() {
            Ok(Some(frame)) => take_frame(alloc, terms, intake, frame)?,
            Ok(None) => return Ok(()),
            Err(fault) => return refuse(intake, fault),
        }
    }
}

/// Refuses the peer for a fault of its frames; want of memory is none.
fn refuse(intake: &mut Intake, fault: WireFault) -> Result<(), AllocError>
    ensures stage { OnOk result ((fault ≢ WireFault.Memory) × (intake.new
        ≡ record intake.old { stage = Stage.Refused (PeerFault.Wire fault) })) }
    ensures err { OnErr result (intake.new ≡ intake.old) }
{
    if fault == WireFault::Memory {
        return Err(AllocError);
    }
    intake.stage = Stage::Refused(PeerFault::Wire(fault));
    Ok(())
}

/// The first message among what was brought, or else the frames that are held.
fn front(mut brought: Vec<Brought>, held: Vec<Vec<u8>>) -> Vec<Vec<u8>>
    ensures { bodies result.items ≡ first_of (map brought_of brought.items) (bodies held.items) }
{
    for i in 0..brought.len() {
        let item = mem::replace(&mut brought[i], Brought::Event(PeerEvent::Ready));
        if let Brought::Message(frames) = item {
            return frames;
        }
    }
    held
}

impl Intake {
    ghost use Rattle.std.specs.Prelude.{take, length, List};
    ghost use Rattle.zmtp_peer.specs.Events.{bodies};
    ghost use Rattle.zmtp_peer.specs.Intake.{front_of, state_at, IsRefusal};

    /// That of a connection to which nothing came.
    pub(crate) fn new(alloc: Global) -> Intake
        ensures stage { result.stage ≡ Stage.Opening }
        ensures held { result.held.items ≡ [] }
        ensures brought { vec_capacity result.brought ≡ 0 }
    {
        Intake {
            stage: Stage::Opening,
            ready: false,
            brought: Vec::new(alloc),
            held: Vec::new(alloc),
        }
    }

    /// Begins a piece, which has brought nothing yet.
    pub(crate) fn begin(&mut self, alloc: Global)
        ensures stage { self.new.stage ≡ self.old.stage }
        ensures held { self.new.held ≡ self.old.held }
        ensures ready { self.new.ready ≡ false }
        ensures brought { self.new.brought.items ≡ [] }
    {
        self.ready = false;
        self.brought = Vec::new(alloc);
    }

    /// Whether READY came, and the peer isn't refused.
    pub(crate) fn is_open(&self) -> bool
        ensures open { result ≡ true → self.now.stage ≡ Stage.Open }
        ensures other { result ≡ false → (bodies : List (List ℕ)) → ¬ (IsRefusal (state_at self.now.stage bodies)) → self.now.stage ≡ Stage.Opening }
    {
        match self.stage {
            Stage::Open => true,
            Stage::Opening | Stage::Refused(_) => false,
        }
    }

    /// Takes a piece back: of the frames at the front the first `kept` are held, those that were held before it, and the stage is the one before it.
    pub(crate) fn take_back(&mut self, alloc: Global, was_open: bool, kept: usize)
        ensures open { was_open ≡ true → self.new.stage ≡ Stage.Open }
        ensures opening { was_open ≡ false → self.new.stage ≡ Stage.Opening }
        ensures held { bodies self.new.held.items ≡ take kept (front_of self.old) }
        ensures brought { vec_capacity self.new.brought ≡ 0 }
    {
        self.stage = if was_open {
            Stage::Open
        } else {
            Stage::Opening
        };
        let brought = mem::replace(&mut self.brought, Vec::new(alloc));
        let held = mem::replace(&mut self.held, Vec::new(alloc));
        let mut frames = front(brought, held);
        frames.truncate(kept);
        self.held = frames;
    }
}
