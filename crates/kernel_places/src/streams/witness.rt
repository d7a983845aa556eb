//! What a connection tells of itself is noted at its place.
use crate::streams::clock::milliseconds;
use kernel_sockets::Presence;
use kernel_watch::{Notice, Watcher};
use std::time::Clock;

/// Notes at a place what its connection tells.
#[derive(Drop)]
pub(crate) struct Witness<'a, R: Clock> {
    rt: &'a R,
    presence: &'a Presence,
}

impl<'a, R: Clock> Witness<'a, R> {
    /// The witness of a place.
    pub fn new(rt: &'a R, presence: &'a Presence) -> Witness<'a, R> {
        Witness { rt, presence }
    }
}

impl<R: Clock> Watcher for Witness<'_, R> {
    fn tell(&mut self, note: Notice) {
        match note {
            Notice::Ready => self.presence.set_ready(),
            Notice::Signed => self.presence.trust(),
            Notice::Begun => self.presence.work(),
            Notice::Done => self.presence.rest(milliseconds(self.rt)),
            Notice::Echoed => self.presence.answer(),
            Notice::Answered(octets) => self.presence.answer_octets(octets),
        }
    }

    fn meet(&self, answers_pings: bool) {
        self.presence.set_answers_pings(answers_pings);
    }
}
