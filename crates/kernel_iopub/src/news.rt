//! What the events of a subscriber come to.
ghost use Rattle.std.specs.Prelude.{◌≡◌, ◌++◌, ◌∷◌, [], IfErr, OnOk};
ghost use Rattle.zmtp_wire.specs.Message.{bodies_of};
ghost use Rattle.zmtp_peer.specs.Events.{event_of, events_of};
ghost use Rattle.kernel_iopub.specs.Pings.{ping_in, pings_in};

use crate::fault::SubscriberFault;
use std::mem;
use zmtp_peer::PeerEvent;

/// What events come to.
#[derive(Clone, Copy)]
pub(crate) struct News {
    /// READY is among them.
    pub(crate) is_ready: bool,
    /// How many prefixes they subscribe to, and how many octets these have together.
    pub(crate) prefixes: u32,
    pub(crate) prefix_octets: usize,
    /// How many pings are told: as many as contexts, so who takes the contexts sets it.
    pub(crate) pings: usize,
    /// Whether there are no events at all.
    pub(crate) is_none: bool,
}

impl News {
    /// Nothing.
    pub(crate) const NONE: News = News {
        is_ready: false,
        prefixes: 0,
        prefix_octets: 0,
        pings: 0,
        is_none: true,
    };

    /// Counts a prefix of this length.
    fn subscribe(&mut self, octets: usize) {
        self.prefixes = self.prefixes.saturating_add(1);
        self.prefix_octets = self.prefix_octets.saturating_add(octets);
    }
}

/// Adds a context behind the others.
fn keep(contexts: &mut Vec<Vec<u8>>, context: Vec<u8>) -> Result<(), SubscriberFault>
    ensures ok { OnOk result (bodies_of contexts.new.items ≡ bodies_of contexts.old.items ++ context.items ∷ []) }
    ensures err { IfErr result (λ fault. fault ≡ SubscriberFault.Memory) }
{
    match contexts.push(context) {
        Ok(()) => Ok(()),
        Err(_) => Err(SubscriberFault::Memory),
    }
}

/// Adds an event: what it counts to the news, and the context of a ping to the others.
fn note(
    news: &mut News,
    contexts: &mut Vec<Vec<u8>>,
    event: PeerEvent,
) -> Result<(), SubscriberFault>
    ensures ok { OnOk result (bodies_of contexts.new.items ≡ bodies_of contexts.old.items ++ ping_in (event_of event)) }
    ensures err { IfErr result (λ fault. fault ≡ SubscriberFault.Memory) }
{
    match event {
        PeerEvent::Ready => {
            news.is_ready = true;
            Ok(())
        }
        PeerEvent::Subscribe(prefix) => {
            news.subscribe(prefix.len());
            Ok(())
        }
        PeerEvent::Ping(context) => keep(contexts, context),
        PeerEvent::Cancel(_prefix) => Ok(()),
        PeerEvent::Message(_frames) => Ok(()),
    }
}

/// What events come to. The contexts of their pings go behind those that are there.
pub(crate) fn news_of(
    mut events: Vec<PeerEvent>,
    contexts: &mut Vec<Vec<u8>>,
) -> Result<News, SubscriberFault>
    ensures ok { OnOk result (bodies_of contexts.new.items ≡ bodies_of contexts.old.items ++ pings_in (events_of events.items)) }
    ensures err { IfErr result (λ fault. fault ≡ SubscriberFault.Memory) }
{
    let mut news = News::NONE;
    for i in 0..events.len() {
        let event = mem::replace(&mut events[i], PeerEvent::Ready);
        note(&mut news, contexts, event)?;
    }
    Ok(news)
}
