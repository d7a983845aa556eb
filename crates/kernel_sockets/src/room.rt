//! Who makes room where all places of a socket are taken and another connection waits.
ghost use Rattle.std.specs.Prelude.{◌≡◌, ℕ, ◌+◌, ◌<◌, ◌≤◌, ◌↔◌, IsTrue, false, IfSome, Some, length, position, slice_get};
ghost use Rattle.kernel_sockets.specs.declared.room.Sight.{Sight};
ghost use Rattle.kernel_sockets.specs.declared.room.Stays.{Stays};
ghost use Rattle.kernel_sockets.specs.Relief.{is_orphan};
ghost use Rattle.kernel_sockets.specs.Room.{rank, since_of, stay_of, IsUnderWay, IsUnanswered, MayLeave, LeavesFirst, MakesRoomAmong, MakesRoom};
ghost use Rattle.kernel_sockets.specs.Room.{is_to_be_pinged};

/// How many milliseconds a connection stays at least where another one waits, by what is known of it.
#[derive(Clone, Copy)]
pub struct Stays {
    /// One whose handshake is not over, from when it was let in.
    pub handshake: u64,
    /// A stranger whose handshake is over, from when it was heard last.
    pub stranger: u64,
    /// Who showed the key, from when no request of theirs was under way any more and nothing came from them.
    pub owner: u64,
    /// Who showed the key and answers pings, from when it was pinged, if nothing came since.
    pub answer: u64,
}

/// What was seen of a place.
#[derive(Clone, Copy)]
pub struct Sight {
    /// A connection is there.
    pub is_taken: bool,
    /// Its handshake is over.
    pub is_ready: bool,
    /// A message with a valid signature came on it.
    pub is_trusted: bool,
    /// It waits for what comes next: no request is under way.
    pub is_resting: bool,
    /// When a stranger was last heard, in milliseconds.
    pub heard: u64,
    /// Since when it has rested, in milliseconds.
    pub rested: u64,
    /// Its peer answers pings: it speaks ZMTP 3.1 or later.
    pub answers_pings: bool,
    /// When it was pinged last, in milliseconds; 0 if it was not.
    pub pinged: u64,
    /// Its peer has hung up. It is false where that was not asked.
    pub has_hung_up: bool,
    /// The place was relieved of it: it is served to its end, and doesn't count among those that are served at once.
    pub is_relieved: bool,
}

impl Sight {
    /// What is seen of a place at which no connection is.
    pub const NOBODY: Sight = Sight {
        is_taken: false,
        is_ready: false,
        is_trusted: false,
        is_resting: false,
        heard: 0,
        rested: 0,
        answers_pings: false,
        pinged: 0,
        has_hung_up: false,
        is_relieved: false,
    };

    /// Its class: those of a lower one leave first.
    fn rank(self) -> u64
        ensures { result ≡ rank self }
    {
        if self.is_trusted {
            2
        } else if self.is_ready {
            1
        } else {
            0
        }
    }

    /// Since when it has been silent, in milliseconds.
    fn since(self) -> u64
        ensures { result ≡ since_of self }
    {
        if self.is_trusted {
            self.rested
        } else {
            self.heard
        }
    }

    /// How many milliseconds it stays at least from then on.
    fn stay(self, stays: Stays) -> u64
        ensures { result ≡ stay_of stays self }
    {
        if self.is_trusted {
            stays.owner
        } else if self.is_ready {
            stays.stranger
        } else {
            stays.handshake
        }
    }

    /// Whether a request is under way of who showed the key.
    pub(crate) fn is_under_way(self) -> bool
        ensures { IsTrue result ↔ IsUnderWay self }
    {
        self.is_trusted && !self.is_resting
    }

    /// Whether it is an orphan: a request of who showed the key is under way, the peer has hung up, and the place was not relieved of it yet.
    pub(crate) fn is_orphan(&self) -> bool
        ensures { result ≡ is_orphan self.now }
    {
        self.is_taken
            && self.is_trusted
            && !self.is_resting
            && self.has_hung_up
            && !self.is_relieved
    }

    /// Whether it was pinged, had its time to answer, and nothing came since.
    fn is_unanswered(self, stays: Stays, now: u64) -> bool
        ensures { IsTrue result ↔ IsUnanswered stays now self }
    {
        self.rested < self.pinged && self.pinged <= now && stays.answer <= now - self.pinged
    }

    /// Whether it may have to make room: whether its time is over, no request of who showed the key is under way, and who showed the key and answers pings
    /// has not answered one.
    fn may_leave(self, stays: Stays, now: u64) -> bool
        ensures { IsTrue result ↔ MayLeave stays now self }
    {
        let (since, stay) = (self.since(), self.stay(stays));
        let counts = self.is_taken && !self.is_relieved;
        let is_over = !self.is_under_way() && since <= now && stay <= now - since;
        let is_asked_for = self.is_trusted && self.answers_pings;
        counts && is_over && (!is_asked_for || self.is_unanswered(stays, now))
    }

    /// Whether it is to be pinged before it may have to leave: who showed the key and answers pings, has been silent for its time with no request under way,
    /// and was not pinged since.
    fn is_to_be_pinged(&self, stays: Stays, now: u64) -> bool
        ensures { result ≡ is_to_be_pinged stays now self.now }
    {
        self.is_taken
            && !self.is_relieved
            && self.is_trusted
            && self.is_resting
            && self.answers_pings
            && stays.owner <= now.saturating_sub(self.rested)
            && self.rested >= self.pinged
    }

    /// Whether it leaves no later than another one.
    fn leaves_first(self, other: Sight) -> bool
        ensures { IsTrue result ↔ LeavesFirst self other }
    {
        if self.rank() == other.rank() {
            self.since() <= other.since()
        } else {
            self.rank() < other.rank()
        }
    }
}

/// Whether a connection leaves before the one that was found, if one was.
fn is_before(sights: &[Sight], sight: Sight, found: Option<usize>) -> bool
    requires { IfSome found (λ place. place < length sights.now) }
    ensures { IsTrue result ↔ IfSome found (λ place. (s : Sight) → slice_get sights.now place ≡ Some s → ¬ LeavesFirst s sight) }
{
    match found {
        Some(place) => !sights[place].leaves_first(sight),
        None => true,
    }
}

/// Who makes room among the places up to this one, where `found` does among those before it.
fn found_next(
    sights: &[Sight],
    place: usize,
    found: Option<usize>,
    stays: Stays,
    now: u64,
) -> Option<usize>
    requires inside { place < length sights.now }
    requires among { MakesRoomAmong stays now sights.now place found }
    ensures { MakesRoomAmong stays now sights.now (place + 1) result }
{
    let sight = sights[place];
    if sight.may_leave(stays, now) && is_before(sights, sight, found) {
        return Some(place);
    }
    found
}

/// Who makes room at these places: of the connections whose time is over the one that leaves first. One whose handshake is not over goes before a stranger
/// that is ready, and a stranger before who showed the key; of one class the one that has been silent longest goes. Who showed the key stays while a
/// request is under way, and `stays.owner` milliseconds from then on; and if it answers pings, until it was pinged and nothing came for `stays.answer`
/// milliseconds from then on ([`who_is_pinged`]). None where none has to. So one that came just now has its time, and no stranger has an owner leave who was
/// there a moment ago.
pub fn who_makes_room(sights: &[Sight], stays: Stays, now: u64) -> Option<usize>
    ensures rule { MakesRoom stays now sights.now result }
    ensures owner { IfSome result (λ place. (s : Sight) × (slice_get sights.now place ≡ Some s)
        × (IsTrue s.is_trusted → IsTrue s.is_resting × (s.rested + stays.owner ≤ now))) }
    ensures unanswered { IfSome result (λ place. (s : Sight) × (slice_get sights.now place ≡ Some s)
        × (IsTrue s.is_trusted → IsTrue s.answers_pings → (s.rested < s.pinged) × (s.pinged + stays.answer ≤ now))) }
    ensures strangers_first { IfSome result (λ place. (k : ℕ) (one other : Sight) → slice_get sights.now place ≡ Some one → IsTrue one.is_trusted
        → slice_get sights.now k ≡ Some other → other.is_trusted ≡ false → ¬ MayLeave stays now other) }
{
    let mut found: Option<usize> = None;
    for place in 0..sights.len() {
        found = found_next(sights, place, found, stays, now);
    }
    found
}

/// Who is pinged at these places, if none has to make room and another connection waits: the first of those who showed the key, answer pings, and have been
/// silent for `stays.owner` milliseconds with no request under way, that was not pinged since. None if there is none.
pub fn who_is_pinged(sights: &[Sight], stays: Stays, now: u64) -> Option<usize>
    ensures rule { result ≡ position (is_to_be_pinged stays now) sights.now }
    ensures there { IfSome result (λ place. place < length sights.now) }
{
    sights
        .iter()
        .position(|sight| sight.is_to_be_pinged(stays, now))
}
