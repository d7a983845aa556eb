//! By when a message has to be written.
ghost use Rattle.std.specs.Prelude.{◌≡◌, ℕ, ◌+◌, ◌-◌, ◌^◌, ◌<◌, ◌≤◌, min, IsTrue, false, IfSome, IfNone, Some, None};

/// The write deadline of a connection: by when the message has to be out of which a piece is written, in milliseconds of a clock.
#[derive(Drop)]
pub struct WriteDeadline {
    /// How many milliseconds a message may take, whatever the pieces.
    pub most: u64,
    pub until: Option<u64>,
}

impl WriteDeadline {
    /// No message is on its way, and each may take so many milliseconds.
    pub fn new(most: u64) -> WriteDeadline
        ensures none { result.until ≡ None }
        ensures most { result.most ≡ most }
    {
        WriteDeadline { most, until: None }
    }

    /// How many milliseconds a piece may take that is written now: what is left of the time of its message. None where nothing is left. The time begins
    /// with the first piece of a message, and ends at the end of what the clock can tell at the latest; it stays with the others.
    pub fn left(&mut self, now: u64) -> Option<u64>
        ensures first { self.old.until ≡ None → self.new.until ≡ Some (min (now + self.old.most) (2 ^ 64 - 1)) }
        ensures others { (until : ℕ) → self.old.until ≡ Some until → self.new.until ≡ Some until }
        ensures some { IfSome result (λ left. (0 < left) × (self.new.until ≡ Some (now + left))) }
        ensures none { IfNone result ((until : ℕ) → self.new.until ≡ Some until → until ≤ now) }
        ensures most { self.new.most ≡ self.old.most }
    {
        let until = match self.until {
            Some(until) => until,
            None => now.saturating_add(self.most),
        };
        self.until = Some(until);
        if until > now { Some(until - now) } else { None }
    }

    /// A piece went out: behind the last one of a message the next one has its own time.
    pub fn wrote(&mut self, is_last: bool)
        ensures last { IsTrue is_last → self.new.until ≡ None }
        ensures others { is_last ≡ false → self.new.until ≡ self.old.until }
        ensures most { self.new.most ≡ self.old.most }
    {
        if is_last {
            self.until = None;
        }
    }
}
