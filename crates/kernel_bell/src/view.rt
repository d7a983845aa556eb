//! What the holders of seats know. No value of these types is made: they stand in contracts alone.

/// What the runner knows.
pub struct RunnerView {
    /// The serial of its job, or 0 before the first.
    pub serial: u64,
    /// What it found in `bell` at its last load, or 0.
    pub heard: u64,
    /// How many times it stored `current`.
    pub stores: u64,
    /// How many times it loaded `bell`.
    pub loads: u64,
}

/// What a ringer knows.
pub struct RingerView {
    /// What it found in `current` at its last load, or 0.
    pub seen: u64,
    /// The serial that it last raised `bell` to, or 0.
    pub rung: u64,
    /// How many times it loaded `current`.
    pub looks: u64,
    /// How many times it raised `bell`.
    pub raises: u64,
}

/// What the holder of a seat knows.
pub enum SeatView {
    /// The runner's.
    Runner(RunnerView),
    /// A ringer's.
    Ringer(RingerView),
}
