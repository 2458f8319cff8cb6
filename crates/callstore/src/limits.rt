//! The limit of a recording, which definitions cite.

ghost use Rattle.callstore.specs.Limits.{TheLimitOfARecording};

/// The most calls of a rank, its end record counted.
pub const MOST_CALLS: usize = 1_000_000;

/// The limit is the one that the definitions give in numbers. A law: it does nothing.
pub fn the_limit_of_a_recording()
    ensures { TheLimitOfARecording }
{}
