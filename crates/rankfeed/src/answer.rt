//! What the calls of a feed and of its taker answer.

ghost use Rattle.std.specs.Prelude.{◌≡◌};
ghost use Rattle.rankfeed.specs.Answers.{told_end, came_end};

use mpicall::fault::{Ending, SourceFault};
use mpicall::record::Record;
use thiserror::Error;

/// Why a record wasn't put. It comes back, and the feed is as before.
#[derive(Clone, Copy, Debug, PartialEq, Eq, Error)]
pub enum PutFault {
    /// There is no room now.
    #[error("no room for a record")]
    Full(Record),
    /// The end record was put, and no record follows it.
    #[error("a record behind finalize")]
    Closed(Record),
}

/// The feed gave no proof of what was put on it. In the ring form the taker was dropped before, and the
/// end mark was put all the same.
#[derive(Clone, Copy, Debug, PartialEq, Eq, Error)]
#[error("no receipt")]
pub struct Unsealed;

/// What a taker found.
#[derive(Clone, Copy, PartialEq, Eq)]
pub enum Took {
    /// The next record.
    Record(Record),
    /// Nothing is there now.
    Empty,
    /// All records were taken, the end record last. Each later call answers the same.
    Sealed,
    /// The records stopped, for the fault. Each later call answers the same.
    Torn(SourceFault),
}

/// What a taker finds where it looks.
#[derive(Clone, Copy, PartialEq, Eq)]
pub enum Came {
    /// The next record, which is at the front now.
    Record,
    /// Nothing is there now.
    Empty,
    /// All records were taken, the end record last. Each later call answers the same.
    Sealed,
    /// The records stopped, for the fault. Each later call answers the same.
    Torn(SourceFault),
}

/// What a taker learns from its feed's receipt.
#[derive(Clone, Copy, PartialEq, Eq)]
pub struct Met {
    /// How many items are left to take, the end mark counted.
    pub count: usize,
}

impl Took {
    /// The answer of a taker that comes to this end mark.
    pub fn of(end: Ending) -> Took
        ensures { result ≡ told_end end }
    {
        match end {
            Ending::Sealed => Took::Sealed,
            Ending::Torn(fault) => Took::Torn(fault),
        }
    }
}

impl Came {
    /// The answer of a taker that looks, but doesn't wait, and comes to this end mark.
    pub(crate) fn of(end: Ending) -> Came
        ensures { result ≡ came_end end }
    {
        match end {
            Ending::Sealed => Came::Sealed,
            Ending::Torn(fault) => Came::Torn(fault),
        }
    }
}
