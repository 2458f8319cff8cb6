//! What is handed an analyser now and then, to see how far it is.

use moves::analyser::Analyser;

/// What is handed the analyser of a check while that goes on. The check gets nothing back.
pub trait Tracker {
    /// At most so many records were taken since the last call.
    fn note(&self, analyser: &Analyser, taken: u64);
}

/// Nobody wants to know.
#[derive(Clone, Copy, Debug, PartialEq, Eq)]
pub struct Untracked;

impl Tracker for Untracked {
    #[inline(always)]
    fn note(&self, _analyser: &Analyser, _taken: u64) {}
}
