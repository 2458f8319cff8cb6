//! The calls of a run with the reading of their sends, and where its ranks are.

ghost use Rattle.std.specs.Prelude.{◌≡◌, slice_index};

use crate::need::stand_of;
use crate::progress::Progress;
use crate::reading::Reading;
use crate::waiters::Waiters;
use pairing::pairs::Pairs;

/// The calls of all ranks so far, and by which reading their sends are read.
pub struct World {
    pub reading: Reading,
    pub pairs: Pairs,
}

// By hand: a derived drop is proved again at each exit of a function that owns one.
impl Drop for World {
    fn drop(self) {
        let World {
            reading: _,
            pairs: _,
        } = self;
    }
}

/// Where the ranks are: how many of its calls each has completed, how far the waves are, and who waits for what.
pub(crate) struct Positions {
    pub stands: Vec<u32>,
    pub progress: Progress,
    pub waiters: Waiters,
}

// By hand: a derived drop is proved again at each exit of a function that owns one.
impl Drop for Positions {
    fn drop(self) {
        let Positions {
            stands: _,
            progress: _,
            waiters: _,
        } = self;
    }
}

impl Positions {
    /// Where a rank stands; 0 where there is no such rank.
    #[inline(always)]
    pub(crate) fn stand(&self, rank: u16) -> u32
        ensures { result ≡ slice_index self.now.stands.items rank }
    {
        stand_of(&self.stands, rank)
    }
}
