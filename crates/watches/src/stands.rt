//! Where all ranks stand at one moment, in as many places as a run may have ranks.

ghost use Rattle.std.specs.Prelude.{◌≡◌, ◌<◌, ◌≤◌, ◌*◌, sum, slice_get, Some};
ghost use Rattle.moves.specs.Stands.{stands_of};
ghost use Rattle.watches.specs.Stands.{shown_places, is_no_lower, is_further, PassedStatesStayPassed};
ghost use Rattle.mpigroup.specs.declared.limits.TheConstants.{MOST_RANKS};

use moves::analyser::Analyser;
use mpigroup::limits::MOST_RANKS;

/// The most ranks that a run may have.
const PLACES: usize = MOST_RANKS as usize;

/// The stands of all ranks at one moment: a place for each rank that a run may have, 0 after the last rank.
#[derive(Clone, Copy, PartialEq, Eq)]
pub struct Stands {
    pub places: [u32; PLACES],
}

impl Stands {
    ghost use Rattle.watches.specs.Publications.{at_start};

    /// Each rank stands at 0.
    #[tactic(auto, unfolding(crate::specs::Publications::at_start))]
    pub fn at_start() -> Stands
        ensures { result ≡ at_start }
    {
        Stands {
            places: [0; PLACES],
        }
    }

    /// Becomes the stands of now: each rank's place is where the rank stands over the calls that were accepted,
    /// by definition.
    pub fn set(&mut self, analyser: &Analyser)
        ensures { self.new.places ≡ shown_places (stands_of analyser.now.reading analyser.now.groups analyser.now.recording) }
    {
        analyser.stands_are_the_end();
        for rank in 0..MOST_RANKS {
            self.places[usize::from(rank)] = analyser.stand(rank).unwrap_or(0);
        }
    }

    /// The stand of a rank.
    pub fn of(&self, rank: u16) -> u32
        requires { rank < MOST_RANKS }
        ensures { slice_get self.now.places rank ≡ Some result }
    {
        self.places[usize::from(rank)]
    }

    /// Whether no rank stands lower in the other.
    #[tactic(auto, unfolding(crate::specs::Stands::is_no_lower))]
    fn is_within(&self, other: &Stands) -> bool
        ensures { result ≡ is_no_lower self.now.places other.now.places }
    {
        (0..PLACES).all(|rank| self.places[rank] <= other.places[rank])
    }

    /// How many calls the ranks have completed together.
    pub fn completed(&self) -> u64
        ensures value { result ≡ sum self.now.places }
        ensures most { result ≤ MOST_RANKS * 4294967295 }
    {
        let mut completed = 0;
        for stand in &self.places {
            completed += u64::from(*stand);
        }
        completed
    }

    /// Whether the other stands are further: no rank stands lower there, and all together are further on.
    pub(crate) fn is_behind(&self, other: &Stands) -> bool
        ensures value { result ≡ is_further self.now.places other.now.places }
        ensures most { sum self.now.places ≤ MOST_RANKS * 4294967295 }
    {
        let so_far = self.completed();
        self.is_within(other) && so_far < other.completed()
    }
}

/// A state that some run over a recording passes is passed by a run over each recording that goes on from it.
pub fn passed_states_stay_passed()
    ensures { PassedStatesStayPassed }
{}
