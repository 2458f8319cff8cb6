//! Arrivals: records of many ranks as they are read, in any mix.

ghost use Rattle.moves.specs.Arrivals.{KeptIsLawful, MixesAreKeptAlike, MixesStandAlike};

/// What is kept of arrivals is lawful: no call that is kept has a fault after those kept before it.
#[tactic(auto, using(crate::proofs::ArrivalLemmas::kept_is_lawful))]
pub fn kept_is_lawful()
    ensures { KeptIsLawful }
{}

/// However the ranks' records are mixed, the same recording is kept. Its premise is that each rank's
/// records arrive in the same order.
#[tactic(auto, using(crate::proofs::ArrivalLemmas::mixes_are_kept_alike))]
pub fn mixes_are_kept_alike()
    ensures { MixesAreKeptAlike }
{}

/// However the ranks' records are mixed, the ranks come to stand alike. Its premise is that each rank's
/// records arrive in the same order.
#[tactic(auto, using(crate::proofs::AnalyserLemmas::mixes_stand_alike))]
pub fn mixes_stand_alike()
    ensures { MixesStandAlike }
{}
