//! Where ranks come to stand by a reading, and what that says of every run.

ghost use Rattle.moves.specs.Stands.{EveryMaximalRunEndsAtTheStands, NoRunBringsAStuckRankToItsEnd, EveryMaximalRunBringsTheOthers, LongerRecordingsLowerNoStand, NoCallBehindTheEndIsReached};

/// Over every recording, the run that always moves the lowest rank is maximal, and every maximal run ends
/// at the stands. It has no premise: the recording need be neither closed nor lawful.
pub fn every_maximal_run_ends_at_the_stands()
    ensures { EveryMaximalRunEndsAtTheStands }
{}

/// A rank that is not at its end at the stands is brought there by no run, maximal or not.
#[tactic(auto, using(crate::proofs::StandLemmas::no_run_brings_a_stuck_rank_to_its_end))]
pub fn no_run_brings_a_stuck_rank_to_its_end()
    ensures { NoRunBringsAStuckRankToItsEnd }
{}

/// A rank that is at its end at the stands is brought there by every maximal run.
#[tactic(auto, using(crate::proofs::StandLemmas::every_maximal_run_brings_the_others))]
pub fn every_maximal_run_brings_the_others()
    ensures { EveryMaximalRunBringsTheOthers }
{}

/// A recording whose lists go on from those of another has no lower stand than that one. Its premise is
/// that both have the same ranks.
pub fn longer_recordings_lower_no_stand()
    ensures { LongerRecordingsLowerNoStand }
{}

/// No run moves a rank past a call that ends its list, so a call after it is never reached.
#[tactic(auto, using(crate::proofs::StandLemmas::no_call_behind_the_end_is_reached))]
pub fn no_call_behind_the_end_is_reached()
    ensures { NoCallBehindTheEndIsReached }
{}
