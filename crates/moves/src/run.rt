//! Runs: ranks move on one at a time, as a rule allows. The laws of this file hold of every rule that
//! is persistent: of each that lets a rank move which it let move before the others went on.

ghost use Rattle.moves.specs.Runs.{AnyEndIsTheEnd, MaximalRunsEndAlike};

/// Under a persistent rule, a state that some run reaches and in which no rank can move is the end of
/// every maximal run.
pub fn any_end_is_the_end()
    ensures { AnyEndIsTheEnd }
{}

/// Under a rule that is persistent and lets no rank move on from its last call, there is a maximal
/// run, the one that always moves the lowest rank that can, and every maximal run ends where it ends.
pub fn maximal_runs_end_alike()
    ensures { MaximalRunsEndAlike }
{}
