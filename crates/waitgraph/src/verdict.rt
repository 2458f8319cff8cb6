//! Whether a run can hang.

ghost use Rattle.waitgraph.specs.Verdicts.{EachRecordingHasOneVerdict, HangTellsOfAStuckRank, WithoutOpenTheStuckAreHeld};

/// What is said of a run.
#[derive(Clone, Copy, Debug, PartialEq, Eq)]
pub enum Verdict {
    /// Each rank comes to its Finalize, in every maximal run.
    Free,
    /// Some rank is held: it stays where it stands in every run, whatever calls come in the place of an open.
    Hang,
    /// No rank is held, and some list was left open.
    Unfinished,
}

/// Every closed recording has one verdict.
pub fn each_recording_has_one_verdict()
    ensures { EachRecordingHasOneVerdict }
{}

/// Over every closed recording of which no list was left open, a rank is held exactly if it is stuck.
pub fn without_open_the_stuck_are_held()
    ensures { WithoutOpenTheStuckAreHeld }
{}

/// Over every closed recording of which no list was left open, the verdict is `Hang` exactly where some rank is stuck.
pub fn hang_tells_of_a_stuck_rank()
    ensures { HangTellsOfAStuckRank }
{}
