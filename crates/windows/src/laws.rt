//! The laws that are proved: of recordings that may be cut, which are closed and lawful ones among others, and of cuts that
//! are clean.

ghost use Rattle.windows.specs.Chains.{AfterFreeWindowsTheRestDecides, StuckInTheFirstThatIsNotFree};
ghost use Rattle.windows.specs.Laws.{AfterAFreeWindowTheSecondDecides, StuckInTheFirstIsHeldInTheWhole, AHangInTheFirstIsOne, WindowsAreRight, LawfulRecordingsAreRight, CleanIsEven};
ghost use Rattle.windows.specs.Rows.{RowsAreRight};

/// After a first window that is free the second one decides for the whole recording: where ranks stand, what they lack, which
/// are held, and so the verdict.
pub fn after_a_free_window_the_second_decides()
    ensures { AfterAFreeWindowTheSecondDecides }
{}

/// A rank that is stuck in the first window is held in the whole recording, at the same place and for the same needs.
pub fn stuck_in_the_first_is_held_in_the_whole()
    ensures { StuckInTheFirstIsHeldInTheWhole }
{}

/// Where the first window can hang, the whole recording can.
pub fn a_hang_in_the_first_is_one()
    ensures { AHangInTheFirstIsOne }
{}

/// The small recordings of `specs/Rows` have the windows and stands that it says.
pub fn rows_are_right()
    ensures { RowsAreRight }
{}

/// Both windows are such recordings again, so each can be cut in its turn.
pub fn windows_are_right()
    ensures { WindowsAreRight }
{}

/// Where a recording is cut again and again and all windows before the last are free, the last one decides for the whole.
pub fn after_free_windows_the_rest_decides()
    ensures { AfterFreeWindowsTheRestDecides }
{}

/// A rank that is stuck in the first window that isn't free is held in the whole recording.
pub fn stuck_in_the_first_that_is_not_free()
    ensures { StuckInTheFirstThatIsNotFree }
{}

/// A closed recording in which no call has a fault is one that may be cut.
pub fn lawful_recordings_are_right()
    ensures { LawfulRecordingsAreRight }
{}

/// A cut is clean exactly if the first window has as many sends of each envelope as receives, as many calls of each member
/// of a communicator, and what its probes see, and no receive that stays overtakes a moved one.
pub fn clean_is_even()
    ensures { CleanIsEven }
{}
