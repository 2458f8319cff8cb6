//! The laws that are proved.

ghost use Rattle.lawful.specs.Closed.{EachRecordingIsClosed, OneNumberIsOneCommunicator, NoOtherFault, EachListInRangesReadsBack, EachHeadIsAHead, EachListIsInRanges};
ghost use Rattle.lawful.specs.Fit.{EachRunThatWasReadIsFit};
ghost use Rattle.lawful.specs.Free.{EachFinalizeIsAnEnd, EachFinalizeIsListedThrough, WhatIsGoneThroughEnds, WhatIsLeftIsOpen, WhatIsNotLeftIsAnEnd, WhatIsFreeIsWhole, SinksAloneAreLeft, NothingIsLeft};
ghost use Rattle.lawful.specs.Laws.{EachRecordingIsLawful, EachRecordingReadsBack};
ghost use Rattle.lawful.specs.Longer.{WhatIsToldStays};
ghost use Rattle.lawful.specs.LongerSinks.{WhatIsToldStaysWithSinks};
ghost use Rattle.lawful.specs.LongerTold.{WhatIsToldBetweenStays, WhatIsToldBetweenStaysWithSinks};
ghost use Rattle.lawful.specs.Plain.{EachPlainJournalStaysTheSame};
ghost use Rattle.lawful.specs.Same.{OneNumberExactlyIfTheSame, CallsAreOnOneNumberExactlyIfOnOne, EachNumberHasItsGroup};
ghost use Rattle.lawful.specs.SinkPlaces.{EachSinkHasItsPlace, NoneIsBehindASink, SinksAreInOrder};
ghost use Rattle.lawful.specs.SoFar.{WhatIsSoFarStays};

/// There is a list for each rank of the head, each has an end, and nothing comes after it.
pub fn each_recording_is_closed()
    ensures { EachRecordingIsClosed }
{}

/// Two communicators with one number in the head are the same.
pub fn one_number_is_one_communicator()
    ensures { OneNumberIsOneCommunicator }
{}

/// Calls name communicators and ranks that there are, start requests that aren't active and wait for those that are.
pub fn no_other_fault()
    ensures { NoOtherFault }
{}

/// No call of a recording of journals that were read has a fault.
pub fn each_recording_is_lawful()
    ensures { EachRecordingIsLawful }
{}

/// The text of a list whose calls are all in their ranges reads as that list.
pub fn each_list_in_ranges_reads_back()
    ensures { EachListInRangesReadsBack }
{}

/// The groups of a recording of journals that were read are those of a head.
pub fn each_head_is_a_head()
    ensures { EachHeadIsAHead }
{}

/// Each call of a recording of journals that were read is in its ranges.
pub fn each_list_is_in_ranges()
    ensures { EachListIsInRanges }
{}

/// What is written of a recording of journals that were read is that recording.
pub fn each_recording_reads_back()
    ensures { EachRecordingReadsBack }
{}

/// Without sinks a list ends with `finalize` exactly if its journal was gone through to the rank's end.
pub fn each_finalize_is_an_end()
    ensures { EachFinalizeIsAnEnd }
{}

/// With sinks too, a list ends with `finalize` if its journal was gone through to the rank's end.
pub fn what_is_gone_through_ends()
    ensures { WhatIsGoneThroughEnds }
{}

/// With sinks or without, a list ends with `finalize` exactly if no entry ends it before that, by the sinks before each.
pub fn each_finalize_is_listed_through()
    ensures { EachFinalizeIsListedThrough }
{}

/// A list of which it is reported why it ends is left open.
pub fn what_is_left_is_open()
    ensures { WhatIsLeftIsOpen }
{}

/// A list of which that isn't reported ends with `finalize`, if its rank's journal has an end.
pub fn what_is_not_left_is_an_end()
    ensures { WhatIsNotLeftIsAnEnd }
{}

/// If no list is left open, each rank's journal goes to its end, and of none is it reported why it ends before that.
pub fn what_is_free_is_whole()
    ensures { WhatIsFreeIsWhole }
{}

/// If no list is left open, what is left are entries of sinks.
pub fn sinks_alone_are_left()
    ensures { SinksAloneAreLeft }
{}

/// If no list is left open and lists have no sinks, nothing is left.
pub fn nothing_is_left()
    ensures { NothingIsLeft }
{}

/// A communicator has the number of another exactly if the two are the same.
pub fn one_number_exactly_if_the_same()
    ensures { OneNumberExactlyIfTheSame }
{}

/// The calls of two ranks are on one number exactly if they name one communicator.
pub fn calls_are_on_one_number_exactly_if_on_one()
    ensures { CallsAreOnOneNumberExactlyIfOnOne }
{}

/// The group that the head gives for the number of a communicator is that of the communicator.
pub fn each_number_has_its_group()
    ensures { EachNumberHasItsGroup }
{}

/// A journal of plain calls that was gone through closes to the same calls, but for the numbers of requests.
pub fn each_plain_journal_stays_the_same()
    ensures { EachPlainJournalStaysTheSame }
{}

/// Where the journal of plain calls goes on, the list begins with the records so far, if calls are taken strictly,
/// communicators keep their numbers, and no request is cancelled or moved.
pub fn what_is_so_far_stays()
    ensures { WhatIsSoFarStays }
{}

/// Where journals go on, with calls of any kind, each list begins with the records so far. So it does, but for the numbers
/// of lines, where messages of requests are reported among the lines so far too. Communicators keep their numbers, and
/// of what came so far it isn't reported later that it failed, was cancelled or is moved.
pub fn what_is_told_stays()
    ensures behind { WhatIsToldStays }
    ensures between { WhatIsToldBetweenStays }
{}

/// So each list does in both cases with sinks, but that in a sink's place a receive of a message that it takes may stand.
pub fn what_is_told_stays_with_sinks()
    ensures behind { WhatIsToldStaysWithSinks }
    ensures between { WhatIsToldBetweenStaysWithSinks }
{}

/// What the making of a recording rests on is true of each run that was read.
pub fn each_run_that_was_read_is_fit()
    ensures { EachRunThatWasReadIsFit }
{}

/// In the place of a sink stands the start of a receive from nobody, whose request is active at the end of the list.
pub fn each_sink_has_its_place()
    ensures { EachSinkHasItsPlace }
{}

/// The sinks of a list are in the order of their places.
pub fn sinks_are_in_order()
    ensures { SinksAreInOrder }
{}

/// No receive or probe after a sink is of a message that the sink may take.
pub fn none_is_behind_a_sink()
    ensures { NoneIsBehindASink }
{}
