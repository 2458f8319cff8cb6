//! Laws of the recordings that journals stand for; the functions of `laws` prove them.
//!
//! `specs/Laws` has the two laws of runs that were read: no call of a recording has a fault, and what is written of it
//! is that recording. `specs/Closed` has laws on the way to these. Of any run: each recording is closed, one number is
//! one communicator, calls have no other fault than of the communicators that their rank holds, and a list whose calls
//! are in their ranges is what its text reads as. Of a run that was read: the groups are those of a head, and calls are
//! in their ranges.
//!
//! `specs/Free` has how lists end and what is reported free, `specs/Same` which calls are on one communicator.
//! `specs/Plain` says that journals of plain calls stay the same, `specs/SoFar` that what they have so far stays when
//! they go on; `specs/Longer` says it of calls of all kinds, where all journals of the run go on, `specs/LongerSinks`
//! of lists that have sinks; `specs/LongerTold` says both where messages are reported among the lines so far too.
//! `specs/SinkPlaces` has what sinks have in the lists that `judge` goes by: their places, and what comes after them.
//!
//! Lemmas: `RequestLemmas` what one call changes about requests, `StepLemmas` what a step adds, `TableLemmas` that
//! entries give such steps, `ListLemmas` all calls of a list, `PassLemmas` lists whose records pass a test, `NameLemmas`
//! and `CallLemmas` what calls name, `FaultLemmas` the tests together. `HoldLemmas` has lists whose calls pass the tests
//! of holding, `LineFacts`, `RunFacts`, `FullFacts` and `RunFull` what the lines of journals that were read have,
//! `KeyFacts` and `PrefaceFacts` the communicators of the preface, `KeptLemmas` what a list keeps along its journal,
//! `SafeLemmas`, `MakerLemmas` and `EntryLemmas` its entries, `WalkLemmas` its lines, `LawfulLemmas` all together.
//! `GroupFacts`, `KeyGroups` and `HeadLemmas` have the groups of the head, `HeadTexts` its text. `RangeLemmas` has the
//! numbers of requests, `FieldRanges`, `CalledRanges` and `RangedTable` the other ranges, `RangedLists` all of a list,
//! `ReadLemmas` its text. `EndLemmas` has how lists end, `EndWords` and `JournalEnds` the last lines of journals,
//! `FreeLemmas` all lists; `SameLemmas` has numbers of communicators, `PlainLemmas` what plain calls add, `PlainSteps`
//! their lists, `SoFarLemmas` and `SoFarSteps` those of a journal that goes on. `LongerAmong` and `LongerLemmas` have what
//! such a journal says of each call, `LongerSteps` what the call stands for, `LongerMakers` and `LongerWaves` what makes
//! communicators, `LongerWindows` that a cut run stays one, `LongerLines` that numbers of lines change nothing else,
//! `LongerLists` the lists. Of those with sinks `SinkStays` has the numbers of requests, `SinkGoes` and `SinkTakes` what
//! comes of waits and of receives, `SinkEntries` all calls and the lists.
//!
//! `specs/Fit` says that what the making of a recording rests on is true of each run that was read. `RightLines` says that
//! no line has a fault by those before it, and so `OutcomesOnce` that it is reported once what came of a request.
//! `NewNumbers`, `KnownLines` and `SentRequests` have what lines say of requests, `CalledCases` what calls say. `NewSteps`
//! has steps that start new requests, `NamedRequests` what waits and tests name, `ActiveSends`, `OwnSteps` and `TestLemmas`
//! what a test finds in the list. `CommGroups` and `CommsFit` have the groups of communicators, `FitLemmas` all together.
//! `ReadRuns` has what crates above cite of runs that were read.
//!
//! `SinkCases` has what comes of an entry by the sinks before it, and that a test of it passes if four lists of steps do;
//! `NoSinks` that entries stand for the same where no sink is before them. `SinkPairs` has what a sink has with each later
//! record: `SinksKept` that it leaves the request alone, `SinksApart` that it takes no message of the sink, `SinkLaws` both
//! with the places.
#![tactic(auto)]

pub mod laws;
