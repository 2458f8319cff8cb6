//! Laws of recordings that are cut into windows: what the windows decide for the whole; the functions of `laws` prove them.
//!
//! `specs/Cuts` has cuts and the two windows of one, `specs/Clean` which recordings may be cut and when a cut is clean,
//! `specs/Laws` the laws, `specs/Rows` small recordings with their cuts.
//!
//! Lemmas: `PlaceCuts` has places and counts of lists that are put together, `CutLists` what the calls before a cut become
//! in the two windows, `StartedLemmas` and `FrontStarts` where requests were started, `CutWindows` the lists of the windows,
//! `CleanLemmas` what a clean cut says of its first window. `FirstNeeds` has what calls before the cut need, `NeedForms` and
//! `SecondNeeds` what those after it need. `StandForms` and `CutStands` have where ranks stand, `CutNeeds` what they lack,
//! `CutHeld` which are held, and the laws. `RightWindows` says that windows can be cut again, `CutChains` what they say one after
//! another, `CutCauses` why ranks are held, `LawfulRight` and `EvenCuts` which recordings and cuts meet the premises. `RowLemmas`
//! computes the rows.
#![tactic(auto)]

pub mod laws;
