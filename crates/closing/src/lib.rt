//! Closing: the recording that the journals of a run are by definition.
//!
//! `recording::Recording` makes it from journals that were read: the communicators of the head at once, and then the
//! list of each rank entry by entry, so that no list is ever there as a whole. `Recording::step` takes the
//! next entry of a rank, and `Recording::records` has its records until they are handed on.
//!
//! What each module keeps, and the definitions that it is proved against:
//!
//! | module | what it keeps | definitions |
//! |---|---|---|
//! | `called` | what a call line says, by its word | `Called` |
//! | `keys` | each key and each group once, by a place; two are the same exactly if their places are | `Keys` |
//! | `rank_comms` | what a rank has after some lines, with places of keys | `RankComms` |
//! | `survey` | the keys that ranks got, which of them are named, and those that calls which never came back made | `Made` |
//! | `numbers` | the numbers of the head, and the preface | `Numbers` |
//! | `last` | the reports of an entry, and whether the last call came back | `Entries` |
//! | `outcomes`, `message` | what is reported of requests; messages, and what can't be | `Reported`, `Endings` |
//! | `moved` | the receives that go on in the journal after this one | `Moved` |
//! | `freed` | the requests that a rank's program frees, and where its list starts them | `Freed` |
//! | `started` | the active requests of a rank, by its own numbers | `Steps` |
//! | `list` | the records of a rank so far, and its active requests with their numbers | `Steps` |
//! | `walk` | one rank: what stands for its entries, and where and why its list ends | `Entry`, `Endings`, `Recording` |
//!
//! Each line is looked at twice: for the communicators of all ranks, and for the records of its own rank.
//!
//! Each is proved against these, and `recording` against `Recordings`. Of a run that is fit, as `Fit` has it, the
//! records of a rank are the calls of its list in order, each by the line of its entry. The list ends where, and
//! why, the definitions end it, and starts freed requests where `Freed` has it.
//!
//! Nobody has to believe `inner`.
#![tactic(auto)]

mod called;
pub mod choice;
mod freed;
mod keys;
mod last;
mod list;
mod message;
mod moved;
pub mod numbers;
pub mod outcomes;
pub mod pending;
mod places;
mod rank_comms;
mod rank_numbers;
pub mod recording;
mod standing;
mod started;
mod stop;
mod survey;
pub mod walk;
pub mod why;
