//! The calls of all ranks, packed, and what one call means by itself: its halves of messages and their envelopes,
//! the request that it starts or waits for, the wave that it joins, the communicator that it makes.
//!
//! What it promises, as contracts that are proved, by definitions of `specs/`:
//!
//! - `notes::Notes` has the noted calls of each rank, each with what is kept with it: the number of its wave or
//!   the places of its partners, and at a wait the places that started its requests. What was noted is
//!   answered again (`Notes`). `call_ref::CallRef` shows a call in its place.
//! - `next_call::NextCall` is a call with what it does, found out once. Of a call it and `CallRef` answer the
//!   messages with their envelopes (`Envelopes`), the requests (`Requests`), the communicator that the call makes
//!   (`Communicators`) and the one whose wave it joins (`Waves`); so do the functions of `envelope`, `request`
//!   and `comm`.
//! - `hot` numbers the kinds of calls that come often, for which the crates above have paths of their own.
//! - `place_lists::PlaceLists` has lists of places by numbers.
//! - Laws of waves, each on a function that does nothing: a wave has at most one call of each rank, and waves stay as
//!   a recording goes on.
//!
//! The definitions are in `specs/`, to be read in the order of docs/DEFINITIONS.md. `CachedMatch`, `Notes`,
//! `Hot`, `Packed` and `Seats` say how calls are kept and which path they take; no contract of a crate
//! above whose caller is a user of the library cites them. What only proofs and private contracts cite is in
//! `specs/inner/`, and nobody has to believe it.
//!
//! A call takes 24 bytes with the partner of its half or the number of its wave, and each request that a wait for
//! several names 4 more. Once a call of a rank has two partners, each call of that rank up to it takes 8 more. No look-up takes memory or goes through a list of calls: that is seen in the code alone.
//!
//! ```text
//! let mut notes = Notes::new(alloc, 2)?;
//! notes.reserve(0, &isend)?;
//! notes.note::<ISEND>(0, &isend, CachedMatch::Nothing, &[]);   // rank 0: isend 7 0 1 5
//! notes.get(0, 0)?.call().message(Half::Send)                  // communicator 0, peer 1, tag 5
//! ```
#![tactic(auto)]

pub mod cached_match;
pub mod call_ref;
pub mod comm;
mod entries;
pub mod envelope;
mod growth;
pub mod hot;
pub mod limits;
mod mark;
pub mod next_call;
pub mod note;
pub mod notes;
mod packed;
mod packed_fields;
mod packing;
pub mod place_lists;
mod rank_notes;
pub mod request;
pub mod wave;
