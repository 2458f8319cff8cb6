//! What is wrong with a recorded run besides what makes it hang.
//!
//! What it promises, as contracts that are proved, by definitions of `specs/`:
//!
//! - `finding::findings` answers the findings of a recording, over all its calls, reached or not, in the order of
//!   the report: in each wave the members that make another call than the first one, then those that name another
//!   root in the same call; the messages that no call receives, and the requests that no wait completes; and the
//!   calls whose new communicators have other groups than the calls give them (`Findings`). It needs no closed
//!   recording and asks for no stands.
//! - What lacks a receive or a wait where a list was left open is no finding, since it may yet come.
//!
//! What only proofs and private contracts cite is in `specs/inner/`, and nobody has to believe it.
//!
//! ```text
//! // rank 0: bcast 0 0 / isend 0 0 1 7 / finalize      rank 1: barrier 0 / finalize
//! findings(alloc, &pairs)?.as_slice() == [
//!     Finding::Kind { comm: 0, wave: 0, member: 1, first: .., word: .. },
//!     Finding::Unreceived { rank: 0, place: 1 },
//!     Finding::Request { rank: 0, place: 1, req: 0 },
//! ]
//! ```
#![tactic(auto)]

mod bounds;
pub mod finding;
