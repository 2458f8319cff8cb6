//! When ranks move on by a reading of their sends, and where every run of them ends.
//!
//! What it promises, as contracts that are proved:
//!
//! - `analyser::Analyser` takes the ranks' calls one by one, in any mix, and knows at any time where the
//!   ranks stand. `offer` refuses a call exactly where it has a fault, with the first one, or where memory
//!   runs out, and then nothing has changed. After each offer the ranks stand where every maximal run over
//!   the accepted calls ends, and no rank stands lower than before.
//! - Every maximal run over a recording ends at the same stands, and there is one: the law
//!   `stand::every_maximal_run_ends_at_the_stands`. No run brings a rank to its end that isn't there at
//!   the stands, every maximal run brings the others, and a longer recording lowers no stand.
//! - However the ranks' calls are mixed, the same calls are kept and the ranks come to stand alike: the laws
//!   `arrival::mixes_are_kept_alike` and `arrival::mixes_stand_alike`.
//! - By a stricter reading no rank comes to stand later, and `held_back::held_back` answers which ranks stand
//!   earlier: those that come further only because small messages are sent on at once.
//!
//! A reading is strict, or it has an eager limit: then a send in standard mode that says its bytes, no more than
//! the limit, waits for nothing. It concerns `send`, `isend` and the send of a `sendrecv`, and never a synchronous
//! or a buffered send, nor one that says no bytes.
//!
//! The definitions are in `specs/`, to be read in the order of docs/DEFINITIONS.md: `Needs` says what a
//! call needs before its rank moves on, `Runs` and `Stands` where runs end. What a call over a communicator
//! sends, receives, probes for and joins follows from `effect_of` of `mpicall`; which calls start requests and
//! complete them is said by the tables of `callstore`. What only proofs and private contracts cite is in
//! `specs/inner/`, and nobody has to believe it.
//!
//! A rank that cannot move on is linked where it waits: for the partner of one of its messages, for the send that
//! its probe would see, or for a communicator's next wave. A call that is reached puts those that wait for it onto
//! a worklist, and no rank is looked at that nothing woke. No probe is searched for: the rank that a send goes to is
//! the only one whose probe can see it. A look ends at the first need that is not met, and a look at a wave is a look
//! at one number. All room that this takes is made when the analyser is: it grows with the ranks and the
//! communicators, and not with the calls.
//!
//! ```text
//! let head = Head::read(alloc, b"ranks 2\n")?;
//! let mut analyser = Analyser::new(alloc, head, Reading::Strict)?;
//! analyser.offer(0, &send)?;                         // rank 0: send 0 1 0
//! analyser.stand(0) == Some(0)                       // its receive has not come yet
//! analyser.offer(1, &recv)?;                         // rank 1: recv 0 0 0
//! analyser.stand(0) == Some(1)
//! analyser.offer(0, &finalize)?;
//! analyser.offer(1, &finalize)?;
//! analyser.is_ended(0) && analyser.is_ended(1)
//! ```
#![tactic(auto)]

pub mod analyser;
pub mod arrival;
pub mod held_back;
mod look;
pub mod need;
mod progress;
pub mod reading;
pub mod run;
mod settle;
pub mod stand;
mod waiters;
pub mod world;
