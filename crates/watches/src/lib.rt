//! Where the ranks of a run stand, published for readers that never wait.
//!
//! What it promises, as contracts that are proved:
//!
//! - `stands::Stands::set` makes a tuple the stands of an analyser's ranks, all of one moment.
//! - `publisher::Publisher` has the stands that were published so far. `publish` adds those that it is given if they
//!   are further, shows them to all watches and answers them; it may wait for a watch that is being read. It alone
//!   adds to them: `published_all_seen` says that each watch answers by one of them.
//! - `watch::Watch` answers a rank's stand in the last publication that it saw or learned of. It may not wait, and its
//!   answers for a rank never fall.
//!
//! Sessions of the crate `gather` publish by it. The definitions are in `specs/`: `Stands` says what a state
//! that some run passes is, `Publications` what is published, `Publishers` and `Watches` what contracts see
//! of those who publish and read. What only proofs and private contracts cite is in `specs/inner/`, and
//! nobody has to believe it.
//!
//! ```text
//! let (mut publisher, mut watches) = Publisher::open(alloc, 2, 1, wait)?;
//! let mut stands = Stands::at_start();
//! stands.set(&analyser);                  // rank 0 stands at 1, rank 1 at 0
//! publisher.publish(&stands, wait)?;
//! watches[0].read(0)                      // Ok(Some(1)), and never less from then on
//! watches[0].read(2)                      // Ok(None): there is no such rank
//! publisher.published_all_seen(&watches[0]); // proves that the watch answers by a publication
//! publisher.withdraw(wait);
//! watches[0].read(0)                      // Err(Gone)
//! ```
#![tactic(auto)]

mod append;
mod board;
mod publication;
pub mod publisher;
pub mod stands;
pub mod watch;
