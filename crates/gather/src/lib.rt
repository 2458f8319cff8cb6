//! Sessions over the feeds of a run's ranks: what is kept of their records, in whatever order these come.
//!
//! What it promises, as contracts that are proved:
//!
//! - `session::Session::open` opens a feed for each rank, and their collector.
//! - `collector::Collector::step` takes one item of a rank's feed. After each step, unless memory ran out,
//!   the records received of each rank before its first fault are kept, and that fault.
//! - `Collector::close` takes what is left, by a receipt for each rank, and answers what the traces that the
//!   receipts hold give, whatever steps came before: each rank's calls once, in order, none after its end
//!   record. It is `finish_all` and then `conclude`, which say that lack of memory is answered before a
//!   missing receipt.
//! - `outcome::Outcome::verdict` is `Hang` exactly if some rank is held; where no list was left open, exactly if
//!   some rank is stuck.
//! - `Collector::publish` publishes where the ranks stand over what is kept so far, no rank lower than before, and
//!   `watch::Watch` reads it: it is passed nothing to wait with, and its answers never fall. Each publication is a
//!   state that some run over what is kept passes. A watch answers by one of them, at any time.
//! - `feed::feed` puts the records of one source on a rank's feed and ends it.
//!
//! The definitions are in `specs/`: `Outcomes` says which refusal or verdict some traces have, `Collected` and
//! `Closes` what a session keeps and answers, `FeedContract` what is read of a source. Those of the crate `watches`
//! say what is published and read. Runs over the sources of all ranks, with threads or by turns, are in the
//! crate `driver`. What only proofs and private contracts cite is in `specs/inner/`, and nobody has to believe
//! it.
//!
//! ```text
//! let (mut feeds, mut collector, _watches) = Session::open(alloc, head, Reading::Strict, 64, 0, wait)?;
//! feeds[0].try_put(record)?;
//! collector.step(0) == Stepped::Took
//! ```
#![tactic(auto)]

pub mod collector;
pub mod fault;
pub mod feed;
pub mod gate;
pub mod ledger;
pub mod outcome;
pub mod session;
pub mod watch;
