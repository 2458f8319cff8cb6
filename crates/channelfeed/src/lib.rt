//! The feed of one rank's records over a bounded channel, from the thread that reads them to the one that takes them.
//!
//! It has the calls and the promises of `rankfeed`, by the definitions there. What differs: most calls may wait, and
//! the end mark waits for a place as a record does. The program uses the ring of `rankfeed` alone.
//!
//! `specs/Channels` says what contracts see of the two ends. Of the rule in `Relays` they see `left_in_relay` alone,
//! what a taker knows to be left. What only proofs and private contracts cite is in `specs/inner/`, and nobody has
//! to believe it.
//!
//! ```text
//! let (mut feed, mut taker) = Feed::open(alloc, rank, 64)?;
//! feed.put(record, wait)?;                          // in one thread
//! let receipt = feed.tear(fault, wait)?;
//! taker.try_take(wait) == Took::Record(record)      // in another
//! taker.meet(receipt, wait) == Met { count: 1 }     // the end mark
//! taker.try_take(wait) == Took::Torn(fault)         // for good
//! ```
#![tactic(auto)]

pub mod channel;
