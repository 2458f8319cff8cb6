//! The feed of one rank's records, from the thread that reads them to the one that takes them.
//!
//! A feed has two ends, and each may go to a thread of its own. A `Feed` puts records at the back and
//! then one end mark: `seal` where the end record was put (`finalize` or `open`), `tear` with the fault
//! where the records stop. Its `Taker` takes from the front.
//!
//! What it promises, as contracts that are proved:
//!
//! - Once the taker met the receipt that `seal` or `tear` answers, what it received followed by what is
//!   left is what was sent: no record is lost, doubled, changed, invented or out of its place. `meet`
//!   says how many items are left, and from then on each call finds one.
//! - A put that is refused hands the record back and changes nothing. `Closed` comes exactly where
//!   the end record was put, `Full` never for a new feed's first `capacity` records.
//! - The items are in order (`IsFeed` of `specs/Items.antt`): an end mark is last, no record follows
//!   the end record (`Call::ends_list`), and `Sealed` comes only directly after it.
//! - No call but `put` and `put_copy` may wait. The end mark has a place of its own.
//!
//! In the code alone it is seen that none but `open` takes memory.
//!
//! It isn't promised that a full feed has room again, that an item comes to an empty one, or that there
//! is a receipt: there is none where the taker was dropped before.
//!
//! The crate `channelfeed` has the same calls over a bounded channel, by the same definitions; there most
//! calls may wait.
//!
//! The definitions are in `specs/`: `Items` says what a feed carries, `Answers` what its answers mean,
//! `Rings` what contracts see of the two ends. What only proofs and private contracts cite is in
//! `specs/inner/`, and nobody has to believe it.
//!
//! ```text
//! let (mut feed, mut taker) = Feed::open(alloc, rank, 64)?;
//! feed.put(record, wait)?;                          // in one thread
//! let receipt = feed.tear(fault)?;
//! taker.try_take() == Took::Record(record)          // in another
//! taker.meet(receipt) == Met { count: 1 }           // the end mark
//! taker.try_take() == Took::Torn(fault)             // for good
//! ```
#![tactic(auto)]

pub mod answer;
mod bell;
pub mod item;
pub mod pause;
pub mod ring;

pub use answer::{Came, Met, PutFault, Took, Unsealed};
pub use item::Item;
pub use mpicall::fault::Ending;
pub use ring::{Feed, Receipt, Taker};
