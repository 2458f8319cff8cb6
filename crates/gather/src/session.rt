//! A session: the records of all ranks come by feeds, one a rank, and one collector takes them.

ghost use Rattle.std.specs.Prelude.{◌≡◌, ◌<◌, ℕ, [], All, map, IfOk};
ghost use Rattle.std.specs.List.{range_with_len};
ghost use Rattle.mpigroup.specs.Groups.{ranks_of};
ghost use Rattle.rankfeed.specs.Rings.{feed_ring, taker_ring, received_by};
ghost use Rattle.gather.specs.Collected.{nothing_kept};
ghost use Rattle.gather.specs.Takers.{rank_fed, IsFreshFeed};

use crate::collector::Collector;
use crate::ledger::Ledger;
use moves::reading::Reading;
use mpigroup::head::Head;
use rankfeed::{Feed, Taker};
use std::alloc::{AllocError, Global};
use std::sync::Wait;
pub use watches::publisher::OpenFault;
use watches::publisher::Publisher;
use watches::watch::Watch;

/// The most watches of a session.
pub const MOST_WATCHES: u16 = 64;

/// Feeds for so many ranks, and their takers.
fn open_feeds(
    alloc: Global,
    ranks: u16,
    capacity: u16,
) -> Result<(Vec<Feed>, Vec<Taker>), AllocError>
    requires { 0 < capacity }
    ensures names { IfOk result (λ ends. map taker_ring ends.1.items ≡ map feed_ring ends.0.items) }
    ensures ranks { IfOk result (λ ends. map rank_fed ends.0.items ≡ range_with_len 0 ranks) }
    ensures feeds { IfOk result (λ ends. All (IsFreshFeed capacity) ends.0.items) }
    ensures takers { IfOk result (λ ends. All (λ taker. received_by taker ≡ []) ends.1.items) }
{
    let mut feeds = Vec::new(alloc);
    let mut takers = Vec::new(alloc);
    for rank in 0..ranks {
        let (feed, taker) = Feed::open(alloc, rank, capacity)?;
        feeds.push(feed)?;
        takers.push(taker)?;
    }
    Ok((feeds, takers))
}

/// The opening of a session.
pub struct Session;

impl Session {
    ghost use Rattle.std.specs.Prelude.{◌≤◌, ◌≢◌, ◌∷◌, Err, vec_len};
    ghost use Rattle.gather.specs.Collectors.{rings, kept, received_from, published, list_published, PublishesRuns};
    ghost use Rattle.watches.specs.Publications.{at_start, AreRising};
    ghost use Rattle.watches.specs.Watches.{IsWatchOf};
    ghost use Rattle.watches.specs.declared.publisher.OpenFault.TheVariants.{Watch as WatchFault};
    ghost use Rattle.gather.specs.declared.session.TheConstants.{MOST_WATCHES};

    /// A feed with room for `capacity` records for each rank of the head, in rank order, the collector of their
    /// records, and so many watches. Nothing was sent or received, and nothing is kept. The stands 0 everywhere
    /// are the first publication.
    pub fn open(
        alloc: Global,
        head: Head,
        reading: Reading,
        capacity: u16,
        watches: u16,
        wait: &impl Wait,
    ) -> Result<(Vec<Feed>, Collector, Vec<Watch>), OpenFault>
        requires room { 0 < capacity }
        requires few_watches { watches ≤ MOST_WATCHES }
        ensures rings { IfOk result (λ ends. rings ends.1 ≡ map feed_ring ends.0.items) }
        ensures ranks { IfOk result (λ ends. map rank_fed ends.0.items ≡ range_with_len 0 (ranks_of head)) }
        ensures feeds { IfOk result (λ ends. All (IsFreshFeed capacity) ends.0.items) }
        ensures received { IfOk result (λ ends. (rank : ℕ) → received_from ends.1 rank ≡ []) }
        ensures kept { IfOk result (λ ends. kept ends.1 ≡ nothing_kept reading head) }
        ensures published { IfOk result (λ ends. published ends.1 ≡ at_start ∷ []) }
        ensures rising { IfOk result (λ ends. AreRising (published ends.1)) }
        ensures passed { IfOk result (λ ends. PublishesRuns ends.1) }
        ensures watches { IfOk result (λ ends. vec_len ends.2 ≡ watches) }
        ensures watch { IfOk result (λ ends. All (IsWatchOf (ranks_of head) (list_published ends.1) (published ends.1)) ends.2.items) }
        ensures unwatched { watches ≡ 0 → result ≢ Err WatchFault }
    {
        let ranks = head.ranks();
        let Ok((feeds, takers)) = open_feeds(alloc, ranks, capacity) else {
            return Err(OpenFault::Memory);
        };
        let (publisher, all) = Publisher::open(alloc, ranks, watches, wait)?;
        match Ledger::new(alloc, head, reading) {
            Ok(ledger) => Ok((feeds, Collector::of(alloc, takers, ledger, publisher), all)),
            Err(_) => Err(OpenFault::Memory),
        }
    }
}
