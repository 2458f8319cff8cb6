//! A session that tests open, deal records to and close.

ghost use Rattle.std.specs.Prelude.{◌≡◌, All, map};
ghost use Rattle.rankfeed.specs.Rings.{feed_ring};
ghost use Rattle.gather.specs.Collectors.{rings, list_published};
ghost use Rattle.watches.specs.Watches.{list_watched};

use crate::sessions::{end_feeds, put_at};
use gather::collector::{Collector, Stepped};
use gather::outcome::{CloseFault, Outcome};
use gather::session::{OpenFault, Session};
use moves::reading::Reading;
use mpicall::fault::SourceFault;
use mpicall::line::read_line;
use mpigroup::head::Head;
use rankfeed::Feed;
use std::alloc::Global;
use std::sync::Wait;
use std::test::Fail;
use waitgraph::verdict::Verdict;
use watches::watch::Watch;

/// A session that one call drops, so that an exit of a test is proved by that call.
pub(crate) struct Opened {
    pub(crate) feeds: Vec<Feed>,
    pub(crate) collector: Collector,
    pub(crate) watches: Vec<Watch>,
    ghost rings: { rings collector ≡ map feed_ring feeds.items },
    ghost list: { All (λ watch. list_watched watch ≡ list_published collector) watches.items },
}

impl Drop for Opened {
    fn drop(self) {
        let Opened {
            feeds: _,
            collector: _,
            watches: _,
        } = self;
    }
}

/// A head, read again where memory is refused.
pub(crate) fn head_again(alloc: Global, text: &[u8]) -> Result<Head, Fail> {
    match Head::read(alloc, text) {
        Ok(head) => Ok(head),
        Err(_) => Ok(Head::read(alloc, text)?),
    }
}

impl Opened {
    /// A session with room for so many records of a rank, one at least, and at most two watches.
    pub(crate) fn of(
        alloc: Global,
        head: &[u8],
        capacity: u16,
        watches: u16,
        wait: &impl Wait,
    ) -> Result<Opened, Fail> {
        match Opened::unless_refused(alloc, head, capacity, watches, wait)? {
            Some(session) => Ok(session),
            None => Err("memory".into()),
        }
    }

    /// None where the session isn't opened for lack of memory.
    pub(crate) fn unless_refused(
        alloc: Global,
        head: &[u8],
        capacity: u16,
        watches: u16,
        wait: &impl Wait,
    ) -> Result<Option<Opened>, Fail> {
        let head = head_again(alloc, head)?;
        let (capacity, watches) = (capacity.max(1), watches.min(2));
        match Session::open(alloc, head, Reading::Strict, capacity, watches, wait) {
            Ok((feeds, collector, watches)) => Ok(Some(Opened {
                feeds,
                collector,
                watches,
            })),
            Err(OpenFault::Memory) => Ok(None),
            Err(fault) => Err(fault.into()),
        }
    }

    /// Puts a line's record on a rank's feed, takes it, and answers what was found.
    pub(crate) fn deal(&mut self, rank: u16, line: &[u8]) -> Result<Stepped, Fail>
        ensures { list_published self.new.collector ≡ list_published self.old.collector }
    {
        let record = read_line(line)?;
        if rank >= self.collector.ranks() || !put_at(&mut self.feeds, rank, record) {
            return Err("no such place".into());
        }
        Ok(self.collector.step(rank))
    }

    /// The feeds and their collector.
    pub(crate) fn into_parts(self) -> (Vec<Feed>, Collector)
        ensures { rings result.1 ≡ map feed_ring result.0.items }
    {
        let Opened {
            feeds,
            collector,
            watches: _,
        } = self;
        (feeds, collector)
    }

    /// Ends the feeds, those without their end record with the fault, loses the receipt of one rank, and closes
    /// the session.
    pub(crate) fn outcome(
        self,
        alloc: Global,
        fault: SourceFault,
        lost: Option<u16>,
    ) -> Result<Outcome, CloseFault> {
        let (feeds, collector) = self.into_parts();
        match end_feeds(alloc, feeds, fault, lost) {
            Ok(receipts) => collector.close(receipts),
            Err(_) => Err(CloseFault::Memory),
        }
    }

    /// The same, for the verdict.
    pub(crate) fn close(
        self,
        alloc: Global,
        fault: SourceFault,
        lost: Option<u16>,
    ) -> Result<Verdict, CloseFault> {
        match self.outcome(alloc, fault, lost) {
            Ok(outcome) => Ok(outcome.verdict()),
            Err(fault) => Err(fault),
        }
    }
}
