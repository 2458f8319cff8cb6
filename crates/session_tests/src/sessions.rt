//! Sessions of two ranks, by several orders of what comes.

ghost use Rattle.std.specs.Prelude.{◌≡◌, ◌<◌, [], ◌∷◌, length, map, IfOk, IfSome};
ghost use Rattle.rankfeed.specs.Rings.{feed_ring, receipt_ring};
ghost use Rattle.gather.specs.Receipts.{AreReceiptsOf};
ghost use Rattle.gather.specs.Collectors.{rings};

use crate::opened::Opened;
use gather::collector::{Collector, Stepped};
use gather::fault::{RankFault, Refusal};
use gather::outcome::CloseFault;
use mpicall::fault::{LineFault, SourceFault};
use mpicall::line::read_line;
use mpicall::record::Record;
use pairing::fault::CallFault;
use rankfeed::{Feed, Receipt};
use std::alloc::{AllocError, Global};
use std::sync::Wait;
use std::test::Fail;
use std::thread;
use std::thread::Threads;
use waitgraph::verdict::Verdict;

/// Puts a record on a rank's feed, where there is room.
pub(crate) fn put_at(feeds: &mut Vec<Feed>, rank: u16, record: Record) -> bool
    requires { rank < length feeds.old.items }
    ensures { map feed_ring feeds.new.items ≡ map feed_ring feeds.old.items }
{
    feeds[usize::from(rank)].try_put(record).is_ok()
}

/// Ends a feed: sealed after its end record, else torn with the fault. The receipt may be lost.
fn end_feed(feed: Feed, fault: SourceFault, is_lost: bool) -> Option<Receipt>
    ensures { IfSome result (λ receipt. receipt_ring receipt ≡ feed_ring feed) }
{
    let receipt = if feed.is_done() {
        feed.seal().ok()
    } else {
        feed.tear(fault).ok()
    };
    if is_lost { None } else { receipt }
}

/// Room for so many receipts, asked for again where memory is refused.
fn room_for(alloc: Global, count: usize) -> Result<Vec<Option<Receipt>>, AllocError>
    ensures { IfOk result (λ receipts. receipts.items ≡ []) }
{
    match Vec::with_capacity(alloc, count) {
        Ok(receipts) => Ok(receipts),
        Err(_) => Vec::with_capacity(alloc, count),
    }
}

/// Ends all feeds, and loses the receipt of one rank.
pub(crate) fn end_feeds(
    alloc: Global,
    feeds: Vec<Feed>,
    fault: SourceFault,
    lost: Option<u16>,
) -> Result<Vec<Option<Receipt>>, AllocError>
    ensures { IfOk result (λ receipts. AreReceiptsOf (map feed_ring feeds.items) receipts.items) }
{
    let mut receipts = room_for(alloc, feeds.len())?;
    for feed in feeds {
        let is_lost = lost == Some(feed.rank());
        receipts.push(end_feed(feed, fault, is_lost))?;
    }
    Ok(receipts)
}

/// How many records of the order, each after its rank, are accepted at once, and what the session answers at its
/// close. Each feed has one place. A feed without its end record is torn as one with a wildcard, and the receipt of
/// one rank is lost.
fn answer(
    alloc: Global,
    order: &str,
    lost: Option<u16>,
    wait: &impl Wait,
) -> Result<(usize, Result<Verdict, CloseFault>), Fail> {
    let mut session = Opened::of(alloc, b"ranks 2\n", 1, 0, wait)?;
    let mut took = 0usize;
    for line in order.split_inclusive('\n') {
        let (rank, line) = line.split_once(' ').ok_or("a rank")?;
        let rank = if rank == "0" { 0 } else { 1 };
        if session.deal(rank, line.as_bytes())? == Stepped::Took {
            took = took.saturating_add(1);
        }
    }
    let wildcard = SourceFault::Line(LineFault::Wildcard);
    Ok((took, session.close(alloc, wildcard, lost)))
}

/// The line at a place of a rank, where rank 0 sends a thousand times to rank 1.
pub(crate) fn one_of_a_thousand(rank: u16, place: u32) -> &'static str {
    match (rank, place) {
        (_, 1000) => "finalize\n",
        (0, _) => "send 0 1 0\n",
        _ => "recv 0 0 0\n",
    }
}

/// The lines of a thousand messages, each after its rank: a rank's wholly first, or by turns.
fn a_thousand(alloc: Global, first: Option<u16>) -> Result<String, AllocError> {
    let mut order = String::new(alloc);
    for turn in 0..2002u32 {
        let (rank, place) = match first {
            None => (if turn % 2 == 0 { 0 } else { 1 }, turn / 2),
            Some(first) if turn <= 1000 => (first, turn),
            Some(first) => (if first == 0 { 1 } else { 0 }, turn - 1001),
        };
        order.push_str(if rank == 0 { "0 " } else { "1 " })?;
        order.push_str(one_of_a_thousand(rank, place))?;
    }
    Ok(order)
}

#[test]
fn a_thousand_messages_in_three_orders(rt: HostRuntime) -> Result<(), Fail> {
    for first in [None, Some(0), Some(1)] {
        let order = a_thousand(rt.alloc(), first)?;
        let answer = answer(rt.alloc(), order.as_str(), None, &rt)?;
        assert!(rt; answer == (2002, Ok(Verdict::Free)));
    }
    Ok(())
}

/// Two ranks that send to each other first.
const HEAD_TO_HEAD: &str = "0 send 0 1 0
1 send 0 0 0
0 recv 0 1 0
1 recv 0 0 0
0 finalize
1 finalize
";

/// Rank 1's fault comes first, and rank 0's is told.
const TWO_FAULTS: &str = "1 recv 0 0 0
1 recv 0 9 0
0 send 0 9 0
";

#[test]
fn what_a_close_answers(rt: HostRuntime) -> Result<(), Fail> {
    let hang = answer(rt.alloc(), HEAD_TO_HEAD, None, &rt)?;
    assert!(rt; hang == (6, Ok(Verdict::Hang)));
    let lost = answer(rt.alloc(), HEAD_TO_HEAD, Some(1), &rt)?;
    assert!(rt; lost == (6, Err(CloseFault::Unproved(1))));
    let refused = CloseFault::Refused(Refusal {
        rank: 0,
        call: 0,
        fault: RankFault::OfCall(CallFault::PeerOutOfGroup),
    });
    assert!(rt; answer(rt.alloc(), TWO_FAULTS, None, &rt)? == (1, Err(refused)));
    Ok(())
}

/// Puts the records of a text's lines, and ends the feed.
fn put_all(feed: Feed, text: &str, wait: &impl Wait) -> Option<Receipt>
    ensures { IfSome result (λ receipt. receipt_ring receipt ≡ feed_ring feed) }
{
    let mut feed = feed;
    for line in text.split_inclusive('\n') {
        if let Ok(record) = read_line(line.as_bytes()) {
            let _ = feed.put(record, wait);
        }
    }
    end_feed(feed, SourceFault::NoFinalize, false)
}

/// Puts two ranks' records, each in a thread of its own.
fn put_both<R: Threads + Wait + Sync>(
    first: Feed,
    second: Feed,
    rt: &R,
) -> (Option<Receipt>, Option<Receipt>)
    ensures first { IfSome result.0 (λ receipt. receipt_ring receipt ≡ feed_ring first) }
    ensures second { IfSome result.1 (λ receipt. receipt_ring receipt ≡ feed_ring second) }
{
    thread::join(
        rt,
        move || -> Option<Receipt>
            ensures { IfSome result (λ receipt. receipt_ring receipt ≡ feed_ring first) }
        { put_all(first, "bsend 0 1 0\nrecv 0 1 0\nfinalize\n", rt) },
        move || -> Option<Receipt>
            ensures { IfSome result (λ receipt. receipt_ring receipt ≡ feed_ring second) }
        { put_all(second, "bsend 0 0 0\nrecv 0 0 0\nfinalize\n", rt) },
    )
}

/// Steps with each rank once, and answers whether all have ended.
fn step_each(collector: &mut Collector) -> bool
    ensures { rings collector.new ≡ rings collector.old }
{
    let mut all_ended = true;
    for rank in 0..collector.ranks() {
        let stepped = collector.step(rank);
        all_ended = all_ended && stepped == Stepped::Ended;
    }
    all_ended
}

/// Steps with the ranks in turn until each has ended.
fn stepped(collector: Collector, wait: &impl Wait) -> Collector
    ensures { rings result ≡ rings collector }
{
    let mut collector = collector;
    for _ in wait.forever() {
        if step_each(&mut collector) {
            return collector;
        }
        thread::yield_now();
    }
    unreachable!()
}

/// Two feeds, if there are two.
fn two_of(feeds: Vec<Feed>) -> Option<(Feed, Feed)>
    ensures { IfSome result (λ two. map feed_ring feeds.items ≡ feed_ring two.0 ∷ feed_ring two.1 ∷ []) }
{
    let mut feeds = feeds;
    match (feeds.pop(), feeds.pop(), feeds.is_empty()) {
        (Some(second), Some(first), true) => Some((first, second)),
        _ => None,
    }
}

impl Opened {
    /// Puts two ranks' records by a thread each while a third one steps, and answers whether the close has an
    /// outcome.
    fn put_by_threads<R: Threads + Wait + Sync>(self, alloc: Global, rt: &R) -> Result<bool, Fail> {
        let (feeds, collector) = self.into_parts();
        let Some((first, second)) = two_of(feeds) else {
            return Err("not two feeds".into());
        };
        let (put, collector) = thread::join(
            rt,
            move || -> (Option<Receipt>, Option<Receipt>)
                ensures first { IfSome result.0 (λ receipt. receipt_ring receipt ≡ feed_ring first) }
                ensures second { IfSome result.1 (λ receipt. receipt_ring receipt ≡ feed_ring second) }
            { put_both(first, second, rt) },
            move || -> Collector
                ensures { rings result ≡ rings collector }
            { stepped(collector, rt) },
        );
        let mut receipts = room_for(alloc, 2)?;
        receipts.push(put.0)?;
        receipts.push(put.1)?;
        Ok(collector.close(receipts).is_ok())
    }

    /// Tears the second rank's feed at once, steps with it, and then puts the first rank's records: what the step
    /// answers, and the close.
    fn tear_the_second(
        self,
        alloc: Global,
        wait: &impl Wait,
    ) -> Result<(Stepped, Option<CloseFault>), Fail> {
        let (feeds, mut collector) = self.into_parts();
        let Some((first, second)) = two_of(feeds) else {
            return Err("not two feeds".into());
        };
        let torn = end_feed(second, SourceFault::ThreadNotStarted, false);
        let stepped = collector.step(1);
        let mut receipts = room_for(alloc, 2)?;
        receipts.push(put_all(first, "bsend 0 1 0\nrecv 0 1 0\nfinalize\n", wait))?;
        receipts.push(torn)?;
        Ok((stepped, collector.close(receipts).err()))
    }
}

#[test]
fn two_threads_put_and_a_third_steps(rt: HostRuntime) -> Result<(), Fail> {
    let session = Opened::of(rt.alloc(), b"ranks 2\n", 1, 0, &rt)?;
    assert!(rt; session.put_by_threads(rt.alloc(), &rt)?);
    Ok(())
}

#[test]
fn a_caller_tears_a_feed_at_once(rt: HostRuntime) -> Result<(), Fail> {
    let refused = CloseFault::Refused(Refusal {
        rank: 1,
        call: 0,
        fault: RankFault::OfSource(SourceFault::ThreadNotStarted),
    });
    let session = Opened::of(rt.alloc(), b"ranks 2\n", 3, 0, &rt)?;
    let answer = session.tear_the_second(rt.alloc(), &rt)?;
    assert!(rt; answer == (Stepped::Ended, Some(refused)));
    Ok(())
}
