//! Watches of small sessions, in one thread, and next to the collector.

ghost use Rattle.std.specs.Prelude.{◌≡◌, All, IfOk, map};
ghost use Rattle.rankfeed.specs.Rings.{feed_ring};
ghost use Rattle.gather.specs.Collectors.{rings, list_published};
ghost use Rattle.watches.specs.Watches.{list_watched, list_told};

use crate::opened::Opened;
use crate::sessions::one_of_a_thousand;
use gather::collector::Stepped;
use gather::outcome::CloseFault;
use mpicall::fault::SourceFault;
use std::alloc::Global;
use std::sync::Wait;
use std::test::Fail;
use std::thread;
use std::thread::Threads;
use waitgraph::verdict::Verdict;
use watches::watch::{Gone, Told, Watch};

/// Two ranks that send to each other in buffered mode, receive and end.
const FREE: [(u16, &[u8]); 6] = [
    (0, b"bsend 0 1 0\n"),
    (1, b"bsend 0 0 0\n"),
    (0, b"recv 0 1 0\n"),
    (1, b"recv 0 0 0\n"),
    (0, b"finalize\n"),
    (1, b"finalize\n"),
];

/// A session of a head, with room for two records of a rank.
fn opened(alloc: Global, head: &[u8], watches: u16, wait: &impl Wait) -> Result<Opened, Fail> {
    Opened::of(alloc, head, 2, watches, wait)
}

impl Opened {
    /// Deals a barrier and a Finalize to each of these ranks.
    fn deal_barriers(&mut self, first: u16, end: u16) -> Result<(), Fail>
        ensures { list_published self.new.collector ≡ list_published self.old.collector }
    {
        for rank in first..end {
            self.deal(rank, b"barrier 0\n")?;
            self.deal(rank, b"finalize\n")?;
        }
        Ok(())
    }

    fn publish(&mut self, wait: &impl Wait) -> Result<Told, Fail>
        ensures list { list_published self.new.collector ≡ list_published self.old.collector }
        ensures told { IfOk result (λ told. list_told told ≡ list_published self.old.collector) }
    {
        Ok(self.collector.publish(wait)?)
    }

    /// Deals a run of two ranks with a publication after each record.
    fn deal_free(&mut self, wait: &impl Wait) -> Result<(), Fail> {
        for &(rank, line) in &FREE {
            self.deal(rank, line)?;
            self.publish(wait)?;
        }
        Ok(())
    }

    fn learn(&mut self, watch: usize, told: &Told)
        requires { list_told told.now ≡ list_published self.old.collector }
        ensures { list_published self.new.collector ≡ list_published self.old.collector }
    {
        if watch < self.watches.len() {
            self.watches[watch].learn(told);
        }
    }

    fn read(&mut self, watch: usize, rank: u16) -> Result<Option<u32>, Gone>
        ensures { list_published self.new.collector ≡ list_published self.old.collector }
    {
        if watch < self.watches.len() {
            self.watches[watch].read(rank)
        } else {
            Err(Gone)
        }
    }
}

/// What a watch answers for rank 0 before a run of two ranks and after it was told of its end, then for rank 2, and
/// for rank 1 once the session was closed.
fn answers(alloc: Global, wait: &impl Wait) -> Result<[Result<Option<u32>, Gone>; 4], Fail> {
    let mut session = opened(alloc, b"ranks 2\n", 1, wait)?;
    let at_start = session.read(0, 0);
    session.deal_free(wait)?;
    let told = session.publish(wait)?;
    session.learn(0, &told);
    let (over, no_rank) = (session.read(0, 0), session.read(0, 2));
    let watch = session.watches.pop();
    session.close(alloc, SourceFault::NoFinalize, None)?;
    match watch {
        Some(mut watch) => Ok([at_start, over, no_rank, watch.read(1)]),
        None => Err("no watch".into()),
    }
}

#[test]
fn a_watch_tells_where_the_ranks_stand(rt: HostRuntime) -> Result<(), Fail> {
    let wanted = [Ok(Some(0)), Ok(Some(2)), Ok(None), Ok(Some(2))];
    assert!(rt; answers(rt.alloc(), &rt)? == wanted);
    Ok(())
}

/// What two watches answer of 64 ranks that all wait for the last one: the first once it was told of all ranks
/// but the last, the second once it was told of all, the first once it was told of all, once it was told of the
/// earlier stands again, and once the collector was withdrawn.
fn answers_of_two(alloc: Global, wait: &impl Wait) -> Result<[Result<Option<u32>, Gone>; 5], Fail> {
    let mut session = opened(alloc, b"ranks 64\n", 2, wait)?;
    session.deal_barriers(0, 63)?;
    let earlier = session.publish(wait)?;
    session.learn(0, &earlier);
    let waiting = session.read(0, 0);
    session.deal_barriers(63, 64)?;
    let told = session.publish(wait)?;
    session.learn(1, &told);
    let last = session.read(1, 63);
    session.learn(0, &told);
    let over = session.read(0, 0);
    session.learn(0, &earlier);
    let again = session.read(0, 0);
    session.collector.withdraw(wait);
    session.publish(wait)?;
    Ok([waiting, last, over, again, session.read(0, 0)])
}

#[test]
fn watches_of_many_ranks(rt: HostRuntime) -> Result<(), Fail> {
    let (start, over) = (Ok(Some(0)), Ok(Some(1)));
    assert!(rt; answers_of_two(rt.alloc(), &rt)? == [start, over, over, over, Err(Gone)]);
    Ok(())
}

/// What comes of a session of 1,024 ranks in one thread, each in one barrier and the last rank first: how many
/// after it, by a watch, and the verdict with the touches.
fn barrier_of_1024(alloc: Global, wait: &impl Wait) -> Result<(u16, Verdict, u64), Fail> {
    let mut session = opened(alloc, b"ranks 1024\n", 1, wait)?;
    for before in 0..1024u16 {
        session.deal_barriers(1023 - before, 1024 - before)?;
    }
    let told = session.publish(wait)?;
    session.learn(0, &told);
    let mut over = 0u16;
    for rank in 0..1024u16 {
        if session.read(0, rank) == Ok(Some(1)) {
            over = over.saturating_add(1);
        }
    }
    let outcome = session.outcome(alloc, SourceFault::NoFinalize, None)?;
    Ok((over, outcome.verdict(), outcome.analyser().touches()))
}

#[test]
fn a_session_of_1024_ranks_in_one_thread(rt: HostRuntime) -> Result<(), Fail> {
    let (over, verdict, touches) = barrier_of_1024(rt.alloc(), &rt)?;
    assert_eq!(rt; (over, verdict), (1024, Verdict::Free));
    assert!(rt; (1023..=49152).contains(&touches));
    Ok(())
}

/// How often a watch is read, for half a minute or more: a busy machine may let the collector wait for long.
const MOST_READS: u32 = 100_000_000;

/// Reads rank 0's stand over and over until it is 2. Whether it came to that, and no answer fell.
fn rises_to_the_end(watch: Option<Watch>) -> bool {
    let Some(mut watch) = watch else {
        return false;
    };
    let mut last = 0;
    for _ in 0..MOST_READS {
        let Ok(Some(stand)) = watch.read(0) else {
            return false;
        };
        if stand < last || stand == 2 {
            return stand == 2;
        }
        last = stand;
        thread::yield_now();
    }
    false
}

/// What two watches see in threads of their own, while the ranks' records come.
fn beside_the_collector<R: Threads + Wait + Sync>(
    rt: &R,
    alloc: Global,
) -> Result<[bool; 2], Fail> {
    let mut session = opened(alloc, b"ranks 2\n", 2, rt)?;
    let first = session.watches.pop();
    let second = session.watches.pop();
    let (dealt, (one, other)) = thread::join(
        rt,
        || session.deal_free(rt),
        || thread::join(rt, || rises_to_the_end(first), || rises_to_the_end(second)),
    );
    dealt?;
    Ok([one, other])
}

#[test]
fn watches_read_beside_the_collector(rt: HostRuntime) -> Result<(), Fail> {
    assert_eq!(rt; beside_the_collector(&rt, rt.alloc())?, [true, true]);
    Ok(())
}

/// What a watch is told of two ranks' stands after each record of a thousand messages.
#[derive(Drop)]
struct Seen {
    /// The stands after the last record.
    stands: [Result<Option<u32>, Gone>; 2],
    /// How many records were thrown away, and how many of them changed the stands.
    discarded: u32,
    changed: u32,
}

impl Opened {
    /// Deals one of a thousand messages' records, publishes, and tells a watch of it. From the first record that is
    /// thrown away on, each has to be.
    fn deal_and_tell(&mut self, turn: u32, seen: &mut Seen, wait: &impl Wait) -> Result<(), Fail> {
        let rank = if turn % 2 == 0 { 0 } else { 1 };
        let line = one_of_a_thousand(rank, turn / 2);
        let stepped = self.deal(rank, line.as_bytes())?;
        let told = self.publish(wait)?;
        self.learn(0, &told);
        let stands = [self.read(0, 0), self.read(0, 1)];
        match stepped {
            Stepped::Took if seen.discarded == 0 => {}
            Stepped::Discarded => {
                seen.discarded = seen.discarded.saturating_add(1);
                if stands != seen.stands {
                    seen.changed = seen.changed.saturating_add(1);
                }
            }
            _ => return Err("neither kept nor thrown away".into()),
        }
        seen.stands = stands;
        Ok(())
    }
}

/// What a watch is told of a thousand messages, and what the close answers. None where the session isn't opened for
/// lack of memory.
fn seen_of_a_thousand(
    alloc: Global,
    wait: &impl Wait,
) -> Result<Option<(Seen, Result<Verdict, CloseFault>)>, Fail> {
    let Some(mut session) = Opened::unless_refused(alloc, b"ranks 2\n", 1, 1, wait)? else {
        return Ok(None);
    };
    let mut seen = Seen {
        stands: [Ok(Some(0)), Ok(Some(0))],
        discarded: 0,
        changed: 0,
    };
    for turn in 0..2002u32 {
        session.deal_and_tell(turn, &mut seen, wait)?;
    }
    Ok(Some((seen, session.close(alloc, SourceFault::NoFinalize, None))))
}

/// The sweep of `bench/refuse` runs this with each request for memory refused in turn: by the opening, by a step, or
/// by the close. Each publication is answered all the same, and stands stay where records are thrown away.
#[test]
fn records_are_thrown_away_for_want_of_memory(rt: HostRuntime) -> Result<(), Fail> {
    if let Some((seen, answer)) = seen_of_a_thousand(rt.alloc(), &rt)? {
        assert!(rt; seen.changed == 0);
        let is_free = seen.discarded == 0 && answer == Ok(Verdict::Free);
        assert!(rt; is_free || answer == Err(CloseFault::Memory));
        let are_at_end = seen.stands == [Ok(Some(1000)), Ok(Some(1000))];
        assert!(rt; are_at_end || seen.discarded > 0);
    }
    Ok(())
}
