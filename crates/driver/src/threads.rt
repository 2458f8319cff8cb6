//! One thread a rank, which puts the records of the rank's source on the rank's feed.
//!
//! A thread lets its source go as soon as it has ended, so the file is closed, and a program that goes on
//! writing into a pipe after a faulty line isn't blocked. If a thread doesn't start, the closure that was
//! to run there comes back and is called at once: it tears the feed.

use core::thread::Stack;
use gather::feed::feed;
use gather::gate::Gate;
use mpicall::device::Input;
use mpicall::fault::SourceFault;
use mpicall::source::Source;
use rankfeed::{Feed, Receipt, Unsealed};
use std::snapshot::Snapshot;
use std::sync::Wait;
use std::sync::atomic::{AtomicU64, Ordering};
use std::thread::{Promise, PromisedHandle, Scope, Threads};

/// The rank whose thread couldn't be started last, if there is one.
#[derive(Drop)]
pub struct NotStarted(AtomicU64);

impl NotStarted {
    /// Each thread so far was started.
    pub fn none() -> NotStarted {
        NotStarted(AtomicU64::new(u64::MAX))
    }

    /// The thread of a rank couldn't be started.
    pub fn set(&self, rank: u16) {
        self.0.store(u64::from(rank), Ordering::SeqCst);
    }

    /// Whether it is that rank.
    pub fn is(&self, rank: u16) -> bool {
        self.0.load(Ordering::SeqCst) == u64::from(rank)
    }
}

/// The stack of a thread, of this size; of the system's where none is given.
fn stack_of(size: Option<usize>) -> Stack {
    match size {
        Some(size) => Stack::new().stack_size(size),
        None => Stack::new(),
    }
}

/// What came of the feeding of one rank: the receipt of its feed. The source was let go, so that a pipe which
/// isn't read on is closed.
#[derive(Drop)]
pub struct FeedResult {
    pub receipt: Result<Receipt, Unsealed>,
}

/// What a feeding thread promises: what comes of this source, this feed and this gate.
#[derive(Drop)]
pub struct Feeding<I, G> {
    source: Snapshot<Source<I>>,
    feed: Snapshot<Feed>,
    gate: Snapshot<G>,
}

impl<I: Input, G: Gate> Promise<FeedResult> for Feeding<I, G> {
    ghost use Rattle.driver.specs.Threads.{IsFedFrom};

    ghost kept_by = { λ promise fed. IsFedFrom I.left (G.may_answer promise.gate.value) promise.source.value promise.feed.value fed };
}

impl FeedResult {
    ghost use Rattle.std.specs.Prelude.{◌≡◌, [], None};
    ghost use Rattle.mpicall.specs.Source.{ended};
    ghost use Rattle.rankfeed.specs.Rings.{sent_by};
    ghost use Rattle.driver.specs.Threads.{IsFedFrom};

    /// Feeds a source to its end, or tears its feed where its thread didn't start.
    fn of<I: Input + Drop, G: Gate>(
        source: Source<I>,
        feed_end: Feed,
        gate: &G,
        wait: &impl Wait,
        not_started: &NotStarted,
    ) -> FeedResult
        requires fresh { ended source ≡ None }
        requires nothing_put { sent_by feed_end ≡ [] }
        ensures { IsFedFrom I.left (G.may_answer gate.now) source feed_end result }
    {
        let mut source = source;
        let rank = feed_end.rank();
        let receipt = if not_started.is(rank) {
            feed_end.tear(SourceFault::ThreadNotStarted)
        } else {
            feed(rank, &mut source, feed_end, gate, wait)
        };
        FeedResult { receipt }
    }
}

/// A feeding thread that was started, or what came of it where none could be.
#[derive(Drop)]
pub enum Started<I: Input, G: Gate> {
    Running(PromisedHandle<FeedResult, Feeding<I, G>>),
    NotStarted(FeedResult),
}

impl<I: Input, G: Gate> Started<I, G> {
    ghost use Rattle.std.specs.Prelude.{◌≡◌, ◌≤◌, [], None, All, List, vec_len, vec_capacity};
    ghost use Rattle.mpicall.specs.Source.{ended};
    ghost use Rattle.mpicall.specs.declared.source.Source.{Source as SourceValue};
    ghost use Rattle.rankfeed.specs.Rings.{sent_by};
    ghost use Rattle.rankfeed.specs.declared.ring.Feed.{Feed as FeedValue};
    ghost use Rattle.driver.specs.VerdictContract.{AreFresh};
    ghost use Rattle.driver.specs.Threads.{IsFedFrom, Promises, AllPromise, AreFedFrom};

    /// Starts the thread that feeds a source. Where no thread starts, the feed is torn at once.
    pub fn start<'s, E, R: Threads + Wait + Sync>(
        scope: &Scope<'s, E>,
        rt: &'s R,
        source: Source<I>,
        feed_end: Feed,
        gate: &'s G,
        not_started: &'s NotStarted,
        stack_size: Option<usize>,
    ) -> Started<I, G>
    where
        I: Drop + Send + 's,
        G: Sync,
        requires fresh { ended source ≡ None }
        requires nothing_put { sent_by feed_end ≡ [] }
        ensures { Promises I.left G.may_answer source feed_end gate.now result }
    {
        let rank = feed_end.rank();
        let promise = Feeding {
            source: Snapshot::of(&source),
            feed: Snapshot::of(&feed_end),
            gate: Snapshot::of(gate),
        };
        let started = stack_of(stack_size).spawn_scoped_with(
            scope,
            promise,
            move || FeedResult::of(source, feed_end, gate, rt, not_started),
        );
        match started {
            Ok(handle) => Started::Running(handle),
            Err(error) => {
                not_started.set(rank);
                Started::NotStarted((error.value)())
            }
        }
    }

    /// Waits until the thread ended, and answers what came of it.
    pub fn finish(self, rt: &impl Threads) -> FeedResult
        ensures { (source : SourceValue I) (feed : FeedValue) (gate : G) →
            Promises I.left G.may_answer source feed gate self → IsFedFrom I.left (G.may_answer gate) source feed result }
    {
        match self {
            Started::Running(handle) => handle.join(rt),
            Started::NotStarted(fed) => fed,
        }
    }

    /// Starts a thread for each source and the feed at its place. `started` has room for them, so that no
    /// memory is taken once the first thread runs.
    pub fn start_all<'s, E, R: Threads + Wait + Sync>(
        scope: &Scope<'s, E>,
        rt: &'s R,
        sources: Vec<Source<I>>,
        feeds: Vec<Feed>,
        started: Vec<Started<I, G>>,
        gate: &'s G,
        not_started: &'s NotStarted,
        stack_size: Option<usize>,
    ) -> Vec<Started<I, G>>
    where
        I: Drop + Send + 's,
        G: Sync,
        requires one_a_source { vec_len feeds ≡ vec_len sources }
        requires fresh { AreFresh sources.items }
        requires nothing_put { All (λ feed. sent_by feed ≡ []) feeds.items }
        requires none_started { started.items ≡ [] }
        requires room { vec_len sources ≤ vec_capacity started }
        ensures len { vec_len result ≡ vec_len sources }
        ensures promises { AllPromise I.left G.may_answer sources.items feeds.items gate.now result.items }
    {
        let mut started = started;
        let mut feeds = feeds.into_iter();
        for source in sources {
            let Some(feed_end) = feeds.next() else {
                unreachable!()
            };
            let thread = Started::start(scope, rt, source, feed_end, gate, not_started, stack_size);
            let Ok(()) = started.push(thread) else {
                unreachable!()
            };
        }
        started
    }

    /// Waits until all threads ended, and answers what came of each. `fed` has room for them.
    pub fn finish_all(
        started: Vec<Started<I, G>>,
        fed: Vec<FeedResult>,
        rt: &impl Threads,
    ) -> Vec<FeedResult>
    where
        I: Drop,
        requires nothing { fed.items ≡ [] }
        requires room { vec_len started ≤ vec_capacity fed }
        ensures len { vec_len result ≡ vec_len started }
        ensures fed { (sources : List (SourceValue I)) (feeds : List FeedValue) (gate : G) →
            AllPromise I.left G.may_answer sources feeds gate started.items →
            AreFedFrom I.left (G.may_answer gate) sources feeds result.items }
    {
        let mut fed = fed;
        for thread in started {
            let Ok(()) = fed.push(thread.finish(rt)) else {
                unreachable!()
            };
        }
        fed
    }
}
