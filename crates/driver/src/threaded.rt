//! The sources of all ranks, fed by threads of their own, while one collector takes what they put.
//!
//! The lists of threads, answers and receipts have their room before the first thread starts. So running
//! out of memory leaves no threads that nobody takes from.

ghost use Rattle.std.specs.Prelude.{◌≡◌, ◌≤◌, [], All, map, vec_len, vec_capacity};
ghost use Rattle.rankfeed.specs.Rings.{sent_by};
ghost use Rattle.driver.specs.inner.Runs.{IsSameSession};
ghost use Rattle.driver.specs.Threads.{AreFedFrom};
ghost use Rattle.driver.specs.VerdictContract.{AreFresh};

use crate::poll::take_all;
use crate::threads::{FeedResult, NotStarted, Started};
use gather::collector::Collector;
use gather::gate::Gate;
use mpicall::device::Input;
use mpicall::source::Source;
use progress::tracker::Tracker;
use rankfeed::Feed;
use std::sync::Wait;
use std::thread;
use std::thread::{Scope, Threads};

/// Starts all threads, takes what they put until each feed has ended, and waits for the threads.
fn in_scope<'s, E, I, G, T, R>(
    scope: &Scope<'s, E>,
    rt: &'s R,
    sources: Vec<Source<I>>,
    feeds: Vec<Feed>,
    collector: Collector,
    started: Vec<Started<I, G>>,
    fed: Vec<FeedResult>,
    gate: &'s G,
    tracker: &T,
    not_started: &'s NotStarted,
    stack_size: Option<usize>,
) -> (Collector, Vec<FeedResult>)
where
    I: Input + Drop + Send + 's,
    G: Gate + Sync,
    T: Tracker,
    R: Threads + Wait + Sync,
    requires one_a_source { vec_len feeds ≡ vec_len sources }
    requires fresh { AreFresh sources.items }
    requires nothing_put { All (λ feed. sent_by feed ≡ []) feeds.items }
    requires none_started { started.items ≡ [] }
    requires room { vec_len sources ≤ vec_capacity started }
    requires nothing_fed { fed.items ≡ [] }
    requires room_behind { vec_len sources ≤ vec_capacity fed }
    ensures same { IsSameSession collector result.0 }
    ensures len { vec_len result.1 ≡ vec_len sources }
    ensures fed { AreFedFrom I.left (G.may_answer gate.now) sources.items feeds.items result.1.items }
{
    let mut collector = collector;
    let all = Started::start_all(
        scope,
        rt,
        sources,
        feeds,
        started,
        gate,
        not_started,
        stack_size,
    );
    take_all(&mut collector, tracker, rt);
    let fed = Started::finish_all(all, fed, rt);
    (collector, fed)
}

/// Feeds the sources by a thread each, takes what comes until each feed has ended, and answers what came of
/// each source. All threads have ended when this returns. `started` and `fed` have room for one entry a
/// source, so that no memory is taken once the first thread runs.
pub(crate) fn in_threads<I, G, T, R>(
    rt: &R,
    sources: Vec<Source<I>>,
    feeds: Vec<Feed>,
    collector: Collector,
    started: Vec<Started<I, G>>,
    fed: Vec<FeedResult>,
    gate: &G,
    tracker: &T,
    not_started: &NotStarted,
    stack_size: Option<usize>,
) -> (Collector, Vec<FeedResult>)
where
    I: Input + Drop + Send,
    G: Gate + Sync,
    T: Tracker,
    R: Threads + Wait + Sync,
    requires one_a_source { vec_len feeds ≡ vec_len sources }
    requires fresh { AreFresh sources.items }
    requires nothing_put { All (λ feed. sent_by feed ≡ []) feeds.items }
    requires none_started { started.items ≡ [] }
    requires room { vec_len sources ≤ vec_capacity started }
    requires nothing_fed { fed.items ≡ [] }
    requires room_behind { vec_len sources ≤ vec_capacity fed }
    ensures same { IsSameSession collector result.0 }
    ensures len { vec_len result.1 ≡ vec_len sources }
    ensures fed { AreFedFrom I.left (G.may_answer gate.now) sources.items feeds.items result.1.items }
{
    thread::scope(
        thread::scope_env(),
        rt,
        move |scope| -> (Collector, Vec<FeedResult>)
            requires one_a_source { vec_len feeds ≡ vec_len sources }
            requires fresh { AreFresh sources.items }
            requires nothing_put { All (λ feed. sent_by feed ≡ []) feeds.items }
            requires none_started { started.items ≡ [] }
            requires room { vec_len sources ≤ vec_capacity started }
            requires nothing_fed { fed.items ≡ [] }
            requires room_behind { vec_len sources ≤ vec_capacity fed }
            ensures same { IsSameSession collector result.0 }
            ensures len { vec_len result.1 ≡ vec_len sources }
            ensures fed { AreFedFrom I.left (G.may_answer gate.entry.now) sources.items feeds.items result.1.items }
        {
            in_scope(
                scope,
                rt,
                sources,
                feeds,
                collector,
                started,
                fed,
                gate,
                tracker,
                not_started,
                stack_size,
            )
        },
    )
}
