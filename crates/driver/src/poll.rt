//! What comes by the feeds of all ranks, taken by turns until each has ended.
//!
//! Up to 1,024 items are taken from one feed before the next. So most calls come to an analyser at which
//! their rank hasn't arrived, and cost no look; and no rank is kept waiting for good.

ghost use Rattle.std.specs.Prelude.{◌<◌, length};
ghost use Rattle.gather.specs.Collectors.{rings};
ghost use Rattle.driver.specs.inner.Runs.{IsSameSession};

use gather::collector::Collector;
use gather::ledger::Stepped;
use progress::tracker::Tracker;
use rankfeed::pause::Pause;
use std::sync::Wait;

/// How many items are taken from one feed before those of the other ranks are looked at again.
const MOST: u16 = 1024;

/// What a poll of the feeds found.
#[derive(Clone, Copy, Debug, PartialEq, Eq)]
struct PollResult {
    all_ended: bool,
    /// How many items came.
    came: u64,
}

/// Takes what is there from the feed of a rank.
fn take_some(collector: &mut Collector, rank: u16, polled: &mut PollResult)
    requires { rank < length (rings collector.old) }
    ensures { IsSameSession collector.old collector.new }
{
    for _ in 0..MOST {
        match collector.step(rank) {
            Stepped::Took | Stepped::Refused | Stepped::Discarded => {
                polled.came = polled.came.saturating_add(1);
            }
            Stepped::Empty => {
                polled.all_ended = false;
                return;
            }
            Stepped::Ended => return,
        }
    }
    polled.all_ended = false;
}

/// Takes what is there from the feed of each rank.
fn poll(collector: &mut Collector) -> PollResult
    ensures { IsSameSession collector.old collector.new }
{
    let mut polled = PollResult {
        all_ended: true,
        came: 0,
    };
    for rank in 0..collector.ranks() {
        take_some(collector, rank, &mut polled);
    }
    polled
}

/// Takes what comes by the feeds of all ranks until each has ended. After each poll of all the tracker is handed the
/// analyser.
pub(crate) fn take_all(collector: &mut Collector, tracker: &impl Tracker, wait: &impl Wait)
    ensures { IsSameSession collector.old collector.new }
{
    let mut pause = Pause::new();
    for _ in wait.forever() {
        let polled = poll(collector);
        if polled.all_ended {
            return;
        }
        tracker.note(collector.analyser(), polled.came);
        if polled.came > 0 {
            pause = Pause::new();
        } else {
            pause.rest(wait);
        }
    }
}
