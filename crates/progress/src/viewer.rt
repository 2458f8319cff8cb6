//! The thread that reads a watch and shows how far a check is.

ghost use Rattle.std.specs.Prelude.{◌≡◌, [], ◌∷◌, IfSome};
ghost use Rattle.mpicall.specs.Device.{AppendsBeginning};
ghost use Rattle.mpigroup.specs.declared.limits.TheConstants.{MOST_RANKS};
ghost use Rattle.watches.specs.Publications.{at_start};
ghost use Rattle.watches.specs.Publishers.{book_published, published_by};
ghost use Rattle.watches.specs.Watches.{IsWatchOf};

use crate::gauge::Gauge;
use crate::line::Position;
use crate::publishing::Publishing;
use mpicall::device::Output;
use mpigroup::limits::MOST_RANKS;
use std::alloc::Global;
use std::sync::Wait;
use std::thread::{Threads, join_mut};
use std::time::{Clock, Duration};
use watches::publisher::Publisher;
use watches::watch::Watch;

/// How long an update stands.
const SECONDS: u64 = 1;

/// How a check is shown.
#[derive(Clone, Copy)]
pub struct Manner {
    /// Whether an update takes the place of the last one.
    pub is_terminal: bool,
    /// How long nothing is shown at first.
    pub first: Duration,
}

/// What shows how far a check is.
#[derive(Drop)]
pub struct Viewer<'g> {
    alloc: Global,
    watch: Watch,
    gauge: &'g Gauge,
    manner: Manner,
}

/// What publishes the stands of a check, and the one watch that reads them.
fn watched<R: Wait>(alloc: Global, rt: &R) -> Option<(Publisher, Watch)>
    ensures watch { IfSome result (λ both. IsWatchOf MOST_RANKS (book_published both.0) (published_by both.0) both.1) }
    ensures first { IfSome result (λ both. published_by both.0 ≡ at_start ∷ []) }
{
    let (mut publisher, mut watches) = Publisher::open(alloc, MOST_RANKS, 1, rt).ok()?;
    match watches.pop() {
        Some(watch) => Some((publisher, watch)),
        None => {
            publisher.withdraw(rt);
            None
        }
    }
}

/// Writes a text by one write, which may write a prefix of it alone, or nothing.
#[tactic(auto, using(crate::proofs::UpdateLemmas::once))]
fn write_once<O: Output>(out: &mut O, text: &str)
    ensures { AppendsBeginning (O.written out.old) (O.written out.new) text.now }
{
    let _ = out.write_some(text.as_bytes());
}

impl<'g> Viewer<'g> {
    ghost use mathlib.Core.List.{IsPrefix};
    ghost use Rattle.watches.specs.Publications.{last_published, NeverFalls};
    ghost use Rattle.progress.specs.Updates.{ShowsLast, is_on_terminal, list_viewed, seen};

    /// What publishes the stands of a check, and what shows them; None where there is no memory for them.
    pub fn open<'r, R: Wait + Clock>(
        alloc: Global,
        manner: Manner,
        gauge: &'g Gauge,
        rt: &'r R,
    ) -> Option<(Publishing<'r, 'g, R>, Viewer<'g>)> {
        let (publisher, watch) = watched(alloc, rt)?;
        let viewer = Viewer {
            alloc,
            watch,
            gauge,
            manner,
        };
        Some((Publishing::new(publisher, gauge, rt), viewer))
    }

    /// Shows how far the check is now, by one write. Where that fails nothing is shown.
    #[tactic(auto, using(crate::proofs::UpdateLemmas::shows))]
    pub fn update<O: Output>(&mut self, out: &mut O)
        ensures shown { ShowsLast O.written (is_on_terminal self.old) (last_published (seen self.new)) out.old out.new }
        ensures grows { IsPrefix (seen self.old) (seen self.new) }
        ensures never_falls { NeverFalls (last_published (seen self.old)) (last_published (seen self.new)) }
        ensures list { list_viewed self.new ≡ list_viewed self.old }
        ensures terminal { is_on_terminal self.new ≡ is_on_terminal self.old }
    {
        let Ok(stands) = self.watch.stands() else {
            return;
        };
        let position = Position::of(&stands, self.gauge.ranks(), self.gauge.percent());
        if let Ok(text) = position.framed(self.alloc, self.manner.is_terminal) {
            write_once(out, &text);
        }
    }

    /// Shows how far the check is each second, until it has ended.
    pub fn show<O: Output>(&mut self, out: &mut O, wait: &impl Wait) {
        let mut pause = self.manner.first;
        let mut has_shown = false;
        for _ in wait.forever() {
            if self.gauge.rest(pause, wait) {
                break;
            }
            self.update(out);
            pause = Duration::from_secs(SECONDS);
            has_shown = true;
        }
        if has_shown && self.manner.is_terminal {
            write_once(out, "\r\x1b[K");
        }
    }

    /// Does some work, and shows meanwhile how far it is. Where no thread starts nothing is shown.
    pub fn during<O, R, F, B>(self, out: &mut O, rt: &R, work: &mut F) -> B
    where
        O: Output + Send,
        R: Threads + Wait + Sync,
        F: FnMut() -> B,
        requires { F.pre work.old }
        ensures { F.step work.old result work.new }
    {
        let mut viewer = self;
        let gauge = viewer.gauge;
        let mut show = || viewer.show(out, rt);
        let mut check = || -> B
            requires { F.pre work.now }
            ensures { F.step work.entry.now result work.exit.now }
        {
            let answer = work();
            gauge.end();
            answer
        };
        let (_, answer) = join_mut(rt, &mut show, &mut check);
        answer
    }
}
