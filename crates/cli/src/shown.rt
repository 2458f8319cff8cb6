//! Checks and judgements during which a thread shows how far they are.

ghost use Rattle.std.specs.Prelude.{◌≡◌, IfSome, is_some};
ghost use Rattle.cli.specs.JournalFolders.{known_in};
ghost use Rattle.cli.specs.Openings.{fate_of};
ghost use Rattle.cli.specs.Shown.{IsMannerFor, is_shown_on};
ghost use Rattle.cli.specs.inner.Shown.{AnswersCheck, AnswersJudge};

use crate::check::check;
use crate::fault::Fault;
use crate::journal_folder::JournalFolder;
use crate::measured::Measured;
use crate::opener::Opener;
use crate::options::Options;
use judging::judge::{JudgeFault, Manner as JudgeManner, judge};
use moves::analyser::Analyser;
use mpicall::device::Output;
use mpigroup::limits::MOST_RANKS;
use progress::gauge::Gauge;
use progress::publishing::Publishing;
use progress::tracker::Tracker;
use progress::viewer::{Manner, Viewer};
use std::alloc::Global;
use std::sync::Wait;
use std::thread::Threads;
use std::time::{Clock, Duration};
use waitgraph::verdict::Verdict;

/// Where it may be shown how far a check is.
#[derive(Drop)]
pub struct Screen<L> {
    pub out: L,
    /// Whether that is a terminal: then it is shown unasked, and an update takes the place of the last one.
    pub is_terminal: bool,
}

impl<L> Screen<L> {
    /// How a check is shown there, if it is: asked for, after a second; unasked, after two.
    pub fn manner(&self, is_asked: bool) -> Option<Manner>
        ensures shown { is_some result ≡ is_shown_on self.now.is_terminal is_asked }
        ensures manner { IfSome result (IsMannerFor self.now.is_terminal is_asked) }
    {
        if !is_asked && !self.is_terminal {
            return None;
        }
        Some(Manner {
            is_terminal: self.is_terminal,
            first: Duration::from_secs(if is_asked { 1 } else { 2 }),
        })
    }
}

/// What publishes the stands of a check, where that is shown. Shown or not, a check is compiled once.
#[derive(Drop)]
struct Shown<'t, T>(Option<&'t T>);

/// Nothing is shown.
fn unshown<'t, R>() -> Shown<'t, Publishing<'t, 't, R>> {
    Shown(None)
}

impl<T: Tracker> Tracker for Shown<'_, T> {
    #[inline(always)]
    fn note(&self, analyser: &Analyser, taken: u64) {
        if let Some(tracker) = self.0 {
            tracker.note(analyser, taken);
        }
    }
}

/// The paths of a run's files: one value for the closure that checks it.
#[derive(Clone, Copy)]
struct Paths<'f, 'a> {
    head: &'a str,
    files: &'f [&'a str],
}

/// The bytes of a run's files together; 0 where those of one aren't known.
fn size_of<P: Opener>(opener: &P, paths: &Paths<'_, '_>) -> u64 {
    let Some(mut size) = opener.size(paths.head) else {
        return 0;
    };
    for path in paths.files {
        let Some(more) = opener.size(path) else {
            return 0;
        };
        size = size.saturating_add(more);
    }
    size
}

/// As `check`, of the files with these paths.
fn check_paths<'a, P: Opener, O: Output, T: Tracker, R: Threads + Wait + Sync>(
    alloc: Global,
    paths: &Paths<'_, 'a>,
    options: Options,
    opener: &P,
    tracker: &T,
    rt: &R,
    out: &mut O,
) -> Result<Verdict, Fault<'a>>
    ensures { AnswersCheck O.written O.failures (fate_of P.In.left P.In.failures (P.may_give opener.now)) (P.told opener.now) paths.now.head.now paths.now.files.now options out.old out.new result }
{
    check(
        alloc,
        paths.head,
        paths.files,
        options,
        opener,
        tracker,
        rt,
        out,
    )
}

/// Checks as `check` does, while the viewer shows how far that is.
fn check_viewed<'a, P, O, T, L, R>(
    alloc: Global,
    paths: &Paths<'_, 'a>,
    options: Options,
    opener: &P,
    tracker: &T,
    rt: &R,
    out: &mut O,
    viewer: Viewer<'_>,
    screen: &mut L,
) -> Result<Verdict, Fault<'a>>
where
    P: Opener,
    O: Output,
    T: Tracker,
    L: Output + Send,
    R: Threads + Wait + Sync,
    ensures { AnswersCheck O.written O.failures (fate_of P.In.left P.In.failures (P.may_give opener.now)) (P.told opener.now) paths.now.head.now paths.now.files.now options out.old out.new result }
{
    let mut work = || -> Result<Verdict, Fault>
        ensures { AnswersCheck O.written O.failures (fate_of P.In.left P.In.failures (P.may_give opener.entry.now)) (P.told opener.entry.now) paths.entry.now.head.now paths.entry.now.files.now options out.entry.now out.exit.now result }
    { check_paths(alloc, paths, options, opener, tracker, rt, out) };
    viewer.during(screen, rt, &mut work)
}

/// As `check`. Where it is wanted a thread shows meanwhile how far it is.
pub(crate) fn check_shown<'a, P, O, L, R>(
    alloc: Global,
    head: &'a str,
    files: &[&'a str],
    options: Options,
    opener: &P,
    rt: &R,
    out: &mut O,
    screen: &mut L,
    manner: Option<Manner>,
) -> Result<Verdict, Fault<'a>>
where
    P: Opener,
    O: Output,
    L: Output + Send,
    R: Threads + Wait + Clock + Sync,
    ensures { AnswersCheck O.written O.failures (fate_of P.In.left P.In.failures (P.may_give opener.now)) (P.told opener.now) head.now files.now options out.old out.new result }
{
    let paths = Paths { head, files };
    let gauge = Gauge::new();
    let measured = Measured {
        opener,
        gauge: &gauge,
    };
    let Some(manner) = manner else {
        return check_paths(alloc, &paths, options, &measured, &unshown::<R>(), rt, out);
    };
    let Some((tracker, viewer)) = Viewer::open(alloc, manner, &gauge, rt) else {
        return check_paths(alloc, &paths, options, &measured, &unshown::<R>(), rt, out);
    };
    gauge.set_size(size_of(opener, &paths));
    let shown = Shown(Some(&tracker));
    let answer = check_viewed(
        alloc, &paths, options, &measured, &shown, rt, out, viewer, screen,
    );
    tracker.end();
    answer
}

/// The bytes of the journals in a folder together; 0 where those of one aren't known.
fn size_of_journals<P: Opener>(journals: &JournalFolder<'_, '_, P>) -> u64 {
    let mut size = 0u64;
    for rank in 0..MOST_RANKS {
        let Ok(path) = journals.path_of(rank) else {
            return 0;
        };
        if journals.opener.is_named(path.as_str()) {
            let Some(more) = journals.opener.size(path.as_str()) else {
                return 0;
            };
            size = size.saturating_add(more);
        }
    }
    size
}

/// As `judge`, of the journals in a folder.
fn judge_folder<P: Opener, O: Output, T: Tracker>(
    journals: &JournalFolder<'_, '_, P>,
    judged: JudgeManner,
    tracker: &T,
    wait: &impl Wait,
    out: &mut O,
) -> Result<Verdict, JudgeFault>
    ensures { let known = known_in (P.told journals.now.opener.now) (P.named journals.now.opener.now) journals.now.path.now in
        AnswersJudge O.written O.failures known judged out.old out.new result }
{
    judge(journals.alloc, journals, judged, tracker, wait, out)
}

/// Judges the journals in a folder as `judge` does, while the viewer shows how far that is.
fn judge_viewed<P, O, T, L, R>(
    journals: &JournalFolder<'_, '_, P>,
    judged: JudgeManner,
    tracker: &T,
    rt: &R,
    out: &mut O,
    viewer: Viewer<'_>,
    screen: &mut L,
) -> Result<Verdict, JudgeFault>
where
    P: Opener,
    O: Output,
    T: Tracker,
    L: Output + Send,
    R: Threads + Wait + Sync,
    ensures { let known = known_in (P.told journals.now.opener.now) (P.named journals.now.opener.now) journals.now.path.now in
        AnswersJudge O.written O.failures known judged out.old out.new result }
{
    let mut work = || -> Result<Verdict, JudgeFault>
        ensures { let known = known_in (P.told journals.entry.now.opener.now) (P.named journals.entry.now.opener.now) journals.entry.now.path.now in
            AnswersJudge O.written O.failures known judged out.entry.now out.exit.now result }
    { judge_folder(journals, judged, tracker, rt, out) };
    viewer.during(screen, rt, &mut work)
}

/// As `judge`. Where it is wanted a thread shows meanwhile how far it is.
pub(crate) fn judge_shown<P, O, L, R>(
    journals: &JournalFolder<'_, '_, P>,
    judged: JudgeManner,
    rt: &R,
    out: &mut O,
    screen: &mut L,
    manner: Option<Manner>,
) -> Result<Verdict, JudgeFault>
where
    P: Opener,
    O: Output,
    L: Output + Send,
    R: Threads + Wait + Clock + Sync,
    ensures { let known = known_in (P.told journals.now.opener.now) (P.named journals.now.opener.now) journals.now.path.now in
        AnswersJudge O.written O.failures known judged out.old out.new result }
{
    let gauge = Gauge::new();
    let opener = Measured {
        opener: journals.opener,
        gauge: &gauge,
    };
    let measured = JournalFolder {
        alloc: journals.alloc,
        opener: &opener,
        path: journals.path,
    };
    let Some(manner) = manner else {
        return judge_folder(&measured, judged, &unshown::<R>(), rt, out);
    };
    let Some((tracker, viewer)) = Viewer::open(journals.alloc, manner, &gauge, rt) else {
        return judge_folder(&measured, judged, &unshown::<R>(), rt, out);
    };
    gauge.set_size(size_of_journals(journals));
    let shown = Shown(Some(&tracker));
    let answer = judge_viewed(&measured, judged, &shown, rt, out, viewer, screen);
    tracker.end();
    answer
}
