//! The report of the recording that the journals of a run are.

ghost use Rattle.std.specs.Prelude.{◌≡◌, ◌≤◌, ◌||◌, ◌++◌, ℕ, All, List, None, true, length, map, IfErr, IfOk, OnOk};
ghost use Rattle.std.specs.Io.KnownBytes.{Appends};
ghost use Rattle.callstore.specs.Recordings.{IsClosed};
ghost use Rattle.waitgraph.specs.PendingGraphs.{IsGraphWith};
ghost use Rattle.report.specs.declared.judged.TheConstants.{MOST_WORDS};
ghost use Rattle.report.specs.declared.write.Format.TheVariants.{Json};
ghost use Rattle.closing.specs.Entries.{is_window};
ghost use Rattle.closing.specs.Numbers.{groups_of};
ghost use Rattle.closing.specs.Recording.{recording_of};
ghost use Rattle.closing.specs.Recordings.{choice_in};
ghost use Rattle.closing.specs.Left.{left_of, left_said as left_found};
ghost use Rattle.lawful.specs.Laws.{IsRead};
ghost use Rattle.judging.specs.Judging.{IsFaultOfJudge, IsJudgedReport, LeavesAt, left_said, left_words, words_of};
ghost use Rattle.judging.specs.KnownCalls.{judged_choice, known_of};
ghost use Rattle.judging.specs.UnderWay.{unclean_at};
ghost use Rattle.judging.specs.WithoutPending.{WithoutPendingTheReportIsPlain};
ghost use Rattle.judging.specs.inner.Cuts.{IsGatheredIfCut, IsOfCut};
ghost use Rattle.judging.specs.inner.Known.{known_in};
ghost use Rattle.judging.specs.inner.Reported.{IsLate, IsLined, IsReported, IsReportedOf, IsRunOf, fault_of_reading};
ghost use Rattle.judging.specs.inner.Tables.{HasAllLines, HasTable, rows_of};
ghost use Rattle.judging.specs.inner.Turns.{HasAll, IsDone, IsFresh};
ghost use Rattle.judging.specs.inner.Unwritten.{IsOfRecording, IsUnwritten};
ghost use Rattle.judging.specs.declared.judge.JudgeFault.TheVariants.{Memory};

use crate::head::head_text;
use crate::held::{held_of, said_of};
use crate::known::{Known, known_of};
use crate::read::{Journals, ReadFault, read_journals};
use crate::reported::reported_findings;
use crate::spots::lines_of;
use crate::turns::{LineTable, Lists};
use crate::under_way::{EntryAt, unclean_at};
use closing::choice::{Choice, Unreported};
use closing::recording::Recording;
use closing::walk::Left;
use closing::why::Why;
use findings::finding::Finding;
use gather::fault::Refusal;
use moves::analyser::Analyser;
use moves::reading::Reading;
use mpicall::device::Output;
use mpigroup::fault::{HeadFault, ReadFault as HeadReadFault};
use mpigroup::head::Head;
use progress::tracker::Tracker;
use report::judged::{Judged, LeftAt, LineAt};
use report::pending::{PendingRun, write_pending};
use report::write::{Format, ReportFault};
use std::alloc::{AllocError, AllocFailed, Global};
use std::sync::Wait;
use waitgraph::graph::Graph;
use waitgraph::verdict::Verdict;

/// Why there is no report.
#[derive(Clone, Copy, Debug, PartialEq, Eq)]
pub enum JudgeFault {
    /// The journals weren't read.
    Read(ReadFault),
    /// The head of the recording has a fault. That of journals has none.
    Head(HeadFault),
    /// A call of the recording has a fault. Those of journals have none.
    Refused(Refusal),
    /// A list of the recording has no end. Those of journals have one.
    Unended,
    /// The journals of all ranks are cut, and with this entry something is under way there.
    Unclean(EntryAt),
    Memory,
    Write,
}

impl From<AllocError> for JudgeFault {
    ghost from_gives = { λ _ fault. fault ≡ Memory };

    fn from(_fault: AllocError) -> JudgeFault {
        JudgeFault::Memory
    }
}

impl<T: Drop> From<AllocFailed<T>> for JudgeFault {
    ghost from_gives = { λ _ fault. fault ≡ Memory };

    fn from(_fault: AllocFailed<T>) -> JudgeFault {
        JudgeFault::Memory
    }
}

/// How journals are judged, and in which form that is reported.
#[derive(Clone, Copy, Debug, PartialEq, Eq)]
pub struct Manner {
    pub choice: Choice,
    pub reading: Reading,
    pub format: Format,
    /// The ranks of which a JSON report says whether they are held, by a mark for each; None if it says it of none.
    pub held: Option<[bool; RANKS_ASKED]>,
}

/// How many ranks can be asked for: as many as a run can have.
pub const RANKS_ASKED: usize = 1024;

/// The head of a recording.
fn head_of(alloc: Global, recording: &Recording) -> Result<Head, JudgeFault>
    ensures head { IfOk result (λ head. IsRead recording.now.run → head ≡ groups_of recording.now.run) }
    ensures fault { IfErr result IsOfRecording }
    ensures lawful { IfErr result (λ fault. IsRead recording.now.run → fault ≡ Memory) }
{
    let text = head_text(alloc, recording.ranks(), recording.communicators())?;
    match Head::read(alloc, text.as_bytes()) {
        Ok(head) => Ok(head),
        Err(HeadReadFault::Text(fault)) => Err(JudgeFault::Head(fault)),
        Err(HeadReadFault::Memory) => Err(JudgeFault::Memory),
    }
}

/// Why the journals of a run aren't judged, which weren't read.
fn of_reading(fault: ReadFault) -> JudgeFault
    ensures unwritten { IsUnwritten result }
    ensures same { result ≡ fault_of_reading fault }
{
    match fault {
        ReadFault::Memory => JudgeFault::Memory,
        fault => JudgeFault::Read(fault),
    }
}

/// Whether a report in this format has the lines of calls.
fn has_lines(format: Format) -> bool
    ensures { format ≡ Json → result ≡ true }
{
    matches!(format, Format::Json)
}

/// Whether one of two is so.
fn is_either(first: bool, next: bool) -> bool
    ensures { result ≡ (first || next) }
{
    first || next
}

/// The choice by which journals are judged: lists go on after receives whose messages aren't known.
fn with_sinks(choice: Choice) -> Choice
    ensures { choice_in result ≡ judged_choice choice }
{
    Choice {
        unreported: Unreported::Sinks,
        ..choice
    }
}

/// The recording of the journals of a run, of which no list is made yet.
fn lists_of<J: Journals>(
    alloc: Global,
    journals: &J,
    manner: Manner,
    wait: &impl Wait,
) -> Result<Lists, JudgeFault>
    ensures run { IfOk result (λ lists. IsRunOf (J.known journals.now) lists.recording.run) }
    ensures choice { IfOk result (λ lists. lists.recording.choice ≡ judged_choice manner.choice) }
    ensures fresh { IfOk result (λ lists. IsFresh lists.recording) }
    ensures table { IfOk result (λ lists. manner.format ≡ Json → HasTable lists) }
    ensures window { IfOk result (λ lists. is_window lists.recording.run ≡ true → HasTable lists) }
    ensures unwritten { IfErr result IsUnwritten }
    ensures fault { IfErr result (IsFaultOfJudge (J.known journals.now) manner.choice) }
{
    let journals = match read_journals(alloc, journals, wait) {
        Ok(journals) => journals,
        Err(fault) => return Err(of_reading(fault)),
    };
    let recording = Recording::of(alloc, journals, with_sinks(manner.choice))?;
    let is_wanted = is_either(has_lines(manner.format), recording.is_window());
    let table = LineTable::new(alloc, recording.ranks(), is_wanted)?;
    Ok(Lists { recording, table })
}

/// The analyser of a recording, whose lists are made here.
fn analyser_of(
    alloc: Global,
    lists: &mut Lists,
    reading: Reading,
    tracker: &impl Tracker,
) -> Result<Analyser, JudgeFault>
    ensures reading { IfOk result (λ analyser. analyser.reading ≡ reading) }
    ensures closed { IfOk result (λ analyser. IsClosed analyser.recording) }
    ensures all { IfOk result (λ analyser. IsFresh lists.old.recording → IsRead lists.old.recording.run →
        HasAll lists.old.recording lists.new.recording analyser) }
    ensures table { IfOk result (λ analyser. IsFresh lists.old.recording → IsRead lists.old.recording.run → HasTable lists.old →
        HasAllLines lists.new.recording (rows_of lists.new.table)) }
    ensures fault { IfErr result IsOfRecording }
    ensures lawful { IfErr result (λ fault. IsFresh lists.old.recording → IsRead lists.old.recording.run → fault ≡ Memory) }
{
    let head = head_of(alloc, &lists.recording)?;
    let mut analyser = Analyser::new(alloc, head, reading)?;
    lists.take_all(&mut analyser, tracker)?;
    if !analyser.is_closed() {
        return Err(JudgeFault::Unended);
    }
    Ok(analyser)
}

/// Fails where the journals of all ranks are cut and something is under way there.
fn check_cut(alloc: Global, lists: &Lists, analyser: &Analyser) -> Result<(), JudgeFault>
    ensures clean { OnOk result (IsGatheredIfCut lists.now.recording (rows_of lists.now.table) analyser.now →
        unclean_at lists.now.recording.run lists.now.recording.choice ≡ None) }
    ensures fault { IfErr result (IsOfCut lists.now.recording (rows_of lists.now.table) analyser.now) }
{
    match unclean_at(alloc, lists, analyser)? {
        Some(entry) => Err(JudgeFault::Unclean(entry)),
        None => Ok(()),
    }
}

/// Who waits for whom, and why, by what is known.
fn graph_of(alloc: Global, analyser: &Analyser, known: &Known) -> Result<Graph, JudgeFault>
    ensures graph { IfOk result (IsGraphWith analyser.now.reading analyser.now.groups analyser.now.recording (known_in known.now)) }
    ensures fault { IfErr result (λ fault. fault ≡ Memory) }
{
    match Graph::of_pending(
        alloc,
        analyser,
        known.pending.as_slice(),
        known.sinks.as_slice(),
    ) {
        Ok(graph) => Ok(graph),
        Err(_) => Err(JudgeFault::Memory),
    }
}

/// The words for why a list ended before its end.
fn why_text(why: Why) -> &'static str
    ensures short { length result.now ≤ MOST_WORDS }
    ensures words { result.now ≡ words_of why }
{
    match why {
        Why::NeverCameBack => "never came back",
        Why::NeverReported => "never told",
        Why::Failed => "failed",
        Why::NoNumber => "no number",
        Why::TooLong => "too long",
        Why::CannotBe => "cannot be",
        Why::Stopped => "stopped",
        Why::Aborted => "aborted",
        Why::Full => "full",
        Why::Cut => "cut",
        Why::NotJudged => "not judged",
        Why::NoJournal => "no journal",
    }
}

fn left_at(rank: u16, left: Left) -> LeftAt
    ensures short { length result.why.now ≤ MOST_WORDS }
    ensures said { left_said result ≡ left_words (left_found rank left) }
{
    LeftAt {
        rank,
        line: left.line,
        why: why_text(left.why),
    }
}

/// Adds the entries of a rank that stand in no line of their own.
fn add_left_out(all: &mut Vec<LeftAt>, rank: u16, left_out: &[Left]) -> Result<(), AllocError>
    ensures short { OnOk result (All (λ one. length one.why.now ≤ MOST_WORDS) all.old.items → All (λ one. length one.why.now ≤ MOST_WORDS) all.new.items) }
    ensures left { OnOk result (map left_said all.new.items ≡ map left_said all.old.items ++ map left_words (map (left_found rank) left_out.now)) }
{
    for left in left_out {
        all.push(left_at(rank, *left))?;
    }
    Ok(())
}

/// At which lines, and why, lists ended before their ends, and entries stand in no line of their own.
fn left_of(alloc: Global, recording: &Recording) -> Result<Vec<LeftAt>, AllocError>
    ensures short { IfOk result (λ all. All (λ one. length one.why.now ≤ MOST_WORDS) all.items) }
    ensures left { IfOk result (λ all. IsDone recording.now → map left_said all.items
        ≡ map left_words (left_of (recording_of recording.now.run recording.now.choice).lists)) }
{
    let mut all = Vec::new(alloc);
    for rank in 0..recording.ranks() {
        add_left_out(&mut all, rank, recording.left_out(rank))?;
        if let Some(left) = recording.left(rank) {
            all.push(left_at(rank, left))?;
        }
    }
    Ok(all)
}

/// The lines of the calls that a report in this format names.
fn lines_in(
    alloc: Global,
    lists: &Lists,
    analyser: &Analyser,
    graph: &Graph,
    findings: &[Finding],
    known: &Known,
    manner: Manner,
) -> Result<Vec<LineAt>, AllocError>
    requires reading { analyser.now.reading ≡ manner.reading }
    requires graph { IsGraphWith analyser.now.reading analyser.now.groups analyser.now.recording (known_in known.now) graph.now }
    ensures { IfOk result (λ lines. IsLined (rows_of lists.now.table) manner analyser.now (known_in known.now) graph.now.at_open findings.now lines.items) }
{
    match manner.format {
        Format::Json => lines_of(alloc, analyser, graph, known, findings, &lists.table),
        Format::Text => Ok(Vec::new(alloc)),
    }
}

/// Writes a report, and gives the verdict that it says.
fn write_report<O: Output>(
    alloc: Global,
    analyser: &Analyser,
    graph: &Graph,
    known: &Known,
    judged: &Judged<'_>,
    manner: Manner,
    out: &mut O,
) -> Result<Verdict, JudgeFault>
    requires reading { analyser.now.reading ≡ manner.reading }
    requires closed { IsClosed analyser.now.recording }
    requires graph { IsGraphWith analyser.now.reading analyser.now.groups analyser.now.recording (known_in known.now) graph.now }
    requires short { All (λ one. length one.why.now ≤ MOST_WORDS) judged.now.left.now }
    ensures written { IfOk result (λ verdict. (report : List ℕ) × IsReported manner.reading manner.format analyser.now.groups analyser.now.recording (known_in known.now) graph.now.at_open judged.now verdict report × Appends (O.written out.old) (O.written out.new) report) }
    ensures no_write_failed { OnOk result (O.failures out.new ≡ O.failures out.old) }
    ensures output { IfErr result (LeavesAt O.written O.failures out.old out.new) }
    ensures fault { IfErr result IsLate }
{
    let verdict = graph.verdict();
    // For the proof: there are as many lists as the head has ranks.
    let _head = analyser.head();
    let run = PendingRun {
        analyser,
        graph,
        pending: known.pending.as_slice(),
    };
    match write_pending(alloc, &run, judged, manner.format, out) {
        Ok(()) => Ok(verdict),
        Err(ReportFault::Memory) => Err(JudgeFault::Memory),
        Err(ReportFault::Write) => Err(JudgeFault::Write),
    }
}

/// Writes the report of a recording, and gives the verdict that it says.
#[tactic(auto, using(crate::proofs::UnwrittenLemmas::leaves_as_it_was))]
fn report<O: Output>(
    alloc: Global,
    lists: &Lists,
    analyser: &Analyser,
    graph: &Graph,
    known: &Known,
    manner: Manner,
    out: &mut O,
) -> Result<Verdict, JudgeFault>
    requires reading { analyser.now.reading ≡ manner.reading }
    requires closed { IsClosed analyser.now.recording }
    requires graph { IsGraphWith analyser.now.reading analyser.now.groups analyser.now.recording (known_in known.now) graph.now }
    ensures written { IfOk result (λ verdict. (report : List ℕ) × IsReportedOf lists.now.recording (rows_of lists.now.table) analyser.now (known_in known.now) manner verdict report × Appends (O.written out.old) (O.written out.new) report) }
    ensures no_write_failed { OnOk result (O.failures out.new ≡ O.failures out.old) }
    ensures output { IfErr result (LeavesAt O.written O.failures out.old out.new) }
    ensures fault { IfErr result IsLate }
{
    let recording = &lists.recording;
    let findings = reported_findings(alloc, recording, manner.choice, graph.findings())?;
    let left = left_of(alloc, recording)?;
    let lines = lines_in(
        alloc,
        lists,
        analyser,
        graph,
        findings.as_slice(),
        known,
        manner,
    )?;
    let held = held_of(alloc, analyser, known, findings.as_slice(), manner.held)?;
    let said = said_of(&held);
    let judged = Judged {
        findings: findings.as_slice(),
        left: left.as_slice(),
        lines: lines.as_slice(),
        held: said,
    };
    write_report(alloc, analyser, graph, known, &judged, manner, out)
}

/// Judges the journals of a run, and writes the report of their recording. The tracker is handed the analyser
/// meanwhile, and nothing depends on it.
#[tactic(auto, using(crate::proofs::UnwrittenLemmas::unwritten))]
pub fn judge<J: Journals, O: Output>(
    alloc: Global,
    journals: &J,
    manner: Manner,
    tracker: &impl Tracker,
    wait: &impl Wait,
    out: &mut O,
) -> Result<Verdict, JudgeFault>
    ensures written { IfOk result (λ verdict. (report : List ℕ) × IsJudgedReport (J.known journals.now) manner verdict report × Appends (O.written out.old) (O.written out.new) report) }
    ensures no_write_failed { OnOk result (O.failures out.new ≡ O.failures out.old) }
    ensures fault { IfErr result (IsFaultOfJudge (J.known journals.now) manner.choice) }
    ensures output { IfErr result (LeavesAt O.written O.failures out.old out.new) }
{
    let mut lists = lists_of(alloc, journals, manner, wait)?;
    let analyser = analyser_of(alloc, &mut lists, manner.reading, tracker)?;
    check_cut(alloc, &lists, &analyser)?;
    let known = known_of(alloc, &lists.recording)?;
    let graph = graph_of(alloc, &analyser, &known)?;
    report(alloc, &lists, &analyser, &graph, &known, manner, out)
}

/// Where no rank has a pending call and lists have no sinks, the report is that of the recording alone.
pub fn without_pending_the_report_is_plain()
    ensures { WithoutPendingTheReportIsPlain }
{}
