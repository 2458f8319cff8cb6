//! The report of a run over the sources of its ranks, which are read at once.

ghost use Rattle.std.specs.Prelude.{◌≡◌, ◌<◌, ◌≤◌, ℕ, None, [], List, length, map, vec_len, vec_capacity, IfOk, IfErr, OnOk};
ghost use Rattle.mpicall.specs.Trace.{Trace as TraceValue};
ghost use Rattle.mpigroup.specs.Groups.{ranks_of};
ghost use Rattle.gather.specs.Outcomes.{refusal_of};
ghost use Rattle.driver.specs.VerdictContract.{AreFresh, Tells, IsVerdictOver, RefusesOver, TheTraceToComeIsRead};
ghost use Rattle.driver.specs.inner.Ranks.{Reported, NotReported};
ghost use Rattle.driver.specs.OutputContract.{LeavesOutput, WritesReport};
ghost use Rattle.driver.specs.Runs.{AcceptsFeeds, IsOfTurns, RefusesFeeds, StopsWhereAllowed};
ghost use Rattle.driver.specs.inner.Runs.{receipt_of, of_close, IsOutcomeOfFeeds};

use crate::round_robin::read_in_turns;
use crate::threaded::in_threads;
use crate::threads::{FeedResult, NotStarted};
use crate::turn::Turn;
use gather::fault::RunFault;
use gather::gate::Gate;
use gather::ledger::Ledger;
use gather::outcome::{CloseFault, Outcome};
use gather::session::Session;
use moves::reading::Reading;
use mpicall::device::{Input, Output};
use mpicall::source::Source;
use mpigroup::head::Head;
use progress::tracker::{Tracker, Untracked};
use rankfeed::Receipt;
use report::write::{Format, ReportFault, write_report};
use std::alloc::Global;
use std::sync::Wait;
use std::thread::Threads;
use waitgraph::verdict::Verdict;

/// How the sources of all ranks are read at once.
#[derive(Clone, Copy, Debug, PartialEq, Eq)]
pub enum ReadBy {
    /// Each by a thread of its own, with a stack of this many bytes; of the system's size where none is given.
    /// For sources whose reads may wait for other programs, as those of pipes do.
    Threads { stack_size: Option<usize> },
    /// By turns, in the thread of the caller, with no feed between: each record is judged as soon as it is read.
    /// For sources whose bytes are there, as those of files are: it takes less processor time. A read that waits
    /// holds all ranks up.
    Turns,
}

/// The receipts that came of the sources, in their order. `receipts` has room for them.
fn receipts_of(fed: Vec<FeedResult>, receipts: Vec<Option<Receipt>>) -> Vec<Option<Receipt>>
    requires nothing { receipts.items ≡ [] }
    requires room { vec_len fed ≤ vec_capacity receipts }
    ensures { result.items ≡ map receipt_of fed.items }
{
    let mut receipts = receipts;
    for one in fed {
        let Ok(()) = receipts.push(one.receipt.ok()) else {
            unreachable!()
        };
    }
    receipts
}

/// What comes of the sources, each read by a thread with a stack of this size; of the system's where none is
/// given.
fn outcome_in_threads<I, G, T, R>(
    alloc: Global,
    head: Head,
    reading: Reading,
    sources: Vec<Source<I>>,
    capacity: u16,
    gate: &G,
    tracker: &T,
    rt: &R,
    stack_size: Option<usize>,
) -> Result<Outcome, CloseFault>
where
    I: Input + Drop + Send,
    G: Gate + Sync,
    T: Tracker,
    R: Threads + Wait + Sync,
    requires room { 0 < capacity }
    requires one_a_rank { length sources.items ≡ ranks_of head }
    requires fresh { AreFresh sources.items }
    ensures ok { IfOk result (IsOutcomeOfFeeds I.left (G.may_answer gate.now) sources.items reading head) }
    ensures fault { IfErr result (λ fault. RefusesFeeds I.left (G.may_answer gate.now) sources.items head (of_close fault)) }
{
    let ranks = sources.len();
    let Ok(started) = Vec::with_capacity(alloc, ranks) else {
        return Err(CloseFault::Memory);
    };
    let Ok(fed) = Vec::with_capacity(alloc, ranks) else {
        return Err(CloseFault::Memory);
    };
    let Ok(receipts) = Vec::with_capacity(alloc, ranks) else {
        return Err(CloseFault::Memory);
    };
    let not_started = NotStarted::none();
    match Session::open(alloc, head, reading, capacity, 0, rt) {
        Ok((feeds, collector, _watches)) => {
            let (collector, fed) = in_threads(
                rt,
                sources,
                feeds,
                collector,
                started,
                fed,
                gate,
                tracker,
                &not_started,
                stack_size,
            );
            collector.close(receipts_of(fed, receipts))
        }
        Err(_) => Err(CloseFault::Memory),
    }
}

/// What comes of the sources, read by turns.
fn outcome_in_turns<I, G, T, R>(
    alloc: Global,
    head: Head,
    reading: Reading,
    sources: Vec<Source<I>>,
    gate: &G,
    tracker: &T,
    rt: &R,
) -> Result<Outcome, CloseFault>
where
    I: Input + Drop,
    G: Gate,
    T: Tracker,
    R: Wait,
    requires one_a_rank { length sources.items ≡ ranks_of head }
    requires fresh { AreFresh sources.items }
    ensures ok { IfOk result (IsOutcomeOfFeeds I.left (G.may_answer gate.now) sources.items reading head) }
    ensures fault { IfErr result (λ fault. RefusesFeeds I.left (G.may_answer gate.now) sources.items head (of_close fault)) }
    ensures turns { IfErr result (λ fault. IsOfTurns (of_close fault)) }
{
    let Ok(turns) = vec![in alloc; Turn::first(); sources.len()] else {
        return Err(CloseFault::Memory);
    };
    match Ledger::new(alloc, head, reading) {
        Ok(ledger) => read_in_turns(sources, turns, ledger, gate, tracker, rt).conclude(alloc),
        Err(_) => Err(CloseFault::Memory),
    }
}

/// What comes of the sources, read in the way that was asked for.
fn outcome_of<I, G, T, R>(
    alloc: Global,
    head: Head,
    reading: Reading,
    sources: Vec<Source<I>>,
    capacity: u16,
    gate: &G,
    tracker: &T,
    rt: &R,
    by: ReadBy,
) -> Result<Outcome, CloseFault>
where
    I: Input + Drop + Send,
    G: Gate + Sync,
    T: Tracker,
    R: Threads + Wait + Sync,
    requires room { 0 < capacity }
    requires one_a_rank { length sources.items ≡ ranks_of head }
    requires fresh { AreFresh sources.items }
    ensures ok { IfOk result (IsOutcomeOfFeeds I.left (G.may_answer gate.now) sources.items reading head) }
    ensures fault { IfErr result (λ fault. RefusesFeeds I.left (G.may_answer gate.now) sources.items head (of_close fault)) }
    ensures stopped { IfErr result (λ fault. StopsWhereAllowed (G.may_answer gate.now) (of_close fault)) }
    ensures turns { by ≡ ReadBy.Turns → IfErr result (λ fault. IsOfTurns (of_close fault)) }
{
    match by {
        ReadBy::Threads { stack_size } => {
            outcome_in_threads(
                alloc, head, reading, sources, capacity, gate, tracker, rt, stack_size,
            )
        }
        ReadBy::Turns => outcome_in_turns(alloc, head, reading, sources, gate, tracker, rt),
    }
}

/// The fault of a run whose session has no outcome.
fn fault_of_close(fault: CloseFault) -> RunFault
    ensures { result ≡ of_close fault }
{
    match fault {
        CloseFault::Memory => RunFault::Memory,
        CloseFault::Unproved(rank) => RunFault::Unproved(rank),
        CloseFault::Refused(refusal) => RunFault::Refused(refusal),
    }
}

/// Writes the report of a run whose calls were all accepted, and gives the verdict that it says.
fn report<O: Output>(
    alloc: Global,
    outcome: &Outcome,
    format: Format,
    out: &mut O,
) -> Result<Verdict, RunFault>
    ensures written { IfOk result (Reported O.written out.old out.new format outcome.now.reading outcome.now.groups outcome.now.recording) }
    ensures no_write_failed { OnOk result (O.failures out.new ≡ O.failures out.old) }
    ensures fault { IfErr result (NotReported O.written O.failures out.old out.new format outcome.now.reading outcome.now.groups outcome.now.recording) }
{
    match write_report(alloc, outcome.analyser(), outcome.graph(), format, out) {
        Ok(()) => Ok(outcome.verdict()),
        Err(ReportFault::Memory) => Err(RunFault::Memory),
        Err(ReportFault::Write) => Err(RunFault::Write),
    }
}

/// Reads the sources of all ranks at once, in the way that is asked for and each to its end, and writes the report
/// of the run by the given reading: whether some rank can't reach its Finalize, whatever way the run goes, who waits
/// for whom and why, and what else is wrong. Where some list was left open it is whether some rank is held. The
/// first fault of the lowest rank that has one is reported instead, and then nothing is written.
///
/// There is one source a rank, in rank order; none of them may have been asked before. At most `capacity`
/// records of a rank that a thread reads wait to be judged. Before each record is read the gate is asked. The
/// tracker is handed the analyser meanwhile, and nothing depends on it. All threads have ended when this returns.
pub fn run_by<I, G, O, T, R>(
    alloc: Global,
    head: Head,
    reading: Reading,
    sources: Vec<Source<I>>,
    capacity: u16,
    gate: &G,
    format: Format,
    out: &mut O,
    tracker: &T,
    rt: &R,
    by: ReadBy,
) -> Result<Verdict, RunFault>
where
    I: Input + Drop + Send,
    G: Gate + Sync,
    O: Output,
    T: Tracker,
    R: Threads + Wait + Sync,
    requires room { 0 < capacity }
    requires one_a_rank { length sources.items ≡ ranks_of head }
    requires fresh { AreFresh sources.items }

    // The answer is that of the traces which the sources' bytes hold, where the inputs know them.
    ensures accepted { OnOk result ((traces : List TraceValue) →
        Tells I.left sources.items traces → refusal_of head traces ≡ None) }
    ensures verdict { IfOk result (λ verdict. (traces : List TraceValue) →
        Tells I.left sources.items traces → IsVerdictOver reading head traces verdict) }
    ensures refused { IfErr result (λ fault. (traces : List TraceValue) →
        Tells I.left sources.items traces → RefusesOver head traces fault) }

    // The gate was asked of each line that was read, and stops no rank where it may not. A refusal is that of what
    // was read of the ranks' sources.
    ensures asked { OnOk result (AcceptsFeeds I.left (G.may_answer gate.now) sources.items head) }
    ensures fed { IfErr result (RefusesFeeds I.left (G.may_answer gate.now) sources.items head) }
    ensures stopped { IfErr result (StopsWhereAllowed (G.may_answer gate.now)) }

    // By turns no thread is wanted, and no proof of a source's end.
    ensures turns { by ≡ ReadBy.Turns → IfErr result IsOfTurns }

    // What is written is the report of those traces, with that verdict.
    ensures written { IfOk result (WritesReport I.left O.written O.failures sources.items reading head format out.old out.new) }

    // A write that failed is reported only where the device's count rose.
    ensures no_write_failed { OnOk result (O.failures out.new ≡ O.failures out.old) }
    ensures output { IfErr result (LeavesOutput I.left O.written O.failures sources.items reading head format out.old out.new) }
{
    match outcome_of(
        alloc, head, reading, sources, capacity, gate, tracker, rt, by,
    ) {
        Ok(outcome) => report(alloc, &outcome, format, out),
        Err(fault) => Err(fault_of_close(fault)),
    }
}

/// Checks a run as `run_by` does, with a thread for each source.
pub fn run<I, G, O, R>(
    alloc: Global,
    head: Head,
    reading: Reading,
    sources: Vec<Source<I>>,
    capacity: u16,
    gate: &G,
    format: Format,
    out: &mut O,
    rt: &R,
) -> Result<Verdict, RunFault>
where
    I: Input + Drop + Send,
    G: Gate + Sync,
    O: Output,
    R: Threads + Wait + Sync,
    requires room { 0 < capacity }
    requires one_a_rank { length sources.items ≡ ranks_of head }
    requires fresh { AreFresh sources.items }

    ensures accepted { OnOk result ((traces : List TraceValue) →
        Tells I.left sources.items traces → refusal_of head traces ≡ None) }
    ensures verdict { IfOk result (λ verdict. (traces : List TraceValue) →
        Tells I.left sources.items traces → IsVerdictOver reading head traces verdict) }
    ensures refused { IfErr result (λ fault. (traces : List TraceValue) →
        Tells I.left sources.items traces → RefusesOver head traces fault) }

    ensures asked { OnOk result (AcceptsFeeds I.left (G.may_answer gate.now) sources.items head) }
    ensures fed { IfErr result (RefusesFeeds I.left (G.may_answer gate.now) sources.items head) }
    ensures stopped { IfErr result (StopsWhereAllowed (G.may_answer gate.now)) }

    ensures written { IfOk result (WritesReport I.left O.written O.failures sources.items reading head format out.old out.new) }

    ensures no_write_failed { OnOk result (O.failures out.new ≡ O.failures out.old) }
    ensures output { IfErr result (LeavesOutput I.left O.written O.failures sources.items reading head format out.old out.new) }
{
    let by = ReadBy::Threads { stack_size: None };
    run_by(
        alloc, head, reading, sources, capacity, gate, format, out, &Untracked, rt, by,
    )
}

/// The trace that is to come of a source, by spellings and first faults, is the one that reading its lines gives.
pub fn the_trace_to_come_is_read<I: Input>()
    ensures { TheTraceToComeIsRead I.left }
{}
