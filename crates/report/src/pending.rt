//! The report of the recording of journals where it is known in which calls ranks were: with rank lines of held ranks
//! at their opens.

ghost use Rattle.std.specs.Prelude.{◌≡◌, ◌≤◌, All, List, length, map, IfErr, OnOk};
ghost use Rattle.std.specs.Io.KnownBytes.{Appends};
ghost use Rattle.waitgraph.specs.Pending.{view_of};
ghost use Rattle.waitgraph.specs.PendingGraphs.{IsGraphWith};
ghost use Rattle.waitgraph.specs.Verdicts.{verdict_by};
ghost use Rattle.waitgraph.specs.declared.pending.Sink.{Sink};
ghost use Rattle.report.specs.PendingReport.{pending_json, pending_report};
ghost use Rattle.report.specs.Reports.{LeavesReport};
ghost use Rattle.report.specs.inner.Opened.{TellsOf};

use crate::json::pending_json_text;
use crate::judged::{Judged, MOST_WORDS};
use crate::write::pending::write_pending_text;
use crate::write::{Format, ReportFault};
use moves::analyser::Analyser;
use mpicall::device::{Output, write_all};
use std::alloc::Global;
use waitgraph::graph::Graph;
use waitgraph::pending::PendingCall;

/// A run with its wait graph, and by rank the calls in which ranks were when their lists were left open.
#[derive(Clone, Copy)]
pub struct PendingRun<'a> {
    pub analyser: &'a Analyser,
    pub graph: &'a Graph,
    pub pending: &'a [PendingCall],
}

/// Writes the JSON report.
fn write_pending_json<O: Output>(
    alloc: Global,
    run: &PendingRun<'_>,
    judged: &Judged<'_>,
    out: &mut O,
) -> Result<(), ReportFault>
    requires { TellsOf run.now }
    ensures written { OnOk result (Appends (O.written out.old) (O.written out.new)
        (pending_json run.now.analyser.now.reading run.now.analyser.now.groups run.now.analyser.now.recording (verdict_by run.now.graph.now.held run.now.graph.now.left_open) (map view_of run.now.pending.now) run.now.graph.now.at_open run.now.graph.now.causes judged.now.findings.now judged.now.left.now judged.now.lines.now judged.now.held)) }
    ensures no_write_failed { OnOk result (O.failures out.new ≡ O.failures out.old) }
    ensures fault { IfErr result (LeavesReport O.written O.failures out.old out.new Format.Json
        (pending_json run.now.analyser.now.reading run.now.analyser.now.groups run.now.analyser.now.recording (verdict_by run.now.graph.now.held run.now.graph.now.left_open) (map view_of run.now.pending.now) run.now.graph.now.at_open run.now.graph.now.causes judged.now.findings.now judged.now.left.now judged.now.lines.now judged.now.held)) }
{
    let Ok(text) = pending_json_text(alloc, run, judged) else {
        return Err(ReportFault::Memory);
    };
    match write_all(out, text.as_bytes()) {
        Ok(()) => Ok(()),
        Err(_) => Err(ReportFault::Write),
    }
}

/// Writes the report by what the graph has.
#[tactic(auto, unfolding(crate::specs::PendingReport::pending_report))]
fn write_told<O: Output>(
    alloc: Global,
    run: &PendingRun<'_>,
    judged: &Judged<'_>,
    format: Format,
    out: &mut O,
) -> Result<(), ReportFault>
    requires graph { TellsOf run.now }
    requires short { All (λ one. length one.why.now ≤ MOST_WORDS) judged.now.left.now }
    ensures written { OnOk result (Appends (O.written out.old) (O.written out.new) (pending_report format run.now.analyser.now.reading run.now.analyser.now.groups run.now.analyser.now.recording (verdict_by run.now.graph.now.held run.now.graph.now.left_open) (map view_of run.now.pending.now) run.now.graph.now.at_open run.now.graph.now.causes judged.now)) }
    ensures no_write_failed { OnOk result (O.failures out.new ≡ O.failures out.old) }
    ensures fault { IfErr result (LeavesReport O.written O.failures out.old out.new format (pending_report format run.now.analyser.now.reading run.now.analyser.now.groups run.now.analyser.now.recording (verdict_by run.now.graph.now.held run.now.graph.now.left_open) (map view_of run.now.pending.now) run.now.graph.now.at_open run.now.graph.now.causes judged.now)) }
{
    match format {
        Format::Text => match write_pending_text(run, judged, out) {
            Ok(()) => Ok(()),
            Err(_) => Err(ReportFault::Write),
        },
        Format::Json => write_pending_json(alloc, run, judged, out),
    }
}

/// Writes the report of the recording of journals where pending calls are known. The text report takes no memory; the
/// JSON report is made whole before any of it is written.
pub fn write_pending<O: Output>(
    alloc: Global,
    run: &PendingRun<'_>,
    judged: &Judged<'_>,
    format: Format,
    out: &mut O,
) -> Result<(), ReportFault>
    requires graph { (sinks : List Sink) × IsGraphWith run.now.analyser.now.reading run.now.analyser.now.groups run.now.analyser.now.recording (record { pending = map view_of run.now.pending.now; sinks = sinks }) run.now.graph.now }
    requires short { All (λ one. length one.why.now ≤ MOST_WORDS) judged.now.left.now }
    ensures written { OnOk result (Appends (O.written out.old) (O.written out.new) (pending_report format run.now.analyser.now.reading run.now.analyser.now.groups run.now.analyser.now.recording (verdict_by run.now.graph.now.held run.now.graph.now.left_open) (map view_of run.now.pending.now) run.now.graph.now.at_open run.now.graph.now.causes judged.now)) }
    ensures no_write_failed { OnOk result (O.failures out.new ≡ O.failures out.old) }
    ensures fault { IfErr result (LeavesReport O.written O.failures out.old out.new format (pending_report format run.now.analyser.now.reading run.now.analyser.now.groups run.now.analyser.now.recording (verdict_by run.now.graph.now.held run.now.graph.now.left_open) (map view_of run.now.pending.now) run.now.graph.now.at_open run.now.graph.now.causes judged.now)) }
{
    write_told(alloc, run, judged, format, out)
}
