//! The report of a run: its verdict, who waits for whom, why, and what else is wrong with it.

ghost use Rattle.std.specs.Prelude.{◌≡◌, IfErr, OnOk};
ghost use Rattle.std.specs.Io.KnownBytes.{Appends};
ghost use Rattle.waitgraph.specs.Graphs.{IsGraphOf};
ghost use Rattle.waitgraph.specs.Verdicts.{verdict_by};
ghost use Rattle.report.specs.JsonReport.{json_report};
ghost use Rattle.report.specs.Reports.{report_of, LeavesReport};

use crate::json::json_text;
use crate::write::text::write_text;
use moves::analyser::Analyser;
use mpicall::device::{Output, write_all};
use std::alloc::Global;
use thiserror::Error;
use waitgraph::graph::Graph;

pub(crate) mod opened;
pub(crate) mod pending;
pub(crate) mod printer;
pub(crate) mod text;

/// The format of a report: lines of text, or one JSON value.
#[derive(Clone, Copy, Debug, PartialEq, Eq)]
pub enum Format {
    Text,
    Json,
}

/// Why a report wasn't written.
#[derive(Clone, Copy, Debug, PartialEq, Eq, Error)]
pub enum ReportFault {
    #[error("memory")]
    Memory,
    #[error("write")]
    Write,
}

/// Writes the JSON report.
fn write_json<O: Output>(
    alloc: Global,
    analyser: &Analyser,
    graph: &Graph,
    out: &mut O,
) -> Result<(), ReportFault>
    requires { IsGraphOf analyser.now.reading analyser.now.groups analyser.now.recording graph.now }
    ensures written { OnOk result (Appends (O.written out.old) (O.written out.new) (json_report analyser.now.reading analyser.now.groups analyser.now.recording (verdict_by graph.now.held graph.now.left_open) graph.now.causes)) }
    ensures no_write_failed { OnOk result (O.failures out.new ≡ O.failures out.old) }
    ensures fault { IfErr result (LeavesReport O.written O.failures out.old out.new Format.Json (json_report analyser.now.reading analyser.now.groups analyser.now.recording (verdict_by graph.now.held graph.now.left_open) graph.now.causes)) }
{
    let Ok(text) = json_text(alloc, analyser, graph) else {
        return Err(ReportFault::Memory);
    };
    match write_all(out, text.as_bytes()) {
        Ok(()) => Ok(()),
        Err(_) => Err(ReportFault::Write),
    }
}

/// Writes the report of a run from its analyser and its wait graph. The text report takes no memory; the
/// JSON report is made whole before any of it is written.
#[tactic(auto, unfolding(crate::specs::Reports::report_of))]
pub fn write_report<O: Output>(
    alloc: Global,
    analyser: &Analyser,
    graph: &Graph,
    format: Format,
    out: &mut O,
) -> Result<(), ReportFault>
    requires { IsGraphOf analyser.now.reading analyser.now.groups analyser.now.recording graph.now }
    ensures written { OnOk result (Appends (O.written out.old) (O.written out.new) (report_of format analyser.now.reading analyser.now.groups analyser.now.recording (verdict_by graph.now.held graph.now.left_open) graph.now.causes)) }
    ensures no_write_failed { OnOk result (O.failures out.new ≡ O.failures out.old) }
    ensures fault { IfErr result (LeavesReport O.written O.failures out.old out.new format (report_of format analyser.now.reading analyser.now.groups analyser.now.recording (verdict_by graph.now.held graph.now.left_open) graph.now.causes)) }
{
    match format {
        Format::Text => match write_text(analyser, graph, out) {
            Ok(()) => Ok(()),
            Err(_) => Err(ReportFault::Write),
        },
        Format::Json => write_json(alloc, analyser, graph, out),
    }
}
