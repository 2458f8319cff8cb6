//! The report as one JSON object.

ghost use Rattle.std.specs.Prelude.{◌≡◌, ◌++◌, map, IfOk, OnOk, string_bytes};
ghost use Rattle.serde_json.specs.Data.{string};
ghost use Rattle.serde_json.specs.Written.{compact_text};
ghost use Rattle.waitgraph.specs.Causes.{view_of};
ghost use Rattle.waitgraph.specs.Graphs.{IsGraphOf};
ghost use Rattle.waitgraph.specs.Verdicts.{verdict_by};
ghost use Rattle.report.specs.JsonReport.{each, cause_data, json_report};
ghost use Rattle.waitgraph.specs.Pending.{view_of as pending_view};
ghost use Rattle.report.specs.PendingReport.{pending_json};
ghost use Rattle.report.specs.inner.Opened.{TellsOf};
ghost use Rattle.report.specs.TextReport.{verdict_text};

use crate::json::cause::causes_value;
use crate::json::element::{push_key, push_value};
use crate::json::finding::push_findings;
use crate::json::held::{push_finding_calls, push_held};
use crate::json::judged::{push_left, push_lines};
use crate::json::pending::push_pending_ranks;
use crate::json::rank::push_ranks;
use crate::judged::Judged;
use crate::pending::PendingRun;
use crate::write::text::verdict_text;
use moves::analyser::Analyser;
use serde_json::json;
use std::alloc::{AllocError, Global};
use waitgraph::cause::Cause;
use waitgraph::graph::Graph;
use waitgraph::verdict::Verdict;

mod cause;
mod element;
mod finding;
mod held;
mod judged;
mod need;
mod pending;
mod rank;

/// Puts the causes after the text, as one array.
#[tactic(auto, using(crate::proofs::JsonLemmas::no_float_causes))]
fn push_causes(alloc: Global, text: &mut String, causes: &[Cause]) -> Result<(), AllocError>
    ensures { OnOk result (string_bytes text.new ≡ string_bytes text.old ++ compact_text (each cause_data (map view_of causes.now))) }
{
    let value = causes_value(alloc, causes)?;
    push_value(alloc, text, &value)
}

/// Puts the verdict after the text.
fn push_verdict(alloc: Global, text: &mut String, verdict: Verdict) -> Result<(), AllocError>
    ensures { OnOk result (string_bytes text.new ≡ string_bytes text.old ++ compact_text (string (verdict_text verdict))) }
{
    let value = json!(in alloc; verdict_text(verdict))?;
    push_value(alloc, text, &value)
}

/// The JSON report of a run from its analyser and its wait graph. Besides the text it takes memory for the
/// values of one rank at a time, or of one finding, or of the causes.
pub(crate) fn json_text(
    alloc: Global,
    analyser: &Analyser,
    graph: &Graph,
) -> Result<String, AllocError>
    requires { IsGraphOf analyser.now.reading analyser.now.groups analyser.now.recording graph.now }
    ensures { IfOk result (λ text. string_bytes text ≡ json_report analyser.now.reading analyser.now.groups analyser.now.recording (verdict_by graph.now.held graph.now.left_open) graph.now.causes) }
{
    let mut text = String::new(alloc);
    push_key(alloc, &mut text, "{", "causes", ":")?;
    push_causes(alloc, &mut text, graph.causes())?;
    push_key(alloc, &mut text, ",", "findings", ":[")?;
    push_findings(alloc, &mut text, graph.findings())?;
    push_key(alloc, &mut text, "],", "ranks", ":[")?;
    push_ranks(alloc, &mut text, analyser, graph)?;
    push_key(alloc, &mut text, "],", "verdict", ":")?;
    push_verdict(alloc, &mut text, graph.verdict())?;
    text.push_str("}\n")?;
    Ok(text)
}

/// The JSON report of the recording of journals, where it is known in which calls ranks were.
pub(crate) fn pending_json_text(
    alloc: Global,
    run: &PendingRun<'_>,
    judged: &Judged<'_>,
) -> Result<String, AllocError>
    requires { TellsOf run.now }
    ensures { IfOk result (λ text. string_bytes text
        ≡ pending_json run.now.analyser.now.reading run.now.analyser.now.groups run.now.analyser.now.recording (verdict_by run.now.graph.now.held run.now.graph.now.left_open) (map pending_view run.now.pending.now) run.now.graph.now.at_open run.now.graph.now.causes judged.now.findings.now judged.now.left.now judged.now.lines.now judged.now.held) }
{
    let mut text = String::new(alloc);
    push_key(alloc, &mut text, "{", "causes", ":")?;
    push_causes(alloc, &mut text, run.graph.causes())?;
    push_finding_calls(alloc, &mut text, judged.held)?;
    push_key(alloc, &mut text, ",", "findings", ":[")?;
    push_findings(alloc, &mut text, judged.findings)?;
    push_held(alloc, &mut text, judged.held)?;
    push_key(alloc, &mut text, "],", "left", ":[")?;
    push_left(alloc, &mut text, judged.left)?;
    push_key(alloc, &mut text, "],", "lines", ":[")?;
    push_lines(alloc, &mut text, judged.lines)?;
    push_key(alloc, &mut text, "],", "ranks", ":[")?;
    push_pending_ranks(alloc, &mut text, run)?;
    push_key(alloc, &mut text, "],", "verdict", ":")?;
    push_verdict(alloc, &mut text, run.graph.verdict())?;
    text.push_str("}\n")?;
    Ok(text)
}
