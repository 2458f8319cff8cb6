//! Stuck ranks as JSON.

ghost use Rattle.std.specs.Prelude.{◌≡◌, ◌++◌, IfOk, OnOk, string_bytes};
ghost use Rattle.std.specs.List.{join_with_byte};
ghost use Rattle.serde_json.specs.View.{view};
ghost use Rattle.mpicall.specs.Spelling.{space, fields_of};
ghost use Rattle.waitgraph.specs.Graphs.{IsGraphOf};
ghost use Rattle.report.specs.inner.ArrayTexts.{elements_text};
ghost use Rattle.report.specs.JsonReport.{rank_data};
ghost use Rattle.waitgraph.specs.Stuck.{stuck_of, unmet_of};
ghost use Rattle.report.specs.TextReport.{present_fields};

use crate::json::element::push_element;
use crate::json::need::needs_value;
use crate::stand::stand_of;
use moves::analyser::Analyser;
use moves::need::Need;
use mpicall::page::Page;
use mpicall::record::Record;
use serde_json::{Value, json};
use std::alloc::{AllocError, Global};
use waitgraph::graph::Graph;

/// The fields of a record, with one space between them.
fn record_text(alloc: Global, record: &Record) -> Result<String, AllocError>
    ensures { IfOk result (λ text. string_bytes text ≡ join_with_byte space (fields_of record.now)) }
{
    let mut page = Page::new();
    page.push_call(record.as_call());
    String::from_str(alloc, page.as_str())
}

/// The call at which a rank stands; no text where its list is at its end.
fn present_text(alloc: Global, analyser: &Analyser, rank: u16) -> Result<String, AllocError>
    ensures { IfOk result (λ text. string_bytes text ≡ join_with_byte space (present_fields analyser.now.reading analyser.now.groups analyser.now.recording rank)) }
{
    match analyser.record(rank, stand_of(analyser, rank)) {
        Some(record) => record_text(alloc, &record),
        None => Ok(String::new(alloc)),
    }
}

/// A rank with its stand, its call there and its unmet needs.
pub(crate) fn rank_value(
    alloc: Global,
    analyser: &Analyser,
    rank: u16,
    needs: &[Need],
) -> Result<Value, AllocError>
    requires { needs.now ≡ unmet_of analyser.now.reading analyser.now.groups analyser.now.recording rank }
    ensures { IfOk result (λ value. view value ≡ rank_data analyser.now.reading analyser.now.groups analyser.now.recording rank) }
{
    let stand = stand_of(analyser, rank);
    let call = present_text(alloc, analyser, rank)?;
    let needs = needs_value(alloc, needs)?;
    json!(in alloc; {"at": stand, "call": call, "needs": needs, "rank": rank})
}

/// Puts the stuck ranks after the text, as the elements of an array. Each is written before the next is made,
/// so that values of one rank's needs alone are there at a time.
pub(crate) fn push_ranks(
    alloc: Global,
    text: &mut String,
    analyser: &Analyser,
    graph: &Graph,
) -> Result<(), AllocError>
    requires { IsGraphOf analyser.now.reading analyser.now.groups analyser.now.recording graph.now }
    ensures { OnOk result (string_bytes text.new ≡ string_bytes text.old ++ elements_text (rank_data analyser.now.reading analyser.now.groups analyser.now.recording) (stuck_of analyser.now.reading analyser.now.groups analyser.now.recording)) }
{
    let stuck = graph.stuck();
    for (index, rank) in stuck.iter().enumerate() {
        let value = rank_value(alloc, analyser, *rank, graph.unmet(*rank))?;
        push_element(alloc, text, index, &value)?;
    }
    Ok(())
}
