//! Held ranks at their opens as JSON.

ghost use Rattle.std.specs.Prelude.{◌≡◌, ◌||◌, ◌∷◌, ◌++◌, flat_map, length, map, IfOk, OnOk, string_bytes};
ghost use Rattle.std.specs.List.{filter, join_with_byte, range_with_len};
ghost use Rattle.mpicall.specs.Spelling.{space};
ghost use Rattle.serde_json.specs.View.{view};
ghost use Rattle.waitgraph.specs.Pending.{view_of};
ghost use Rattle.report.specs.JsonReport.{each};
ghost use Rattle.report.specs.PendingReport.{item_text, pending_fields, pending_of, awaited_data, at_open_data, has_lines, data_of_rank};
ghost use Rattle.report.specs.inner.ArrayTexts.{elements_text};
ghost use Rattle.report.specs.inner.Opened.{TellsOf, opened_data};

use crate::json::element::push_element;
use crate::json::need::need_value;
use crate::json::rank::rank_value;
use crate::pending::PendingRun;
use crate::stand::{ranks_of, stand_of};
use crate::write::opened::{Opened, pending_of, pending_word, push_item};
use mpicall::page::Page;
use serde_json::{Value, json};
use std::alloc::{AllocError, Global};
use waitgraph::awaited::Awaited;
use waitgraph::pending::{Item, PendingCall};

/// Puts an item after the text, with a space before it.
fn add_item(text: &mut String, item: &Item) -> Result<(), AllocError>
    ensures { OnOk result (string_bytes text.new ≡ string_bytes text.old ++ space ∷ item_text item.now) }
{
    let mut page = Page::new();
    page.push_str(" ");
    push_item(&mut page, item);
    text.push_str(page.as_str())?;
    Ok(())
}

/// Puts the items after the text.
fn add_items(text: &mut String, items: &[Item]) -> Result<(), AllocError>
    ensures { OnOk result (string_bytes text.new ≡ string_bytes text.old ++ flat_map (λ one. space ∷ item_text one) items.now) }
{
    for item in items {
        add_item(text, item)?;
    }
    Ok(())
}

/// The fields of a pending call, with one space between them.
fn pending_text(alloc: Global, call: &PendingCall) -> Result<String, AllocError>
    ensures { IfOk result (λ text. string_bytes text ≡ join_with_byte space (pending_fields (view_of call.now))) }
{
    let mut text = String::from_str(alloc, pending_word(call))?;
    add_items(&mut text, call.items())?;
    Ok(text)
}

/// What is awaited: as a need, the rank, or nothing.
fn awaited_value(alloc: Global, one: &Awaited) -> Result<Value, AllocError>
    ensures { IfOk result (λ value. view value ≡ awaited_data one.now) }
{
    match *one {
        Awaited::Call(need) => need_value(alloc, &need),
        Awaited::Rank { rank } => json!(in alloc; [rank]),
        Awaited::Nobody => json!(in alloc; []),
    }
}

#[tactic(auto, using(crate::proofs::JsonLemmas::one_told))]
fn awaits_value(alloc: Global, awaits: &[Awaited]) -> Result<Value, AllocError>
    ensures { IfOk result (λ value. view value ≡ each awaited_data awaits.now) }
{
    let mut list = Vec::new(alloc);
    for one in awaits {
        list.push(awaited_value(alloc, one)?)?;
    }
    Ok(Value::from(list))
}

/// A rank at its open with its pending call and what it waits for.
fn opened_value(alloc: Global, opened: &Opened<'_>, awaits: &[Awaited]) -> Result<Value, AllocError>
    ensures { IfOk result (λ value. view value ≡ opened_data opened.now awaits.now) }
{
    let stand = stand_of(opened.analyser, opened.rank);
    let call = pending_text(alloc, opened.call)?;
    let needs = awaits_value(alloc, awaits)?;
    json!(in alloc; {"at": stand, "call": call, "needs": needs, "rank": opened.rank})
}

/// A rank at its open, by what the run has of its pending call and of what it waits for.
fn at_open_value(alloc: Global, run: &PendingRun<'_>, rank: u16) -> Result<Value, AllocError>
    ensures { IfOk result (λ value. view value ≡ at_open_data run.now.analyser.now.reading run.now.analyser.now.groups run.now.analyser.now.recording (pending_of (map view_of run.now.pending.now) rank) run.now.graph.now.at_open rank) }
{
    let unknown = PendingCall::Unknown;
    let opened = Opened {
        analyser: run.analyser,
        call: pending_of(run.pending, &unknown, rank),
        rank,
    };
    opened_value(alloc, &opened, run.graph.at_open(rank))
}

/// A rank that has lines.
fn value_of_rank(alloc: Global, run: &PendingRun<'_>, rank: u16) -> Result<Value, AllocError>
    requires { TellsOf run.now }
    ensures { IfOk result (λ value. view value ≡ data_of_rank run.now.analyser.now.reading run.now.analyser.now.groups run.now.analyser.now.recording (map view_of run.now.pending.now) run.now.graph.now.at_open rank) }
{
    let needs = run.graph.unmet(rank);
    if needs.is_empty() {
        at_open_value(alloc, run, rank)
    } else {
        rank_value(alloc, run.analyser, rank, needs)
    }
}

fn has_lines(run: &PendingRun<'_>, rank: u16) -> bool
    requires { TellsOf run.now }
    ensures { result ≡ has_lines run.now.analyser.now.reading run.now.analyser.now.groups run.now.analyser.now.recording run.now.graph.now.at_open rank }
{
    !run.graph.unmet(rank).is_empty() || !run.graph.at_open(rank).is_empty()
}

/// The ranks that have lines.
fn ranks_with_lines(alloc: Global, run: &PendingRun<'_>) -> Result<Vec<u16>, AllocError>
    requires { TellsOf run.now }
    ensures { IfOk result (λ ranks. ranks.items ≡ filter (has_lines run.now.analyser.now.reading run.now.analyser.now.groups run.now.analyser.now.recording run.now.graph.now.at_open) (range_with_len 0 (length run.now.analyser.now.recording))) }
{
    (0..ranks_of(run.analyser))
        .filter(|rank| has_lines(run, *rank))
        .collect(alloc)
}

/// Puts these ranks after the text, as the elements of an array.
fn push_these(
    alloc: Global,
    text: &mut String,
    run: &PendingRun<'_>,
    ranks: &[u16],
) -> Result<(), AllocError>
    requires { TellsOf run.now }
    ensures { OnOk result (string_bytes text.new ≡ string_bytes text.old ++ elements_text (data_of_rank run.now.analyser.now.reading run.now.analyser.now.groups run.now.analyser.now.recording (map view_of run.now.pending.now) run.now.graph.now.at_open) ranks.now) }
{
    for (index, rank) in ranks.iter().enumerate() {
        let value = value_of_rank(alloc, run, *rank)?;
        push_element(alloc, text, index, &value)?;
    }
    Ok(())
}

/// Puts the ranks that have lines after the text.
pub(crate) fn push_pending_ranks(
    alloc: Global,
    text: &mut String,
    run: &PendingRun<'_>,
) -> Result<(), AllocError>
    requires { TellsOf run.now }
    ensures { OnOk result (string_bytes text.new ≡ string_bytes text.old ++ elements_text (data_of_rank run.now.analyser.now.reading run.now.analyser.now.groups run.now.analyser.now.recording (map view_of run.now.pending.now) run.now.graph.now.at_open) (filter (has_lines run.now.analyser.now.reading run.now.analyser.now.groups run.now.analyser.now.recording run.now.graph.now.at_open) (range_with_len 0 (length run.now.analyser.now.recording)))) }
{
    let ranks = ranks_with_lines(alloc, run)?;
    push_these(alloc, text, run, &ranks)
}
