//! Held ranks and the calls of findings as JSON, where it is asked for them.

ghost use Rattle.std.specs.Prelude.{◌≡◌, ◌++◌, IfOk, OnOk, string_bytes};
ghost use Rattle.serde_json.specs.View.{view};
ghost use Rattle.report.specs.Judged.{call_data};
ghost use Rattle.report.specs.JsonReport.{each, numeral};
ghost use Rattle.report.specs.inner.ArrayTexts.{elements_text};
ghost use Rattle.report.specs.inner.HeldTexts.{finding_calls_text, held_text};

use crate::json::element::{push_element, push_key};
use crate::judged::{CallOf, HeldRanks};
use serde_json::{Value, json};
use std::alloc::{AllocError, Global};

fn call_value(alloc: Global, call: &CallOf) -> Result<Value, AllocError>
    ensures { IfOk result (λ value. view value ≡ call_data call.now) }
{
    json!(in alloc; [call.rank, call.place])
}

#[tactic(auto, using(crate::proofs::JsonLemmas::one_told))]
fn calls_value(alloc: Global, calls: &[CallOf]) -> Result<Value, AllocError>
    ensures { IfOk result (λ value. view value ≡ each call_data calls.now) }
{
    let mut list = Vec::new(alloc);
    for call in calls {
        list.push(call_value(alloc, call)?)?;
    }
    Ok(Value::from(list))
}

/// Puts the calls of each finding after the text, as the elements of an array.
fn push_calls(alloc: Global, text: &mut String, all: &[Vec<CallOf>]) -> Result<(), AllocError>
    ensures { OnOk result (string_bytes text.new ≡ string_bytes text.old ++ elements_text (λ calls. each call_data calls.items) all.now) }
{
    for (index, calls) in all.iter().enumerate() {
        let value = calls_value(alloc, calls.as_slice())?;
        push_element(alloc, text, index, &value)?;
    }
    Ok(())
}

/// Puts them after the text as a member of an object, which isn't the first, if it is asked for them.
pub(crate) fn push_finding_calls(
    alloc: Global,
    text: &mut String,
    held: Option<HeldRanks<'_>>,
) -> Result<(), AllocError>
    ensures { OnOk result (string_bytes text.new ≡ string_bytes text.old ++ finding_calls_text held.entry) }
{
    let Some(held) = held else {
        return Ok(());
    };
    push_key(alloc, text, ",", "finding_calls", ":[")?;
    push_calls(alloc, text, held.finding_calls)?;
    text.push_str("]")?;
    Ok(())
}

fn rank_value(alloc: Global, rank: u16) -> Result<Value, AllocError>
    ensures { IfOk result (λ value. view value ≡ numeral rank) }
{
    json!(in alloc; rank)
}

/// Puts ranks after the text, as the elements of an array.
fn push_ranks(alloc: Global, text: &mut String, ranks: &[u16]) -> Result<(), AllocError>
    ensures { OnOk result (string_bytes text.new ≡ string_bytes text.old ++ elements_text numeral ranks.now) }
{
    for (index, rank) in ranks.iter().enumerate() {
        let value = rank_value(alloc, *rank)?;
        push_element(alloc, text, index, &value)?;
    }
    Ok(())
}

/// Puts the held ranks after the elements of an array, whose end this puts before them, if it is asked for them.
pub(crate) fn push_held(
    alloc: Global,
    text: &mut String,
    held: Option<HeldRanks<'_>>,
) -> Result<(), AllocError>
    ensures { OnOk result (string_bytes text.new ≡ string_bytes text.old ++ held_text held.entry) }
{
    let Some(held) = held else {
        return Ok(());
    };
    push_key(alloc, text, "],", "held", ":[")?;
    push_ranks(alloc, text, held.ranks)
}
