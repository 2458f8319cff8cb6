//! Unmet needs as JSON.

ghost use Rattle.std.specs.Prelude.{◌≡◌, IfOk};
ghost use Rattle.serde_json.specs.View.{view};
ghost use Rattle.report.specs.JsonReport.{each, need_data};

use moves::need::Need;
use serde_json::{Value, json};
use std::alloc::{AllocError, Global};

/// The rank, and the place of its call or null where it lacks the call.
pub(crate) fn need_value(alloc: Global, need: &Need) -> Result<Value, AllocError>
    ensures { IfOk result (λ value. view value ≡ need_data need.now) }
{
    match *need {
        Need::At { rank, place } => json!(in alloc; [rank, place]),
        Need::Lacking { rank } => json!(in alloc; [rank, null]),
    }
}

#[tactic(auto, using(crate::proofs::JsonLemmas::one_told))]
pub(crate) fn needs_value(alloc: Global, needs: &[Need]) -> Result<Value, AllocError>
    ensures { IfOk result (λ value. view value ≡ each need_data needs.now) }
{
    let mut list = Vec::new(alloc);
    for need in needs {
        list.push(need_value(alloc, need)?)?;
    }
    Ok(Value::from(list))
}
