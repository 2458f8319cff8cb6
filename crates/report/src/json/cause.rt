//! Causes as JSON.

ghost use Rattle.std.specs.Prelude.{◌≡◌, map, IfOk};
ghost use Rattle.serde_json.specs.View.{view};
ghost use Rattle.waitgraph.specs.Causes.{view_of};
ghost use Rattle.report.specs.JsonReport.{each, numeral, cause_data};

use serde_json::{Value, json};
use std::alloc::{AllocError, Global};
use waitgraph::cause::Cause;

#[tactic(auto, using(crate::proofs::JsonLemmas::one_told))]
fn cycle_value(alloc: Global, ranks: &[u16]) -> Result<Value, AllocError>
    ensures { IfOk result (λ value. view value ≡ each numeral ranks.now) }
{
    let mut list = Vec::new(alloc);
    for rank in ranks {
        list.push(Value::from(*rank))?;
    }
    Ok(Value::from(list))
}

fn cause_value(alloc: Global, cause: &Cause) -> Result<Value, AllocError>
    ensures { IfOk result (λ value. view value ≡ cause_data (view_of cause.now)) }
{
    match cause {
        Cause::Cycle(ranks) => {
            let ranks = cycle_value(alloc, ranks.as_slice())?;
            json!(in alloc; {"cycle": ranks})
        }
        Cause::Missing { rank, peer } => json!(in alloc; {"missing": [*rank, *peer]}),
        Cause::Starved { rank } => json!(in alloc; {"starved": *rank}),
    }
}

#[tactic(auto, using(crate::proofs::JsonLemmas::one_told))]
pub(crate) fn causes_value(alloc: Global, causes: &[Cause]) -> Result<Value, AllocError>
    ensures { IfOk result (λ value. view value ≡ each cause_data (map view_of causes.now)) }
{
    let mut list = Vec::new(alloc);
    for cause in causes {
        list.push(cause_value(alloc, cause)?)?;
    }
    Ok(Value::from(list))
}
