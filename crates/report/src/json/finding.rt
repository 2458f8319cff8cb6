//! Findings as JSON.

ghost use Rattle.std.specs.Prelude.{◌≡◌, ◌++◌, IfOk, OnOk, string_bytes};
ghost use Rattle.std.specs.List.{join_with_byte};
ghost use Rattle.serde_json.specs.View.{view};
ghost use Rattle.mpicall.specs.Spelling.{space};
ghost use Rattle.report.specs.inner.ArrayTexts.{elements_text};
ghost use Rattle.report.specs.FindingTexts.{finding_fields};
ghost use Rattle.report.specs.JsonReport.{finding_data};

use crate::finding::push_finding;
use crate::json::element::push_element;
use findings::finding::Finding;
use mpicall::page::Page;
use serde_json::Value;
use std::alloc::{AllocError, Global};

/// The fields of a finding, with one space between them.
fn finding_text(alloc: Global, finding: &Finding) -> Result<String, AllocError>
    ensures { IfOk result (λ text. string_bytes text ≡ join_with_byte space (finding_fields finding.now)) }
{
    let mut page = Page::new();
    push_finding(&mut page, finding);
    String::from_str(alloc, page.as_str())
}

fn finding_value(alloc: Global, finding: &Finding) -> Result<Value, AllocError>
    ensures { IfOk result (λ value. view value ≡ finding_data finding.now) }
{
    Ok(Value::from(finding_text(alloc, finding)?))
}

/// Puts the findings after the text, as the elements of an array, one at a time.
pub(crate) fn push_findings(
    alloc: Global,
    text: &mut String,
    findings: &[Finding],
) -> Result<(), AllocError>
    ensures { OnOk result (string_bytes text.new ≡ string_bytes text.old ++ elements_text finding_data findings.now) }
{
    for (index, finding) in findings.iter().enumerate() {
        let value = finding_value(alloc, finding)?;
        push_element(alloc, text, index, &value)?;
    }
    Ok(())
}
