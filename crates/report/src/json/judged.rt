//! What journals say in addition, as JSON.

ghost use Rattle.std.specs.Prelude.{◌≡◌, ◌++◌, IfOk, OnOk, string_bytes};
ghost use Rattle.serde_json.specs.View.{view};
ghost use Rattle.report.specs.inner.ArrayTexts.{elements_text};
ghost use Rattle.report.specs.Judged.{left_data, line_data};

use crate::json::element::push_element;
use crate::judged::{LeftAt, LineAt};
use serde_json::{Value, json};
use std::alloc::{AllocError, Global};

fn left_value(alloc: Global, left: &LeftAt) -> Result<Value, AllocError>
    ensures { IfOk result (λ value. view value ≡ left_data left.now) }
{
    json!(in alloc; [left.rank, left.line, left.why])
}

/// Adds the lists that ended before their ends to the text, as the elements of an array.
pub(crate) fn push_left(alloc: Global, text: &mut String, left: &[LeftAt]) -> Result<(), AllocError>
    ensures { OnOk result (string_bytes text.new ≡ string_bytes text.old ++ elements_text left_data left.now) }
{
    for (index, one) in left.iter().enumerate() {
        let value = left_value(alloc, one)?;
        push_element(alloc, text, index, &value)?;
    }
    Ok(())
}

fn line_value(alloc: Global, line: &LineAt) -> Result<Value, AllocError>
    ensures { IfOk result (λ value. view value ≡ line_data line.now) }
{
    json!(in alloc; [line.rank, line.place, line.line])
}

/// Adds the lines of calls to the text, as the elements of an array.
pub(crate) fn push_lines(
    alloc: Global,
    text: &mut String,
    lines: &[LineAt],
) -> Result<(), AllocError>
    ensures { OnOk result (string_bytes text.new ≡ string_bytes text.old ++ elements_text line_data lines.now) }
{
    for (index, one) in lines.iter().enumerate() {
        let value = line_value(alloc, one)?;
        push_element(alloc, text, index, &value)?;
    }
    Ok(())
}
