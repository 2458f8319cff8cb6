//! Values as text, one after another.

ghost use Rattle.std.specs.Prelude.{◌≡◌, ◌++◌, false, nat_lt, OnOk, string_bytes};
ghost use Rattle.serde_json.specs.View.{view};
ghost use Rattle.serde_json.specs.Written.{comma_if, compact_text, has_float};
ghost use Rattle.report.specs.inner.ArrayTexts.{key_text};

use serde_json::{Value, json};
use std::alloc::{AllocError, Global};

/// Puts the value after the text.
pub(crate) fn push_value(alloc: Global, text: &mut String, value: &Value) -> Result<(), AllocError>
    requires { has_float (view value.now) ≡ false }
    ensures { OnOk result (string_bytes text.new ≡ string_bytes text.old ++ compact_text (view value.now)) }
{
    let written = value.to_string(alloc)?;
    text.push_str(written.as_str())?;
    Ok(())
}

/// Puts an element of an array after the text, by its index there: each but the first has a comma before it.
pub(crate) fn push_element(
    alloc: Global,
    text: &mut String,
    index: usize,
    value: &Value,
) -> Result<(), AllocError>
    requires { has_float (view value.now) ≡ false }
    ensures { OnOk result (string_bytes text.new ≡ string_bytes text.old ++ (comma_if (nat_lt 0 index) ++ compact_text (view value.now))) }
{
    if index > 0 {
        text.push_str(",")?;
    }
    push_value(alloc, text, value)
}

/// Puts a key of an object after the text, with what comes before and after it.
pub(crate) fn push_key(
    alloc: Global,
    text: &mut String,
    before: &str,
    key: &str,
    behind: &str,
) -> Result<(), AllocError>
    ensures { OnOk result (string_bytes text.new ≡ string_bytes text.old ++ key_text before.now key.now behind.now) }
{
    let value = json!(in alloc; key)?;
    text.push_str(before)?;
    push_value(alloc, text, &value)?;
    text.push_str(behind)?;
    Ok(())
}
