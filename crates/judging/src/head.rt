//! The head of the recording of journals, as text.

ghost use Rattle.std.specs.Prelude.{◌≡◌, ◌∷◌, ◌++◌, codes, string_bytes, IfOk, OnOk};
ghost use Rattle.std.specs.Fmt.{decimal};
ghost use Rattle.mpicall.specs.Spelling.{space};
ghost use Rattle.closing.specs.Groups.{groups_in};
ghost use Rattle.closing.specs.Texts.{line_with};
ghost use Rattle.judging.specs.inner.Heads.{head_of};

use closing::numbers::Communicators;
use mpicall::page::Page;
use std::alloc::{AllocError, Global};

/// Puts a number as a further field.
fn push_number(text: &mut String, number: u32) -> Result<(), AllocError>
    ensures { OnOk result (string_bytes text.new ≡ string_bytes text.old ++ space ∷ decimal number) }
{
    let mut page = Page::new();
    page.push_number(number);
    text.push_str(page.as_str())
}

/// Puts the line of a group.
fn push_group(text: &mut String, group: &[u32]) -> Result<(), AllocError>
    ensures { OnOk result (string_bytes text.new ≡ string_bytes text.old ++ line_with (codes "comm") group.now) }
{
    text.push_str("comm")?;
    for member in group {
        push_number(text, *member)?;
    }
    text.push_str("\n")
}

/// The text of the head of a run of so many ranks with these communicators.
pub(crate) fn head_text(
    alloc: Global,
    ranks: u16,
    run: &Communicators,
) -> Result<String, AllocError>
    ensures { IfOk result (λ text. string_bytes text ≡ head_of ranks (groups_in run.now)) }
{
    let mut text = String::from_str(alloc, "ranks")?;
    push_number(&mut text, u32::from(ranks))?;
    text.push_str("\n")?;
    for number in 1..run.count() {
        push_group(&mut text, run.group(number))?;
    }
    Ok(text)
}
