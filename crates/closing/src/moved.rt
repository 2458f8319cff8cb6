//! The receives that go on in the journal after this one, by the lines that start them.

ghost use Rattle.std.specs.Prelude.{◌≡◌, Some, None, List, option_and_then, slice_get, if◌then◌else◌};
ghost use Rattle.journals.specs.Lines.{Line};
ghost use Rattle.closing.specs.Moved.{moved_at, moved_by, moved_in};
ghost use Rattle.closing.specs.Reported.{is_moved};
ghost use Rattle.closing.specs.inner.RequestReports.{Tells};
ghost use Rattle.closing.specs.inner.Views.{called_view};

use crate::called::{Awaited, Called, read_call};
use crate::outcomes::Outcomes;
use journals::field::Field;
use journals::lines::Lines;
use journals::word::Word;

/// The source and the tag of a receive, where its request is moved.
fn if_moved(outcomes: &Outcomes, request: u32, awaited: &Awaited) -> Option<(Field, Field)>
    ensures { (lines : List Line) → Tells lines outcomes.now →
        result ≡ (if is_moved lines request then Some (awaited.now.source, awaited.now.tag) else None) }
{
    if outcomes.is_moved(request) {
        Some((awaited.source, awaited.tag))
    } else {
        None
    }
}

/// Those of the receive that a call starts.
fn moved_by(outcomes: &Outcomes, it: &Called<'_>) -> Option<(Field, Field)>
    ensures { (lines : List Line) → Tells lines outcomes.now → result ≡ moved_by lines (called_view it.now) }
{
    match it {
        Called::StartsReceive(own, awaited) => if_moved(outcomes, *own, awaited),
        Called::StartsExchange(_, other, _, awaited) => if_moved(outcomes, *other, awaited),
        _ => None,
    }
}

fn moved_on(outcomes: &Outcomes, lines: &Lines, line: u32) -> Option<(Field, Field)>
    ensures { Tells lines.now outcomes.now →
        result ≡ option_and_then (λ it. moved_in lines.now it.word it.fields) (slice_get lines.now line) }
{
    match lines.word(line) {
        Some(Word::Call(word)) => moved_by(outcomes, &read_call(word, lines.fields(line))),
        _ => None,
    }
}

/// Those of the receive that the line with a number starts.
#[tactic(auto, using(crate::proofs::MovedLemmas::none_before, crate::proofs::MovedLemmas::moved_after))]
pub(crate) fn moved_at(outcomes: &Outcomes, lines: &Lines, number: u32) -> Option<(Field, Field)>
    ensures { Tells lines.now outcomes.now → result ≡ moved_at lines.now number }
{
    if number < 2 {
        return None;
    }
    moved_on(outcomes, lines, number - 2)
}
