//! The first fault of the fields of a line that no record is read from.
//!
//! An empty field comes before other faults of fields, but it is looked for last: only a line that has some
//! fault can have one, so good lines are walked once.

ghost use Rattle.std.specs.Prelude.{◌≡◌, ◌≤◌, Some, false, length, take, drop};
ghost use Rattle.std.specs.List.{list_any};
ghost use Rattle.mpicall.specs.Line.{operation_forms, shape_of, shape_by, takes_count, is_any, source_by, source_place, wildcard_at, fault_of_fields};
ghost use Rattle.mpicall.specs.inner.Line.{fits_line};
ghost use Rattle.mpicall.specs.Lines.{is_blank};

use crate::call::Mode;
use crate::fault::LineFault;
use crate::fields::Fields;
use crate::limits::{MOST_LINE_BYTES, MOST_REQUESTS};
use crate::word::{Collective, Layout, Operation, Word, layout_of, word_of};

/// Whether a field has no bytes.
fn has_blank(mut fields: Fields<'_>) -> bool
    ensures { result ≡ list_any is_blank fields.entry }
{
    while let Some(field) = fields.next_field() {
        if field.is_empty() {
            return true;
        }
    }
    false
}

/// How many fields there are.
fn count(mut fields: Fields<'_>) -> usize
    requires { length fields ≤ MOST_LINE_BYTES }
    ensures { result ≡ length fields.entry }
{
    let mut count = 0;
    while fields.next_field().is_some() {
        count += 1;
    }
    count
}

/// How many fields an operation takes, where there are so many.
fn field_count(operation: Operation, count: usize) -> usize
    ensures { result ≡ length (operation_forms operation count) }
{
    match operation {
        Operation::Send(Mode::Standard) if count == 4 => 4,
        Operation::Send(_) | Operation::Recv => 3,
        Operation::Coll(
            Collective::Bcast | Collective::Gather | Collective::Scatter | Collective::Reduce,
        ) => 2,
        Operation::Coll(_) => 1,
    }
}

/// Whether so many fields may follow a name.
fn layout_takes(layout: Layout, count: usize) -> bool
    ensures { result ≡ takes_count (shape_by layout count) count }
{
    match layout {
        Layout::Nothing => count == 0,
        Layout::Message => count == 3,
        Layout::Exchange => count == 5 || count == 6,
        Layout::Request => count == 1,
        Layout::Requests => 1 <= count && count <= MOST_REQUESTS,
        Layout::Chosen => 2 <= count && count <= MOST_REQUESTS + 1,
        Layout::Copy => count == 2,
        Layout::Split => count == 4,
    }
}

/// Whether a word takes so many fields.
fn takes_count(word: Word, count: usize) -> bool
    ensures { result ≡ takes_count (shape_of word count) count }
{
    match word {
        Word::Blocking(operation) => count == field_count(operation, count),
        Word::Started(operation) => 1 <= count && count == 1 + field_count(operation, count - 1),
        Word::Named(name) => layout_takes(layout_of(name), count),
    }
}

fn is_any(field: &[u8]) -> bool
    ensures { result ≡ is_any field.now }
{
    field == b"any".as_slice()
}

/// How many fields of the layout come before its source; None where it has no source.
fn source_by(layout: Layout) -> Option<usize>
    ensures { result ≡ source_by layout }
{
    match layout {
        Layout::Message => Some(1),
        Layout::Exchange => Some(3),
        _ => None,
    }
}

/// How many fields come between the word and the source; None where a line with that word has no source.
fn source_place(word: Word) -> Option<usize>
    ensures { result ≡ source_place word }
{
    match word {
        Word::Blocking(Operation::Recv) => Some(1),
        Word::Started(Operation::Recv) => Some(2),
        Word::Named(name) => source_by(layout_of(name)),
        _ => None,
    }
}

/// Whether there is a next field, and it is a wildcard.
fn next_is_any(fields: &mut Fields<'_>) -> bool
    ensures value { result ≡ list_any is_any (take 1 fields.old) }
    ensures rest { fields.new ≡ drop 1 fields.old }
{
    match fields.next_field() {
        Some(field) => is_any(field),
        None => false,
    }
}

/// Leaves the next field out, if there is one.
fn skip(fields: &mut Fields<'_>)
    ensures { fields.new ≡ drop 1 fields.old }
{
    let _ = fields.next_field();
}

/// Whether one of two fields is a wildcard, after `place` others.
#[tactic(auto, using(crate::proofs::WildcardLemmas::wildcard_steps))]
fn has_wildcard(place: usize, mut fields: Fields<'_>) -> bool
    ensures { result ≡ wildcard_at (Some place) fields.entry }
{
    for _ in 0..place {
        skip(&mut fields);
    }
    next_is_any(&mut fields) || next_is_any(&mut fields)
}

/// The first fault of fields that don't fit.
#[tactic(auto, unfolding(crate::specs::inner::Line::fits_line, crate::specs::Line::fault_of_fields))]
pub(crate) fn fault_of_fields(mut fields: Fields<'_>) -> LineFault
    requires few { length fields ≤ MOST_LINE_BYTES }
    requires unfit { fits_line fields ≡ false }
    ensures { fault_of_fields fields.entry ≡ Some result }
{
    if has_blank(fields.again()) {
        return LineFault::EmptyField;
    }
    let Some(field) = fields.next_field() else {
        return LineFault::EmptyField;
    };
    let Some(word) = word_of(field) else {
        return LineFault::UnknownWord;
    };
    if !takes_count(word, count(fields.again())) {
        return LineFault::FieldCount;
    }
    match source_place(word) {
        Some(place) if has_wildcard(place, fields) => LineFault::Wildcard,
        _ => LineFault::FieldForm,
    }
}
