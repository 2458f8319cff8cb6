//! The fields of a whole line: a word, and what its shape wants after it.
//!
//! Words are compared one after the other: a `match` on byte strings leaves goals open for longer words.
//! The six words that come most often are tried first, byte by byte at the front of the line, before the
//! end of the field is known.

ghost use Rattle.std.specs.Prelude.{◌≡◌, ◌∷◌, true, false, length, MatchOption, MatchBool};
ghost use Rattle.mpicall.specs.inner.Parsing.{ReadsBehind, ReadsFields, requests_fit, SpellsRequests};
ghost use Rattle.mpicall.specs.inner.Line.{fits_line};
ghost use Rattle.mpicall.specs.Word.{text_of};
ghost use Rattle.mpicall.specs.declared.word.Name.TheVariants as name;
ghost use Rattle.mpicall.specs.declared.word.Word.TheVariants.{Named};

use crate::call::{Call, Mode};
use crate::fields::Fields;
use crate::limits::MOST_REQUESTS;
use crate::parsing::{
    next_number, next_request, read_args, read_blocking, read_started, read_wait,
};
use crate::reqs::Reqs;
use crate::word::{Name, Operation, Word, word_of};

/// Reads the requests that all the fields spell into one place, which holds one number before; says whether each field
/// is a request, and they are as many as one wait may name. Where not, the place may hold any numbers.
#[inline(always)]
fn read_requests(mut fields: Fields<'_>, reqs: &mut Reqs) -> bool
    requires { length reqs.old ≡ 1 }
    ensures { MatchBool result (SpellsRequests fields.entry reqs.new) (requests_fit fields.entry ≡ false) }
{
    let Some(first) = next_request(&mut fields) else {
        return false;
    };
    reqs.set_only(first);
    while !fields.are_over() {
        if reqs.is_full() {
            return false;
        }
        let Some(req) = next_request(&mut fields) else {
            return false;
        };
        reqs.push(req);
    }
    true
}

fn read_waitall(fields: Fields<'_>, into: &mut Call) -> bool
    ensures { ReadsBehind (Named name.Waitall) fields.entry result into.old into.new }
{
    let mut reqs = Reqs::of_one(0);
    if !read_requests(fields, &mut reqs) {
        return false;
    }
    *into = Call::Waitall { reqs };
    true
}

fn read_waitany(mut fields: Fields<'_>, into: &mut Call) -> bool
    ensures { ReadsBehind (Named name.Waitany) fields.entry result into.old into.new }
{
    let Some(chosen) = next_number(MOST_REQUESTS as u32 - 1, &mut fields) else {
        return false;
    };
    let mut reqs = Reqs::of_one(0);
    if !read_requests(fields, &mut reqs) {
        return false;
    }
    if chosen as usize >= reqs.count() {
        return false;
    }
    *into = Call::Waitany {
        chosen: chosen as u8,
        reqs,
    };
    true
}

/// Reads the call of a name and the fields after it.
fn read_named(name: Name, fields: Fields<'_>, into: &mut Call) -> bool
    ensures { ReadsBehind (Named name) fields.entry result into.old into.new }
{
    match name {
        Name::Waitall => read_waitall(fields, into),
        Name::Wait => read_wait(fields, into).is_some(),
        Name::Waitany => read_waitany(fields, into),
        _ => read_args(name, fields, into).is_some(),
    }
}

/// Reads the call of a word and the fields after it; says whether there is one, and else leaves the
/// place alone.
fn read_behind(word: Word, fields: Fields<'_>, into: &mut Call) -> bool
    ensures { ReadsBehind word fields.entry result into.old into.new }
{
    match word {
        Word::Blocking(operation) => read_blocking(operation, fields, into).is_some(),
        Word::Started(operation) => read_started(operation, fields, into).is_some(),
        Word::Named(name) => read_named(name, fields, into),
    }
}

/// Takes off the word of a call that comes often, where the fields begin with one and others follow it. It is
/// found by the first bytes, before the field's end is sought.
#[inline(always)]
fn next_often(fields: &mut Fields<'_>) -> Option<Word>
    ensures { MatchOption result (fields.new ≡ fields.old) (λ word. fields.old ≡ text_of word ∷ fields.new) }
{
    if fields.take_word(b"isend") {
        return Some(Word::Started(Operation::Send(Mode::Standard)));
    }
    if fields.take_word(b"irecv") {
        return Some(Word::Started(Operation::Recv));
    }
    if fields.take_word(b"send") {
        return Some(Word::Blocking(Operation::Send(Mode::Standard)));
    }
    if fields.take_word(b"recv") {
        return Some(Word::Blocking(Operation::Recv));
    }
    if fields.take_word(b"waitall") {
        return Some(Word::Named(Name::Waitall));
    }
    if fields.take_word(b"wait") {
        return Some(Word::Named(Name::Wait));
    }
    None
}

/// Takes the first field off; answers the word of the format that it is, if it is one.
#[inline(never)]
#[tactic(auto, unfolding(crate::specs::inner::Line::fits_line))]
fn next_any(fields: &mut Fields<'_>) -> Option<Word>
    ensures { MatchOption result (fits_line fields.old ≡ false) (λ word. fields.old ≡ text_of word ∷ fields.new) }
{
    let field = fields.next_field()?;
    word_of(field)
}

/// Takes the first field off; answers the word of the format that it is, if it is one. The most frequent words are
/// tried first.
#[inline(always)]
fn next_word(fields: &mut Fields<'_>) -> Option<Word>
    ensures { MatchOption result (fits_line fields.old ≡ false) (λ word. fields.old ≡ text_of word ∷ fields.new) }
{
    match next_often(fields) {
        Some(word) => Some(word),
        None => next_any(fields),
    }
}

/// Reads the call of the fields of a line, its word first; says whether there is one, and else leaves the
/// place alone.
pub(crate) fn read_fields(mut fields: Fields<'_>, into: &mut Call) -> bool
    ensures { ReadsFields fields.entry result into.old into.new }
{
    match next_word(&mut fields) {
        Some(word) => read_behind(word, fields, into),
        None => false,
    }
}
