//! What a line says: its word and its fields.
//!
//! A line's fields are read one after another by the forms of its word, straight to the end of the list of all
//! fields; those of words that come most often by code that is built for each. Where one doesn't fit, they are read
//! again, part by part: how many there are and whether there is a site decide whether the word can have so many, and
//! which fault is the first.

ghost use Rattle.std.specs.Prelude.{◌≡◌, ◌==◌, ◌≤◌, ◌<◌, ◌-◌, ◌&&◌, [], ◌∷◌, Some, true, if◌then◌else◌, length, MatchOption};
ghost use Rattle.std.specs.Option.{option_copied};
ghost use Rattle.journals.specs.Words.{forms_of, is_call, row_of};
ghost use Rattle.journals.specs.Lines.{begins_with_at, last_field, is_site, fields_of, line_of};
ghost use Rattle.journals.specs.inner.Taking.{fields_after_word, is_stopped, line_after_word, HasNoWord, HasWord, PutsAll, PutsFields, ReadsLine};
ghost use Rattle.journals.specs.inner.Texts.{IsNumber};
ghost use Rattle.journals.specs.declared.line.LineFault.TheVariants.{Memory};

use crate::fault::JournalFaultKind;
use crate::field::{Field, read_field, read_piece, read_positive};
use crate::form::{form_among, form_at, forms_of, takes_among, takes_count};
use crate::limits::MOST_LINE_BYTES;
use crate::texts::{Piece, Texts};
use crate::word::{CallWord, ReportWord, Word, word_of};
use mpicall::fields::Fields;
use std::alloc::{AllocError, AllocFailed};

/// Why no line was taken.
#[derive(Clone, Copy, PartialEq, Eq)]
pub enum LineFault {
    /// What is wrong with it.
    Journal(JournalFaultKind),
    /// There was no memory for what it says.
    Memory,
}

impl From<AllocError> for LineFault {
    ghost from_gives = { λ _ fault. fault ≡ Memory };

    fn from(_fault: AllocError) -> LineFault {
        LineFault::Memory
    }
}

impl<T: Drop> From<AllocFailed<T>> for LineFault {
    ghost from_gives = { λ _ fault. fault ≡ Memory };

    fn from(_fault: AllocFailed<T>) -> LineFault {
        LineFault::Memory
    }
}

/// How many fields there are, and the last one.
#[derive(Clone, Copy)]
struct Tail<'a> {
    count: usize,
    last: Option<&'a [u8]>,
}

fn tail_of(mut fields: Fields<'_>) -> Tail<'_>
    requires { length fields ≤ MOST_LINE_BYTES }
    ensures count { result.count ≡ length fields.entry }
    ensures last { option_copied result.last ≡ last_field fields.entry }
{
    let mut tail = Tail {
        count: 0,
        last: None,
    };
    while let Some(field) = fields.next_field() {
        tail = Tail {
            count: tail.count + 1,
            last: Some(field),
        };
    }
    tail
}

/// Whether a call line's last field is its site.
fn has_site(word: Word, last: Option<&[u8]>) -> bool
    ensures { result ≡ (is_call word && begins_with_at (option_copied last.entry)) }
{
    match (word, last) {
        (Word::Call(_), Some([first, ..])) => *first == b'@',
        _ => false,
    }
}

/// Whether a field is a site in its form and range.
fn is_site(field: Option<&[u8]>) -> bool
    ensures { result ≡ is_site (option_copied field.entry) }
{
    match field {
        Some([_, digits @ ..]) => read_positive(digits).is_some(),
        _ => false,
    }
}

/// Whether the site is in its form and range, if there is one.
fn site_fits(has_site: bool, last: Option<&[u8]>) -> bool
    ensures { result ≡ (if has_site then is_site (option_copied last.entry) else true) }
{
    if has_site { is_site(last) } else { true }
}

/// How many fields there are without the site.
fn count_without(count: usize, has_site: bool) -> usize
    ensures { result ≡ (if has_site then count - 1 else count) }
{
    if has_site {
        count.saturating_sub(1)
    } else {
        count
    }
}

/// The fields after the first one of a line.
fn after_word(line: &[u8]) -> Fields<'_>
    requires { length line.now < MOST_LINE_BYTES }
    ensures value { result ≡ fields_after_word line.now }
    ensures short { length result ≤ MOST_LINE_BYTES }
{
    let mut fields = Fields::of(line);
    let _ = fields.next_field();
    fields
}

/// Reads `count` fields by the forms of a word, and puts them at the end of a list.
fn push_fields(
    ranks: u32,
    word: Word,
    mut fields: Fields<'_>,
    count: usize,
    into: &mut Vec<Field>,
) -> Result<(), LineFault>
    requires some { 1 ≤ ranks }
    requires all { count ≤ length fields }
    requires fits { length (forms_of word count) ≡ count }
    ensures { PutsFields (fields_of ranks (forms_of word count) fields.entry)
        into.old.items into.new.items result }
{
    for place in 0..count {
        let Some(form) = form_at(word, place) else {
            return Err(LineFault::Journal(JournalFaultKind::FieldForm));
        };
        let Some(text) = fields.next_field() else {
            return Err(LineFault::Journal(JournalFaultKind::FieldForm));
        };
        let Some(field) = read_field(ranks, form, text) else {
            return Err(LineFault::Journal(JournalFaultKind::FieldForm));
        };
        into.push(field)?;
    }
    Ok(())
}

/// Reads the fields after a word part by part, so that the first fault is found, and puts them at the end of a list;
/// answers the word.
#[inline(never)]
fn push_by_parts(
    ranks: u32,
    word: Word,
    line: &[u8],
    into: &mut Vec<Field>,
) -> Result<Word, LineFault>
    requires some { 1 ≤ ranks }
    requires short { length line.now < MOST_LINE_BYTES }
    ensures { ReadsLine (line_after_word ranks word (fields_after_word line.now))
        into.old.items into.new.items result }
{
    let tail = tail_of(after_word(line));
    let has_site = has_site(word, tail.last);
    let count = count_without(tail.count, has_site);
    if !takes_count(word, count) {
        return Err(LineFault::Journal(JournalFaultKind::FieldCount));
    }
    if !site_fits(has_site, tail.last) {
        return Err(LineFault::Journal(JournalFaultKind::FieldForm));
    }
    match push_fields(ranks, word, after_word(line), count, into) {
        Ok(()) => Ok(word),
        Err(fault) => Err(fault),
    }
}

fn is_call(word: Word) -> bool
    ensures { result ≡ is_call word }
{
    matches!(word, Word::Call(_))
}

#[inline(always)]
fn begins_with_at(text: &[u8]) -> bool
    ensures { result ≡ begins_with_at (Some text.now) }
{
    match text {
        [first, ..] => *first == b'@',
        [] => false,
    }
}

/// Whether a text begins as a site does. A number doesn't.
#[inline(always)]
#[tactic(auto, using(crate::proofs::FieldLemmas::no_at))]
fn begins_site(piece: Piece<'_>) -> bool
    requires { IsNumber piece.text.now piece.number }
    ensures { result ≡ begins_with_at (Some piece.entry.text.now) }
{
    match piece.number {
        Some(_) => false,
        None => begins_with_at(piece.text),
    }
}

/// Whether a text that begins as a site does is that of a call line with so many fields before it, and none after it.
#[inline(never)]
fn ends_line(word: Word, place: usize, text: &[u8], mut rest: Texts<'_>) -> bool
    ensures over { result ≡ true → rest.entry ≡ [] }
    ensures call { result ≡ true → is_call word ≡ true }
    ensures takes { result ≡ true → (length (forms_of word place) == place) ≡ true }
    ensures site { result ≡ true → is_site (Some text.now) ≡ true }
{
    if rest.next_text().is_some() {
        return false;
    }
    is_call(word) && takes_count(word, place) && is_site(Some(text))
}

/// Reads all fields after a word by its forms, one after another, and puts them at the end of a list; says whether they
/// are those of a line. Else there may be any more fields in the list.
#[inline(always)]
fn push_all(
    ranks: u32,
    word: Word,
    mut fields: Texts<'_>,
    into: &mut Vec<Field>,
) -> Result<bool, LineFault>
    requires some { 1 ≤ ranks }
    requires short { length fields ≤ MOST_LINE_BYTES }
    ensures { PutsAll ranks word fields.entry into.old.items into.new.items result }
{
    let forms = forms_of(word);
    let mut place = 0;
    while let Some(piece) = fields.next_piece() {
        if begins_site(piece) {
            return Ok(ends_line(word, place, piece.text, fields));
        }
        let Some(form) = form_among(forms, word, place) else {
            return Ok(false);
        };
        let Some(it) = read_piece(ranks, form, piece) else {
            return Ok(false);
        };
        into.push(it)?;
        place += 1;
    }
    Ok(takes_among(forms, word, place))
}

/// Reads the fields after the word of a line, and puts them at the end of a list; answers the word.
#[inline(always)]
fn push_after_word(
    ranks: u32,
    word: Word,
    line: &[u8],
    fields: Texts<'_>,
    into: &mut Vec<Field>,
) -> Result<Word, LineFault>
    requires some { 1 ≤ ranks }
    requires short { length line.now < MOST_LINE_BYTES }
    requires few { length fields ≤ MOST_LINE_BYTES }
    requires after { fields ≡ fields_after_word line.now }
    ensures { ReadsLine (line_after_word ranks word (fields_after_word line.now))
        into.old.items into.new.items result }
{
    let start = into.len();
    if push_all(ranks, word, fields, into)? {
        return Ok(word);
    }
    into.truncate(start);
    push_by_parts(ranks, word, line, into)
}

/// Reads what comes after any word, by a function that isn't inlined.
#[inline(never)]
fn push_after_any(
    ranks: u32,
    word: Word,
    line: &[u8],
    fields: Texts<'_>,
    into: &mut Vec<Field>,
) -> Result<Word, LineFault>
    requires some { 1 ≤ ranks }
    requires short { length line.now < MOST_LINE_BYTES }
    requires few { length fields ≤ MOST_LINE_BYTES }
    requires after { fields ≡ fields_after_word line.now }
    ensures { ReadsLine (line_after_word ranks word (fields_after_word line.now))
        into.old.items into.new.items result }
{
    push_after_word(ranks, word, line, fields, into)
}

/// Reads what comes after a word. For each of those that come most often, code of its own is built.
#[inline(always)]
fn push_by_word(
    ranks: u32,
    word: Word,
    line: &[u8],
    fields: Texts<'_>,
    into: &mut Vec<Field>,
) -> Result<Word, LineFault>
    requires some { 1 ≤ ranks }
    requires short { length line.now < MOST_LINE_BYTES }
    requires few { length fields ≤ MOST_LINE_BYTES }
    requires after { fields ≡ fields_after_word line.now }
    ensures { ReadsLine (line_after_word ranks word (fields_after_word line.now))
        into.old.items into.new.items result }
{
    match word {
        Word::Call(CallWord::Isend) => {
            push_after_word(ranks, Word::Call(CallWord::Isend), line, fields, into)
        }
        Word::Call(CallWord::Irecv) => {
            push_after_word(ranks, Word::Call(CallWord::Irecv), line, fields, into)
        }
        Word::Call(CallWord::Wait) => {
            push_after_word(ranks, Word::Call(CallWord::Wait), line, fields, into)
        }
        Word::Call(CallWord::Recv) => {
            push_after_word(ranks, Word::Call(CallWord::Recv), line, fields, into)
        }
        Word::Report(ReportWord::Got) => {
            push_after_word(ranks, Word::Report(ReportWord::Got), line, fields, into)
        }
        Word::Report(ReportWord::Done) => {
            push_after_word(ranks, Word::Report(ReportWord::Done), line, fields, into)
        }
        _ => push_after_any(ranks, word, line, fields, into),
    }
}

/// Whether what follows a word says nothing.
fn is_stopped(word: Word) -> bool
    ensures { result ≡ is_stopped word }
{
    matches!(word, Word::Call(CallWord::Stopped))
}

/// Takes the first text off where it is a word that comes most often and others follow it; answers the word. Else the
/// texts stay as they are.
#[inline(always)]
fn next_often(texts: &mut Texts<'_>) -> Option<Word>
    ensures { MatchOption result (texts.new ≡ texts.old) (λ word. texts.old ≡ (row_of word).text ∷ texts.new) }
{
    if texts.take_word(b"isend") {
        return Some(Word::Call(CallWord::Isend));
    }
    if texts.take_word(b"irecv") {
        return Some(Word::Call(CallWord::Irecv));
    }
    if texts.take_word(b"wait") {
        return Some(Word::Call(CallWord::Wait));
    }
    if texts.take_word(b"recv") {
        return Some(Word::Call(CallWord::Recv));
    }
    if texts.take_word(b"=got") {
        return Some(Word::Report(ReportWord::Got));
    }
    if texts.take_word(b"=done") {
        return Some(Word::Report(ReportWord::Done));
    }
    None
}

/// Takes the first text off; answers the word that it is, if it is one.
#[inline(never)]
fn next_any(texts: &mut Texts<'_>) -> Option<Word>
    ensures { MatchOption result (HasNoWord texts.old) (λ word. HasWord word texts.old texts.new) }
{
    let Some(text) = texts.next_text() else {
        return None;
    };
    word_of(text)
}

/// Takes the first text off; answers the word that it is, if it is one. Those that come most often are tried first.
#[inline(always)]
fn next_word(texts: &mut Texts<'_>) -> Option<Word>
    ensures { MatchOption result (HasNoWord texts.old) (λ word. HasWord word texts.old texts.new) }
{
    if let Some(word) = next_often(texts) {
        return Some(word);
    }
    next_any(texts)
}

/// Reads a line, without its line feed, of a run of so many ranks: its word, and its fields, which are put at
/// the end of a list.
#[inline(never)]
pub(crate) fn read_line(ranks: u32, line: &[u8], into: &mut Vec<Field>) -> Result<Word, LineFault>
    requires some { 1 ≤ ranks }
    requires short { length line.now < MOST_LINE_BYTES }
    ensures { ReadsLine (line_of ranks line.now) into.old.items into.new.items result }
{
    let mut fields = Texts::of(line);
    let Some(word) = next_word(&mut fields) else {
        return Err(LineFault::Journal(JournalFaultKind::UnknownWord));
    };
    if is_stopped(word) {
        return Ok(word);
    }
    push_by_word(ranks, word, line, fields, into)
}
