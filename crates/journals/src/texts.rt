//! The texts of a line: what lies between its single spaces.
//!
//! Most are numbers, so a number is read as its text is found, in one pass over its digits.

ghost use Rattle.std.specs.Prelude.{◌≡◌, ◌≤◌, ◌==◌, [], ◌∷◌, None, true, length, take, position, IfSome, MatchBool, MatchOption};
ghost use Rattle.mpicall.specs.Number.{has_leading_zero};
ghost use Rattle.mpicall.specs.Spelling.{space};
ghost use Rattle.mpicall.specs.Lines.{split_fields};
ghost use Rattle.mpicall.specs.inner.Front.{IsFront};
ghost use Rattle.journals.specs.inner.Texts.{IsNumber};

use crate::limits::GREATEST;
use std::marker::Model;

/// The texts that are still to come; contracts see their list.
#[derive(Clone, Drop)]
pub(crate) struct Texts<'a> {
    rest: Option<&'a [u8]>,
}

impl<'a> Model for Texts<'a> {
    ghost use Rattle.std.specs.Prelude.{List, ℕ};
    ghost use Rattle.mpicall.specs.inner.Lines.{split_some};

    ghost Value = { List (List ℕ) };

    ghost view = { λ t. split_some t.rest };
}

/// A text, and the number that it spells, where that was read with it.
#[derive(Clone, Copy)]
pub(crate) struct Piece<'a> {
    pub text: &'a [u8],
    pub number: Option<u32>,
}

/// Decimal digits at the front of some bytes: how many there are, and the number that they write.
#[derive(Clone, Copy)]
struct Front {
    count: usize,
    number: u32,
}

/// The only digit before the first space of some bytes, or of all of them where there is no space.
#[inline(always)]
fn read_digit(bytes: &[u8]) -> Option<Front>
    ensures { IfSome result (λ front. IsFront GREATEST bytes.now front.count front.number) }
{
    if bytes.is_empty() || (bytes.len() > 1 && bytes[1] != b' ') {
        return None;
    }
    let digit = bytes[0];
    if !digit.is_ascii_digit() {
        return None;
    }
    Some(Front {
        count: 1,
        number: u32::from(digit) - 48,
    })
}

/// The digits before the first space of some bytes, or all of them where there is no space. None where another byte
/// comes first, or where they write a number above the greatest one.
#[inline(always)]
fn read_front(bytes: &[u8]) -> Option<Front>
    ensures { IfSome result (λ front. IsFront GREATEST bytes.now front.count front.number) }
{
    if let Some(front) = read_digit(bytes) {
        return Some(front);
    }
    let mut number: u64 = 0;
    for at in 0..bytes.len() {
        let byte = bytes[at];
        if !byte.is_ascii_digit() {
            if byte != b' ' {
                return None;
            }
            return Some(Front {
                count: at,
                number: number as u32,
            });
        }
        number = number * 10 + (u64::from(byte) - 48);
        if number > u64::from(GREATEST) {
            return None;
        }
    }
    Some(Front {
        count: bytes.len(),
        number: number as u32,
    })
}

/// Whether a text has a `0` before further bytes.
#[inline(always)]
fn has_leading_zero(text: &[u8]) -> bool
    ensures { result ≡ has_leading_zero text.now }
{
    text.len() > 1 && text[0] == b'0'
}

/// The place of the first space of some bytes, if they have one.
#[inline(always)]
fn space_at(bytes: &[u8]) -> Option<usize>
    ensures { result ≡ position (λ byte. byte == space) bytes.now }
{
    bytes.iter().position(|byte| *byte == b' ')
}

/// Whether some bytes begin with a word. Where the word is known when this is built, each of its bytes is one test.
#[inline(always)]
fn begin_with(bytes: &[u8], word: &[u8]) -> bool
    ensures long { result ≡ true → length word.now ≤ length bytes.now }
    ensures front { result ≡ true → take (length word.now) bytes.now ≡ word.now }
{
    if bytes.len() < word.len() {
        return false;
    }
    for at in 0..word.len() {
        if bytes[at] != word[at] {
            return false;
        }
    }
    true
}

impl<'a> Texts<'a> {
    /// The texts of a line, of which there is one at least.
    pub(crate) fn of(line: &'a [u8]) -> Texts<'a>
        ensures { result ≡ split_fields line.now }
    {
        Texts { rest: Some(line) }
    }

    /// The next text, which may have no bytes; None once all have come.
    #[inline(always)]
    #[tactic(auto, using(mpicall::proofs::FieldLemmas::field_steps))]
    pub(crate) fn next_text(&mut self) -> Option<&'a [u8]>
        ensures { MatchOption result ((self.old ≡ []) × (self.new ≡ [])) (λ text. self.old ≡ text.now ∷ self.new) }
    {
        let rest = self.rest?;
        match space_at(rest) {
            None => {
                self.rest = None;
                Some(rest)
            }
            Some(at) => {
                self.rest = Some(&rest[at + 1..]);
                Some(&rest[..at])
            }
        }
    }

    /// Takes the next text off where it is this word, which has no space, and others follow it; says whether it
    /// did. Else the texts stay as they are.
    #[inline(always)]
    pub(crate) fn take_word(&mut self, word: &[u8]) -> bool
        requires { position (λ byte. byte == space) word.now ≡ None }
        ensures { MatchBool result (self.old ≡ word.now ∷ self.new) (self.new ≡ self.old) }
    {
        let Some(rest) = self.rest else {
            return false;
        };
        if !begin_with(rest, word) || rest.len() == word.len() || rest[word.len()] != b' ' {
            return false;
        }
        self.rest = Some(&rest[word.len() + 1..]);
        true
    }

    /// The next text with its number, where it is a canonical one up to the greatest. Else the texts stay as they are.
    #[inline(always)]
    fn next_number(&mut self) -> Option<Piece<'a>>
        ensures { MatchOption result (self.new ≡ self.old)
            (λ piece. (self.old ≡ piece.text.now ∷ self.new) × IsNumber piece.text.now piece.number) }
    {
        let rest = self.rest?;
        let front = read_front(rest)?;
        if front.count == 0 || has_leading_zero(&rest[..front.count]) {
            return None;
        }
        let piece = Piece {
            text: &rest[..front.count],
            number: Some(front.number),
        };
        if front.count < rest.len() {
            self.rest = Some(&rest[front.count + 1..]);
            return Some(piece);
        }
        self.rest = None;
        Some(piece)
    }

    /// The next text, with its number where it is a canonical one up to the greatest; None once all have come.
    #[inline(always)]
    pub(crate) fn next_piece(&mut self) -> Option<Piece<'a>>
        ensures { MatchOption result ((self.old ≡ []) × (self.new ≡ []))
            (λ piece. (self.old ≡ piece.text.now ∷ self.new) × IsNumber piece.text.now piece.number) }
    {
        if let Some(piece) = self.next_number() {
            return Some(piece);
        }
        match self.next_text() {
            Some(text) => Some(Piece { text, number: None }),
            None => None,
        }
    }
}
