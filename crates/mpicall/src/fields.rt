//! The fields of a line's body: what lies between its single spaces.

ghost use Rattle.std.specs.Prelude.{◌≡◌, ◌≤◌, [], ◌∷◌, ◌==◌, None, Some, true, length, take, position, IfSome, MatchBool, MatchOption};
ghost use Rattle.mpicall.specs.Spelling.{space};
ghost use Rattle.mpicall.specs.Lines.{split_fields};
ghost use Rattle.mpicall.specs.inner.Lines.{is_empty};
ghost use Rattle.mpicall.specs.Argument.{NumberUpTo, Number};
ghost use Rattle.mpicall.specs.Parsing.{next_argument};

use crate::number::{has_leading_zero, read_front};
use std::marker::Model;

/// The fields that are still to come; contracts see their list.
#[derive(Clone, Drop)]
pub struct Fields<'a> {
    rest: Option<&'a [u8]>,
}

impl<'a> Model for Fields<'a> {
    ghost use Rattle.std.specs.Prelude.{List, ℕ};
    ghost use Rattle.mpicall.specs.inner.Lines.{split_some};

    ghost Value = { List (List ℕ) };

    ghost view = { λ f. split_some f.rest };
}

/// Where the first space of some bytes is, if they have one.
#[inline(always)]
fn space_at(bytes: &[u8]) -> Option<usize>
    ensures { result ≡ position (λ byte. byte == space) bytes.now }
{
    bytes.iter().position(|byte| *byte == b' ')
}

/// Whether some bytes begin with a word. Where the word is known when this is built, each of its bytes is one test.
#[inline(always)]
fn begin_with(bytes: &[u8], word: &[u8]) -> bool
    ensures long { result ≡ true → length word.now ≤ length bytes.now }
    ensures front { result ≡ true → take (length word.now) bytes.now ≡ word.now }
{
    if bytes.len() < word.len() {
        return false;
    }
    for at in 0..word.len() {
        if bytes[at] != word[at] {
            return false;
        }
    }
    true
}

impl<'a> Fields<'a> {
    /// The fields of a body, of which there is one at least.
    pub fn of(body: &'a [u8]) -> Fields<'a>
        ensures { result ≡ split_fields body.now }
    {
        Fields { rest: Some(body) }
    }

    /// A copy of the fields.
    pub(crate) fn again(&self) -> Fields<'a>
        ensures { result ≡ self.now }
    {
        Fields { rest: self.rest }
    }

    /// Whether all have come.
    #[inline(always)]
    #[tactic(auto, using(crate::proofs::FieldLemmas::some_field))]
    pub(crate) fn are_over(&self) -> bool
        ensures { result ≡ is_empty self.now }
    {
        match self.rest {
            Some(_) => false,
            None => true,
        }
    }

    /// The next field, which may have no bytes; None once all have come.
    #[inline(always)]
    #[tactic(auto, using(crate::proofs::FieldLemmas::field_steps))]
    pub fn next_field(&mut self) -> Option<&'a [u8]>
        ensures { MatchOption result ((self.old ≡ []) × (self.new ≡ [])) (λ field. self.old ≡ field.now ∷ self.new) }
    {
        let rest = self.rest?;
        match space_at(rest) {
            None => {
                self.rest = None;
                Some(rest)
            }
            Some(at) => {
                self.rest = Some(&rest[at + 1..]);
                Some(&rest[..at])
            }
        }
    }

    /// Takes the next field off where it is this word, which has no space, and others follow it; says whether it
    /// did. Else the fields stay as they are.
    #[inline(always)]
    pub(crate) fn take_word(&mut self, word: &[u8]) -> bool
        requires { position (λ byte. byte == space) word.now ≡ None }
        ensures { MatchBool result (self.old ≡ word.now ∷ self.new) (self.new ≡ self.old) }
    {
        let Some(rest) = self.rest else {
            return false;
        };
        if !begin_with(rest, word) || rest.len() == word.len() || rest[word.len()] != b' ' {
            return false;
        }
        self.rest = Some(&rest[word.len() + 1..]);
        true
    }

    /// The next field as a number, where it is a canonical one of at most `limit`. Else the fields stay as they are.
    #[inline(always)]
    pub(crate) fn next_canonical(&mut self, limit: u32) -> Option<u32>
        ensures value { MatchOption result (self.new ≡ self.old)
            (λ n. next_argument (NumberUpTo limit) self.old ≡ Some (Number limit n, self.new)) }
        ensures within { IfSome result (λ n. n ≤ limit) }
    {
        let rest = self.rest?;
        let front = read_front(limit, rest)?;
        if front.count == 0 || has_leading_zero(&rest[..front.count]) {
            return None;
        }
        if front.count < rest.len() {
            self.rest = Some(&rest[front.count + 1..]);
        } else {
            self.rest = None;
        }
        Some(front.number)
    }
}
