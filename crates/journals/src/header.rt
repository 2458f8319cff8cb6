//! The first line of a journal.
//!
//! It is read without memory; what is kept of it, the field that the journals of a run share, is copied once
//! it is known to be right.

ghost use Rattle.std.specs.Prelude.{◌≡◌, ◌≤◌, ◌-◌, None, Some, IfSome, MatchOption, option_and_then};
ghost use Rattle.journals.specs.Headers.{heading};
ghost use Rattle.mpicall.specs.Number.{number_up_to};
ghost use Rattle.journals.specs.Fields.{at_least_one};
ghost use Rattle.journals.specs.Header.{has_bytes, state_of, is_number, heading_of};

use crate::limits::MOST_RANKS;
use mpicall::fields::Fields;
use mpicall::number::read_number;

/// The first line of a journal, as far as it says something here.
#[derive(Clone, Copy)]
pub struct HeaderLine<'a> {
    pub ranks: u32,
    /// The field that the journals of one run share.
    pub run: &'a [u8],
    /// Whether the call of the last call line came back.
    pub is_outside: bool,
}

/// The header of a journal that is held.
#[derive(Drop)]
pub struct Header {
    pub(crate) ranks: u32,
    pub(crate) run: Vec<u8>,
    pub(crate) is_outside: bool,
    ghost some: { 1 ≤ ranks },
}

/// Whether the rank is outside the call of its last call line.
fn state_of(field: &[u8]) -> Option<bool>
    ensures { result ≡ state_of field.now }
{
    if field == b"o".as_slice() {
        return Some(true);
    }
    if field == b"i".as_slice() {
        return Some(false);
    }
    None
}

/// Whether some fields have a byte between them, a space among it.
fn have_bytes(mut fields: Fields<'_>) -> bool
    ensures { result ≡ has_bytes fields.entry }
{
    match fields.next_field() {
        None => false,
        Some(field) => !field.is_empty() || fields.next_field().is_some(),
    }
}

/// Whether a field is the number of this rank.
fn is_own(rank: u32, field: &[u8]) -> bool
    ensures { result ≡ is_number rank (number_up_to (MOST_RANKS - 1) field.now) }
{
    match read_number(MOST_RANKS - 1, field) {
        Some(number) => number == rank,
        None => false,
    }
}

/// A number of ranks.
fn ranks_of(field: &[u8]) -> Option<u32>
    ensures value { result ≡ option_and_then at_least_one (number_up_to MOST_RANKS field.now) }
    ensures some { IfSome result (λ ranks. 1 ≤ ranks) }
{
    let ranks = read_number(MOST_RANKS, field)?;
    if ranks == 0 {
        return None;
    }
    Some(ranks)
}

/// The header of this rank that a line spells, if it does.
#[tactic(auto, unfolding(crate::specs::Header::heading_of))]
pub fn read_header(rank: u32, line: &[u8]) -> Option<HeaderLine<'_>>
    ensures value { MatchOption result (heading_of rank line.now ≡ None)
        (λ header. heading_of rank line.now ≡ Some (heading header)) }
    ensures some { IfSome result (λ header. 1 ≤ header.ranks) }
{
    let mut fields = Fields::of(line);
    let word = fields.next_field()?;
    let version = fields.next_field()?;
    let own = fields.next_field()?;
    let ranks = fields.next_field()?;
    let run = fields.next_field()?;
    let state = fields.next_field()?;
    let is_header = word == b"journal".as_slice() && version == b"2".as_slice();
    if !is_header || !is_own(rank, own) || run.is_empty() || !have_bytes(fields) {
        return None;
    }
    let ranks = ranks_of(ranks)?;
    let is_outside = state_of(state)?;
    Some(HeaderLine {
        ranks,
        run,
        is_outside,
    })
}
