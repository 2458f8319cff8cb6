//! What is known of communicators: for each that a line reported, that line.
//!
//! The line has its group, so nothing of a group is kept twice. The world and the rank alone are no lines and
//! need no entry.

ghost use Rattle.std.specs.Prelude.{◌≡◌, ◌<◌, ◌+◌, ◌&&◌, ◌||◌, not, option_map, length};
ghost use Rattle.std.specs.Str.{bytes_eq};
ghost use Rattle.journals.specs.Words.{forms_of};
ghost use Rattle.journals.specs.Entries.{is_comm, is_new_comm};
ghost use Rattle.journals.specs.inner.Naturals.{naturals, AreNatural};
ghost use Rattle.journals.specs.inner.Numbered.{numbered, numbered_from};
ghost use Rattle.journals.specs.inner.Places.{call_comm_place, comm_place};
ghost use Rattle.journals.specs.inner.Knows.{is_known, wrong_comm, group_fields, group_at, rest_of, first_natural, second_natural};

use crate::field::Field;
use crate::form::Form;
use crate::lines::Lines;
use crate::notes::number_at;
use crate::word::{CallWord, ReportWord, Word};
use std::collections::HashMap;

#[inline(always)]
fn knows_comm(comms: &HashMap<u32, u32>, comm: u32) -> bool
    ensures { result ≡ is_known comms.now comm }
{
    comm < 2 || comms.get(&comm).is_some()
}

/// Whether a communicator of this form is known and must not be, or isn't and must be.
#[inline(always)]
fn is_wrong(comms: &HashMap<u32, u32>, form: Form, comm: u32) -> bool
    ensures { result ≡ ((is_comm form && not (is_known comms.now comm))
        || (is_new_comm form && is_known comms.now comm)) }
{
    match form {
        Form::Comm => !knows_comm(comms, comm),
        Form::NewComm => knows_comm(comms, comm),
        _ => false,
    }
}

/// The place of the field by which a call line names a communicator, if it has one.
#[inline(always)]
fn call_comm_place(word: CallWord) -> Option<usize>
    ensures { result ≡ call_comm_place word }
{
    match word {
        CallWord::Init
        | CallWord::Finalize
        | CallWord::Abort
        | CallWord::Exit
        | CallWord::Full
        | CallWord::Stopped
        | CallWord::Cut
        | CallWord::Mrecv
        | CallWord::Imrecv
        | CallWord::Wait
        | CallWord::Test
        | CallWord::Waitany
        | CallWord::Waitsome
        | CallWord::Cancel
        | CallWord::RequestFree
        | CallWord::CommCreateGroup => None,
        CallWord::Isendrecv => Some(2),
        CallWord::Isend
        | CallWord::Issend
        | CallWord::Ibsend
        | CallWord::Irsend
        | CallWord::Irecv
        | CallWord::Mprobe
        | CallWord::Improbe
        | CallWord::Ibarrier
        | CallWord::Ibcast
        | CallWord::Igather
        | CallWord::Iscatter
        | CallWord::Ireduce
        | CallWord::Iallgather
        | CallWord::Ialltoall
        | CallWord::Iallreduce
        | CallWord::Iscan
        | CallWord::Iexscan
        | CallWord::CommIdup => Some(1),
        _ => Some(0),
    }
}

/// The place of the only field by which a line names or brings a communicator, if it has one.
#[inline(always)]
fn comm_place(word: Word) -> Option<usize>
    ensures { result ≡ comm_place word }
{
    match word {
        Word::Call(word) => call_comm_place(word),
        Word::Report(ReportWord::Comm | ReportWord::Idup | ReportWord::Apart) => Some(0),
        Word::Report(_) => None,
    }
}

/// Whether the number at a place is that of a communicator that is known and must not be, or isn't and must be.
#[inline(always)]
fn is_wrong_at(comms: &HashMap<u32, u32>, word: Word, fields: &[Field], place: usize) -> bool
    requires fits { length (forms_of word (length fields.now)) ≡ length fields.now }
    requires within { place < length fields.now }
    ensures { wrong_comm (is_known comms.now) (numbered_from word fields.now place)
        ≡ (result || wrong_comm (is_known comms.now) (numbered_from word fields.now (place + 1))) }
{
    match number_at(word, fields, place) {
        Some((form, comm)) => is_wrong(comms, form, comm),
        None => false,
    }
}

/// Whether the communicator that a line names is known, and that which it brings isn't.
#[inline(always)]
#[tactic(auto, using(crate::proofs::PlaceLemmas::no_comm, crate::proofs::PlaceLemmas::only_comm, crate::proofs::PlaceLemmas::past_comm, crate::proofs::PlaceLemmas::few_comm))]
pub(crate) fn knows_comms(comms: &HashMap<u32, u32>, word: Word, fields: &[Field]) -> bool
    requires { length (forms_of word (length fields.now)) ≡ length fields.now }
    ensures { result ≡ not (wrong_comm (is_known comms.now) (numbered word fields.now)) }
{
    match comm_place(word) {
        Some(place) if place < fields.len() => !is_wrong_at(comms, word, fields, place),
        _ => true,
    }
}

/// The fields of the group that a line has.
pub(crate) fn group_in(word: Word, fields: &[Field]) -> &[Field]
    ensures { result.now ≡ group_fields word fields.now }
{
    match word {
        Word::Call(CallWord::CommCreateGroup) => fields,
        Word::Report(ReportWord::Comm | ReportWord::Apart) => after_first(fields),
        Word::Report(ReportWord::Idup) => after_first(after_first(fields)),
        _ => &[],
    }
}

fn after_first(fields: &[Field]) -> &[Field]
    ensures { result.now ≡ rest_of fields.now }
{
    match fields {
        [_, rest @ ..] => rest,
        [] => &[],
    }
}

/// The group of a communicator that the line at a place reported.
pub(crate) fn group_at<'a>(lines: &'a Lines, line: Option<u32>) -> Option<&'a [Field]>
    ensures { option_map (λ group. naturals group.now) result ≡ group_at lines.now line }
{
    let line = line?;
    let word = lines.word(line)?;
    Some(group_in(word, lines.fields(line)))
}

/// The number that a line has first.
pub(crate) fn first_natural(fields: &[Field]) -> Option<u32>
    ensures { result ≡ first_natural fields.now }
{
    match fields {
        [Field::Natural(number), ..] => Some(number.get()),
        _ => None,
    }
}

/// The number that it has second.
pub(crate) fn second_natural(fields: &[Field]) -> Option<u32>
    ensures { result ≡ second_natural fields.now }
{
    match fields {
        [_, Field::Natural(number), ..] => Some(number.get()),
        _ => None,
    }
}

/// Whether two groups have the same ranks in the same order.
pub(crate) fn is_same_group(mut group: &[Field], mut other: &[Field]) -> bool
    requires group { AreNatural group.now }
    requires other { AreNatural other.now }
    ensures { result ≡ bytes_eq (naturals group.entry.now) (naturals other.entry.now) }
{
    while let [field, ranks @ ..] = group {
        let Field::Natural(rank) = *field else {
            return false;
        };
        let [other_field, others @ ..] = other else {
            return false;
        };
        let Field::Natural(other_rank) = *other_field else {
            return false;
        };
        if rank.get() != other_rank.get() {
            return false;
        }
        group = ranks;
        other = others;
    }
    other.is_empty()
}
