//! The lines of a head: where one ends, and what it says.

ghost use Rattle.std.specs.Prelude.{◌≡◌, [], ◌∷◌, ◌==◌, ◌≤◌, ◌<◌, position, MatchOption, IfOk, IfErr, Ok, codes, length, ◌&&◌, if◌then◌else◌};
ghost use Rattle.std.specs.List.{list_all};
ghost use Rattle.mpicall.specs.Spelling.{line_feed};
ghost use Rattle.mpicall.specs.Number.{is_canonical};
ghost use Rattle.mpigroup.specs.Codes.{IsHeadFaultOf};
ghost use Rattle.mpicall.specs.Lines.{lines_of};
ghost use Rattle.mpigroup.specs.HeadText.{is_head_line, ranks_of_fields, ranks_of_line, group_of_fields, group_of_line, at_line};
ghost use Rattle.mpigroup.specs.inner.Places.{new_member};
ghost use Rattle.mpigroup.specs.declared.fault.HeadFaultKind.TheVariants.{Group as GroupFault, CommLine};

use crate::fault::{HeadFaultKind, ReadFault};
use crate::group::{Group, NO_PLACE};
use crate::limits::{MOST_COMMS, MOST_HEAD_LINE_BYTES, MOST_RANKS};
use mpicall::fields::Fields;
use mpicall::number::{is_canonical, read_number};
use std::alloc::Global;

/// Where the first line feed of a text is, if it has one.
fn line_feed_at(text: &[u8]) -> Option<usize>
    ensures { result ≡ position (λ byte. byte == line_feed) text.now }
{
    text.iter().position(|byte| *byte == b'\n')
}

/// The first line of a text, with its line feed if it has one, and what follows it; None for a
/// text without bytes.
#[tactic(auto, using(crate::proofs::LineLemmas::line_steps))]
pub(crate) fn split_line(text: &[u8]) -> Option<(&[u8], &[u8])>
    ensures { MatchOption result
        (lines_of text.now ≡ [])
        (λ parts. lines_of text.now ≡ parts.0.now ∷ lines_of parts.1.now) }
{
    if text.is_empty() {
        return None;
    }
    match line_feed_at(text) {
        Some(at) => Some(text.split_at(at + 1)),
        None => Some(text.split_at(text.len())),
    }
}

/// Whether a line isn't too long, and ends with its line feed.
fn is_head_line(line: &[u8]) -> bool
    ensures { result ≡ is_head_line line.now }
{
    line.len() <= MOST_HEAD_LINE_BYTES && !line.is_empty() && line[line.len() - 1] == b'\n'
}

/// The number of ranks that the fields of the first line give.
#[tactic(auto, unfolding(crate::specs::HeadText::ranks_of_fields, mpicall::specs::Number::number_up_to))]
fn read_fields(mut fields: Fields<'_>) -> Result<u16, HeadFaultKind>
    ensures value { result ≡ ranks_of_fields fields.entry }
    ensures range { IfOk result (λ ranks. (1 ≤ ranks) × (ranks ≤ MOST_RANKS)) }
{
    let word = fields.next_field().ok_or(HeadFaultKind::FirstLine)?;
    let number = fields.next_field().ok_or(HeadFaultKind::FirstLine)?;
    let is_end = fields.next_field().is_none();
    if !is_end || word != b"ranks".as_slice() || !is_canonical(number) {
        return Err(HeadFaultKind::FirstLine);
    }
    match read_number(u32::from(MOST_RANKS), number) {
        Some(ranks) if ranks > 0 => Ok(ranks as u16),
        _ => Err(HeadFaultKind::RankCount),
    }
}

/// The number of ranks that the first line gives.
pub(crate) fn read_ranks(line: &[u8]) -> Result<u16, HeadFaultKind>
    ensures value { result ≡ ranks_of_line line.now }
    ensures range { IfOk result (λ ranks. (1 ≤ ranks) × (ranks ≤ MOST_RANKS)) }
{
    if !is_head_line(line) {
        return Err(HeadFaultKind::LineForm);
    }
    read_fields(Fields::of(&line[..line.len() - 1]))
}

/// Whether all of the fields are canonical numbers.
fn are_canonical(mut fields: Fields<'_>) -> bool
    ensures { result ≡ list_all is_canonical fields.entry }
{
    while let Some(field) = fields.next_field() {
        if !is_canonical(field) {
            return false;
        }
    }
    true
}

/// What is wrong with a line, by its numbers from the first on that names no new member: one of them isn't
/// canonical, or else they are no group.
fn group_fault(number: &[u8], behind: Fields<'_>) -> HeadFaultKind
    ensures { result ≡ (if is_canonical number.now && list_all is_canonical behind.entry then GroupFault else CommLine) }
{
    if is_canonical(number) && are_canonical(behind) {
        HeadFaultKind::Group
    } else {
        HeadFaultKind::CommLine
    }
}

/// The rank that a field names, if it is a canonical number and names a rank that has no place yet.
#[tactic(auto, unfolding(mpicall::specs::Number::number_up_to))]
fn new_member(places: &[u16], field: &[u8]) -> Option<u16>
    requires some { 1 ≤ length places.now }
    requires few { length places.now ≤ MOST_RANKS }
    ensures { result ≡ new_member places.now field.now }
{
    let member = read_number(places.len() as u32 - 1, field)? as u16;
    if places[usize::from(member)] == NO_PLACE {
        Some(member)
    } else {
        None
    }
}

/// The group that some numbers give.
fn read_members(
    alloc: Global,
    ranks: u16,
    line: u32,
    mut numbers: Fields<'_>,
) -> Result<Group, ReadFault>
    requires some { 1 ≤ ranks }
    requires few { ranks ≤ MOST_RANKS }
    ensures ok { IfOk result (λ group. group_of_fields ranks (codes "comm" ∷ numbers.entry) ≡ Ok group) }
    ensures fault { IfErr result (IsHeadFaultOf (at_line line (group_of_fields ranks (codes "comm" ∷ numbers.entry)))) }
{
    let mut members = Vec::new(alloc);
    let mut places = vec![in alloc; NO_PLACE; usize::from(ranks)]?;
    while let Some(number) = numbers.next_field() {
        let Some(member) = new_member(&places, number) else {
            return Err(group_fault(number, numbers).at(line));
        };
        places[usize::from(member)] = members.len() as u16;
        members.push(member)?;
    }
    if members.is_empty() {
        return Err(HeadFaultKind::Group.at(line));
    }
    Ok(Group { members, places })
}

/// The group that a line after the first gives, by the line's number.
pub(crate) fn read_group(
    alloc: Global,
    ranks: u16,
    number: u32,
    line: &[u8],
) -> Result<Group, ReadFault>
    requires some { 1 ≤ ranks }
    requires few { ranks ≤ MOST_RANKS }
    ensures ok { IfOk result (λ group. group_of_line ranks number line.now ≡ Ok group) }
    ensures fault { IfErr result (IsHeadFaultOf (at_line number (group_of_line ranks number line.now))) }
{
    if number > u32::from(MOST_COMMS) {
        return Err(HeadFaultKind::TooManyComms.at(number));
    }
    if !is_head_line(line) {
        return Err(HeadFaultKind::LineForm.at(number));
    }
    let mut fields = Fields::of(&line[..line.len() - 1]);
    match fields.next_field() {
        Some(word) if word == b"comm".as_slice() => read_members(alloc, ranks, number, fields),
        _ => Err(HeadFaultKind::CommLine.at(number)),
    }
}
