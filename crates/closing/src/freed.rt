//! The requests that a rank's program frees, and where its list starts them.

ghost use Rattle.std.specs.Prelude.{◌≡◌, ◌==◌, ◌||◌, ℕ, false, nat_eq, option_map, IfOk, OnOk, if◌then◌else◌};
ghost use Rattle.std.specs.List.{list_any};
ghost use Rattle.std.specs.HashSet.{contains};
ghost use Rattle.mpicall.specs.Word.{or_else};
ghost use Rattle.closing.specs.Entries.{lines_in};
ghost use Rattle.closing.specs.Entry.{matched_message};
ghost use Rattle.closing.specs.Freed.{freed, is_freed};
ghost use Rattle.closing.specs.Journals.{journal_in};
ghost use Rattle.closing.specs.Steps.{Own};
ghost use Rattle.closing.specs.inner.FreedIds.{freed_at, matched_at};
ghost use Rattle.closing.specs.inner.Lists.{has_id, has_place};
ghost use Rattle.closing.specs.inner.Noted.{HavePlaces};
ghost use Rattle.closing.specs.inner.Standings.{id_in, message_for};

use crate::called::{Called, read_call};
use crate::places::count_of;
use crate::standing::Standing;
use journals::field::Field;
use journals::journal::Journal;
use journals::lines::Lines;
use journals::word::{CallWord, Word};
use std::alloc::{AllocError, Global};
use std::collections::HashSet;

/// The requests that a rank's program frees, and where its list starts them.
#[derive(Drop)]
pub(crate) struct Freed {
    /// What stands for the requests in the trace.
    ids: HashSet<u32>,
    /// The places of the records that start them.
    places: HashSet<u32>,
}

/// The request that a line frees.
fn freed_by(lines: &Lines, line: u32) -> Option<u32>
    ensures { result ≡ freed_at lines.now line }
{
    let Some(Word::Call(CallWord::RequestFree)) = lines.word(line) else {
        return None;
    };
    match lines.fields(line) {
        [Field::Natural(request)] => Some(request.get()),
        _ => None,
    }
}

/// The requests that some lines free. In most journals none does.
#[tactic(auto, using(crate::proofs::FreedIds::none_freed, crate::proofs::FreedIds::freed_some, crate::proofs::FreedIds::freed_none, crate::proofs::FreedIds::freed_all))]
fn freed_in(alloc: Global, lines: &Lines) -> Result<Vec<u32>, AllocError>
    ensures { IfOk result (λ requests. HavePlaces lines.now → requests.items ≡ freed lines.now) }
{
    let mut requests = Vec::new(alloc);
    if !lines.have_free() {
        return Ok(requests);
    }
    for line in 0..count_of(lines) {
        if let Some(request) = freed_by(lines, line) {
            requests.push(request)?;
        }
    }
    Ok(requests)
}

/// Takes the line at a place, where that is a started matched receive.
fn take_matched(matched: &mut Standing, lines: &Lines, line: u32) -> Result<(), AllocError>
    ensures { OnOk result ((request : ℕ) → message_for matched.new request ≡ or_else (message_for matched.old request) (matched_at lines.now line request)) }
{
    let Some(Word::Call(word)) = lines.word(line) else {
        return Ok(());
    };
    if let Called::StartsMatched(request, message) = read_call(word, lines.fields(line)) {
        matched.take_matched(request, message)?;
    }
    Ok(())
}

/// The messages that the requests of started matched receives take.
fn matched_in(alloc: Global, lines: &Lines) -> Result<Standing, AllocError>
    ensures { IfOk result (λ matched. HavePlaces lines.now → (request : ℕ) → message_for matched request ≡ matched_message lines.now request) }
{
    let mut matched = Standing::empty(alloc);
    for line in 0..count_of(lines) {
        take_matched(&mut matched, lines, line)?;
    }
    Ok(matched)
}

/// What stands for some requests in the trace.
#[tactic(auto, using(crate::proofs::FreedIds::ids_all))]
fn ids_of(alloc: Global, matched: &Standing, requests: &[u32]) -> Result<HashSet<u32>, AllocError>
    ensures { IfOk result (λ ids. (id : ℕ) → contains nat_eq ids id ≡ list_any (λ request. id_in matched.now request == id) requests.now) }
{
    let mut ids = HashSet::new(alloc);
    for request in requests {
        ids.insert(matched.id_of(*request))?;
    }
    Ok(ids)
}

/// What stands for the requests that some lines free.
#[tactic(auto, using(crate::proofs::FreedIds::none_are))]
fn freed_ids(alloc: Global, lines: &Lines) -> Result<HashSet<u32>, AllocError>
    ensures { IfOk result (λ ids. HavePlaces lines.now → (id : ℕ) → contains nat_eq ids id ≡ is_freed lines.now (Own id)) }
{
    let requests = freed_in(alloc, lines)?;
    if requests.is_empty() {
        return Ok(HashSet::new(alloc));
    }
    let matched = matched_in(alloc, lines)?;
    ids_of(alloc, &matched, requests.as_slice())
}

/// What stands for the requests that a rank with this journal frees, if it has one.
#[tactic(auto, using(crate::proofs::FreedIds::none_has))]
fn ids_in(alloc: Global, journal: Option<&Journal>) -> Result<HashSet<u32>, AllocError>
    ensures { IfOk result (λ ids. HavePlaces (lines_in (option_map (λ one. journal_in one.now) journal.entry)) →
        (id : ℕ) → contains nat_eq ids id ≡ is_freed (lines_in (option_map (λ one. journal_in one.now) journal.entry)) (Own id)) }
{
    match journal {
        Some(journal) => freed_ids(alloc, &journal.lines),
        None => Ok(HashSet::new(alloc)),
    }
}

impl Freed {
    /// Those of a rank with this journal, if it has one. Its list starts none so far.
    #[tactic(auto, using(crate::proofs::FreedIds::none_has))]
    pub(crate) fn of(alloc: Global, journal: Option<&Journal>) -> Result<Freed, AllocError>
        ensures ids { IfOk result (λ it. HavePlaces (lines_in (option_map (λ one. journal_in one.now) journal.entry)) →
            (id : ℕ) → has_id it id ≡ is_freed (lines_in (option_map (λ one. journal_in one.now) journal.entry)) (Own id)) }
        ensures places { IfOk result (λ it. (place : ℕ) → has_place it place ≡ false) }
    {
        let ids = ids_in(alloc, journal)?;
        Ok(Freed {
            ids,
            places: HashSet::new(alloc),
        })
    }

    /// Whether this stands for one of them. Most programs free none.
    #[tactic(auto, using(crate::proofs::FreedIds::none_among_none))]
    fn has_id(&self, id: u32) -> bool
        ensures { result ≡ has_id self.now id }
    {
        !self.ids.is_empty() && self.ids.contains(&id)
    }

    /// The record at a place starts what this stands for.
    pub(crate) fn take_start(&mut self, id: u32, place: u32) -> Result<(), AllocError>
        ensures ids { OnOk result (self.new.ids ≡ self.old.ids) }
        ensures places { OnOk result ((other : ℕ) → has_place self.new other ≡ (if place == other then (has_id self.old id || has_place self.old other) else has_place self.old other)) }
    {
        if self.has_id(id) {
            self.places.insert(place)?;
        }
        Ok(())
    }

    /// Whether the record at a place starts one of them.
    pub(crate) fn is_started_at(&self, place: u32) -> bool
        ensures { result ≡ has_place self.now place }
    {
        self.places.contains(&place)
    }
}
