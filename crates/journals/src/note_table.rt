//! The notes of requests and messages, by their numbers.
//!
//! Most programs number them one after another, so a list has their notes in that order. A number that is far
//! beyond those before it has its note in a map.

ghost use Rattle.std.specs.Prelude.{◌≡◌, ◌==◌, ◌<◌, ℕ, None, Some, true, IfOk, MatchBool, OnOk, if◌then◌else◌, option_map};
ghost use Rattle.std.specs.Prelude.{nat_eq};
ghost use Rattle.std.specs.HashMap.{get};
ghost use Rattle.journals.specs.inner.Notes.{note_at, may_call, by_call, called_note, may_report, by_report, reported_note};

use crate::form::Form;
use crate::note::Note;
use crate::notes::{CallLine, ReportLine, may_call, may_report};
use std::alloc::{AllocError, Global};
use std::collections::HashMap;

/// The notes; a number has one note at most, and that in the list counts.
#[derive(Drop)]
pub(crate) struct Notes {
    near: Vec<Option<Note>>,
    far: HashMap<u32, Note>,
}

/// What a note is once a call line names its number, put in its place.
#[inline(always)]
fn call_in_place(held: &mut Option<Note>, call: CallLine<'_>)
    ensures { held.new ≡ option_map (called_note call.entry.word call.entry.fields.now call.entry.line) held.old }
{
    if let Some(note) = held {
        note.call(call.word, call.fields, call.line);
    }
}

/// What a note is once a report names its request, put in its place.
#[inline(always)]
fn report_in_place(held: &mut Option<Note>, report: ReportLine<'_>)
    ensures { held.new ≡ option_map (reported_note report.entry.word report.entry.line report.entry.completed) held.old }
{
    if let Some(note) = held {
        note.report(report.word, report.line, report.completed);
    }
}

impl Notes {
    /// No notes, in the room of a list.
    pub(crate) fn of_none(alloc: Global, mut near: Vec<Option<Note>>) -> Notes
        ensures { (number : ℕ) → note_at result number ≡ None }
    {
        near.clear();
        Notes {
            near,
            far: HashMap::new(alloc),
        }
    }

    /// The list, whose room others may use.
    pub(crate) fn into_list(self) -> Vec<Option<Note>> {
        let Notes { near, .. } = self;
        near
    }

    /// That of a number in the map, which most runs leave empty.
    #[inline(always)]
    #[tactic(auto, using(crate::proofs::NoteTable::none_of_none))]
    fn far(&self, number: u32) -> Option<Note>
        ensures { result ≡ get nat_eq self.now.far number }
    {
        if self.far.is_empty() {
            return None;
        }
        self.far.get(&number).copied()
    }

    /// The note of a number, if it has one.
    #[inline(always)]
    pub(crate) fn get(&self, number: u32) -> Option<Note>
        ensures { result ≡ note_at self.now number }
    {
        match self.near.get(number as usize).copied() {
            Some(Some(note)) => Some(note),
            _ => self.far(number),
        }
    }

    /// Has a place in the list for a number that comes next, or next but one.
    #[inline(always)]
    #[tactic(auto, using(crate::proofs::NoteTable::place_more))]
    fn make_room(&mut self, place: usize) -> Result<(), AllocError>
        ensures { OnOk result ((number : ℕ) → note_at self.new number ≡ note_at self.old number) }
    {
        let next = self.near.len();
        if place < next || place - next > 1 {
            return Ok(());
        }
        self.near.push(None)?;
        if place > next {
            self.near.push(None)?;
        }
        Ok(())
    }

    /// Notes that a call line names a number in a field of this form, where its note is in the list and the line may;
    /// says whether it did.
    #[inline(always)]
    #[tactic(auto, using(crate::proofs::NoteTable::named))]
    pub(crate) fn name_near(&mut self, call: CallLine<'_>, form: Form, number: u32) -> bool
        ensures { MatchBool result
            ((may_call call.entry.line form (note_at self.old number) ≡ true)
            × ((other : ℕ) → note_at self.new other
            ≡ (if number == other
            then by_call call.entry.word call.entry.fields.now call.entry.line number form
            (note_at self.old number)
            else note_at self.old other)))
            (self.new ≡ self.old) }
    {
        let place = number as usize;
        let Some(Some(note)) = self.near.get(place) else {
            return false;
        };
        if !may_call(call.line, form, Some(*note)) {
            return false;
        }
        call_in_place(&mut self.near[place], call);
        true
    }

    /// Notes that a report names a number in a field of this form, where its note is in the list and the report may;
    /// says whether it did.
    #[inline(always)]
    pub(crate) fn report_near(&mut self, report: ReportLine<'_>, form: Form, number: u32) -> bool
        ensures { MatchBool result
            ((may_report report.entry.line form (note_at self.old number) ≡ true)
            × ((other : ℕ) → note_at self.new other
            ≡ (if number == other
            then by_report report.entry.word report.entry.line report.entry.completed number form
            (note_at self.old number)
            else note_at self.old other)))
            (self.new ≡ self.old) }
    {
        let place = number as usize;
        let Some(Some(note)) = self.near.get(place) else {
            return false;
        };
        if !may_report(report.line, form, note) {
            return false;
        }
        report_in_place(&mut self.near[place], report);
        true
    }

    /// Gives the number that is the next of the list its first note; says whether it is that.
    #[inline(always)]
    #[tactic(auto, using(crate::proofs::NoteTable::put_at_end))]
    pub(crate) fn begin_next(&mut self, number: u32, note: Note) -> Result<bool, AllocError>
        ensures { IfOk result (λ next. MatchBool next
            ((note_at self.old number ≡ None)
            × ((other : ℕ) → note_at self.new other
            ≡ (if number == other then Some note else note_at self.old other)))
            (self.new ≡ self.old)) }
    {
        if number as usize != self.near.len() || self.get(number).is_some() {
            return Ok(false);
        }
        self.near.push(Some(note))?;
        Ok(true)
    }

    /// Gives a number this note.
    #[inline(always)]
    pub(crate) fn put(&mut self, number: u32, note: Note) -> Result<(), AllocError>
        ensures { OnOk result ((other : ℕ) → note_at self.new other
            ≡ (if number == other then Some note else note_at self.old other)) }
    {
        let place = number as usize;
        self.make_room(place)?;
        if place < self.near.len() {
            self.near[place] = Some(note);
            return Ok(());
        }
        self.far.insert(number, note)?;
        Ok(())
    }
}
