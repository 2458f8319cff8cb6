//! What the lines of a journal so far say, as far as later lines can be wrong by it.
//!
//! A line is checked by look-ups, never by a search among earlier lines: each request and message has a note,
//! each communicator its line, and the last call what was reported of it. The tests come in the order of
//! faults. A line with a fault may leave notes, as nothing is read after it.

ghost use Rattle.std.specs.Prelude.{◌≡◌, ◌≤◌, ◌&&◌, not, ℕ, false, [], IfOk, IfSome, OnOk, IfErr, option_map, length, take, nat_eq, slice_get, List};
ghost use Rattle.std.specs.HashMap.{get};
ghost use Rattle.journals.specs.Words.{forms_of};
ghost use Rattle.std.specs.Option.{option_map_or};
ghost use Rattle.journals.specs.Lines.{Line};
ghost use Rattle.journals.specs.Faults.{ends_journal, ends_with_cut, is_cut, is_moved_wrongly};
ghost use Rattle.journals.specs.Taking.{fields_at};
ghost use Rattle.journals.specs.inner.Naturals.{naturals, AreMembers, AreNatural};
ghost use Rattle.journals.specs.inner.Numbered.{numbered, numbered_from};
ghost use Rattle.journals.specs.inner.Marks.{ranks_in, members_of};
ghost use Rattle.journals.specs.inner.Last.{with_report};
ghost use Rattle.journals.specs.inner.Notes.{note_at, IsFault, undone_at};
ghost use Rattle.journals.specs.inner.Knows.{IsLast, IsNext, Knows, Answers, owner_of, held_group, group_by, is_right_group, is_right_call, world_of, may_follow_last, may_be_by, is_unfit, names_completed_by, names_unfit_by, chosen_by, is_made_last, is_made_by_last, duplicated_by, is_right_report, is_last, group_fields, brings, brought_in, comms_with, noted_last};
ghost use Rattle.journals.specs.Entries.{is_request};
ghost use Rattle.journals.specs.declared.fault.JournalFaultKind.TheVariants.{OutOfPlace};
ghost use Rattle.journals.specs.declared.word.Word.TheVariants.{Call, Report};
ghost use Rattle.journals.specs.declared.word.CallWord.TheVariants as call;

use crate::comms::{first_natural, group_at, group_in, is_same_group, knows_comms, second_natural};
use crate::fault::JournalFaultKind;
use crate::field::Field;
use crate::form::Form;
use crate::group::{GroupOf, Marks};
use crate::last::{LastCall, may_be_anywhere};
use crate::line::LineFault;
use crate::lines::{Lines, Taken};
use crate::note::Note;
use crate::note_table::Notes;
use crate::notes::{CallLine, ReportLine, looked_at, note_call, note_report, number_at, undo_all};
use crate::word::{CallWord, ReportWord, Word};
use std::alloc::{AllocError, Global};
use std::collections::HashMap;

/// A report that can't be where it is.
const OUT_OF_PLACE: LineFault = LineFault::Journal(JournalFaultKind::OutOfPlace);

/// What is known of the requests, messages and communicators of a journal, and of its last call line.
#[derive(Drop)]
pub(crate) struct Known {
    rank: u32,
    notes: Notes,
    /// The lines that report communicators.
    comms: HashMap<u32, u32>,
    marks: Marks,
    last: Option<LastCall>,
    is_over: bool,
}

#[inline(always)]
fn ends_journal(word: CallWord) -> bool
    ensures { result ≡ ends_journal (Call word) }
{
    matches!(word, CallWord::Finalize | CallWord::Exit | CallWord::Cut)
}

fn is_cut(word: CallWord) -> bool
    ensures { result ≡ is_cut word }
{
    matches!(word, CallWord::Cut)
}

fn is_request(form: Form) -> bool
    ensures { result ≡ is_request form }
{
    matches!(form, Form::Request)
}

/// Whether a line is that of the last call.
#[inline(always)]
fn is_last(last: Option<LastCall>, line: Option<u32>) -> bool
    ensures { result ≡ is_last last line }
{
    match (last, line) {
        (Some(last), Some(line)) => last.line == line,
        _ => false,
    }
}

/// Whether a report can be of the request that this is known of.
#[inline(always)]
fn may_be_of(last: Option<LastCall>, word: ReportWord, note: Note) -> bool
    ensures { result ≡ may_be_by last word note }
{
    match word {
        ReportWord::Chose => is_last(last, Some(note.called)),
        ReportWord::Done => note.awaits_any && !note.has_outcome,
        ReportWord::Gone | ReportWord::Kept => note.is_cancelled && !note.has_outcome,
        ReportWord::Moved => note.is_receive && !note.has_outcome,
        ReportWord::Idup => {
            note.parent.is_some() && is_last(last, note.completed) && !note.is_brought
        }
        ReportWord::Got
        | ReportWord::Comm
        | ReportWord::NoComm
        | ReportWord::Apart
        | ReportWord::Failed => true,
    }
}

#[inline(always)]
fn is_unfit(last: Option<LastCall>, word: ReportWord, note: Option<Note>) -> bool
    ensures { result ≡ is_unfit last word note }
{
    match note {
        Some(note) => !note.is_message && !may_be_of(last, word, note),
        None => false,
    }
}

/// The call line that completed the requests of a report by this report.
#[inline(always)]
fn chosen_by(last: Option<LastCall>, word: ReportWord) -> Option<u32>
    ensures { result ≡ chosen_by last word }
{
    let last = last?;
    match word {
        ReportWord::Chose => {
            if last.has_failed {
                None
            } else {
                Some(last.line)
            }
        }
        _ => None,
    }
}

/// Whether the group that a call line names is one.
#[inline(always)]
fn is_right_call(marks: &mut Marks, rank: u32, word: CallWord, fields: &[Field]) -> bool
    requires { word ≡ call.CommCreateGroup → AreMembers (ranks_in marks.old) fields.now }
    ensures ranks { ranks_in marks.new ≡ ranks_in marks.old }
    ensures value { result ≡ is_right_call (ranks_in marks.old) rank word fields.now }
{
    match word {
        CallWord::CommCreateGroup => marks.is_group(rank, GroupOf::World, fields),
        _ => true,
    }
}

impl Known {
    /// Before all lines. No note is known of a request.
    pub(crate) fn new(
        alloc: Global,
        ranks: u32,
        rank: u32,
        notes: Notes,
    ) -> Result<Known, AllocError>
        requires { (number : ℕ) → note_at notes number ≡ None }
        ensures owner { IfOk result (λ known. owner_of known ≡ record { ranks = ranks; rank = rank }) }
        ensures knows { IfOk result (Knows []) }
    {
        Ok(Known {
            rank,
            notes,
            comms: HashMap::new(alloc),
            marks: Marks::new(alloc, ranks)?,
            last: None,
            is_over: false,
        })
    }

    /// The notes, whose room others may use.
    pub(crate) fn into_notes(self) -> Notes {
        let Known { notes, .. } = self;
        notes
    }

    fn ends_with_cut(&self) -> bool
        ensures { (ranks : ℕ) (lines : List Line) → IsLast ranks lines self.now.last → result ≡ ends_with_cut lines }
    {
        match self.last {
            Some(last) => is_cut(last.word),
            None => false,
        }
    }

    /// Whether the request that a report names first is completed.
    fn names_completed(&self, fields: &[Field]) -> bool
        ensures { result ≡ names_completed_by (note_at self.now.notes) fields.now }
    {
        match fields {
            [Field::Natural(request), ..] => match self.notes.get(request.get()) {
                Some(note) => note.completed.is_some(),
                None => false,
            },
            _ => false,
        }
    }

    /// Whether a line reports a receive to be moved which is completed, or whose journal doesn't end with a cut.
    pub(crate) fn is_moved_wrongly(&self, lines: &Lines, line: u32) -> bool
        requires { Knows lines.now self.now }
        ensures { result ≡ option_map_or (is_moved_wrongly lines.now) (slice_get lines.now line) false }
    {
        match lines.word(line) {
            Some(Word::Report(ReportWord::Moved)) => {
                !self.ends_with_cut() || self.names_completed(lines.fields(line))
            }
            _ => false,
        }
    }

    /// Takes the next line of the journal, or answers its fault.
    pub(crate) fn admit(&mut self, lines: &Lines, taken: Taken) -> Result<(), LineFault>
        requires next { IsNext (ranks_in self.old.marks) lines.now taken.line
            (record { word = taken.word; fields = fields_at lines.now taken.line }) }
        requires knows { Knows (take taken.line lines.now) self.old }
        requires some { 1 ≤ ranks_in self.old.marks }
        ensures owner { owner_of self.new ≡ owner_of self.old }
        ensures answer { Answers (owner_of self.old) (take taken.line lines.now)
            (record { word = taken.word; fields = fields_at lines.now taken.line }) result }
        ensures knows { OnOk result (Knows lines.now self.new) }
    {
        if self.is_over {
            return Err(LineFault::Journal(JournalFaultKind::AfterEnd));
        }
        match taken.word {
            Word::Call(CallWord::Isend) => self.admit_call(lines, taken.line, CallWord::Isend),
            Word::Call(CallWord::Irecv) => self.admit_call(lines, taken.line, CallWord::Irecv),
            Word::Call(CallWord::Wait) => self.admit_call(lines, taken.line, CallWord::Wait),
            Word::Call(CallWord::Recv) => self.admit_call(lines, taken.line, CallWord::Recv),
            Word::Call(word) => self.admit_any(lines, taken.line, word),
            Word::Report(ReportWord::Got) => self.admit_got(lines, taken.line),
            Word::Report(ReportWord::Done) => self.admit_done(lines, taken.line),
            Word::Report(word) => self.admit_report(lines, taken.line, word),
        }
    }

    /// Takes a call line of any word.
    #[inline(never)]
    fn admit_any(&mut self, lines: &Lines, line: u32, word: CallWord) -> Result<(), LineFault>
        requires next { IsNext (ranks_in self.old.marks) lines.now line
            (record { word = Call word; fields = fields_at lines.now line }) }
        requires knows { Knows (take line lines.now) self.old }
        requires goes_on { self.old.is_over ≡ false }
        requires some { 1 ≤ ranks_in self.old.marks }
        ensures owner { owner_of self.new ≡ owner_of self.old }
        ensures answer { Answers (owner_of self.old) (take line lines.now)
            (record { word = Call word; fields = fields_at lines.now line }) result }
        ensures knows { OnOk result (Knows lines.now self.new) }
    {
        self.admit_call(lines, line, word)
    }

    /// Takes a call line. For a word that a caller names, code of its own is built.
    #[inline(always)]
    fn admit_call(&mut self, lines: &Lines, line: u32, word: CallWord) -> Result<(), LineFault>
        requires next { IsNext (ranks_in self.old.marks) lines.now line
            (record { word = Call word; fields = fields_at lines.now line }) }
        requires knows { Knows (take line lines.now) self.old }
        requires goes_on { self.old.is_over ≡ false }
        requires some { 1 ≤ ranks_in self.old.marks }
        ensures owner { owner_of self.new ≡ owner_of self.old }
        ensures answer { Answers (owner_of self.old) (take line lines.now)
            (record { word = Call word; fields = fields_at lines.now line }) result }
        ensures knows { OnOk result (Knows lines.now self.new) }
    {
        let fields = lines.fields(line);
        note_call(&mut self.notes, CallLine { word, fields, line })?;
        if !knows_comms(&self.comms, Word::Call(word), fields) {
            return Err(LineFault::Journal(JournalFaultKind::Comm));
        }
        if !is_right_call(&mut self.marks, self.rank, word, fields) {
            return Err(LineFault::Journal(JournalFaultKind::Group));
        }
        self.last = Some(LastCall::new(word, line));
        self.is_over = ends_journal(word);
        Ok(())
    }

    /// Takes the report of a message that the last call took.
    #[inline(never)]
    fn admit_got(&mut self, lines: &Lines, line: u32) -> Result<(), LineFault>
        requires next { IsNext (ranks_in self.old.marks) lines.now line
            (record { word = Report ReportWord.Got; fields = fields_at lines.now line }) }
        requires knows { Knows (take line lines.now) self.old }
        requires goes_on { self.old.is_over ≡ false }
        requires some { 1 ≤ ranks_in self.old.marks }
        ensures owner { owner_of self.new ≡ owner_of self.old }
        ensures answer { Answers (owner_of self.old) (take line lines.now)
            (record { word = Report ReportWord.Got; fields = fields_at lines.now line }) result }
        ensures knows { OnOk result (Knows lines.now self.new) }
    {
        self.admit_common_report(lines, line, ReportWord::Got)
    }

    /// Takes the report of a message that completed a request.
    #[inline(never)]
    fn admit_done(&mut self, lines: &Lines, line: u32) -> Result<(), LineFault>
        requires next { IsNext (ranks_in self.old.marks) lines.now line
            (record { word = Report ReportWord.Done; fields = fields_at lines.now line }) }
        requires knows { Knows (take line lines.now) self.old }
        requires goes_on { self.old.is_over ≡ false }
        requires some { 1 ≤ ranks_in self.old.marks }
        ensures owner { owner_of self.new ≡ owner_of self.old }
        ensures answer { Answers (owner_of self.old) (take line lines.now)
            (record { word = Report ReportWord.Done; fields = fields_at lines.now line }) result }
        ensures knows { OnOk result (Knows lines.now self.new) }
    {
        self.admit_common_report(lines, line, ReportWord::Done)
    }

    /// Takes a report that brings no communicator. Callers name one word each, for which code of its own is built.
    #[inline(always)]
    fn admit_common_report(
        &mut self,
        lines: &Lines,
        line: u32,
        word: ReportWord,
    ) -> Result<(), LineFault>
        requires next { IsNext (ranks_in self.old.marks) lines.now line
            (record { word = Report word; fields = fields_at lines.now line }) }
        requires knows { Knows (take line lines.now) self.old }
        requires goes_on { self.old.is_over ≡ false }
        requires some { 1 ≤ ranks_in self.old.marks }
        requires brings_none { brings word ≡ false }
        ensures owner { owner_of self.new ≡ owner_of self.old }
        ensures answer { Answers (owner_of self.old) (take line lines.now)
            (record { word = Report word; fields = fields_at lines.now line }) result }
        ensures knows { OnOk result (Knows lines.now self.new) }
    {
        let fields = lines.fields(line);
        if !self.is_in_place(lines, word, fields) {
            return Err(OUT_OF_PLACE);
        }
        let completed = chosen_by(self.last, word);
        note_report(
            &mut self.notes,
            ReportLine {
                word,
                fields,
                line,
                completed,
            },
        )?;
        self.note_last(lines, word)
    }

    #[inline(never)]
    fn admit_report(&mut self, lines: &Lines, line: u32, word: ReportWord) -> Result<(), LineFault>
        requires next { IsNext (ranks_in self.old.marks) lines.now line
            (record { word = Report word; fields = fields_at lines.now line }) }
        requires knows { Knows (take line lines.now) self.old }
        requires goes_on { self.old.is_over ≡ false }
        requires some { 1 ≤ ranks_in self.old.marks }
        ensures owner { owner_of self.new ≡ owner_of self.old }
        ensures answer { Answers (owner_of self.old) (take line lines.now)
            (record { word = Report word; fields = fields_at lines.now line }) result }
        ensures knows { OnOk result (Knows lines.now self.new) }
    {
        let fields = lines.fields(line);
        if !self.is_in_place(lines, word, fields) {
            return Err(OUT_OF_PLACE);
        }
        let completed = chosen_by(self.last, word);
        note_report(
            &mut self.notes,
            ReportLine {
                word,
                fields,
                line,
                completed,
            },
        )?;
        if !knows_comms(&self.comms, Word::Report(word), fields) {
            return Err(LineFault::Journal(JournalFaultKind::Comm));
        }
        if !self.is_right_report(lines, word, fields) {
            return Err(LineFault::Journal(JournalFaultKind::Group));
        }
        bring_comm(&mut self.comms, word, fields, line)?;
        self.note_last(lines, word)
    }

    #[inline(always)]
    fn may_follow(&self, lines: &Lines, word: ReportWord, count: usize) -> bool
        ensures { result ≡ may_follow_last self.now.last lines.now word count }
    {
        match &self.last {
            Some(last) => last.may_have(lines.fields(last.line), word, count),
            None => may_be_anywhere(word),
        }
    }

    /// Whether a report names a known request that can't have it.
    #[inline(always)]
    #[tactic(auto, using(crate::proofs::NoteSteps::none_numbered_left))]
    fn names_unfit(&self, word: ReportWord, fields: &[Field]) -> bool
        requires { length (forms_of (Report word) (length fields.now)) ≡ length fields.now }
        ensures { result ≡ names_unfit_by (is_unfit self.now.last word) (note_at self.now.notes)
            (numbered (Report word) fields.now) }
    {
        for place in 0..looked_at(Word::Report(word), fields.len()) {
            if let Some((form, number)) = number_at(Word::Report(word), fields, place) {
                if is_request(form) && is_unfit(self.last, word, self.notes.get(number)) {
                    return true;
                }
            }
        }
        false
    }

    /// Whether a report may be here.
    #[inline(always)]
    fn is_in_place(&self, lines: &Lines, word: ReportWord, fields: &[Field]) -> bool
        requires { length (forms_of (Report word) (length fields.now)) ≡ length fields.now }
        ensures { result ≡ (may_follow_last self.now.last lines.now word (length fields.now)
            && not (names_unfit_by (is_unfit self.now.last word) (note_at self.now.notes)
            (numbered (Report word) fields.now))) }
    {
        self.may_follow(lines, word, fields.len()) && !self.names_unfit(word, fields)
    }

    /// The group of a communicator that the rank has.
    fn group_of<'a>(&self, lines: &'a Lines, comm: u32) -> Option<GroupOf<'a>>
        ensures { option_map (members_of (ranks_in self.now.marks)) result
            ≡ held_group self.now lines.now comm }
    {
        match comm {
            0 => Some(GroupOf::World),
            1 => Some(GroupOf::Alone(self.rank)),
            _ => match group_at(lines, self.comms.get(&comm).copied()) {
                Some(group) => Some(GroupOf::Members(group)),
                None => None,
            },
        }
    }

    /// Whether a group can be that of a communicator whose parent this is.
    fn is_group_within(&mut self, lines: &Lines, parent: Option<u32>, group: &[Field]) -> bool
        requires { AreMembers (ranks_in self.old.marks) group.now }
        ensures ranks { ranks_in self.new.marks ≡ ranks_in self.old.marks }
        ensures same { self.new ≡ record self.old { marks = self.new.marks } }
        ensures value { result
            ≡ is_right_group self.old.rank (group_by self.old lines.now parent) (naturals group.now) }
    {
        let Some(parent) = parent else {
            return false;
        };
        let Some(parent) = self.group_of(lines, parent) else {
            return false;
        };
        self.marks.is_group(self.rank, parent, group)
    }

    /// Whether the last call made a communicator with this group.
    fn is_made(&mut self, lines: &Lines, group: &[Field]) -> bool
        requires group { AreMembers (ranks_in self.old.marks) group.now }
        requires named { IfSome self.old.last (λ last. last.word ≡ call.CommCreateGroup
            → AreNatural (fields_at lines.now last.line)) }
        ensures ranks { ranks_in self.new.marks ≡ ranks_in self.old.marks }
        ensures same { self.new ≡ record self.old { marks = self.new.marks } }
        ensures value { result ≡ is_made_by_last self.old lines.now self.old.last group.now }
    {
        let Some(last) = self.last else {
            return false;
        };
        let fields = lines.fields(last.line);
        match last.word {
            CallWord::CommCreateGroup => is_same_group(group, fields),
            _ => self.is_group_within(lines, first_natural(fields), group),
        }
    }

    /// The communicator that a request duplicates.
    fn duplicated_by(&self, request: Option<u32>) -> Option<u32>
        ensures { result ≡ duplicated_by self.now request }
    {
        self.notes.get(request?)?.parent
    }

    /// Whether the group of the communicator that a report brings is right.
    #[inline(always)]
    fn is_right_report(&mut self, lines: &Lines, word: ReportWord, fields: &[Field]) -> bool
        requires group { AreMembers (ranks_in self.old.marks) (group_fields (Report word) fields.now) }
        requires named { IfSome self.old.last (λ last. last.word ≡ call.CommCreateGroup
            → AreNatural (fields_at lines.now last.line)) }
        ensures ranks { ranks_in self.new.marks ≡ ranks_in self.old.marks }
        ensures same { self.new ≡ record self.old { marks = self.new.marks } }
        ensures value { result ≡ is_right_report self.old lines.now word fields.now }
    {
        let group = group_in(Word::Report(word), fields);
        match word {
            ReportWord::Comm => self.is_made(lines, group),
            ReportWord::Idup => {
                let parent = self.duplicated_by(second_natural(fields));
                self.is_group_within(lines, parent, group)
            }
            ReportWord::Apart => self.marks.is_group(self.rank, GroupOf::World, group),
            _ => true,
        }
    }

    /// Notes that the last call has a report.
    #[inline(always)]
    fn note_last(&mut self, lines: &Lines, word: ReportWord) -> Result<(), LineFault>
        ensures last { self.new.last ≡ option_map (with_report word) self.old.last }
        ensures notes { OnOk result ((number : ℕ) → note_at self.new.notes number
            ≡ noted_last self.old.last lines.now word number (note_at self.old.notes number)) }
        ensures same { self.new ≡ record self.old { notes = self.new.notes; last = self.new.last } }
        ensures fault { IfErr result (IsFault OutOfPlace ⊥) }
    {
        let Some(last) = &mut self.last else {
            return Ok(());
        };
        last.note(word);
        if let ReportWord::Failed = word {
            undo_all(&mut self.notes, last.line, lines.fields(last.line))?;
        }
        Ok(())
    }
}

#[inline(always)]
fn brings(word: ReportWord) -> bool
    ensures { result ≡ brings word }
{
    matches!(
        word,
        ReportWord::Comm | ReportWord::Idup | ReportWord::Apart
    )
}

/// Takes the communicator that the report of a line brings, if it brings one.
#[inline(always)]
fn bring_comm(
    comms: &mut HashMap<u32, u32>,
    word: ReportWord,
    fields: &[Field],
    line: u32,
) -> Result<(), LineFault>
    ensures comms { OnOk result ((comm : ℕ) → get nat_eq comms.new comm
        ≡ comms_with (brought_in word fields.now) line comm (get nat_eq comms.old comm)) }
    ensures fault { IfErr result (IsFault OutOfPlace ⊥) }
{
    if !brings(word) {
        return Ok(());
    }
    if let Some(comm) = first_natural(fields) {
        comms.insert(comm, line)?;
    }
    Ok(())
}
