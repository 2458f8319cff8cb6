//! What is known of each request and message, by its number.
//!
//! A call line and a report use their numbers one after another: each is checked by its note so far, and then
//! noted. A number that is used twice in one line is found by that.

ghost use Rattle.std.specs.Prelude.{◌≡◌, ◌≤◌, ◌<◌, ◌==◌, ◌+◌, true, false, ℕ, length, if◌then◌else◌, OnOk, IfErr};
ghost use Rattle.std.specs.List.{cons_option};
ghost use Rattle.journals.specs.Words.{forms_of};
ghost use Rattle.journals.specs.Entries.{is_of_request};
ghost use Rattle.journals.specs.inner.Naturals.{naturals};
ghost use Rattle.journals.specs.Known.{is_among};
ghost use Rattle.journals.specs.inner.Numbered.{number_of, numbered, numbered_from};
ghost use Rattle.journals.specs.inner.Places.{call_requests_first, looked_at, report_requests_first, requests_first};
ghost use Rattle.journals.specs.inner.Notes.{note_at, may_use, noted, may_call, by_call, may_report, by_report, undone_at, IsFault};
ghost use Rattle.journals.specs.declared.word.Word.TheVariants.{Call, Report};
ghost use Rattle.journals.specs.declared.fault.JournalFaultKind.TheVariants.{Request};

use crate::fault::JournalFaultKind;
use crate::field::Field;
use crate::form::{Form, form_at};
use crate::line::LineFault;
use crate::note::Note;
use crate::note_table::Notes;
use crate::word::{CallWord, ReportWord, Word};

/// A call line: its word and its fields, and its place among all lines.
#[derive(Clone, Copy)]
pub(crate) struct CallLine<'a> {
    pub word: CallWord,
    pub fields: &'a [Field],
    pub line: u32,
}

/// A report, and the call line that completed the requests that it names, if one did.
#[derive(Clone, Copy)]
pub(crate) struct ReportLine<'a> {
    pub word: ReportWord,
    pub fields: &'a [Field],
    pub line: u32,
    pub completed: Option<u32>,
}

/// Whether a field of this form is the number of a request or a message.
#[inline(always)]
fn is_of_request(form: Form) -> bool
    ensures { result ≡ is_of_request form }
{
    matches!(
        form,
        Form::NewRequest | Form::NewMessage | Form::Request | Form::Message
    )
}

/// The number that a field of a form is, if it is one.
#[inline(always)]
fn number_of(form: Option<Form>, field: Field) -> Option<(Form, u32)>
    ensures { result ≡ number_of form field }
{
    match field {
        Field::Natural(number) => Some((form?, number.get())),
        _ => None,
    }
}

/// The number at a place of a line's fields, with its form; None if there is none.
#[inline(always)]
pub(crate) fn number_at(word: Word, fields: &[Field], place: usize) -> Option<(Form, u32)>
    requires fits { length (forms_of word (length fields.now)) ≡ length fields.now }
    requires within { place < length fields.now }
    ensures { numbered_from word fields.now place
        ≡ cons_option result (numbered_from word fields.now (place + 1)) }
{
    number_of(form_at(word, place), fields[place])
}

/// Whether a call line may have this number in a field of this form.
#[inline(always)]
pub(crate) fn may_call(line: u32, form: Form, note: Option<Note>) -> bool
    ensures { result ≡ may_call line form note }
{
    match form {
        Form::NewRequest | Form::NewMessage => note.is_none(),
        Form::Request => match note {
            Some(note) => !note.is_message && note.is_callable(line),
            None => false,
        },
        Form::Message => match note {
            Some(note) => note.is_message && note.is_callable(line),
            None => false,
        },
        _ => false,
    }
}

/// What is known of a number once a call line has it in a field of this form.
#[inline(always)]
fn by_call(call: CallLine<'_>, form: Form, number: u32, note: Option<Note>) -> Option<Note>
    ensures { result ≡ by_call call.entry.word call.entry.fields.now call.entry.line number form note }
{
    match form {
        Form::NewRequest => Some(Note::of_request(call.word, call.fields, call.line, number)),
        Form::NewMessage => Some(Note::of_message(call.line)),
        _ => match note {
            Some(note) => Some(note.when_called(call.word, call.fields, call.line)),
            None => None,
        },
    }
}

/// Notes what a call line says of one number, wherever its note is.
#[inline(never)]
fn use_any(notes: &mut Notes, call: CallLine<'_>, form: Form, number: u32) -> Result<(), LineFault>
    requires { is_of_request form ≡ true }
    ensures ok { OnOk result (may_call call.entry.line form (note_at notes.old number) ≡ true) }
    ensures notes { OnOk result ((other : ℕ) → note_at notes.new other
        ≡ (if number == other
        then by_call call.entry.word call.entry.fields.now call.entry.line number form
        (note_at notes.old number)
        else note_at notes.old other)) }
    ensures fault { IfErr result (IsFault Request
        (may_call call.entry.line form (note_at notes.old number) ≡ false)) }
{
    let note = notes.get(number);
    if !may_call(call.line, form, note) {
        return Err(LineFault::Journal(JournalFaultKind::Request));
    }
    if let Some(note) = by_call(call, form, number, note) {
        notes.put(number, note)?;
    }
    Ok(())
}

/// Notes what a call line says of one number.
#[inline(always)]
fn use_in_call(
    notes: &mut Notes,
    call: CallLine<'_>,
    form: Form,
    number: u32,
) -> Result<(), LineFault>
    requires { is_of_request form ≡ true }
    ensures ok { OnOk result (may_call call.entry.line form (note_at notes.old number) ≡ true) }
    ensures notes { OnOk result ((other : ℕ) → note_at notes.new other
        ≡ (if number == other
        then by_call call.entry.word call.entry.fields.now call.entry.line number form
        (note_at notes.old number)
        else note_at notes.old other)) }
    ensures fault { IfErr result (IsFault Request
        (may_call call.entry.line form (note_at notes.old number) ≡ false)) }
{
    if notes.name_near(call, form, number) {
        return Ok(());
    }
    if let Form::NewRequest = form {
        let note = Note::of_request(call.word, call.fields, call.line, number);
        if notes.begin_next(number, note)? {
            return Ok(());
        }
    }
    use_any(notes, call, form, number)
}

/// How many of the first fields of a call line may be requests or messages; None where all may.
#[inline(always)]
fn call_requests_first(word: CallWord) -> Option<usize>
    ensures { result ≡ call_requests_first word }
{
    match word {
        CallWord::Wait | CallWord::Test | CallWord::Waitany | CallWord::Waitsome => None,
        CallWord::Isendrecv | CallWord::Imrecv => Some(2),
        CallWord::Isend
        | CallWord::Issend
        | CallWord::Ibsend
        | CallWord::Irsend
        | CallWord::Irecv
        | CallWord::Mprobe
        | CallWord::Improbe
        | CallWord::Mrecv
        | CallWord::Cancel
        | CallWord::RequestFree
        | CallWord::Ibarrier
        | CallWord::Ibcast
        | CallWord::Igather
        | CallWord::Iscatter
        | CallWord::Ireduce
        | CallWord::Iallgather
        | CallWord::Ialltoall
        | CallWord::Iallreduce
        | CallWord::Iscan
        | CallWord::Iexscan
        | CallWord::CommIdup => Some(1),
        _ => Some(0),
    }
}

/// How many of the first fields of a report may be requests or messages; None where all may.
#[inline(always)]
fn report_requests_first(word: ReportWord) -> Option<usize>
    ensures { result ≡ report_requests_first word }
{
    match word {
        ReportWord::Chose => None,
        ReportWord::Idup => Some(2),
        ReportWord::Done | ReportWord::Gone | ReportWord::Kept | ReportWord::Moved => Some(1),
        _ => Some(0),
    }
}

/// How many of the first fields of a line may be requests or messages; None where all may.
#[inline(always)]
fn requests_first(word: Word) -> Option<usize>
    ensures { result ≡ requests_first word }
{
    match word {
        Word::Call(word) => call_requests_first(word),
        Word::Report(word) => report_requests_first(word),
    }
}

/// How many of the first fields are looked at: none after them is a request or a message.
#[inline(always)]
pub(crate) fn looked_at(word: Word, count: usize) -> usize
    ensures value { result ≡ looked_at (requests_first word) count }
    ensures within { result ≤ count }
{
    match requests_first(word) {
        Some(first) => first.min(count),
        None => count,
    }
}

/// Notes what a call line says of its requests and messages.
#[tactic(auto, using(crate::proofs::NoteSteps::none_numbered_left))]
#[inline(always)]
pub(crate) fn note_call(notes: &mut Notes, call: CallLine<'_>) -> Result<(), LineFault>
    requires { length (forms_of (Call call.word) (length call.fields.now)) ≡ length call.fields.now }
    ensures ok { OnOk result (may_use (may_call call.entry.line)
        (by_call call.entry.word call.entry.fields.now call.entry.line)
        (note_at notes.old) (numbered (Call call.entry.word) call.entry.fields.now) ≡ true) }
    ensures notes { OnOk result ((other : ℕ) → note_at notes.new other
        ≡ noted (by_call call.entry.word call.entry.fields.now call.entry.line) other
        (note_at notes.old other)
        (numbered (Call call.entry.word) call.entry.fields.now)) }
    ensures fault { IfErr result (IsFault Request
        (may_use (may_call call.entry.line) (by_call call.entry.word call.entry.fields.now call.entry.line)
        (note_at notes.old) (numbered (Call call.entry.word) call.entry.fields.now) ≡ false)) }
{
    for place in 0..looked_at(Word::Call(call.word), call.fields.len()) {
        if let Some((form, number)) = number_at(Word::Call(call.word), call.fields, place) {
            if is_of_request(form) {
                use_in_call(notes, call, form, number)?;
            }
        }
    }
    Ok(())
}

/// Whether the report of a line may name a request of which this is noted, in a field of this form.
#[inline(always)]
pub(crate) fn may_report(line: u32, form: Form, note: &Note) -> bool
    ensures { result ≡ may_report line form (Some note.now) }
{
    matches!(form, Form::Request) && !note.is_message && !note.is_reported(line)
}

/// Notes what a report says of one number, wherever its note is.
#[inline(never)]
fn report_any(
    notes: &mut Notes,
    report: ReportLine<'_>,
    form: Form,
    number: u32,
) -> Result<(), LineFault>
    requires { is_of_request form ≡ true }
    ensures ok { OnOk result (may_report report.entry.line form (note_at notes.old number) ≡ true) }
    ensures notes { OnOk result ((other : ℕ) → note_at notes.new other
        ≡ (if number == other
        then by_report report.entry.word report.entry.line report.entry.completed number form
        (note_at notes.old number)
        else note_at notes.old other)) }
    ensures fault { IfErr result (IsFault Request
        (may_report report.entry.line form (note_at notes.old number) ≡ false)) }
{
    let Some(mut note) = notes.get(number) else {
        return Err(LineFault::Journal(JournalFaultKind::Request));
    };
    if !may_report(report.line, form, &note) {
        return Err(LineFault::Journal(JournalFaultKind::Request));
    }
    note.report(report.word, report.line, report.completed);
    notes.put(number, note)?;
    Ok(())
}

/// Notes what a report says of one number.
#[inline(always)]
fn use_in_report(
    notes: &mut Notes,
    report: ReportLine<'_>,
    form: Form,
    number: u32,
) -> Result<(), LineFault>
    requires { is_of_request form ≡ true }
    ensures ok { OnOk result (may_report report.entry.line form (note_at notes.old number) ≡ true) }
    ensures notes { OnOk result ((other : ℕ) → note_at notes.new other
        ≡ (if number == other
        then by_report report.entry.word report.entry.line report.entry.completed number form
        (note_at notes.old number)
        else note_at notes.old other)) }
    ensures fault { IfErr result (IsFault Request
        (may_report report.entry.line form (note_at notes.old number) ≡ false)) }
{
    if notes.report_near(report, form, number) {
        return Ok(());
    }
    report_any(notes, report, form, number)
}

/// Notes what a report says of the requests that it names.
#[tactic(auto, using(crate::proofs::NoteSteps::none_numbered_left))]
#[inline(always)]
pub(crate) fn note_report(notes: &mut Notes, report: ReportLine<'_>) -> Result<(), LineFault>
    requires { length (forms_of (Report report.word) (length report.fields.now)) ≡ length report.fields.now }
    ensures ok { OnOk result (may_use (may_report report.entry.line)
        (by_report report.entry.word report.entry.line report.entry.completed)
        (note_at notes.old) (numbered (Report report.entry.word) report.entry.fields.now) ≡ true) }
    ensures notes { OnOk result ((other : ℕ) → note_at notes.new other
        ≡ noted (by_report report.entry.word report.entry.line report.entry.completed) other
        (note_at notes.old other)
        (numbered (Report report.entry.word) report.entry.fields.now)) }
    ensures fault { IfErr result (IsFault Request
        (may_use (may_report report.entry.line)
        (by_report report.entry.word report.entry.line report.entry.completed)
        (note_at notes.old) (numbered (Report report.entry.word) report.entry.fields.now) ≡ false)) }
{
    for place in 0..looked_at(Word::Report(report.word), report.fields.len()) {
        if let Some((form, number)) = number_at(Word::Report(report.word), report.fields, place) {
            if is_of_request(form) {
                use_in_report(notes, report, form, number)?;
            }
        }
    }
    Ok(())
}

/// Takes back what the call line completed of one number.
fn undo(notes: &mut Notes, line: u32, number: u32) -> Result<(), LineFault>
    ensures notes { OnOk result ((other : ℕ) → note_at notes.new other
        ≡ (if number == other then undone_at line (note_at notes.old number) else note_at notes.old other)) }
    ensures fault { IfErr result (IsFault Request ⊥) }
{
    if let Some(note) = notes.get(number) {
        notes.put(number, note.when_undone(line))?;
    }
    Ok(())
}

/// Takes back what the call of a line completed, which has these fields.
pub(crate) fn undo_all(notes: &mut Notes, line: u32, mut fields: &[Field]) -> Result<(), LineFault>
    ensures notes { OnOk result ((other : ℕ) → note_at notes.new other
        ≡ (if is_among other (naturals fields.entry.now)
        then undone_at line (note_at notes.old other)
        else note_at notes.old other)) }
    ensures fault { IfErr result (IsFault Request ⊥) }
{
    while let [field, rest @ ..] = fields {
        if let Field::Natural(number) = *field {
            undo(notes, line, number.get())?;
        }
        fields = rest;
    }
    Ok(())
}
