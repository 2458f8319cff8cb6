//! The forms of a line's fields.
//!
//! A word fixes the forms of its first fields and of what may follow them: nothing, bytes, any number of
//! fields of one form, or a text that says nothing. So a line is read field by field, with no list of forms.

ghost use Rattle.std.specs.Prelude.{◌≡◌, ◌<◌, ◌==◌, ℕ, length, slice_get};
ghost use Rattle.journals.specs.Words.{call_row, report_row, row_of, forms_of};
ghost use Rattle.journals.specs.inner.Forms.{collective_forms};

use crate::word::{CallWord, ReportWord, Word};

/// What a field says, and so which numbers and names it may be.
#[derive(Clone, Copy, PartialEq, Eq)]
pub enum Form {
    /// The rank's own number of a request that begins here, 1 to 2147483647.
    NewRequest,
    /// That of a message that a probe keeps, likewise.
    NewMessage,
    /// The number of an earlier request.
    Request,
    /// The number of an earlier message.
    Message,
    /// The rank's own number of a communicator, 0 to 2147483647.
    Comm,
    /// That of a communicator that the rank gets here.
    NewComm,
    /// A rank of the world.
    Member,
    /// A destination, or the source of a message that came: a signed number of 32 bits, or `null`.
    Peer,
    /// A source: also `any`.
    Source,
    /// A tag: a signed number of 32 bits.
    Tag,
    /// The tag of a receive or probe: also `any`.
    SourceTag,
    /// A root: a signed number of 32 bits.
    Root,
    /// A colour: a signed number of 32 bits, or `undefined`.
    Colour,
    /// A key: a signed number of 32 bits.
    Key,
    /// Bytes, 0 to 2147483647.
    Bytes,
}

/// What may follow the fields that a word always has.
#[derive(Clone, Copy, PartialEq, Eq)]
pub enum More {
    Nothing,
    /// The bytes of a message, if they are known.
    Bytes,
    /// One field or more of this form.
    Several(Form),
    /// Any text to the line's end, which says nothing here.
    Text,
}

/// The forms of the fields that a call word always has.
#[inline(always)]
pub(crate) fn call_forms(word: CallWord) -> &'static [Form]
    ensures { result.now ≡ (call_row word).forms }
{
    match word {
        CallWord::Send | CallWord::Ssend | CallWord::Bsend | CallWord::Rsend | CallWord::Iprobe => {
            &[Form::Comm, Form::Peer, Form::Tag]
        }
        CallWord::Isend | CallWord::Issend | CallWord::Ibsend | CallWord::Irsend => {
            &[Form::NewRequest, Form::Comm, Form::Peer, Form::Tag]
        }
        CallWord::Recv | CallWord::Probe => &[Form::Comm, Form::Source, Form::SourceTag],
        CallWord::Irecv => &[Form::NewRequest, Form::Comm, Form::Source, Form::SourceTag],
        CallWord::Mprobe => &[Form::NewMessage, Form::Comm, Form::Source, Form::SourceTag],
        CallWord::Improbe => &[Form::NewMessage, Form::Comm, Form::Peer, Form::Tag],
        CallWord::Sendrecv => &EXCHANGE,
        CallWord::Isendrecv => &STARTED_EXCHANGE,
        CallWord::Mrecv => &[Form::Message],
        CallWord::Imrecv => &[Form::NewRequest, Form::Message],
        CallWord::Cancel | CallWord::RequestFree => &[Form::Request],
        CallWord::CommSplit => &[Form::Comm, Form::Colour, Form::Key],
        CallWord::CommDup | CallWord::CommMake | CallWord::CommFree => &[Form::Comm],
        CallWord::CommIdup => &[Form::NewRequest, Form::Comm],
        _ => collective_forms(word),
    }
}

/// A destination with its tag, and a source with its tag.
const EXCHANGE: [Form; 5] = [
    Form::Comm,
    Form::Peer,
    Form::Tag,
    Form::Source,
    Form::SourceTag,
];

/// The requests of the send and of the receive, and then what an exchange has.
const STARTED_EXCHANGE: [Form; 7] = [
    Form::NewRequest,
    Form::NewRequest,
    Form::Comm,
    Form::Peer,
    Form::Tag,
    Form::Source,
    Form::SourceTag,
];

/// The forms of the fields of a collective; none of a word that always has no field.
#[inline(always)]
fn collective_forms(word: CallWord) -> &'static [Form]
    ensures { result.now ≡ collective_forms word }
{
    match word {
        CallWord::Barrier
        | CallWord::Allgather
        | CallWord::Alltoall
        | CallWord::Allreduce
        | CallWord::Scan
        | CallWord::Exscan => &[Form::Comm],
        CallWord::Bcast | CallWord::Gather | CallWord::Scatter | CallWord::Reduce => {
            &[Form::Comm, Form::Root]
        }
        CallWord::Ibarrier
        | CallWord::Iallgather
        | CallWord::Ialltoall
        | CallWord::Iallreduce
        | CallWord::Iscan
        | CallWord::Iexscan => &[Form::NewRequest, Form::Comm],
        CallWord::Ibcast | CallWord::Igather | CallWord::Iscatter | CallWord::Ireduce => {
            &[Form::NewRequest, Form::Comm, Form::Root]
        }
        _ => &[],
    }
}

/// The forms of the fields that a report word always has.
#[inline(always)]
pub(crate) fn report_forms(word: ReportWord) -> &'static [Form]
    ensures { result.now ≡ (report_row word).forms }
{
    match word {
        ReportWord::Got => &[Form::Peer, Form::Tag],
        ReportWord::Done => &[Form::Request, Form::Peer, Form::Tag],
        ReportWord::Gone | ReportWord::Kept | ReportWord::Moved => &[Form::Request],
        ReportWord::Comm | ReportWord::Apart => &[Form::NewComm],
        ReportWord::Idup => &[Form::NewComm, Form::Request],
        ReportWord::Chose | ReportWord::NoComm | ReportWord::Failed => &[],
    }
}

/// What may follow the fields that a word always has.
#[inline(always)]
pub fn more_of(word: Word) -> More
    ensures { result ≡ (row_of word).more }
{
    match word {
        Word::Call(CallWord::Stopped) => More::Text,
        Word::Call(CallWord::Send | CallWord::Isend | CallWord::Sendrecv | CallWord::Isendrecv) =>
            More::Bytes,
        Word::Call(CallWord::Wait | CallWord::Test | CallWord::Waitany | CallWord::Waitsome) => {
            More::Several(Form::Request)
        }
        Word::Call(CallWord::CommCreateGroup) => More::Several(Form::Member),
        Word::Report(ReportWord::Chose) => More::Several(Form::Request),
        Word::Report(ReportWord::Comm | ReportWord::Idup | ReportWord::Apart) => {
            More::Several(Form::Member)
        }
        _ => More::Nothing,
    }
}

/// The forms of the fields that a word always has.
#[inline(always)]
pub fn forms_of(word: Word) -> &'static [Form]
    ensures { result.now ≡ (row_of word).forms }
{
    match word {
        Word::Call(word) => call_forms(word),
        Word::Report(word) => report_forms(word),
    }
}

/// Whether a word, which always has fields of these forms, takes so many fields.
#[inline(always)]
pub(crate) fn takes_among(forms: &[Form], word: Word, count: usize) -> bool
    requires { forms.now ≡ (row_of word).forms }
    ensures { result ≡ (length (forms_of word count) == count) }
{
    let least = forms.len();
    match more_of(word) {
        More::Nothing | More::Text => count == least,
        More::Bytes => count == least || count == least + 1,
        More::Several(_) => count > least,
    }
}

/// Whether a word takes so many fields.
#[inline(always)]
pub(crate) fn takes_count(word: Word, count: usize) -> bool
    ensures { result ≡ (length (forms_of word count) == count) }
{
    takes_among(forms_of(word), word, count)
}

/// The form of the field at a place of the fields that a word takes; it always has fields of these forms.
#[inline(always)]
pub(crate) fn form_among(forms: &[Form], word: Word, place: usize) -> Option<Form>
    requires { forms.now ≡ (row_of word).forms }
    ensures { (count : ℕ) → length (forms_of word count) ≡ count → place < count
        → result ≡ slice_get (forms_of word count) place }
{
    if place < forms.len() {
        return Some(forms[place]);
    }
    match more_of(word) {
        More::Bytes => Some(Form::Bytes),
        More::Several(form) => Some(form),
        More::Nothing | More::Text => None,
    }
}

/// The form of the field at a place of the fields that a word takes.
#[inline(always)]
pub fn form_at(word: Word, place: usize) -> Option<Form>
    ensures { (count : ℕ) → length (forms_of word count) ≡ count → place < count
        → result ≡ slice_get (forms_of word count) place }
{
    form_among(forms_of(word), word, place)
}
