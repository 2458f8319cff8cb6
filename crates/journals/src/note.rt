//! What is known of a request or a message.
//!
//! A note has places of lines in it, not lists: the call that completed it, and the last that named it. So a
//! number that a line names twice is found without a search, and a failed call can be taken back.

ghost use Rattle.std.specs.Prelude.{◌≡◌, ◌||◌, ◌&&◌};
ghost use Rattle.journals.specs.Known.{has_wildcard, receive_in, is_outcome, is_wildcard, duplicated_in};
ghost use Rattle.journals.specs.inner.Notes.{request_note, message_note, called_note, is_callable, reported_note, is_now, undone_note};
ghost use Rattle.journals.specs.declared.word.Word.TheVariants.{Call, Report};

use crate::field::Field;
use crate::last::completes_all;
use crate::word::{CallWord, ReportWord};

/// What the lines so far say of a request or a message.
#[derive(Clone, Copy)]
pub(crate) struct Note {
    pub is_message: bool,
    /// It is that of a receive, and of one with a wildcard.
    pub is_receive: bool,
    pub awaits_any: bool,
    /// A cancel names it.
    pub is_cancelled: bool,
    /// Its message, what came of its cancel, or that it is moved was reported.
    pub has_outcome: bool,
    /// The communicator that its nonblocking duplicate made was reported.
    pub is_brought: bool,
    /// The communicator that it duplicates.
    pub parent: Option<u32>,
    /// The call line that completed it.
    pub completed: Option<u32>,
    /// The last call line, and the last report, that names it.
    pub called: u32,
    pub reported: Option<u32>,
}

/// Whether a receive with this source and tag has a wildcard; one from nobody has none.
#[inline(always)]
fn has_wildcard(source: Field, tag: Field) -> bool
    ensures { result ≡ has_wildcard (source, tag) }
{
    match source {
        Field::Null => false,
        Field::Any => true,
        Field::Natural(_) | Field::Signed(_) | Field::Undefined => matches!(tag, Field::Any),
    }
}

/// The source and the tag of the receive that the fields of a start say, if it has this request.
#[inline(always)]
fn received_in(fields: &[Field], number: u32) -> Option<(Field, Field)>
    ensures { result ≡ receive_in number (Call CallWord.Irecv) fields.now }
{
    match fields {
        [Field::Natural(request), _, source, tag] => {
            if request.get() == number {
                Some((*source, *tag))
            } else {
                None
            }
        }
        _ => None,
    }
}

/// The source and the tag of the receive of an exchange that the fields of its start say, if it has this request.
#[inline(never)]
fn exchanged_in(fields: &[Field], number: u32) -> Option<(Field, Field)>
    ensures { result ≡ receive_in number (Call CallWord.Isendrecv) fields.now }
{
    match fields {
        [_, Field::Natural(request), _, _, _, source, tag, ..] => {
            if request.get() == number {
                Some((*source, *tag))
            } else {
                None
            }
        }
        _ => None,
    }
}

/// The source and the tag of the receive that a call line starts with this request.
#[inline(always)]
fn receive_in(word: CallWord, fields: &[Field], number: u32) -> Option<(Field, Field)>
    ensures { result ≡ receive_in number (Call word) fields.now }
{
    match word {
        CallWord::Irecv => received_in(fields, number),
        CallWord::Isendrecv => exchanged_in(fields, number),
        _ => None,
    }
}

fn is_wildcard(message: Option<(Field, Field)>) -> bool
    ensures { result ≡ is_wildcard message }
{
    match message {
        Some((source, tag)) => has_wildcard(source, tag),
        None => false,
    }
}

#[inline(never)]
fn duplicated_in(fields: &[Field], number: u32) -> Option<u32>
    ensures { result ≡ duplicated_in number (Call CallWord.CommIdup) fields.now }
{
    match fields {
        [Field::Natural(request), Field::Natural(comm)] => {
            if request.get() == number {
                Some(comm.get())
            } else {
                None
            }
        }
        _ => None,
    }
}

/// The communicator that a call line duplicates by a request.
#[inline(always)]
fn parent_of(word: CallWord, fields: &[Field], number: u32) -> Option<u32>
    ensures { result ≡ duplicated_in number (Call word) fields.now }
{
    match word {
        CallWord::CommIdup => duplicated_in(fields, number),
        _ => None,
    }
}

/// Whether a report says what came of a request.
#[inline(always)]
fn is_outcome(word: ReportWord) -> bool
    ensures { result ≡ is_outcome (Report word) }
{
    matches!(
        word,
        ReportWord::Done | ReportWord::Gone | ReportWord::Kept | ReportWord::Moved
    )
}

impl Note {
    /// What a call line says of a request that it numbers.
    #[inline(always)]
    pub(crate) fn of_request(word: CallWord, fields: &[Field], line: u32, number: u32) -> Note
        ensures { result ≡ request_note word fields.now line number }
    {
        let receive = receive_in(word, fields, number);
        Note {
            is_message: false,
            is_receive: receive.is_some(),
            awaits_any: is_wildcard(receive),
            is_cancelled: false,
            has_outcome: false,
            is_brought: false,
            parent: parent_of(word, fields, number),
            completed: None,
            called: line,
            reported: None,
        }
    }

    /// What it says of a message that it numbers.
    pub(crate) fn of_message(line: u32) -> Note
        ensures { result ≡ message_note line }
    {
        Note {
            is_message: true,
            is_receive: false,
            awaits_any: false,
            is_cancelled: false,
            has_outcome: false,
            is_brought: false,
            parent: None,
            completed: None,
            called: line,
            reported: None,
        }
    }

    /// Whether a call line may name it: it isn't completed, and the line named it nowhere before.
    #[inline(always)]
    pub(crate) fn is_callable(&self, line: u32) -> bool
        ensures { result ≡ is_callable line self.now }
    {
        self.completed.is_none() && self.called != line
    }

    /// What it is once a call line names it.
    #[inline(always)]
    pub(crate) fn when_called(self, word: CallWord, fields: &[Field], line: u32) -> Note
        ensures { result ≡ called_note word fields.now line self }
    {
        let mut note = self;
        note.call(word, fields, line);
        note
    }

    /// Makes it in place what it is once a call line names it.
    #[inline(always)]
    pub(crate) fn call(&mut self, word: CallWord, fields: &[Field], line: u32)
        ensures { self.new ≡ called_note word fields.now line self.old }
    {
        self.called = line;
        if let CallWord::Cancel = word {
            self.is_cancelled = true;
        }
        if completes_all(word, fields) {
            self.completed = Some(line);
        }
    }

    /// Whether the report of this line names it already.
    #[inline(always)]
    pub(crate) fn is_reported(&self, line: u32) -> bool
        ensures { result ≡ is_now line self.now.reported }
    {
        match self.reported {
            Some(other) => other == line,
            None => false,
        }
    }

    /// Makes it in place what it is once a report names it; `completed` is the call line that completed it by this
    /// report.
    #[inline(always)]
    pub(crate) fn report(&mut self, word: ReportWord, line: u32, completed: Option<u32>)
        ensures { self.new ≡ reported_note word line completed self.old }
    {
        self.reported = Some(line);
        if is_outcome(word) {
            self.has_outcome = true;
        }
        if let ReportWord::Idup = word {
            self.is_brought = true;
        }
        if completed.is_some() {
            self.completed = completed;
        }
    }

    /// What it is once the call of a line is known to have failed.
    pub(crate) fn when_undone(self, line: u32) -> Note
        ensures { result ≡ undone_note line self }
    {
        let completed = match self.completed {
            Some(call) if call != line => Some(call),
            _ => None,
        };
        Note { completed, ..self }
    }
}
