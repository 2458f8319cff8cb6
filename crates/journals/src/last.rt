//! The last call line, and what was reported of it.
//!
//! Most reports are of the call line before them, and each kind at most once of a call: four marks say which
//! came.

ghost use Rattle.std.specs.Prelude.{◌≡◌};
ghost use Rattle.journals.specs.Faults.{takes_message, may_choose, completes_requests, makes_comm, is_undefined, may_bring_comm, may_fail, may_be_anywhere};
ghost use Rattle.journals.specs.inner.Last.{new_last, last_may_have, with_report, completes_all};

use crate::field::Field;
use crate::word::{CallWord, ReportWord};

/// The last call line.
#[derive(Clone, Copy)]
pub(crate) struct LastCall {
    pub word: CallWord,
    pub line: u32,
    pub has_got: bool,
    /// Which requests it completed was reported.
    pub has_chosen: bool,
    /// Its communicator was reported, or that it gave none.
    pub has_brought: bool,
    pub has_failed: bool,
}

#[inline(always)]
fn takes_message(word: CallWord) -> bool
    ensures { result ≡ takes_message word }
{
    matches!(
        word,
        CallWord::Recv | CallWord::Sendrecv | CallWord::Probe | CallWord::Mprobe
    )
}

/// Whether a wait for any or some of several may choose so many.
#[inline(always)]
fn may_choose(word: CallWord, count: usize) -> bool
    ensures { result ≡ may_choose word count }
{
    match word {
        CallWord::Waitany => count == 1,
        CallWord::Waitsome => true,
        _ => false,
    }
}

#[inline(always)]
fn completes_requests(word: CallWord) -> bool
    ensures { result ≡ completes_requests word }
{
    matches!(
        word,
        CallWord::Wait | CallWord::Test | CallWord::Waitany | CallWord::Waitsome
    )
}

#[inline(always)]
fn makes_comm(word: CallWord) -> bool
    ensures { result ≡ makes_comm word }
{
    matches!(
        word,
        CallWord::CommDup | CallWord::CommSplit | CallWord::CommMake
    )
}

fn is_undefined(fields: &[Field]) -> bool
    ensures { result ≡ is_undefined fields.now }
{
    matches!(fields, [_, Field::Undefined, ..])
}

/// Whether a call may bring a communicator to this rank.
#[inline(always)]
fn may_bring_comm(word: CallWord, fields: &[Field]) -> bool
    ensures { result ≡ may_bring_comm word fields.now }
{
    match word {
        CallWord::CommSplit => !is_undefined(fields),
        CallWord::CommCreateGroup => true,
        _ => makes_comm(word),
    }
}

#[inline(always)]
fn may_fail(word: CallWord) -> bool
    ensures { result ≡ may_fail word }
{
    !matches!(
        word,
        CallWord::Finalize
            | CallWord::Abort
            | CallWord::Exit
            | CallWord::Full
            | CallWord::Stopped
            | CallWord::Cut
    )
}

impl LastCall {
    #[inline(always)]
    pub(crate) fn new(word: CallWord, line: u32) -> LastCall
        ensures { result ≡ new_last word line }
    {
        LastCall {
            word,
            line,
            has_got: false,
            has_chosen: false,
            has_brought: false,
            has_failed: false,
        }
    }

    /// Whether the call, which has these fields, can have one more such report of so many fields.
    #[inline(always)]
    pub(crate) fn may_have(&self, fields: &[Field], word: ReportWord, count: usize) -> bool
        ensures { result ≡ last_may_have self.now fields.now word count }
    {
        match word {
            ReportWord::Got => takes_message(self.word) && !self.has_got,
            ReportWord::Chose => may_choose(self.word, count) && !self.has_chosen,
            ReportWord::Comm => may_bring_comm(self.word, fields) && !self.has_brought,
            ReportWord::NoComm => makes_comm(self.word) && !self.has_brought,
            ReportWord::Idup => completes_requests(self.word),
            ReportWord::Failed => may_fail(self.word) && !self.has_failed,
            ReportWord::Done
            | ReportWord::Gone
            | ReportWord::Kept
            | ReportWord::Moved
            | ReportWord::Apart => true,
        }
    }

    /// Notes that it has such a report.
    #[inline(always)]
    pub(crate) fn note(&mut self, word: ReportWord)
        ensures { self.new ≡ with_report word self.old }
    {
        match word {
            ReportWord::Got => self.has_got = true,
            ReportWord::Chose => self.has_chosen = true,
            ReportWord::Comm | ReportWord::NoComm => self.has_brought = true,
            ReportWord::Failed => self.has_failed = true,
            _ => {}
        }
    }
}

/// Whether a call completes all requests or messages that it names, if it doesn't fail.
#[inline(always)]
pub(crate) fn completes_all(word: CallWord, fields: &[Field]) -> bool
    ensures { result ≡ completes_all word fields.now }
{
    match word {
        CallWord::Wait
        | CallWord::Test
        | CallWord::Mrecv
        | CallWord::Imrecv
        | CallWord::RequestFree => true,
        CallWord::Waitany | CallWord::Waitsome => fields.len() == 1,
        _ => false,
    }
}

/// Whether such a report may be there before any call line.
pub(crate) fn may_be_anywhere(word: ReportWord) -> bool
    ensures { result ≡ may_be_anywhere word }
{
    matches!(
        word,
        ReportWord::Done
            | ReportWord::Gone
            | ReportWord::Kept
            | ReportWord::Moved
            | ReportWord::Apart
    )
}
