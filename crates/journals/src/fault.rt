//! What can be wrong with a journal.
//!
//! The texts of faults, with their codes, are those of the format; the names of their kinds say what they
//! are.

ghost use Rattle.std.specs.Prelude.{◌≡◌};

use thiserror::Error;

/// Why a line can't stand in a journal: the first of these that holds, where a line too long comes first and
/// a line after the end comes after the form of its fields.
#[derive(Clone, Copy, Debug, PartialEq, Eq, Error)]
pub enum JournalFaultKind {
    /// The first line isn't a journal's header, or not this rank's of this run, or isn't there.
    #[error("header")]
    Header,
    #[error("unknown word")]
    UnknownWord,
    /// The word has another number of fields.
    #[error("number of fields")]
    FieldCount,
    #[error("field out of form or range")]
    FieldForm,
    /// The line comes after `finalize`, `exit` or `cut`.
    #[error("line behind the end")]
    AfterEnd,
    /// The line has more than 32,768 bytes, its line feed counted.
    #[error("line too long")]
    TooLong,
    /// A report that the call line before it can't have, or has already; one of a known request that can't have
    /// it; or one of a moved receive that was completed, or in a journal that doesn't end with a cut.
    #[error("told line out of place")]
    OutOfPlace,
    /// A request that isn't known, is known already, was completed before, or is named twice in the line; or
    /// a message in the place of a request, or the other way round.
    #[error("request")]
    Request,
    /// A communicator that isn't known, or is known already.
    #[error("communicator")]
    Comm,
    /// A group with a rank twice, without this rank, or with one that isn't in the group of the communicator
    /// that the call is on; or another group than that of the call.
    #[error("group")]
    Group,
}

/// The first fault of a journal: the number of its line, the header being line 1, and what it is.
#[derive(Clone, Copy, Debug, PartialEq, Eq, Error)]
#[error("line {line} {} {kind}", .kind.code())]
pub struct JournalFault {
    pub line: u64,
    pub kind: JournalFaultKind,
}

impl JournalFaultKind {
    ghost use Rattle.journals.specs.Codes.{code_of};

    /// The code under which the fault is reported.
    pub fn code(self) -> &'static str
        ensures { result.now ≡ code_of self }
    {
        match self {
            JournalFaultKind::Header => "J1",
            JournalFaultKind::UnknownWord => "J2",
            JournalFaultKind::FieldCount => "J3",
            JournalFaultKind::FieldForm => "J4",
            JournalFaultKind::AfterEnd => "J5",
            JournalFaultKind::TooLong => "J6",
            JournalFaultKind::OutOfPlace => "J7",
            JournalFaultKind::Request => "J8",
            JournalFaultKind::Comm => "J9",
            JournalFaultKind::Group => "J10",
        }
    }
}
