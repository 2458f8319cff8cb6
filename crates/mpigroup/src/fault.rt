//! What can be wrong with the text of a head.

ghost use Rattle.std.specs.Prelude.{◌≡◌, Some};
ghost use Rattle.mpigroup.specs.Codes.{code_of_head, words_of_head, text_of_head};
ghost use Rattle.mpigroup.specs.declared.fault.ReadFault.TheVariants.{Memory as MemoryFault};

use std::alloc::{AllocError, AllocFailed};
use std::fmt;
use thiserror::Error;

/// What is wrong with one line of a head.
#[derive(Clone, Copy, Debug, PartialEq, Eq)]
pub enum HeadFaultKind {
    /// The first line isn't the word `ranks` and a canonical number, or there is no line.
    FirstLine,
    /// The number of ranks isn't 1 to [`MOST_RANKS`](crate::limits::MOST_RANKS).
    RankCount,
    /// A further line isn't the word `comm` and canonical numbers.
    CommLine,
    /// A group is empty, has a rank that the run hasn't, or has a rank twice.
    Group,
    /// There are more lines than [`MOST_COMMS`](crate::limits::MOST_COMMS).
    TooManyComms,
    /// The line has more than [`MOST_HEAD_LINE_BYTES`](crate::limits::MOST_HEAD_LINE_BYTES), or no line feed at
    /// its end.
    LineForm,
}

/// The first line of a head with a fault, counted from 1, and what is wrong with it.
#[derive(Clone, Copy, Debug, PartialEq, Eq)]
pub struct HeadFault {
    pub line: u32,
    pub kind: HeadFaultKind,
}

/// Why a text was not read as a head.
#[derive(Clone, Copy, Debug, PartialEq, Eq, Error)]
pub enum ReadFault {
    /// The text is no head.
    #[error("{0}")]
    Text(HeadFault),
    /// There was no memory for the groups.
    #[error("memory")]
    Memory,
}

impl HeadFaultKind {
    /// The code under which the program reports the fault.
    pub fn code(self) -> &'static str
        ensures { result.now ≡ code_of_head self }
    {
        match self {
            HeadFaultKind::FirstLine => "H1",
            HeadFaultKind::RankCount => "H2",
            HeadFaultKind::CommLine => "H3",
            HeadFaultKind::Group => "H4",
            HeadFaultKind::TooManyComms => "H5",
            HeadFaultKind::LineForm => "H6",
        }
    }

    /// This fault, at a line.
    pub(crate) fn at(self, line: u32) -> ReadFault
        ensures { result ≡ ReadFault.Text (record { line = line; kind = self }) }
    {
        ReadFault::Text(HeadFault { line, kind: self })
    }

    fn words(self) -> &'static str
        ensures { result.now ≡ words_of_head self }
    {
        match self {
            HeadFaultKind::FirstLine => "first line",
            HeadFaultKind::RankCount => "number of ranks",
            HeadFaultKind::CommLine => "comm line",
            HeadFaultKind::Group => "group",
            HeadFaultKind::TooManyComms => "too many communicators",
            HeadFaultKind::LineForm => "line length or end",
        }
    }
}

impl fmt::Display for HeadFaultKind {
    ghost output = { λ kind. Some (words_of_head kind) };

    fn fmt<W: fmt::Write>(&self, f: &mut fmt::Formatter<W>) -> fmt::Result {
        write!(f, "{}", self.words())
    }
}

impl std::error::Error for HeadFaultKind {}

impl fmt::Display for HeadFault {
    ghost output = { λ fault. Some (text_of_head fault) };

    fn fmt<W: fmt::Write>(&self, f: &mut fmt::Formatter<W>) -> fmt::Result {
        let HeadFault { line, kind } = *self;
        let code = kind.code();
        write!(f, "line {line} {code} {kind}")
    }
}

impl std::error::Error for HeadFault {}

impl From<AllocError> for ReadFault {
    ghost from_gives = { λ _ fault. fault ≡ MemoryFault };

    fn from(_refused: AllocError) -> ReadFault {
        ReadFault::Memory
    }
}

impl<T: Drop> From<AllocFailed<T>> for ReadFault {
    ghost from_gives = { λ _ fault. fault ≡ MemoryFault };

    fn from(_refused: AllocFailed<T>) -> ReadFault {
        ReadFault::Memory
    }
}
