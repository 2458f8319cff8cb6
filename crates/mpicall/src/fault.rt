//! What can be wrong with a line, and with a source of lines.

ghost use Rattle.std.specs.Prelude.{◌≡◌, Some};

use std::error::Error;
use std::fmt;

/// Why a line is no spelling of a record: the first of these that holds, where a line too long comes
/// first, then a missing line feed, an empty field, an unknown word, a wrong number of fields, a
/// wildcard, and a field out of its form.
#[derive(Clone, Copy, Debug, PartialEq, Eq)]
pub enum LineFault {
    /// A field without bytes: two spaces together, a space at either end, or an empty line.
    EmptyField,
    /// The first field is no word of the format.
    UnknownWord,
    /// The word wants another number of fields.
    FieldCount,
    /// A field isn't in its form, or is out of its range.
    FieldForm,
    /// `any` is the source or the tag of a receive, where the matched one must be recorded.
    Wildcard,
    /// The line has more than 1,024 bytes, its line feed counted.
    TooLong,
    /// The last byte isn't a line feed, or there are no bytes.
    NoLineFeed,
}

/// Why a source of records has no next one.
#[derive(Clone, Copy, Debug, PartialEq, Eq)]
pub enum SourceFault {
    /// The next line is no spelling of a record.
    Line(LineFault),
    /// There are bytes after the line of the end record, `finalize` or `open`.
    TextAfterFinalize,
    /// The bytes end where a line would begin, and no end record came.
    NoFinalize,
    /// A read of the input failed.
    ReadFailed,
    /// The gate of a feeding thread stopped it. A source never answers this.
    GateStopped,
    /// A feeding thread didn't start. A source never answers this.
    ThreadNotStarted,
}

/// How a source's records, or those of a feed, end.
#[derive(Clone, Copy, PartialEq, Eq)]
pub enum Ending {
    /// With the end record, and nothing after it.
    Sealed,
    /// They stop here, for the fault.
    Torn(SourceFault),
}

impl LineFault {
    ghost use Rattle.mpicall.specs.Codes.{code_of_line, words_of_line};

    /// The code under which the fault is reported.
    pub fn code(self) -> &'static str
        ensures { result.now ≡ code_of_line self }
    {
        match self {
            LineFault::EmptyField => "L1",
            LineFault::UnknownWord => "L2",
            LineFault::FieldCount => "L3",
            LineFault::FieldForm => "L4",
            LineFault::Wildcard => "L5",
            LineFault::TooLong => "L6",
            LineFault::NoLineFeed => "L7",
        }
    }

    fn words(self) -> &'static str
        ensures { result.now ≡ words_of_line self }
    {
        match self {
            LineFault::EmptyField => "empty field",
            LineFault::UnknownWord => "unknown word",
            LineFault::FieldCount => "number of fields",
            LineFault::FieldForm => "field out of form or range",
            LineFault::Wildcard => "wildcard",
            LineFault::TooLong => "line too long",
            LineFault::NoLineFeed => "no line feed",
        }
    }
}

impl fmt::Display for LineFault {
    ghost use Rattle.mpicall.specs.Codes.{words_of_line};

    ghost output = { λ fault. Some (words_of_line fault) };

    fn fmt<W: fmt::Write>(&self, f: &mut fmt::Formatter<W>) -> fmt::Result {
        write!(f, "{}", self.words())
    }
}

impl Error for LineFault {}

impl SourceFault {
    ghost use Rattle.mpicall.specs.Codes.{code_of_source};

    /// The code under which the fault is reported.
    pub fn code(self) -> &'static str
        ensures { result.now ≡ code_of_source self }
    {
        match self {
            SourceFault::Line(fault) => fault.code(),
            SourceFault::TextAfterFinalize => "L8",
            SourceFault::NoFinalize => "E1",
            SourceFault::ReadFailed => "E2",
            SourceFault::GateStopped => "E3",
            SourceFault::ThreadNotStarted => "E4",
        }
    }
}

impl fmt::Display for SourceFault {
    ghost use Rattle.mpicall.specs.Codes.{words_of_source};

    ghost output = { λ fault. Some (words_of_source fault) };

    fn fmt<W: fmt::Write>(&self, f: &mut fmt::Formatter<W>) -> fmt::Result {
        match *self {
            SourceFault::Line(fault) => write!(f, "{fault}"),
            SourceFault::TextAfterFinalize => write!(f, "text after finalize"),
            SourceFault::NoFinalize => write!(f, "no finalize"),
            SourceFault::ReadFailed => write!(f, "read failed"),
            SourceFault::GateStopped => write!(f, "gate stopped"),
            SourceFault::ThreadNotStarted => write!(f, "thread not started"),
        }
    }
}

impl Error for SourceFault {}
