//! Lines that are no part of a row.

use std::alloc::{AllocError, AllocFailed};
use thiserror::Error;

/// Why a line, or the row that it ends, can't be taken.
#[derive(Clone, Copy, Debug, Error)]
pub enum LineFault {
    #[error("no line of a row begins with this word")]
    UnknownWord,
    #[error("a number is missing, or is none")]
    NoNumber,
    #[error("a word or a text is missing")]
    NoText,
    #[error("a text that belongs to no file and to no output")]
    NoPlace,
    #[error("the row before has no end")]
    RowInRow,
    #[error("no row has begun")]
    NoRow,
    #[error("this was said of the row before")]
    SaidTwice,
    #[error("the row asks for nothing")]
    NothingAsked,
    #[error("the row has no status")]
    NoStatus,
    #[error("the row has no file with the path of the failing one")]
    NoSuchFile,
    #[error("the row has a whole text of standard output and parts of it")]
    WholeAndParts,
    #[error("no memory")]
    Memory,
}

impl From<AllocError> for LineFault {
    fn from(_fault: AllocError) -> LineFault {
        LineFault::Memory
    }
}

impl<T: Drop> From<AllocFailed<T>> for LineFault {
    fn from(_fault: AllocFailed<T>) -> LineFault {
        LineFault::Memory
    }
}
