//! Why a run has no verdict.

ghost use Rattle.std.specs.Prelude.{◌≡◌, Some};
ghost use Rattle.gather.specs.Codes.{code_of_rank, words_of_rank, text_of_refusal};

use mpicall::fault::SourceFault;
use pairing::fault::CallFault;
use std::fmt;
use thiserror::Error;

/// The fault of a rank: of one of its calls, or of the source of its records.
#[derive(Clone, Copy, Debug, PartialEq, Eq)]
pub enum RankFault {
    OfCall(CallFault),
    OfSource(SourceFault),
}

impl RankFault {
    /// The code under which the program reports the fault.
    pub fn code(self) -> &'static str
        ensures { result.now ≡ code_of_rank self }
    {
        match self {
            RankFault::OfCall(fault) => fault.code(),
            RankFault::OfSource(fault) => fault.code(),
        }
    }
}

impl fmt::Display for RankFault {
    ghost output = { λ fault. Some (words_of_rank fault) };

    fn fmt<W: fmt::Write>(&self, f: &mut fmt::Formatter<W>) -> fmt::Result {
        match *self {
            RankFault::OfCall(fault) => write!(f, "{fault}"),
            RankFault::OfSource(fault) => write!(f, "{fault}"),
        }
    }
}

impl std::error::Error for RankFault {}

/// The refusal of a run: the first fault of a rank, at the number of the rank's records before it.
#[derive(Clone, Copy, Debug, PartialEq, Eq)]
pub struct Refusal {
    pub rank: u16,
    pub call: u32,
    pub fault: RankFault,
}

impl fmt::Display for Refusal {
    ghost output = { λ refusal. Some (text_of_refusal refusal) };

    fn fmt<W: fmt::Write>(&self, f: &mut fmt::Formatter<W>) -> fmt::Result {
        let Refusal { rank, call, fault } = *self;
        let code = fault.code();
        write!(f, "rank {rank} call {call} {code} {fault}")
    }
}

impl std::error::Error for Refusal {}

/// Why a run has no verdict.
#[derive(Clone, Copy, Debug, PartialEq, Eq, Error)]
pub enum RunFault {
    #[error("memory")]
    Memory,
    /// The lowest rank whose feed gave no proof of its end.
    #[error("seal {0}")]
    Unproved(u16),
    #[error("{0}")]
    Refused(Refusal),
    #[error("write")]
    Write,
}
