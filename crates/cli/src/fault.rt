//! Why the program has no answer.

ghost use Rattle.std.specs.Prelude.{◌≡◌, Some};
ghost use Rattle.cli.specs.FaultTexts.{journal_words, text_of_fault};
ghost use Rattle.gather.specs.declared.fault.RankFault.TheVariants.{OfSource};
ghost use Rattle.driver.specs.VerdictContract.{is_from_outside};
ghost use Rattle.cli.specs.Faults.{of_head, of_lint, of_run, status_of_fault};
ghost use Rattle.cli.specs.inner.Journals.{of_read};
ghost use Rattle.cli.specs.declared.fault.Fault.TheVariants.{Memory};

use crate::status::Status;
use gather::fault::{RankFault, Refusal, RunFault};
use journals::fault::{JournalFault, JournalFaultKind};
use judging::read::ReadFault;
use judging::under_way::EntryAt;
use mpicall::fault::SourceFault;
use mpicall::lint::LintFault;
use mpigroup::fault::HeadFault;
use std::alloc::{AllocError, AllocFailed};
use std::error::Error;
use std::fmt;

/// Why a run or a trace has no answer. Its text is what the program says.
#[derive(Clone, Copy, Debug, PartialEq, Eq)]
pub enum Fault<'a> {
    Open(&'a str),
    /// The journal of a rank in this folder.
    OpenJournal { folder: &'a str, rank: u16 },
    RefusedJournal { rank: u16, fault: JournalFault },
    FailedJournal { rank: u16, line: u64 },
    /// With this entry something is under way where the journals of all ranks are cut.
    UncleanCut(EntryAt),
    Make(&'a str),
    ReadHead,
    Head(HeadFault),
    FileCount { ranks: u16, files: usize },
    Refused(Refusal),
    Failed(Refusal),
    LintRefused(LintFault),
    LintFailed(LintFault),
    Memory,
    Unproved(u16),
    /// Of standard output.
    Write,
    /// Of a file of a recording.
    WriteFile,
}

/// What is said of a fault of a journal, in addition to its code.
fn journal_words(kind: JournalFaultKind) -> &'static str
    ensures { result.now ≡ journal_words kind }
{
    match kind {
        JournalFaultKind::Header => "header",
        JournalFaultKind::UnknownWord => "unknown word",
        JournalFaultKind::FieldCount => "number of fields",
        JournalFaultKind::FieldForm => "field out of form or range",
        JournalFaultKind::AfterEnd => "line behind the end",
        JournalFaultKind::TooLong => "line too long",
        JournalFaultKind::OutOfPlace => "told line out of place",
        JournalFaultKind::Request => "request",
        JournalFaultKind::Comm => "communicator",
        JournalFaultKind::Group => "group",
    }
}

impl fmt::Display for Fault<'_> {
    ghost output = { λ fault. Some (text_of_fault fault) };

    fn fmt<W: fmt::Write>(&self, f: &mut fmt::Formatter<W>) -> fmt::Result {
        match *self {
            Fault::Open(path) => write!(f, "fault open {path}"),
            Fault::OpenJournal { folder, rank } => {
                write!(f, "fault open {folder}/journal{rank}")
            }
            Fault::RefusedJournal { rank, fault } => {
                let JournalFault { line, kind } = fault;
                let (code, words) = (kind.code(), journal_words(kind));
                write!(f, "refused rank {rank} line {line} {code} {words}")
            }
            Fault::FailedJournal { rank, line } => {
                write!(f, "fault rank {rank} line {line} E2 read failed")
            }
            Fault::UncleanCut(entry) => {
                let EntryAt { rank, line } = entry;
                write!(f, "refused rank {rank} line {line} J11 cut")
            }
            Fault::Make(path) => write!(f, "fault make {path}"),
            Fault::ReadHead => write!(f, "fault read head"),
            Fault::Head(fault) => write!(f, "refused head {fault}"),
            Fault::FileCount { ranks, files } => {
                write!(f, "usage: head has {ranks} ranks, {files} files given")
            }
            Fault::Refused(refusal) => write!(f, "refused {refusal}"),
            Fault::Failed(refusal) => write!(f, "fault {refusal}"),
            Fault::LintRefused(fault) => write!(f, "lint refused {fault}"),
            Fault::LintFailed(fault) => write!(f, "fault lint {fault}"),
            Fault::Memory => write!(f, "fault memory"),
            Fault::Unproved(rank) => write!(f, "fault seal {rank}"),
            Fault::Write | Fault::WriteFile => write!(f, "fault write"),
        }
    }
}

impl Error for Fault<'_> {}

impl<'a> Fault<'a> {
    /// The fault of the journals in a folder.
    pub(crate) fn of_journals(folder: &'a str, fault: ReadFault) -> Fault<'a>
        ensures { result ≡ of_read folder.entry fault }
    {
        match fault {
            ReadFault::Open(rank) => Fault::OpenJournal { folder, rank },
            ReadFault::Refused { rank, fault } => Fault::RefusedJournal { rank, fault },
            ReadFault::ReadFailed { rank, line } => Fault::FailedJournal { rank, line },
            ReadFault::Memory => Fault::Memory,
        }
    }
}

impl Fault<'_> {
    /// The exit status of the fault.
    pub fn status(&self) -> Status
        ensures { result ≡ status_of_fault self.now }
    {
        match self {
            Fault::Head(_)
            | Fault::Refused(_)
            | Fault::LintRefused(_)
            | Fault::RefusedJournal { .. }
            | Fault::UncleanCut(_) => Status::Refused,
            Fault::FileCount { .. } => Status::Usage,
            Fault::Open(_)
            | Fault::OpenJournal { .. }
            | Fault::FailedJournal { .. }
            | Fault::Make(_)
            | Fault::ReadHead
            | Fault::Failed(_)
            | Fault::LintFailed(_)
            | Fault::Memory
            | Fault::Unproved(_)
            | Fault::Write
            | Fault::WriteFile => Status::Fault,
        }
    }
}

impl From<AllocError> for Fault<'_> {
    ghost from_gives = { λ _ fault. fault ≡ Memory };

    fn from(_fault: AllocError) -> Self {
        Fault::Memory
    }
}

impl<T: Drop> From<AllocFailed<T>> for Fault<'_> {
    ghost from_gives = { λ _ fault. fault ≡ Memory };

    fn from(_fault: AllocFailed<T>) -> Self {
        Fault::Memory
    }
}

impl From<HeadFault> for Fault<'_> {
    ghost from_gives = { λ fault told. told ≡ of_head fault };

    fn from(fault: HeadFault) -> Self {
        Fault::Head(fault)
    }
}

impl From<RunFault> for Fault<'_> {
    ghost from_gives = { λ fault told. told ≡ of_run fault };

    fn from(fault: RunFault) -> Self {
        match fault {
            RunFault::Memory => Fault::Memory,
            RunFault::Unproved(rank) => Fault::Unproved(rank),
            RunFault::Write => Fault::Write,
            RunFault::Refused(refusal) if is_failure(refusal.fault) => Fault::Failed(refusal),
            RunFault::Refused(refusal) => Fault::Refused(refusal),
        }
    }
}

impl From<LintFault> for Fault<'_> {
    ghost from_gives = { λ fault told. told ≡ of_lint fault };

    fn from(fault: LintFault) -> Self {
        if is_source_failure(fault.fault) {
            Fault::LintFailed(fault)
        } else {
            Fault::LintRefused(fault)
        }
    }
}

/// Whether a source's fault is no fault of its bytes: a read that failed, or a thread that was stopped or
/// didn't start.
fn is_source_failure(fault: SourceFault) -> bool
    ensures { result ≡ is_from_outside (OfSource fault) }
{
    matches!(
        fault,
        SourceFault::ReadFailed | SourceFault::GateStopped | SourceFault::ThreadNotStarted
    )
}

/// Whether a rank's fault is no fault of its bytes or calls, but came from outside.
fn is_failure(fault: RankFault) -> bool
    ensures { result ≡ is_from_outside fault }
{
    match fault {
        RankFault::OfSource(fault) => is_source_failure(fault),
        RankFault::OfCall(_) => false,
    }
}
