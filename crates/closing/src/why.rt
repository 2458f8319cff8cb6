//! Why an entry has no line, or why it ends its rank's list.

use thiserror::Error;

/// Why an entry has no line, or why it ends its rank's list.
#[derive(Clone, Copy, Debug, PartialEq, Eq, Error)]
pub enum Why {
    #[error("never came back")]
    NeverCameBack,
    /// Which message a receive takes, or what came of a cancel, was never reported.
    #[error("never told")]
    NeverReported,
    #[error("failed")]
    Failed,
    /// Its communicator has no number.
    #[error("no number")]
    NoNumber,
    #[error("too long")]
    TooLong,
    /// It names a rank beyond the group, or a tag below 0.
    #[error("cannot be")]
    CannotBe,
    #[error("stopped")]
    Stopped,
    #[error("aborted")]
    Aborted,
    #[error("full")]
    Full,
    /// The journal of another rank goes on after the cut.
    #[error("cut")]
    Cut,
    /// It may have taken what another receive took, or it waited for one that may have.
    #[error("not judged")]
    NotJudged,
    /// The rank has no journal.
    #[error("no journal")]
    NoJournal,
}
