//! Which findings the report of journals has.

ghost use Rattle.std.specs.Prelude.{◌≡◌, IfOk};
ghost use Rattle.closing.specs.declared.choice.Calls.TheVariants.{Strict};
ghost use Rattle.judging.specs.Judging.{is_no_leak, is_left_out, reported_by};
ghost use Rattle.judging.specs.inner.Turns.{IsDone};

use closing::choice::{Calls, Choice};
use closing::recording::Recording;
use findings::finding::Finding;
use std::alloc::{AllocError, Global};

/// A rank and a place in its list.
#[derive(Clone, Copy, PartialEq, Eq, PartialOrd, Ord, Hash)]
pub(crate) struct Spot {
    pub rank: u16,
    pub place: u32,
}

/// Whether the finding is of a request that its rank's program freed, or of a rank whose journal is cut.
fn is_no_leak(recording: &Recording, finding: &Finding) -> bool
    ensures { IsDone recording.now → result ≡ is_left_out (is_no_leak recording.now.run recording.now.choice) finding.now }
{
    match *finding {
        Finding::Request { rank, place, .. } => {
            recording.is_cut_off(rank) || recording.starts_freed(rank, place)
        }
        _ => false,
    }
}

/// The findings but those of requests that aren't leaked.
fn but_leaked(
    alloc: Global,
    recording: &Recording,
    findings: &[Finding],
) -> Result<Vec<Finding>, AllocError>
    ensures { IfOk result (λ reported. IsDone recording.now →
        reported.items ≡ reported_by Strict (is_no_leak recording.now.run recording.now.choice) findings.now) }
{
    let mut reported = Vec::new(alloc);
    for finding in findings {
        if !is_no_leak(recording, finding) {
            reported.push(*finding)?;
        }
    }
    Ok(reported)
}

/// The findings but those of requests that aren't leaked; as it went there is none.
#[tactic(auto, using(crate::proofs::ReportedLemmas::reported_went))]
pub(crate) fn reported_findings(
    alloc: Global,
    recording: &Recording,
    choice: Choice,
    findings: &[Finding],
) -> Result<Vec<Finding>, AllocError>
    ensures { IfOk result (λ reported. IsDone recording.now →
        reported.items ≡ reported_by choice.calls (is_no_leak recording.now.run recording.now.choice) findings.now) }
{
    match choice.calls {
        Calls::Went => Ok(Vec::new(alloc)),
        Calls::Strict => but_leaked(alloc, recording, findings),
    }
}
