//! What is wrong with a recorded run besides what makes it hang.
//!
//! Each kind is found by going through communicators, waves and members, or ranks and places, so that the
//! order of the report is that of the search. Messages, requests and groups are looked for only if the
//! tables say that there may be one (`has_unreceived`, `may_have_active`, `has_made`).

ghost use Rattle.std.specs.Prelude.{◌≡◌, ◌++◌, IfOk, OnOk};
ghost use Rattle.findings.specs.Findings.{kinds_of, roots_of, findings_of};

use crate::finding::group::add_wrong_groups;
use crate::finding::kind::add_kinds;
use crate::finding::request::add_requests;
use crate::finding::root::add_roots;
use crate::finding::unreceived::add_unreceived;
use crate::finding::wave::are_all_alike;
use mpicall::word::Word;
use pairing::pairs::Pairs;
use std::alloc::{AllocError, Global};

pub mod group;
pub mod kind;
mod making;
pub mod request;
pub mod root;
pub mod unreceived;
pub mod wave;

/// A finding over the whole recording, whether its calls are reached or not. Waves are numbered from 0 for
/// each communicator; `member` is a rank of the communicator's group, and rank 0 of that group is what it is
/// compared with.
#[derive(Clone, Copy, PartialEq, Eq)]
pub enum Finding {
    /// In one wave a member makes another call than the first one.
    Kind {
        comm: u16,
        wave: u32,
        member: u16,
        first: Word,
        word: Word,
    },
    /// In one wave a member names another root than the first one, in the same call.
    Root {
        comm: u16,
        wave: u32,
        member: u16,
        first: u16,
        root: u16,
    },
    /// A message is sent and received by no call.
    Unreceived {
        rank: u16,
        place: u32,
    },
    /// A request is started and completed by no wait.
    Request {
        rank: u16,
        place: u32,
        req: u32,
    },
    /// The new communicator that a call names has another group than the call gives it.
    Group {
        rank: u16,
        place: u32,
    },
}

/// Adds what members' calls in one wave differ in: their kinds, then their roots.
fn add_differences(findings: &mut Vec<Finding>, pairs: &Pairs) -> Result<(), AllocError>
    ensures { OnOk result (findings.new.items
        ≡ findings.old.items ++ (kinds_of pairs.now.groups pairs.now.recording ++ roots_of pairs.now.groups pairs.now.recording)) }
{
    if are_all_alike(pairs) {
        return Ok(());
    }
    add_kinds(findings, pairs)?;
    add_roots(findings, pairs)
}

/// All findings of a recorded run, in the order of the report: by kind, and within one kind by rising
/// numbers.
#[tactic(auto, unfolding(crate::specs::Findings::findings_of))]
pub fn findings(alloc: Global, pairs: &Pairs) -> Result<Vec<Finding>, AllocError>
    ensures { IfOk result (λ findings. findings.items ≡ findings_of pairs.now.groups pairs.now.recording) }
{
    let mut findings = Vec::new(alloc);
    add_differences(&mut findings, pairs)?;
    add_unreceived(&mut findings, pairs)?;
    add_requests(&mut findings, pairs)?;
    add_wrong_groups(alloc, &mut findings, pairs)?;
    Ok(findings)
}
