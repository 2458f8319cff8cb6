//! Members that name another root in a wave than the first one, in the same call.

ghost use Rattle.std.specs.Prelude.{◌≡◌, ◌++◌, option_to_list, OnOk};
ghost use Rattle.findings.specs.Findings.{root_of_call, roots_found, root_found, roots_of};

use crate::finding::Finding;
use crate::finding::kind::is_same_word;
use crate::finding::wave::{Compared, add_in_waves};
use mpicall::call::Call;
use mpicall::word::root_of;
use pairing::pairs::Pairs;
use std::alloc::AllocError;

/// The root that a call names, if it has one.
pub fn root_of_call(call: &Call) -> Option<u16>
    ensures { result ≡ root_of_call call.now }
{
    match *call {
        Call::Coll { kind, .. } | Call::Icoll { kind, .. } => root_of(kind),
        _ => None,
    }
}

/// What is found of two roots.
fn roots_found(
    comm: u16,
    wave: u32,
    member: u16,
    first: Option<u16>,
    root: Option<u16>,
) -> Option<Finding>
    ensures { option_to_list result ≡ roots_found comm wave member first root }
{
    let first = first?;
    let root = root?;
    if first == root {
        return None;
    }
    Some(Finding::Root {
        comm,
        wave,
        member,
        first,
        root,
    })
}

/// What is found of a member that makes the first member's call with another root.
#[tactic(auto, unfolding(crate::specs::Findings::root_found))]
pub(crate) fn root_found(
    comm: u16,
    wave: u32,
    member: u16,
    first: &Call,
    call: &Call,
) -> Option<Finding>
    ensures { option_to_list result ≡ root_found comm wave member first.now call.now }
{
    if is_same_word(first, call) {
        roots_found(comm, wave, member, root_of_call(first), root_of_call(call))
    } else {
        None
    }
}

/// Adds the members that name another root, by communicator, wave and member.
#[tactic(auto, unfolding(crate::specs::Findings::roots_of))]
pub fn add_roots(findings: &mut Vec<Finding>, pairs: &Pairs) -> Result<(), AllocError>
    ensures { OnOk result (findings.new.items ≡ findings.old.items ++ roots_of pairs.now.groups pairs.now.recording) }
{
    add_in_waves(findings, pairs, Compared::Roots)
}
