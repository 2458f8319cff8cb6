//! The calls of the members in each wave, compared with the first member's.
//!
//! The calls of one wave lie far apart in memory. So 256 waves at a time are compared first, member by
//! member, with the kinds of the first member's calls, which are looked up once for all. Only waves that
//! are not alike are then taken one by one.

ghost use Rattle.std.specs.Prelude.{◌≡◌, ◌+◌, ◌<◌, ◌≤◌, ◌-◌, ◌++◌, ℕ, Some, [], length, flat_map, is_some, option_to_list, IsTrue, IfOk, OnOk};
ghost use Rattle.std.specs.List.{filter, range_with_len};
ghost use Rattle.mpigroup.specs.Groups.{group_of, world_rank_of};
ghost use Rattle.callstore.specs.Limits.{most_calls};
ghost use Rattle.callstore.specs.Waves.{member_of};
ghost use Rattle.findings.specs.Places.{call_of_member};
ghost use Rattle.findings.specs.Findings.{found_of_member, found_in_comm, found_in_waves};
ghost use Rattle.findings.specs.inner.Comparisons.{comparison_of, kind_in, AreFirstKinds};
ghost use Rattle.findings.specs.declared.finding.wave.Compared.{Compared};
ghost use Rattle.findings.specs.declared.finding.wave.TheConstants.{WAVES_A_BLOCK};

use crate::bounds::{comms, members, waves};
use crate::finding::Finding;
use crate::finding::kind::kind_found;
use crate::finding::root::root_found;
use callstore::call_ref::CallRef;
use mpicall::call::{Call, Kind};
use mpicall::record::Record;
use pairing::pairs::Pairs;
use std::alloc::{AllocError, Global};

/// So many waves are compared with the first member's at a time, member by member: the first member's calls are
/// sought once for all members, and calls of one rank lie side by side.
const WAVES_A_BLOCK: usize = 256;

/// What of two calls is compared.
#[derive(Clone, Copy)]
pub(crate) enum Compared {
    Kinds,
    Roots,
}

/// What the comparison finds of a member's call.
fn difference(
    compared: Compared,
    joined: (u16, u32),
    member: u16,
    first: &Call,
    call: &Call,
) -> Option<Finding>
    ensures { option_to_list result ≡ comparison_of compared joined.0 joined.1 member first.now call.now }
{
    let (comm, wave) = joined;
    match compared {
        Compared::Kinds => kind_found(comm, wave, member, first, call),
        Compared::Roots => root_found(comm, wave, member, first, call),
    }
}

/// The call in a wave of the member with rank `g` in the communicator's group, seen in place.
#[inline(always)]
fn stored_of_member(pairs: &Pairs, comm: u16, wave: u32, g: u16) -> Option<CallRef<'_>>
    ensures { result ≡ call_of_member pairs.now.groups pairs.now.recording comm wave g }
{
    let rank = pairs.head().world_rank(comm, g)?;
    let place = pairs.member(comm, wave, g)?;
    pairs.call(rank, place)
}

/// The call in a wave of the member with rank `g` in the communicator's group, as a record.
pub fn call_of_member(pairs: &Pairs, comm: u16, wave: u32, g: u16) -> Option<Record>
    ensures { result ≡ call_of_member pairs.now.groups pairs.now.recording comm wave g }
{
    Some(stored_of_member(pairs, comm, wave, g)?.record())
}

/// Whether two kinds are the same, and so are their roots if they have any.
#[inline(always)]
fn are_same_kind(first: Kind, kind: Kind) -> bool
    ensures { IsTrue result → first ≡ kind }
{
    first == kind
}

/// Whether both calls are collectives of one kind. Then nothing is found of them.
#[inline(always)]
#[tactic(auto, using(crate::proofs::AlikeLemmas::alike))]
fn are_alike(first: &CallRef<'_>, call: &CallRef<'_>) -> bool
    ensures { IsTrue result → (compared : Compared) (comm wave member : ℕ) →
        comparison_of compared comm wave member first.now call.now ≡ [] }
{
    match (first.kind(), call.kind()) {
        (Some(first), Some(kind)) => are_same_kind(first, kind),
        _ => false,
    }
}

/// The kind of a member's call in a wave, where it is a collective that isn't started alone.
#[inline(always)]
fn kind_in(pairs: &Pairs, comm: u16, wave: u32, g: u16) -> Option<Kind>
    ensures { result ≡ kind_in pairs.now.groups pairs.now.recording comm wave g }
{
    stored_of_member(pairs, comm, wave, g)?.kind()
}

/// The kinds of the first member's calls in the first waves of a block.
fn first_kinds(pairs: &Pairs, comm: u16, from: u32, count: usize) -> [Option<Kind>; WAVES_A_BLOCK]
    requires few { from ≤ most_calls }
    requires within { count ≤ WAVES_A_BLOCK }
    ensures { AreFirstKinds pairs.now.groups pairs.now.recording comm from count result }
{
    let mut kinds = [None; WAVES_A_BLOCK];
    for i in 0..count {
        kinds[i] = kind_in(pairs, comm, from + i as u32, 0);
    }
    kinds
}

/// A member of a communicator: its rank in the group, and that of the world.
#[derive(Clone, Copy)]
struct Member {
    comm: u16,
    g: u16,
    rank: u16,
}

/// The kind of a member's call in a wave, where it is a collective that isn't started alone.
#[inline(always)]
fn kind_of_member(pairs: &Pairs, member: Member, wave: u32) -> Option<Kind>
    requires { world_rank_of pairs.now.groups member.comm member.g ≡ Some member.rank }
    ensures { result ≡ kind_in pairs.now.groups pairs.now.recording member.comm wave member.g }
{
    let place = pairs.member(member.comm, wave, member.g)?;
    pairs.call(member.rank, place)?.kind()
}

/// Whether a member's call in a wave is a collective of that kind, which is the first member's.
#[inline(always)]
fn is_of_kind(pairs: &Pairs, member: Member, wave: u32, first: Option<Kind>) -> bool
    requires member { world_rank_of pairs.now.groups member.comm member.g ≡ Some member.rank }
    requires first { first ≡ kind_in pairs.now.groups pairs.now.recording member.comm wave 0 }
    ensures { IsTrue result → (compared : Compared) →
        found_of_member (comparison_of compared) pairs.now.groups pairs.now.recording member.comm wave member.g ≡ [] }
{
    match (first, kind_of_member(pairs, member, wave)) {
        (Some(first), Some(kind)) => are_same_kind(first, kind),
        _ => false,
    }
}

/// Whether a member's calls in the first waves of a block are of these kinds, which are the first member's.
fn is_alike_in_block(pairs: &Pairs, comm: u16, from: u32, kinds: &[Option<Kind>], g: u16) -> bool
    requires few { from ≤ most_calls }
    requires within { length kinds.now ≤ WAVES_A_BLOCK }
    requires first { AreFirstKinds pairs.now.groups pairs.now.recording comm from (length kinds.now) kinds.now }
    ensures { IsTrue result → (compared : Compared) (i : ℕ) → i < length kinds.now →
        found_of_member (comparison_of compared) pairs.now.groups pairs.now.recording comm (from + i) g ≡ [] }
{
    let Some(rank) = pairs.head().world_rank(comm, g) else {
        return false;
    };
    let member = Member { comm, g, rank };
    for i in 0..kinds.len() {
        if !is_of_kind(pairs, member, from + i as u32, kinds[i]) {
            return false;
        }
    }
    true
}

/// Whether the calls of each member in the first waves of a block are there, and alike to the first member's.
fn are_alike_in_block(pairs: &Pairs, comm: u16, from: u32, count: usize) -> bool
    requires few { from ≤ most_calls }
    requires within { count ≤ WAVES_A_BLOCK }
    ensures { IsTrue result → (compared : Compared) (g i : ℕ) → 1 ≤ g → g < length (group_of pairs.now.groups comm) → i < count →
        found_of_member (comparison_of compared) pairs.now.groups pairs.now.recording comm (from + i) g ≡ [] }
{
    let kinds = first_kinds(pairs, comm, from, count);
    for g in 1..members(pairs, comm) {
        if !is_alike_in_block(pairs, comm, from, &kinds[..count], g) {
            return false;
        }
    }
    true
}

/// Whether the calls of each member in all waves of the communicator are there, and alike to the first member's: looked
/// at block by block.
fn are_alike_in_comm(pairs: &Pairs, comm: u16) -> bool
    ensures { IsTrue result → (compared : Compared) →
        found_in_comm (comparison_of compared) pairs.now.groups pairs.now.recording comm ≡ [] }
{
    let waves = waves(pairs, comm);
    let mut from = 0;
    while from < waves {
        let count = (waves - from).min(WAVES_A_BLOCK as u32);
        if !are_alike_in_block(pairs, comm, from, count as usize) {
            return false;
        }
        from += count;
    }
    true
}

/// Whether each member's call is there and alike to the first member's in all waves, so that no comparison
/// finds anything.
#[tactic(auto, using(crate::proofs::AlikeLemmas::nothing_in_waves))]
pub(crate) fn are_all_alike(pairs: &Pairs) -> bool
    ensures { IsTrue result → (compared : Compared) →
        found_in_waves (comparison_of compared) pairs.now.groups pairs.now.recording ≡ [] }
{
    for comm in 0..comms(pairs) {
        if !are_alike_in_comm(pairs, comm) {
            return false;
        }
    }
    true
}

/// The other members of a communicator, by their ranks in its group.
fn other_members(alloc: Global, pairs: &Pairs, comm: u16) -> Result<Vec<u16>, AllocError>
    ensures { IfOk result (λ others. others.items ≡ range_with_len 1 (length (group_of pairs.now.groups comm) - 1)) }
{
    let mut others = Vec::new(alloc);
    for g in 1..members(pairs, comm) {
        others.push(g)?;
    }
    Ok(others)
}

/// Keeps those members that have a call in the wave. Who has none there has none in the waves after it.
fn keep_callers(others: &mut Vec<u16>, pairs: &Pairs, comm: u16, wave: u32)
    ensures { others.new.items ≡ filter (λ g. is_some (member_of pairs.now.groups pairs.now.recording comm wave g)) others.old.items }
{
    others.retain(|g| pairs.member(comm, wave, *g).is_some());
}

/// What is found of a member, compared with the first one's call in the wave.
fn found_of_member(
    pairs: &Pairs,
    compared: Compared,
    joined: (u16, u32),
    first: &Option<CallRef<'_>>,
    g: u16,
) -> Option<Finding>
    requires { first.now ≡ call_of_member pairs.now.groups pairs.now.recording joined.0 joined.1 0 }
    ensures { option_to_list result ≡ found_of_member (comparison_of compared) pairs.now.groups pairs.now.recording joined.0 joined.1 g }
{
    let call = stored_of_member(pairs, joined.0, joined.1, g)?;
    match first {
        Some(first) if !are_alike(first, &call) => {
            let (first, call) = (first.record(), call.record());
            difference(compared, joined, g, first.as_call(), call.as_call())
        }
        _ => None,
    }
}

/// Adds what is found of these members in a wave.
fn add_in_wave(
    findings: &mut Vec<Finding>,
    pairs: &Pairs,
    compared: Compared,
    joined: (u16, u32),
    others: &[u16],
) -> Result<(), AllocError>
    ensures { OnOk result (findings.new.items
        ≡ findings.old.items ++ flat_map (found_of_member (comparison_of compared) pairs.now.groups pairs.now.recording joined.0 joined.1) others.now) }
{
    let first = stored_of_member(pairs, joined.0, joined.1, 0);
    for g in others {
        if let Some(finding) = found_of_member(pairs, compared, joined, &first, *g) {
            findings.push(finding)?;
        }
    }
    Ok(())
}

/// Adds what is found in the waves of a communicator. A member whose calls are over is asked no more, so that the
/// cost follows the calls that there are.
fn add_in_comm(
    findings: &mut Vec<Finding>,
    pairs: &Pairs,
    compared: Compared,
    comm: u16,
) -> Result<(), AllocError>
    ensures { OnOk result (findings.new.items
        ≡ findings.old.items ++ found_in_comm (comparison_of compared) pairs.now.groups pairs.now.recording comm) }
{
    let mut others = other_members(*findings.allocator(), pairs, comm)?;
    for wave in 0..waves(pairs, comm) {
        keep_callers(&mut others, pairs, comm, wave);
        add_in_wave(findings, pairs, compared, (comm, wave), &others)?;
    }
    Ok(())
}

/// Adds what the comparison finds, by communicator, wave and member.
#[tactic(auto, using(crate::proofs::FindingLemmas::one_more))]
pub(crate) fn add_in_waves(
    findings: &mut Vec<Finding>,
    pairs: &Pairs,
    compared: Compared,
) -> Result<(), AllocError>
    ensures { OnOk result (findings.new.items
        ≡ findings.old.items ++ found_in_waves (comparison_of compared) pairs.now.groups pairs.now.recording) }
{
    for comm in 0..comms(pairs) {
        add_in_comm(findings, pairs, compared, comm)?;
    }
    Ok(())
}
