//! New communicators whose groups aren't those that the calls give them.

ghost use Rattle.std.specs.Prelude.{◌≡◌, ◌≤◌, ◌++◌, if◌then◌else◌, false, length, slice_get, slice_index, Some, IfOk, OnOk};
ghost use Rattle.std.specs.Str.{bytes_eq};
ghost use Rattle.std.specs.Option.{option_map_or};
ghost use Rattle.mpigroup.specs.Groups.{Groups, group_of};
ghost use Rattle.callstore.specs.Recordings.{Lists};
ghost use Rattle.findings.specs.Places.{call_of_member, over_places};
ghost use Rattle.findings.specs.Findings.{same_word, all_call_alike, choice_of, choices_in, split_ranks, in_world, member_makes, is_given, makes_given, is_wrong_group, is_wrong_at, group_at, wrong_groups_of};
ghost use Rattle.findings.specs.inner.Makings.{is_wrong_making, is_same_making, known_of, IsKnown};
ghost use Rattle.findings.specs.declared.finding.making.Making.{Making};

use crate::bounds::{calls, members, ranks};
use crate::finding::Finding;
use crate::finding::kind::is_same_word;
use crate::finding::making::{Making, making_call, making_of};
use crate::finding::wave::call_of_member;
use callstore::comm::makes;
use mpicall::call::Call;
use mpigroup::split::colour_group;
use pairing::pairs::Pairs;
use std::alloc::{AllocError, Global};
use std::collections::HashMap;

/// Whether a member has a call of the wave with the call's word.
fn calls_alike(pairs: &Pairs, comm: u16, wave: u32, call: &Call, g: u16) -> bool
    ensures { result ≡ option_map_or (same_word call.now) (call_of_member pairs.now.groups pairs.now.recording comm wave g) false }
{
    match call_of_member(pairs, comm, wave, g) {
        Some(other) => is_same_word(call, other.as_call()),
        None => false,
    }
}

/// Whether each member has one.
fn all_call_alike(pairs: &Pairs, comm: u16, wave: u32, call: &Call) -> bool
    ensures { result ≡ all_call_alike pairs.now.groups pairs.now.recording comm wave call.now }
{
    (0..members(pairs, comm)).all(|g| calls_alike(pairs, comm, wave, call, g))
}

/// The colour and the key that a member gives in a wave.
fn choice(pairs: &Pairs, comm: u16, wave: u32, g: u16) -> (Option<u32>, i32)
    ensures { result ≡ choice_of (call_of_member pairs.now.groups pairs.now.recording comm wave g) }
{
    match call_of_member(pairs, comm, wave, g) {
        Some(record) => choice_of(record.as_call()),
        None => (None, 0),
    }
}

fn choice_of(call: &Call) -> (Option<u32>, i32)
    ensures { result ≡ choice_of (Some call.now) }
{
    match *call {
        Call::Split { colour, key, .. } => (colour, key),
        _ => (None, 0),
    }
}

/// What the members give in a wave, by their group ranks.
fn choices_in(
    alloc: Global,
    pairs: &Pairs,
    comm: u16,
    wave: u32,
) -> Result<Vec<(Option<u32>, i32)>, AllocError>
    ensures value { IfOk result (λ choices. choices.items ≡ choices_in pairs.now.groups pairs.now.recording comm wave) }
    ensures few { IfOk result (λ choices. length choices.items ≤ 65536) }
{
    (0..members(pairs, comm))
        .map(|g| choice(pairs, comm, wave, g))
        .collect(alloc)
}

/// The members with a colour in their new order, as ranks of the old group.
fn split_ranks(
    alloc: Global,
    pairs: &Pairs,
    comm: u16,
    wave: u32,
    colour: u32,
) -> Result<Vec<u16>, AllocError>
    ensures { IfOk result (λ ranks. ranks.items ≡ split_ranks pairs.now.groups pairs.now.recording comm wave colour) }
{
    let choices = choices_in(alloc, pairs, comm, wave)?;
    colour_group(alloc, &choices, colour)
}

/// The rank of the world of a member.
fn member(pairs: &Pairs, comm: u16, g: u16) -> u16
    ensures { result ≡ slice_index (group_of pairs.now.groups comm) g }
{
    pairs.head().world_rank(comm, g).unwrap_or(0)
}

/// Members of the communicator as ranks of the world.
fn in_world(alloc: Global, pairs: &Pairs, comm: u16, ranks: &[u16]) -> Result<Vec<u16>, AllocError>
    ensures { IfOk result (λ group. group.items ≡ in_world pairs.now.groups comm ranks.now) }
{
    ranks.iter().map(|g| member(pairs, comm, *g)).collect(alloc)
}

/// The group of a communicator; empty where there is no such communicator.
fn group_of(alloc: Global, pairs: &Pairs, comm: u16) -> Result<Vec<u16>, AllocError>
    ensures { IfOk result (λ group. group.items ≡ group_of pairs.now.groups comm) }
{
    let mut group = Vec::new(alloc);
    for g in 0..members(pairs, comm) {
        group.push(member(pairs, comm, g))?;
    }
    Ok(group)
}

/// Whether a member's call in the wave makes the communicator.
fn member_makes(pairs: &Pairs, comm: u16, wave: u32, new: u16, g: u16) -> bool
    ensures { result ≡ member_makes pairs.now.groups pairs.now.recording comm wave new g }
{
    match call_of_member(pairs, comm, wave, g) {
        Some(call) => makes(call.as_call()) == Some(new),
        None => false,
    }
}

/// Whether there is a member with that group rank, and its call in the wave makes the communicator.
fn first_makes(pairs: &Pairs, comm: u16, wave: u32, new: u16, first: Option<u16>) -> bool
    ensures { result ≡ option_map_or (member_makes pairs.now.groups pairs.now.recording comm wave new) first false }
{
    match first {
        Some(g) => member_makes(pairs, comm, wave, new, g),
        None => false,
    }
}

/// Whether the communicator has the group by the head.
fn has_group(alloc: Global, pairs: &Pairs, comm: u16, group: &[u16]) -> Result<bool, AllocError>
    ensures { IfOk result (λ has. has ≡ bytes_eq (group_of pairs.now.groups comm) group.now) }
{
    let by_head = group_of(alloc, pairs, comm)?;
    Ok(by_head.as_slice() == group)
}

/// Whether a dup's new communicator is the one that the wave gives.
fn is_dup_given(
    alloc: Global,
    pairs: &Pairs,
    comm: u16,
    wave: u32,
    new: u16,
) -> Result<bool, AllocError>
    ensures { IfOk result (λ is. is ≡ is_given pairs.now.groups pairs.now.recording comm wave new (group_of pairs.now.groups comm) (Some 0)) }
{
    let group = group_of(alloc, pairs, comm)?;
    Ok(has_group(alloc, pairs, new, &group)? && member_makes(pairs, comm, wave, new, 0))
}

/// Whether a split's new communicator is the one that the wave gives the colour.
fn is_split_given(
    alloc: Global,
    pairs: &Pairs,
    joined: (u16, u32),
    colour: u32,
    new: u16,
) -> Result<bool, AllocError>
    ensures { IfOk result (λ is. is ≡ is_given pairs.now.groups pairs.now.recording joined.0 joined.1 new
        (in_world pairs.now.groups joined.0 (split_ranks pairs.now.groups pairs.now.recording joined.0 joined.1 colour))
        (slice_get (split_ranks pairs.now.groups pairs.now.recording joined.0 joined.1 colour) 0)) }
{
    let (comm, wave) = joined;
    let ranks = split_ranks(alloc, pairs, comm, wave, colour)?;
    let group = in_world(alloc, pairs, comm, &ranks)?;
    Ok(
        has_group(alloc, pairs, new, &group)?
            && first_makes(pairs, comm, wave, new, ranks.first().copied()),
    )
}

/// Whether what the call makes in the wave has the group that the wave gives; true of a call that makes
/// nothing.
fn makes_given(
    alloc: Global,
    pairs: &Pairs,
    comm: u16,
    wave: u32,
    call: &Call,
) -> Result<bool, AllocError>
    ensures { IfOk result (λ is. is ≡ makes_given pairs.now.groups pairs.now.recording comm wave call.now) }
{
    match *call {
        Call::Dup { new, .. } => is_dup_given(alloc, pairs, comm, wave, new),
        Call::Split {
            colour: Some(colour),
            new: Some(new),
            ..
        } => is_split_given(alloc, pairs, (comm, wave), colour, new),
        _ => Ok(true),
    }
}

/// Whether what the call makes in its wave has another group, while all members make the same call there.
fn is_wrong_group(
    alloc: Global,
    pairs: &Pairs,
    comm: u16,
    wave: u32,
    call: &Call,
) -> Result<bool, AllocError>
    ensures { IfOk result (λ is. is ≡ is_wrong_group pairs.now.groups pairs.now.recording call.now (comm, wave)) }
{
    Ok(!makes_given(alloc, pairs, comm, wave, call)? && all_call_alike(pairs, comm, wave, call))
}

fn is_wrong_making(alloc: Global, pairs: &Pairs, making: &Making) -> Result<bool, AllocError>
    ensures { IfOk result (λ is. is ≡ is_wrong_making pairs.now.groups pairs.now.recording making.now) }
{
    let call = making_call(making);
    is_wrong_group(alloc, pairs, making.comm, making.wave, &call)
}

/// What was found of the communicators that waves make. A wave's group is made once for each of them, and not again
/// for each member that names it.
#[derive(Drop)]
struct Known {
    wrong: HashMap<Making, bool>,
}

impl Known {
    /// Nothing yet, of whatever recording.
    fn new(alloc: Global) -> Known
        ensures { (groups : Groups) (recording : Lists) → IsKnown groups recording result }
    {
        Known {
            wrong: HashMap::new(alloc),
        }
    }

    fn get(&self, making: &Making) -> Option<bool>
        ensures { result ≡ known_of self.now making.now }
    {
        self.wrong.get(making).copied()
    }

    fn put(&mut self, making: Making, is_wrong: bool) -> Result<(), AllocError>
        ensures { OnOk result ((other : Making) → known_of self.new other ≡ (if is_same_making making other then Some is_wrong else known_of self.old other)) }
    {
        self.wrong.insert(making, is_wrong)?;
        Ok(())
    }

    /// Whether the communicator has another group than the wave gives it, while all members make the same call there.
    fn is_wrong(&mut self, alloc: Global, pairs: &Pairs, making: Making) -> Result<bool, AllocError>
        requires { IsKnown pairs.now.groups pairs.now.recording self.old }
        ensures value { IfOk result (λ is. is ≡ is_wrong_making pairs.now.groups pairs.now.recording making) }
        ensures known { OnOk result (IsKnown pairs.now.groups pairs.now.recording self.new) }
    {
        if let Some(is_wrong) = self.get(&making) {
            return Ok(is_wrong);
        }
        let is_wrong = is_wrong_making(alloc, pairs, &making)?;
        self.put(making, is_wrong)?;
        Ok(is_wrong)
    }
}

/// Whether what the call makes in the wave is wrong so.
fn is_wrong_call(
    alloc: Global,
    known: &mut Known,
    pairs: &Pairs,
    joined: (u16, u32),
    call: &Call,
) -> Result<bool, AllocError>
    requires { IsKnown pairs.now.groups pairs.now.recording known.old }
    ensures value { IfOk result (λ is. is ≡ is_wrong_group pairs.now.groups pairs.now.recording call.now joined) }
    ensures known { OnOk result (IsKnown pairs.now.groups pairs.now.recording known.new) }
{
    match making_of(joined.0, joined.1, call) {
        Some(making) => known.is_wrong(alloc, pairs, making),
        None => Ok(false),
    }
}

/// Whether the call at the place has such a group, in the wave that it joins. A collective of a kind makes no
/// communicator.
#[tactic(auto, using(crate::proofs::AlikeLemmas::no_wave_is_wrong))]
fn is_wrong_at(
    alloc: Global,
    known: &mut Known,
    pairs: &Pairs,
    rank: u16,
    place: u32,
) -> Result<bool, AllocError>
    requires { IsKnown pairs.now.groups pairs.now.recording known.old }
    ensures value { IfOk result (λ is. is ≡ is_wrong_at pairs.now.groups pairs.now.recording rank place) }
    ensures known { OnOk result (IsKnown pairs.now.groups pairs.now.recording known.new) }
{
    match pairs.call(rank, place) {
        Some(call) if call.kind().is_none() => match pairs.wave_of(rank, place) {
            Some(joined) => is_wrong_call(alloc, known, pairs, joined, call.record().as_call()),
            None => Ok(false),
        },
        _ => Ok(false),
    }
}

#[tactic(auto, unfolding(crate::specs::Findings::group_at))]
fn add_at(
    findings: &mut Vec<Finding>,
    known: &mut Known,
    pairs: &Pairs,
    rank: u16,
    place: u32,
) -> Result<(), AllocError>
    requires { IsKnown pairs.now.groups pairs.now.recording known.old }
    ensures value { OnOk result (findings.new.items ≡ findings.old.items ++ group_at pairs.now.groups pairs.now.recording rank place) }
    ensures known { OnOk result (IsKnown pairs.now.groups pairs.now.recording known.new) }
{
    if is_wrong_at(*findings.allocator(), known, pairs, rank, place)? {
        findings.push(Finding::Group { rank, place })?;
    }
    Ok(())
}

fn add_of_rank(
    findings: &mut Vec<Finding>,
    known: &mut Known,
    pairs: &Pairs,
    rank: u16,
) -> Result<(), AllocError>
    requires { IsKnown pairs.now.groups pairs.now.recording known.old }
    ensures value { OnOk result (findings.new.items
        ≡ findings.old.items ++ over_places (group_at pairs.now.groups pairs.now.recording rank) pairs.now.recording rank) }
    ensures known { OnOk result (IsKnown pairs.now.groups pairs.now.recording known.new) }
{
    for place in 0..calls(pairs, rank) {
        add_at(findings, known, pairs, rank, place)?;
    }
    Ok(())
}

/// Adds the calls whose new communicators have other groups than the calls give them, by rank and place. Where no
/// call makes one it looks at none.
#[tactic(auto, using(crate::proofs::NothingLemmas::none_wrong), unfolding(crate::specs::Findings::wrong_groups_of))]
pub fn add_wrong_groups(
    alloc: Global,
    findings: &mut Vec<Finding>,
    pairs: &Pairs,
) -> Result<(), AllocError>
    ensures { OnOk result (findings.new.items ≡ findings.old.items ++ wrong_groups_of pairs.now.groups pairs.now.recording) }
{
    if !pairs.has_made() {
        return Ok(());
    }
    let mut known = Known::new(alloc);
    for rank in 0..ranks(pairs) {
        add_of_rank(findings, &mut known, pairs, rank)?;
    }
    Ok(())
}
