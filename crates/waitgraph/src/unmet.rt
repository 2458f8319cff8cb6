//! Needs that aren't met where the ranks stand.

ghost use Rattle.std.specs.Prelude.{◌≡◌, [], ◌++◌, Some, map, flat_map, slice_get, option_to_list, IfOk, OnOk};
ghost use Rattle.callstore.specs.Recordings.{calls_of};
ghost use Rattle.std.specs.List.{filter};
ghost use Rattle.std.specs.Option.{option_map_or};
ghost use Rattle.std.specs.Ordering.{is_lt};
ghost use Rattle.mpigroup.specs.Groups.{group_of};
ghost use Rattle.callstore.specs.Requests.{completes};
ghost use Rattle.pairing.specs.Pairs.{completed_of};
ghost use Rattle.pairing.specs.Seen.{call_seen};
ghost use Rattle.moves.specs.Worlds.{IsSeenAt};
ghost use Rattle.moves.specs.Needs.{member_need, wave_needs, operation_needs, operation_needs_at, request_needs, needs_of};
ghost use Rattle.waitgraph.specs.Stuck.{comes_before, needs_in_order, unmet_at, UnmetNeedsAreToldInOrder, StuckRanksWaitForStuckRanks};
ghost use Rattle.waitgraph.specs.inner.Stuck.{is_unmet};

use moves::need::{At, Need, Part, is_met, member_need, members, need_for, stand_of};
use moves::world::World;
use pairing::call_at::CallAt;
use pairing::pairs::Pairs;
use std::alloc::{AllocError, Global};
use std::cmp::Ordering;

/// Whether the one need comes before the other: needs are ordered by rank and then by place, and what a
/// rank lacks comes after its calls.
fn comes_before(need: &Need, other: &Need) -> bool
    ensures { result ≡ comes_before need.now other.now }
{
    match (*need, *other) {
        (Need::At { rank, place }, Need::At { rank: r, place: p }) => {
            rank < r || (rank == r && place < p)
        }
        (Need::At { rank, .. }, Need::Lacking { rank: r }) => rank <= r,
        (Need::Lacking { rank }, Need::At { rank: r, .. } | Need::Lacking { rank: r }) => rank < r,
    }
}

/// Which of two needs comes first.
fn order_of(need: &Need, other: &Need) -> Ordering
    ensures { is_lt result ≡ comes_before need.now other.now }
{
    if comes_before(need, other) {
        Ordering::Less
    } else if comes_before(other, need) {
        Ordering::Greater
    } else {
        Ordering::Equal
    }
}

/// Puts needs in order, each once.
pub(crate) fn put_in_order(needs: &mut Vec<Need>)
    ensures { needs.new.items ≡ needs_in_order needs.old.items }
{
    needs.sort_unstable_by(|need, other| order_of(need, other));
    needs.dedup();
}

/// Adds a need, if there is one and it isn't met.
fn add_unmet(unmet: &mut Vec<Need>, stands: &[u32], need: Option<Need>) -> Result<(), AllocError>
    ensures { OnOk result (unmet.new.items ≡ unmet.old.items ++ filter (is_unmet stands.now) (option_to_list need)) }
{
    if let Some(need) = need {
        if !is_met(stands, &need) {
            unmet.push(need)?;
        }
    }
    Ok(())
}

/// Adds what the wave still needs of each member of its communicator.
fn add_member_needs(
    unmet: &mut Vec<Need>,
    pairs: &Pairs,
    stands: &[u32],
    comm: u16,
    wave: u32,
) -> Result<(), AllocError>
    ensures { OnOk result (unmet.new.items ≡ unmet.old.items ++ filter (is_unmet stands.now) (map (member_need pairs.now.recording comm wave) (group_of pairs.now.groups comm))) }
{
    for g in 0..members(pairs, comm) {
        if let Some(member) = pairs.head().world_rank(comm, g) {
            let need = member_need(pairs, comm, wave, g, member);
            add_unmet(unmet, stands, Some(need))?;
        }
    }
    Ok(())
}

fn add_wave_needs(
    unmet: &mut Vec<Need>,
    pairs: &Pairs,
    stands: &[u32],
    at: At,
) -> Result<(), AllocError>
    ensures { OnOk result (unmet.new.items ≡ unmet.old.items ++ filter (is_unmet stands.now) (wave_needs pairs.now.groups pairs.now.recording at.0 at.1)) }
{
    match pairs.wave_of(at.0, at.1) {
        Some((comm, wave)) => add_member_needs(unmet, pairs, stands, comm, wave),
        None => Ok(()),
    }
}

/// Adds what the operation of the call at the place still needs before it is done.
fn add_operation_needs(
    unmet: &mut Vec<Need>,
    world: &World,
    stands: &[u32],
    at: At,
    call: &CallAt<'_>,
) -> Result<(), AllocError>
    requires { IsSeenAt world.now at call.now }
    ensures { OnOk result (unmet.new.items ≡ unmet.old.items ++ filter (is_unmet stands.now) (operation_needs world.now.reading world.now.pairs.groups world.now.pairs.recording at.0 at.1 (call_seen call.now))) }
{
    add_unmet(unmet, stands, need_for(world, at, Part::Sent, call))?;
    add_unmet(unmet, stands, need_for(world, at, Part::Received, call))?;
    add_unmet(unmet, stands, need_for(world, at, Part::Probed, call))?;
    add_wave_needs(unmet, &world.pairs, stands, at)
}

/// Adds the same of the call that started a request.
fn add_start_needs(
    unmet: &mut Vec<Need>,
    world: &World,
    stands: &[u32],
    rank: u16,
    start: Option<u32>,
) -> Result<(), AllocError>
    ensures { OnOk result (unmet.new.items ≡ unmet.old.items ++ filter (is_unmet stands.now) (option_map_or (operation_needs_at world.now.reading world.now.pairs.groups world.now.pairs.recording rank) start [])) }
{
    let Some(place) = start else {
        return Ok(());
    };
    match world.pairs.at(rank, place) {
        Some(call) => add_operation_needs(unmet, world, stands, (rank, place), &call),
        None => Ok(()),
    }
}

/// Adds the same of the request with that index among those that the call at the place completes.
fn add_request_needs(
    unmet: &mut Vec<Need>,
    world: &World,
    stands: &[u32],
    at: At,
    index: usize,
) -> Result<(), AllocError>
    ensures { OnOk result (unmet.new.items ≡ unmet.old.items ++ filter (is_unmet stands.now) (option_map_or (operation_needs_at world.now.reading world.now.pairs.groups world.now.pairs.recording at.0) (completed_of world.now.pairs.recording at.0 at.1 index) [])) }
{
    let start = world.pairs.completed(at.0, at.1, index);
    add_start_needs(unmet, world, stands, at.0, start)
}

/// Adds the same of each request that the call at the place completes.
fn add_completed_needs(
    unmet: &mut Vec<Need>,
    world: &World,
    stands: &[u32],
    at: At,
    call: &CallAt<'_>,
) -> Result<(), AllocError>
    requires { slice_get (calls_of world.now.pairs.recording at.0) at.1 ≡ Some (call_seen call.now) }
    ensures { OnOk result (unmet.new.items ≡ unmet.old.items ++ filter (is_unmet stands.now) (flat_map (request_needs world.now.reading world.now.pairs.groups world.now.pairs.recording at.0 at.1) (completes (call_seen call.now)))) }
{
    for index in 0..call.call().completed_count() {
        add_request_needs(unmet, world, stands, at, index)?;
    }
    Ok(())
}

/// Adds what the call at the place still needs: nothing where there is none, or it starts a request.
pub(crate) fn add_needs(
    unmet: &mut Vec<Need>,
    world: &World,
    stands: &[u32],
    at: At,
) -> Result<(), AllocError>
    ensures { OnOk result (unmet.new.items ≡ unmet.old.items ++ filter (is_unmet stands.now) (needs_of world.now.reading world.now.pairs.groups world.now.pairs.recording at.0 at.1)) }
{
    match world.pairs.at(at.0, at.1) {
        Some(call) if call.call().starts().is_none() => {
            add_operation_needs(unmet, world, stands, at, &call)?;
            add_completed_needs(unmet, world, stands, at, &call)
        }
        _ => Ok(()),
    }
}

/// The unmet needs of the rank's present call, in order and each once. All are found, and then they are sorted.
pub(crate) fn unmet_at(
    alloc: Global,
    world: &World,
    stands: &[u32],
    rank: u16,
) -> Result<Vec<Need>, AllocError>
    ensures { IfOk result (λ unmet. unmet.items ≡ unmet_at world.now.reading world.now.pairs.groups world.now.pairs.recording stands.now rank) }
{
    let mut unmet = Vec::new(alloc);
    add_needs(&mut unmet, world, stands, (rank, stand_of(stands, rank)))?;
    put_in_order(&mut unmet);
    Ok(unmet)
}

/// The unmet needs of the request of the rank that was started at the place, in order and each once.
pub(crate) fn request_unmet(
    alloc: Global,
    world: &World,
    stands: &[u32],
    rank: u16,
    start: Option<u32>,
) -> Result<Vec<Need>, AllocError>
    ensures { IfOk result (λ unmet. unmet.items ≡ needs_in_order (filter (is_unmet stands.now) (option_map_or (operation_needs_at world.now.reading world.now.pairs.groups world.now.pairs.recording rank) start []))) }
{
    let mut unmet = Vec::new(alloc);
    add_start_needs(&mut unmet, world, stands, rank, start)?;
    put_in_order(&mut unmet);
    Ok(unmet)
}

/// The unmet needs of a rank are those needs of its present call that aren't met at the stands, and each
/// comes before those after it, so none is listed twice. It has no premise.
pub fn unmet_needs_are_told_in_order()
    ensures { UnmetNeedsAreToldInOrder }
{}

/// A stuck rank of a closed recording has an unmet need, a rank that isn't stuck has none, and a rank whose
/// call is needed and not reached is stuck itself.
#[tactic(auto, using(crate::proofs::StuckLemmas::stuck_ranks_wait_for_stuck_ranks))]
pub fn stuck_ranks_wait_for_stuck_ranks()
    ensures { StuckRanksWaitForStuckRanks }
{}
