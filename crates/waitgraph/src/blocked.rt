//! What calls need and doesn't come while the ranks without a mark stay.

ghost use Rattle.std.specs.Prelude.{◌≡◌, ◌++◌, Some, flat_map, map, option_to_list, slice_get, IfOk, OnOk};
ghost use Rattle.callstore.specs.Recordings.{calls_of};
ghost use Rattle.callstore.specs.Requests.{completes, started_before};
ghost use Rattle.mpigroup.specs.Groups.{group_of};
ghost use Rattle.moves.specs.Needs.{member_need, wave_needs};
ghost use Rattle.moves.specs.Worlds.{IsSeenAt};
ghost use Rattle.pairing.specs.Seen.{call_seen};
ghost use Rattle.waitgraph.specs.Stuck.{needs_in_order};
ghost use Rattle.waitgraph.specs.PendingNeeds.{brought_by, blocked, operation_blocks, request_blocks, call_blocks};
ghost use Rattle.waitgraph.specs.inner.Scenes.{comes, sent_blocks};

use crate::may_move::{Scene, comes, sink_for};
use crate::pending::Sink;
use crate::unmet::put_in_order;
use moves::need::{At, Need, Part, member_need, members, need_for};
use pairing::call_at::CallAt;
use std::alloc::{AllocError, Global};

/// What must be met for the need of a send to come.
fn brought_by(sink: Option<Sink>, need: &Need) -> Need
    ensures { result ≡ brought_by sink need.now }
{
    match sink {
        Some(sink) => Need::At {
            rank: sink.rank,
            place: sink.place,
        },
        None => *need,
    }
}

/// Adds what the call at the place needs for the message that it sends, if it doesn't come.
fn add_sent(
    needs: &mut Vec<Need>,
    scene: &Scene<'_>,
    marks: &[bool],
    at: At,
    call: &CallAt<'_>,
) -> Result<(), AllocError>
    requires { IsSeenAt scene.now.world.now at call.now }
    ensures { OnOk result (needs.new.items ≡ needs.old.items ++ sent_blocks scene.now marks.now at (call_seen call.now)) }
{
    let Some(need) = need_for(scene.world, at, Part::Sent, call) else {
        return Ok(());
    };
    let sink = sink_for(&scene.world.pairs, scene.sinks, at);
    if !comes(scene, marks, &brought_by(sink, &need)) {
        needs.push(need)?;
    }
    Ok(())
}

/// Adds the need, if there is one and it doesn't come.
fn add_blocked(
    needs: &mut Vec<Need>,
    scene: &Scene<'_>,
    marks: &[bool],
    need: Option<Need>,
) -> Result<(), AllocError>
    ensures { OnOk result (needs.new.items ≡ needs.old.items ++ blocked (comes scene.now marks.now) (option_to_list need)) }
{
    if let Some(need) = need {
        if !comes(scene, marks, &need) {
            needs.push(need)?;
        }
    }
    Ok(())
}

/// Adds what the wave needs of each member of its communicator and doesn't come.
fn add_members(
    needs: &mut Vec<Need>,
    scene: &Scene<'_>,
    marks: &[bool],
    comm: u16,
    wave: u32,
) -> Result<(), AllocError>
    ensures { OnOk result (needs.new.items ≡ needs.old.items ++ blocked (comes scene.now marks.now) (map (member_need scene.now.world.now.pairs.recording comm wave) (group_of scene.now.world.now.pairs.groups comm))) }
{
    let pairs = &scene.world.pairs;
    for g in 0..members(pairs, comm) {
        if let Some(member) = pairs.head().world_rank(comm, g) {
            let need = member_need(pairs, comm, wave, g, member);
            add_blocked(needs, scene, marks, Some(need))?;
        }
    }
    Ok(())
}

fn add_wave(
    needs: &mut Vec<Need>,
    scene: &Scene<'_>,
    marks: &[bool],
    at: At,
) -> Result<(), AllocError>
    ensures { OnOk result (needs.new.items ≡ needs.old.items ++ blocked (comes scene.now marks.now) (wave_needs scene.now.world.now.pairs.groups scene.now.world.now.pairs.recording at.0 at.1)) }
{
    match scene.world.pairs.wave_of(at.0, at.1) {
        Some((comm, wave)) => add_members(needs, scene, marks, comm, wave),
        None => Ok(()),
    }
}

/// Adds what the operation of the call at the place needs and doesn't come.
fn add_operation(
    needs: &mut Vec<Need>,
    scene: &Scene<'_>,
    marks: &[bool],
    at: At,
    call: &CallAt<'_>,
) -> Result<(), AllocError>
    requires { IsSeenAt scene.now.world.now at call.now }
    ensures { OnOk result (needs.new.items ≡ needs.old.items ++ operation_blocks (comes scene.now marks.now) scene.now.world.now.reading scene.now.world.now.pairs.groups scene.now.world.now.pairs.recording scene.now.sinks.now at.0 at.1 (call_seen call.now)) }
{
    add_sent(needs, scene, marks, at, call)?;
    let received = need_for(scene.world, at, Part::Received, call);
    add_blocked(needs, scene, marks, received)?;
    let probed = need_for(scene.world, at, Part::Probed, call);
    add_blocked(needs, scene, marks, probed)?;
    add_wave(needs, scene, marks, at)
}

/// Adds the same of the call that started a request.
fn add_request(
    needs: &mut Vec<Need>,
    scene: &Scene<'_>,
    marks: &[bool],
    rank: u16,
    start: Option<u32>,
) -> Result<(), AllocError>
    ensures { OnOk result (needs.new.items ≡ needs.old.items ++ request_blocks (comes scene.now marks.now) scene.now.world.now.reading scene.now.world.now.pairs.groups scene.now.world.now.pairs.recording scene.now.sinks.now rank start) }
{
    let Some(place) = start else {
        return Ok(());
    };
    match scene.world.pairs.at(rank, place) {
        Some(call) => add_operation(needs, scene, marks, (rank, place), &call),
        None => Ok(()),
    }
}

/// Adds the same of each request that the call at the place completes.
fn add_requests(
    needs: &mut Vec<Need>,
    scene: &Scene<'_>,
    marks: &[bool],
    at: At,
    call: &CallAt<'_>,
) -> Result<(), AllocError>
    requires { slice_get (calls_of scene.now.world.now.pairs.recording at.0) at.1 ≡ Some (call_seen call.now) }
    ensures { OnOk result (needs.new.items ≡ needs.old.items ++ flat_map (λ req. request_blocks (comes scene.now marks.now) scene.now.world.now.reading scene.now.world.now.pairs.groups scene.now.world.now.pairs.recording scene.now.sinks.now at.0 (started_before scene.now.world.now.pairs.recording at.0 at.1 req)) (completes (call_seen call.now))) }
{
    for index in 0..call.call().completed_count() {
        let start = scene.world.pairs.completed(at.0, at.1, index);
        add_request(needs, scene, marks, at.0, start)?;
    }
    Ok(())
}

/// Adds what the call at the place needs and doesn't come.
fn add_call(
    needs: &mut Vec<Need>,
    scene: &Scene<'_>,
    marks: &[bool],
    at: At,
    call: &CallAt<'_>,
) -> Result<(), AllocError>
    requires present { slice_get (calls_of scene.now.world.now.pairs.recording at.0) at.1 ≡ Some (call_seen call.now) }
    requires seen { IsSeenAt scene.now.world.now at call.now }
    ensures { OnOk result (needs.new.items ≡ needs.old.items ++ call_blocks (comes scene.now marks.now) scene.now.world.now.reading scene.now.world.now.pairs.groups scene.now.world.now.pairs.recording scene.now.sinks.now at.0 at.1 (call_seen call.now)) }
{
    if call.call().starts().is_some() {
        return Ok(());
    }
    add_operation(needs, scene, marks, at, call)?;
    add_requests(needs, scene, marks, at, call)
}

/// What the call at the place needs and doesn't come, in order and each once.
pub(crate) fn call_blocks(
    alloc: Global,
    scene: &Scene<'_>,
    marks: &[bool],
    at: At,
    call: &CallAt<'_>,
) -> Result<Vec<Need>, AllocError>
    requires present { slice_get (calls_of scene.now.world.now.pairs.recording at.0) at.1 ≡ Some (call_seen call.now) }
    requires seen { IsSeenAt scene.now.world.now at call.now }
    ensures { IfOk result (λ needs. needs.items ≡ needs_in_order (call_blocks (comes scene.now marks.now) scene.now.world.now.reading scene.now.world.now.pairs.groups scene.now.world.now.pairs.recording scene.now.sinks.now at.0 at.1 (call_seen call.now))) }
{
    let mut needs = Vec::new(alloc);
    add_call(&mut needs, scene, marks, at, call)?;
    put_in_order(&mut needs);
    Ok(needs)
}

/// What the request needs that was started at the place, and doesn't come, in order and each once.
pub(crate) fn request_blocks(
    alloc: Global,
    scene: &Scene<'_>,
    marks: &[bool],
    rank: u16,
    start: Option<u32>,
) -> Result<Vec<Need>, AllocError>
    ensures { IfOk result (λ needs. needs.items ≡ needs_in_order (request_blocks (comes scene.now marks.now) scene.now.world.now.reading scene.now.world.now.pairs.groups scene.now.world.now.pairs.recording scene.now.sinks.now rank start)) }
{
    let mut needs = Vec::new(alloc);
    add_request(&mut needs, scene, marks, rank, start)?;
    put_in_order(&mut needs);
    Ok(needs)
}
