//! Looks: whether a rank can move on where it stands, and if not, what it waits for. A look takes no memory,
//! and it ends at the first need that is not met.
//!
//! A call that its rank hasn't reached meets no need of anybody, so no look follows it. A look at a wave
//! compares two numbers: how many waves of the communicator are complete, and the number of the wave.

ghost use Rattle.std.specs.Prelude.{◌≡◌, ◌<◌, slice_get, slice_index, option_to_list, IfSome};
ghost use Rattle.std.specs.List.{list_all};
ghost use Rattle.callstore.specs.Limits.{most_calls};
ghost use Rattle.callstore.specs.Recordings.{calls_of};
ghost use Rattle.moves.specs.Needs.{is_met};
ghost use Rattle.pairing.specs.Seen.{call_seen};
ghost use Rattle.moves.specs.inner.Waiting.{message_needs};
ghost use Rattle.moves.specs.Worlds.{IsSeenAt};
ghost use Rattle.moves.specs.inner.Positions.{IsCallAt, IsCallIf, IsSeenIf, KnowWaves, OperationTells, RequestTells, RequestsTell, CallTells, RankTells};

use crate::need::{At, Need, is_met, need_to_probe, need_to_receive, need_to_send};
use crate::world::{Positions, World};
use callstore::hot::{COLL, IRECV, ISEND, RECV, SEND, WAIT, WAITALL};
use pairing::call_at::CallAt;

/// What a look at a rank answers.
#[derive(Clone, Copy)]
pub(crate) enum Look {
    /// The rank has no call where it stands, or the one that ends its list.
    Over,
    /// Each need of its call is met.
    Moves,
    /// A message of the operation at the place has no partner that is reached, or a probe there sees no send that
    /// is reached.
    Partner { place: u32 },
    /// A wave of the communicator is not complete.
    Wave { comm: u16 },
}

/// Whether a need is met, where there is one.
#[inline(always)]
fn is_none_or_met(positions: &Positions, need: Option<Need>) -> bool
    ensures { result ≡ list_all (is_met positions.now.stands.items) (option_to_list need) }
{
    match need {
        Some(need) => is_met(&positions.stands, &need),
        None => true,
    }
}

/// Whether each message of the call has what it needs. Not by `need_for`: three of it are too large to be inlined.
#[inline(always)]
fn are_messages_met(world: &World, positions: &Positions, at: At, call: &CallAt<'_>) -> bool
    requires { IsSeenAt world.now at call.now }
    ensures { result ≡ list_all (is_met positions.now.stands.items) (message_needs world.now.reading world.now.pairs.groups world.now.pairs.recording at.0 at.1 (call_seen call.now)) }
{
    is_none_or_met(positions, need_to_send(world, at, call))
        && is_none_or_met(positions, need_to_receive(world, at, call))
        && is_none_or_met(positions, need_to_probe(world, at, call))
}

/// Looks at the operation of the call at the place.
#[inline(always)]
fn look_at_operation(world: &World, positions: &Positions, at: At, call: &CallAt<'_>) -> Look
    requires waves { KnowWaves world.now positions.now }
    requires call { IsCallAt world.now at (call_seen call.now) }
    requires seen { IsSeenAt world.now at call.now }
    ensures { OperationTells world.now positions.now at result }
{
    if !are_messages_met(world, positions, at, call) {
        return Look::Partner { place: at.1 };
    }
    match positions.progress.open_wave(&world.pairs, call.wave()) {
        Some(comm) => Look::Wave { comm },
        None => Look::Moves,
    }
}

/// Looks at the operation of any call at the place: the slow way, for calls that come seldom. It looks the call up again, so
/// that the fast way needs no place in memory for what it looked up.
#[inline(never)]
fn look_at_any_operation(world: &World, positions: &Positions, at: At) -> Look
    requires { KnowWaves world.now positions.now }
    ensures { OperationTells world.now positions.now at result }
{
    match world.pairs.at(at.0, at.1) {
        Some(call) => look_at_operation(world, positions, at, &call),
        None => Look::Moves,
    }
}

/// Looks at the operation of a call of this kind at the place. There is one such function for each kind that
/// comes often, built for it alone; another kind of call goes the slow way.
fn look_at_operation_of<const KIND: u8>(
    world: &World,
    positions: &Positions,
    at: At,
    call: &CallAt<'_>,
) -> Look
    requires waves { KnowWaves world.now positions.now }
    requires call { IsCallAt world.now at (call_seen call.now) }
    requires seen { IsSeenAt world.now at call.now }
    ensures { OperationTells world.now positions.now at result }
{
    if call.call().hot_kind() == KIND {
        look_at_operation(world, positions, at, call)
    } else {
        look_at_any_operation(world, positions, at)
    }
}

/// Looks at the operation of the call at the place, which starts a request.
#[inline(always)]
fn look_at_started(world: &World, positions: &Positions, at: At, call: &CallAt<'_>) -> Look
    requires waves { KnowWaves world.now positions.now }
    requires call { IsCallAt world.now at (call_seen call.now) }
    requires seen { IsSeenAt world.now at call.now }
    ensures { OperationTells world.now positions.now at result }
{
    match call.call().hot_kind() {
        ISEND => look_at_operation_of::<ISEND>(world, positions, at, call),
        IRECV => look_at_operation_of::<IRECV>(world, positions, at, call),
        _ => look_at_any_operation(world, positions, at),
    }
}

/// Looks at the operation of the rank's call at the place, which started a request.
#[inline(never)]
fn look_at_start(world: &World, positions: &Positions, rank: u16, start: u32) -> Look
    requires { KnowWaves world.now positions.now }
    ensures { OperationTells world.now positions.now (rank, start) result }
{
    match world.pairs.at(rank, start) {
        Some(call) => look_at_started(world, positions, (rank, start), &call),
        None => Look::Moves,
    }
}

/// Looks at the request with that index among those that the call at the place completes.
fn look_at_request(
    world: &World,
    positions: &Positions,
    at: At,
    call: &CallAt<'_>,
    index: usize,
) -> Look
    requires waves { KnowWaves world.now positions.now }
    requires seen { IsSeenAt world.now at call.now }
    ensures { RequestTells world.now positions.now at index result }
{
    match call.completed(index) {
        Some(start) => look_at_start(world, positions, at.0, start),
        None => Look::Moves,
    }
}

/// Looks at the requests that the call at the place completes, up to the first that isn't done.
#[inline(always)]
fn look_at_requests(world: &World, positions: &Positions, at: At, call: &CallAt<'_>) -> Look
    requires waves { KnowWaves world.now positions.now }
    requires call { IsCallAt world.now at (call_seen call.now) }
    requires seen { IsSeenAt world.now at call.now }
    ensures { RequestsTell world.now positions.now at (call_seen call.now) result }
{
    for index in 0..call.call().completed_count() {
        match look_at_request(world, positions, at, call, index) {
            Look::Moves => {}
            look => return look,
        }
    }
    Look::Moves
}

/// Looks at any call at the place that doesn't end its list: the slow way, which looks the call up again. A call that starts
/// a request needs nothing.
#[inline(never)]
fn look_at_any_call(world: &World, positions: &Positions, at: At) -> Look
    requires { KnowWaves world.now positions.now }
    ensures { IfSome (slice_get (calls_of world.now.pairs.recording at.0) at.1) (λ call. CallTells world.now positions.now at call result) }
{
    let Some(call) = world.pairs.at(at.0, at.1) else {
        return Look::Over;
    };
    if call.call().starts().is_some() {
        return Look::Moves;
    }
    match look_at_operation(world, positions, at, &call) {
        Look::Moves => look_at_requests(world, positions, at, &call),
        look => look,
    }
}

/// Looks at a call of this kind at the place. There is one such function for each kind that comes often and starts no
/// request, built for it alone; another kind of call goes the slow way.
fn look_at_call_of<const KIND: u8>(
    world: &World,
    positions: &Positions,
    at: At,
    call: &CallAt<'_>,
) -> Look
    requires waves { KnowWaves world.now positions.now }
    requires call { IsCallAt world.now at (call_seen call.now) }
    requires seen { IsSeenAt world.now at call.now }
    ensures { CallTells world.now positions.now at (call_seen call.now) result }
{
    if call.call().hot_kind() != KIND {
        return look_at_any_call(world, positions, at);
    }
    if call.call().starts().is_some() {
        return Look::Moves;
    }
    match look_at_operation_of::<KIND>(world, positions, at, call) {
        Look::Moves => look_at_requests(world, positions, at, call),
        look => look,
    }
}

/// Looks at the call at the place, by the function of its kind. A call that starts a request needs nothing.
#[inline(always)]
fn look_at_call(world: &World, positions: &Positions, at: At, call: &CallAt<'_>) -> Look
    requires waves { KnowWaves world.now positions.now }
    requires call { IsCallAt world.now at (call_seen call.now) }
    requires seen { IsSeenAt world.now at call.now }
    ensures { CallTells world.now positions.now at (call_seen call.now) result }
{
    // Not by_kind!: functions for starts that are never called would be second callers of those for a started request.
    match call.call().hot_kind() {
        ISEND | IRECV if call.call().starts().is_some() => Look::Moves,
        SEND => look_at_call_of::<SEND>(world, positions, at, call),
        RECV => look_at_call_of::<RECV>(world, positions, at, call),
        COLL => look_at_call_of::<COLL>(world, positions, at, call),
        WAIT => look_at_call_of::<WAIT>(world, positions, at, call),
        WAITALL => look_at_call_of::<WAITALL>(world, positions, at, call),
        _ => look_at_any_call(world, positions, at),
    }
}

/// Looks at a rank where it stands, at its call at the place, if one is there.
#[inline(always)]
pub(crate) fn look_at_place(
    world: &World,
    positions: &Positions,
    at: At,
    call: &Option<CallAt<'_>>,
) -> Look
    requires waves { KnowWaves world.now positions.now }
    requires call { IsCallIf world.now at call.now }
    requires seen { IsSeenIf world.now at call.now }
    requires few { IfSome call.now (λ call. at.1 < most_calls) }
    requires is_there { at.1 ≡ slice_index positions.now.stands.items at.0 }
    ensures tells { RankTells world.now positions.now at.0 result }
    ensures room { result ≡ Look.Moves → slice_index positions.now.stands.items at.0 < most_calls }
{
    match call {
        Some(call) if !call.call().ends_list() => look_at_call(world, positions, at, call),
        _ => Look::Over,
    }
}
