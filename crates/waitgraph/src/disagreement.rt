//! Waves whose members disagree, calls that wait for one, and how far ranks come that never get past such a call.

ghost use Rattle.std.specs.Prelude.{◌≡◌, ◌<◌, true, length, option_and_then, slice_get, slice_index, IfOk};
ghost use Rattle.std.specs.List.{list_all, list_any, range_with_len};
ghost use Rattle.callstore.specs.Recordings.{calls_of};
ghost use Rattle.callstore.specs.Requests.{completes, starts};
ghost use Rattle.findings.specs.Findings.{group_ranks};
ghost use Rattle.findings.specs.Places.{call_at};
ghost use Rattle.moves.specs.Needs.{is_met, may_pass, needs_of};
ghost use Rattle.moves.specs.Runs.{IsReached, moved, start};
ghost use Rattle.pairing.specs.Seen.{call_seen};
ghost use Rattle.callstore.specs.Limits.{most_calls};
ghost use Rattle.waitgraph.specs.Disagreements.{as_blocking, roots_differ, differ, member_differs, first_caller, first_call, some_differs, member_blocks, is_completed, is_waited_for, member_waits, disagrees, is_of_disagreement, completes_disagreement, awaits_disagreement, is_barred};
ghost use Rattle.waitgraph.specs.HeldAmong.{AreAgreedStands};
ghost use Rattle.waitgraph.specs.inner.Agreed.{MovedOn, SweptOn, rule_of};

use crate::unmet::add_needs;
use callstore::request::starts;
use findings::finding::kind::is_same_word;
use findings::finding::root::root_of_call;
use findings::finding::wave::call_of_member;
use moves::need::{At, members, stand_of};
use moves::world::World;
use mpicall::call::Call;
use mpicall::record::Record;
use pairing::call_at::CallAt;
use pairing::pairs::Pairs;
use std::alloc::{AllocError, Global};

/// A collective call in its blocking form.
fn as_blocking(call: &Call) -> Call
    ensures { result ≡ as_blocking call.now }
{
    match *call {
        Call::Icoll { comm, kind, .. } => Call::Coll { comm, kind },
        call => call,
    }
}

fn roots_differ(first: Option<u16>, root: Option<u16>) -> bool
    ensures { result ≡ roots_differ first root }
{
    match (first, root) {
        (Some(first), Some(root)) => first != root,
        _ => false,
    }
}

/// Whether the calls are of different operations, or name different roots.
fn differ(first: &Call, call: &Call) -> bool
    ensures { result ≡ differ first.now call.now }
{
    !is_same_word(&as_blocking(first), &as_blocking(call))
        || roots_differ(root_of_call(first), root_of_call(call))
}

/// Whether the member's call in the wave differs from this one.
fn member_differs(pairs: &Pairs, comm: u16, wave: u32, first: &Call, g: u16) -> bool
    ensures { result ≡ member_differs pairs.now.groups pairs.now.recording comm wave first.now g }
{
    match call_of_member(pairs, comm, wave, g) {
        Some(call) => differ(first, call.as_call()),
        None => false,
    }
}

/// The first member that has a call in the wave.
fn first_caller(pairs: &Pairs, comm: u16, wave: u32) -> Option<u16>
    ensures { result ≡ first_caller pairs.now.groups pairs.now.recording comm wave }
{
    (0..members(pairs, comm)).find(|g| call_of_member(pairs, comm, wave, *g).is_some())
}

/// Its call.
fn first_call(pairs: &Pairs, comm: u16, wave: u32) -> Option<Record>
    ensures { result ≡ first_call pairs.now.groups pairs.now.recording comm wave }
{
    call_of_member(pairs, comm, wave, first_caller(pairs, comm, wave)?)
}

/// Whether some member's call in the wave does.
fn some_differs_from(pairs: &Pairs, comm: u16, wave: u32, first: &Call) -> bool
    ensures { result ≡ list_any (member_differs pairs.now.groups pairs.now.recording comm wave first.now) (group_ranks pairs.now.groups comm) }
{
    (0..members(pairs, comm)).any(|g| member_differs(pairs, comm, wave, first, g))
}

/// Whether some member's call in the wave differs from the first one's.
fn some_differs(pairs: &Pairs, comm: u16, wave: u32) -> bool
    ensures { result ≡ some_differs pairs.now.groups pairs.now.recording comm wave }
{
    match first_call(pairs, comm, wave) {
        Some(first) => some_differs_from(pairs, comm, wave, first.as_call()),
        None => false,
    }
}

/// Whether the member's call in the wave blocks.
fn member_blocks(pairs: &Pairs, comm: u16, wave: u32, g: u16) -> bool
    ensures { result ≡ member_blocks pairs.now.groups pairs.now.recording comm wave g }
{
    match call_of_member(pairs, comm, wave, g) {
        Some(call) => starts(call.as_call()).is_none(),
        None => false,
    }
}

fn some_blocks(pairs: &Pairs, comm: u16, wave: u32) -> bool
    ensures { result ≡ list_any (member_blocks pairs.now.groups pairs.now.recording comm wave) (group_ranks pairs.now.groups comm) }
{
    (0..members(pairs, comm)).any(|g| member_blocks(pairs, comm, wave, g))
}

/// Whether the request that a call started at the place is completed later.
fn is_completed(pairs: &Pairs, rank: u16, place: u32, req: u32) -> bool
    ensures { result ≡ is_completed pairs.now.recording rank place req }
{
    match pairs.active_start(rank, req) {
        Some(start) => start != place,
        None => true,
    }
}

/// The request that the call at the place starts.
fn started(pairs: &Pairs, rank: u16, place: u32) -> Option<u32>
    ensures { result ≡ option_and_then starts (call_at pairs.now.recording rank place) }
{
    pairs.call(rank, place)?.starts()
}

/// Whether the call at the place starts a request that is completed later.
fn is_waited_for(pairs: &Pairs, rank: u16, place: u32) -> bool
    ensures { result ≡ is_waited_for pairs.now.recording rank place }
{
    match started(pairs, rank, place) {
        Some(req) => is_completed(pairs, rank, place, req),
        None => false,
    }
}

/// Whether so does the member's call in the wave.
fn member_waits(pairs: &Pairs, comm: u16, wave: u32, g: u16) -> bool
    ensures { result ≡ member_waits pairs.now.groups pairs.now.recording comm wave g }
{
    let Some(rank) = pairs.head().world_rank(comm, g) else {
        return false;
    };
    match pairs.member(comm, wave, g) {
        Some(place) => is_waited_for(pairs, rank, place),
        None => false,
    }
}

fn some_waits(pairs: &Pairs, comm: u16, wave: u32) -> bool
    ensures { result ≡ list_any (member_waits pairs.now.groups pairs.now.recording comm wave) (group_ranks pairs.now.groups comm) }
{
    (0..members(pairs, comm)).any(|g| member_waits(pairs, comm, wave, g))
}

/// Whether the members of the wave disagree.
fn disagrees(pairs: &Pairs, comm: u16, wave: u32) -> bool
    ensures { result ≡ disagrees pairs.now.groups pairs.now.recording comm wave }
{
    some_differs(pairs, comm, wave)
        || some_blocks(pairs, comm, wave) && some_waits(pairs, comm, wave)
}

/// Whether the call at the place is of a wave that disagrees.
fn is_of_disagreement(pairs: &Pairs, rank: u16, place: u32) -> bool
    ensures { result ≡ is_of_disagreement pairs.now.groups pairs.now.recording rank place }
{
    match pairs.wave_of(rank, place) {
        Some((comm, wave)) => disagrees(pairs, comm, wave),
        None => false,
    }
}

/// Whether the request with the index is of such a wave, among those that the call at the place completes.
fn completes_disagreement(pairs: &Pairs, rank: u16, place: u32, index: usize) -> bool
    ensures { result ≡ completes_disagreement pairs.now.groups pairs.now.recording rank place index }
{
    match pairs.completed(rank, place, index) {
        Some(start) => is_of_disagreement(pairs, rank, start),
        None => false,
    }
}

/// Whether the call at the place completes a request of such a wave.
fn completes_some(pairs: &Pairs, rank: u16, place: u32, call: &CallAt<'_>) -> bool
    ensures { result ≡ list_any (completes_disagreement pairs.now.groups pairs.now.recording rank place) (range_with_len 0 (length (completes (call_seen call.now)))) }
{
    (0..call.call().completed_count()).any(|index| completes_disagreement(
        pairs, rank, place, index,
    ))
}

/// Whether the call at the place waits for a wave that disagrees.
fn awaits_disagreement(pairs: &Pairs, rank: u16, place: u32, call: &CallAt<'_>) -> bool
    ensures { result ≡ awaits_disagreement pairs.now.groups pairs.now.recording rank place (call_seen call.now) }
{
    if call.call().starts().is_some() {
        return false;
    }
    is_of_disagreement(pairs, rank, place) || completes_some(pairs, rank, place, call)
}

/// Whether the rank's call at the place does.
pub(crate) fn is_barred(pairs: &Pairs, rank: u16, place: u32) -> bool
    ensures { result ≡ is_barred pairs.now.groups pairs.now.recording rank place }
{
    match pairs.at(rank, place) {
        Some(call) => awaits_disagreement(pairs, rank, place, &call),
        None => false,
    }
}

/// Whether there is a call at the place, and it doesn't end the rank's list.
fn may_pass(pairs: &Pairs, rank: u16, place: u32) -> bool
    ensures passes { result ≡ may_pass (slice_get (calls_of pairs.now.recording rank) place) }
    ensures few { result ≡ true → place < most_calls }
{
    match pairs.at(rank, place) {
        Some(call) => !call.call().ends_list(),
        None => false,
    }
}

/// Whether all that the call at the place needs is reached.
#[tactic(auto, using(crate::proofs::AgreedLemmas::none_unmet))]
fn is_met(alloc: Global, world: &World, stands: &[u32], at: At) -> Result<bool, AllocError>
    ensures { IfOk result (λ is. is ≡ list_all (is_met stands.now) (needs_of world.now.reading world.now.pairs.groups world.now.pairs.recording at.0 at.1)) }
{
    let mut unmet = Vec::new(alloc);
    add_needs(&mut unmet, world, stands, at)?;
    Ok(unmet.as_slice().is_empty())
}

/// Whether the rank can move on from there without getting past a wave that disagrees.
fn moves_agreed(alloc: Global, world: &World, stands: &[u32], rank: u16) -> Result<bool, AllocError>
    ensures moves { IfOk result (λ moves. moves ≡ rule_of world.now stands.now rank) }
    ensures few { IfOk result (λ moves. moves ≡ true → slice_index stands.now rank < most_calls) }
{
    let place = stand_of(stands, rank);
    if !may_pass(&world.pairs, rank, place) || is_barred(&world.pairs, rank, place) {
        return Ok(false);
    }
    is_met(alloc, world, stands, (rank, place))
}

/// Moves the rank on by one.
fn step(stands: &mut Vec<u32>, rank: u16)
    requires is_rank { rank < length stands.old.items }
    requires few { slice_index stands.old.items rank < most_calls }
    ensures { stands.new.items ≡ moved stands.old.items rank }
{
    stands[usize::from(rank)] += 1;
}

/// Moves the rank on as far as it gets while the others stay. Says whether it moved.
fn move_on(
    alloc: Global,
    world: &World,
    stands: &mut Vec<u32>,
    rank: u16,
) -> Result<bool, AllocError>
    requires is_rank { rank < length world.now.pairs.recording }
    requires reached { IsReached (rule_of world.now) (length world.now.pairs.recording) stands.old.items }
    ensures { IfOk result (λ has_moved. MovedOn world.now rank stands.old.items stands.new.items has_moved) }
{
    let mut has_moved = false;
    while moves_agreed(alloc, world, stands, rank)? {
        step(stands, rank);
        has_moved = true;
    }
    Ok(has_moved)
}

/// Moves each rank on as far as it gets, one after another. Says whether one moved.
fn sweep(alloc: Global, world: &World, stands: &mut Vec<u32>) -> Result<bool, AllocError>
    requires { IsReached (rule_of world.now) (length world.now.pairs.recording) stands.old.items }
    ensures { IfOk result (λ more. SweptOn world.now (length world.now.pairs.recording) stands.old.items stands.new.items more) }
{
    let mut more = false;
    for rank in 0..world.pairs.head().ranks() {
        if move_on(alloc, world, stands, rank)? {
            more = true;
        }
    }
    Ok(more)
}

/// All ranks at the start.
fn start(alloc: Global, world: &World) -> Result<Vec<u32>, AllocError>
    ensures { IfOk result (λ stands. stands.items ≡ start (length world.now.pairs.recording)) }
{
    vec![in alloc; 0; usize::from(world.pairs.head().ranks())]
}

/// Where each rank ends up that never gets past a call which waits for a wave that disagrees.
pub(crate) fn agreed_stands(alloc: Global, world: &World) -> Result<Vec<u32>, AllocError>
    ensures { IfOk result (λ stands. AreAgreedStands world.now.reading world.now.pairs.groups world.now.pairs.recording stands.items) }
{
    let mut stands = start(alloc, world)?;
    while sweep(alloc, world, &mut stands)? {}
    Ok(stands)
}
