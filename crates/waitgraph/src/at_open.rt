//! What held ranks wait for: those at their opens, and how the walk goes on from each.

ghost use Rattle.std.specs.Prelude.{◌≡◌, ◌<◌, flat_map, length, map, option_map, IfOk};
ghost use Rattle.std.specs.List.{range_with_len};
ghost use Rattle.waitgraph.specs.PendingNeeds.{item_awaits, item_blocks, is_at_open};
ghost use Rattle.waitgraph.specs.inner.Scenes.{comes, staying, HasOpened, HasSpares, HasSparesIfAsked, items_in, awaited_by, present_by, blocks_by, held_up_in, hop_from_awaited, walks_by};
ghost use Rattle.waitgraph.specs.declared.awaited.Awaited.TheVariants as awaited;

use crate::awaited::Awaited;
use crate::blocked::{call_blocks, request_blocks};
use crate::may_move::{Scene, is_missing, rank_needed, ranks, stays};
use crate::next_hop::NextHop;
use crate::pending::Item;
use crate::senders::message_awaits;
use crate::unmet::request_unmet;
use moves::need::{Need, stand_of};
use pairing::left_open::leaves_open;
use pairing::pairs::Pairs;
use std::alloc::{AllocError, Global};

/// Needs as what is awaited.
fn on_needs(alloc: Global, needs: &[Need]) -> Result<Vec<Awaited>, AllocError>
    ensures { IfOk result (λ awaits. awaits.items ≡ map awaited.Call needs.now) }
{
    needs.iter().map(|need| Awaited::Call(*need)).collect(alloc)
}

/// What is awaited by an item: the unmet needs of a request, or who is waited for if a message doesn't come.
fn item_awaits(
    alloc: Global,
    scene: &Scene<'_>,
    marks: &[bool],
    rank: u16,
    item: &Item,
) -> Result<Vec<Awaited>, AllocError>
    requires is_rank { rank < length scene.now.world.now.pairs.recording }
    requires spares { HasSpares scene.now }
    requires opened { HasOpened scene.now }
    ensures { IfOk result (λ awaits. awaits.items ≡ item_awaits (comes scene.now marks.now) scene.now.world.now.reading scene.now.world.now.pairs.groups scene.now.world.now.pairs.recording scene.now.stands.now (staying marks.now) rank item.now) }
{
    match *item {
        Item::Message(wanted) => message_awaits(alloc, scene, marks, rank, &wanted),
        Item::Request(req) => {
            let start = scene.world.pairs.active_start(rank, req);
            let needs = request_unmet(alloc, scene.world, scene.stands, rank, start)?;
            on_needs(alloc, &needs)
        }
    }
}

/// What of an item doesn't come.
fn item_blocks(
    alloc: Global,
    scene: &Scene<'_>,
    marks: &[bool],
    rank: u16,
    item: &Item,
) -> Result<Vec<Awaited>, AllocError>
    requires is_rank { rank < length scene.now.world.now.pairs.recording }
    requires spares { HasSpares scene.now }
    requires opened { HasOpened scene.now }
    ensures { IfOk result (λ awaits. awaits.items ≡ item_blocks (comes scene.now marks.now) scene.now.world.now.reading scene.now.world.now.pairs.groups scene.now.world.now.pairs.recording scene.now.sinks.now (staying marks.now) rank item.now) }
{
    match *item {
        Item::Message(wanted) => message_awaits(alloc, scene, marks, rank, &wanted),
        Item::Request(req) => {
            let start = scene.world.pairs.active_start(rank, req);
            let needs = request_blocks(alloc, scene, marks, rank, start)?;
            on_needs(alloc, &needs)
        }
    }
}

/// The items of the rank's pending call.
fn items_of<'a>(scene: &Scene<'a>, rank: u16) -> &'a [Item]
    ensures { result.now ≡ items_in scene.now rank }
{
    match scene.pending.get(usize::from(rank)) {
        Some(pending) => pending.items(),
        None => &[],
    }
}

/// What is awaited by some items, one after the other.
fn items_await(
    alloc: Global,
    scene: &Scene<'_>,
    marks: &[bool],
    rank: u16,
    items: &[Item],
) -> Result<Vec<Awaited>, AllocError>
    requires is_rank { rank < length scene.now.world.now.pairs.recording }
    requires spares { (length items.now ≡ 0 → ⊥) → HasSpares scene.now }
    requires opened { HasOpened scene.now }
    ensures { IfOk result (λ awaits. awaits.items ≡ flat_map (item_awaits (comes scene.now marks.now) scene.now.world.now.reading scene.now.world.now.pairs.groups scene.now.world.now.pairs.recording scene.now.stands.now (staying marks.now) rank) items.now) }
{
    let mut awaits = Vec::new(alloc);
    for item in items {
        let more = item_awaits(alloc, scene, marks, rank, item)?;
        awaits.extend_from_slice(&more)?;
    }
    Ok(awaits)
}

/// What of some items doesn't come.
fn items_block(
    alloc: Global,
    scene: &Scene<'_>,
    marks: &[bool],
    rank: u16,
    items: &[Item],
) -> Result<Vec<Awaited>, AllocError>
    requires is_rank { rank < length scene.now.world.now.pairs.recording }
    requires spares { (length items.now ≡ 0 → ⊥) → HasSpares scene.now }
    requires opened { HasOpened scene.now }
    ensures { IfOk result (λ awaits. awaits.items ≡ flat_map (item_blocks (comes scene.now marks.now) scene.now.world.now.reading scene.now.world.now.pairs.groups scene.now.world.now.pairs.recording scene.now.sinks.now (staying marks.now) rank) items.now) }
{
    let mut blocks = Vec::new(alloc);
    for item in items {
        let more = item_blocks(alloc, scene, marks, rank, item)?;
        blocks.extend_from_slice(&more)?;
    }
    Ok(blocks)
}

/// Whether the rank stands where its list was left open.
fn is_at_open(scene: &Scene<'_>, rank: u16) -> bool
    ensures { result ≡ is_at_open scene.now.world.now.pairs.recording scene.now.stands.now rank }
{
    match scene.world.pairs.call(rank, stand_of(scene.stands, rank)) {
        Some(call) => leaves_open(&call),
        None => false,
    }
}

/// What the rank waits for, where it stays at its open; nothing elsewhere.
fn awaited_by(
    alloc: Global,
    scene: &Scene<'_>,
    marks: &[bool],
    rank: u16,
) -> Result<Vec<Awaited>, AllocError>
    requires is_rank { rank < length scene.now.world.now.pairs.recording }
    requires spares { HasSparesIfAsked scene.now }
    requires opened { HasOpened scene.now }
    ensures { IfOk result (λ awaits. awaits.items ≡ awaited_by scene.now marks.now rank) }
{
    if stays(marks, rank) && is_at_open(scene, rank) {
        items_await(alloc, scene, marks, rank, items_of(scene, rank))
    } else {
        Ok(Vec::new(alloc))
    }
}

/// What each rank waits for that stays at its open; nothing for the others.
pub(crate) fn at_opens(
    alloc: Global,
    scene: &Scene<'_>,
    marks: &[bool],
) -> Result<Vec<Vec<Awaited>>, AllocError>
    requires spares { HasSparesIfAsked scene.now }
    requires opened { HasOpened scene.now }
    ensures { IfOk result (λ awaits. map (λ one. one.items) awaits.items ≡ map (awaited_by scene.now marks.now) (range_with_len 0 (length scene.now.world.now.pairs.recording))) }
{
    let mut awaits = Vec::new(alloc);
    for rank in 0..ranks(scene) {
        awaits.push(awaited_by(alloc, scene, marks, rank)?)?;
    }
    Ok(awaits)
}

/// What the rank's call needs and doesn't come.
fn present_blocks(
    alloc: Global,
    scene: &Scene<'_>,
    marks: &[bool],
    rank: u16,
) -> Result<Vec<Need>, AllocError>
    ensures { IfOk result (λ needs. needs.items ≡ present_by scene.now marks.now rank) }
{
    let place = stand_of(scene.stands, rank);
    match scene.world.pairs.at(rank, place) {
        Some(call) => call_blocks(alloc, scene, marks, (rank, place), &call),
        None => Ok(Vec::new(alloc)),
    }
}

/// What the rank waits for and doesn't come, by its items or its call.
fn blocks(
    alloc: Global,
    scene: &Scene<'_>,
    marks: &[bool],
    rank: u16,
) -> Result<Vec<Awaited>, AllocError>
    requires is_rank { rank < length scene.now.world.now.pairs.recording }
    requires spares { HasSparesIfAsked scene.now }
    requires opened { HasOpened scene.now }
    ensures { IfOk result (λ blocks. blocks.items ≡ blocks_by scene.now marks.now rank) }
{
    if is_at_open(scene, rank) {
        return items_block(alloc, scene, marks, rank, items_of(scene, rank));
    }
    let needs = present_blocks(alloc, scene, marks, rank)?;
    on_needs(alloc, &needs)
}

/// The first of it, where the rank stays.
fn held_up(
    alloc: Global,
    scene: &Scene<'_>,
    marks: &[bool],
    rank: u16,
) -> Result<Option<Awaited>, AllocError>
    requires is_rank { rank < length scene.now.world.now.pairs.recording }
    requires spares { HasSparesIfAsked scene.now }
    requires opened { HasOpened scene.now }
    ensures { IfOk result (λ first. first ≡ held_up_in scene.now marks.now rank) }
{
    if !stays(marks, rank) {
        return Ok(None);
    }
    let blocks = blocks(alloc, scene, marks, rank)?;
    Ok(blocks.get(0).copied())
}

/// Where the walk goes on by what a rank waits for.
fn hop_by(pairs: &Pairs, awaited: &Awaited) -> NextHop
    ensures { result ≡ hop_from_awaited pairs.now.recording awaited.now }
{
    match *awaited {
        Awaited::Call(need) if is_missing(pairs, &need) => NextHop::Lacks {
            rank: rank_needed(&need),
        },
        Awaited::Call(need) => NextHop::To {
            rank: rank_needed(&need),
        },
        Awaited::Rank { rank } => NextHop::To { rank },
        Awaited::Nobody => NextHop::Nobody,
    }
}

/// Where the walk goes on from a rank.
fn hop_of(
    alloc: Global,
    scene: &Scene<'_>,
    marks: &[bool],
    rank: u16,
) -> Result<Option<NextHop>, AllocError>
    requires is_rank { rank < length scene.now.world.now.pairs.recording }
    requires spares { HasSparesIfAsked scene.now }
    requires opened { HasOpened scene.now }
    ensures { IfOk result (λ hop. hop ≡ option_map (hop_from_awaited scene.now.world.now.pairs.recording) (held_up_in scene.now marks.now rank)) }
{
    match held_up(alloc, scene, marks, rank)? {
        Some(awaited) => Ok(Some(hop_by(&scene.world.pairs, &awaited))),
        None => Ok(None),
    }
}

/// How the walk goes on from each rank.
pub(crate) fn walks(
    alloc: Global,
    scene: &Scene<'_>,
    marks: &[bool],
) -> Result<Vec<Option<NextHop>>, AllocError>
    requires spares { HasSparesIfAsked scene.now }
    requires opened { HasOpened scene.now }
    ensures { IfOk result (λ walks. walks.items ≡ walks_by scene.now marks.now) }
{
    let mut walks = Vec::new(alloc);
    for rank in 0..ranks(scene) {
        walks.push(hop_of(alloc, scene, marks, rank)?)?;
    }
    Ok(walks)
}
