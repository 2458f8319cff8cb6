//! What a call waits for.

ghost use Rattle.std.specs.Prelude.{◌≡◌, Some, length, slice_index, option_to_list};
ghost use Rattle.std.specs.Option.{option_map_or};
ghost use Rattle.mpigroup.specs.Groups.{group_of, world_rank_of};
ghost use Rattle.moves.specs.Needs.{world_of, half_needs, probe_need, member_need, is_met};
ghost use Rattle.moves.specs.declared.need.Part.TheVariants.{Sent, Received, Probed};
ghost use Rattle.moves.specs.Worlds.{needs_for, IsSeenAt};
ghost use Rattle.pairing.specs.Seen.{call_seen, IsSeen};

use crate::reading::sends_freely;
use crate::world::World;
use callstore::envelope::{Half, Message};
use mpigroup::head::Head;
use pairing::call_at::CallAt;
use pairing::pairs::Pairs;

/// A call, by its rank and its place.
pub type At = (u16, u32);

/// What a call needs before its rank moves on.
#[derive(Clone, Copy, PartialEq, Eq)]
pub enum Need {
    /// The rank has reached its call at the place.
    At { rank: u16, place: u32 },
    /// There is no such call of the rank.
    Lacking { rank: u16 },
}

/// A message of a call: the one that it sends, that it receives, or that it probes for.
#[derive(Clone, Copy)]
pub enum Part {
    Sent,
    Received,
    Probed,
}

/// How many members a communicator has.
#[inline(always)]
pub fn members(pairs: &Pairs, comm: u16) -> u16
    ensures { result ≡ length (group_of pairs.now.groups comm) }
{
    pairs.head().size(comm).unwrap_or(0)
}

/// Where a rank stands; 0 where there is no such rank.
#[inline(always)]
pub fn stand_of(stands: &[u32], rank: u16) -> u32
    ensures { result ≡ slice_index stands.now rank }
{
    match stands.get(usize::from(rank)) {
        Some(stand) => *stand,
        None => 0,
    }
}

/// Whether the need is met at the stands: its call is reached.
#[inline(always)]
pub fn is_met(stands: &[u32], need: &Need) -> bool
    ensures { result ≡ is_met stands.now need.now }
{
    match *need {
        Need::At { rank, place } => place <= stand_of(stands, rank),
        Need::Lacking { .. } => false,
    }
}

/// The rank of the world from which a message lacks its other half.
#[inline(never)]
fn lacking_rank(head: &Head, message: &Message) -> u16
    ensures { result ≡ world_of head.now message.now.comm message.now.peer }
{
    head.world_rank(message.comm, message.peer)
        .unwrap_or(message.peer)
}

/// What a message needs: that the call is reached that it goes with; where there is none, its peer lacks it.
#[inline(always)]
fn message_need(head: &Head, call: Option<At>, message: &Message) -> Need
    ensures { result ≡ option_map_or (λ call. Need.At call.0 call.1) call (Need.Lacking (world_of head.now message.now.comm message.now.peer)) }
{
    match call {
        Some((rank, place)) => Need::At { rank, place },
        None => Need::Lacking {
            rank: lacking_rank(head, message),
        },
    }
}

/// What a half of the call needs; nothing where the call has no such message.
#[inline(always)]
#[tactic(auto, using(pairing::proofs::SeenLemmas::seen_partner))]
fn half_need(pairs: &Pairs, at: At, half: Half, call: &CallAt<'_>) -> Option<Need>
    requires { IsSeen pairs.now.groups pairs.now.recording at.0 at.1 call.now }
    ensures { option_to_list result ≡ half_needs pairs.now.groups pairs.now.recording at.0 at.1 half (call_seen call.now) }
{
    let message = call.call().message(half)?;
    Some(message_need(pairs.head(), call.partner(half), &message))
}

/// What the probe of the message at the place needs.
fn probe_need(pairs: &Pairs, at: At, message: &Message) -> Need
    ensures { result ≡ probe_need pairs.now.groups pairs.now.recording at.0 at.1 message.now }
{
    message_need(pairs.head(), pairs.probed(at.0, at.1), message)
}

/// What the operation of the call at the place needs for the message that it sends; nothing where it sends none, or
/// sends freely.
#[inline(always)]
pub(crate) fn need_to_send(world: &World, at: At, call: &CallAt<'_>) -> Option<Need>
    requires { IsSeenAt world.now at call.now }
    ensures { option_to_list result ≡ needs_for world.now at Sent (call_seen call.now) }
{
    if sends_freely(world.reading, &call.call()) {
        None
    } else {
        half_need(&world.pairs, at, Half::Send, call)
    }
}

/// What the operation of the call at the place needs for the message that it receives; nothing where it receives none.
#[inline(always)]
pub(crate) fn need_to_receive(world: &World, at: At, call: &CallAt<'_>) -> Option<Need>
    requires { IsSeenAt world.now at call.now }
    ensures { option_to_list result ≡ needs_for world.now at Received (call_seen call.now) }
{
    half_need(&world.pairs, at, Half::Recv, call)
}

/// What the operation of the call at the place needs for the message that it probes for: the send that the next receive
/// of its envelope would get. Nothing where it probes for none.
pub(crate) fn need_to_probe(world: &World, at: At, call: &CallAt<'_>) -> Option<Need>
    ensures { option_to_list result ≡ needs_for world.now at Probed (call_seen call.now) }
{
    let message = call.call().probed()?;
    Some(probe_need(&world.pairs, at, &message))
}

/// What the operation of the call at the place needs for one of its messages before it is done; nothing where it has no
/// such message, or sends freely.
pub fn need_for(world: &World, at: At, part: Part, call: &CallAt<'_>) -> Option<Need>
    requires { IsSeenAt world.now at call.now }
    ensures { option_to_list result ≡ needs_for world.now at part (call_seen call.now) }
{
    match part {
        Part::Sent => need_to_send(world, at, call),
        Part::Received => need_to_receive(world, at, call),
        Part::Probed => need_to_probe(world, at, call),
    }
}

/// What a wave needs of a member, by its rank in the group and its rank of the world.
#[inline(always)]
pub fn member_need(pairs: &Pairs, comm: u16, wave: u32, g: u16, member: u16) -> Need
    requires { world_rank_of pairs.now.groups comm g ≡ Some member }
    ensures { result ≡ member_need pairs.now.recording comm wave member }
{
    match pairs.member(comm, wave, g) {
        Some(place) => Need::At {
            rank: member,
            place,
        },
        None => Need::Lacking { rank: member },
    }
}
