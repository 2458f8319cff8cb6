//! Ranks that move on until none can, by looks at those alone that something woke.
//!
//! A rank that is taken off the worklist moves on until it waits: one call less is left each time. That the loop
//! around it ends is shown by one number: the calls that are not passed, times one more than the ranks, plus the
//! length of the worklist.

ghost use Rattle.std.specs.Prelude.{◌≡◌, ◌≢◌, ◌+◌, ◌<◌, ◌≤◌, true, false, None, length, slice_index, option_and_then, IfSome};
ghost use Rattle.callstore.specs.Envelopes.{message_of};
ghost use Rattle.callstore.specs.Limits.{most_calls};
ghost use Rattle.pairing.specs.Seen.{call_seen, wave_seen};
ghost use Rattle.moves.specs.Worlds.{IsSeenAt};
ghost use Rattle.callstore.specs.declared.envelope.Half.TheVariants.{Send as SendHalf, Recv as RecvHalf};
ghost use Rattle.moves.specs.Runs.{moved};
ghost use Rattle.moves.specs.inner.Waiting.{comm_list, sent_to, sees, prober_of, woken_partner, woken_prober, woken_peers, woken_comm};
ghost use Rattle.moves.specs.inner.Positions.{IsCallAt, IsCallIf, IsSeenIf, AreKept, AreReached, AreSettled, GoOn, HaveArrival, HaveInHand, HaveWoken, RankTells, calls_left, left_to_do, ranks_once};

use crate::look::{Look, look_at_place};
use crate::need::At;
use crate::waiters::Waiters;
use crate::world::{Positions, World};
use callstore::by_kind;
use callstore::envelope::Half;
use callstore::hot::NONE;
use mpicall::effect::Effect;
use pairing::call_at::CallAt;
use pairing::pairs::Pairs;

/// Moves the rank on by one.
#[inline(always)]
fn move_on(stands: &mut Vec<u32>, rank: u16)
    requires is_rank { rank < length stands.old.items }
    requires room { slice_index stands.old.items rank < most_calls }
    ensures { stands.new.items ≡ moved stands.old.items rank }
{
    stands[usize::from(rank)] += 1;
}

/// Wakes the rank that waits for a call as the partner of its own, if one does. The call is given by its rank and its
/// place.
#[inline(always)]
fn wake_partner(waiters: &mut Waiters, partner: Option<(u16, u32)>)
    ensures { waiters.new ≡ woken_partner waiters.old partner }
{
    if let Some((other, there)) = partner {
        waiters.wake_rank(other, there);
    }
}

/// The rank of the world that the call at the place sends its message to, if it sends one.
fn sent_to(pairs: &Pairs, rank: u16, place: u32) -> Option<u16>
    ensures { result ≡ sent_to pairs.now.groups pairs.now.recording rank place }
{
    let call = pairs.call(rank, place)?;
    let message = call.message(Half::Send)?;
    pairs.head().world_rank(message.comm, message.peer)
}

/// Whether the rank's probe at `start` sees the call at the place of the other.
fn sees(pairs: &Pairs, prober: u16, start: u32, rank: u16, place: u32) -> bool
    ensures { result ≡ sees pairs.now.groups pairs.now.recording prober start rank place }
{
    match pairs.probed(prober, start) {
        Some((sender, there)) => sender == rank && there == place,
        None => false,
    }
}

/// The rank that waits at a probe which sees the call at the place, with the probe's place.
fn prober_of(pairs: &Pairs, waiters: &Waiters, rank: u16, place: u32) -> Option<(u16, u32)>
    ensures { result ≡ prober_of pairs.now.groups pairs.now.recording waiters.now.awaited rank place }
{
    let prober = sent_to(pairs, rank, place)?;
    let start = waiters.awaited(prober)?;
    if sees(pairs, prober, start, rank, place) {
        Some((prober, start))
    } else {
        None
    }
}

/// Wakes the rank that waits at a probe which sees the call at the place, if one does. Nobody is searched: it is
/// the rank that the call sends to.
#[inline(always)]
fn wake_prober(pairs: &Pairs, waiters: &mut Waiters, rank: u16, place: u32)
    ensures { waiters.new ≡ woken_prober pairs.now.groups pairs.now.recording rank place waiters.old }
{
    if pairs.has_probes() {
        if let Some((prober, start)) = prober_of(pairs, waiters, rank, place) {
            waiters.wake_rank(prober, start);
        }
    }
}

/// Whether the call sends, receives or probes for a message.
#[inline(always)]
fn exchanges(call: &CallAt<'_>) -> bool
    ensures send { result ≡ false → message_of SendHalf (call_seen call.now) ≡ None }
    ensures recv { result ≡ false → message_of RecvHalf (call_seen call.now) ≡ None }
{
    matches!(call.call().effect(), Effect::PointToPoint { .. })
}

/// Wakes the ranks that wait for a message of the call at the place.
#[inline(always)]
#[tactic(auto, using(pairing::proofs::SeenLemmas::seen_partner))]
fn wake_peers_of(world: &World, waiters: &mut Waiters, at: At, call: &CallAt<'_>)
    requires call { IsCallAt world.now at (call_seen call.now) }
    requires seen { IsSeenAt world.now at call.now }
    ensures { waiters.new ≡ woken_peers world.now.pairs.groups world.now.pairs.recording at.0 at.1 waiters.old }
{
    if exchanges(call) {
        let send = call.partner(Half::Send);
        let recv = call.partner(Half::Recv);
        wake_partner(waiters, send);
        wake_partner(waiters, recv);
        wake_prober(&world.pairs, waiters, at.0, at.1);
    }
}

/// Wakes the ranks that wait for a message of the call at the place, if there is one.
#[inline(always)]
fn wake_peers(world: &World, waiters: &mut Waiters, at: At, call: &Option<CallAt<'_>>)
    requires call { IsCallIf world.now at call.now }
    requires seen { IsSeenIf world.now at call.now }
    ensures { waiters.new ≡ woken_peers world.now.pairs.groups world.now.pairs.recording at.0 at.1 waiters.old }
{
    if let Some(call) = call {
        wake_peers_of(world, waiters, at, call);
    }
}

/// The wave that the call joins, if there is one.
#[inline(always)]
fn wave_of(call: &Option<CallAt<'_>>) -> Option<(u16, u32)>
    ensures { result ≡ option_and_then wave_seen call.now }
{
    match call {
        Some(call) => call.wave(),
        None => None,
    }
}

/// Wakes the ranks that wait for the waves of the communicator, if it is one.
#[inline(always)]
fn wake_members(waiters: &mut Waiters, comm: Option<u16>)
    requires { IfSome comm (λ comm. comm_list (length waiters.old.awaited) comm < length waiters.old.lists) }
    ensures { waiters.new ≡ woken_comm waiters.old comm }
{
    if let Some(comm) = comm {
        waiters.wake_comm(comm);
    }
}

/// Wakes all that wait for the call at the place, which its rank has just reached. That rank is in hand then.
#[inline(always)]
fn reach_call(world: &World, positions: &mut Positions, at: At, call: &Option<CallAt<'_>>)
    requires reached { AreReached world.now positions.old at.0 at.1 }
    requires call { IsCallIf world.now at call.now }
    requires seen { IsSeenIf world.now at call.now }
    ensures { HaveWoken world.now positions.old positions.new at.0 }
{
    let pairs = &world.pairs;
    let joined = wave_of(call);
    wake_peers(world, &mut positions.waiters, at, call);
    let complete = positions
        .progress
        .reach(pairs, &positions.stands, at, joined);
    wake_members(&mut positions.waiters, complete);
}

/// The number of the call's kind; `NONE` where there is no call.
#[inline(always)]
fn kind_of(call: &Option<CallAt<'_>>) -> u8 {
    match call {
        Some(call) => call.call().hot_kind(),
        None => NONE,
    }
}

/// Wakes all that wait for any call at the place: the slow way, for calls that come seldom. It looks the call up again, so
/// that the fast way needs no place in memory for what it looked up.
#[inline(never)]
fn reach_any(world: &World, positions: &mut Positions, at: At)
    requires { AreReached world.now positions.old at.0 at.1 }
    ensures { HaveWoken world.now positions.old positions.new at.0 }
{
    let call = &world.pairs.at(at.0, at.1);
    reach_call(world, positions, at, call);
}

/// Wakes all that wait for a call of this kind at the place. There is one such function for each kind that comes often,
/// built for it alone; another kind of call goes the slow way.
fn reach_of<const KIND: u8>(
    world: &World,
    positions: &mut Positions,
    at: At,
    call: &Option<CallAt<'_>>,
)
    requires reached { AreReached world.now positions.old at.0 at.1 }
    requires call { IsCallIf world.now at call.now }
    requires seen { IsSeenIf world.now at call.now }
    ensures { HaveWoken world.now positions.old positions.new at.0 }
{
    if kind_of(call) == KIND {
        reach_call(world, positions, at, call);
    } else {
        reach_any(world, positions, at);
    }
}

/// Wakes all that wait for the call at the place, by the function of its kind. Where there is no call yet, nothing is
/// done, and no function is called.
#[inline(always)]
fn reach(world: &World, positions: &mut Positions, at: At, call: &Option<CallAt<'_>>)
    requires reached { AreReached world.now positions.old at.0 at.1 }
    requires call { IsCallIf world.now at call.now }
    requires seen { IsSeenIf world.now at call.now }
    ensures { HaveWoken world.now positions.old positions.new at.0 }
{
    match call {
        Some(_) => by_kind!(
            kind_of(call),
            reach_of(world, positions, at, call),
            _ => reach_any(world, positions, at)
        ),
        None => reach_call(world, positions, at, call),
    }
}

/// Looks at the rank in hand, at its call at the place. Where it has just come there, those that wait for that call are
/// woken first.
#[inline(always)]
fn look_there(world: &World, positions: &mut Positions, at: At, has_come: bool) -> Look
    requires come { has_come ≡ true → AreReached world.now positions.old at.0 at.1 }
    requires in_hand { has_come ≡ false → HaveInHand world.now positions.old at.0 }
    requires is_there { at.1 ≡ slice_index positions.old.stands.items at.0 }
    ensures woken { HaveWoken world.now positions.old positions.new at.0 }
    ensures same { has_come ≡ false → positions.new ≡ positions.old }
    ensures tells { RankTells world.now positions.new at.0 result }
    ensures room { result ≡ Look.Moves → slice_index positions.new.stands.items at.0 < most_calls }
{
    let call = &world.pairs.at(at.0, at.1);
    if has_come {
        reach(world, positions, at, call);
    }
    look_at_place(world, positions, at, call)
}

/// Lets the rank in hand go, which can't move on: it is linked where it waits, unless it rests.
#[inline(always)]
fn let_go(world: &World, positions: &mut Positions, rank: u16, look: Look)
    requires in_hand { HaveInHand world.now positions.old rank }
    requires tells { RankTells world.now positions.old rank look }
    requires stays { look ≢ Look.Moves }
    ensures kept { AreKept world.now positions.new }
    ensures goes_on { GoOn positions.old positions.new }
    ensures stands { positions.new.stands ≡ positions.old.stands }
    ensures no_more { left_to_do world.now positions.new ≤ left_to_do world.now positions.old }
{
    // For the proof: the world is looked at no more.
    let _world = world;
    match look {
        Look::Over | Look::Moves => {}
        Look::Partner { place } => positions.waiters.wait_for_partner(rank, place),
        Look::Wave { comm } => positions.waiters.wait_for_wave(rank, comm),
    }
}

/// Moves the rank in hand on by one and answers true, or lets it go where it waits or rests. It may just have come to the
/// call where it stands.
#[inline(always)]
fn moves_on(world: &World, positions: &mut Positions, rank: u16, has_come: bool) -> bool
    requires come { has_come ≡ true → AreReached world.now positions.old rank (slice_index positions.old.stands.items rank) }
    requires in_hand { has_come ≡ false → HaveInHand world.now positions.old rank }
    ensures moves { result ≡ true → AreReached world.now positions.new rank (slice_index positions.new.stands.items rank) }
    ensures stays { result ≡ false → AreKept world.now positions.new }
    ensures goes_on { GoOn positions.old positions.new }
    ensures fewer { result ≡ true → calls_left world.now positions.new < calls_left world.now positions.old }
    ensures same { result ≡ false → positions.new.stands ≡ positions.old.stands }
    ensures no_more { has_come ≡ false → result ≡ false → left_to_do world.now positions.new ≤ left_to_do world.now positions.old }
{
    let place = positions.stand(rank);
    let look = look_there(world, positions, (rank, place), has_come);
    if matches!(look, Look::Moves) {
        move_on(&mut positions.stands, rank);
        true
    } else {
        let_go(world, positions, rank, look);
        false
    }
}

/// Moves the rank in hand on until it waits or rests. It may just have come to the call where it stands.
#[inline(always)]
fn settle_rank(world: &World, positions: &mut Positions, rank: u16, has_come: bool)
    requires come { has_come ≡ true → AreReached world.now positions.old rank (slice_index positions.old.stands.items rank) }
    requires in_hand { has_come ≡ false → HaveInHand world.now positions.old rank }
    ensures kept { AreKept world.now positions.new }
    ensures goes_on { GoOn positions.old positions.new }
    ensures no_more { left_to_do world.now positions.new ≤ left_to_do world.now positions.old + ranks_once world.now has_come }
{
    let mut has_come = has_come;
    while moves_on(world, positions, rank, has_come) {
        has_come = true;
    }
}

/// Moves the rank on that has just come to the call where it stands, and then others until none is to be looked at. It
/// takes no memory. Each function of a kind is called from one place here, so that the compiler inlines it.
#[inline(never)]
fn settle(world: &World, positions: &mut Positions, rank: u16)
    requires { AreReached world.now positions.old rank (slice_index positions.old.stands.items rank) }
    ensures settled { AreSettled world.now positions.new }
    ensures goes_on { GoOn positions.old positions.new }
{
    let mut has_come = true;
    let mut next = Some(rank);
    while let Some(rank) = next {
        settle_rank(world, positions, rank, has_come);
        has_come = false;
        next = positions.waiters.next();
    }
}

/// Moves the ranks on once a rank's call has arrived at the place, at its list's end: only where the rank
/// stands there is any rank woken. Most often none is.
#[inline(always)]
pub(crate) fn arrive(world: &World, positions: &mut Positions, rank: u16, place: u32)
    requires { HaveArrival world.now positions.old rank place }
    ensures settled { AreSettled world.now positions.new }
    ensures goes_on { GoOn positions.old positions.new }
{
    if positions.stand(rank) == place {
        settle(world, positions, rank);
    }
}
