//! Which ranks may move on where some have moved, and the others stay: what they wait for is met, or may come.

ghost use Rattle.std.specs.Prelude.{◌≡◌, ◌<◌, ◌||◌, ◌==◌, [], ◌∷◌, Some, find, length, option_to_list, slice_get, slice_index};
ghost use Rattle.std.specs.List.{list_all, list_any, range_with_len};
ghost use Rattle.callstore.specs.Recordings.{calls_of};
ghost use Rattle.callstore.specs.Requests.{completes};
ghost use Rattle.mpigroup.specs.Groups.{group_of};
ghost use Rattle.moves.specs.Needs.{wave_needs};
ghost use Rattle.moves.specs.Worlds.{IsSeenAt};
ghost use Rattle.pairing.specs.Seen.{call_seen};
ghost use Rattle.waitgraph.specs.Held.{is_missing};
ghost use Rattle.waitgraph.specs.Stuck.{rank_needed};
ghost use Rattle.waitgraph.specs.Pending.{takes, goes_to, may_take, sink_for, operation_needs, request_needs, call_needs, ways_of, sources_of, pending_waits, waited_at, is_over, view_of};
ghost use Rattle.waitgraph.specs.inner.Buckets.{bucket};
ghost use Rattle.waitgraph.specs.inner.Scenes.{staying, blocks, comes, needs_of_send, spare_needs, source_needs, passes_spare, member_passes, member_may_send, index_passes, item_passes, known_in, HasSpares, HasSparesIfAsked};

use crate::pending::{Item, PendingCall, Sink, Spare, Wanted};
use crate::sink_table::SinkTable;
use crate::spares::spare_at;
use callstore::envelope::{Envelope, Half, rank_of_half};
use moves::need::{At, Need, Part, is_met, member_need, members, need_for, stand_of};
use moves::reading::sends_freely;
use moves::world::World;
use mpigroup::head::Head;
use pairing::call_at::CallAt;
use pairing::left_open::{is_left_open, leaves_open};
use pairing::pairs::Pairs;

/// The calls of a run, where its ranks stand, which lists were left open, and what is known of how these go on: the
/// pending calls, the sinks, and the spare sends to each rank.
#[derive(Clone, Copy)]
pub(crate) struct Scene<'a> {
    pub world: &'a World,
    pub stands: &'a [u32],
    pub opened: &'a [bool],
    pub pending: &'a [PendingCall],
    pub sinks: &'a SinkTable<'a>,
    pub spares: &'a [Vec<Spare>],
}

/// How many ranks the run has.
pub(crate) fn ranks(scene: &Scene<'_>) -> u16
    ensures { result ≡ length scene.now.world.now.pairs.recording }
{
    scene.world.pairs.head().ranks()
}

/// A run has few ranks.
pub(crate) fn ranks_are_few(scene: &Scene<'_>)
    ensures { length scene.now.world.now.pairs.recording < 65536 }
{
    // For the proof: the number of ranks is a u16, and that of the lists of calls.
    let _ranks = scene.world.pairs.head().ranks();
}

/// Whether the rank hasn't moved yet, by the marks of those that have.
#[tactic(auto, using(crate::proofs::ScenesLemmas::staying_is))]
pub(crate) fn stays(marks: &[bool], rank: u16) -> bool
    ensures { result ≡ staying marks.now rank }
{
    match marks.get(usize::from(rank)) {
        Some(mark) => !*mark,
        None => false,
    }
}

/// The rank that a need names.
pub(crate) fn rank_needed(need: &Need) -> u16
    ensures { result ≡ rank_needed need.now }
{
    match *need {
        Need::At { rank, .. } | Need::Lacking { rank } => rank,
    }
}

/// Whether what a rank needs never comes.
pub(crate) fn is_missing(pairs: &Pairs, need: &Need) -> bool
    ensures { result ≡ is_missing pairs.now.recording need.now }
{
    match *need {
        Need::At { .. } => false,
        Need::Lacking { rank } => !is_left_open(pairs, rank),
    }
}

/// Whether the need isn't met while the ranks without a mark stay.
fn is_blocked(scene: &Scene<'_>, marks: &[bool], need: &Need) -> bool
    ensures { result ≡ blocks scene.now marks.now need.now }
{
    stays(marks, rank_needed(need)) || is_missing(&scene.world.pairs, need)
}

/// Whether the need is met, or may be though the ranks without a mark stay.
pub(crate) fn comes(scene: &Scene<'_>, marks: &[bool], need: &Need) -> bool
    ensures { result ≡ comes scene.now marks.now need.now }
{
    is_met(scene.stands, need) || !is_blocked(scene, marks, need)
}

/// Whether there is no need, or it is met, or may be though the ranks without a mark stay.
fn is_none_or_comes(scene: &Scene<'_>, marks: &[bool], need: Option<Need>) -> bool
    ensures { result ≡ list_all (comes scene.now marks.now) (option_to_list need) }
{
    match need {
        Some(need) => comes(scene, marks, &need),
        None => true,
    }
}

/// Whether a message of the envelope is wanted.
pub(crate) fn takes(wanted: &Wanted, envelope: &Envelope) -> bool
    ensures { result ≡ takes wanted.now envelope.now.comm envelope.now.source envelope.now.tag }
{
    let is_source = match wanted.source {
        Some(one) => one == envelope.source,
        None => true,
    };
    let is_tag = match wanted.tag {
        Some(one) => one == envelope.tag,
        None => true,
    };
    wanted.comm == envelope.comm && (is_source && is_tag)
}

/// Whether a message of the envelope goes to the rank.
fn goes_to(head: &Head, rank: u16, envelope: &Envelope) -> bool
    ensures { result ≡ goes_to head.now rank envelope.now }
{
    match rank_of_half(head, Half::Recv, envelope) {
        Some(dest) => dest == rank,
        None => false,
    }
}

fn may_take(head: &Head, envelope: &Envelope, sink: &Sink) -> bool
    ensures { result ≡ may_take head.now envelope.now sink.now }
{
    takes(&sink.wanted, envelope) && goes_to(head, sink.rank, envelope)
}

/// The first of the sinks that may take a message of the envelope.
fn first_sink(head: &Head, sinks: &[Sink], envelope: &Envelope) -> Option<Sink>
    ensures { result ≡ find (may_take head.now envelope.now) sinks.now }
{
    for sink in sinks {
        if may_take(head, envelope, sink) {
            return Some(*sink);
        }
    }
    None
}

/// The first of the sinks in the table that may take a message of the envelope: those of the rank to which the message
/// goes are looked through.
fn first_to(head: &Head, sinks: &SinkTable<'_>, envelope: &Envelope) -> Option<Sink>
    ensures { result ≡ find (may_take head.now envelope.now) sinks.now }
{
    match rank_of_half(head, Half::Recv, envelope) {
        Some(dest) => first_sink(head, sinks.of(dest), envelope),
        None => None,
    }
}

/// The first of the sinks that may take what the call at the place sends.
#[tactic(auto, using(crate::proofs::ScenesLemmas::no_sink))]
pub(crate) fn sink_for(pairs: &Pairs, sinks: &SinkTable<'_>, at: At) -> Option<Sink>
    ensures { result ≡ sink_for pairs.now.groups pairs.now.recording sinks.now at.0 at.1 }
{
    match spare_at(pairs, at.0, at.1) {
        Some(envelope) => first_to(pairs.head(), sinks, &envelope),
        None => None,
    }
}

/// What the call at the place needs for the message that it sends.
fn send_need(scene: &Scene<'_>, at: At, call: &CallAt<'_>) -> Option<Need>
    requires { IsSeenAt scene.now.world.now at call.now }
    ensures { option_to_list result ≡ needs_of_send scene.now at (call_seen call.now) }
{
    if sends_freely(scene.world.reading, &call.call()) {
        return None;
    }
    match sink_for(&scene.world.pairs, scene.sinks, at) {
        Some(sink) => Some(Need::At {
            rank: sink.rank,
            place: sink.place,
        }),
        None => need_for(scene.world, at, Part::Sent, call),
    }
}

/// Whether what the wave needs of a member comes, by its rank in the group.
fn member_comes(scene: &Scene<'_>, marks: &[bool], comm: u16, wave: u32, g: u16) -> bool
    ensures { result ≡ member_passes scene.now marks.now comm wave g }
{
    let pairs = &scene.world.pairs;
    match pairs.head().world_rank(comm, g) {
        Some(member) => comes(scene, marks, &member_need(pairs, comm, wave, g, member)),
        None => true,
    }
}

fn members_come(scene: &Scene<'_>, marks: &[bool], comm: u16, wave: u32) -> bool
    ensures { result ≡ list_all (member_passes scene.now marks.now comm wave) (range_with_len 0 (length (group_of scene.now.world.now.pairs.groups comm))) }
{
    (0..members(&scene.world.pairs, comm)).all(|g| member_comes(scene, marks, comm, wave, g))
}

/// Whether what the wave of the call at the place needs comes.
#[tactic(auto, using(crate::proofs::ScenesLemmas::members_pass))]
fn wave_comes(scene: &Scene<'_>, marks: &[bool], at: At) -> bool
    ensures { result ≡ list_all (comes scene.now marks.now) (wave_needs scene.now.world.now.pairs.groups scene.now.world.now.pairs.recording at.0 at.1) }
{
    match scene.world.pairs.wave_of(at.0, at.1) {
        Some((comm, wave)) => members_come(scene, marks, comm, wave),
        None => true,
    }
}

/// Whether what the operation of the call at the place needs comes.
#[tactic(auto, using(crate::proofs::ScenesLemmas::all_four))]
fn operation_comes(scene: &Scene<'_>, marks: &[bool], at: At, call: &CallAt<'_>) -> bool
    requires { IsSeenAt scene.now.world.now at call.now }
    ensures { result ≡ list_all (comes scene.now marks.now) (operation_needs scene.now.world.now.reading scene.now.world.now.pairs.groups scene.now.world.now.pairs.recording scene.now.sinks.now at.0 at.1 (call_seen call.now)) }
{
    is_none_or_comes(scene, marks, send_need(scene, at, call))
        && is_none_or_comes(
            scene,
            marks,
            need_for(scene.world, at, Part::Received, call),
        )
        && is_none_or_comes(scene, marks, need_for(scene.world, at, Part::Probed, call))
        && wave_comes(scene, marks, at)
}

/// Whether what the operation of the call at the place needs comes, where that call started a request; true where there
/// is none.
fn start_comes(scene: &Scene<'_>, marks: &[bool], rank: u16, start: Option<u32>) -> bool
    ensures { result ≡ list_all (comes scene.now marks.now) (request_needs scene.now.world.now.reading scene.now.world.now.pairs.groups scene.now.world.now.pairs.recording scene.now.sinks.now rank start) }
{
    let Some(place) = start else {
        return true;
    };
    match scene.world.pairs.at(rank, place) {
        Some(call) => operation_comes(scene, marks, (rank, place), &call),
        None => true,
    }
}

/// Whether what the request with that index needs comes, among those that the call at the place completes.
fn request_comes(scene: &Scene<'_>, marks: &[bool], at: At, index: usize) -> bool
    ensures { result ≡ index_passes scene.now marks.now at index }
{
    start_comes(
        scene,
        marks,
        at.0,
        scene.world.pairs.completed(at.0, at.1, index),
    )
}

/// Whether what each of the requests needs comes that the call at the place completes.
fn requests_come(scene: &Scene<'_>, marks: &[bool], at: At, call: &CallAt<'_>) -> bool
    ensures { result ≡ list_all (index_passes scene.now marks.now at) (range_with_len 0 (length (completes (call_seen call.now)))) }
{
    (0..call.call().completed_count()).all(|index| request_comes(scene, marks, at, index))
}

/// Whether what the call at the place needs comes.
#[tactic(auto, using(crate::proofs::ScenesLemmas::all_both, crate::proofs::ScenesLemmas::requests_pass))]
fn call_comes(scene: &Scene<'_>, marks: &[bool], at: At, call: &CallAt<'_>) -> bool
    requires present { slice_get (calls_of scene.now.world.now.pairs.recording at.0) at.1 ≡ Some (call_seen call.now) }
    requires seen { IsSeenAt scene.now.world.now at call.now }
    ensures { result ≡ list_all (comes scene.now marks.now) (call_needs scene.now.world.now.reading scene.now.world.now.pairs.groups scene.now.world.now.pairs.recording scene.now.sinks.now at.0 at.1 (call_seen call.now)) }
{
    if call.call().starts().is_some() {
        return true;
    }
    operation_comes(scene, marks, at, call) && requests_come(scene, marks, at, call)
}

/// Whether the spare send is wanted, and is reached, or may be.
fn is_way(scene: &Scene<'_>, marks: &[bool], wanted: &Wanted, spare: &Spare) -> bool
    ensures { result ≡ passes_spare scene.now marks.now wanted.now spare.now }
{
    let need = Need::At {
        rank: spare.sender,
        place: spare.place,
    };
    takes(wanted, &spare.envelope) && comes(scene, marks, &need)
}

/// Whether one of them is so.
fn are_ways(scene: &Scene<'_>, marks: &[bool], wanted: &Wanted, spares: &[Spare]) -> bool
    ensures { result ≡ list_any (passes_spare scene.now marks.now wanted.now) spares.now }
{
    spares
        .iter()
        .any(|spare| is_way(scene, marks, wanted, spare))
}

/// The spare sends to the rank.
pub(crate) fn spares_of(spares: &[Vec<Spare>], rank: u16) -> &[Spare]
    ensures { result.now ≡ bucket spares.now rank }
{
    match spares.get(usize::from(rank)) {
        Some(spares) => spares.as_slice(),
        None => &[],
    }
}

/// Whether one of the spare sends to the rank is so.
fn spare_comes(scene: &Scene<'_>, marks: &[bool], rank: u16, wanted: &Wanted) -> bool
    ensures { result ≡ list_any (comes scene.now marks.now) (spare_needs scene.now rank wanted.now) }
{
    are_ways(scene, marks, wanted, spares_of(scene.spares, rank))
}

/// Whether the sender is another rank that may go on to send.
fn source_comes(scene: &Scene<'_>, marks: &[bool], rank: u16, sender: u16) -> bool
    ensures { result ≡ list_any (comes scene.now marks.now) (source_needs rank (sender ∷ [])) }
{
    sender != rank && comes(scene, marks, &Need::Lacking { rank: sender })
}

/// Whether the member with that rank in the communicator's group is another rank that may go on to send.
fn member_sends(scene: &Scene<'_>, marks: &[bool], rank: u16, comm: u16, g: u16) -> bool
    ensures { result ≡ member_may_send scene.now marks.now rank comm g }
{
    match scene.world.pairs.head().world_rank(comm, g) {
        Some(sender) => source_comes(scene, marks, rank, sender),
        None => false,
    }
}

/// Whether one of the members of the communicator is another rank that may go on to send.
fn members_send(scene: &Scene<'_>, marks: &[bool], rank: u16, comm: u16) -> bool
    ensures { result ≡ list_any (member_may_send scene.now marks.now rank comm) (range_with_len 0 (length (group_of scene.now.world.now.pairs.groups comm))) }
{
    (0..members(&scene.world.pairs, comm)).any(|g| member_sends(scene, marks, rank, comm, g))
}

/// Whether one of the ranks may from which the message may come.
#[tactic(auto, using(crate::proofs::ScenesLemmas::members_may_send))]
fn source_sends(scene: &Scene<'_>, marks: &[bool], rank: u16, wanted: &Wanted) -> bool
    ensures { result ≡ list_any (comes scene.now marks.now) (source_needs rank (sources_of scene.now.world.now.pairs.groups wanted.now)) }
{
    let Some(source) = wanted.source else {
        return members_send(scene, marks, rank, wanted.comm);
    };
    match scene.world.pairs.head().world_rank(wanted.comm, source) {
        Some(sender) => source_comes(scene, marks, rank, sender),
        None => false,
    }
}

/// Whether a message comes that the rank wants.
#[tactic(auto, using(crate::proofs::ScenesLemmas::any_both))]
pub(crate) fn message_comes(scene: &Scene<'_>, marks: &[bool], rank: u16, wanted: &Wanted) -> bool
    requires is_rank { rank < length scene.now.world.now.pairs.recording }
    requires spares { HasSpares scene.now }
    ensures { result ≡ list_any (comes scene.now marks.now) (ways_of scene.now.world.now.pairs.groups scene.now.world.now.pairs.recording rank wanted.now) }
{
    spare_comes(scene, marks, rank, wanted) || source_sends(scene, marks, rank, wanted)
}

/// Whether the item comes.
fn item_comes(scene: &Scene<'_>, marks: &[bool], rank: u16, item: &Item) -> bool
    requires is_rank { rank < length scene.now.world.now.pairs.recording }
    requires spares { HasSpares scene.now }
    ensures { result ≡ item_passes scene.now marks.now rank item.now }
{
    match *item {
        Item::Message(wanted) => message_comes(scene, marks, rank, &wanted),
        Item::Request(req) => {
            start_comes(
                scene,
                marks,
                rank,
                scene.world.pairs.active_start(rank, req),
            )
        }
    }
}

/// Whether all of the items come.
fn all_come(scene: &Scene<'_>, marks: &[bool], rank: u16, items: &[Item]) -> bool
    requires is_rank { rank < length scene.now.world.now.pairs.recording }
    requires spares { HasSpares scene.now }
    ensures { result ≡ list_all (item_passes scene.now marks.now rank) items.now }
{
    items
        .iter()
        .all(|item| item_comes(scene, marks, rank, item))
}

/// Whether one of them does.
fn one_comes(scene: &Scene<'_>, marks: &[bool], rank: u16, items: &[Item]) -> bool
    requires is_rank { rank < length scene.now.world.now.pairs.recording }
    requires spares { HasSpares scene.now }
    ensures { result ≡ list_any (item_passes scene.now marks.now rank) items.now }
{
    items
        .iter()
        .any(|item| item_comes(scene, marks, rank, item))
}

/// Whether so many of the items come that the pending call is over; one without items is over.
fn pending_comes(scene: &Scene<'_>, marks: &[bool], rank: u16, call: &PendingCall) -> bool
    requires is_rank { rank < length scene.now.world.now.pairs.recording }
    requires spares { (length (view_of call.now).items ≡ 0 → ⊥) → HasSpares scene.now }
    ensures { result ≡ is_over (comes scene.now marks.now) (pending_waits scene.now.world.now.reading scene.now.world.now.pairs.groups scene.now.world.now.pairs.recording scene.now.sinks.now rank (view_of call.now)) }
{
    let items = call.items();
    if items.is_empty() {
        return call.is_for_all();
    }
    if call.is_for_all() {
        all_come(scene, marks, rank, items)
    } else {
        one_comes(scene, marks, rank, items)
    }
}

/// Whether the rank may move on though the ranks without a mark stay.
pub(crate) fn may_move(scene: &Scene<'_>, marks: &[bool], rank: u16) -> bool
    requires is_rank { rank < length scene.now.world.now.pairs.recording }
    requires spares { HasSparesIfAsked scene.now }
    ensures { result ≡ is_over (comes scene.now marks.now) (waited_at scene.now.world.now.reading scene.now.world.now.pairs.groups scene.now.world.now.pairs.recording (known_in scene.now) rank (slice_index scene.now.stands.now rank)) }
{
    let place = stand_of(scene.stands, rank);
    let Some(call) = scene.world.pairs.at(rank, place) else {
        return true;
    };
    if !leaves_open(&call.call()) {
        return call_comes(scene, marks, (rank, place), &call);
    }
    match scene.pending.get(usize::from(rank)) {
        Some(pending) => pending_comes(scene, marks, rank, pending),
        None => true,
    }
}
