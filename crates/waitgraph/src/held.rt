//! Ranks that are held among some, where no wave completes whose members disagree: for a run that still goes on.
//!
//! As in `free`, ranks are marked sweep by sweep. Those that aren't asked for are marked too: they may make any call.

ghost use Rattle.std.specs.Prelude.{◌≡◌, ◌<◌, ℕ, true, false, length, map, IfOk};
ghost use Rattle.waitgraph.specs.HeldAmong.{AreAgreedStands, ListsHeldAmong, asked_in};
ghost use Rattle.waitgraph.specs.Pending.{view_of};
ghost use Rattle.waitgraph.specs.inner.Among.{frees_among, free_among};
ghost use Rattle.waitgraph.specs.inner.Loose.{set_of, Sweeps};
ghost use Rattle.waitgraph.specs.inner.Scenes.{HasSparesIfAsked, known_in};

use crate::disagreement::{agreed_stands, is_barred};
use crate::free::{no_ranks, unmarked};
use crate::loose::{is_marked, mark};
use crate::may_move::{Scene, may_move, ranks};
use crate::pending::{PendingCall, Sink};
use crate::sink_table::SinkTable;
use crate::spares::spares_if_asked;
use moves::analyser::Analyser;
use moves::need::stand_of;
use moves::world::World;
use std::alloc::{AllocError, Global};

/// Whether the rank isn't asked for, or may move on though the ranks without a mark stay.
#[tactic(auto, using(crate::proofs::HeldAmongLemmas::free_if_asked, crate::proofs::HeldAmongLemmas::free_unasked))]
fn is_free(scene: &Scene<'_>, asked: &[bool], marks: &[bool], rank: u16) -> bool
    requires spares { HasSparesIfAsked scene.now }
    requires is_rank { rank < length scene.now.world.now.pairs.recording }
    requires marks { length marks.now ≡ length scene.now.world.now.pairs.recording }
    ensures { result ≡ frees_among scene.now asked.now (set_of marks.now) rank }
{
    if !is_marked(asked, rank) {
        return true;
    }
    !is_barred(&scene.world.pairs, rank, stand_of(scene.stands, rank))
        && may_move(scene, marks, rank)
}

/// Whether the rank has no mark, and is so.
fn is_next(scene: &Scene<'_>, asked: &[bool], marks: &[bool], rank: u16) -> bool
    requires spares { HasSparesIfAsked scene.now }
    requires is_rank { rank < length scene.now.world.now.pairs.recording }
    requires marks { length marks.now ≡ length scene.now.world.now.pairs.recording }
    ensures now { result ≡ true → frees_among scene.now asked.now (set_of marks.now) rank ≡ true }
    ensures new { result ≡ true → set_of marks.now rank ≡ false }
    ensures not_now { result ≡ false → frees_among scene.now asked.now (set_of marks.now) rank ≡ true → set_of marks.now rank ≡ true }
{
    !is_marked(marks, rank) && is_free(scene, asked, marks, rank)
}

/// Marks each rank that is next, and says whether there was one.
fn sweep(scene: &Scene<'_>, asked: &[bool], marks: &mut Vec<bool>) -> bool
    requires spares { HasSparesIfAsked scene.now }
    requires marks { length marks.old.items ≡ length scene.now.world.now.pairs.recording }
    ensures len { length marks.new.items ≡ length scene.now.world.now.pairs.recording }
    ensures sweeps { Sweeps (frees_among scene.now asked.now) (length scene.now.world.now.pairs.recording) (set_of marks.old.items) (set_of marks.new.items) result }
{
    let mut more = false;
    for rank in 0..ranks(scene) {
        if is_next(scene, asked, marks, rank) {
            mark(marks, rank);
            more = true;
        }
    }
    more
}

/// Which ranks aren't held among those that are asked for.
fn free(alloc: Global, scene: &Scene<'_>, asked: &[bool]) -> Result<Vec<bool>, AllocError>
    requires { HasSparesIfAsked scene.now }
    ensures len { IfOk result (λ marks. length marks.items ≡ length scene.now.world.now.pairs.recording) }
    ensures are { IfOk result (λ marks. (rank : ℕ) → set_of marks.items rank ≡ free_among scene.now asked.now rank) }
{
    let mut marks = no_ranks(alloc, scene)?;
    while sweep(scene, asked, &mut marks) {}
    Ok(marks)
}

/// The ranks that are held among those that are asked for, where the scene has them.
fn held_in(alloc: Global, scene: &Scene<'_>, asked: &[bool]) -> Result<Vec<u16>, AllocError>
    requires spares { HasSparesIfAsked scene.now }
    requires stands { AreAgreedStands scene.now.world.now.reading scene.now.world.now.pairs.groups scene.now.world.now.pairs.recording scene.now.stands.now }
    ensures { IfOk result (λ held. ListsHeldAmong scene.now.world.now.reading scene.now.world.now.pairs.groups scene.now.world.now.pairs.recording (known_in scene.now) (asked_in asked.now) held.items) }
{
    let marks = free(alloc, scene, asked)?;
    let held = unmarked(alloc, scene, &marks)?;
    Ok(held)
}

/// The same of a run.
fn held_of(
    alloc: Global,
    world: &World,
    pending: &[PendingCall],
    sinks: &SinkTable<'_>,
    asked: &[bool],
) -> Result<Vec<u16>, AllocError>
    ensures { IfOk result (λ held. ListsHeldAmong world.now.reading world.now.pairs.groups world.now.pairs.recording (record { pending = map view_of pending.now; sinks = sinks.now }) (asked_in asked.now) held.items) }
{
    let stands = agreed_stands(alloc, world)?;
    let spares = spares_if_asked(alloc, &world.pairs, pending)?;
    let scene = Scene {
        world,
        stands: stands.as_slice(),
        opened: &[],
        pending,
        sinks,
        spares: spares.as_slice(),
    };
    held_in(alloc, &scene, asked)
}

/// The ranks that are held among those that are asked for, rising, by what is known of how lists go on: the calls in
/// which ranks were, and the receives that a message may have met. `asked` has a mark for each rank that is asked for;
/// any other may make any further call. No wave completes whose members disagree. It takes memory for a position of
/// each rank and for marks, and as `of_pending` for sends that no receive has.
pub fn held_among(
    alloc: Global,
    analyser: &Analyser,
    pending: &[PendingCall],
    sinks: &[Sink],
    asked: &[bool],
) -> Result<Vec<u16>, AllocError>
    ensures { IfOk result (λ held. ListsHeldAmong analyser.now.reading analyser.now.groups analyser.now.recording (record { pending = map view_of pending.now; sinks = sinks.now }) (asked_in asked.now) held.items) }
{
    let world = analyser.world();
    let table = SinkTable::new(alloc, world.pairs.head().ranks(), sinks)?;
    held_of(alloc, world, pending, &table, asked)
}
