//! Held ranks where pending calls and sinks are known: those that no sweep marks.
//!
//! A sweep goes over all ranks and marks each that may move on once those marked so far have, until a sweep marks none.

ghost use Rattle.std.specs.Prelude.{◌≡◌, ◌<◌, ℕ, true, false, length, replicate, IfOk};
ghost use Rattle.std.specs.List.{filter, range_with_len};
ghost use Rattle.waitgraph.specs.inner.Loose.{set_of, Sweeps};
ghost use Rattle.waitgraph.specs.inner.Scenes.{IsScene, staying, frees_in, free_in};

use crate::loose::{is_marked, mark, no_marks};
use crate::may_move::{Scene, may_move, ranks, stays};
use std::alloc::{AllocError, Global};

/// Whether the rank has no mark, and may move on though the others without one stay.
#[tactic(auto, using(crate::proofs::FreeLemmas::moves_is))]
fn is_next(scene: &Scene<'_>, marks: &[bool], rank: u16) -> bool
    requires scene { IsScene scene.now }
    requires is_rank { rank < length scene.now.world.now.pairs.recording }
    requires marks { length marks.now ≡ length scene.now.world.now.pairs.recording }
    ensures now { result ≡ true → frees_in scene.now (set_of marks.now) rank ≡ true }
    ensures new { result ≡ true → set_of marks.now rank ≡ false }
    ensures not_now { result ≡ false → frees_in scene.now (set_of marks.now) rank ≡ true → set_of marks.now rank ≡ true }
{
    !is_marked(marks, rank) && may_move(scene, marks, rank)
}

/// Marks each rank that may move on once those marked so far have, and answers whether there was one.
fn sweep(scene: &Scene<'_>, marks: &mut Vec<bool>) -> bool
    requires scene { IsScene scene.now }
    requires marks { length marks.old.items ≡ length scene.now.world.now.pairs.recording }
    ensures len { length marks.new.items ≡ length scene.now.world.now.pairs.recording }
    ensures sweeps { Sweeps (frees_in scene.now) (length scene.now.world.now.pairs.recording) (set_of marks.old.items) (set_of marks.new.items) result }
{
    let mut more = false;
    for rank in 0..ranks(scene) {
        if is_next(scene, marks, rank) {
            mark(marks, rank);
            more = true;
        }
    }
    more
}

/// No marks, for as many ranks as there are.
pub(crate) fn no_ranks(alloc: Global, scene: &Scene<'_>) -> Result<Vec<bool>, AllocError>
    ensures { IfOk result (λ marks. marks.items ≡ replicate (length scene.now.world.now.pairs.recording) false) }
{
    no_marks(alloc, usize::from(ranks(scene)))
}

/// Which ranks aren't held: they are marked, sweep by sweep, until a sweep marks none.
pub(crate) fn free(alloc: Global, scene: &Scene<'_>) -> Result<Vec<bool>, AllocError>
    requires { IsScene scene.now }
    ensures len { IfOk result (λ marks. length marks.items ≡ length scene.now.world.now.pairs.recording) }
    ensures are { IfOk result (λ marks. (rank : ℕ) → set_of marks.items rank ≡ free_in scene.now rank) }
{
    let mut marks = no_ranks(alloc, scene)?;
    while sweep(scene, &mut marks) {}
    Ok(marks)
}

/// The held ranks, rising, by the marks of the others.
pub(crate) fn unmarked(
    alloc: Global,
    scene: &Scene<'_>,
    marks: &[bool],
) -> Result<Vec<u16>, AllocError>
    ensures { IfOk result (λ held. held.items ≡ filter (staying marks.now) (range_with_len 0 (length scene.now.world.now.pairs.recording))) }
{
    (0..ranks(scene))
        .filter(|rank| stays(marks, *rank))
        .collect(alloc)
}
