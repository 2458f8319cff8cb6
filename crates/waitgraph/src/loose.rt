//! Loose and held ranks, by what each rank waits for and which lists were left open.
//!
//! A sweep goes over all ranks and marks each that those marked so far make loose, until a sweep marks
//! none. Mostly two or three sweeps are enough. A worklist would want who waits for whom the other way
//! round.

ghost use Rattle.std.specs.Prelude.{◌≡◌, ◌<◌, ℕ, true, false, length, replicate, slice_set, IfOk};
ghost use Rattle.std.specs.List.{filter, list_all, range_with_len};
ghost use Rattle.waitgraph.specs.inner.Causes.{walks_in};
ghost use Rattle.waitgraph.specs.Held.{TheHeldAreTheGreatest};
ghost use Rattle.waitgraph.specs.Stays.{HeldRanksStay};
ghost use Rattle.waitgraph.specs.inner.Loose.{set_of, standing_of, is_on, loosens, are_loose, are_held, goes_on, hop, hop_by, hop_of, Sweeps};

use crate::next_hop::NextHop;
use crate::standing::Standing;
use crate::waits::Waits;
use moves::need::Need;
use std::alloc::{AllocError, Global};

pub(crate) fn is_marked(marks: &[bool], rank: u16) -> bool
    ensures { result ≡ set_of marks.now rank }
{
    match marks.get(usize::from(rank)) {
        Some(mark) => *mark,
        None => false,
    }
}

pub(crate) fn mark(marks: &mut Vec<bool>, rank: u16)
    requires { rank < length marks.old.items }
    ensures { marks.new.items ≡ slice_set marks.old.items rank true }
{
    marks[usize::from(rank)] = true;
}

fn standing_of(standings: &[Standing], rank: u16) -> Standing
    ensures { result ≡ standing_of standings.now rank }
{
    match standings.get(usize::from(rank)) {
        Some(standing) => *standing,
        None => Standing::AtFinalize,
    }
}

fn is_on(opened: &[bool], marks: &[bool], need: &Need) -> bool
    ensures { result ≡ is_on (set_of opened.now) (set_of marks.now) need.now }
{
    match *need {
        Need::At { rank, .. } => is_marked(marks, rank),
        Need::Lacking { rank } => is_marked(opened, rank) && is_marked(marks, rank),
    }
}

fn are_on(opened: &[bool], marks: &[bool], needs: &[Need]) -> bool
    ensures { result ≡ list_all (is_on (set_of opened.now) (set_of marks.now)) needs.now }
{
    needs.iter().all(|need| is_on(opened, marks, need))
}

/// Whether the marked ranks make the rank loose.
fn is_loose_by(
    opened: &[bool],
    standings: &[Standing],
    waits: &Waits,
    marks: &[bool],
    rank: u16,
) -> bool
    ensures { result ≡ loosens (set_of opened.now) standings.now waits.now (set_of marks.now) rank }
{
    match standing_of(standings, rank) {
        Standing::AtFinalize => false,
        Standing::AtOpen => true,
        Standing::Stuck => are_on(opened, marks, waits.get(rank)),
    }
}

/// Whether the rank is not marked, and the marked ones make it loose.
fn is_next(
    opened: &[bool],
    standings: &[Standing],
    waits: &Waits,
    marks: &[bool],
    rank: u16,
) -> bool
    ensures now { result ≡ true → loosens (set_of opened.now) standings.now waits.now (set_of marks.now) rank ≡ true }
    ensures new { result ≡ true → set_of marks.now rank ≡ false }
    ensures not_now { result ≡ false → loosens (set_of opened.now) standings.now waits.now (set_of marks.now) rank ≡ true → set_of marks.now rank ≡ true }
{
    !is_marked(marks, rank) && is_loose_by(opened, standings, waits, marks, rank)
}

/// Marks each rank that those marked so far make loose, and answers whether there was one.
fn sweep(opened: &[bool], standings: &[Standing], waits: &Waits, marks: &mut Vec<bool>) -> bool
    requires few { length standings.now < 65536 }
    requires marks { length marks.old.items ≡ length standings.now }
    ensures len { length marks.new.items ≡ length standings.now }
    ensures sweeps { Sweeps (loosens (set_of opened.now) standings.now waits.now) (length standings.now) (set_of marks.old.items) (set_of marks.new.items) result }
{
    let mut more = false;
    for rank in 0..standings.len() as u16 {
        if is_next(opened, standings, waits, marks, rank) {
            mark(marks, rank);
            more = true;
        }
    }
    more
}

pub(crate) fn no_marks(alloc: Global, ranks: usize) -> Result<Vec<bool>, AllocError>
    ensures { IfOk result (λ marks. marks.items ≡ replicate ranks false) }
{
    vec![in alloc; false; ranks]
}

/// Which ranks are loose: they are marked, sweep by sweep, until a sweep marks none.
pub(crate) fn loose(
    alloc: Global,
    opened: &[bool],
    standings: &[Standing],
    waits: &Waits,
) -> Result<Vec<bool>, AllocError>
    requires { length standings.now < 65536 }
    ensures { IfOk result (λ marks. (rank : ℕ) → set_of marks.items rank ≡ are_loose (set_of opened.now) standings.now waits.now rank) }
{
    let mut marks = no_marks(alloc, standings.len())?;
    while sweep(opened, standings, waits, &mut marks) {}
    Ok(marks)
}

/// Whether the rank is held, by the marks of the loose ones.
fn is_held(
    opened: &[bool],
    standings: &[Standing],
    waits: &Waits,
    loose: &[bool],
    rank: u16,
) -> bool
    requires { (r : ℕ) → set_of loose.now r ≡ are_loose (set_of opened.now) standings.now waits.now r }
    ensures { result ≡ are_held (set_of opened.now) standings.now waits.now rank }
{
    match standing_of(standings, rank) {
        Standing::Stuck => !is_marked(loose, rank),
        Standing::AtFinalize | Standing::AtOpen => false,
    }
}

/// The held ranks, rising.
pub(crate) fn held(
    alloc: Global,
    opened: &[bool],
    standings: &[Standing],
    waits: &Waits,
    loose: &[bool],
) -> Result<Vec<u16>, AllocError>
    requires few { length standings.now < 65536 }
    requires loose { (r : ℕ) → set_of loose.now r ≡ are_loose (set_of opened.now) standings.now waits.now r }
    ensures { IfOk result (λ held. held.items ≡ filter (are_held (set_of opened.now) standings.now waits.now) (range_with_len 0 (length standings.now))) }
{
    (0..standings.len() as u16)
        .filter(|rank| is_held(opened, standings, waits, loose, *rank))
        .collect(alloc)
}

/// Whether the walk goes on by the need, or ends at it.
fn goes_on(
    opened: &[bool],
    standings: &[Standing],
    waits: &Waits,
    loose: &[bool],
    need: &Need,
) -> bool
    requires { (r : ℕ) → set_of loose.now r ≡ are_loose (set_of opened.now) standings.now waits.now r }
    ensures { result ≡ goes_on (set_of opened.now) (are_held (set_of opened.now) standings.now waits.now) need.now }
{
    match *need {
        Need::At { rank, .. } => is_held(opened, standings, waits, loose, rank),
        Need::Lacking { rank } => !is_marked(opened, rank)
            || is_held(opened, standings, waits, loose, rank),
    }
}

/// Where the walk goes on by the need.
fn hop(opened: &[bool], need: &Need) -> NextHop
    ensures { result ≡ hop (set_of opened.now) need.now }
{
    match *need {
        Need::Lacking { rank } if !is_marked(opened, rank) => NextHop::Lacks { rank },
        Need::At { rank, .. } | Need::Lacking { rank } => NextHop::To { rank },
    }
}

/// Where the walk goes on by the first of the needs by which it does.
fn hop_by(
    opened: &[bool],
    standings: &[Standing],
    waits: &Waits,
    loose: &[bool],
    needs: &[Need],
) -> Option<NextHop>
    requires { (r : ℕ) → set_of loose.now r ≡ are_loose (set_of opened.now) standings.now waits.now r }
    ensures { result ≡ hop_by (set_of opened.now) (are_held (set_of opened.now) standings.now waits.now) needs.now }
{
    for need in needs {
        if goes_on(opened, standings, waits, loose, need) {
            return Some(hop(opened, need));
        }
    }
    None
}

/// Where the walk goes on from a rank.
fn hop_of(
    opened: &[bool],
    standings: &[Standing],
    waits: &Waits,
    loose: &[bool],
    rank: u16,
) -> Option<NextHop>
    requires { (r : ℕ) → set_of loose.now r ≡ are_loose (set_of opened.now) standings.now waits.now r }
    ensures { result ≡ hop_of (set_of opened.now) standings.now waits.now rank }
{
    if !is_held(opened, standings, waits, loose, rank) {
        return None;
    }
    hop_by(opened, standings, waits, loose, waits.get(rank))
}

/// How the walk goes on from each rank.
pub(crate) fn walks_in(
    alloc: Global,
    opened: &[bool],
    standings: &[Standing],
    waits: &Waits,
    loose: &[bool],
) -> Result<Vec<Option<NextHop>>, AllocError>
    requires few { length standings.now < 65536 }
    requires loose { (r : ℕ) → set_of loose.now r ≡ are_loose (set_of opened.now) standings.now waits.now r }
    ensures { IfOk result (λ walks. walks.items ≡ walks_in (set_of opened.now) standings.now waits.now) }
{
    (0..standings.len() as u16)
        .map(|rank| hop_of(opened, standings, waits, loose, rank))
        .collect(alloc)
}

/// Over every closed recording, the held ranks are the greatest deadlocked set.
pub fn the_held_are_the_greatest()
    ensures { TheHeldAreTheGreatest }
{}

/// Each held rank stands where it does, whatever calls come in the place of the opens. It has no premise: what comes
/// there need not be a lawful list.
pub fn held_ranks_stay()
    ensures { HeldRanksStay }
{}
