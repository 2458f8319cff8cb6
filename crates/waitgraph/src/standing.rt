//! Where ranks stand, and which lists were left open.

ghost use Rattle.std.specs.Prelude.{◌≡◌, ◌<◌, IfOk, length};
ghost use Rattle.std.specs.List.{list_any};
ghost use Rattle.waitgraph.specs.inner.Held.{left_open_in, standing_at, standings_at};

use moves::need::stand_of;
use pairing::left_open::{is_left_open, leaves_open};
use pairing::pairs::Pairs;
use std::alloc::{AllocError, Global};

/// Where a rank of a run comes to stand.
#[derive(Clone, Copy, PartialEq, Eq)]
pub enum Standing {
    /// At its Finalize.
    AtFinalize,
    /// At the end of its list, which was left open.
    AtOpen,
    /// At a call that it doesn't complete.
    Stuck,
}

/// Of each rank, whether its list was left open.
pub(crate) fn left_open_in(alloc: Global, pairs: &Pairs) -> Result<Vec<bool>, AllocError>
    ensures { IfOk result (λ marks. marks.items ≡ left_open_in pairs.now.recording) }
{
    (0..pairs.head().ranks())
        .map(|rank| is_left_open(pairs, rank))
        .collect(alloc)
}

/// Whether one of the lists was.
pub(crate) fn is_some(marks: &[bool]) -> bool
    ensures { result ≡ list_any (λ open_list. open_list) marks.now }
{
    marks.iter().any(|mark| *mark)
}

/// Where the rank stands.
fn standing_at(pairs: &Pairs, stands: &[u32], rank: u16) -> Standing
    ensures { result ≡ standing_at pairs.now.recording stands.now rank }
{
    match pairs.call(rank, stand_of(stands, rank)) {
        Some(call) if !call.ends_list() => Standing::Stuck,
        Some(call) if leaves_open(&call) => Standing::AtOpen,
        Some(_) => Standing::AtFinalize,
        None => Standing::Stuck,
    }
}

/// Where each rank stands.
pub(crate) fn standings_at(
    alloc: Global,
    pairs: &Pairs,
    stands: &[u32],
) -> Result<Vec<Standing>, AllocError>
    ensures value { IfOk result (λ standings. standings.items ≡ standings_at pairs.now.recording stands.now) }
    ensures few { IfOk result (λ standings. length standings.items < 65536) }
{
    (0..pairs.head().ranks())
        .map(|rank| standing_at(pairs, stands, rank))
        .collect(alloc)
}
