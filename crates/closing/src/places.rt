//! Where numbers stand in lists.

ghost use Rattle.std.specs.Prelude.{◌≡◌, ◌==◌, position};
ghost use Rattle.std.specs.List.{position_or_len};
ghost use Rattle.std.specs.Prelude.{◌<◌, ◌≤◌, length, min, pos, IfOk, IfSome};
ghost use Rattle.closing.specs.inner.Noted.{HavePlaces};

use journals::lines::Lines;
use std::alloc::AllocError;

/// The most of what is counted; more are out of memory.
const MOST: usize = 0xffff_ffff;

/// A place, where there may be as many.
pub(crate) fn checked_place(place: usize) -> Result<u32, AllocError>
    ensures { IfOk result (λ checked. checked ≡ place) }
{
    if place >= MOST {
        return Err(AllocError);
    }
    Ok(place as u32)
}

/// A place of a rank, or of a number of a communicator; there are never too many of these.
pub(crate) fn checked_rank(place: usize) -> Result<u16, AllocError>
    ensures { IfOk result (λ checked. checked ≡ place) }
{
    if place > usize::from(u16::MAX) {
        return Err(AllocError);
    }
    Ok(place as u16)
}

/// A place as the key of a split, where it can be one.
pub(crate) fn as_key(place: usize) -> i32
    ensures { place ≤ 2147483647 → result ≡ pos place }
{
    if place <= 0x7fff_ffff {
        place as i32
    } else {
        i32::MAX
    }
}

/// A place as the colour of a split, where it can be one.
pub(crate) fn as_colour(place: usize) -> u32
    ensures { place ≤ 2147483647 → result ≡ place }
{
    if place <= 0x7fff_ffff {
        place as u32
    } else {
        u32::MAX
    }
}

/// How many lines a journal has; there are never more than that.
pub(crate) fn count_of(lines: &Lines) -> u32
    ensures exact { result ≡ min (length lines.now) MOST }
    ensures all { HavePlaces lines.now → result ≡ length lines.now }
{
    let count = lines.count();
    if count < MOST { count as u32 } else { u32::MAX }
}

/// The index of a number among some.
pub(crate) fn index_of(numbers: &[u32], wanted: u32) -> Option<usize>
    ensures found { result ≡ position (λ number. number == wanted) numbers.now }
    ensures below { IfSome result (λ place. place < length numbers.now) }
{
    numbers.iter().position(|number| *number == wanted)
}

/// The place of a rank in a group; how many members that has, where it is none.
#[tactic(auto, using(crate::proofs::PlaceLemmas::place_of_none))]
pub(crate) fn place_in(group: &[u32], rank: u32) -> usize
    ensures { result ≡ position_or_len (λ member. member == rank) group.now }
{
    match index_of(group, rank) {
        Some(place) => place,
        None => group.len(),
    }
}
