//! Which ranks a stricter reading holds back.

ghost use Rattle.std.specs.Prelude.{◌≡◌, true, length, IfOk};
ghost use Rattle.std.specs.List.{filter, range_with_len};
ghost use Rattle.moves.specs.Runs.{StandsNoLater};
ghost use Rattle.moves.specs.Readings.{is_no_laxer};
ghost use Rattle.moves.specs.Stands.{stands_earlier, StricterReadingsStandNoLater};

use crate::analyser::Analyser;
use std::alloc::{AllocError, Global};

/// Whether the rank stands earlier in the first.
fn stands_earlier(first: &Analyser, second: &Analyser, rank: u16) -> bool
    ensures { result ≡ stands_earlier first.now.stands second.now.stands rank }
{
    first.stand(rank).unwrap_or(0) < second.stand(rank).unwrap_or(0)
}

/// The ranks that stand earlier in the first, rising. Both are over the same calls of the same run, and the
/// reading of the first is strict, or each has an eager limit and that of the first is no greater. So no rank
/// stands later in the first, and what this answers are the ranks that its reading holds back: they come as far
/// in the second by messages alone that it sends on at once. It fails only where memory runs out.
pub fn held_back(alloc: Global, first: &Analyser, second: &Analyser) -> Result<Vec<u16>, AllocError>
    requires groups { first.now.groups ≡ second.now.groups }
    requires recording { first.now.recording ≡ second.now.recording }
    requires readings { is_no_laxer first.now.reading second.now.reading ≡ true }
    ensures no_later { StandsNoLater first.now.stands second.now.stands }
    ensures value { IfOk result (λ ranks. ranks.items ≡ filter (stands_earlier first.now.stands second.now.stands) (range_with_len 0 (length first.now.recording))) }
{
    first.stands_are_the_end();
    second.stands_are_the_end();
    let most = first.head().ranks().min(second.head().ranks());
    let mut ranks = Vec::new(alloc);
    for rank in 0..most {
        if stands_earlier(first, second, rank) {
            ranks.push(rank)?;
        }
    }
    Ok(ranks)
}

/// Over the same calls no rank comes to stand later by a reading that is strict, or whose eager limit is no
/// greater. It has no other premise: the calls need be neither closed nor lawful.
pub fn stricter_readings_stand_no_later()
    ensures { StricterReadingsStandNoLater }
{}
