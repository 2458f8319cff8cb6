//! Walks from held rank to held rank, and the causes at which they end.
//!
//! A walk goes on from a held rank by one need, so the rank is on one cycle at most: it is on one exactly
//! if the walk comes back to it. A cycle is listed at its lowest rank, so nothing is sorted and none is
//! listed twice.

ghost use Rattle.std.specs.Prelude.{◌≡◌, ◌<◌, ◌++◌, nat_le, length, map, option_map, IfOk, OnOk};
ghost use Rattle.std.specs.Option.{option_to_list};
ghost use Rattle.std.specs.List.{filter_map, range_with_len, list_all};
ghost use Rattle.waitgraph.specs.Causes.{StarvedOf, view_of, WalksEndInTheCauses, EachRecordingHasOneListOfCauses};
ghost use Rattle.waitgraph.specs.inner.Causes.{next_in, lacks_in, way_round, cycle_at, missing_at, starved_at, causes_in};

use crate::cause::Cause;
use crate::next_hop::NextHop;
use std::alloc::{AllocError, Global};

/// The rank to which the walk goes on from a rank.
fn next_in(walks: &[Option<NextHop>], rank: u16) -> Option<u16>
    ensures { result ≡ next_in walks.now rank }
{
    match walks.get(usize::from(rank)) {
        Some(Some(NextHop::To { rank: next })) => Some(*next),
        _ => None,
    }
}

/// The rank that lacks the call for which a rank waits.
fn lacks_in(walks: &[Option<NextHop>], rank: u16) -> Option<u16>
    ensures { result ≡ lacks_in walks.now rank }
{
    match walks.get(usize::from(rank)) {
        Some(Some(NextHop::Lacks { rank: peer })) => Some(*peer),
        _ => None,
    }
}

/// The ranks of the walk from `home` until it comes back; None where it doesn't.
fn way_round(
    alloc: Global,
    walks: &[Option<NextHop>],
    home: u16,
) -> Result<Option<Vec<u16>>, AllocError>
    ensures { IfOk result (λ ranks. option_map (λ r. r.items) ranks ≡ way_round walks.now (length walks.now) home home) }
{
    let mut ranks = Vec::new(alloc);
    let mut rank = home;
    for _step in 0..walks.len() {
        ranks.push(rank)?;
        match next_in(walks, rank) {
            None => return Ok(None),
            Some(next) if next == home => return Ok(Some(ranks)),
            Some(next) => rank = next,
        }
    }
    Ok(None)
}

/// Whether the rank is the lowest of the ranks.
fn is_lowest(rank: u16, ranks: &[u16]) -> bool
    ensures { result ≡ list_all (nat_le rank) ranks.now }
{
    ranks.iter().all(|other| rank <= *other)
}

/// Adds the cycle whose lowest rank is the given one, if there is one.
fn add_cycle(
    alloc: Global,
    causes: &mut Vec<Cause>,
    walks: &[Option<NextHop>],
    rank: u16,
) -> Result<(), AllocError>
    ensures { OnOk result (map view_of causes.new.items ≡ map view_of causes.old.items ++ option_to_list (cycle_at walks.now rank)) }
{
    if let Some(ranks) = way_round(alloc, walks, rank)? {
        if is_lowest(rank, &ranks) {
            causes.push(Cause::Cycle(ranks))?;
        }
    }
    Ok(())
}

#[tactic(auto, using(crate::proofs::RangeLemmas::one_given))]
fn add_cycles(
    alloc: Global,
    causes: &mut Vec<Cause>,
    walks: &[Option<NextHop>],
) -> Result<(), AllocError>
    requires { length walks.now < 65536 }
    ensures { OnOk result (map view_of causes.new.items ≡ map view_of causes.old.items ++ filter_map (cycle_at walks.now) (range_with_len 0 (length walks.now))) }
{
    for rank in 0..walks.len() as u16 {
        add_cycle(alloc, causes, walks, rank)?;
    }
    Ok(())
}

/// Adds the missing call for which the rank waits, if it waits for one.
fn add_missing(
    causes: &mut Vec<Cause>,
    walks: &[Option<NextHop>],
    rank: u16,
) -> Result<(), AllocError>
    ensures { OnOk result (map view_of causes.new.items ≡ map view_of causes.old.items ++ option_to_list (missing_at walks.now rank)) }
{
    if let Some(peer) = lacks_in(walks, rank) {
        causes.push(Cause::Missing { rank, peer })?;
    }
    Ok(())
}

#[tactic(auto, using(crate::proofs::RangeLemmas::one_given))]
fn add_missing_calls(causes: &mut Vec<Cause>, walks: &[Option<NextHop>]) -> Result<(), AllocError>
    requires { length walks.now < 65536 }
    ensures { OnOk result (map view_of causes.new.items ≡ map view_of causes.old.items ++ filter_map (missing_at walks.now) (range_with_len 0 (length walks.now))) }
{
    for rank in 0..walks.len() as u16 {
        add_missing(causes, walks, rank)?;
    }
    Ok(())
}

/// The rank itself, if it waits for a message that nobody may send.
fn starved_in(walks: &[Option<NextHop>], rank: u16) -> Option<u16>
    ensures { option_map StarvedOf result ≡ starved_at walks.now rank }
{
    match walks.get(usize::from(rank)) {
        Some(Some(NextHop::Nobody)) => Some(rank),
        _ => None,
    }
}

/// Adds the rank, if it is one that waits for a message which nobody may send.
fn add_starved(
    causes: &mut Vec<Cause>,
    walks: &[Option<NextHop>],
    rank: u16,
) -> Result<(), AllocError>
    ensures { OnOk result (map view_of causes.new.items ≡ map view_of causes.old.items ++ option_to_list (starved_at walks.now rank)) }
{
    if let Some(rank) = starved_in(walks, rank) {
        causes.push(Cause::Starved { rank })?;
    }
    Ok(())
}

#[tactic(auto, using(crate::proofs::RangeLemmas::one_given))]
fn add_starved_ranks(causes: &mut Vec<Cause>, walks: &[Option<NextHop>]) -> Result<(), AllocError>
    requires { length walks.now < 65536 }
    ensures { OnOk result (map view_of causes.new.items ≡ map view_of causes.old.items ++ filter_map (starved_at walks.now) (range_with_len 0 (length walks.now))) }
{
    for rank in 0..walks.len() as u16 {
        add_starved(causes, walks, rank)?;
    }
    Ok(())
}

/// The cycles by their lowest rank, the missing calls by the rank that waits, and then the ranks that wait for a message
/// which nobody may send.
pub(crate) fn causes_in(alloc: Global, walks: &[Option<NextHop>]) -> Result<Vec<Cause>, AllocError>
    requires { length walks.now < 65536 }
    ensures { IfOk result (λ causes. map view_of causes.items ≡ causes_in walks.now) }
{
    let mut causes = Vec::new(alloc);
    add_cycles(alloc, &mut causes, walks)?;
    add_missing_calls(&mut causes, walks)?;
    add_starved_ranks(&mut causes, walks)?;
    Ok(causes)
}

/// The walk from each held rank of a closed recording comes to a cause that is listed, and each cause that
/// is listed is one to which the walk from some held rank comes. None is listed twice.
#[tactic(auto, using(crate::proofs::CauseLemmas::walks_end_in_the_causes))]
pub fn walks_end_in_the_causes()
    ensures { WalksEndInTheCauses }
{}

/// Every closed recording has one list of causes.
#[tactic(auto, using(crate::proofs::CauseLemmas::each_recording_has_one_list_of_causes))]
pub fn each_recording_has_one_list_of_causes()
    ensures { EachRecordingHasOneListOfCauses }
{}
