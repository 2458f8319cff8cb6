//! Requests that are started and that no wait completes, nor can any more.

ghost use Rattle.std.specs.Prelude.{◌≡◌, ◌++◌, ◌==◌, Some, false, option_and_then, OnOk};
ghost use Rattle.std.specs.Option.{option_map_or};
ghost use Rattle.callstore.specs.Recordings.{calls_of};
ghost use Rattle.callstore.specs.Requests.{starts, started_in};
ghost use Rattle.findings.specs.Places.{call_at, over_places};
ghost use Rattle.findings.specs.Findings.{is_lost, lost_at, lost_requests};

use crate::bounds::{calls, ranks};
use crate::finding::Finding;
use pairing::left_open::is_left_open;
use pairing::pairs::Pairs;
use std::alloc::AllocError;

/// The request that the call at the place starts, if it starts one.
fn started_req(pairs: &Pairs, rank: u16, place: u32) -> Option<u32>
    ensures { result ≡ option_and_then starts (call_at pairs.now.recording rank place) }
{
    pairs.call(rank, place)?.starts()
}

/// Whether the request is active after the rank's calls, as the call at the place started it.
fn is_active(pairs: &Pairs, rank: u16, place: u32, req: u32) -> bool
    ensures { result ≡ option_map_or (λ start. start == place) (started_in (calls_of pairs.now.recording rank) req) false }
{
    match pairs.active_start(rank, req) {
        Some(start) => start == place,
        None => false,
    }
}

/// Whether no wait completes the request that the call at the place starts: it is active still, as the recording is
/// lawful.
fn is_lost(pairs: &Pairs, rank: u16, place: u32, req: u32) -> bool
    requires { option_and_then starts (call_at pairs.now.recording rank place) ≡ Some req }
    ensures { result ≡ is_lost pairs.now.recording rank req place }
{
    pairs.calls_are_lawful();
    is_active(pairs, rank, place, req) && !is_left_open(pairs, rank)
}

#[tactic(auto, unfolding(crate::specs::Findings::lost_at))]
fn add_at(
    findings: &mut Vec<Finding>,
    pairs: &Pairs,
    rank: u16,
    place: u32,
) -> Result<(), AllocError>
    ensures { OnOk result (findings.new.items ≡ findings.old.items ++ lost_at pairs.now.recording rank place) }
{
    match started_req(pairs, rank, place) {
        Some(req) => {
            if is_lost(pairs, rank, place, req) {
                findings.push(Finding::Request { rank, place, req })?;
            }
            Ok(())
        }
        None => Ok(()),
    }
}

/// Adds the requests of a rank that no wait completes. Where none is active it looks at no call.
fn add_of_rank(findings: &mut Vec<Finding>, pairs: &Pairs, rank: u16) -> Result<(), AllocError>
    ensures { OnOk result (findings.new.items
        ≡ findings.old.items ++ over_places (lost_at pairs.now.recording rank) pairs.now.recording rank) }
{
    pairs.calls_are_lawful();
    if !pairs.may_have_active(rank) {
        return Ok(());
    }
    for place in 0..calls(pairs, rank) {
        add_at(findings, pairs, rank, place)?;
    }
    Ok(())
}

/// Adds the requests that no wait completes, by rank and place of their starts.
#[tactic(auto, unfolding(crate::specs::Findings::lost_requests))]
pub fn add_requests(findings: &mut Vec<Finding>, pairs: &Pairs) -> Result<(), AllocError>
    ensures { OnOk result (findings.new.items ≡ findings.old.items ++ lost_requests pairs.now.recording) }
{
    for rank in 0..ranks(pairs) {
        add_of_rank(findings, pairs, rank)?;
    }
    Ok(())
}
