//! Messages that are sent and that nobody receives, nor can any more.

ghost use Rattle.std.specs.Prelude.{◌≡◌, ◌++◌, is_some, option_and_then, OnOk};
ghost use Rattle.callstore.specs.Envelopes.{message_of};
ghost use Rattle.findings.specs.Places.{call_at, over_places};
ghost use Rattle.findings.specs.Findings.{is_unreceived, may_yet_receive, receiver_of, unreceived_at, unreceived_of};

use crate::bounds::{calls, ranks};
use crate::finding::Finding;
use callstore::envelope::Half;
use pairing::left_open::is_left_open;
use pairing::pairs::Pairs;
use std::alloc::AllocError;

fn sends(pairs: &Pairs, rank: u16, place: u32) -> bool
    ensures { result ≡ is_some (option_and_then (message_of Half.Send) (call_at pairs.now.recording rank place)) }
{
    match pairs.call(rank, place) {
        Some(call) => call.message(Half::Send).is_some(),
        None => false,
    }
}

/// The rank to which the call at the place sends.
fn receiver_of(pairs: &Pairs, rank: u16, place: u32) -> Option<u16>
    ensures { result ≡ receiver_of pairs.now.groups pairs.now.recording rank place }
{
    let message = pairs.call(rank, place)?.message(Half::Send)?;
    pairs.head().world_rank(message.comm, message.peer)
}

fn is_unreceived(pairs: &Pairs, rank: u16, place: u32) -> bool
    ensures { result ≡ is_unreceived pairs.now.groups pairs.now.recording rank place }
{
    sends(pairs, rank, place) && pairs.partner(rank, place, Half::Send).is_none()
}

/// Whether the receive of the message may yet come: the list of its receiver was left open.
fn may_yet_receive(pairs: &Pairs, rank: u16, place: u32) -> bool
    ensures { result ≡ may_yet_receive pairs.now.groups pairs.now.recording rank place }
{
    match receiver_of(pairs, rank, place) {
        Some(receiver) => is_left_open(pairs, receiver),
        None => false,
    }
}

#[tactic(auto, unfolding(crate::specs::Findings::unreceived_at))]
fn add_at(
    findings: &mut Vec<Finding>,
    pairs: &Pairs,
    rank: u16,
    place: u32,
) -> Result<(), AllocError>
    ensures { OnOk result (findings.new.items ≡ findings.old.items ++ unreceived_at pairs.now.groups pairs.now.recording rank place) }
{
    if is_unreceived(pairs, rank, place) && !may_yet_receive(pairs, rank, place) {
        findings.push(Finding::Unreceived { rank, place })?;
    }
    Ok(())
}

fn add_of_rank(findings: &mut Vec<Finding>, pairs: &Pairs, rank: u16) -> Result<(), AllocError>
    ensures { OnOk result (findings.new.items
        ≡ findings.old.items ++ over_places (unreceived_at pairs.now.groups pairs.now.recording rank) pairs.now.recording rank) }
{
    for place in 0..calls(pairs, rank) {
        add_at(findings, pairs, rank, place)?;
    }
    Ok(())
}

/// Adds the messages that nobody receives, by rank and place. Where each is received it looks at no call.
#[tactic(auto, using(crate::proofs::NothingLemmas::none_unreceived), unfolding(crate::specs::Findings::unreceived_of))]
pub fn add_unreceived(findings: &mut Vec<Finding>, pairs: &Pairs) -> Result<(), AllocError>
    ensures { OnOk result (findings.new.items ≡ findings.old.items ++ unreceived_of pairs.now.groups pairs.now.recording) }
{
    if !pairs.has_unreceived() {
        return Ok(());
    }
    for rank in 0..ranks(pairs) {
        add_of_rank(findings, pairs, rank)?;
    }
    Ok(())
}
