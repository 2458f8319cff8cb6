//! Which ranks are held among those that are asked for, and the calls of findings.

ghost use Rattle.std.specs.Prelude.{◌≡◌, ◌++◌, map, IfOk, OnOk};
ghost use Rattle.judging.specs.HeldSaid.{call_said};
ghost use Rattle.judging.specs.NamedCalls.{calls_found, calls_of_member, calls_there};
ghost use Rattle.judging.specs.inner.Held.{AreKept, IsHeldKept, IsSame};
ghost use Rattle.judging.specs.inner.Known.{known_in};

use crate::judge::RANKS_ASKED;
use crate::known::Known;
use findings::finding::Finding;
use moves::analyser::Analyser;
use report::judged::{CallOf, HeldRanks};
use std::alloc::{AllocError, Global};
use waitgraph::held::held_among;

/// The held ranks, rising, and the calls of each finding.
#[derive(Drop)]
pub(crate) struct Held {
    pub ranks: Vec<u16>,
    pub calls: Vec<Vec<CallOf>>,
}

/// Adds the call of a rank at a place, if there is one.
fn add_there(calls: &mut Vec<CallOf>, rank: u16, place: Option<u32>) -> Result<(), AllocError>
    ensures { OnOk result (map call_said calls.new.items ≡ map call_said calls.old.items ++ calls_there rank place) }
{
    if let Some(place) = place {
        calls.push(CallOf { rank, place })?;
    }
    Ok(())
}

/// Adds the call of a member in a wave.
fn add_member(
    calls: &mut Vec<CallOf>,
    analyser: &Analyser,
    comm: u16,
    wave: u32,
    member: u16,
) -> Result<(), AllocError>
    ensures { OnOk result (map call_said calls.new.items ≡ map call_said calls.old.items ++ calls_of_member analyser.now.groups analyser.now.recording comm wave member) }
{
    match analyser.head().world_rank(comm, member) {
        Some(rank) => add_there(calls, rank, analyser.pairs().member(comm, wave, member)),
        None => Ok(()),
    }
}

/// The calls of two members in a wave.
fn calls_of_both(
    alloc: Global,
    analyser: &Analyser,
    comm: u16,
    wave: u32,
    member: u16,
) -> Result<Vec<CallOf>, AllocError>
    ensures { IfOk result (λ calls. map call_said calls.items ≡ calls_of_member analyser.now.groups analyser.now.recording comm wave 0 ++ calls_of_member analyser.now.groups analyser.now.recording comm wave member) }
{
    let mut calls = Vec::new(alloc);
    add_member(&mut calls, analyser, comm, wave, 0)?;
    add_member(&mut calls, analyser, comm, wave, member)?;
    Ok(calls)
}

/// The calls of a finding.
fn calls_of(
    alloc: Global,
    analyser: &Analyser,
    finding: &Finding,
) -> Result<Vec<CallOf>, AllocError>
    ensures { IfOk result (λ calls. map call_said calls.items ≡ calls_found analyser.now.groups analyser.now.recording finding.now) }
{
    match *finding {
        Finding::Kind {
            comm,
            wave,
            member,
            ..
        }
        | Finding::Root {
            comm,
            wave,
            member,
            ..
        } => calls_of_both(alloc, analyser, comm, wave, member),
        Finding::Unreceived { rank, place }
        | Finding::Request { rank, place, .. }
        | Finding::Group { rank, place } => {
            let calls = vec![in alloc; CallOf { rank, place }]?;
            Ok(calls)
        }
    }
}

/// Those of each finding.
#[tactic(auto, using(crate::proofs::HeldLemmas::one_taken))]
fn calls_of_all(
    alloc: Global,
    analyser: &Analyser,
    findings: &[Finding],
) -> Result<Vec<Vec<CallOf>>, AllocError>
    ensures { IfOk result (λ all. map (λ calls. map call_said calls.items) all.items ≡ map (calls_found analyser.now.groups analyser.now.recording) findings.now) }
{
    let mut all = Vec::new(alloc);
    for finding in findings {
        all.push(calls_of(alloc, analyser, finding)?)?;
    }
    Ok(all)
}

/// What is asked for, of these ranks.
fn held_among_these(
    alloc: Global,
    analyser: &Analyser,
    known: &Known,
    findings: &[Finding],
    asked: &[bool],
) -> Result<Held, AllocError>
    ensures { IfOk result (AreKept analyser.now.reading analyser.now.groups analyser.now.recording (known_in known.now) asked.now findings.now) }
{
    let ranks = held_among(
        alloc,
        analyser,
        known.pending.as_slice(),
        known.sinks.as_slice(),
        asked,
    )?;
    let calls = calls_of_all(alloc, analyser, findings)?;
    Ok(Held { ranks, calls })
}

/// What is asked for; None if nothing is.
pub(crate) fn held_of(
    alloc: Global,
    analyser: &Analyser,
    known: &Known,
    findings: &[Finding],
    asked: Option<[bool; RANKS_ASKED]>,
) -> Result<Option<Held>, AllocError>
    ensures { IfOk result (IsHeldKept analyser.now.reading analyser.now.groups analyser.now.recording (known_in known.now) asked findings.now) }
{
    match asked {
        Some(asked) => {
            let held = held_among_these(alloc, analyser, known, findings, &asked)?;
            Ok(Some(held))
        }
        None => Ok(None),
    }
}

/// What a report says of it.
pub(crate) fn said_of(held: &Option<Held>) -> Option<HeldRanks<'_>>
    ensures { IsSame held.now result }
{
    match held {
        Some(held) => Some(HeldRanks {
            ranks: held.ranks.as_slice(),
            finding_calls: held.calls.as_slice(),
        }),
        None => None,
    }
}
