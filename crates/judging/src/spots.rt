//! The calls that a report names, each with the line of its entry in the journal.

ghost use Rattle.std.specs.Prelude.{◌≡◌, ◌++◌, ℕ, map, slice_index, IfOk, OnOk};
ghost use Rattle.std.specs.List.{flat_map};
ghost use Rattle.std.specs.List.Sorted.{IsStrictlySortedBy};
ghost use Rattle.moves.specs.Stands.{stands_of};
ghost use Rattle.waitgraph.specs.PendingGraphs.{IsGraphWith};
ghost use Rattle.waitgraph.specs.Stuck.{unmet_of};
ghost use Rattle.waitgraph.specs.Waits.{needs_in};
ghost use Rattle.judging.specs.KnownCalls.{calls_at_open, calls_at_opens, calls_awaited, calls_of_item};
ghost use Rattle.judging.specs.NamedCalls.{HaveLines, HaveNumbers, call_at, calls_found, calls_named, calls_needed, calls_of_member, calls_of_stuck, calls_there, starts_of};
ghost use Rattle.judging.specs.inner.Known.{known_in};
ghost use Rattle.judging.specs.inner.Spots.{spot_cmp, with_call, with_calls};
ghost use Rattle.judging.specs.inner.Tables.{line_of_spot, rows_of};

use crate::known::Known;
use crate::reported::Spot;
use crate::turns::{LineTable, ranks_of};
use callstore::request::completes;
use findings::finding::Finding;
use moves::analyser::Analyser;
use moves::need::{Need, stand_of};
use report::judged::LineAt;
use std::alloc::{AllocError, Global};
use std::collections::BTreeSet;
use waitgraph::awaited::Awaited;
use waitgraph::graph::Graph;
use waitgraph::pending::Item;

/// Adds a call.
fn add(spots: &mut BTreeSet<Spot>, rank: u16, place: u32) -> Result<(), AllocError>
    ensures { OnOk result (spots.new.keys ≡ with_call spots.old.keys (call_at rank place)) }
{
    spots.insert(Spot { rank, place })?;
    Ok(())
}

/// Adds the call of a rank at a place, if there is one.
fn add_there(spots: &mut BTreeSet<Spot>, rank: u16, place: Option<u32>) -> Result<(), AllocError>
    ensures { OnOk result (spots.new.keys ≡ with_calls spots.old.keys (calls_there rank place)) }
{
    match place {
        Some(place) => add(spots, rank, place),
        None => Ok(()),
    }
}

/// Adds the starts of the requests that the call at a place completes.
fn add_starts(
    spots: &mut BTreeSet<Spot>,
    analyser: &Analyser,
    rank: u16,
    place: u32,
) -> Result<(), AllocError>
    ensures { OnOk result (spots.new.keys ≡ with_calls spots.old.keys (starts_of analyser.now.recording rank place)) }
{
    let Some(record) = analyser.record(rank, place) else {
        return Ok(());
    };
    for index in 0..completes(record.as_call()).len() {
        let start = analyser.pairs().completed(rank, place, index);
        add_there(spots, rank, start)?;
    }
    Ok(())
}

/// Adds the call that a need is for.
fn add_need(spots: &mut BTreeSet<Spot>, need: &Need) -> Result<(), AllocError>
    ensures { OnOk result (spots.new.keys ≡ with_calls spots.old.keys (calls_needed need.now)) }
{
    match *need {
        Need::At { rank, place } => add(spots, rank, place),
        Need::Lacking { .. } => Ok(()),
    }
}

/// Adds the calls that a rank waits for.
fn add_needs(spots: &mut BTreeSet<Spot>, needs: &[Need]) -> Result<(), AllocError>
    ensures { OnOk result (spots.new.keys ≡ with_calls spots.old.keys (flat_map calls_needed needs.now)) }
{
    for need in needs {
        add_need(spots, need)?;
    }
    Ok(())
}

/// Adds what a report names of a stuck rank.
fn add_stuck(
    spots: &mut BTreeSet<Spot>,
    analyser: &Analyser,
    graph: &Graph,
    rank: u16,
) -> Result<(), AllocError>
    requires { (rank : ℕ) → needs_in graph.now.waits rank ≡ unmet_of analyser.now.reading analyser.now.groups analyser.now.recording rank }
    ensures { OnOk result (spots.new.keys ≡ with_calls spots.old.keys (calls_of_stuck analyser.now.reading analyser.now.groups analyser.now.recording rank)) }
{
    analyser.stands_are_the_end();
    let place = stand_of(analyser.stands(), rank);
    add(spots, rank, place)?;
    add_needs(spots, graph.unmet(rank))?;
    add_starts(spots, analyser, rank, place)
}

/// Adds what a report names of stuck ranks.
fn add_all_stuck(
    spots: &mut BTreeSet<Spot>,
    analyser: &Analyser,
    graph: &Graph,
    ranks: &[u16],
) -> Result<(), AllocError>
    requires { (rank : ℕ) → needs_in graph.now.waits rank ≡ unmet_of analyser.now.reading analyser.now.groups analyser.now.recording rank }
    ensures { OnOk result (spots.new.keys ≡ with_calls spots.old.keys (flat_map (calls_of_stuck analyser.now.reading analyser.now.groups analyser.now.recording) ranks.now)) }
{
    for rank in ranks {
        add_stuck(spots, analyser, graph, *rank)?;
    }
    Ok(())
}

/// Adds what an item of a held rank's pending call waits for.
fn add_awaited(spots: &mut BTreeSet<Spot>, awaited: &Awaited) -> Result<(), AllocError>
    ensures { OnOk result (spots.new.keys ≡ with_calls spots.old.keys (calls_awaited awaited.now)) }
{
    match awaited {
        Awaited::Call(need) => add_need(spots, need),
        Awaited::Rank { .. } | Awaited::Nobody => Ok(()),
    }
}

/// Adds what is awaited at an open.
fn add_all_awaited(spots: &mut BTreeSet<Spot>, all: &[Awaited]) -> Result<(), AllocError>
    ensures { OnOk result (spots.new.keys ≡ with_calls spots.old.keys (flat_map calls_awaited all.now)) }
{
    for awaited in all {
        add_awaited(spots, awaited)?;
    }
    Ok(())
}

/// Adds the start of the request that an item is.
fn add_item(
    spots: &mut BTreeSet<Spot>,
    analyser: &Analyser,
    rank: u16,
    item: &Item,
) -> Result<(), AllocError>
    ensures { OnOk result (spots.new.keys ≡ with_calls spots.old.keys (calls_of_item analyser.now.recording rank item.now)) }
{
    match *item {
        Item::Request(number) => {
            add_there(spots, rank, analyser.pairs().active_start(rank, number))
        }
        Item::Message(_) => Ok(()),
    }
}

/// Adds the starts of the requests of a rank's pending call.
fn add_items(
    spots: &mut BTreeSet<Spot>,
    analyser: &Analyser,
    rank: u16,
    items: &[Item],
) -> Result<(), AllocError>
    ensures { OnOk result (spots.new.keys ≡ with_calls spots.old.keys (flat_map (calls_of_item analyser.now.recording rank) items.now)) }
{
    for item in items {
        add_item(spots, analyser, rank, item)?;
    }
    Ok(())
}

/// Adds what a report names of a rank, if this is held and stands at its open.
fn add_at_open(
    spots: &mut BTreeSet<Spot>,
    analyser: &Analyser,
    graph: &Graph,
    known: &Known,
    rank: u16,
) -> Result<(), AllocError>
    ensures { OnOk result (spots.new.keys ≡ with_calls spots.old.keys (calls_at_open analyser.now.recording (known_in known.now) graph.now.at_open rank
        (slice_index (stands_of analyser.now.reading analyser.now.groups analyser.now.recording) rank))) }
{
    let awaits = graph.at_open(rank);
    if awaits.is_empty() {
        return Ok(());
    }
    analyser.stands_are_the_end();
    add(spots, rank, stand_of(analyser.stands(), rank))?;
    add_all_awaited(spots, awaits)?;
    add_items(spots, analyser, rank, known.items(rank))
}

/// Adds what a report names of the held ranks that stand at their opens.
fn add_all_at_open(
    spots: &mut BTreeSet<Spot>,
    analyser: &Analyser,
    graph: &Graph,
    known: &Known,
) -> Result<(), AllocError>
    ensures { OnOk result (spots.new.keys ≡ with_calls spots.old.keys
        (calls_at_opens analyser.now.reading analyser.now.groups analyser.now.recording (known_in known.now) graph.now.at_open)) }
{
    for rank in 0..ranks_of(analyser) {
        add_at_open(spots, analyser, graph, known, rank)?;
    }
    Ok(())
}

/// Adds the call of a member in a wave.
fn add_member(
    spots: &mut BTreeSet<Spot>,
    analyser: &Analyser,
    comm: u16,
    wave: u32,
    member: u16,
) -> Result<(), AllocError>
    ensures { OnOk result (spots.new.keys ≡ with_calls spots.old.keys (calls_of_member analyser.now.groups analyser.now.recording comm wave member)) }
{
    match analyser.head().world_rank(comm, member) {
        Some(rank) => add_there(spots, rank, analyser.pairs().member(comm, wave, member)),
        None => Ok(()),
    }
}

/// Adds the calls of two members in a wave.
fn add_both(
    spots: &mut BTreeSet<Spot>,
    analyser: &Analyser,
    comm: u16,
    wave: u32,
    member: u16,
) -> Result<(), AllocError>
    ensures { OnOk result (spots.new.keys ≡ with_calls spots.old.keys
        (calls_of_member analyser.now.groups analyser.now.recording comm wave 0 ++ calls_of_member analyser.now.groups analyser.now.recording comm wave member)) }
{
    add_member(spots, analyser, comm, wave, 0)?;
    add_member(spots, analyser, comm, wave, member)
}

/// Adds the calls of a finding.
fn add_finding(
    spots: &mut BTreeSet<Spot>,
    analyser: &Analyser,
    finding: &Finding,
) -> Result<(), AllocError>
    ensures { OnOk result (spots.new.keys ≡ with_calls spots.old.keys (calls_found analyser.now.groups analyser.now.recording finding.now)) }
{
    match *finding {
        Finding::Kind {
            comm,
            wave,
            member,
            ..
        }
        | Finding::Root {
            comm,
            wave,
            member,
            ..
        } => add_both(spots, analyser, comm, wave, member),
        Finding::Unreceived { rank, place }
        | Finding::Request { rank, place, .. }
        | Finding::Group { rank, place } => add(spots, rank, place),
    }
}

/// Adds the calls of the findings.
fn add_findings(
    spots: &mut BTreeSet<Spot>,
    analyser: &Analyser,
    findings: &[Finding],
) -> Result<(), AllocError>
    ensures { OnOk result (spots.new.keys ≡ with_calls spots.old.keys (flat_map (calls_found analyser.now.groups analyser.now.recording) findings.now)) }
{
    for finding in findings {
        add_finding(spots, analyser, finding)?;
    }
    Ok(())
}

/// The lines of a set of calls.
fn lines_at(
    alloc: Global,
    spots: &BTreeSet<Spot>,
    table: &LineTable,
) -> Result<Vec<LineAt>, AllocError>
    ensures lines { IfOk result (λ lines. lines.items ≡ map (line_of_spot (rows_of table.now)) spots.now.keys) }
    ensures sorted { IfOk result (λ lines. IsStrictlySortedBy spot_cmp spots.now.keys) }
{
    spots
        .iter()
        .map(|spot| LineAt {
            rank: spot.rank,
            place: spot.place,
            line: table.line(spot.rank, spot.place),
        })
        .collect(alloc)
}

/// The calls that a report with these findings names, by rank and place, each with its line.
pub(crate) fn lines_of(
    alloc: Global,
    analyser: &Analyser,
    graph: &Graph,
    known: &Known,
    findings: &[Finding],
    table: &LineTable,
) -> Result<Vec<LineAt>, AllocError>
    requires { IsGraphWith analyser.now.reading analyser.now.groups analyser.now.recording (known_in known.now) graph.now }
    ensures names { IfOk result (λ lines. HaveLines (calls_named analyser.now.reading analyser.now.groups analyser.now.recording findings.now
        ++ calls_at_opens analyser.now.reading analyser.now.groups analyser.now.recording (known_in known.now) graph.now.at_open) lines.items) }
    ensures numbers { IfOk result (λ lines. HaveNumbers (rows_of table.now) lines.items) }
{
    let mut spots = BTreeSet::new(alloc);
    add_all_stuck(&mut spots, analyser, graph, graph.stuck())?;
    add_findings(&mut spots, analyser, findings)?;
    add_all_at_open(&mut spots, analyser, graph, known)?;
    lines_at(alloc, &spots, table)
}
