//! Who waits for whom where the ranks stand, and why.

ghost use Rattle.std.specs.Prelude.{◌≡◌, ◌<◌, ℕ, [], length, map, IfOk};
ghost use Rattle.std.specs.List.{filter, range_with_len};
ghost use Rattle.callstore.specs.Recordings.{IsClosed};
ghost use Rattle.waitgraph.specs.Stuck.{stuck_of, unmet_of};
ghost use Rattle.waitgraph.specs.inner.Stuck.{is_stuck_at, stuck_at};
ghost use Rattle.waitgraph.specs.Causes.{view_of, AreCauses};
ghost use Rattle.waitgraph.specs.inner.Causes.{walks_in, walks_at, causes_in};
ghost use Rattle.waitgraph.specs.inner.Held.{held_at, opened_of};
ghost use Rattle.waitgraph.specs.Held.{ListsHeld, is_some_left_open};
ghost use Rattle.waitgraph.specs.inner.Loose.{are_held};
ghost use Rattle.waitgraph.specs.Stays.{StayPut};
ghost use Rattle.waitgraph.specs.inner.Waits.{waits_at};
ghost use Rattle.waitgraph.specs.Waits.{needs_in};
ghost use Rattle.findings.specs.Findings.{findings_of};
ghost use Rattle.waitgraph.specs.PendingNeeds.{awaited_in};
ghost use Rattle.waitgraph.specs.Verdicts.{verdict_by};

use crate::awaited::Awaited;
use crate::cause::Cause;
use crate::loose::{held, loose, walks_in};
use crate::standing::{Standing, is_some, left_open_in, standings_at};
use crate::unmet::unmet_at;
use crate::verdict::Verdict;
use crate::waits::Waits;
use crate::walk::causes_in;
use findings::finding::{Finding, findings};
use moves::analyser::Analyser;
use moves::need::{Need, stand_of};
use moves::world::World;
use pairing::pairs::Pairs;
use std::alloc::{AllocError, Global};
use std::marker::Model;

pub mod pending;

/// Who waits for whom where the ranks of a run stand, and why, and what else is wrong with the run. Contracts see
/// the stuck ranks, the held ones, whether some list was left open, each rank's unmet needs, what is awaited at opens,
/// the causes and the findings.
pub struct Graph {
    stuck: Vec<u16>,
    held: Vec<u16>,
    left_open: bool,
    waits: Waits,
    at_open: Vec<Vec<Awaited>>,
    causes: Vec<Cause>,
    findings: Vec<Finding>,
}

// By hand: a derived drop is proved again at each exit of a function that owns one.
impl Drop for Graph {
    fn drop(self) {
        let Graph {
            stuck: _,
            held: _,
            left_open: _,
            waits: _,
            at_open: _,
            causes: _,
            findings: _,
        } = self;
    }
}

impl Model for Graph {
    ghost use Rattle.std.specs.Prelude.{map};
    ghost use Rattle.waitgraph.specs.Causes.{view_of};
    ghost use Rattle.waitgraph.specs.Graphs.{GraphView};

    ghost Value = { GraphView };

    ghost view = { λ g. record { stuck = g.stuck.items; held = g.held.items; left_open = g.left_open; waits = g.waits; at_open = map (λ one. one.items) g.at_open.items; causes = map view_of g.causes.items; findings = g.findings.items } };
}

/// Whether the rank's present call isn't the one that ends its list.
fn is_stuck_at(pairs: &Pairs, stands: &[u32], rank: u16) -> bool
    ensures { result ≡ is_stuck_at pairs.now.recording stands.now rank }
{
    match pairs.call(rank, stand_of(stands, rank)) {
        Some(call) => !call.ends_list(),
        None => true,
    }
}

pub(crate) fn stuck_at(alloc: Global, pairs: &Pairs, stands: &[u32]) -> Result<Vec<u16>, AllocError>
    ensures { IfOk result (λ stuck. stuck.items ≡ stuck_at pairs.now.recording stands.now) }
{
    (0..pairs.head().ranks())
        .filter(|rank| is_stuck_at(pairs, stands, *rank))
        .collect(alloc)
}

pub(crate) fn waits_at(alloc: Global, world: &World, stands: &[u32]) -> Result<Waits, AllocError>
    ensures { IfOk result (λ waits. waits ≡ waits_at world.now.reading world.now.pairs.groups world.now.pairs.recording stands.now) }
{
    let mut waits = Waits::new(alloc);
    for rank in 0..world.pairs.head().ranks() {
        waits.push(&unmet_at(alloc, world, stands, rank)?)?;
    }
    Ok(waits)
}

/// What the needs of all ranks come to: who is held, why, and whether some list was left open.
struct Found {
    held: Vec<u16>,
    causes: Vec<Cause>,
    left_open: bool,
}

/// Finds the held ranks and the causes, by what each rank waits for and where it stands.
fn who_is_held(
    alloc: Global,
    pairs: &Pairs,
    standings: &[Standing],
    waits: &Waits,
) -> Result<Found, AllocError>
    requires few { length standings.now < 65536 }
    ensures held { IfOk result (λ found. found.held.items ≡ filter (are_held (opened_of pairs.now.recording) standings.now waits.now) (range_with_len 0 (length standings.now))) }
    ensures causes { IfOk result (λ found. map view_of found.causes.items ≡ causes_in (walks_in (opened_of pairs.now.recording) standings.now waits.now)) }
    ensures left_open { IfOk result (λ found. found.left_open ≡ is_some_left_open pairs.now.recording) }
{
    let opened = left_open_in(alloc, pairs)?;
    let loose = loose(alloc, &opened, standings, waits)?;
    let held = held(alloc, &opened, standings, waits, &loose)?;
    let walks = walks_in(alloc, &opened, standings, waits, &loose)?;
    let causes = causes_in(alloc, &walks)?;
    let left_open = is_some(&opened);
    Ok(Found {
        held,
        causes,
        left_open,
    })
}

fn graph_at(alloc: Global, world: &World, stands: &[u32]) -> Result<Graph, AllocError>
    ensures stuck { IfOk result (λ graph. graph.stuck ≡ stuck_at world.now.pairs.recording stands.now) }
    ensures held { IfOk result (λ graph. graph.held ≡ held_at world.now.reading world.now.pairs.groups world.now.pairs.recording stands.now) }
    ensures left_open { IfOk result (λ graph. graph.left_open ≡ is_some_left_open world.now.pairs.recording) }
    ensures waits { IfOk result (λ graph. graph.waits ≡ waits_at world.now.reading world.now.pairs.groups world.now.pairs.recording stands.now) }
    ensures causes { IfOk result (λ graph. graph.causes ≡ causes_in (walks_at world.now.reading world.now.pairs.groups world.now.pairs.recording stands.now)) }
    ensures findings { IfOk result (λ graph. graph.findings ≡ findings_of world.now.pairs.groups world.now.pairs.recording) }
    ensures at_open { IfOk result (λ graph. graph.at_open ≡ []) }
{
    let pairs = &world.pairs;
    let stuck = stuck_at(alloc, pairs, stands)?;
    let waits = waits_at(alloc, world, stands)?;
    let standings = standings_at(alloc, pairs, stands)?;
    let Found {
        held,
        causes,
        left_open,
    } = who_is_held(alloc, pairs, &standings, &waits)?;
    let findings = findings(alloc, pairs)?;
    Ok(Graph {
        stuck,
        held,
        left_open,
        waits,
        at_open: Vec::new(alloc),
        causes,
        findings,
    })
}

impl Graph {
    /// The wait graph of a run whose calls were all accepted. It asks for each rank what its present call
    /// needs and walks from each rank once, and then looks at each call for what is wrong. It takes memory
    /// for the stuck ranks, their unmet needs, the causes and the findings, and for what its search keeps on
    /// the way: the marks of calls, the walks, the groups and what was found of them.
    pub fn of(alloc: Global, analyser: &Analyser) -> Result<Graph, AllocError>
        requires { IsClosed analyser.now.recording }
        ensures stuck { IfOk result (λ graph. graph.stuck ≡ stuck_of analyser.now.reading analyser.now.groups analyser.now.recording) }
        ensures held { IfOk result (λ graph. ListsHeld analyser.now.reading analyser.now.groups analyser.now.recording graph.held) }
        ensures stays { IfOk result (λ graph. StayPut analyser.now.reading analyser.now.groups analyser.now.recording graph.held) }
        ensures left_open { IfOk result (λ graph. graph.left_open ≡ is_some_left_open analyser.now.recording) }
        ensures unmet { IfOk result (λ graph. (rank : ℕ) → needs_in graph.waits rank ≡ unmet_of analyser.now.reading analyser.now.groups analyser.now.recording rank) }
        ensures causes { IfOk result (λ graph. AreCauses analyser.now.reading analyser.now.groups analyser.now.recording graph.causes) }
        ensures findings { IfOk result (λ graph. graph.findings ≡ findings_of analyser.now.groups analyser.now.recording) }
        ensures at_open { IfOk result (λ graph. graph.at_open ≡ []) }
    {
        analyser.stands_are_the_end();
        let graph = graph_at(alloc, analyser.world(), analyser.stands())?;
        Ok(graph)
    }

    /// The ranks that don't stand at the call that ends their list, rising.
    pub fn stuck(&self) -> &[u16]
        ensures { result.now ≡ self.now.stuck }
    {
        self.stuck.as_slice()
    }

    /// The held ranks, rising: each stays where it stands whatever calls come in the place of an open. Where no list
    /// was left open they are the stuck ranks.
    pub fn held(&self) -> &[u16]
        ensures { result.now ≡ self.now.held }
    {
        self.held.as_slice()
    }

    /// Whether the run can hang: exactly if some rank is held.
    pub fn verdict(&self) -> Verdict
        ensures { result ≡ verdict_by self.now.held self.now.left_open }
    {
        match (self.held.as_slice(), self.left_open) {
            ([], false) => Verdict::Free,
            ([], true) => Verdict::Unfinished,
            _ => Verdict::Hang,
        }
    }

    /// What the rank's present call needs and isn't met, by rank and place; nothing where the rank isn't
    /// stuck.
    pub fn unmet(&self, rank: u16) -> &[Need]
        ensures { result.now ≡ needs_in self.now.waits rank }
    {
        self.waits.get(rank)
    }

    /// What the rank waits for that is held and stands at its open, by the items of its pending call; nothing where it
    /// isn't held, or doesn't stand there.
    pub fn at_open(&self, rank: u16) -> &[Awaited]
        ensures { result.now ≡ awaited_in self.now.at_open rank }
    {
        match self.at_open.get(usize::from(rank)) {
            Some(awaits) => awaits.as_slice(),
            None => &[],
        }
    }

    /// Why ranks are held: the cycles by their lowest rank, the missing calls by the rank that waits, and then the ranks
    /// that wait for a message which nobody may send.
    pub fn causes(&self) -> &[Cause]
        ensures { map view_of result.now ≡ self.now.causes }
    {
        self.causes.as_slice()
    }

    /// What else is wrong with the run, in the order of the report.
    pub fn findings(&self) -> &[Finding]
        ensures { result.now ≡ self.now.findings }
    {
        self.findings.as_slice()
    }
}
