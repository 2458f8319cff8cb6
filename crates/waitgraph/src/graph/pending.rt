//! The wait graph where pending calls and sinks are known.

ghost use Rattle.std.specs.Prelude.{◌≡◌, ◌<◌, ◌||◌, not, ◌&&◌, length, map, IfOk};
ghost use Rattle.std.specs.List.{filter, list_any, range_with_len};
ghost use Rattle.findings.specs.Findings.{findings_of};
ghost use Rattle.moves.specs.Stands.{stands_of};
ghost use Rattle.waitgraph.specs.Causes.{view_of as cause_view};
ghost use Rattle.waitgraph.specs.Held.{is_some_left_open};
ghost use Rattle.waitgraph.specs.Pending.{view_of};
ghost use Rattle.waitgraph.specs.PendingGraphs.{is_sink_at, is_left_out, findings_by, IsGraphWith, WithoutPendingItIsTheGraph};
ghost use Rattle.waitgraph.specs.PendingCauses.{AreCausesBy, WalksEndInTheCausesBy};
ghost use Rattle.waitgraph.specs.PendingStays.{FitsSinks, StayPutBy};
ghost use Rattle.waitgraph.specs.PendingVerdicts.{GraphsHaveTheVerdict};
ghost use Rattle.waitgraph.specs.inner.Causes.{causes_in};
ghost use Rattle.waitgraph.specs.inner.Loose.{set_of};
ghost use Rattle.waitgraph.specs.inner.Stuck.{stuck_at};
ghost use Rattle.waitgraph.specs.inner.Scenes.{IsScene, known_in, walks_by, HasOpened, HasSparesIfAsked};

use crate::at_open::{at_opens, walks};
use crate::cause::Cause;
use crate::free::{free, unmarked};
use crate::graph::{Graph, stuck_at, waits_at};
use crate::loose::is_marked;
use crate::may_move::{Scene, ranks_are_few, sink_for};
use crate::pending::{PendingCall, Sink};
use crate::sink_table::SinkTable;
use crate::spares::spares_if_asked;
use crate::standing::{is_some, left_open_in};
use crate::walk::causes_in;
use findings::finding::{Finding, findings};
use moves::analyser::Analyser;
use moves::world::World;
use pairing::pairs::Pairs;
use std::alloc::{AllocError, Global};

/// Whether the place is that of one of the sinks.
fn is_sink_among(sinks: &[Sink], rank: u16, place: u32) -> bool
    ensures { result ≡ is_sink_at sinks.now rank place }
{
    sinks
        .iter()
        .any(|sink| sink.rank == rank && sink.place == place)
}

/// Whether the place is that of one of the sinks in the table.
fn is_sink_at(sinks: &SinkTable<'_>, rank: u16, place: u32) -> bool
    ensures { result ≡ is_sink_at sinks.now rank place }
{
    is_sink_among(sinks.of(rank), rank, place)
}

/// Whether it isn't known that something is wrong: the request is that of a sink, or a sink may take the message.
fn is_left_out(pairs: &Pairs, sinks: &SinkTable<'_>, finding: &Finding) -> bool
    ensures { result ≡ is_left_out pairs.now.groups pairs.now.recording sinks.now finding.now }
{
    match *finding {
        Finding::Request { rank, place, .. } => is_sink_at(sinks, rank, place),
        Finding::Unreceived { rank, place } => sink_for(pairs, sinks, (rank, place)).is_some(),
        Finding::Kind { .. } | Finding::Root { .. } | Finding::Group { .. } => false,
    }
}

/// The findings without those.
fn findings_by(
    alloc: Global,
    pairs: &Pairs,
    sinks: &SinkTable<'_>,
) -> Result<Vec<Finding>, AllocError>
    ensures { IfOk result (λ findings. findings.items ≡ findings_by pairs.now.groups pairs.now.recording sinks.now) }
{
    let mut findings = findings(alloc, pairs)?;
    findings.retain(|finding| !is_left_out(pairs, sinks, finding));
    Ok(findings)
}

/// Why the ranks without a mark are held.
fn causes_by(alloc: Global, scene: &Scene<'_>, marks: &[bool]) -> Result<Vec<Cause>, AllocError>
    requires spares { HasSparesIfAsked scene.now }
    requires opened { HasOpened scene.now }
    ensures { IfOk result (λ causes. map cause_view causes.items ≡ causes_in (walks_by scene.now marks.now)) }
{
    ranks_are_few(scene);
    let walks = walks(alloc, scene, marks)?;
    causes_in(alloc, &walks)
}

/// Whether some list was left open.
fn is_some_left_open(alloc: Global, pairs: &Pairs) -> Result<bool, AllocError>
    ensures { IfOk result (λ some. some ≡ is_some_left_open pairs.now.recording) }
{
    let opened = left_open_in(alloc, pairs)?;
    Ok(is_some(&opened))
}

/// Whether one of the ranks has a mark.
fn is_some_marked(marks: &[bool], ranks: &[u16]) -> bool
    ensures { result ≡ list_any (set_of marks.now) ranks.now }
{
    ranks.iter().any(|rank| is_marked(marks, *rank))
}

/// Whether some list was left open, or some of the stuck ranks has a mark.
fn is_unfinished(
    alloc: Global,
    pairs: &Pairs,
    stuck: &[u16],
    marks: &[bool],
) -> Result<bool, AllocError>
    ensures { IfOk result (λ unfinished. unfinished ≡ (is_some_left_open pairs.now.recording || list_any (set_of marks.now) stuck.now)) }
{
    let some_open = is_some_left_open(alloc, pairs)?;
    Ok(some_open || is_some_marked(marks, stuck))
}

/// The graph by what the search sees.
fn graph_by(alloc: Global, scene: &Scene<'_>) -> Result<Graph, AllocError>
    requires { IsScene scene.now }
    ensures { IfOk result (IsGraphWith scene.now.world.now.reading scene.now.world.now.pairs.groups scene.now.world.now.pairs.recording (known_in scene.now)) }
{
    let pairs = &scene.world.pairs;
    let marks = free(alloc, scene)?;
    let stuck = stuck_at(alloc, pairs, scene.stands)?;
    let held = unmarked(alloc, scene, &marks)?;
    let left_open = is_unfinished(alloc, pairs, &stuck, &marks)?;
    let waits = waits_at(alloc, scene.world, scene.stands)?;
    let at_open = at_opens(alloc, scene, &marks)?;
    let causes = causes_by(alloc, scene, &marks)?;
    let findings = findings_by(alloc, pairs, scene.sinks)?;
    Ok(Graph {
        stuck,
        held,
        left_open,
        waits,
        at_open,
        causes,
        findings,
    })
}

/// The wait graph of the calls and stands, where these pending calls and sinks are known.
fn graph_with(
    alloc: Global,
    world: &World,
    stands: &[u32],
    pending: &[PendingCall],
    sinks: &SinkTable<'_>,
) -> Result<Graph, AllocError>
    requires { stands.now ≡ stands_of world.now.reading world.now.pairs.groups world.now.pairs.recording }
    ensures { IfOk result (IsGraphWith world.now.reading world.now.pairs.groups world.now.pairs.recording (record { pending = map view_of pending.now; sinks = sinks.now })) }
{
    let opened = left_open_in(alloc, &world.pairs)?;
    let spares = spares_if_asked(alloc, &world.pairs, pending)?;
    let scene = Scene {
        world,
        stands,
        opened: opened.as_slice(),
        pending,
        sinks,
        spares: spares.as_slice(),
    };
    graph_by(alloc, &scene)
}

impl Graph {
    /// The wait graph of a run of which more is known: by rank the calls in which ranks were when their lists were left
    /// open, and which receives a message may have met. Where the sinks fit the calls, each held rank stays where it
    /// stands, whether sinks are met or not and however pending calls come back. In addition to what `of` takes
    /// it takes memory for the sends that no receive has, and for what held ranks wait for.
    pub fn of_pending(
        alloc: Global,
        analyser: &Analyser,
        pending: &[PendingCall],
        sinks: &[Sink],
    ) -> Result<Graph, AllocError>
        ensures graph { IfOk result (IsGraphWith analyser.now.reading analyser.now.groups analyser.now.recording (record { pending = map view_of pending.now; sinks = sinks.now })) }
        ensures stays { IfOk result (λ graph. FitsSinks analyser.now.recording sinks.now → StayPutBy analyser.now.reading analyser.now.groups analyser.now.recording (record { pending = map view_of pending.now; sinks = sinks.now }) graph.held) }
    {
        analyser.stands_are_the_end();
        let world = analyser.world();
        let table = SinkTable::new(alloc, world.pairs.head().ranks(), sinks)?;
        let graph = graph_with(alloc, world, analyser.stands(), pending, &table)?;
        Ok(graph)
    }
}

/// Over every closed recording, the graph is the one without pending calls and sinks where none is known.
pub fn without_pending_it_is_the_graph()
    ensures { WithoutPendingItIsTheGraph }
{}

/// Over every recording, the walk from each held rank comes to a cause that is listed, and each cause that is listed is
/// one to which the walk from some held rank comes, whatever pending calls and sinks are known. None is listed twice.
pub fn walks_end_in_the_causes_by()
    ensures { WalksEndInTheCausesBy }
{}

/// Over every closed recording, the verdict of the graph is `Hang` exactly if some rank is held, and `Free` exactly if
/// each stands at its Finalize, whatever pending calls and sinks are known.
pub fn graphs_have_the_verdict()
    ensures { GraphsHaveTheVerdict }
{}
