//! What is known of the calls in which ranks were, and of receives whose messages aren't known, for the wait graph.

ghost use Rattle.std.specs.Prelude.{◌≡◌, ◌<◌, ◌++◌, length, map, IfOk, OnOk};
ghost use Rattle.closing.specs.Pending.{pending_of, pending_said};
ghost use Rattle.waitgraph.specs.Pending.{view_of};
ghost use Rattle.waitgraph.specs.PendingNeeds.{items_of};
ghost use Rattle.judging.specs.KnownCalls.{call_as, item_as, known_of, sink_as, wanted_as};
ghost use Rattle.judging.specs.inner.Known.{known_in};
ghost use Rattle.judging.specs.inner.Turns.{IsDone};

use closing::pending::{Item as OwnItem, Pending, Sink as OwnSink, Wanted as OwnWanted};
use closing::recording::Recording;
use std::alloc::{AllocError, Global};
use waitgraph::pending::{Item, PendingCall, Sink, Wanted};

/// By rank the pending call; and all sinks, by rank and place.
#[derive(Drop)]
pub(crate) struct Known {
    pub pending: Vec<PendingCall>,
    pub sinks: Vec<Sink>,
}

impl Known {
    /// The items of a rank's pending call.
    pub(crate) fn items(&self, rank: u16) -> &[Item]
        ensures { result.now ≡ items_of (known_in self.now) rank }
    {
        match self.pending.get(usize::from(rank)) {
            Some(pending) => pending.items(),
            None => &[],
        }
    }
}

fn wanted_of(wanted: OwnWanted) -> Wanted
    ensures { result ≡ wanted_as wanted }
{
    Wanted {
        comm: wanted.comm,
        source: wanted.source,
        tag: wanted.tag,
    }
}

fn item_of(item: OwnItem) -> Item
    ensures { result ≡ item_as item }
{
    match item {
        OwnItem::Message(wanted) => Item::Message(wanted_of(wanted)),
        OwnItem::Request(number) => Item::Request(number),
    }
}

fn sink_of(rank: u16, sink: OwnSink) -> Sink
    ensures { result ≡ sink_as rank sink }
{
    Sink {
        rank,
        place: sink.place,
        wanted: wanted_of(sink.wanted),
    }
}

fn items_of(alloc: Global, items: &[OwnItem]) -> Result<Vec<Item>, AllocError>
    ensures { IfOk result (λ all. all.items ≡ map item_as items.now) }
{
    items.iter().map(|item| item_of(*item)).collect(alloc)
}

/// A pending call; without items it is one of which nothing is known.
fn call_of(alloc: Global, pending: &Pending) -> Result<PendingCall, AllocError>
    ensures { IfOk result (λ call. view_of call ≡ call_as (pending_said pending.now)) }
{
    let items = items_of(alloc, pending.items.as_slice())?;
    if pending.is_for_all {
        Ok(PendingCall::All(items))
    } else {
        Ok(PendingCall::Any(items))
    }
}

/// That of a rank.
fn call_at(alloc: Global, recording: &Recording, rank: u16) -> Result<PendingCall, AllocError>
    ensures { IfOk result (λ call. IsDone recording.now → rank < length recording.now.run →
        view_of call ≡ call_as (pending_of recording.now.run recording.now.choice rank)) }
{
    match recording.pending(rank) {
        Some(pending) => call_of(alloc, pending),
        None => Ok(PendingCall::Unknown),
    }
}

fn add_sinks(all: &mut Vec<Sink>, rank: u16, sinks: &[OwnSink]) -> Result<(), AllocError>
    ensures { OnOk result (all.new.items ≡ all.old.items ++ map (sink_as rank) sinks.now) }
{
    for sink in sinks {
        all.push(sink_of(rank, *sink))?;
    }
    Ok(())
}

/// What is known of a recording whose lists are made.
pub(crate) fn known_of(alloc: Global, recording: &Recording) -> Result<Known, AllocError>
    ensures { IfOk result (λ known. IsDone recording.now → known_in known ≡ known_of recording.now.run recording.now.choice) }
{
    let mut pending = Vec::new(alloc);
    let mut sinks = Vec::new(alloc);
    for rank in 0..recording.ranks() {
        pending.push(call_at(alloc, recording, rank)?)?;
        add_sinks(&mut sinks, rank, recording.sinks(rank))?;
    }
    Ok(Known { pending, sinks })
}
