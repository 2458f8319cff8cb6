//! What is under way where the journals of a run are cut.
//!
//! The calls of each rank are gone through once. That a wave is full is found once for all its members: a wave is full
//! if a later one of its communicator is.

ghost use Rattle.std.specs.Prelude.{◌≡◌, ◌<◌, ◌-◌, ◌||◌, not, length, option_map, slice_get, IfOk, OnOk, Some};
ghost use Rattle.mpigroup.specs.Groups.{Groups};
ghost use Rattle.callstore.specs.Recordings.{Lists as CallLists, calls_of};
ghost use Rattle.callstore.specs.Waves.{is_full};
ghost use Rattle.pairing.specs.Met.{has_all, has_its_partner, has_its_wave, sees_its_send};
ghost use Rattle.closing.specs.Entries.{lines_at};
ghost use Rattle.closing.specs.inner.RequestReports.{Tells};
ghost use Rattle.judging.specs.UnderWay.{first_at, may_be, may_take, moved_of, take, takes_moved, unclean_at};
ghost use Rattle.judging.specs.inner.Cuts.{AreFullBelow, IsGathered, IsGatheredIfCut, count_in, entry_said, is_at};
ghost use Rattle.judging.specs.inner.Tables.{rows_of};

use crate::turns::{Lists, ranks_of};
use callstore::call_ref::CallRef;
use callstore::envelope::{Half, Message};
use closing::outcomes::Outcomes;
use closing::pending::Sink;
use closing::recording::Recording;
use journals::field::Field;
use moves::analyser::Analyser;
use mpicall::call::{Call, Peer};
use std::alloc::{AllocError, Global};

/// A receive that goes on in the journal after this one: its communicator, and the source and the tag that it asks for.
#[derive(Clone, Copy)]
pub(crate) struct MovedReceive {
    comm: u16,
    source: Field,
    tag: Field,
}

/// An entry of a rank, by its line in the journal.
#[derive(Clone, Copy, Debug, PartialEq, Eq)]
pub struct EntryAt {
    pub rank: u16,
    pub line: u32,
}

// ---- What is moved ----

/// Whether a source or a tag is this one, or a wildcard.
fn may_be(field: Field, number: u32) -> bool
    ensures { result ≡ may_be field number }
{
    match field {
        Field::Any => true,
        Field::Signed(other) => {
            let other = other.get();
            0 <= other && other as u32 == number
        }
        _ => false,
    }
}

fn may_take(it: &MovedReceive, message: Message) -> bool
    ensures { result ≡ may_take it.now message }
{
    it.comm == message.comm
        && may_be(it.source, u32::from(message.peer))
        && may_be(it.tag, message.tag)
}

/// Whether one of some moved receives may take a message.
fn take(moved: &[MovedReceive], message: Option<Message>) -> bool
    ensures { result ≡ take moved.now message }
{
    match message {
        Some(message) => moved.iter().any(|it| may_take(it, message)),
        None => false,
    }
}

fn takes_moved(moved: &[MovedReceive], call: &CallRef<'_>) -> bool
    ensures { result ≡ takes_moved moved.now call.now }
{
    take(moved, call.message(Half::Recv)) || take(moved, call.probed())
}

/// The moved receive whose start is the call of a line with this number.
fn moved_of(
    recording: &Recording,
    outcomes: &Outcomes,
    rank: u16,
    number: u32,
    call: &Call,
) -> Option<MovedReceive>
    ensures { Tells (lines_at recording.now.run rank) outcomes.now →
        result ≡ moved_of (lines_at recording.now.run rank) number call.now }
{
    match *call {
        Call::Irecv {
            comm,
            source: Peer::Null,
            ..
        } => {
            let (source, tag) = recording.moved(outcomes, rank, number)?;
            Some(MovedReceive { comm, source, tag })
        }
        _ => None,
    }
}

// ---- Waves ----

/// How many waves of each communicator are known to be full.
#[derive(Drop)]
struct FullWaves {
    counts: Vec<u32>,
}

/// Whether each member of a communicator has its call of a wave.
fn is_full(analyser: &Analyser, comm: u16, wave: u32) -> bool
    ensures { result ≡ is_full analyser.now.groups analyser.now.recording comm wave }
{
    let Some(size) = analyser.head().size(comm) else {
        return true;
    };
    for member in 0..size {
        if analyser.pairs().member(comm, wave, member).is_none() {
            return false;
        }
    }
    true
}

impl FullWaves {
    fn new(alloc: Global, comms: u16) -> Result<FullWaves, AllocError>
        ensures { IfOk result (λ waves. (groups : Groups) (recording : CallLists) → AreFullBelow groups recording waves) }
    {
        Ok(FullWaves {
            counts: vec![in alloc; 0u32; usize::from(comms)]?,
        })
    }

    fn count(&self, comm: u16) -> u32
        ensures { result ≡ count_in self.now comm }
    {
        match self.counts.get(usize::from(comm)) {
            Some(count) => *count,
            None => 0,
        }
    }

    /// Whether a wave is full.
    fn has(&mut self, analyser: &Analyser, comm: u16, wave: u32) -> bool
        requires { AreFullBelow analyser.now.groups analyser.now.recording self.old }
        ensures full { result ≡ is_full analyser.now.groups analyser.now.recording comm wave }
        ensures kept { AreFullBelow analyser.now.groups analyser.now.recording self.new }
    {
        if wave < self.count(comm) {
            return true;
        }
        if !is_full(analyser, comm, wave) {
            return false;
        }
        if let Some(count) = self.counts.get_mut(usize::from(comm)) {
            *count = wave.saturating_add(1);
        }
        true
    }
}

// ---- Calls ----

/// Whether the half of a call's message has its partner, if the call has such a message.
fn has_its_partner(
    analyser: &Analyser,
    rank: u16,
    place: u32,
    call: &CallRef<'_>,
    half: Half,
) -> bool
    requires { slice_get (calls_of analyser.now.recording rank) place ≡ Some call.now }
    ensures { result ≡ has_its_partner analyser.now.groups analyser.now.recording rank place half }
{
    call.message(half).is_none() || analyser.pairs().partner(rank, place, half).is_some()
}

/// Whether a call sees a send, if it is a probe for a message.
fn sees_its_send(analyser: &Analyser, rank: u16, place: u32, call: &CallRef<'_>) -> bool
    requires { slice_get (calls_of analyser.now.recording rank) place ≡ Some call.now }
    ensures { result ≡ sees_its_send analyser.now.groups analyser.now.recording rank place }
{
    call.probed().is_none() || analyser.pairs().probed(rank, place).is_some()
}

/// Whether the wave is full that a call joins, if it joins one.
fn has_its_wave(waves: &mut FullWaves, analyser: &Analyser, rank: u16, place: u32) -> bool
    requires { AreFullBelow analyser.now.groups analyser.now.recording waves.old }
    ensures full { result ≡ has_its_wave analyser.now.groups analyser.now.recording rank place }
    ensures kept { AreFullBelow analyser.now.groups analyser.now.recording waves.new }
{
    match analyser.pairs().wave_of(rank, place) {
        Some((comm, wave)) => waves.has(analyser, comm, wave),
        None => true,
    }
}

/// Whether all whom a call meets are in the recording.
fn has_all(
    waves: &mut FullWaves,
    analyser: &Analyser,
    rank: u16,
    place: u32,
    call: &CallRef<'_>,
) -> bool
    requires call { slice_get (calls_of analyser.now.recording rank) place ≡ Some call.now }
    requires waves { AreFullBelow analyser.now.groups analyser.now.recording waves.old }
    ensures all { result ≡ has_all analyser.now.groups analyser.now.recording rank place }
    ensures kept { AreFullBelow analyser.now.groups analyser.now.recording waves.new }
{
    let has_wave = has_its_wave(waves, analyser, rank, place);
    has_its_partner(analyser, rank, place, call, Half::Send)
        && has_its_partner(analyser, rank, place, call, Half::Recv)
        && sees_its_send(analyser, rank, place, call)
        && has_wave
}

// ---- Ranks ----

/// The place of the first receive of which it isn't known what it took.
fn first_sink(sinks: &[Sink]) -> Option<u32>
    ensures { result ≡ option_map (λ sink. sink.place) (slice_get sinks.now 0) }
{
    match sinks {
        [sink, ..] => Some(sink.place),
        [] => None,
    }
}

/// Whether the first such receive is at a place.
fn is_at(sink: Option<u32>, place: u32) -> bool
    ensures { result ≡ is_at sink place }
{
    match sink {
        Some(other) => other == place,
        None => false,
    }
}

/// Whether one of these holds: the call is a receive of which it isn't known what it took; it lacks one that it meets; it
/// takes what a moved receive may take.
fn is_under_way(is_sink: bool, has_all: bool, takes_moved: bool) -> bool
    ensures { result ≡ (is_sink || (not has_all || takes_moved)) }
{
    is_sink || !has_all || takes_moved
}

/// How many calls a rank has before the last one, which ends its list.
fn before_end(analyser: &Analyser, rank: u16) -> u32
    ensures { result ≡ length (calls_of analyser.now.recording rank) - 1 }
{
    match analyser.accepted(rank) {
        Some(count) => count.saturating_sub(1),
        None => 0,
    }
}

/// The line of the first entry of a rank with which something is under way.
fn first_at(
    alloc: Global,
    lists: &Lists,
    analyser: &Analyser,
    waves: &mut FullWaves,
    rank: u16,
) -> Result<Option<u32>, AllocError>
    requires { AreFullBelow analyser.now.groups analyser.now.recording waves.old }
    ensures kept { OnOk result (AreFullBelow analyser.now.groups analyser.now.recording waves.new) }
    ensures first { IfOk result (λ line. IsGathered lists.now.recording (rows_of lists.now.table) analyser.now →
        rank < length lists.now.recording.run → line ≡ first_at lists.now.recording.run lists.now.recording.choice rank) }
{
    let sink = first_sink(lists.recording.sinks(rank));
    let outcomes = lists.recording.outcomes(alloc, rank)?;
    let mut moved = Vec::new(alloc);
    for place in 0..before_end(analyser, rank) {
        let Some(call) = analyser.pairs().call(rank, place) else {
            return Ok(None);
        };
        let line = lists.table.line(rank, place);
        let has_all = has_all(waves, analyser, rank, place, &call);
        if is_under_way(
            is_at(sink, place),
            has_all,
            takes_moved(moved.as_slice(), &call),
        ) {
            return Ok(Some(line));
        }
        let record = call.record();
        if let Some(it) = moved_of(&lists.recording, &outcomes, rank, line, record.as_call()) {
            moved.push(it)?;
        }
    }
    Ok(None)
}

/// The entry at which the cut of a run isn't clean, where the journals of all ranks are cut.
pub(crate) fn unclean_at(
    alloc: Global,
    lists: &Lists,
    analyser: &Analyser,
) -> Result<Option<EntryAt>, AllocError>
    ensures { IfOk result (λ entry. IsGatheredIfCut lists.now.recording (rows_of lists.now.table) analyser.now →
        option_map entry_said entry ≡ unclean_at lists.now.recording.run lists.now.recording.choice) }
{
    if !lists.recording.is_window() {
        return Ok(None);
    }
    let mut waves = FullWaves::new(alloc, analyser.head().comms())?;
    for rank in 0..ranks_of(analyser) {
        if let Some(line) = first_at(alloc, lists, analyser, &mut waves, rank)? {
            return Ok(Some(EntryAt { rank, line }));
        }
    }
    Ok(None)
}
