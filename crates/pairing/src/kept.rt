//! The calls of a run with what is looked up of them: all but its probes.

ghost use Rattle.std.specs.Prelude.{◌≡◌, ◌<◌, length, map, None, Some, option_map, slice_get, IfOk, IfSome, OnOk};
ghost use Rattle.callstore.specs.Limits.{most_calls};
ghost use Rattle.callstore.specs.Recordings.{Lists, calls_of, appended, is_ended};
ghost use Rattle.callstore.specs.Requests.{started_in, started_of, waits_for};
ghost use Rattle.callstore.specs.Waves.{wave_of};
ghost use Rattle.callstore.specs.Notes.{notes_of, HasRoom};
ghost use Rattle.callstore.specs.inner.Notes.{recording_of};
ghost use Rattle.pairing.specs.Faults.{fault_of, waits_for_active};
ghost use Rattle.pairing.specs.inner.Kept.{AreNoted};
ghost use Rattle.pairing.specs.Pairs.{joined_at, added_at, completed_of};
ghost use Rattle.pairing.specs.Partners.{partner_of};
ghost use Rattle.pairing.specs.Probed.{probed_of};
ghost use Rattle.pairing.specs.inner.Probed.{seen_from};
ghost use Rattle.pairing.specs.inner.Seated.{IsProbing};
ghost use Rattle.pairing.specs.Seen.{call_seen, IsSeen};
ghost use Rattle.pairing.specs.inner.Tables.{AreTables, HaveRoom, GoOnBy, IsCached, IsKept};

use crate::added::{Added, Joined};
use crate::call_at::CallAt;
use crate::fault::CallFault;
use crate::first_fault::{Before, first_fault};
use crate::meeting::meet_halves;
use crate::probes::received_by;
use crate::probing::Probing;
use crate::tables::{Room, Tables};
use callstore::cached_match::CachedMatch;
use callstore::envelope::{Envelope, Half, rank_of_half};
use callstore::next_call::NextCall;
use callstore::notes::Notes;
use mpigroup::head::Head;
use std::alloc::AllocError;

/// The head of a run, its calls, and the tables of what is looked up of them.
pub(crate) struct Kept {
    pub head: Head,
    pub notes: Notes,
    pub tables: Tables,
}

// By hand: a derived drop is proved again at each exit of a function that owns one.
impl Drop for Kept {
    fn drop(self) {
        let Kept {
            head: _,
            notes: _,
            tables: _,
        } = self;
    }
}

/// Notes the rank's next call, with what is kept with it and the places that started the requests which it names.
#[inline(always)]
fn note_call<const KIND: u8>(
    notes: &mut Notes,
    rank: u16,
    call: &NextCall<'_>,
    cached: CachedMatch,
    starts: &[u32],
)
    requires is_rank { rank < length notes.old.lists }
    requires room { HasRoom notes.old rank call.now }
    requires few { length (notes_of notes.old.lists rank) < most_calls }
    requires cached { IsCached (calls_of (recording_of notes.old.lists) rank) call.now cached }
    requires starts { map Some starts.now ≡ map (started_in (calls_of (recording_of notes.old.lists) rank)) (waits_for call.now) }
    ensures { GoOnBy notes.old.lists notes.new.lists rank call.now }
{
    notes.note::<KIND>(rank, call.record(), cached, starts);
}

impl Kept {
    /// Whether the last call of a rank ends its list.
    #[inline(always)]
    pub(crate) fn is_over(&self, rank: u16) -> bool
        ensures { result ≡ is_ended (calls_of (recording_of self.now.notes.lists) rank) }
    {
        match self.notes.last(rank) {
            Some(note) => note.call().ends_list(),
            None => false,
        }
    }

    /// The first fault of the rank's next call, of which it is known whether the requests are active that it waits for.
    #[inline(always)]
    pub(crate) fn next_fault(
        &self,
        rank: u16,
        call: &NextCall<'_>,
        are_active: bool,
    ) -> Option<CallFault>
        requires is_rank { rank < length self.now.notes.lists }
        requires kept { IsKept self.now.head self.now.notes.lists self.now.tables }
        requires active { are_active ≡ waits_for_active (calls_of (recording_of self.now.notes.lists) rank) call.now }
        ensures { result ≡ fault_of self.now.head rank (calls_of (recording_of self.now.notes.lists) rank) call.now }
    {
        let before = Before {
            count: self.notes.count(rank),
            is_over: self.is_over(rank),
            are_active,
        };
        first_fault(&self.head, &self.tables, rank, call, before)
    }

    /// Makes all the room that the rank's next call takes. The notes stay, and what the
    /// tables say of them.
    #[inline(always)]
    pub(crate) fn reserve(&mut self, rank: u16, call: &NextCall<'_>) -> Result<Room, AllocError>
        requires { rank < length self.old.notes.lists }
        ensures head { self.new.head ≡ self.old.head }
        ensures notes { self.new.notes.lists ≡ self.old.notes.lists }
        ensures tables { (recording : Lists) → AreTables self.old.head recording self.old.tables → AreTables self.old.head recording self.new.tables }
        ensures noted { OnOk result (HasRoom self.new.notes rank call.now) }
        ensures room { IfOk result (λ room. HaveRoom self.old.head rank call.now room self.new.tables) }
    {
        self.notes.reserve(rank, call.record())?;
        self.tables.reserve(&self.head, rank, call)
    }

    /// Puts in a rank's next call, which has no fault, at its place, with the places that started the requests which it
    /// names. It takes no memory, and is fastest for a call of the kind.
    #[inline(always)]
    pub(crate) fn put<const KIND: u8>(
        &mut self,
        at: (u16, u32),
        call: &NextCall<'_>,
        starts: &[u32],
        room: &Room,
    )
        requires is_rank { at.0 < length self.old.notes.lists }
        requires noted { HasRoom self.old.notes at.0 call.now }
        requires room { HaveRoom self.old.head at.0 call.now room.now self.old.tables }
        requires is_next { at.1 ≡ length (calls_of (recording_of self.old.notes.lists) at.0) }
        requires lawful { fault_of self.old.head at.0 (calls_of (recording_of self.old.notes.lists) at.0) call.now ≡ None }
        requires starts { map Some starts.now ≡ map (started_in (calls_of (recording_of self.old.notes.lists) at.0)) (waits_for call.now) }
        requires kept { IsKept self.old.head self.old.notes.lists self.old.tables }
        ensures head { self.new.head ≡ self.old.head }
        ensures recording { recording_of self.new.notes.lists ≡ appended (recording_of self.old.notes.lists) at.0 call.now }
        ensures kept { IsKept self.old.head self.new.notes.lists self.new.tables }
    {
        let cached = self.tables.cached(room.list);
        note_call::<KIND>(&mut self.notes, at.0, call, cached, starts);
        meet_halves(
            &self.head,
            &mut self.notes,
            &mut self.tables.matches,
            at,
            &room.halves,
        );
        self.tables.put(at.0, at.1, call, room.list);
    }

    /// The call of a rank at a place, if one is there.
    #[inline(always)]
    pub(crate) fn at(&self, rank: u16, place: u32) -> Option<CallAt<'_>>
        requires { IsKept self.now.head self.now.notes.lists self.now.tables }
        ensures call { option_map call_seen result ≡ slice_get (calls_of (recording_of self.now.notes.lists) rank) place }
        ensures seen { IfSome result (IsSeen self.now.head (recording_of self.now.notes.lists) rank place) }
    {
        match self.notes.get(rank, place) {
            Some(note) => Some(CallAt {
                head: &self.head,
                note,
            }),
            None => None,
        }
    }

    /// The partner of a half of a call.
    #[inline(always)]
    #[tactic(auto, using(crate::proofs::SeenLemmas::seen_partner))]
    pub(crate) fn partner_of(&self, rank: u16, place: u32, half: Half) -> Option<(u16, u32)>
        requires { IsKept self.now.head self.now.notes.lists self.now.tables }
        ensures { result ≡ partner_of self.now.head (recording_of self.now.notes.lists) rank place half }
    {
        self.at(rank, place)?.partner(half)
    }

    /// The send of the envelope that a probe sees which has a seat.
    fn seen_from(&self, rank: u16, followed: Option<u32>, envelope: &Envelope) -> Option<(u16, u32)>
        requires { IsKept self.now.head self.now.notes.lists self.now.tables }
        ensures { result ≡ seen_from self.now.head (recording_of self.now.notes.lists) rank followed envelope.now }
    {
        match followed {
            Some(receive) => self.partner_of(rank, receive, Half::Recv),
            None => {
                let other = rank_of_half(&self.head, Half::Send, envelope)?;
                let there = self.tables.matches.first_pending(Half::Send, envelope)?;
                Some((other, there))
            }
        }
    }

    /// The send that the probe at the place sees.
    pub(crate) fn probed_of(&self, probing: &Probing, rank: u16, place: u32) -> Option<(u16, u32)>
        requires kept { IsKept self.now.head self.now.notes.lists self.now.tables }
        requires probing { IsProbing self.now.head (recording_of self.now.notes.lists) probing.now }
        ensures { result ≡ probed_of self.now.head (recording_of self.now.notes.lists) rank place }
    {
        let note = self.notes.get(rank, place)?;
        let envelope = received_by(&self.head, rank, note.call().probed()?)?;
        let seat = probing.seat(rank, place)?;
        self.seen_from(rank, probing.followed(seat), &envelope)
    }

    /// The wave that a call joins.
    #[inline(always)]
    #[tactic(auto, using(crate::proofs::SeenLemmas::seen_wave))]
    pub(crate) fn wave_of(&self, rank: u16, place: u32) -> Option<(u16, u32)>
        requires { IsKept self.now.head self.now.notes.lists self.now.tables }
        ensures { result ≡ wave_of (recording_of self.now.notes.lists) rank place }
    {
        self.at(rank, place)?.wave()
    }

    /// The wave that a call joins, and whether it is full.
    fn joined_at(&self, rank: u16, place: u32) -> Option<Joined>
        requires { IsKept self.now.head self.now.notes.lists self.now.tables }
        ensures { result ≡ joined_at (record { groups = self.now.head; recording = recording_of self.now.notes.lists }) rank place }
    {
        let (comm, wave) = self.wave_of(rank, place)?;
        Some(Joined {
            comm,
            wave,
            is_full: self.tables.waves.is_full(&self.head, comm, wave),
        })
    }

    /// What the adding of the call at a place made known: its partners and its wave.
    pub(crate) fn added_at(&self, rank: u16, place: u32) -> Added
        requires { IsKept self.now.head self.now.notes.lists self.now.tables }
        ensures { result ≡ added_at (record { groups = self.now.head; recording = recording_of self.now.notes.lists }) rank place }
    {
        Added {
            send: self.partner_of(rank, place, Half::Send),
            recv: self.partner_of(rank, place, Half::Recv),
            wave: self.joined_at(rank, place),
        }
    }

    /// The place that started the request which a wait names.
    #[tactic(auto, using(crate::proofs::KeptLemmas::started_noted, crate::proofs::KeptLemmas::no_start_past))]
    pub(crate) fn started_of(&self, rank: u16, place: u32, req: u32) -> Option<u32>
        requires { AreNoted self.now.notes.lists }
        ensures { result ≡ started_of (recording_of self.now.notes.lists) rank place req }
    {
        let note = self.notes.get(rank, place)?;
        note.start_of(req)
    }

    /// The place that started the request with that index among those that a wait completes.
    #[inline(always)]
    #[tactic(auto, using(crate::proofs::SeenLemmas::seen_start))]
    pub(crate) fn completed_of(&self, rank: u16, place: u32, index: usize) -> Option<u32>
        requires { IsKept self.now.head self.now.notes.lists self.now.tables }
        ensures { result ≡ completed_of (recording_of self.now.notes.lists) rank place index }
    {
        self.at(rank, place)?.completed(index)
    }
}
