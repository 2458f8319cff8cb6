//! Calls of all ranks, added one by one, with what each means for the others.
//!
//! A call is admitted in steps: its fault is found, then each growth that it takes is made, and only then
//! it is noted, by functions that get no allocator. So running out of memory leaves everything as it was.

ghost use Rattle.std.specs.Prelude.{◌≡◌, ◌<◌, ◌≤◌, ℕ, [], length, replicate, slice_get, option_map, None, Err, IfOk, IfErr, IfSome, OnOk, OnErr, false, true};
ghost use Rattle.mpigroup.specs.Groups.{ranks_of};
ghost use Rattle.callstore.specs.Limits.{most_calls};
ghost use Rattle.callstore.specs.Recordings.{calls_of, is_ended};
ghost use Rattle.pairing.specs.Partners.{partner_of, EachIsReceived, HasUnreceived};
ghost use Rattle.pairing.specs.Probed.{probed_of, HasProbe, NoneIsProbed};
ghost use Rattle.pairing.specs.inner.Seated.{IsProbing};
ghost use Rattle.pairing.specs.Seen.{call_seen, IsSeen};
ghost use Rattle.callstore.specs.Communicators.{NoneIsMade, HasMade};
ghost use Rattle.callstore.specs.Requests.{started_in, started_of, waits_for, HasActive};
ghost use Rattle.callstore.specs.Waves.{wave_of, member_of};
ghost use Rattle.pairing.specs.Faults.{fault_of, IsLawful};
ghost use Rattle.pairing.specs.Pairs.{with_call, added_at, TellsFault, completed_of};
ghost use Rattle.pairing.specs.Work.{work_of};
ghost use Rattle.callstore.specs.inner.Notes.{recording_of};
ghost use Rattle.pairing.specs.inner.Tables.{IsKept};
ghost use Rattle.pairing.specs.declared.added.PairFault.TheVariants.{Refused};

use crate::added::{Added, PairFault};
use crate::call_at::CallAt;
use crate::kept::Kept;
use crate::probing::Probing;
use crate::tables::Tables;
use callstore::by_kind;
use callstore::call_ref::CallRef;
use callstore::envelope::Half;
use callstore::hot::{ANY, WAITALL, hot_kind};
use callstore::next_call::NextCall;
use callstore::notes::Notes;
use mpicall::call::Peer;
use mpicall::effect::{Effect, Side};
use mpicall::limits::MOST_REQUESTS;
use mpicall::record::Record;
use mpigroup::head::Head;
use std::alloc::{AllocError, Global};
use std::marker::Model;

/// The calls of all ranks that were added so far, each after those of its rank before it. Contracts see
/// the groups of the run's head, and each rank's list of calls. A look-up takes the same time however many
/// calls there are, on average.
pub struct Pairs {
    kept: Kept,
    probing: Probing,
}

// By hand: a derived drop is proved again at each exit of a function that owns one.
impl Drop for Pairs {
    fn drop(self) {
        let Pairs {
            kept: _,
            probing: _,
        } = self;
    }
}

impl Model for Pairs {
    ghost use Rattle.pairing.specs.inner.Seated.{IsProbing};
    ghost use Rattle.callstore.specs.inner.Notes.{recording_of};
    ghost use Rattle.pairing.specs.Pairs.{Paired};
    ghost use Rattle.pairing.specs.inner.Tables.{IsKept};

    ghost Value = { Paired };

    ghost view = { λ p. record { groups = p.kept.head; recording = recording_of p.kept.notes.lists } };

    ghost invariant = { λ p. IsKept p.kept.head p.kept.notes.lists p.kept.tables × IsProbing p.kept.head (recording_of p.kept.notes.lists) p.probing };
}

/// Whether a call that sends, receives or probes says nothing of that, or names a rank.
#[inline(always)]
fn is_to_rank(side: Option<Side>) -> bool {
    !matches!(
        side,
        Some(Side {
            peer: Peer::Null,
            ..
        })
    )
}

/// Whether the call names no communicator other than the world, and no MPI_PROC_NULL.
#[inline(always)]
fn is_common(call: &NextCall<'_>) -> bool {
    match *call.effect() {
        Effect::PointToPoint {
            comm,
            sent,
            received,
            ..
        } => comm == 0 && is_to_rank(sent) && is_to_rank(received),
        Effect::Joins { comm, .. } => comm == 0,
        Effect::Local => true,
    }
}

impl Pairs {
    /// No calls yet, for the ranks of the head.
    pub fn new(alloc: Global, head: Head) -> Result<Pairs, AllocError>
        ensures groups { IfOk result (λ pairs. pairs.groups ≡ head) }
        ensures recording { IfOk result (λ pairs. pairs.recording ≡ replicate (ranks_of head) []) }
    {
        let notes = Notes::new(alloc, head.ranks())?;
        let tables = Tables::new(alloc, &head)?;
        let probing = Probing::new(alloc);
        Ok(Pairs {
            kept: Kept {
                head,
                notes,
                tables,
            },
            probing,
        })
    }

    /// Adds the next call of a rank by the rules of `admit`, which waits for so many requests at most. It is fastest for
    /// a call of the kind. `IS_COMMON` only tells uses apart: the compiler inlines what is used once, whatever its size.
    #[inline(always)]
    fn admit_next<const KIND: u8, const REQUESTS: usize, const IS_COMMON: bool>(
        &mut self,
        at: (u16, u32),
        call: &NextCall<'_>,
    ) -> Result<(), PairFault>
        requires few { length (waits_for call.now) ≤ REQUESTS }
        requires most { REQUESTS ≤ MOST_REQUESTS }
        requires is_rank { at.0 < length self.old.recording }
        requires is_next { at.1 ≡ length (calls_of self.old.recording at.0) }
        ensures ok { OnOk result (self.new ≡ with_call self.old at.0 call.now) }
        ensures refused { IfSome (fault_of self.old.groups at.0 (calls_of self.old.recording at.0) call.now) (λ fault. result ≡ Err (Refused fault)) }
        ensures fault { IfErr result (TellsFault (fault_of self.old.groups at.0 (calls_of self.old.recording at.0) call.now)) }
        ensures err { OnErr result (self.new ≡ self.old) }
    {
        // For the proof: the ranks are few, so the calls are, and each probe's seat has a number of 32 bits.
        let _ranks = self.kept.head.ranks();
        let rank = at.0;
        let mut starts = [0; REQUESTS];
        let active = &self.kept.tables.active;
        let count = active.starts_of(rank, call.waits_for(), &mut starts);
        let are_active = count == call.waits_for().len();
        if let Some(fault) = self.kept.next_fault(rank, call, are_active) {
            return Err(PairFault::Refused(fault));
        }
        if self.probing.reserve(call).is_err() {
            return Err(PairFault::Memory);
        }
        match self.kept.reserve(rank, call) {
            Ok(room) => {
                self.kept.put::<KIND>(at, call, &starts[..count], &room);
                self.probing.put(&self.kept.head, at, call, &room.halves);
                Ok(())
            }
            Err(_) => Err(PairFault::Memory),
        }
    }

    /// Adds any call of a rank by the rules of `admit`: the slow way, for calls that come seldom.
    #[inline(never)]
    fn admit_any(&mut self, rank: u16, place: u32, call: &Record) -> Result<(), PairFault>
        requires is_rank { rank < length self.old.recording }
        requires is_next { place ≡ length (calls_of self.old.recording rank) }
        ensures ok { OnOk result (self.new ≡ with_call self.old rank call.now) }
        ensures refused { IfSome (fault_of self.old.groups rank (calls_of self.old.recording rank) call.now) (λ fault. result ≡ Err (Refused fault)) }
        ensures fault { IfErr result (TellsFault (fault_of self.old.groups rank (calls_of self.old.recording rank) call.now)) }
        ensures err { OnErr result (self.new ≡ self.old) }
    {
        let call = &NextCall::of(call);
        // For the proof: a call waits for no more requests than that.
        let _reqs = call.waits_for();
        self.admit_next::<ANY, MOST_REQUESTS, false>((rank, place), call)
    }

    /// What `admit_kind` does, where a call of the kind is over another communicator, or its peer is MPI_PROC_NULL.
    #[inline(never)]
    fn admit_elsewhere<const KIND: u8>(
        &mut self,
        rank: u16,
        place: u32,
        call: &Record,
    ) -> Result<(), PairFault>
        requires is_rank { rank < length self.old.recording }
        requires is_next { place ≡ length (calls_of self.old.recording rank) }
        ensures ok { OnOk result (self.new ≡ with_call self.old rank call.now) }
        ensures refused { IfSome (fault_of self.old.groups rank (calls_of self.old.recording rank) call.now) (λ fault. result ≡ Err (Refused fault)) }
        ensures fault { IfErr result (TellsFault (fault_of self.old.groups rank (calls_of self.old.recording rank) call.now)) }
        ensures err { OnErr result (self.new ≡ self.old) }
    {
        if hot_kind(call.as_call()) != KIND {
            return self.admit_any(rank, place, call);
        }
        let call = &NextCall::of(call);
        // For the proof: a call waits for no more requests than that.
        let _reqs = call.waits_for();
        self.admit_next::<KIND, MOST_REQUESTS, false>((rank, place), call)
    }

    /// Adds the next call of a rank by the rules of `admit`. There is one such function for each kind of call that
    /// comes often, built for it alone: the compiler knows there what such a call does, that its communicator is the
    /// world and that its peer is a rank. Another call of the kind has a function too, which knows only the kind.
    #[inline(never)]
    fn admit_kind<const KIND: u8>(
        &mut self,
        rank: u16,
        place: u32,
        call: &Record,
    ) -> Result<(), PairFault>
        requires is_rank { rank < length self.old.recording }
        requires is_next { place ≡ length (calls_of self.old.recording rank) }
        ensures ok { OnOk result (self.new ≡ with_call self.old rank call.now) }
        ensures refused { IfSome (fault_of self.old.groups rank (calls_of self.old.recording rank) call.now) (λ fault. result ≡ Err (Refused fault)) }
        ensures fault { IfErr result (TellsFault (fault_of self.old.groups rank (calls_of self.old.recording rank) call.now)) }
        ensures err { OnErr result (self.new ≡ self.old) }
    {
        if hot_kind(call.as_call()) != KIND {
            return self.admit_any(rank, place, call);
        }
        let next = &NextCall::of(call);
        if !is_common(next) {
            return self.admit_elsewhere::<KIND>(rank, place, call);
        }
        let reqs = next.waits_for();
        if KIND == WAITALL || reqs.len() > 1 {
            self.admit_next::<KIND, MOST_REQUESTS, true>((rank, place), next)
        } else {
            self.admit_next::<KIND, 1, true>((rank, place), next)
        }
    }

    /// Adds the next call of a rank, whose place is `place`. It is refused exactly where it has a
    /// fault, with the first one, or for lack of memory; and then all is as it was.
    pub fn admit(&mut self, rank: u16, place: u32, call: &Record) -> Result<(), PairFault>
        requires is_rank { rank < length self.old.recording }
        requires is_next { place ≡ length (calls_of self.old.recording rank) }
        ensures ok { OnOk result (self.new ≡ with_call self.old rank call.now) }
        ensures refused { IfSome (fault_of self.old.groups rank (calls_of self.old.recording rank) call.now) (λ fault. result ≡ Err (Refused fault)) }
        ensures fault { IfErr result (TellsFault (fault_of self.old.groups rank (calls_of self.old.recording rank) call.now)) }
        ensures err { OnErr result (self.new ≡ self.old) }
    {
        by_kind!(
            hot_kind(call.as_call()),
            self.admit_kind(rank, place, call),
            _ => self.admit_any(rank, place, call)
        )
    }

    /// Adds the next call of a rank by the same rules, and answers the partners that it has and the wave
    /// that it joins.
    pub fn add(&mut self, rank: u16, place: u32, call: &Record) -> Result<Added, PairFault>
        requires is_rank { rank < length self.old.recording }
        requires is_next { place ≡ length (calls_of self.old.recording rank) }
        ensures ok { OnOk result (self.new ≡ with_call self.old rank call.now) }
        ensures added { IfOk result (λ added. added ≡ added_at self.new rank place) }
        ensures refused { IfSome (fault_of self.old.groups rank (calls_of self.old.recording rank) call.now) (λ fault. result ≡ Err (Refused fault)) }
        ensures fault { IfErr result (TellsFault (fault_of self.old.groups rank (calls_of self.old.recording rank) call.now)) }
        ensures err { OnErr result (self.new ≡ self.old) }
    {
        match self.admit(rank, place, call) {
            Ok(()) => Ok(self.kept.added_at(rank, place)),
            Err(fault) => Err(fault),
        }
    }

    /// The head of the run.
    #[inline(always)]
    pub fn head(&self) -> &Head
        ensures value { result.now ≡ self.now.groups }
        ensures ranks { length self.now.recording ≡ ranks_of self.now.groups }
    {
        &self.kept.head
    }

    /// No call that was added has a fault after those of its rank before it. A law: it does nothing.
    pub fn calls_are_lawful(&self)
        ensures { IsLawful self.now.groups self.now.recording }
    {
        // For the proof: what the type says of the calls is known once its head is read.
        let _head = &self.kept.head;
    }

    /// How many calls of a rank were added; None where there is no such rank.
    #[inline(always)]
    pub fn accepted(&self, rank: u16) -> Option<u32>
        ensures value { result ≡ option_map length (slice_get self.now.recording rank) }
        ensures most { IfSome result (λ count. count ≤ most_calls) }
    {
        if rank < self.kept.notes.ranks() {
            Some(self.kept.notes.count(rank) as u32)
        } else {
            None
        }
    }

    /// Whether the last call of a rank ends its list, so that no other is added.
    pub fn is_ended(&self, rank: u16) -> bool
        ensures { result ≡ is_ended (calls_of self.now.recording rank) }
    {
        self.kept.is_over(rank)
    }

    /// The call of a rank at a place; None where there is none.
    #[inline(always)]
    pub fn call(&self, rank: u16, place: u32) -> Option<CallRef<'_>>
        ensures { result ≡ slice_get (calls_of self.now.recording rank) place }
    {
        match self.kept.notes.get(rank, place) {
            Some(note) => Some(note.call()),
            None => None,
        }
    }

    /// The call of a rank at a place with what it means for other calls, each looked up where it is asked for; None
    /// where there is none.
    #[inline(always)]
    pub fn at(&self, rank: u16, place: u32) -> Option<CallAt<'_>>
        ensures call { option_map call_seen result ≡ slice_get (calls_of self.now.recording rank) place }
        ensures seen { IfSome result (IsSeen self.now.groups self.now.recording rank place) }
        ensures few { IfSome result (λ call. place < most_calls) }
    {
        self.kept.at(rank, place)
    }

    /// The rank and place of the partner of a half of the call at `place`; None where the call has no such
    /// half, and where its message has no other half yet.
    #[inline(always)]
    pub fn partner(&self, rank: u16, place: u32, half: Half) -> Option<(u16, u32)>
        ensures { result ≡ partner_of self.now.groups self.now.recording rank place half }
    {
        self.kept.partner_of(rank, place, half)
    }

    /// Whether a message that is sent has no receive among the calls.
    pub fn has_unreceived(&self) -> bool
        ensures none { result ≡ false → EachIsReceived self.now.groups self.now.recording }
        ensures some { result ≡ true → HasUnreceived self.now.groups self.now.recording }
    {
        self.kept.tables.matches.has_pending(Half::Send)
    }

    /// Whether there is a probe among the calls, whose source is not MPI_PROC_NULL. Where this answers false,
    /// `probed` answers None everywhere.
    #[inline(always)]
    pub fn has_probes(&self) -> bool
        ensures none { result ≡ false → NoneIsProbed self.now.groups self.now.recording }
        ensures some { result ≡ true → HasProbe self.now.groups self.now.recording }
    {
        self.probing.has_probes()
    }

    /// The rank and place of the send that the probe at `place` sees; None where there is no probe, and
    /// where there is no such send yet.
    pub fn probed(&self, rank: u16, place: u32) -> Option<(u16, u32)>
        ensures { result ≡ probed_of self.now.groups self.now.recording rank place }
    {
        self.kept.probed_of(&self.probing, rank, place)
    }

    /// The communicator and the number of the wave that the call at the place joins; None where it joins
    /// none.
    #[inline(always)]
    pub fn wave_of(&self, rank: u16, place: u32) -> Option<(u16, u32)>
        ensures { result ≡ wave_of self.now.recording rank place }
    {
        self.kept.wave_of(rank, place)
    }

    /// The place of a wave's call of the member with rank `g` in the communicator's group; None where it
    /// has none yet.
    #[inline(always)]
    pub fn member(&self, comm: u16, wave: u32, g: u16) -> Option<u32>
        ensures { result ≡ member_of self.now.groups self.now.recording comm wave g }
    {
        self.kept
            .tables
            .waves
            .member_of(&self.kept.head, comm, wave, g)
    }

    /// The place that started the request which the wait at `place` names; None where there is
    /// no such wait.
    pub fn started(&self, rank: u16, place: u32, req: u32) -> Option<u32>
        ensures { result ≡ started_of self.now.recording rank place req }
    {
        self.kept.started_of(rank, place, req)
    }

    /// The place that started the request with that index, from 0, among those that the wait at `place`
    /// completes.
    #[inline(always)]
    pub fn completed(&self, rank: u16, place: u32, index: usize) -> Option<u32>
        ensures { result ≡ completed_of self.now.recording rank place index }
    {
        self.kept.completed_of(rank, place, index)
    }

    /// The place that started a request of the rank which is active after its calls; None where it isn't.
    pub fn active_start(&self, rank: u16, req: u32) -> Option<u32>
        ensures { result ≡ started_in (calls_of self.now.recording rank) req }
    {
        self.kept.tables.active.start_of(rank, req)
    }

    /// Whether a request of the rank may be active after its calls: where this answers false, none is. It may
    /// answer true for the sake of another rank's.
    pub fn may_have_active(&self, rank: u16) -> bool
        ensures none { result ≡ false → (req : ℕ) → started_in (calls_of self.now.recording rank) req ≡ None }
        ensures some { result ≡ true → HasActive self.now.recording }
    {
        self.kept.tables.active.may_have(rank)
    }

    /// Whether some call makes a communicator.
    pub fn has_made(&self) -> bool
        ensures none { result ≡ false → NoneIsMade self.now.recording }
        ensures some { result ≡ true → HasMade self.now.recording }
    {
        self.kept.tables.made_comms.has_made()
    }

    /// How much was done in the arena of the halves that have no partner yet: 1 for each half of a message, which
    /// is put into a list there or takes its partner off one.
    pub fn work(&self) -> u64
        ensures { result ≡ work_of self.now.groups self.now.recording }
    {
        self.kept.tables.matches.work()
    }
}
