//! Seats of probes.
//!
//! A probe (MPI 4.0, section 3.8) sees the send that the next receive of its envelope after it takes. So what
//! is kept of a probe is where that receive is, once it was called; before that the probe sees the first
//! send that has no receive. Probes of one envelope between two of its receives see the same, and share a
//! seat, which the next receive fills. No send is ever noted here.

ghost use Rattle.std.specs.Prelude.{◌≡◌, ◌<◌, ◌^◌, ℕ, [], length, replicate, Option, None, Some, OnOk, IfSome, slice_get, slice_set, option_map, option_and_then};
ghost use Rattle.mpigroup.specs.Groups.{Groups, group_rank_of};
ghost use Rattle.callstore.specs.declared.envelope.Half.TheVariants.{Recv as RecvHalf};
ghost use Rattle.callstore.specs.Envelopes.{envelope_by};
ghost use Rattle.callstore.specs.Recordings.{Lists};
ghost use Rattle.pairing.specs.Probed.{probed_envelope};
ghost use Rattle.pairing.specs.inner.Probed.{HasProbesIf};
ghost use Rattle.pairing.specs.inner.Probing.{seat_for, Seating, AreSeated, HasRoomToSit, Sits, Follows};

use crate::matches::NumberedEnvelope;
use callstore::envelope::{Envelope, Half, Message, envelope_by};
use callstore::next_call::NextCall;
use indexmap::IndexMap;
use mpigroup::head::Head;
use std::alloc::{AllocError, Global};

/// The envelope of a message that the rank receives, by what its call says of it. None where the rank is not
/// in the communicator's group.
#[inline(always)]
pub(crate) fn received_by(head: &Head, rank: u16, message: Message) -> Option<Envelope>
    ensures { result ≡ option_map (envelope_by RecvHalf message) (group_rank_of head.now message.comm rank) }
{
    let own = head.group_rank(message.comm, rank)?;
    Some(envelope_by(Half::Recv, message, own))
}

/// The envelope of the message that the rank's call probes for.
#[inline(always)]
pub(crate) fn probed_envelope(head: &Head, rank: u16, call: &NextCall<'_>) -> Option<Envelope>
    ensures { result ≡ probed_envelope head.now rank call.now }
{
    let message = call.probed()?;
    received_by(head, rank, message)
}

/// The seats of probes: there are no more of them than calls.
#[derive(Drop)]
pub(crate) struct Probes {
    // For each seat the place of the next receive after its probes, once it was called.
    seats: Vec<Option<u32>>,
    // The seat of each envelope that was probed since its last receive.
    unfilled: IndexMap<Envelope, u32>,
}

impl Probes {
    /// No probes.
    pub(crate) fn new(alloc: Global) -> Probes
        ensures { (groups : Groups) (ranks : ℕ) → AreSeated groups (replicate ranks []) (λ r p. None) result }
    {
        Probes {
            seats: Vec::new(alloc),
            unfilled: IndexMap::new(alloc),
        }
    }

    /// Whether some probe has a seat.
    #[inline(always)]
    pub(crate) fn has_probes(&self) -> bool
        ensures { (groups : Groups) (recording : Lists) (seating : Seating) → AreSeated groups recording seating self.now → HasProbesIf result groups recording }
    {
        !self.seats.is_empty()
    }

    /// Makes room for a further probe. The seats stay as they are.
    pub(crate) fn reserve(&mut self) -> Result<(), AllocError>
        ensures kept { (groups : Groups) (recording : Lists) (seating : Seating) → AreSeated groups recording seating self.old → AreSeated groups recording seating self.new }
        ensures ok { OnOk result (HasRoomToSit self.new) }
    {
        self.seats.reserve(1)?;
        self.unfilled.reserve(1)
    }

    /// A further probe of the envelope sits down, on the seat that is answered. It takes no memory.
    pub(crate) fn sit(&mut self, envelope: Envelope) -> u32
        requires room { HasRoomToSit self.old }
        requires few { length self.old.seats.items < 2 ^ 32 }
        ensures seat { result ≡ seat_for self.old envelope }
        ensures sits { Sits self.old self.new envelope }
    {
        if let Some(seat) = self.unfilled.get(&envelope).copied() {
            return seat;
        }
        let seat = self.seats.len() as u32;
        self.seats.push_reserved(None);
        self.unfilled.insert(envelope, seat).unwrap();
        seat
    }

    /// Notes at the seat where the next receive is.
    fn fill(&mut self, seat: u32, place: u32)
        ensures seats { self.new.seats.items ≡ slice_set self.old.seats.items seat (Some place) }
        ensures unfilled { self.new.unfilled ≡ self.old.unfilled }
    {
        if (seat as usize) < self.seats.len() {
            self.seats[seat as usize] = Some(place);
        }
    }

    /// The envelope's next receive is at the place: it fills the seat of the probes since the last one.
    #[inline(never)]
    fn follow(&mut self, envelope: Envelope, place: u32)
        ensures { Follows self.old self.new envelope place }
    {
        if let Some(seat) = self.unfilled.swap_remove(&envelope) {
            self.fill(seat, place);
        }
    }

    /// Notes the call at the place, which is the next receive of the half's envelope: it fills the seat of the probes
    /// since the last one. Nothing changes where the call receives nothing.
    #[inline(always)]
    pub(crate) fn receive(&mut self, half: &Option<NumberedEnvelope>, place: u32)
        ensures none { half.now ≡ None → self.new ≡ self.old }
        ensures some { IfSome half.now (λ own. Follows self.old self.new own.envelope place) }
    {
        if self.unfilled.is_empty() {
            return;
        }
        if let Some(own) = half {
            self.follow(own.envelope, place);
        }
    }

    /// The place of the next receive after the probes of a seat; None where it was not called yet.
    pub(crate) fn followed(&self, seat: u32) -> Option<u32>
        ensures { result ≡ option_and_then (λ (o : Option ℕ). o) (slice_get self.now.seats.items seat) }
    {
        match self.seats.get(seat as usize) {
            Some(place) => *place,
            None => None,
        }
    }
}
