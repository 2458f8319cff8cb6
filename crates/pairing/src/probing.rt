//! The probes of a recording, each with its seat: a table next to those of `tables`, of which the notes, the
//! packed calls and the lists of pending halves know nothing. All room is made before a call is put in.

ghost use Rattle.std.specs.Prelude.{◌≡◌, ◌<◌, ◌^◌, ℕ, true, false, [], Some, Option, length, replicate, option_map, option_and_then, slice_get, OnOk};
ghost use Rattle.mpigroup.specs.Groups.{Groups};
ghost use Rattle.callstore.specs.declared.envelope.Half.TheVariants.{Recv as RecvHalf};
ghost use Rattle.callstore.specs.Envelopes.{envelope_of};
ghost use Rattle.callstore.specs.Recordings.{Lists, calls_of, appended};
ghost use Rattle.pairing.specs.Probed.{HasProbe, NoneIsProbed};
ghost use Rattle.pairing.specs.inner.Probing.{seat_for, seated, Sits};
ghost use Rattle.pairing.specs.inner.Seated.{seat_in, IsProbing, HasRoomForProbe, HasRoomToProbe};

use crate::matches::Halves;
use crate::probes::{Probes, probed_envelope};
use callstore::envelope::Envelope;
use callstore::next_call::NextCall;
use indexmap::IndexMap;
use mpigroup::head::Head;
use std::alloc::{AllocError, Global};

/// A place of a rank's list.
#[derive(Clone, Copy, Debug, PartialEq, Eq, Hash)]
pub(crate) struct Spot {
    rank: u16,
    place: u32,
}

/// The probes with their seats.
#[derive(Drop)]
pub(crate) struct Probing {
    probes: Probes,
    seats: IndexMap<Spot, u32>,
}

impl Probing {
    /// No probes: the table of each recording without calls.
    pub(crate) fn new(alloc: Global) -> Probing
        ensures { (groups : Groups) (ranks : ℕ) → IsProbing groups (replicate ranks []) result }
    {
        Probing {
            probes: Probes::new(alloc),
            seats: IndexMap::new(alloc),
        }
    }

    /// The seat of the rank's probe at the place.
    pub(crate) fn seat(&self, rank: u16, place: u32) -> Option<u32>
        ensures { result ≡ seat_in self.now rank place }
    {
        self.seats.get(&Spot { rank, place }).copied()
    }

    /// Whether there are probes.
    #[inline(always)]
    pub(crate) fn has_probes(&self) -> bool
        ensures none { (groups : Groups) (recording : Lists) → IsProbing groups recording self.now → result ≡ false → NoneIsProbed groups recording }
        ensures some { (groups : Groups) (recording : Lists) → IsProbing groups recording self.now → result ≡ true → HasProbe groups recording }
    {
        self.probes.has_probes()
    }

    /// The place of the receive after the probes of a seat.
    pub(crate) fn followed(&self, seat: u32) -> Option<u32>
        ensures { result ≡ option_and_then (λ (o : Option ℕ). o) (slice_get self.now.probes.seats.items seat) }
    {
        self.probes.followed(seat)
    }

    /// Makes room for a further probe. The table says the same after it.
    fn reserve_seat(&mut self) -> Result<(), AllocError>
        ensures kept { (groups : Groups) (recording : Lists) → IsProbing groups recording self.old → IsProbing groups recording self.new }
        ensures ok { OnOk result (HasRoomForProbe self.new) }
    {
        self.seats.reserve(1)?;
        self.probes.reserve()
    }

    /// Makes room for the call, if it is a probe. The table says the same after it.
    #[inline(always)]
    pub(crate) fn reserve(&mut self, call: &NextCall<'_>) -> Result<(), AllocError>
        ensures kept { (groups : Groups) (recording : Lists) → IsProbing groups recording self.old → IsProbing groups recording self.new }
        ensures ok { OnOk result (HasRoomToProbe self.new call.now) }
    {
        if call.probed().is_some() {
            self.reserve_seat()
        } else {
            Ok(())
        }
    }

    /// Puts in the probe at a place.
    fn probe(&mut self, rank: u16, place: u32, envelope: Envelope)
        requires room { HasRoomForProbe self.old }
        requires few { length self.old.probes.seats.items < 2 ^ 32 }
        ensures probes { Sits self.old.probes self.new.probes envelope }
        ensures seats { (r p : ℕ) → seat_in self.new r p ≡ seated (seat_in self.old) rank place (Some (seat_for self.old.probes envelope)) r p }
    {
        let seat = self.probes.sit(envelope);
        self.seats.insert(Spot { rank, place }, seat).unwrap();
    }

    /// Puts in the rank's next call, at its place, with the halves that it has. It takes no memory.
    #[inline(always)]
    pub(crate) fn put(&mut self, head: &Head, at: (u16, u32), call: &NextCall<'_>, halves: &Halves)
        requires room { HasRoomToProbe self.old call.now }
        requires few { length self.old.probes.seats.items < 2 ^ 32 }
        requires received { option_map (λ half. half.envelope) halves.now.recv ≡ envelope_of head.now at.0 RecvHalf call.now }
        ensures { (recording : Lists) → IsProbing head.now recording self.old → at.0 < length recording →
            at.1 ≡ length (calls_of recording at.0) → IsProbing head.now (appended recording at.0 call.now) self.new }
    {
        match probed_envelope(head, at.0, call) {
            Some(envelope) => self.probe(at.0, at.1, envelope),
            None => self.probes.receive(&halves.recv, at.1),
        }
    }
}
