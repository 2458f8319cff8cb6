//! Pending sends and receives by their envelopes, so that a call's partner is found without a look at other
//! calls.
//!
//! Each envelope has two lists in one arena, of which one is always empty. A half that comes takes the
//! first of the other side off its list if there is one, and else goes to the end of its own.

ghost use Rattle.std.specs.Prelude.{◌≡◌, ◌+◌, ◌*◌, ◌<◌, ◌≤◌, ◌^◌, [], Some, length, slice_get, min, option_map, true, false, IfOk, IfSome, OnOk};
ghost use Rattle.arenaqueue.specs.Numbers.{counted};
ghost use Rattle.callstore.specs.Envelopes.{other_half};
ghost use Rattle.callstore.specs.declared.envelope.Envelope.{Envelope};
ghost use Rattle.pairing.specs.inner.Matched.{list_no, number_in, pending_at, pending_by, met, HasNumber, HasPending, HasRoomFor, IsGrown};

use crate::envelope_index::EnvelopeIndex;
use arenaqueue::queues::Queues;
use callstore::envelope::{Envelope, Half};
use callstore::next_call::NextCall;
use mpigroup::head::Head;
use std::alloc::{AllocError, Global};
use std::marker::Model;

/// For so many places room is made at once.
const PLACES_AT_ONCE: usize = 64;

/// The envelope of a half of a call, with its number.
#[derive(Clone, Copy)]
pub(crate) struct NumberedEnvelope {
    pub envelope: Envelope,
    pub number: usize,
}

/// The halves of a call that have messages.
#[derive(Clone, Copy)]
pub(crate) struct Halves {
    pub send: Option<NumberedEnvelope>,
    pub recv: Option<NumberedEnvelope>,
}

/// The number of the list of an envelope's half.
#[inline(always)]
fn list_no(half: Half, number: usize) -> usize
    requires { 2 * number + 1 < 2 ^ 64 }
    ensures { result ≡ list_no half number }
{
    match half {
        Half::Send => 2 * number,
        Half::Recv => 2 * number + 1,
    }
}

/// The places of sends and receives that have no partner yet, by their envelopes. An envelope has its number
/// from the first call that makes room for it.
pub(crate) struct Matches {
    envelope_index: EnvelopeIndex,
    // Of the envelope with number n list 2n has the pending sends, and list 2n + 1 the pending receives.
    pending: Queues<u32>,
}

// By hand: a derived drop is proved again at each exit of a function that owns one.
impl Drop for Matches {
    fn drop(self) {
        let Matches {
            envelope_index: _,
            pending: _,
        } = self;
    }
}

impl Model for Matches {
    ghost use Rattle.std.specs.Prelude.{length};
    ghost use Rattle.pairing.specs.inner.Matched.{Matching, HaveLists};

    ghost Value = { Matching };

    ghost view = { λ m. record {
      keys = m.envelope_index;
      lists = m.pending.lists;
      spare = m.pending.spare;
      work = m.pending.work;
    } };

    ghost invariant = { λ m. HaveLists m.pending.lists (length m.envelope_index) };
}

impl Matches {
    /// No envelopes yet.
    pub(crate) fn new(alloc: Global) -> Result<Matches, AllocError>
        ensures keys { IfOk result (λ matches. matches.keys ≡ []) }
        ensures work { IfOk result (λ matches. matches.work ≡ 0) }
    {
        Ok(Matches {
            envelope_index: EnvelopeIndex::new(alloc)?,
            pending: Queues::new(alloc),
        })
    }

    /// Makes a list, where a further envelope lacks one.
    fn add_list(&mut self) -> Result<(), AllocError>
        ensures grown { IsGrown self.old self.new }
        ensures keys { self.new.keys ≡ self.old.keys }
        ensures enough { 2 * length self.old.keys ≤ length self.old.lists }
        ensures more { OnOk result (min (length self.old.lists + 1) (2 * length self.old.keys + 2) ≤ length self.new.lists) }
    {
        if self.pending.list_count() / 2 > self.envelope_index.len() {
            return Ok(());
        }
        self.pending.new_list()?;
        Ok(())
    }

    /// Makes the lists of a further envelope, where they are lacking.
    #[inline(always)]
    fn add_lists(&mut self) -> Result<(), AllocError>
        ensures grown { IsGrown self.old self.new }
        ensures keys { self.new.keys ≡ self.old.keys }
        ensures enough { OnOk result (2 * length self.old.keys + 2 ≤ length self.new.lists) }
    {
        if self.pending.list_count() / 2 > self.envelope_index.len() {
            return Ok(());
        }
        self.add_list()?;
        self.add_list()
    }

    /// The number of an envelope, which has one from then on. There are lists for one more.
    fn insert(&mut self, envelope: Envelope) -> Result<usize, AllocError>
        requires { 2 * length self.old.keys + 2 ≤ length self.old.lists }
        ensures grown { IsGrown self.old self.new }
        ensures number { IfOk result (λ number. number_in self.new.keys envelope ≡ Some number) }
    {
        let number = self.envelope_index.insert(envelope)?;
        Ok(number)
    }

    /// The number of an envelope, which has one from then on, by a look-up.
    #[inline(never)]
    fn number_afresh(&mut self, envelope: Envelope) -> Result<usize, AllocError>
        ensures grown { IsGrown self.old self.new }
        ensures number { IfOk result (λ number. number_in self.new.keys envelope ≡ Some number) }
    {
        self.add_lists()?;
        self.insert(envelope)
    }

    /// The number of an envelope, which has one from then on.
    #[inline(always)]
    fn number(&mut self, envelope: Envelope) -> Result<usize, AllocError>
        ensures grown { IsGrown self.old self.new }
        ensures number { IfOk result (λ number. number_in self.new.keys envelope ≡ Some number) }
    {
        match self.envelope_index.known(&envelope) {
            Some(number) => Ok(number),
            None => self.number_afresh(envelope),
        }
    }

    /// The envelope of a half with its number, which it has from then on; None where the half has no message.
    #[inline(always)]
    fn number_half(
        &mut self,
        envelope: Option<Envelope>,
    ) -> Result<Option<NumberedEnvelope>, AllocError>
        ensures grown { IsGrown self.old self.new }
        ensures number { IfOk result (λ half. IfSome half (HasNumber self.new)) }
        ensures envelope { IfOk result (λ half. option_map (λ it. it.envelope) half ≡ envelope) }
    {
        match envelope {
            Some(envelope) => {
                let number = self.number(envelope)?;
                Ok(Some(NumberedEnvelope { envelope, number }))
            }
            None => Ok(None),
        }
    }

    /// Makes room for two places; where it is lacking, for many, so that it seldom is.
    #[inline(always)]
    fn reserve_places(&mut self) -> Result<(), AllocError>
        ensures grown { IsGrown self.old self.new }
        ensures keys { self.new.keys ≡ self.old.keys }
        ensures lists { self.new.lists ≡ self.old.lists }
        ensures room { OnOk result (2 ≤ self.new.spare) }
    {
        if self.pending.spare() >= 2 {
            return Ok(());
        }
        self.pending.reserve(PLACES_AT_ONCE)?;
        Ok(())
    }

    /// Makes room for the halves of a rank's call, and answers them. Nothing else changes.
    #[inline(always)]
    pub(crate) fn reserve(
        &mut self,
        head: &Head,
        rank: u16,
        call: &NextCall<'_>,
    ) -> Result<Halves, AllocError>
        ensures grown { IsGrown self.old self.new }
        ensures room { IfOk result (λ halves. HasRoomFor head.now rank call.now halves self.new) }
    {
        let send = self.number_half(call.envelope(head, rank, Half::Send))?;
        let recv = self.number_half(call.envelope(head, rank, Half::Recv))?;
        self.reserve_places()?;
        Ok(Halves { send, recv })
    }

    /// Takes the first of the envelope's pending other halves off its list, and answers its place; where there
    /// is none, the half's own place is put into its list.
    #[inline(always)]
    pub(crate) fn meet(&mut self, half: Half, number: usize, place: u32) -> Option<u32>
        requires number { number < length self.old.keys }
        requires room { 0 < self.old.spare }
        ensures value { result ≡ slice_get (pending_at self.old.lists (other_half half) number) 0 }
        ensures lists_there { 2 * number + 2 ≤ length self.old.lists }
        ensures lists { self.new.lists ≡ met self.old.lists half number place }
        ensures keys { self.new.keys ≡ self.old.keys }
        ensures spare { self.old.spare ≤ self.new.spare + 1 }
        ensures work { self.new.work ≡ counted self.old.work 1 }
    {
        // For the proof: there are more lists than that, so the numbers are small.
        let _lists = self.pending.list_count();
        let own = list_no(half, number);
        let other = list_no(half.other(), number);
        match self.pending.pop_front(other) {
            Some(there) => Some(there),
            None => {
                self.pending.push_reserved(own, place);
                None
            }
        }
    }

    /// The first of the pending halves of the envelope with the number.
    fn front(&self, half: Half, number: usize) -> Option<u32>
        requires { number < length self.now.keys }
        ensures { result ≡ slice_get (pending_at self.now.lists half number) 0 }
    {
        // For the proof: there are more lists than that, so the number is small.
        let _lists = self.pending.list_count();
        self.pending.front(list_no(half, number))
    }

    /// The first of the envelope's pending halves; None where none is pending.
    pub(crate) fn first_pending(&self, half: Half, envelope: &Envelope) -> Option<u32>
        ensures { result ≡ slice_get (pending_by self.now half envelope.now) 0 }
    {
        match self.envelope_index.get(envelope) {
            Some(number) => self.front(half, number),
            None => None,
        }
    }

    /// Whether such a half is pending of some envelope. It looks at each envelope once.
    pub(crate) fn has_pending(&self, half: Half) -> bool
        ensures none { result ≡ false → (e : Envelope) → pending_by self.now half e ≡ [] }
        ensures some { result ≡ true → HasPending self.now half }
    {
        for number in 0..self.envelope_index.len() {
            if self.front(half, number).is_some() {
                return true;
            }
        }
        false
    }

    /// How much was done in the lists.
    pub(crate) fn work(&self) -> u64
        ensures { result ≡ self.now.work }
    {
        self.pending.work()
    }
}
