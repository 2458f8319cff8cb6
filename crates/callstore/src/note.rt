//! A noted call, with what is kept with it.

ghost use Rattle.std.specs.Prelude.{◌≡◌, ◌==◌, length, slice_get, find};
ghost use Rattle.callstore.specs.CachedMatch.{partner_in, wave_in};
ghost use Rattle.callstore.specs.Requests.{completes};
ghost use Rattle.callstore.specs.Notes.{completed_starts, start_of};
ghost use Rattle.callstore.specs.inner.Entries.{entry_at};
ghost use Rattle.callstore.specs.inner.Packed.{IsStored, req_at, noted_of};

use crate::call_ref::CallRef;
use crate::entries::{Entries, EntryRef};
use crate::envelope::Half;
use crate::packed::Packed;
use crate::packing::{req_at, unpack_starts};
use std::marker::Model;
use std::slice::from_ref;

/// The first of the places whose call starts the request.
fn first_start(req: u32, entries: &Entries, places: &[u32]) -> Option<u32>
    ensures { result ≡ find (λ place. req_at entries.now.items place == req) places.now }
{
    let mut starts = places.iter().copied();
    starts.find(|place| req_at(entries, *place) == req)
}

/// A noted call. Contracts see the call with what is kept with it.
#[derive(Drop)]
pub struct Note<'a> {
    entry: EntryRef<'a>,
    entries: &'a Entries,
    starts: &'a [u32],
}

impl<'a> Model for Note<'a> {
    ghost use Rattle.callstore.specs.Notes.{Noted};
    ghost use Rattle.callstore.specs.inner.Entries.{entry_at};
    ghost use Rattle.callstore.specs.inner.Packed.{IsStored, noted_of};

    ghost Value = { Noted };

    ghost view = { λ n. noted_of n.entries.now.items n.starts.now (entry_at n.entry) };

    ghost invariant = { λ n. IsStored n.entries.now.items n.starts.now (entry_at n.entry) };
}

impl<'a> Note<'a> {
    /// The note of an entry, with the lists of its rank.
    #[inline(always)]
    pub(crate) fn of(entry: EntryRef<'a>, entries: &'a Entries, starts: &'a [u32]) -> Note<'a>
        requires { IsStored entries.now.items starts.now (entry_at entry) }
        ensures { result ≡ noted_of entries.now.items starts.now (entry_at entry.entry) }
    {
        Note {
            entry,
            entries,
            starts,
        }
    }

    /// The call in its place.
    #[inline(always)]
    pub fn call(&self) -> CallRef<'a>
        ensures { result ≡ self.now.call }
    {
        CallRef::of(self.entry, self.entries, self.starts)
    }

    /// The place of a half's partner that is kept with the call.
    #[inline(always)]
    pub fn partner(&self, half: Half) -> Option<u32>
        ensures { result ≡ partner_in half self.now.cached }
    {
        self.entry.partner(half)
    }

    /// How many collectives of its communicator its rank made before, where the call is one.
    #[inline(always)]
    pub fn joined(&self) -> u32
        ensures { result ≡ wave_in self.now.cached }
    {
        self.entry.wave()
    }

    /// The places that started the requests which the call names, in its order; none where it is no wait.
    #[inline(always)]
    fn starts(&self) -> &[u32]
        ensures { result.now ≡ self.now.starts }
    {
        unpack_starts(&self.entry.slot.call, self.starts)
    }

    /// The places that started the requests which the call completes.
    #[inline(always)]
    fn completed_starts(&self) -> &[u32]
        ensures value { result.now ≡ completed_starts self.now }
        ensures count { length result.now ≡ length (completes self.now.call) }
    {
        let starts = self.starts();
        match self.entry.slot.call {
            Packed::Waitany { chosen, .. } => match starts.get(usize::from(chosen)) {
                Some(start) => from_ref(start),
                None => &[],
            },
            _ => starts,
        }
    }

    /// How many requests the call completes.
    #[inline(always)]
    pub(crate) fn completed_count(&self) -> usize
        ensures { result ≡ length (completes self.now.call) }
    {
        self.completed_starts().len()
    }

    /// The place that started the request with that index among those that the call completes.
    #[inline(always)]
    pub fn completed_start(&self, index: usize) -> Option<u32>
        ensures { result ≡ slice_get (completed_starts self.now) index }
    {
        self.completed_starts().get(index).copied()
    }

    /// The place that started a request which the call names: that with the first such number. None
    /// where the call names no such request.
    pub fn start_of(&self, req: u32) -> Option<u32>
        ensures { result ≡ start_of self.now req }
    {
        first_start(req, self.entries, self.starts())
    }
}
