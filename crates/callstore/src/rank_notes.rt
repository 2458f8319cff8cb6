//! The noted calls of one rank.

ghost use Rattle.std.specs.Prelude.{◌≡◌, ◌+◌, ◌-◌, ◌<◌, ◌≤◌, [], ◌∷◌, ◌++◌, length, slice_get, vec_len, vec_capacity, IfSome, OnOk};
ghost use Rattle.callstore.specs.Limits.{most_calls};
ghost use Rattle.callstore.specs.Requests.{waits_for};
ghost use Rattle.callstore.specs.Notes.{calls_in, partnered_in, AreStarts, Holds};
ghost use Rattle.callstore.specs.Packed.{noted};

use crate::cached_match::CachedMatch;
use crate::entries::Entries;
use crate::envelope::Half;
use crate::hot::hot_kind;
use crate::mark::FAR;
use crate::note::Note;
use crate::packing::{listed, listed_starts, pack};
use mpicall::record::Record;
use std::alloc::{AllocError, Global};
use std::marker::Model;

/// Puts the numbers after others, for which there is room.
fn push_all(to: &mut Vec<u32>, numbers: &[u32])
    requires { vec_len to.old + length numbers.now ≤ vec_capacity to.old }
    ensures { to.new.items ≡ to.old.items ++ numbers.now }
{
    for number in numbers {
        to.push_reserved(*number);
    }
}

/// The noted calls of a rank, in its order. Contracts see each call with what is kept with it, and for
/// how many more there is room.
pub(crate) struct RankNotes {
    entries: Entries,
    // The places that started the requests of waits for several.
    starts: Vec<u32>,
}

// By hand: a derived drop is proved again at each exit of a function that owns one.
impl Drop for RankNotes {
    fn drop(self) {
        let RankNotes {
            entries: _,
            starts: _,
        } = self;
    }
}

impl Model for RankNotes {
    ghost use Rattle.std.specs.Prelude.{◌-◌, map, vec_len, vec_capacity};
    ghost use Rattle.callstore.specs.inner.Notes.{NotedList};
    ghost use Rattle.callstore.specs.inner.Packed.{AreStored, noted_of};

    ghost Value = { NotedList };

    ghost view = { λ r. record {
      calls = map (noted_of r.entries.items r.starts.items) r.entries.items;
      room = record {
        calls = r.entries.room;
        starts = vec_capacity r.starts - vec_len r.starts;
      };
    } };

    ghost invariant = { λ r. AreStored r.entries.items r.starts.items };
}

impl RankNotes {
    /// No calls yet. This takes no memory.
    pub(crate) fn new(alloc: Global) -> RankNotes
        ensures { result.calls ≡ [] }
    {
        RankNotes {
            entries: Entries::new(alloc),
            starts: Vec::new(alloc),
        }
    }

    /// How many calls were noted.
    #[inline(always)]
    pub(crate) fn count(&self) -> usize
        ensures value { result ≡ length self.now.calls }
        ensures most { result ≤ most_calls }
    {
        self.entries.len()
    }

    /// Makes all room that noting the call takes.
    #[inline(always)]
    pub(crate) fn reserve(&mut self, call: &Record) -> Result<(), AllocError>
        ensures calls { self.new.calls ≡ self.old.calls }
        ensures ok { OnOk result (Holds self.new.room call.now) }
    {
        self.entries.reserve()?;
        self.starts.reserve(listed(call.as_call()).len())?;
        Ok(())
    }

    /// Puts the rank's next call after the others, with what is kept with it and the places that started the requests
    /// which it names.
    #[inline(always)]
    fn push(&mut self, call: &Record, cached: CachedMatch, starts: &[u32])
        requires room { Holds self.old.room call.now }
        requires starts { AreStarts (calls_in self.old.calls) call.now starts.now }
        requires few { length self.old.calls < most_calls }
        ensures { self.new.calls ≡ self.old.calls ++ noted call.now cached starts.now ∷ [] }
    {
        let call = call.as_call();
        let packed = pack(call, self.starts.len() as u32, starts);
        push_all(&mut self.starts, listed_starts(call, starts));
        self.entries.push_reserved(packed, cached);
    }

    /// Notes any call: the slow way, for calls that come seldom.
    #[inline(never)]
    fn note_any(&mut self, call: &Record, cached: CachedMatch, starts: &[u32])
        requires room { Holds self.old.room call.now }
        requires starts { AreStarts (calls_in self.old.calls) call.now starts.now }
        requires few { length self.old.calls < most_calls }
        ensures { self.new.calls ≡ self.old.calls ++ noted call.now cached starts.now ∷ [] }
    {
        self.push(call, cached, starts);
    }

    /// Notes the rank's next call, with what is kept with it and the places that started the requests which
    /// it names. What is built for the kind of call packs such calls alone; another goes the slow way.
    #[inline(always)]
    pub(crate) fn note<const KIND: u8>(
        &mut self,
        call: &Record,
        cached: CachedMatch,
        starts: &[u32],
    )
        requires room { Holds self.old.room call.now }
        requires starts { AreStarts (calls_in self.old.calls) call.now starts.now }
        requires few { length self.old.calls < most_calls }
        ensures { self.new.calls ≡ self.old.calls ++ noted call.now cached starts.now ∷ [] }
    {
        if hot_kind(call.as_call()) == KIND {
            self.push(call, cached, starts);
        } else {
            self.note_any(call, cached, starts);
        }
    }

    /// Keeps the place of a half's partner with the call at the place, if there is one, whatever is kept with it.
    #[inline(never)]
    fn set_any_partner(&mut self, place: u32, half: Half, there: u32)
        ensures { self.new.calls ≡ partnered_in self.old.calls place half there }
    {
        if let Some(entry) = self.entries.get(place as usize) {
            let cached = entry.cached().with_partner(half, there);
            self.entries.set_cached(place as usize, cached);
        }
    }

    /// Keeps the place of a half's partner with the call at the place, if there is one. Most often nothing else is kept
    /// with it.
    #[inline(always)]
    pub(crate) fn set_partner(&mut self, place: u32, half: Half, there: u32)
        ensures { self.new.calls ≡ partnered_in self.old.calls place half there }
    {
        match self.entries.get(place as usize) {
            Some(entry) if there < FAR && entry.slot.mark.is_empty() => {
                self.entries.set_alone(place as usize, half, there);
            }
            _ => self.set_any_partner(place, half, there),
        }
    }

    /// The last noted call; None where there is none.
    #[inline(always)]
    pub(crate) fn last(&self) -> Option<Note<'_>>
        ensures { result ≡ slice_get self.now.calls (length self.now.calls - 1) }
    {
        let count = self.entries.len();
        if count == 0 {
            return None;
        }
        match self.entries.get(count - 1) {
            Some(entry) => Some(Note::of(entry, &self.entries, self.starts.as_slice())),
            None => None,
        }
    }

    /// The noted call at a place; None where there is none.
    #[inline(always)]
    pub(crate) fn get(&self, place: u32) -> Option<Note<'_>>
        ensures value { result ≡ slice_get self.now.calls place }
        ensures starts { IfSome result (λ note. length note.starts ≡ length (waits_for note.call)) }
    {
        match self.entries.get(place as usize) {
            Some(entry) => Some(Note::of(entry, &self.entries, self.starts.as_slice())),
            None => None,
        }
    }
}
