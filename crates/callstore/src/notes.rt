//! The noted calls of all ranks.

ghost use Rattle.std.specs.Prelude.{◌≡◌, ◌-◌, ◌<◌, ◌≤◌, [], length, replicate, slice_get, IfOk, IfSome, OnOk};
ghost use Rattle.callstore.specs.Limits.{most_calls};
ghost use Rattle.callstore.specs.Requests.{waits_for};
ghost use Rattle.callstore.specs.Notes.{notes_of, with_note, partnered, calls_in, AreStarts, HasRoom};
ghost use Rattle.callstore.specs.Packed.{noted};

use crate::cached_match::CachedMatch;
use crate::envelope::Half;
use crate::note::Note;
use crate::rank_notes::RankNotes;
use mpicall::record::Record;
use std::alloc::{AllocError, Global};
use std::marker::Model;

/// The noted calls of all ranks. Contracts see each rank's list, rank 0 first, and for how many more calls
/// it has room.
pub struct Notes {
    lists: Vec<RankNotes>,
}

// By hand: a derived drop is proved again at each exit of a function that owns one.
impl Drop for Notes {
    fn drop(self) {
        let Notes { lists: _ } = self;
    }
}

impl Model for Notes {
    ghost use Rattle.std.specs.Prelude.{◌<◌, ◌^◌, length, map};
    ghost use Rattle.callstore.specs.Notes.{Notebook};

    ghost Value = { Notebook };

    ghost view = { λ n. record {
      lists = map (λ list. list.calls) n.lists.items;
      rooms = map (λ list. list.room) n.lists.items;
    } };

    ghost invariant = { λ n. length n.lists.items < 2 ^ 16 };
}

impl Notes {
    /// No calls yet, of so many ranks.
    pub fn new(alloc: Global, ranks: u16) -> Result<Notes, AllocError>
        ensures { IfOk result (λ notes. notes.lists ≡ replicate ranks []) }
    {
        let mut lists = Vec::new(alloc);
        for _rank in 0..ranks {
            lists.push(RankNotes::new(alloc))?;
        }
        Ok(Notes { lists })
    }

    /// How many ranks there are.
    #[inline(always)]
    pub fn ranks(&self) -> u16
        ensures { result ≡ length self.now.lists }
    {
        self.lists.len() as u16
    }

    /// How many calls of a rank were noted; 0 where there is no such rank.
    #[inline(always)]
    pub fn count(&self, rank: u16) -> usize
        ensures value { result ≡ length (notes_of self.now.lists rank) }
        ensures most { result ≤ most_calls }
    {
        match self.lists.get(usize::from(rank)) {
            Some(list) => list.count(),
            None => 0,
        }
    }

    /// Makes all room that noting the rank's call takes.
    #[inline(always)]
    pub fn reserve(&mut self, rank: u16, call: &Record) -> Result<(), AllocError>
        requires { rank < length self.old.lists }
        ensures lists { self.new.lists ≡ self.old.lists }
        ensures ok { OnOk result (HasRoom self.new rank call.now) }
    {
        let list = &mut self.lists[usize::from(rank)];
        list.reserve(call)
    }

    /// Notes the rank's next call, with what is kept with it and the places that started the requests which
    /// it names: one for each, in its order. This takes no memory. It is fastest for a call of the kind.
    #[inline(always)]
    pub fn note<const KIND: u8>(
        &mut self,
        rank: u16,
        call: &Record,
        cached: CachedMatch,
        starts: &[u32],
    )
        requires is_rank { rank < length self.old.lists }
        requires room { HasRoom self.old rank call.now }
        requires starts { AreStarts (calls_in (notes_of self.old.lists rank)) call.now starts.now }
        requires few { length (notes_of self.old.lists rank) < most_calls }
        ensures { self.new.lists ≡ with_note self.old.lists rank (noted call.now cached starts.now) }
    {
        let list = &mut self.lists[usize::from(rank)];
        list.note::<KIND>(call, cached, starts);
    }

    /// Keeps the place of a half's partner with the rank's call at the place, if there is one.
    #[inline(always)]
    pub fn set_partner(&mut self, rank: u16, place: u32, half: Half, there: u32)
        ensures { self.new.lists ≡ partnered self.old.lists rank place half there }
    {
        if usize::from(rank) < self.lists.len() {
            let list = &mut self.lists[usize::from(rank)];
            list.set_partner(place, half, there);
        }
    }

    /// The last noted call of a rank; None where there is none.
    #[inline(always)]
    pub fn last(&self, rank: u16) -> Option<Note<'_>>
        ensures { result ≡ slice_get (notes_of self.now.lists rank) (length (notes_of self.now.lists rank) - 1) }
    {
        match self.lists.get(usize::from(rank)) {
            Some(list) => list.last(),
            None => None,
        }
    }

    /// The noted call of a rank at a place; None where there is none. It has one start for each request
    /// that it names.
    #[inline(always)]
    pub fn get(&self, rank: u16, place: u32) -> Option<Note<'_>>
        ensures value { result ≡ slice_get (notes_of self.now.lists rank) place }
        ensures starts { IfSome result (λ note. length note.starts ≡ length (waits_for note.call)) }
    {
        match self.lists.get(usize::from(rank)) {
            Some(list) => list.get(place),
            None => None,
        }
    }
}
