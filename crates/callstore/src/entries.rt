//! The stored calls of a rank, each with what is kept with it: 24 bytes a call, and 8 more for each call of the rank up to
//! the last that has both partners, if any has.

ghost use Rattle.std.specs.Prelude.{◌≡◌, ◌∷◌, ◌++◌, ◌≤◌, ◌<◌, [], Some, List, length, option_map, slice_get, slice_set, vec_len, vec_capacity, OnOk};
ghost use Rattle.callstore.specs.CachedMatch.{partner_in, wave_in, with_partner};
ghost use Rattle.callstore.specs.declared.cached_match.CachedMatch.TheVariants.{Nothing};
ghost use Rattle.callstore.specs.inner.Entries.{Entry, entries_of, entry_at};
ghost use Rattle.callstore.specs.inner.Marks.{far};
ghost use Rattle.callstore.specs.declared.entries.Slot.{Slot};

use crate::cached_match::CachedMatch;
use crate::envelope::Half;
use crate::growth::make_room;
use crate::mark::{Mark, Pair, pair_of};
use crate::packed::Packed;
use std::alloc::{AllocError, Global};
use std::marker::Model;
use std::mem::size_of;

/// So many calls fill a block.
const SLOTS_A_BLOCK: usize = 5462;

/// So many pairs fill a block of 320 KB. The C library gives that pages of its own, so room that isn't written takes no
/// memory, also once it grows; a smaller block may be cut from what it has at hand, and is copied then.
const PAIRS_A_BLOCK: usize = 40_960;

/// A call, and the mark of what is kept with it.
#[derive(Clone, Copy)]
pub(crate) struct Slot {
    pub call: Packed,
    pub mark: Mark,
}

const _: () = prove!(size_of::<Slot>() <= 24);

/// A call with what is kept with it, in their place.
#[derive(Clone, Copy)]
pub(crate) struct EntryRef<'a> {
    pub slot: &'a Slot,
    pub pairs: &'a [Pair],
    pub index: usize,
}

impl<'a> EntryRef<'a> {
    /// What is kept with the call.
    pub(crate) fn cached(&self) -> CachedMatch
        ensures { result ≡ (entry_at self.now).cached }
    {
        self.slot.mark.kept(self.pairs, self.index)
    }

    /// The place of a half's partner that is kept with the call.
    #[inline(always)]
    pub(crate) fn partner(&self, half: Half) -> Option<u32>
        ensures { result ≡ partner_in half (entry_at self.now).cached }
    {
        self.slot.mark.partner(half, self.pairs, self.index)
    }

    /// The number of the wave that is kept with the call; 0 where none is.
    #[inline(always)]
    pub(crate) fn wave(&self) -> u32
        ensures { result ≡ wave_in (entry_at self.now).cached }
    {
        self.slot.mark.wave(self.pairs, self.index)
    }
}

/// The stored calls of a rank. Contracts see each with what is kept with it, and for how many more there is room.
pub(crate) struct Entries {
    slots: Vec<Slot>,
    // The pairs of the first calls. Of any other call nothing is in its pair.
    pairs: Vec<Pair>,
}

// By hand: a derived drop is proved again at each exit of a function that owns one.
impl Drop for Entries {
    fn drop(self) {
        let Entries { slots: _, pairs: _ } = self;
    }
}

impl Model for Entries {
    ghost use Rattle.std.specs.Prelude.{◌-◌, ◌≤◌, length, min, vec_len, vec_capacity};
    ghost use Rattle.callstore.specs.inner.Entries.{EntryList, entries_of};

    ghost Value = { EntryList };

    ghost view = { λ e. record {
      items = entries_of e.slots.items e.pairs.items;
      room = min (vec_capacity e.slots - vec_len e.slots) (vec_capacity e.pairs - vec_len e.slots);
    } };

    ghost invariant = { λ e. (length e.pairs.items ≤ length e.slots.items) × (length e.slots.items ≤ vec_capacity e.pairs) };
}

/// Puts pairs without numbers after the others, until there are so many.
#[inline(never)]
fn fill(pairs: &mut Vec<Pair>, count: usize)
    requires fewer { vec_len pairs.old ≤ count }
    requires room { count ≤ vec_capacity pairs.old }
    ensures same { (slots : List Slot) → entries_of slots pairs.new.items ≡ entries_of slots pairs.old.items }
    ensures count { vec_len pairs.new ≡ count }
    ensures room { vec_capacity pairs.new ≡ vec_capacity pairs.old }
{
    for _pair in pairs.len()..count {
        pairs.push_reserved(Pair {
            first: 0,
            second: 0,
        });
    }
}

impl Entries {
    /// No calls yet. This takes no memory.
    pub(crate) fn new(alloc: Global) -> Entries
        ensures { result.items ≡ [] }
    {
        Entries {
            slots: Vec::new(alloc),
            pairs: Vec::new(alloc),
        }
    }

    /// How many calls there are.
    #[inline(always)]
    pub(crate) fn len(&self) -> usize
        ensures { result ≡ length self.now.items }
    {
        self.slots.len()
    }

    /// Makes all room that one more call takes, with what may be kept with it.
    #[inline(always)]
    pub(crate) fn reserve(&mut self) -> Result<(), AllocError>
        ensures items { self.new.items ≡ self.old.items }
        ensures ok { OnOk result (1 ≤ self.new.room) }
    {
        make_room(&mut self.slots, SLOTS_A_BLOCK)?;
        if self.pairs.capacity() < self.slots.capacity() {
            let lacking = self.slots.capacity() - self.pairs.len();
            self.pairs.reserve(lacking.max(PAIRS_A_BLOCK))?;
        }
        Ok(())
    }

    /// Puts a call after the others, with what is kept with it.
    #[inline(always)]
    pub(crate) fn push_reserved(&mut self, call: Packed, cached: CachedMatch)
        requires { 1 ≤ self.old.room }
        ensures { self.new.items ≡ self.old.items ++ record { call = call; cached = cached } ∷ [] }
    {
        let mark = Mark::of(cached);
        if mark.is_apart() {
            fill(&mut self.pairs, self.slots.len());
            self.pairs.push_reserved(pair_of(cached));
        }
        self.slots.push_reserved(Slot { call, mark });
    }

    /// Keeps the place of a half's partner, below `FAR`, with the call at the index, with which nothing else is kept then.
    #[inline(always)]
    pub(crate) fn set_alone(&mut self, index: usize, half: Half, there: u32)
        requires within { index < length self.old.items }
        requires near { there < far }
        ensures { (old : Entry) → slice_get self.old.items index ≡ Some old →
            self.new.items ≡ slice_set self.old.items index (record { call = old.call; cached = with_partner half there Nothing }) }
    {
        let slot = &mut self.slots[index];
        slot.mark = Mark::of_partner(half, there);
    }

    /// Keeps another match with the call at the index.
    pub(crate) fn set_cached(&mut self, index: usize, cached: CachedMatch)
        requires { index < length self.old.items }
        ensures { (old : Entry) → slice_get self.old.items index ≡ Some old →
            self.new.items ≡ slice_set self.old.items index (record { call = old.call; cached = cached }) }
    {
        let mark = Mark::of(cached);
        if mark.is_apart() {
            fill(&mut self.pairs, self.slots.len());
            self.pairs[index] = pair_of(cached);
        }
        let slot = &mut self.slots[index];
        slot.mark = mark;
    }

    /// The call at the index.
    #[inline(always)]
    pub(crate) fn get(&self, index: usize) -> Option<EntryRef<'_>>
        ensures { option_map entry_at result ≡ slice_get self.now.items index }
    {
        match self.slots.get(index) {
            Some(slot) => Some(EntryRef {
                slot,
                pairs: self.pairs.as_slice(),
                index,
            }),
            None => None,
        }
    }
}
