//! Collectives by rank and communicator, so that a call in a wave is found without a look at other calls.
//!
//! A list for a communicator other than the world is made at the rank's first collective there: lists for
//! all of 1,024 ranks and 4,096 communicators would take 100 MB before any call. A list that was made for a
//! call which is then refused for lack of memory stays empty, which reads as no list.

ghost use Rattle.std.specs.Prelude.{◌≡◌, ◌<◌, ◌≤◌, ℕ, Option, None, Some, [], true, length, replicate, IfOk, IfSome};
ghost use Rattle.mpicall.specs.declared.call.Call.{Call};
ghost use Rattle.pairing.specs.inner.Joined.{list_number, list_of, IsJoined, IsListFor, HasRoomToJoin};
ghost use Rattle.callstore.specs.Limits.{most_calls};
ghost use Rattle.callstore.specs.Places.{places};
ghost use Rattle.callstore.specs.Recordings.{Lists, calls_of, appended};
ghost use Rattle.callstore.specs.Seats.{HasRoomIn};
ghost use Rattle.callstore.specs.Waves.{does_join, place_in_wave, member_of, is_full};

use crate::made_comms::Holding;
use callstore::limits::MOST_CALLS;
use callstore::next_call::NextCall;
use callstore::place_lists::PlaceLists;
use indexmap::IndexSet;
use mpigroup::head::Head;
use std::alloc::{AllocError, Global};
use std::marker::Model;

/// The places of collectives by rank and communicator, in the order of the ranks' lists. What they are is
/// said over each recording whose calls were put in so far, and no others.
///
/// Each rank of the world has a list for the world, which is found by its number. A list for another
/// communicator is made at the rank's first collective there, and found by look-up, which takes the same time
/// however many lists there are, on average.
pub(crate) struct Waves {
    alloc: Global,
    ranks: u16,
    joined: IndexSet<Holding>,
    // The lists of the world, one for each of its ranks, and after them one for each that joined.
    lists: PlaceLists,
}

// By hand: a derived drop is proved again at each exit of a function that owns one.
impl Drop for Waves {
    fn drop(self) {
        let Waves {
            alloc: _,
            ranks: _,
            joined: _,
            lists: _,
        } = self;
    }
}

impl Model for Waves {
    ghost use Rattle.std.specs.Prelude.{◌≡◌, ◌+◌, length};
    ghost use Rattle.pairing.specs.inner.Joined.{Joinings};

    ghost Value = { Joinings };

    ghost view = { λ w. record { ranks = w.ranks; keys = w.joined.keys; lists = w.lists } };

    ghost invariant = { λ w. length w.lists.places ≡ w.ranks + length w.joined.keys };
}

impl Waves {
    /// No calls yet: the table of each recording without calls.
    pub(crate) fn new(alloc: Global, head: &Head) -> Result<Waves, AllocError>
        ensures { IfOk result (λ waves. (ranks : ℕ) → IsJoined (replicate ranks []) waves) }
    {
        let ranks = head.ranks();
        let lists = PlaceLists::new(alloc, ranks)?;
        Ok(Waves {
            alloc,
            ranks,
            joined: IndexSet::new(alloc),
            lists,
        })
    }

    /// The number of the list that the rank has for the communicator.
    #[inline(always)]
    fn list(&self, rank: u16, comm: u16) -> Option<usize>
        ensures value { result ≡ list_number self.now rank comm }
        ensures within { IfSome result (λ list. list < length self.now.lists.places) }
    {
        if comm == 0 && rank < self.ranks {
            return Some(usize::from(rank));
        }
        let number = self.joined.get_index_of(&Holding { rank, comm })?;
        // For the proof: there are more lists than that, so the sum is small.
        let _lists = self.lists.len();
        Some(usize::from(self.ranks) + number)
    }

    /// Makes the list of the rank for the communicator, which has none yet. All lists stay.
    fn add_list(&mut self, rank: u16, comm: u16) -> Result<usize, AllocError>
        requires { list_number self.old rank comm ≡ None }
        ensures lists { (r c : ℕ) → list_of self.new r c ≡ list_of self.old r c }
        ensures number { IfOk result (λ list. list_number self.new rank comm ≡ Some list) }
        ensures within { IfOk result (λ list. list < length self.new.lists.places) }
    {
        let list = self.lists.len();
        self.joined.reserve(1)?;
        self.lists.add(self.alloc)?;
        self.joined.insert(Holding { rank, comm }).unwrap();
        Ok(list)
    }

    /// Makes room for one more place of the rank under the communicator, and answers the number of their list.
    #[inline(always)]
    fn reserve_at(&mut self, rank: u16, comm: u16) -> Result<usize, AllocError>
        ensures lists { (r c : ℕ) → list_of self.new r c ≡ list_of self.old r c }
        ensures number { IfOk result (λ list. list_number self.new rank comm ≡ Some list) }
        ensures room { IfOk result (λ list. HasRoomIn self.new.lists list) }
    {
        let list = match self.list(rank, comm) {
            Some(list) => list,
            None => self.add_list(rank, comm)?,
        };
        self.lists.reserve(list)?;
        Ok(list)
    }

    /// Makes room for the wave that a rank's call joins, and answers the number of its list; None where it
    /// joins none. All places stay.
    #[inline(always)]
    pub(crate) fn reserve(
        &mut self,
        rank: u16,
        call: &NextCall<'_>,
    ) -> Result<Option<usize>, AllocError>
        ensures room { IfOk result (λ list. HasRoomToJoin rank call.now list self.new) }
        ensures joined { (recording : Lists) → IsJoined recording self.old → IsJoined recording self.new }
    {
        match call.joins() {
            Some(comm) => Ok(Some(self.reserve_at(rank, comm)?)),
            None => Ok(None),
        }
    }

    /// Puts in a rank's next call, for whose wave the list has room.
    #[inline(always)]
    pub(crate) fn put(&mut self, list: Option<usize>, place: u32)
        requires { IfSome list (HasRoomIn self.old.lists) }
        ensures { (recording : Lists) (rank : ℕ) (call : Call) → IsListFor rank call self.old list → IsJoined recording self.old →
            rank < length recording → place ≡ length (calls_of recording rank) → IsJoined (appended recording rank call) self.new }
    {
        if let Some(list) = list {
            self.lists.push_reserved(list, place);
        }
    }

    /// How many waves the list has.
    #[inline(always)]
    pub(crate) fn number(&self, list: usize) -> u32
        ensures { (recording : Lists) (rank comm : ℕ) → IsJoined recording self.now → list_number self.now rank comm ≡ Some list →
            length (calls_of recording rank) ≤ most_calls → result ≡ length (places (does_join comm) (calls_of recording rank)) }
    {
        // A rank has at most so many calls.
        self.lists.count(list).min(MOST_CALLS) as u32
    }

    /// The place of the rank's call in a wave of the communicator; None where it has none yet.
    #[inline(always)]
    pub(crate) fn place_in_wave(&self, comm: u16, wave: u32, rank: u16) -> Option<u32>
        ensures { (recording : Lists) → IsJoined recording self.now → result ≡ place_in_wave recording comm wave rank }
    {
        let list = self.list(rank, comm)?;
        self.lists.get(list, wave as usize)
    }

    /// The place of a wave's call of the member with rank `g` in the communicator's group; None where it
    /// has none yet.
    #[inline(always)]
    pub(crate) fn member_of(&self, head: &Head, comm: u16, wave: u32, g: u16) -> Option<u32>
        ensures { (recording : Lists) → IsJoined recording self.now → result ≡ member_of head.now recording comm wave g }
    {
        match head.world_rank(comm, g) {
            Some(rank) => self.place_in_wave(comm, wave, rank),
            None => None,
        }
    }

    /// Whether each member of the communicator has its call of the wave.
    pub(crate) fn is_full(&self, head: &Head, comm: u16, wave: u32) -> bool
        ensures { (recording : Lists) → IsJoined recording self.now → result ≡ is_full head.now recording comm wave }
    {
        for g in 0..head.size(comm).unwrap_or(0) {
            if self.member_of(head, comm, wave, g).is_none() {
                return false;
            }
        }
        true
    }
}
