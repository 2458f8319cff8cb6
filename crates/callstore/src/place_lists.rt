//! Lists of places by numbers.

ghost use Rattle.std.specs.Prelude.{◌≡◌, ◌<◌, [], ◌∷◌, ◌++◌, length, replicate, slice_get, IfOk, OnErr, OnOk};
ghost use Rattle.callstore.specs.Seats.{list_in, with_place_in, HasRoomIn};

use crate::growth::make_room;
use std::alloc::{AllocError, Global};
use std::marker::Model;

/// So many places fill a block.
const PLACES_A_BLOCK: usize = 32_768;

/// Places in the order in which they came. Contracts see them, and how many there is room for.
#[derive(Drop)]
struct PlaceList {
    places: Vec<u32>,
}

impl Model for PlaceList {
    ghost use Rattle.std.specs.Vec.{vec_capacity};
    ghost use Rattle.callstore.specs.inner.Seats.{Listed};

    ghost Value = { Listed };

    ghost view = { λ l. record { places = l.places.items; room = vec_capacity l.places } };
}

impl PlaceList {
    /// No places yet.
    fn new(alloc: Global) -> PlaceList
        ensures { result.places ≡ [] }
    {
        PlaceList {
            places: Vec::new(alloc),
        }
    }

    /// Makes room for one more place.
    #[inline(always)]
    fn reserve(&mut self) -> Result<(), AllocError>
        ensures places { self.new.places ≡ self.old.places }
        ensures room { OnOk result (length self.new.places < self.new.room) }
    {
        make_room(&mut self.places, PLACES_A_BLOCK)
    }

    /// Adds a place, for which there is room.
    #[inline(always)]
    fn push_reserved(&mut self, place: u32)
        requires { length self.old.places < self.old.room }
        ensures { self.new.places ≡ self.old.places ++ place ∷ [] }
    {
        self.places.push_reserved(place);
    }

    /// How many places there are.
    #[inline(always)]
    fn len(&self) -> usize
        ensures { result ≡ length self.now.places }
    {
        self.places.len()
    }

    /// The place with a number, counted from 0.
    #[inline(always)]
    fn get(&self, number: usize) -> Option<u32>
        ensures { result ≡ slice_get self.now.places number }
    {
        self.places.get(number).copied()
    }
}

/// Lists of places. Contracts see the places of each, and for how many each has room.
#[derive(Drop)]
pub struct PlaceLists {
    lists: Vec<PlaceList>,
}

impl Model for PlaceLists {
    ghost use Rattle.std.specs.Prelude.{map};
    ghost use Rattle.callstore.specs.Seats.{Seats};

    ghost Value = { Seats };

    ghost view = { λ s. record {
      places = map (λ list. list.places) s.lists.items;
      rooms = map (λ list. list.room) s.lists.items;
    } };
}

impl PlaceLists {
    /// So many lists without places.
    pub fn new(alloc: Global, count: u16) -> Result<PlaceLists, AllocError>
        ensures { IfOk result (λ seats. seats.places ≡ replicate count []) }
    {
        let mut lists = Vec::new(alloc);
        for _index in 0..count {
            lists.push(PlaceList::new(alloc))?;
        }
        Ok(PlaceLists { lists })
    }

    /// How many lists there are.
    #[inline(always)]
    pub fn len(&self) -> usize
        ensures { result ≡ length self.now.places }
    {
        self.lists.len()
    }

    /// Makes one more list, without places, after the others.
    pub fn add(&mut self, alloc: Global) -> Result<(), AllocError>
        ensures ok { OnOk result (self.new.places ≡ self.old.places ++ [] ∷ []) }
        ensures err { OnErr result (self.new.places ≡ self.old.places) }
    {
        self.lists.push(PlaceList::new(alloc))?;
        Ok(())
    }

    /// Makes room for one more place in the list of that number.
    #[inline(always)]
    pub fn reserve(&mut self, index: usize) -> Result<(), AllocError>
        requires { index < length self.old.places }
        ensures places { self.new.places ≡ self.old.places }
        ensures room { OnOk result (HasRoomIn self.new index) }
    {
        let list = &mut self.lists[index];
        list.reserve()
    }

    /// Adds a place to the list of that number, which has room for it.
    #[inline(always)]
    pub fn push_reserved(&mut self, index: usize, place: u32)
        requires { HasRoomIn self.old index }
        ensures { self.new.places ≡ with_place_in self.old.places index place }
    {
        let list = &mut self.lists[index];
        list.push_reserved(place);
    }

    /// How many places the list of that number has; 0 where there is no such list.
    #[inline(always)]
    pub fn count(&self, index: usize) -> usize
        ensures { result ≡ length (list_in self.now.places index) }
    {
        match self.lists.get(index) {
            Some(list) => list.len(),
            None => 0,
        }
    }

    /// The place with a number in the list of that index.
    #[inline(always)]
    pub fn get(&self, index: usize, number: usize) -> Option<u32>
        ensures { result ≡ slice_get (list_in self.now.places index) number }
    {
        match self.lists.get(index) {
            Some(list) => list.get(number),
            None => None,
        }
    }
}
