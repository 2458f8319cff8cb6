//! The keys of a rank's communicators, by the rank's own numbers.
//!
//! Recorders number them one after another, so a list has their keys in that order. A number that is far beyond
//! those before it has its key in a map.

ghost use Rattle.std.specs.Prelude.{◌≡◌, ◌==◌, ℕ, None, Some, OnOk, nat_eq, if◌then◌else◌};
ghost use Rattle.std.specs.HashMap.{get};
ghost use Rattle.closing.specs.inner.Holds.{key_kept};

use std::alloc::{AllocError, Global};
use std::collections::HashMap;

/// The keys, by their places; a number has one key at most, and that in the list counts.
#[derive(Drop)]
pub(crate) struct RankNumbers {
    near: Vec<Option<u32>>,
    far: HashMap<u32, u32>,
}

impl RankNumbers {
    pub(crate) fn new(alloc: Global) -> RankNumbers
        ensures { (number : ℕ) → key_kept result number ≡ None }
    {
        RankNumbers {
            near: Vec::new(alloc),
            far: HashMap::new(alloc),
        }
    }

    /// The key of a number that the list doesn't have, if it has one.
    #[inline(never)]
    fn get_far(&self, number: u32) -> Option<u32>
        ensures { result ≡ get nat_eq self.now.far number }
    {
        self.far.get(&number).copied()
    }

    /// The key of a number, if it has one.
    #[inline(always)]
    pub(crate) fn get(&self, number: u32) -> Option<u32>
        ensures { result ≡ key_kept self.now number }
    {
        match self.near.get(number as usize).copied() {
            Some(Some(key)) => Some(key),
            _ => self.get_far(number),
        }
    }

    /// Has a place in the list for a number that comes next, or next but one.
    #[tactic(auto, using(crate::proofs::RankNumberLemmas::place_more))]
    fn make_room(&mut self, place: usize) -> Result<(), AllocError>
        ensures { OnOk result ((number : ℕ) → key_kept self.new number ≡ key_kept self.old number) }
    {
        let next = self.near.len();
        if place < next || place - next > 1 {
            return Ok(());
        }
        self.near.push(None)?;
        if place > next {
            self.near.push(None)?;
        }
        Ok(())
    }

    /// Gives a number this key.
    pub(crate) fn insert(&mut self, number: u32, key: u32) -> Result<(), AllocError>
        ensures { OnOk result ((other : ℕ) → key_kept self.new other
            ≡ (if number == other then Some key else key_kept self.old other)) }
    {
        let place = number as usize;
        self.make_room(place)?;
        if place < self.near.len() {
            self.near[place] = Some(key);
            return Ok(());
        }
        self.far.insert(number, key)?;
        Ok(())
    }
}
