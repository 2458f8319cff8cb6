//! The active requests of a rank, by its own numbers.
//!
//! A rank's numbers of requests and messages rise, and most requests are active for a short time. So each has a place in
//! a short table, by its number; a request whose place is taken is in a map.

ghost use Rattle.std.specs.Prelude.{◌≡◌, ◌<◌, ◌==◌, ◌%◌, ℕ, None, Some, OnOk, if◌then◌else◌, slice_get, nat_eq};
ghost use Rattle.std.specs.HashMap.{get};
ghost use Rattle.closing.specs.inner.Started.{active_at, near_at, may_hold};

use crate::list::Active;
use std::alloc::{AllocError, Global};
use std::collections::HashMap;

/// How many places the table has.
const PLACES: usize = 64;

/// An active request, with its own number.
#[derive(Clone, Copy)]
struct Held {
    id: u32,
    active: Active,
}

/// The active requests; of a number at most one, and that in the table counts.
#[derive(Drop)]
pub(crate) struct Started {
    near: [Option<Held>; PLACES],
    far: HashMap<u32, Active>,
}

/// The place of a number.
#[inline(always)]
fn place_of(id: u32) -> usize
    ensures place { result ≡ id % PLACES }
    ensures within { result < PLACES }
{
    id as usize % PLACES
}

impl Started {
    pub(crate) fn new(alloc: Global) -> Started
        ensures { (id : ℕ) → active_at result id ≡ None }
    {
        Started {
            near: [None; PLACES],
            far: HashMap::new(alloc),
        }
    }

    /// The request of this number, if it is in the table.
    #[inline(always)]
    fn near(&self, id: u32) -> Option<Active>
        ensures { result ≡ near_at self.now id }
    {
        match self.near.get(place_of(id)).copied() {
            Some(Some(held)) if held.id == id => Some(held.active),
            _ => None,
        }
    }

    /// The active request of this number, if there is one.
    #[inline(always)]
    pub(crate) fn get(&self, id: u32) -> Option<Active>
        ensures { result ≡ active_at self.now id }
    {
        match self.near(id) {
            Some(active) => Some(active),
            None => self.far.get(&id).copied(),
        }
    }

    /// Whether no other request has this number's place.
    #[inline(always)]
    fn may_hold(&self, id: u32) -> bool
        ensures { result ≡ may_hold id (slice_get self.now.near (id % PLACES)) }
    {
        match self.near.get(place_of(id)).copied() {
            Some(Some(held)) => held.id == id,
            Some(None) => true,
            None => false,
        }
    }

    /// Gives a number this active request.
    #[inline(always)]
    #[tactic(auto, using(crate::proofs::StartedLemmas::put_near, crate::proofs::StartedLemmas::put_far))]
    pub(crate) fn insert(&mut self, id: u32, active: Active) -> Result<(), AllocError>
        ensures { OnOk result ((other : ℕ) → active_at self.new other ≡ (if id == other then Some active else active_at self.old other)) }
    {
        if self.may_hold(id) {
            self.near[place_of(id)] = Some(Held { id, active });
            return Ok(());
        }
        self.far.insert(id, active)?;
        Ok(())
    }

    /// Takes the request of this number out of the table, if it is there.
    #[inline(always)]
    #[tactic(auto, using(crate::proofs::StartedLemmas::near_gone, crate::proofs::StartedLemmas::near_none))]
    fn remove_near(&mut self, id: u32) -> Option<Active>
        ensures value { result ≡ near_at self.old id }
        ensures near { (other : ℕ) → near_at self.new other ≡ (if id == other then None else near_at self.old other) }
        ensures far { self.new.far ≡ self.old.far }
    {
        let active = self.near(id)?;
        self.near[place_of(id)] = None;
        Some(active)
    }

    /// Takes the request of this number out of the map, which most runs leave empty.
    #[inline(always)]
    #[tactic(auto, using(crate::proofs::StartedLemmas::none_of_none, crate::proofs::StartedLemmas::gone_of_none))]
    fn remove_far(&mut self, id: u32) -> Option<Active>
        ensures value { result ≡ get nat_eq self.old.far id }
        ensures far { (other : ℕ) → get nat_eq self.new.far other ≡ (if id == other then None else get nat_eq self.old.far other) }
        ensures near { self.new.near ≡ self.old.near }
    {
        if self.far.is_empty() {
            return None;
        }
        self.far.remove(&id)
    }

    /// The number has no active request any more; answers the one that it had.
    #[inline(always)]
    #[tactic(auto, using(crate::proofs::StartedLemmas::both_gone))]
    pub(crate) fn remove(&mut self, id: u32) -> Option<Active>
        ensures value { result ≡ active_at self.old id }
        ensures gone { (other : ℕ) → active_at self.new other ≡ (if id == other then None else active_at self.old other) }
    {
        let far = self.remove_far(id);
        match self.remove_near(id) {
            Some(active) => Some(active),
            None => far,
        }
    }
}
