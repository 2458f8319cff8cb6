//! Which requests of a recording are active, by look-up.
//!
//! Each rank has 64 cells: a request is in the cell of its number's remainder. So a program that uses
//! its numbers again, or counts them up, needs no hash. If another request is in that cell, it goes into a
//! table by `indexmap`, which is asked only while something is in it.

ghost use Rattle.std.specs.Prelude.{◌≡◌, ◌+◌, ◌*◌, ◌%◌, ◌^◌, ◌<◌, ◌≤◌, ◌==◌, ◌&&◌, [], Some, None, IfSome, IfNone, length, replicate, map, take, ℕ, true, false, IfOk, OnOk, if◌then◌else◌};
ghost use Rattle.std.specs.List.{list_all};
ghost use Rattle.std.specs.Hash as fed;
ghost use Rattle.std.specs.Cmp.Rules.{hashing};
ghost use Rattle.std.proofs.Common.{rules};
ghost use Rattle.indexmap.specs.IndexMap.{spare};
ghost use Rattle.callstore.specs.Recordings.{Lists, calls_of, appended};
ghost use Rattle.callstore.specs.Requests.{started_in, is_among, is_active, does_start, HasActive};
ghost use Rattle.pairing.specs.inner.Starts.{cell_no, cell_in, place_at, other_in, place_in, has_place, has_cell, IsActive, HasRoomToStart};

use callstore::next_call::NextCall;
use indexmap::IndexMap;
use std::alloc::{AllocError, Global};
use std::hash::{Hash, Hasher};

/// A request of a rank, by the number that the rank's recorder gave it.
#[derive(Clone, Copy, PartialEq, Eq)]
pub(crate) struct Request {
    rank: u16,
    req: u32,
}

// Both as one number, which is hashed faster than one after the other.
impl Hash for Request {
    ghost hash_input = { λ r. fed.u64 (r.rank * 2 ^ 32 + r.req) };

    ghost respects_eq = { Prim.search (hashing, rules) };

    fn hash<H: Hasher>(&self, state: &mut H) {
        state.write_u64(u64::from(self.rank) * 0x1_0000_0000 + u64::from(self.req));
    }
}

/// So many cells are kept for the active requests of each rank.
pub(crate) const REQUEST_CELLS: usize = 64;

/// An active request of some rank: its number, and the place of the call that started it.
#[derive(Clone, Copy)]
pub(crate) struct ActiveRequest {
    req: u32,
    place: u32,
}

/// The active requests of each rank, each with the place of the call that started it. A look-up takes
/// the same time however many calls there were, on average.
#[derive(Drop)]
pub(crate) struct Active {
    // The cells of the ranks, in turn. A request is in the cell of its number's remainder.
    cells: Vec<Option<ActiveRequest>>,
    // The requests that found another one in their cell.
    others: IndexMap<Request, u32>,
}

/// The number of the cell of the rank's request.
#[inline(always)]
fn cell_no(rank: u16, req: u32) -> usize
    ensures { result ≡ cell_no rank req }
{
    usize::from(rank) * REQUEST_CELLS + req as usize % REQUEST_CELLS
}

impl Active {
    /// No request yet, of so many ranks: the table of each recording without calls.
    pub(crate) fn new(alloc: Global, ranks: u16) -> Result<Active, AllocError>
        ensures { IfOk result (λ active. (ranks : ℕ) → IsActive (replicate ranks []) active) }
    {
        Ok(Active {
            cells: vec![in alloc; None; usize::from(ranks) * REQUEST_CELLS]?,
            others: IndexMap::new(alloc),
        })
    }

    /// Whether the rank's request finds no other in its cell.
    #[inline(always)]
    fn has_cell(&self, rank: u16, req: u32) -> bool
        ensures { result ≡ has_cell self.now rank req }
    {
        match self.cells.get(cell_no(rank, req)) {
            Some(Some(start)) => start.req == req,
            Some(None) => true,
            None => false,
        }
    }

    /// Makes room for what the rank's call starts, if it starts something. The table says the same after it.
    #[inline(always)]
    pub(crate) fn reserve(&mut self, rank: u16, call: &NextCall<'_>) -> Result<(), AllocError>
        ensures kept { (recording : Lists) → IsActive recording self.old → IsActive recording self.new }
        ensures ok { OnOk result (HasRoomToStart self.new rank call.now) }
    {
        if let Some(req) = call.starts() {
            if !self.has_cell(rank, req) {
                return self.others.reserve(1);
            }
        }
        Ok(())
    }

    /// Empties the rank's cell of the request, if that is there.
    #[inline(always)]
    fn empty(&mut self, rank: u16, req: u32)
        ensures cells { (r q : ℕ) → place_at q (cell_in self.new r q) ≡ (if r == rank && req == q then None else place_at q (cell_in self.old r q)) }
        ensures free { (r q : ℕ) → has_cell self.old r q ≡ true → has_cell self.new r q ≡ true }
        ensures others { self.new.others ≡ self.old.others }
    {
        let no = cell_no(rank, req);
        if no < self.cells.len() {
            if let Some(start) = self.cells[no] {
                if start.req == req {
                    self.cells[no] = None;
                }
            }
        }
    }

    /// Takes out the rank's request, if it found another one in its cell.
    #[inline(never)]
    fn remove_other(&mut self, rank: u16, req: u32)
        ensures others { (r q : ℕ) → other_in self.new r q ≡ (if r == rank && req == q then None else other_in self.old r q) }
        ensures cells { self.new.cells ≡ self.old.cells }
        ensures room { spare self.old.others ≤ spare self.new.others }
    {
        self.others.swap_remove(&Request { rank, req });
    }

    /// Takes out the rank's request, if it is there.
    #[inline(always)]
    fn remove(&mut self, rank: u16, req: u32)
        ensures taken { (r q : ℕ) → place_in self.new r q ≡ (if r == rank && req == q then None else place_in self.old r q) }
        ensures free { (r q : ℕ) → has_cell self.old r q ≡ true → has_cell self.new r q ≡ true }
        ensures room { spare self.old.others ≤ spare self.new.others }
    {
        self.empty(rank, req);
        if !self.others.is_empty() {
            self.remove_other(rank, req);
        }
    }

    /// Puts the rank's request into its cell, and answers whether no other is there.
    #[inline(always)]
    fn fill(&mut self, rank: u16, req: u32, place: u32) -> bool
        ensures filled { result ≡ true → (r q : ℕ) → place_at q (cell_in self.new r q) ≡ (if r == rank && req == q then Some place else place_at q (cell_in self.old r q)) }
        ensures taken { result ≡ false → (place_at req (cell_in self.old rank req) ≡ None) × (self.new ≡ self.old) }
        ensures free { result ≡ has_cell self.old rank req }
        ensures others { self.new.others ≡ self.old.others }
    {
        let no = cell_no(rank, req);
        if no >= self.cells.len() {
            return false;
        }
        if let Some(start) = self.cells[no] {
            if start.req != req {
                return false;
            }
        }
        self.cells[no] = Some(ActiveRequest { req, place });
        true
    }

    /// Puts in the rank's request, which found another one in its cell.
    #[inline(never)]
    fn insert_other(&mut self, rank: u16, req: u32, place: u32)
        requires { 0 < spare self.old.others }
        ensures others { (r q : ℕ) → other_in self.new r q ≡ (if r == rank && req == q then Some place else other_in self.old r q) }
        ensures cells { self.new.cells ≡ self.old.cells }
    {
        self.others.insert(Request { rank, req }, place).unwrap();
    }

    /// Puts in the rank's request, which the call at the place starts.
    #[inline(always)]
    fn insert(&mut self, rank: u16, req: u32, place: u32)
        requires { has_cell self.old rank req ≡ false → 0 < spare self.old.others }
        ensures { (r q : ℕ) → place_in self.new r q ≡ (if r == rank && req == q then Some place else place_in self.old r q) }
    {
        if !self.fill(rank, req, place) {
            self.insert_other(rank, req, place);
        }
    }

    /// Takes out those requests of the rank that are among the numbers.
    #[inline(always)]
    fn complete(&mut self, rank: u16, reqs: &[u32])
        ensures taken { (r req : ℕ) → place_in self.new r req ≡ (if r == rank && is_among req reqs.now then None else place_in self.old r req) }
        ensures free { (r q : ℕ) → has_cell self.old r q ≡ true → has_cell self.new r q ≡ true }
        ensures room { spare self.old.others ≤ spare self.new.others }
    {
        for req in reqs {
            self.remove(rank, *req);
        }
    }

    /// Puts in the request that the call at the place starts, if it starts one.
    #[inline(always)]
    fn start(&mut self, rank: u16, place: u32, call: &NextCall<'_>)
        requires { HasRoomToStart self.old rank call.now }
        ensures { (r req : ℕ) → place_in self.new r req ≡ (if r == rank && does_start req call.now then Some place else place_in self.old r req) }
    {
        if let Some(req) = call.starts() {
            self.insert(rank, req, place);
        }
    }

    /// Puts in the request that the rank's next call starts, and takes out those that it completes. It
    /// takes no memory.
    #[inline(always)]
    pub(crate) fn put(&mut self, rank: u16, place: u32, call: &NextCall<'_>)
        requires { HasRoomToStart self.old rank call.now }
        ensures { (recording : Lists) → IsActive recording self.old → rank < length recording →
            place ≡ length (calls_of recording rank) → IsActive (appended recording rank call.now) self.new }
    {
        self.complete(rank, call.completes());
        self.start(rank, place, call);
    }

    /// The place that started the rank's request, if it is active and found another one in its cell.
    #[inline(never)]
    fn other_start_of(&self, rank: u16, req: u32) -> Option<u32>
        ensures { result ≡ other_in self.now rank req }
    {
        self.others.get(&Request { rank, req }).copied()
    }

    /// The place that started the rank's request, if it is active.
    #[inline(always)]
    pub(crate) fn start_of(&self, rank: u16, req: u32) -> Option<u32>
        ensures place { result ≡ place_in self.now rank req }
        ensures value { (recording : Lists) → IsActive recording self.now → result ≡ started_in (calls_of recording rank) req }
    {
        if let Some(Some(start)) = self.cells.get(cell_no(rank, req)) {
            if start.req == req {
                return Some(start.place);
            }
        }
        if self.others.is_empty() {
            return None;
        }
        self.other_start_of(rank, req)
    }

    /// What `starts_of` does, by a look-up of each.
    #[inline(always)]
    fn each_start_of(&self, rank: u16, reqs: &[u32], into: &mut [u32]) -> usize
        requires { length reqs.now ≤ length into.old }
        ensures most { result ≤ length reqs.now }
        ensures written { (recording : Lists) → IsActive recording self.now →
            map Some (take result into.new) ≡ map (started_in (calls_of recording rank)) (take result reqs.now) }
        ensures all { (recording : Lists) → IsActive recording self.now →
            list_all (is_active (calls_of recording rank)) reqs.now ≡ (result == length reqs.now) }
    {
        for i in 0..reqs.len() {
            match self.start_of(rank, reqs[i]) {
                Some(start) => into[i] = start,
                None => return i,
            }
        }
        reqs.len()
    }

    /// Writes the places that started the rank's requests of these numbers, in order, up to the first that
    /// is not active, and answers how many it wrote. Most calls wait for none, and ask nothing.
    #[inline(always)]
    pub(crate) fn starts_of(&self, rank: u16, reqs: &[u32], into: &mut [u32]) -> usize
        requires { length reqs.now ≤ length into.old }
        ensures most { result ≤ length reqs.now }
        ensures written { (recording : Lists) → IsActive recording self.now →
            map Some (take result into.new) ≡ map (started_in (calls_of recording rank)) (take result reqs.now) }
        ensures all { (recording : Lists) → IsActive recording self.now →
            list_all (is_active (calls_of recording rank)) reqs.now ≡ (result == length reqs.now) }
    {
        if reqs.is_empty() {
            0
        } else {
            self.each_start_of(rank, reqs, into)
        }
    }

    /// The request that the cell has of those which belong there.
    fn req_in(&self, rank: u16, index: usize) -> Option<u32>
        requires { index < REQUEST_CELLS }
        ensures none { IfNone result ((req : ℕ) → req % REQUEST_CELLS ≡ index → place_at req (cell_in self.now rank req) ≡ None) }
        ensures some { IfSome result (λ req. has_place self.now rank req ≡ true) }
    {
        match self.cells.get(usize::from(rank) * REQUEST_CELLS + index) {
            Some(Some(start)) if start.req as usize % REQUEST_CELLS == index => Some(start.req),
            _ => None,
        }
    }

    /// Whether a request of the rank may be active. It looks at the rank's cells alone: what found another request
    /// in its cell is taken for the rank's.
    pub(crate) fn may_have(&self, rank: u16) -> bool
        ensures none { (recording : Lists) → IsActive recording self.now → result ≡ false →
            (req : ℕ) → started_in (calls_of recording rank) req ≡ None }
        ensures some { (recording : Lists) → IsActive recording self.now → result ≡ true → HasActive recording }
    {
        if !self.others.is_empty() {
            return true;
        }
        for index in 0..REQUEST_CELLS {
            if self.req_in(rank, index).is_some() {
                return true;
            }
        }
        false
    }
}
