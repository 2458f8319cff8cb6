//! Which cell of an arena follows which.

ghost use Rattle.std.specs.Prelude.{◌≡◌, ◌≢◌, ◌+◌, ◌-◌, ◌<◌, ◌≤◌, ◌^◌, ℕ, [], ◌∷◌, ◌++◌, length, map, slice_set, slice_index, None, Some, IfOk, OnOk, OnErr};
ghost use Rattle.std.specs.Vec.{vec_capacity};
ghost use Rattle.arenaqueue.specs.Numbers.{list_at};
ghost use Rattle.arenaqueue.specs.inner.Numbers.{count, in_all, without, after, first_of};
ghost use Rattle.arenalist.specs.inner.Rings.{nexts_linked, prevs_linked, nexts_unlinked, prevs_unlinked, nexts_spliced, prevs_spliced, around, IsRound};
ghost use Rattle.arenalist.specs.inner.Links.{owners_given};

use std::alloc::{AllocError, Global};
use std::marker::Model;

/// No more cells than these, so that each has a number of 32 bits.
const MOST_CELLS: usize = u32::MAX as usize;

/// Links the cell between the head of a ring and the last before it.
#[inline(always)]
fn link(nexts: &mut Vec<u32>, prevs: &mut Vec<u32>, head: u32, cell: u32)
    requires same { length nexts.old.items ≡ length prevs.old.items }
    requires head { head < length nexts.old.items }
    requires cell { cell < length nexts.old.items }
    requires last { slice_index prevs.old.items head < length nexts.old.items }
    ensures nexts { nexts.new.items ≡ nexts_linked nexts.old.items prevs.old.items head cell }
    ensures prevs { prevs.new.items ≡ prevs_linked prevs.old.items head cell }
{
    let last = prevs[head as usize];
    nexts[last as usize] = cell;
    nexts[cell as usize] = head;
    prevs[cell as usize] = last;
    prevs[head as usize] = cell;
}

/// Links the neighbours of the cell to one another.
#[inline(always)]
fn unlink(nexts: &mut Vec<u32>, prevs: &mut Vec<u32>, cell: u32)
    requires same { length nexts.old.items ≡ length prevs.old.items }
    requires cell { cell < length nexts.old.items }
    requires before { slice_index prevs.old.items cell < length nexts.old.items }
    requires after { slice_index nexts.old.items cell < length nexts.old.items }
    ensures nexts { nexts.new.items ≡ nexts_unlinked nexts.old.items prevs.old.items cell }
    ensures prevs { prevs.new.items ≡ prevs_unlinked nexts.old.items prevs.old.items cell }
{
    let before = prevs[cell as usize];
    let after = nexts[cell as usize];
    nexts[before as usize] = after;
    prevs[after as usize] = before;
}

/// Links all cells of a ring, but not its head, between another ring's last cell and its head; the head is left
/// alone in its ring.
fn splice(nexts: &mut Vec<u32>, prevs: &mut Vec<u32>, to: u32, from: u32)
    requires same { length nexts.old.items ≡ length prevs.old.items }
    requires to { to < length nexts.old.items }
    requires from { from < length nexts.old.items }
    requires first { slice_index nexts.old.items from < length nexts.old.items }
    requires last_to { slice_index prevs.old.items to < length nexts.old.items }
    requires last_from { slice_index prevs.old.items from < length nexts.old.items }
    ensures nexts { nexts.new.items ≡ nexts_spliced nexts.old.items prevs.old.items to from }
    ensures prevs { prevs.new.items ≡ prevs_spliced nexts.old.items prevs.old.items to from }
{
    let first = nexts[from as usize];
    let last_to = prevs[to as usize];
    let last_from = prevs[from as usize];
    nexts[last_to as usize] = first;
    nexts[last_from as usize] = to;
    nexts[from as usize] = from;
    prevs[first as usize] = last_to;
    prevs[to as usize] = last_from;
    prevs[from as usize] = from;
}

/// Gives all cells of a ring, but not its head, to a list, and answers how many they are.
fn give(nexts: &Vec<u32>, owners: &mut Vec<Option<u32>>, head: u32, list: u32) -> u64
    requires same { length owners.old.items ≡ length nexts.now.items }
    requires head { head < length nexts.now.items }
    requires small { length nexts.now.items < 2 ^ 32 }
    requires round { IsRound nexts.now.items head }
    ensures count { result ≡ length (around nexts.now.items head) }
    ensures owners { owners.new.items ≡ owners_given owners.old.items (around nexts.now.items head) list }
{
    let mut given = 0;
    let mut cell = nexts[head as usize];
    while cell != head {
        owners[cell as usize] = Some(list);
        given += 1;
        cell = nexts[cell as usize];
    }
    given
}

/// Makes room in each vector, and changes nothing else.
fn reserve_cells(
    nexts: &mut Vec<u32>,
    prevs: &mut Vec<u32>,
    owners: &mut Vec<Option<u32>>,
    more: usize,
) -> Result<(), AllocError>
    requires prevs { length prevs.old.items ≡ length nexts.old.items }
    requires owners { length owners.old.items ≡ length nexts.old.items }
    requires small { length nexts.old.items < 2 ^ 32 }
    ensures nexts { nexts.new.items ≡ nexts.old.items }
    ensures prevs { prevs.new.items ≡ prevs.old.items }
    ensures owners { owners.new.items ≡ owners.old.items }
    ensures nexts_room { OnOk result (length nexts.old.items + more ≤ vec_capacity nexts.new) }
    ensures prevs_room { OnOk result (length nexts.old.items + more ≤ vec_capacity prevs.new) }
    ensures owners_room { OnOk result (length nexts.old.items + more ≤ vec_capacity owners.new) }
    ensures few { OnOk result (length nexts.old.items + more < 2 ^ 32) }
{
    if more > MOST_CELLS - nexts.len() {
        return Err(AllocError);
    }
    nexts.reserve(more)?;
    prevs.reserve(more)?;
    owners.reserve(more)?;
    Ok(())
}

/// Cells by number, each in one list or in none. A list is a ring: its own cell, the head, is
/// between its last cell and its first, so that linking and unlinking never meet an end.
pub(crate) struct Links {
    heads: Vec<u32>,
    nexts: Vec<u32>,
    prevs: Vec<u32>,
    owners: Vec<Option<u32>>,
}

// By hand: a derived drop is proved again at each exit of a function that owns one.
impl Drop for Links {
    fn drop(self) {
        let Links {
            heads: _,
            nexts: _,
            prevs: _,
            owners: _,
        } = self;
    }
}

impl Model for Links {
    ghost use Rattle.std.specs.Prelude.{length};
    ghost use Rattle.arenalist.specs.inner.Rings.{rings_of, lists_of};
    ghost use Rattle.arenalist.specs.inner.Links.{Linked, AreLinks};

    ghost Value = { Linked };

    ghost view = { λ a. record {
      heads = a.heads.items;
      lists = lists_of (rings_of a.heads.items a.nexts.items);
      cells = length a.nexts.items;
    } };

    ghost invariant = { λ a. AreLinks a.heads.items a.nexts.items a.prevs.items a.owners.items };
}

impl Links {
    pub(crate) fn new(alloc: Global) -> Links
        ensures heads { result.heads ≡ [] }
        ensures lists { result.lists ≡ [] }
        ensures cells { result.cells ≡ 0 }
    {
        Links {
            heads: Vec::new(alloc),
            nexts: Vec::new(alloc),
            prevs: Vec::new(alloc),
            owners: Vec::new(alloc),
        }
    }

    #[inline(always)]
    pub(crate) fn list_count(&self) -> usize
        ensures { result ≡ length self.now.lists }
    {
        self.heads.len()
    }

    /// The number of a list, in 32 bits.
    #[inline(always)]
    pub(crate) fn list(&self, number: usize) -> u32
        requires { number < length self.now.lists }
        ensures { result ≡ number }
    {
        // For the proof: the number of heads, which is that of the lists, is less than 2^32.
        let _heads = &self.heads;
        number as u32
    }

    /// Makes a list, with a cell for its head.
    pub(crate) fn add_list(&mut self) -> Result<u32, AllocError>
        ensures list { IfOk result (λ list. list ≡ length self.old.lists) }
        ensures heads { OnOk result (self.new.heads ≡ self.old.heads ++ self.old.cells ∷ []) }
        ensures lists { OnOk result (self.new.lists ≡ self.old.lists ++ [] ∷ []) }
        ensures cells { OnOk result (self.new.cells ≡ self.old.cells + 1) }
        ensures err { OnErr result (self.new ≡ self.old) }
    {
        if self.heads.len() >= MOST_CELLS {
            return Err(AllocError);
        }
        self.heads.reserve(1)?;
        reserve_cells(&mut self.nexts, &mut self.prevs, &mut self.owners, 1)?;
        let list = self.heads.len() as u32;
        let head = self.nexts.len() as u32;
        self.heads.push_reserved(head);
        self.nexts.push_reserved(head);
        self.prevs.push_reserved(head);
        self.owners.push_reserved(None);
        Ok(list)
    }

    /// Makes cells that are in no list, and answers the number of the first.
    pub(crate) fn add_cells(&mut self, more: usize) -> Result<u32, AllocError>
        ensures first { IfOk result (λ first. first ≡ self.old.cells) }
        ensures heads { self.new.heads ≡ self.old.heads }
        ensures lists { self.new.lists ≡ self.old.lists }
        ensures ok { OnOk result (self.new.cells ≡ self.old.cells + more) }
        ensures err { OnErr result (self.new.cells ≡ self.old.cells) }
        ensures few { OnOk result (self.new.cells < 2 ^ 32) }
    {
        reserve_cells(&mut self.nexts, &mut self.prevs, &mut self.owners, more)?;
        let first = self.nexts.len();
        for _ in 0..more {
            self.nexts.push_reserved(0);
            self.prevs.push_reserved(0);
            self.owners.push_reserved(None);
        }
        Ok(first as u32)
    }

    /// Links a cell that is in no list at the back of a list.
    #[inline(always)]
    pub(crate) fn link(&mut self, list: u32, cell: u32)
        requires list { list < length self.old.lists }
        requires cell { cell < self.old.cells }
        requires loose { count cell self.old.heads + in_all cell self.old.lists ≡ 0 }
        ensures heads { self.new.heads ≡ self.old.heads }
        ensures lists { self.new.lists ≡ slice_set self.old.lists list (list_at self.old.lists list ++ cell ∷ []) }
        ensures cells { self.new.cells ≡ self.old.cells }
    {
        let head = self.heads[list as usize];
        link(&mut self.nexts, &mut self.prevs, head, cell);
        self.owners[cell as usize] = Some(list);
    }

    /// Takes a cell out of its list.
    #[inline(always)]
    pub(crate) fn unlink(&mut self, cell: u32)
        requires { 0 < in_all cell self.old.lists }
        ensures heads { self.new.heads ≡ self.old.heads }
        ensures lists { self.new.lists ≡ map (without cell) self.old.lists }
        ensures cells { self.new.cells ≡ self.old.cells }
    {
        unlink(&mut self.nexts, &mut self.prevs, cell);
        self.owners[cell as usize] = None;
    }

    /// Puts all cells of a list after those of another, and answers how many they are.
    pub(crate) fn splice(&mut self, to: u32, from: u32) -> u64
        requires to { to < length self.old.lists }
        requires from { from < length self.old.lists }
        requires differ { to ≢ from }
        ensures count { result ≡ length (list_at self.old.lists from) }
        ensures few { result < 2 ^ 32 }
        ensures heads { self.new.heads ≡ self.old.heads }
        ensures lists { self.new.lists ≡ slice_set (slice_set self.old.lists to (list_at self.old.lists to ++ list_at self.old.lists from)) from [] }
        ensures cells { self.new.cells ≡ self.old.cells }
    {
        let from_head = self.heads[from as usize];
        let moved = give(&self.nexts, &mut self.owners, from_head, to);
        if moved == 0 {
            return 0;
        }
        let to_head = self.heads[to as usize];
        splice(&mut self.nexts, &mut self.prevs, to_head, from_head);
        moved
    }

    /// The first cell of a list.
    #[inline(always)]
    pub(crate) fn first(&self, list: u32) -> Option<u32>
        requires { list < length self.now.lists }
        ensures { result ≡ first_of (list_at self.now.lists list) }
    {
        let head = self.heads[list as usize];
        let first = self.nexts[head as usize];
        if first == head { None } else { Some(first) }
    }

    /// The cell after one in its list.
    pub(crate) fn next(&self, cell: u32) -> Option<u32>
        requires { 0 < in_all cell self.now.lists }
        ensures { (l : ℕ) → 0 < count cell (list_at self.now.lists l) →
            result ≡ first_of (after cell (list_at self.now.lists l)) }
    {
        let list = self.owners[cell as usize]?;
        let head = self.heads[list as usize];
        let next = self.nexts[cell as usize];
        if next == head { None } else { Some(next) }
    }

    /// The list that a cell is in, if it is in one.
    pub(crate) fn owner(&self, cell: u32) -> Option<u32>
        ensures owned { (l : ℕ) → 0 < count cell (list_at self.now.lists l) → result ≡ Some l }
        ensures held { (l : ℕ) → result ≡ Some l → 0 < count cell (list_at self.now.lists l) }
    {
        match self.owners.get(cell as usize) {
            Some(owner) => *owner,
            None => None,
        }
    }
}
