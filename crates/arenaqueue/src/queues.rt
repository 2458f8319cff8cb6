//! Many queues in one arena.

ghost use Rattle.std.specs.Prelude.{◌≡◌, ◌+◌, ◌*◌, ◌<◌, ◌≤◌, ◌≢◌, [], ◌∷◌, ◌++◌, length, drop, slice_get, slice_set, max, IsOk, IfOk, IfNone, OnOk, OnErr, OnSome};
ghost use Rattle.arenaqueue.specs.Numbers.{list_at, counted};

use crate::cells::{
    Cell, Ends, NO_CELL, add, count, first, join, last, next, put, set_first, set_next, value,
};
use std::alloc::{AllocError, Global};
use std::marker::Model;

/// Lists of values, singly linked in one arena: values come in at the back and go out at the front. See the
/// crate's page for an example.
pub struct Queues<T> {
    ends: Vec<Ends>,
    cells: Vec<Cell<T>>,
    // The first of the spare cells, which are linked too.
    free: u32,
    spare: usize,
    work: u64,
}

// By hand: a derived drop is proved again at each exit of a function that owns one.
impl<T: Drop> Drop for Queues<T> {
    fn drop(self) {
        let Queues {
            ends: _,
            cells: _,
            free: _,
            spare: _,
            work: _,
        } = self;
    }
}

impl<T> Model for Queues<T> {
    ghost use Rattle.arenaqueue.specs.Queued.{Queued};
    ghost use Rattle.arenaqueue.specs.inner.Cells.{firsts_of, lasts_of, nexts_of, values_of};
    ghost use Rattle.arenaqueue.specs.inner.Chains.{queues_of, AreQueues};

    ghost Value = { Queued T };

    ghost view = { λ q. record {
      lists = queues_of (firsts_of q.ends.items) (nexts_of q.cells.items) (values_of q.cells.items);
      spare = q.spare;
      work = q.work;
    } };

    ghost invariant = { λ q.
        AreQueues (firsts_of q.ends.items) (lasts_of q.ends.items) (nexts_of q.cells.items) q.free q.spare };
}

impl<T> Queues<T> {
    /// No lists and no nodes yet. This takes no memory.
    pub fn new(alloc: Global) -> Queues<T>
        ensures lists { result.lists ≡ [] }
        ensures spare { result.spare ≡ 0 }
        ensures work { result.work ≡ 0 }
    {
        Queues {
            ends: Vec::new(alloc),
            cells: Vec::new(alloc),
            free: NO_CELL,
            spare: 0,
            work: 0,
        }
    }

    /// Makes an empty list, under a number that no list had before.
    pub fn new_list(&mut self) -> Result<usize, AllocError>
        ensures number { IfOk result (λ list. list ≡ length self.old.lists) }
        ensures lists { OnOk result (self.new.lists ≡ self.old.lists ++ [] ∷ []) }
        ensures spare { self.new.spare ≡ self.old.spare }
        ensures work { self.new.work ≡ self.old.work }
        ensures err { OnErr result (self.new ≡ self.old) }
    {
        self.ends.reserve(1)?;
        let list = self.ends.len();
        self.ends.push_reserved(Ends {
            first: NO_CELL,
            last: NO_CELL,
        });
        Ok(list)
    }

    /// How many nodes are spare.
    #[inline(always)]
    pub fn spare(&self) -> usize
        ensures { result ≡ self.now.spare }
    {
        self.spare
    }

    /// How much was done: 1 for each node put into a list or taken out of one.
    pub fn work(&self) -> u64
        ensures { result ≡ self.now.work }
    {
        self.work
    }

    /// How many lists there are. Their numbers are those below.
    #[inline(always)]
    pub fn list_count(&self) -> usize
        ensures { result ≡ length self.now.lists }
    {
        self.ends.len()
    }

    /// Moves all values of a list after those of another.
    pub fn append(&mut self, to: usize, from: usize)
        requires to { to < length self.old.lists }
        requires from { from < length self.old.lists }
        requires differ { to ≢ from }
        ensures lists { self.new.lists ≡ slice_set (slice_set self.old.lists to
            (list_at self.old.lists to ++ list_at self.old.lists from)) from [] }
        ensures spare { self.new.spare ≡ self.old.spare }
        ensures work { self.new.work ≡ counted self.old.work (2 * length (list_at self.old.lists from)) }
    {
        let cell = first(&self.ends, from);
        if cell == NO_CELL {
            return;
        }
        let moved = count(&self.cells, cell);
        let chain = (cell, last(&self.ends, from));
        set_first(&mut self.ends, from, NO_CELL);
        join(&mut self.ends, &mut self.cells, to, chain);
        self.work = self.work.saturating_add(2 * moved);
    }
}

impl<T: Copy> Queues<T> {
    /// The first value of a list.
    #[inline(always)]
    pub fn front(&self, list: usize) -> Option<T>
        requires { list < length self.now.lists }
        ensures { result ≡ slice_get (list_at self.now.lists list) 0 }
    {
        let foremost = first(&self.ends, list);
        if foremost == NO_CELL {
            return None;
        }
        Some(value(&self.cells, foremost))
    }

    /// Takes the first value out of a list. Its node is spare then.
    #[inline(always)]
    pub fn pop_front(&mut self, list: usize) -> Option<T>
        requires { list < length self.old.lists }
        ensures value { result ≡ slice_get (list_at self.old.lists list) 0 }
        ensures lists { self.new.lists ≡ slice_set self.old.lists list (drop 1 (list_at self.old.lists list)) }
        ensures spare { OnSome result (self.new.spare ≡ self.old.spare + 1) }
        ensures work { OnSome result (self.new.work ≡ counted self.old.work 1) }
        ensures none { IfNone result (self.new ≡ self.old) }
    {
        let cell = first(&self.ends, list);
        if cell == NO_CELL {
            return None;
        }
        set_first(&mut self.ends, list, next(&self.cells, cell));
        set_next(&mut self.cells, cell, self.free);
        self.free = cell;
        self.spare += 1;
        self.work = self.work.saturating_add(1);
        Some(value(&self.cells, cell))
    }

    /// Puts a value at the back of a list, in a spare node.
    #[inline(always)]
    pub fn push_reserved(&mut self, list: usize, value: T)
        requires list { list < length self.old.lists }
        requires room { 0 < self.old.spare }
        ensures lists { self.new.lists ≡
            slice_set self.old.lists list (list_at self.old.lists list ++ value ∷ []) }
        ensures spare { self.new.spare + 1 ≡ self.old.spare }
        ensures work { self.new.work ≡ counted self.old.work 1 }
    {
        let cell = self.free;
        self.free = next(&self.cells, cell);
        put(&mut self.cells, cell, value);
        join(&mut self.ends, &mut self.cells, list, (cell, cell));
        self.spare -= 1;
        self.work = self.work.saturating_add(1);
    }
}

impl<T: Copy + Default> Queues<T> {
    /// Makes spare nodes.
    fn add_nodes(&mut self, more: usize) -> Result<(), AllocError>
        ensures lists { self.new.lists ≡ self.old.lists }
        ensures spare { OnOk result (self.new.spare ≡ self.old.spare + more) }
        ensures work { self.new.work ≡ self.old.work }
        ensures err { OnErr result (self.new ≡ self.old) }
    {
        if more > NO_CELL as usize - self.cells.len() {
            return Err(AllocError);
        }
        self.cells.reserve(more)?;
        for _ in 0..more {
            let cell = self.cells.len() as u32;
            add(&mut self.cells, self.free, T::default());
            self.free = cell;
            self.spare += 1;
        }
        Ok(())
    }

    /// Makes spare nodes where there are fewer than so many.
    #[inline(always)]
    pub fn reserve(&mut self, nodes: usize) -> Result<(), AllocError>
        ensures lists { self.new.lists ≡ self.old.lists }
        ensures spare { OnOk result (self.new.spare ≡ max self.old.spare nodes) }
        ensures work { self.new.work ≡ self.old.work }
        ensures err { OnErr result (self.new ≡ self.old) }
        ensures succeeds { nodes ≤ self.old.spare → IsOk result }
    {
        if nodes <= self.spare {
            return Ok(());
        }
        self.add_nodes(nodes - self.spare)
    }
}
