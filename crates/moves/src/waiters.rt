//! Ranks to look at, and ranks that wait.
//!
//! There is a list for each rank and each communicator, and the worklist, all in one arena. A rank that
//! waits for the partner of a message is in its own list, whether the partner has come or not; one that
//! waits for a wave is in its communicator's. When a call is reached, `partner` names the rank to wake, and
//! its list is appended to the worklist. All that wait for a communicator wake when one of its waves is
//! complete; those that wait for a later wave look once and wait again.
//!
//! A rank at a probe is found by the destination of a send that is reached, so probes are never searched
//! for.

ghost use Rattle.std.specs.Prelude.{◌≡◌, ◌+◌, ◌<◌, ◌≤◌, [], length, drop, replicate, slice_get, slice_set, IfOk, IfNone, OnOk, OnSome};
ghost use Rattle.arenaqueue.specs.Numbers.{list_at, counted};
ghost use Rattle.moves.specs.inner.Waiting.{own_list, comm_list, woken, with_rank, with_awaited, woken_at};

use arenaqueue::queues::Queues;
use std::alloc::{AllocError, Global};
use std::marker::Model;

/// The worklist, a list for each rank, where it waits for a partner, and one for each communicator, for the
/// ranks that wait for its waves. A rank is in one list at most.
pub(crate) struct Waiters {
    lists: Queues<u16>,
    awaited: Vec<u32>,
}

// By hand: a derived drop is proved again at each exit of a function that owns one.
impl Drop for Waiters {
    fn drop(self) {
        let Waiters {
            lists: _,
            awaited: _,
        } = self;
    }
}

impl Model for Waiters {
    ghost use Rattle.std.specs.Prelude.{length, ◌≤◌, ◌+◌};
    ghost use Rattle.moves.specs.inner.Waiting.{WaitLists};

    ghost Value = { WaitLists };

    ghost view = { λ w. record { lists = w.lists.lists; spare = w.lists.spare; work = w.lists.work; awaited = w.awaited.items } };

    ghost invariant = { λ w. 1 + length w.awaited.items ≤ length w.lists.lists };
}

/// Makes so many lists.
fn make_lists(lists: &mut Queues<u16>, count: usize) -> Result<(), AllocError>
    requires { lists.old.lists ≡ [] }
    ensures lists { OnOk result (lists.new.lists ≡ replicate count []) }
    ensures spare { OnOk result (lists.new.spare ≡ lists.old.spare) }
    ensures work { OnOk result (lists.new.work ≡ lists.old.work) }
{
    for _number in 0..count {
        lists.new_list()?;
    }
    Ok(())
}

impl Waiters {
    /// No rank waits or is to be looked at.
    pub(crate) fn new(alloc: Global, ranks: u16, comms: u16) -> Result<Waiters, AllocError>
        ensures lists { IfOk result (λ waiters. waiters.lists ≡ replicate (1 + ranks + comms) []) }
        ensures spare { IfOk result (λ waiters. waiters.spare ≡ ranks) }
        ensures work { IfOk result (λ waiters. waiters.work ≡ 0) }
        ensures awaited { IfOk result (λ waiters. waiters.awaited ≡ replicate ranks 0) }
    {
        let mut lists = Queues::new(alloc);
        make_lists(&mut lists, 1 + usize::from(ranks) + usize::from(comms))?;
        lists.reserve(usize::from(ranks))?;
        let awaited = vec![in alloc; 0u32; usize::from(ranks)]?;
        Ok(Waiters { lists, awaited })
    }

    /// How much was done in the lists.
    pub(crate) fn work(&self) -> u64
        ensures { result ≡ self.now.work }
    {
        self.lists.work()
    }

    /// Takes the next rank to look at off the worklist.
    #[inline(always)]
    pub(crate) fn next(&mut self) -> Option<u16>
        requires { 0 < length self.old.lists }
        ensures value { result ≡ slice_get (list_at self.old.lists 0) 0 }
        ensures lists { self.new.lists ≡ slice_set self.old.lists 0 (drop 1 (list_at self.old.lists 0)) }
        ensures spare { OnSome result (self.new.spare ≡ self.old.spare + 1) }
        ensures work { OnSome result (self.new.work ≡ counted self.old.work 1) }
        ensures awaited { self.new.awaited ≡ self.old.awaited }
        ensures none { IfNone result (self.new ≡ self.old) }
    {
        self.lists.pop_front(0)
    }

    /// Puts a rank into a list, where there is room.
    #[inline(always)]
    fn put(&mut self, list: usize, rank: u16)
        requires list { list < length self.old.lists }
        requires room { 0 < self.old.spare }
        ensures { self.new ≡ with_rank self.old list rank }
    {
        self.lists.push_reserved(list, rank);
    }

    /// The place of the operation for whose partner the rank waits, or waited last, or of the probe at which it does.
    #[inline(always)]
    pub(crate) fn awaited(&self, rank: u16) -> Option<u32>
        ensures { result ≡ slice_get self.now.awaited rank }
    {
        self.awaited.get(usize::from(rank)).copied()
    }

    /// Links a rank where it waits for the partner of its operation at the place, or for the send that its probe
    /// there sees.
    #[inline(always)]
    pub(crate) fn wait_for_partner(&mut self, rank: u16, place: u32)
        requires is_rank { rank < length self.old.awaited }
        requires room { 0 < self.old.spare }
        ensures { self.new ≡ with_rank (with_awaited self.old rank place) (own_list rank) rank }
    {
        self.awaited[usize::from(rank)] = place;
        self.put(1 + usize::from(rank), rank);
    }

    /// Links a rank where it waits for a wave of the communicator.
    #[inline(always)]
    pub(crate) fn wait_for_wave(&mut self, rank: u16, comm: u16)
        requires list { comm_list (length self.old.awaited) comm < length self.old.lists }
        requires room { 0 < self.old.spare }
        ensures { self.new ≡ with_rank self.old (comm_list (length self.old.awaited) comm) rank }
    {
        let list = 1 + self.awaited.len() + usize::from(comm);
        self.put(list, rank);
    }

    /// Puts the ranks of a list onto the worklist.
    fn wake(&mut self, list: usize)
        requires later { 0 < list }
        requires list { list < length self.old.lists }
        ensures { self.new ≡ woken self.old list }
    {
        self.lists.append(0, list);
    }

    /// Wakes a rank if it waits for the partner of its operation at the place, or for the send that its probe there
    /// sees.
    #[inline(always)]
    pub(crate) fn wake_rank(&mut self, rank: u16, place: u32)
        ensures { self.new ≡ woken_at self.old (rank, place) }
    {
        if self.awaited.get(usize::from(rank)).copied() == Some(place) {
            self.wake(1 + usize::from(rank));
        }
    }

    /// Wakes the ranks that wait for the waves of a communicator.
    #[inline(always)]
    pub(crate) fn wake_comm(&mut self, comm: u16)
        requires { comm_list (length self.old.awaited) comm < length self.old.lists }
        ensures { self.new ≡ woken self.old (comm_list (length self.old.awaited) comm) }
    {
        let list = 1 + self.awaited.len() + usize::from(comm);
        self.wake(list);
    }
}
