//! Many lists in one arena.

ghost use Rattle.std.specs.Prelude.{◌≡◌, ◌+◌, ◌-◌, ◌*◌, ◌<◌, ◌≤◌, ◌≢◌, ◌↔◌, ℕ, [], ◌∷◌, ◌++◌, length, drop, slice_set, max, Some, None, IsSome, IsOk, IfOk, IfErr, IfSome, IfNone, OnOk, OnErr, OnSome};
ghost use Rattle.std.specs.Option.{ForSome};
ghost use Rattle.std.specs.Borrow.{sem};
ghost use Rattle.std.specs.Vec.{vec_capacity};
ghost use Rattle.arenalist.specs.Lends.{lends_value};
ghost use Rattle.arenalist.specs.inner.Lends.{lends_slot};
ghost use Rattle.arenaqueue.specs.Numbers.{list_at, counted};
ghost use Rattle.arenalist.specs.Arena.{value_at, HasNode, IsLinked, times, first_node, first_value, behind, unlinked, linked, spliced, IsFirst};

use crate::links::Links;
use crate::node::{ListId, Node};
use std::alloc::{AllocError, AllocFailed, Global};
use std::marker::Model;

/// Makes room for more values, and for all cells among the free ones.
fn reserve_slots<T>(
    values: &mut Vec<Option<T>>,
    free: &mut Vec<u32>,
    more: usize,
) -> Result<(), AllocError>
    requires { length free.old.items ≤ length values.old.items }
    ensures values { values.new.items ≡ values.old.items }
    ensures free { free.new.items ≡ free.old.items }
    ensures capacity { vec_capacity free.old ≤ vec_capacity free.new }
    ensures values_room { OnOk result (length values.old.items + more ≤ vec_capacity values.new) }
    ensures free_room { OnOk result (length values.old.items + more ≤ vec_capacity free.new) }
{
    values.reserve(more)?;
    let lacking = values.len() - free.len();
    free.reserve(lacking.saturating_add(more))?;
    Ok(())
}

/// The value in a slot that has one.
fn value_mut<T>(slot: &mut Option<T>) -> &mut T
    requires { IsSome slot.old }
    ensures* writes_back { sem 𝓛 (lends_slot T.row slot.entry result) }
    ensures value { slot.old ≡ Some result.now }
{
    match slot {
        Some(value) => value,
        None => unreachable!(),
    }
}

/// Lists of values, doubly linked in one arena. See the crate's page for an example.
pub struct Lists<T> {
    links: Links,
    // The value of each cell that is in a list.
    values: Vec<Option<T>>,
    // The spare nodes, with room for all cells, so that giving one back takes no memory.
    free: Vec<u32>,
    work: u64,
}

// By hand: a derived drop is proved again at each exit of a function that owns one.
impl<T: Drop> Drop for Lists<T> {
    fn drop(self) {
        let Lists {
            links: _,
            values: _,
            free: _,
            work: _,
        } = self;
    }
}

impl<T> Model for Lists<T> {
    ghost use Rattle.std.specs.Prelude.{length};
    ghost use Rattle.std.specs.Vec.{vec_capacity};
    ghost use Rattle.arenalist.specs.Arena.{Arena};
    ghost use Rattle.arenalist.specs.inner.Slots.{entries_of, IsArena};

    ghost Value = { Arena T };

    ghost view = { λ a. record {
      lists = entries_of a.values.items a.links.lists;
      spare = length a.free.items;
      work = a.work;
    } };

    ghost invariant = { λ a.
        IsArena a.links.heads a.links.lists a.links.cells a.values.items a.free.items (vec_capacity a.free) };
}

impl<T> Lists<T> {
    /// No lists and no nodes yet. This takes no memory.
    pub fn new(alloc: Global) -> Lists<T>
        ensures lists { result.lists ≡ [] }
        ensures spare { result.spare ≡ 0 }
        ensures work { result.work ≡ 0 }
    {
        Lists {
            links: Links::new(alloc),
            values: Vec::new(alloc),
            free: Vec::new(alloc),
            work: 0,
        }
    }

    /// Makes an empty list, under a number that no list had before.
    pub fn new_list(&mut self) -> Result<ListId, AllocError>
        ensures number { IfOk result (λ list. list ≡ length self.old.lists) }
        ensures lists { OnOk result (self.new.lists ≡ self.old.lists ++ [] ∷ []) }
        ensures spare { self.new.spare ≡ self.old.spare }
        ensures work { self.new.work ≡ self.old.work }
        ensures err { OnErr result (self.new ≡ self.old) }
    {
        reserve_slots(&mut self.values, &mut self.free, 1)?;
        let list = self.links.add_list()?;
        self.values.push_reserved(None);
        Ok(ListId::new(list))
    }

    /// Makes spare nodes where there are fewer than so many.
    #[inline(always)]
    pub fn reserve(&mut self, nodes: usize) -> Result<(), AllocError>
        ensures lists { self.new.lists ≡ self.old.lists }
        ensures spare { OnOk result (self.new.spare ≡ max self.old.spare nodes) }
        ensures work { self.new.work ≡ self.old.work }
        ensures err { OnErr result (self.new ≡ self.old) }
        ensures succeeds { nodes ≤ self.old.spare → IsOk result }
    {
        let spare = self.free.len();
        if nodes <= spare {
            return Ok(());
        }
        let more = nodes - spare;
        reserve_slots(&mut self.values, &mut self.free, more)?;
        let first = self.links.add_cells(more)?;
        for cell in first..first + more as u32 {
            self.values.push_reserved(None);
            self.free.push_reserved(cell);
        }
        Ok(())
    }

    /// How many nodes are spare.
    pub fn spare(&self) -> usize
        ensures { result ≡ self.now.spare }
    {
        self.free.len()
    }

    /// How much was done: 1 for each node put into a list or taken out of one.
    pub fn work(&self) -> u64
        ensures { result ≡ self.now.work }
    {
        self.work
    }

    /// The first node of a list.
    #[inline(always)]
    pub fn first(&self, list: ListId) -> Option<Node>
        requires { list < length self.now.lists }
        ensures node { result ≡ first_node (list_at self.now.lists list) }
        ensures first { IfSome result (λ node. IsFirst self.now.lists list node) }
    {
        match self.links.first(list.number()) {
            Some(node) => Some(Node::new(node)),
            None => None,
        }
    }

    /// The node after one in its list.
    pub fn next(&self, node: Node) -> Option<Node>
        requires { IsLinked self.now.lists node }
        ensures { (l : ℕ) → HasNode (list_at self.now.lists l) node →
            result ≡ first_node (behind (list_at self.now.lists l) node) }
    {
        match self.links.next(node.number()) {
            Some(node) => Some(Node::new(node)),
            None => None,
        }
    }

    /// How many lists there are. Their numbers are those below.
    #[inline(always)]
    pub fn list_count(&self) -> usize
        ensures { result ≡ length self.now.lists }
    {
        self.links.list_count()
    }

    /// The list of that number.
    #[inline(always)]
    pub fn list(&self, number: usize) -> ListId
        requires { number < length self.now.lists }
        ensures { result ≡ number }
    {
        ListId::new(self.links.list(number))
    }

    /// The list that a node is in, and None for a spare node.
    pub fn list_of(&self, node: Node) -> Option<ListId>
        ensures linked { IsSome result ↔ IsLinked self.now.lists node }
        ensures standing { (l : ℕ) → HasNode (list_at self.now.lists l) node → result ≡ Some l }
        ensures found { IfSome result (λ list. HasNode (list_at self.now.lists list) node) }
    {
        match self.links.owner(node.number()) {
            Some(list) => Some(ListId::new(list)),
            None => None,
        }
    }

    /// The value at a node.
    pub fn get(&self, node: Node) -> &T
        requires { IsLinked self.now.lists node }
        ensures { value_at self.now.lists node ≡ Some result.now }
    {
        self.values[node.number() as usize].as_ref().unwrap()
    }

    /// The value at a node, to be changed.
    pub fn get_mut(&mut self, node: Node) -> &mut T
        requires { IsLinked self.old.lists node }
        ensures* writes_back { sem 𝓛 (lends_value T.row self.entry node result) }
        ensures value { value_at self.old.lists node ≡ Some result.now }
    {
        let cell = node.number();
        value_mut(&mut self.values[cell as usize])
    }

    /// No node is in two lists, or in one twice. A law: it does nothing.
    pub fn nodes_stand_once(&self)
        ensures { (n : ℕ) → times self.now.lists n ≤ 1 }
    {
        // For the proof: what the type says of the lists is known once one of its fields is read.
        let _links = &self.links;
    }

    /// Takes a node out of its list, and answers its value. The node is spare then.
    #[inline(always)]
    pub fn unlink(&mut self, node: Node) -> T
        requires { IsLinked self.old.lists node }
        ensures value { value_at self.old.lists node ≡ Some result }
        ensures lists { self.new.lists ≡ unlinked self.old.lists node }
        ensures spare { self.new.spare ≡ self.old.spare + 1 }
        ensures work { self.new.work ≡ counted self.old.work 1 }
    {
        let cell = node.number();
        self.links.unlink(cell);
        self.free.push_reserved(cell);
        self.work = self.work.saturating_add(1);
        self.values[cell as usize].take().unwrap()
    }

    /// Takes the first node out of a list, and answers its value.
    #[inline(always)]
    pub fn pop_front(&mut self, list: ListId) -> Option<T>
        requires { list < length self.old.lists }
        ensures value { result ≡ first_value (list_at self.old.lists list) }
        ensures lists { self.new.lists ≡ slice_set self.old.lists list (drop 1 (list_at self.old.lists list)) }
        ensures spare { OnSome result (self.new.spare ≡ self.old.spare + 1) }
        ensures work { OnSome result (self.new.work ≡ counted self.old.work 1) }
        ensures none { IfNone result (self.new ≡ self.old) }
    {
        match self.first(list) {
            Some(node) => Some(self.unlink(node)),
            None => None,
        }
    }

    /// Moves a node to the back of a list, which may be its own. It keeps its number and its value.
    pub fn move_back(&mut self, node: Node, list: ListId)
        requires node { IsLinked self.old.lists node }
        requires list { list < length self.old.lists }
        ensures lists { ForSome (value_at self.old.lists node) (λ value.
            self.new.lists ≡ linked (unlinked self.old.lists node) list node value) }
        ensures spare { self.new.spare ≡ self.old.spare }
        ensures work { self.new.work ≡ counted self.old.work 2 }
    {
        let moved = node.number();
        self.links.unlink(moved);
        self.links.link(list.number(), moved);
        self.work = self.work.saturating_add(2);
    }

    /// Moves all nodes of a list after those of another. They keep their numbers and values.
    pub fn append(&mut self, to: ListId, from: ListId)
        requires to { to < length self.old.lists }
        requires from { from < length self.old.lists }
        requires differ { to ≢ from }
        ensures lists { self.new.lists ≡ spliced self.old.lists to from }
        ensures spare { self.new.spare ≡ self.old.spare }
        ensures work { self.new.work ≡ counted self.old.work (2 * length (list_at self.old.lists from)) }
    {
        let moved = self.links.splice(to.number(), from.number());
        self.work = self.work.saturating_add(2 * moved);
    }
}

impl<T: Drop> Lists<T> {
    /// Puts a value at the back of a list, in a spare node, and answers the node.
    #[inline(always)]
    pub fn push_reserved(&mut self, list: ListId, value: T) -> Node
        requires list { list < length self.old.lists }
        requires room { 0 < self.old.spare }
        ensures fresh { value_at self.old.lists result ≡ None }
        ensures lists { self.new.lists ≡ linked self.old.lists list result value }
        ensures spare { self.new.spare + 1 ≡ self.old.spare }
        ensures work { self.new.work ≡ counted self.old.work 1 }
    {
        let cell = self.free.pop().unwrap();
        self.values[cell as usize] = Some(value);
        self.links.link(list.number(), cell);
        self.work = self.work.saturating_add(1);
        Node::new(cell)
    }

    /// Puts a value at the back of a list, in a spare node or in a new one, and answers the node.
    /// Where memory is refused the value comes back, and nothing else changes.
    pub fn push_back(&mut self, list: ListId, value: T) -> Result<Node, AllocFailed<T>>
        requires { list < length self.old.lists }
        ensures fresh { IfOk result (λ node. value_at self.old.lists node ≡ None) }
        ensures lists { IfOk result (λ node. self.new.lists ≡ linked self.old.lists list node value) }
        ensures spare { OnOk result (self.new.spare ≡ self.old.spare - 1) }
        ensures work { OnOk result (self.new.work ≡ counted self.old.work 1) }
        ensures err { OnErr result (self.new ≡ self.old) }
        ensures returned { IfErr result (λ failed. failed.value ≡ value) }
        ensures succeeds { 0 < self.old.spare → IsOk result }
    {
        if self.spare() == 0 && self.reserve(1).is_err() {
            return Err(AllocFailed { value });
        }
        Ok(self.push_reserved(list, value))
    }
}
