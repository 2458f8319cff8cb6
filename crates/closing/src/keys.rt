//! How communicators came to be: two are the same exactly if their keys are equal.

ghost use Rattle.std.specs.Prelude.{◌≡◌, ◌<◌, ◌≤◌, ◌++◌, ℕ, List, [], ◌∷◌, length, map, IfOk, OnOk, Some, slice_get};
ghost use Rattle.std.specs.List.{range_with_len};
ghost use Rattle.closing.specs.Called.{naturals_in};
ghost use Rattle.closing.specs.Keys.{Alone, group_of_key};
ghost use Rattle.closing.specs.Keys as say;
ghost use Rattle.closing.specs.Table.{group_at, group_place};
ghost use Rattle.closing.specs.inner.Table.{Grows, HasGroup, HasKey, IsPlaced, IsSameOrMore, IsTable, key_of, keys_in, ranks_in};

use crate::places::checked_place;
use indexmap::IndexSet;
use journals::field::Field;
use std::alloc::{AllocError, Global};
use std::marker::Model;

/// A call on a communicator of which each of its members makes one: the place of the communicator's key, and
/// how many such calls the rank made on it before.
#[derive(Clone, Copy, PartialEq, Eq, Hash)]
pub(crate) struct Wave {
    pub parent: u32,
    pub count: u32,
}

/// How a communicator came to be. A group stands by its place among all groups.
#[derive(Clone, Copy, PartialEq, Eq, Hash)]
pub(crate) enum Key {
    World,
    /// A rank alone.
    Alone { rank: u32, group: u32 },
    /// By a call of all members of its parent.
    Made { wave: Wave, group: u32 },
    /// Likewise by a nonblocking duplicate.
    Duplicated { wave: Wave, group: u32 },
    /// By a call of the members of a group, of which so many came before.
    OfGroup { group: u32, count: u32 },
    /// By what no call line says; so many of the group came before.
    Apart { group: u32, count: u32 },
}

/// The place of the world's key.
pub(crate) const WORLD: u32 = 0;

/// The place of the world's group.
const ALL: u32 = 0;

/// The keys of all communicators of a run, each once, and their groups. A key, and a group, stands by its
/// place.
#[derive(Drop)]
pub(crate) struct Keys {
    alloc: Global,
    groups: IndexSet<Vec<u32>>,
    keys: IndexSet<Key>,
    /// The group that is looked up.
    members: Vec<u32>,
}

impl Model for Keys {
    ghost use Rattle.std.specs.Prelude.{map};
    ghost use Rattle.closing.specs.Table.{Table};

    ghost Value = { Table };

    ghost view = { λ k. record { codes = k.keys.keys; groups = map (λ group. group.items) k.groups.keys } };
}

/// Adds the number of a field at the end of a list, if it is one.
fn push_natural(into: &mut Vec<u32>, field: Field) -> Result<(), AllocError>
    ensures { OnOk result (into.new.items ≡ into.old.items ++ naturals_in (field ∷ [])) }
{
    if let Field::Natural(number) = field {
        into.push(number.get())?;
    }
    Ok(())
}

/// Adds the numbers of some fields at the end of a list.
fn push_naturals(into: &mut Vec<u32>, fields: &[Field]) -> Result<(), AllocError>
    ensures { OnOk result (into.new.items ≡ into.old.items ++ naturals_in fields.now) }
{
    for field in fields {
        push_natural(into, *field)?;
    }
    Ok(())
}

/// Adds all ranks of a run at the end of a list.
#[tactic(auto, using(crate::proofs::PlaceListLemmas::ranks_step))]
fn push_ranks(into: &mut Vec<u32>, ranks: u32) -> Result<(), AllocError>
    ensures { OnOk result (into.new.items ≡ into.old.items ++ range_with_len 0 ranks) }
{
    for rank in 0..ranks {
        into.push(rank)?;
    }
    Ok(())
}

/// The place of a group among some, to which it is added if it isn't there.
fn put_group(
    alloc: Global,
    groups: &mut IndexSet<Vec<u32>>,
    members: &[u32],
) -> Result<u32, AllocError>
    ensures more { IsSameOrMore members.now (map (λ group. group.items) groups.old.keys) (map (λ group. group.items) groups.new.keys) }
    ensures value { IfOk result (λ place. slice_get (map (λ group. group.items) groups.new.keys) place ≡ Some members.now) }
{
    if let Some(place) = groups.get_index_of(members) {
        return checked_place(place);
    }
    let group = Vec::from_slice(alloc, members)?;
    let (place, _) = groups.insert_full(group)?;
    checked_place(place)
}

/// The place of a key among some, to which it is added if it isn't there.
fn put_key(keys: &mut IndexSet<Key>, key: Key) -> Result<u32, AllocError>
    ensures more { IsSameOrMore key keys.old.keys keys.new.keys }
    ensures value { IfOk result (λ place. slice_get keys.new.keys place ≡ Some key) }
{
    let (place, _) = keys.insert_full(key)?;
    checked_place(place)
}

impl Keys {
    /// The key of the world alone, in a run of so many ranks.
    pub(crate) fn new(alloc: Global, ranks: u32) -> Result<Keys, AllocError>
        ensures table { IfOk result (λ keys. IsTable keys) }
        ensures ranks { IfOk result (λ keys. ranks_in keys ≡ ranks) }
        ensures one { IfOk result (λ keys. length keys.codes ≡ 1) }
    {
        let mut groups = IndexSet::new(alloc);
        let mut members = Vec::new(alloc);
        push_ranks(&mut members, ranks)?;
        put_group(alloc, &mut groups, &members)?;
        let mut keys = IndexSet::new(alloc);
        put_key(&mut keys, Key::World)?;
        Ok(Keys {
            alloc,
            groups,
            keys,
            members,
        })
    }

    /// The place of a group.
    pub(crate) fn place_of_group(&mut self, members: &[Field]) -> Result<u32, AllocError>
        ensures codes { self.new.codes ≡ self.old.codes }
        ensures grows { OnOk result (IsTable self.old → Grows self.old self.new) }
        ensures value { IfOk result (λ place. HasGroup self.new place (naturals_in members.now)) }
    {
        self.members.clear();
        push_naturals(&mut self.members, members)?;
        let group = put_group(self.alloc, &mut self.groups, &self.members)?;
        Ok(group)
    }

    /// The place of a key.
    pub(crate) fn put(&mut self, key: Key) -> Result<u32, AllocError>
        ensures grows { OnOk result (IsTable self.old → IsPlaced self.old.groups (length self.old.codes) key → Grows self.old self.new) }
        ensures value { IfOk result (λ place. IsTable self.old → IsPlaced self.old.groups (length self.old.codes) key →
            HasKey self.new place (key_of self.old.groups (keys_in self.old) key)) }
    {
        let place = put_key(&mut self.keys, key)?;
        Ok(place)
    }

    /// The place of the key of a rank alone.
    pub(crate) fn put_alone(&mut self, rank: u32) -> Result<u32, AllocError>
        ensures grows { OnOk result (IsTable self.old → Grows self.old self.new) }
        ensures value { IfOk result (λ place. IsTable self.old → HasKey self.new place (Alone rank)) }
    {
        self.members.clear();
        self.members.push(rank)?;
        let group = put_group(self.alloc, &mut self.groups, &self.members)?;
        let place = self.put(Key::Alone { rank, group })?;
        Ok(place)
    }

    /// How many there are.
    pub(crate) fn count(&self) -> usize
        ensures { result ≡ length self.now.codes }
    {
        self.keys.len()
    }

    /// The key at a place; that of the world beyond all.
    pub(crate) fn key(&self, place: u32) -> Key
        ensures { place < length self.now.codes → slice_get self.now.codes place ≡ Some result }
    {
        match self.keys.get_index(place as usize) {
            Some(key) => *key,
            None => Key::World,
        }
    }

    /// The members of the communicator whose key has a place, as ranks of the world in their order; none
    /// beyond all.
    pub(crate) fn group(&self, place: u32) -> &[u32]
        ensures value { (it : say.Key) → IsTable self.now → HasKey self.now place it → result.now ≡ group_of_key (ranks_in self.now) it }
        ensures none { length self.now.codes ≤ place → result.now ≡ [] }
        ensures at { result.now ≡ group_at self.now place }
    {
        let Some(key) = self.keys.get_index(place as usize) else {
            return &[];
        };
        match self.groups.get_index(group_place(*key) as usize) {
            Some(members) => members.as_slice(),
            None => &[],
        }
    }
}

/// The place of the group of a key.
fn group_place(key: Key) -> u32
    ensures { result ≡ group_place key }
{
    match key {
        Key::World => ALL,
        Key::Alone { group, .. }
        | Key::Made { group, .. }
        | Key::Duplicated { group, .. }
        | Key::OfGroup { group, .. }
        | Key::Apart { group, .. } => group,
    }
}
