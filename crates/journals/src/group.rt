//! Whether a group can be that of a communicator that is made of a parent.
//!
//! Each rank of the run has a mark, so a group is compared with its parent's in one pass over each. The marks
//! are used again for each group, so that a line with a group takes no memory.

ghost use Rattle.std.specs.Prelude.{◌≡◌, ◌<◌, ◌&&◌, ◌||◌, true, ℕ, if◌then◌else◌, IfOk, slice_set};
ghost use Rattle.std.specs.List.{list_all};
ghost use Rattle.journals.specs.Known.{is_among, are_distinct};
ghost use Rattle.journals.specs.inner.Naturals.{naturals, each_once, AreMembers};
ghost use Rattle.journals.specs.inner.Marks.{ranks_in, mark_at, is_in_parent, is_in_both, members_of};
ghost use Rattle.journals.specs.declared.group.Mark.TheVariants.{Outside, InParent};

use crate::field::Field;
use std::alloc::{AllocError, Global};

/// Whether a rank is in one of two groups.
#[derive(Clone, Copy, PartialEq, Eq)]
enum Mark {
    Outside,
    /// In the group of the parent alone.
    InParent,
    /// In both.
    InBoth,
}

/// A mark for each rank of the run.
#[derive(Drop)]
pub(crate) struct Marks {
    marks: Vec<Mark>,
}

/// The group of a communicator.
#[derive(Clone, Copy)]
pub(crate) enum GroupOf<'a> {
    World,
    /// That of the rank alone.
    Alone(u32),
    Members(&'a [Field]),
}

impl Marks {
    pub(crate) fn new(alloc: Global, ranks: u32) -> Result<Marks, AllocError>
        ensures { IfOk result (λ marks. ranks_in marks ≡ ranks) }
    {
        Ok(Marks {
            marks: vec![in alloc; Mark::Outside; ranks as usize]?,
        })
    }

    fn set_all(&mut self, mark: Mark)
        ensures ranks { ranks_in self.new ≡ ranks_in self.old }
        ensures marks { (rank : ℕ) → rank < ranks_in self.old → mark_at self.new rank ≡ mark }
    {
        for rank in 0..self.marks.len() {
            self.marks[rank] = mark;
        }
    }

    fn set(&mut self, rank: u32, mark: Mark)
        ensures { self.new.marks.items ≡ slice_set self.old.marks.items rank mark }
    {
        if (rank as usize) < self.marks.len() {
            self.marks[rank as usize] = mark;
        }
    }

    fn get(&self, rank: u32) -> Mark
        ensures { result ≡ mark_at self.now rank }
    {
        match self.marks.get(rank as usize) {
            Some(mark) => *mark,
            None => Mark::Outside,
        }
    }

    fn mark_members(&mut self, mut members: &[Field])
        ensures ranks { ranks_in self.new ≡ ranks_in self.old }
        ensures marks { (rank : ℕ) → rank < ranks_in self.old → mark_at self.new rank
            ≡ (if is_among rank (naturals members.entry.now) then InParent else mark_at self.old rank) }
    {
        while let [member, rest @ ..] = members {
            if let Field::Natural(rank) = *member {
                self.set(rank.get(), Mark::InParent);
            }
            members = rest;
        }
    }

    fn mark_parent(&mut self, parent: GroupOf<'_>)
        ensures ranks { ranks_in self.new ≡ ranks_in self.old }
        ensures marks { (rank : ℕ) → rank < ranks_in self.old → mark_at self.new rank
            ≡ (if is_among rank (members_of (ranks_in self.old) parent.entry)
            then InParent else mark_at self.old rank) }
    {
        match parent {
            GroupOf::World => self.set_all(Mark::InParent),
            GroupOf::Alone(rank) => self.set(rank, Mark::InParent),
            GroupOf::Members(members) => self.mark_members(members),
        }
    }

    /// Marks the members of a group that are in the parent's; says whether each is, and no rank is named
    /// twice.
    fn mark_group(&mut self, mut group: &[Field]) -> bool
        requires { AreMembers (ranks_in self.old) group.now }
        ensures ranks { ranks_in self.new ≡ ranks_in self.old }
        ensures value { result
            ≡ each_once (λ rank. is_in_parent (mark_at self.old rank)) (naturals group.entry.now) }
        ensures marks { result ≡ true → (rank : ℕ) → is_in_both (mark_at self.new rank)
            ≡ (is_in_both (mark_at self.old rank) || is_among rank (naturals group.entry.now)) }
    {
        while let [member, rest @ ..] = group {
            let Field::Natural(rank) = *member else {
                return false;
            };
            let rank = rank.get();
            if self.get(rank) != Mark::InParent {
                return false;
            }
            self.set(rank, Mark::InBoth);
            group = rest;
        }
        true
    }

    /// Whether a group names this rank and no rank twice, and only such that are in the parent's.
    pub(crate) fn is_group(&mut self, rank: u32, parent: GroupOf<'_>, group: &[Field]) -> bool
        requires { AreMembers (ranks_in self.old) group.now }
        ensures ranks { ranks_in self.new ≡ ranks_in self.old }
        ensures value { result ≡ (are_distinct (naturals group.now) && is_among rank (naturals group.now)
            && list_all (λ member. is_among member (members_of (ranks_in self.old) parent.entry))
            (naturals group.now)) }
    {
        self.set_all(Mark::Outside);
        self.mark_parent(parent);
        self.mark_group(group) && matches!(self.get(rank), Mark::InBoth)
    }
}
