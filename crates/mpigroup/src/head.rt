//! The head of a run: its ranks, and the group of each of its communicators.
//!
//! The world is kept as a number alone: its group is all ranks in order, and needs no table.

ghost use Rattle.std.specs.Prelude.{ℕ, take, ◌≡◌, ◌≤◌, ◌<◌, Ok, length, slice_get, IfOk, IfErr};
ghost use Rattle.std.specs.List.{range_with_len};
ghost use Rattle.std.specs.Option.{option_copied};
ghost use Rattle.mpigroup.specs.Groups.{group_of, ranks_of, size_of, world_rank_of, group_rank_of};
ghost use Rattle.mpigroup.specs.Heads.{IsGroup};
ghost use Rattle.mpigroup.specs.inner.Heads.{AreSound};
ghost use Rattle.mpigroup.specs.Codes.{IsHeadFaultOf};
ghost use Rattle.mpicall.specs.Lines.{lines_of};
ghost use Rattle.mpigroup.specs.HeadText.{groups_of_lines, read_head};

use crate::fault::{HeadFaultKind, ReadFault};
use crate::group::Group;
pub use crate::limits::DECIDING_BYTES;
use crate::limits::{MOST_COMMS, MOST_RANKS};
use crate::line::{read_group, read_ranks, split_line};
use std::alloc::Global;
use std::marker::Model;

/// The communicators of a run with their groups. Contracts see the list of the groups, the world's
/// first, each an ordered list of world ranks.
pub struct Head {
    ranks: u16,
    /// The groups of communicators 1, 2 and so on; the world's has the ranks in order.
    further: Vec<Group>,
}

// By hand: a derived drop is proved again at each exit of a function that owns one.
impl Drop for Head {
    fn drop(self) {
        let Head {
            ranks: _,
            further: _,
        } = self;
    }
}

impl Model for Head {
    ghost use Rattle.std.specs.Prelude.{◌∷◌, ℕ, List};
    ghost use Rattle.std.specs.List.{range_with_len};
    ghost use Rattle.mpigroup.specs.inner.Heads.{AreSound};

    ghost Value = { List (List ℕ) };

    ghost view = { λ h. range_with_len 0 h.ranks ∷ h.further.items };

    ghost invariant = { λ h. AreSound h.ranks h.further.items };
}

/// The law that a text says what its first [`DECIDING_BYTES`] bytes say.
pub fn front_decides(text: &[u8])
    ensures { read_head (take DECIDING_BYTES text.now) ≡ read_head text.now }
{
    // The contract alone speaks of the text; here it is used.
    let _text = text;
}

/// The groups that the lines after the first give.
fn read_further(alloc: Global, ranks: u16, text: &[u8]) -> Result<Vec<Group>, ReadFault>
    requires least { 1 ≤ ranks }
    requires most { ranks ≤ MOST_RANKS }
    ensures ok { IfOk result (λ groups. groups_of_lines ranks 2 (lines_of text.now) ≡ Ok groups.items) }
    ensures sound { IfOk result (λ groups. AreSound ranks groups.items) }
    ensures fault { IfErr result (IsHeadFaultOf (groups_of_lines ranks 2 (lines_of text.now))) }
{
    let mut groups = Vec::new(alloc);
    let mut number = 2;
    let mut rest = text;
    while let Some((line, behind)) = split_line(rest) {
        groups.push(read_group(alloc, ranks, number, line)?)?;
        number += 1;
        rest = behind;
    }
    Ok(groups)
}

impl Head {
    /// The head that a text gives, or the first fault of the text.
    #[tactic(auto, unfolding(crate::specs::HeadText::read_head))]
    pub fn read(alloc: Global, text: &[u8]) -> Result<Head, ReadFault>
        ensures ok { IfOk result (λ head. read_head text.now ≡ Ok head) }
        ensures fault { IfErr result (IsHeadFaultOf (read_head text.now)) }
    {
        let (first, others) = split_line(text).ok_or(HeadFaultKind::FirstLine.at(1))?;
        let ranks = read_ranks(first).map_err(|kind| kind.at(1))?;
        let further = read_further(alloc, ranks, others)?;
        Ok(Head { ranks, further })
    }

    /// How many ranks the run has, 1 to [`MOST_RANKS`].
    #[inline(always)]
    pub fn ranks(&self) -> u16
        ensures value { result ≡ ranks_of self.now }
        ensures least { 1 ≤ result }
        ensures most { result ≤ MOST_RANKS }
    {
        self.ranks
    }

    /// How many communicators the run has, the world counted.
    pub fn comms(&self) -> u16
        ensures value { result ≡ length self.now }
        ensures most { result ≤ MOST_COMMS }
    {
        self.further.len() as u16 + 1
    }

    /// Communicator 0 has the ranks in order, and each one's group names ranks of the run: one at least,
    /// and none twice. This does nothing: it only says so.
    pub fn groups_are_sound(&self)
        ensures world { group_of self.now 0 ≡ range_with_len 0 (ranks_of self.now) }
        ensures each { (comm : ℕ) → comm < length self.now → IsGroup (ranks_of self.now) (group_of self.now comm) }
    {
        // For the proof: what the type says of the groups is known once one of its fields is read.
        let _further = &self.further;
    }

    /// The group of a communicator that isn't the world, if the run has it.
    fn further_group(&self, comm: u16) -> Option<&Group>
        requires { 0 < comm }
        ensures { option_copied result ≡ slice_get self.now comm }
    {
        self.further.get(usize::from(comm) - 1)
    }

    /// How many members a communicator has; None where there is no such communicator.
    #[inline(always)]
    pub fn size(&self, comm: u16) -> Option<u16>
        ensures { result ≡ size_of self.now comm }
    {
        if comm == 0 {
            return Some(self.ranks);
        }
        Some(self.further_group(comm)?.len())
    }

    /// The rank in the communicator's group of a rank of the world; None where it is no member.
    #[inline(always)]
    pub fn group_rank(&self, comm: u16, world: u16) -> Option<u16>
        ensures { result ≡ group_rank_of self.now comm world }
    {
        if comm == 0 {
            return if world < self.ranks {
                Some(world)
            } else {
                None
            };
        }
        self.further_group(comm)?.rank_of(world)
    }

    /// The world rank of a member of the communicator's group; None where there is no such member.
    #[inline(always)]
    pub fn world_rank(&self, comm: u16, g: u16) -> Option<u16>
        ensures { result ≡ world_rank_of self.now comm g }
    {
        if comm == 0 {
            return if g < self.ranks { Some(g) } else { None };
        }
        self.further_group(comm)?.member(g)
    }
}
