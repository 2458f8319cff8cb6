//! How far the waves are: which of them are complete where the ranks stand.
//!
//! The waves of a communicator become complete in their order. So it is enough to know how many are, and
//! how many members, from the first of the group on, have reached their call of the next one. A rank
//! changes something only if it is the next member that is missing; then the members after it are asked in
//! turn. So members are asked at most three times for each call in a wave.

ghost use Rattle.std.specs.Prelude.{◌≡◌, ◌≢◌, ◌+◌, ◌<◌, ◌≤◌, ◌↔◌, ℕ, Some, None, true, false, length, replicate, slice_index, IfOk, IfSome};
ghost use Rattle.mpigroup.specs.Groups.{group_of, world_rank_of};
ghost use Rattle.callstore.specs.Limits.{most_calls};
ghost use Rattle.callstore.specs.Waves.{wave_of};
ghost use Rattle.moves.specs.Needs.{member_need, is_met};
ghost use Rattle.moves.specs.inner.Waiting.{complete_of, met_of, is_open, open_wave_by, AreWaves, IsNoException};

use crate::need::{is_met, member_need, members};
use mpigroup::head::Head;
use pairing::pairs::Pairs;
use std::alloc::{AllocError, Global};

/// How far the waves of each communicator are: how many are complete, the first ones, and how many members,
/// from the first on, have reached their calls of the next one. So a look at a wave is a look at one number.
/// That number only rises within a wave, and each member is passed once and looked at twice for it at most, so
/// members are looked at no more than three times for each call in a wave. `changes` counts how often one of these
/// numbers was changed for a call that was reached.
pub(crate) struct Progress {
    pub complete: Vec<u32>,
    pub met: Vec<u16>,
    pub changes: u64,
}

// By hand: a derived drop is proved again at each exit of a function that owns one.
impl Drop for Progress {
    fn drop(self) {
        let Progress {
            complete: _,
            met: _,
            changes: _,
        } = self;
    }
}

/// The first member, from the one with that rank in the group on, that has not reached its call of the wave;
/// the number of members where each has.
fn next_missing(pairs: &Pairs, stands: &[u32], comm: u16, wave: u32, from: u16) -> u16
    requires { from ≤ length (group_of pairs.now.groups comm) }
    ensures least { from ≤ result }
    ensures most { result ≤ length (group_of pairs.now.groups comm) }
    ensures met { (g member : ℕ) → from ≤ g → g < result → world_rank_of pairs.now.groups comm g ≡ Some member → is_met stands.now (member_need pairs.now.recording comm wave member) ≡ true }
    ensures missing { (member : ℕ) → world_rank_of pairs.now.groups comm result ≡ Some member → is_met stands.now (member_need pairs.now.recording comm wave member) ≡ false }
{
    let head = pairs.head();
    let members = members(pairs, comm);
    for g in from..members {
        if let Some(member) = head.world_rank(comm, g) {
            if !is_met(stands, &member_need(pairs, comm, wave, g, member)) {
                return g;
            }
        }
    }
    members
}

/// The first member, from the one with that rank in the group on, that has not reached its call of the wave;
/// the number of members where each has. Most often it is the one with that rank, which is so looked at here; where
/// it has reached its call, the search begins with it once more.
#[inline(always)]
fn next_missing_at_once(pairs: &Pairs, stands: &[u32], comm: u16, wave: u32, from: u16) -> u16
    requires { from ≤ length (group_of pairs.now.groups comm) }
    ensures least { from ≤ result }
    ensures most { result ≤ length (group_of pairs.now.groups comm) }
    ensures met { (g member : ℕ) → from ≤ g → g < result → world_rank_of pairs.now.groups comm g ≡ Some member → is_met stands.now (member_need pairs.now.recording comm wave member) ≡ true }
    ensures missing { (member : ℕ) → world_rank_of pairs.now.groups comm result ≡ Some member → is_met stands.now (member_need pairs.now.recording comm wave member) ≡ false }
{
    match pairs.head().world_rank(comm, from) {
        Some(member) if !is_met(stands, &member_need(pairs, comm, wave, from, member)) => from,
        _ => next_missing(pairs, stands, comm, wave, from),
    }
}

impl Progress {
    /// No wave of so many communicators is complete.
    pub(crate) fn new(alloc: Global, comms: u16) -> Result<Progress, AllocError>
        ensures complete { IfOk result (λ progress. progress.complete.items ≡ replicate comms 0) }
        ensures met { IfOk result (λ progress. progress.met.items ≡ replicate comms 0) }
        ensures changes { IfOk result (λ progress. progress.changes ≡ 0) }
    {
        Ok(Progress {
            complete: vec![in alloc; 0u32; usize::from(comms)]?,
            met: vec![in alloc; 0u16; usize::from(comms)]?,
            changes: 0,
        })
    }

    #[inline(always)]
    fn complete(&self, comm: u16) -> u32
        ensures { result ≡ complete_of self.now comm }
    {
        self.complete.get(usize::from(comm)).copied().unwrap_or(0)
    }

    #[inline(always)]
    fn met(&self, comm: u16) -> u16
        ensures { result ≡ met_of self.now comm }
    {
        self.met.get(usize::from(comm)).copied().unwrap_or(0)
    }

    #[inline(always)]
    fn is_open(&self, pairs: &Pairs, comm: u16, wave: u32) -> bool
        ensures { result ≡ is_open pairs.now.groups self.now comm wave }
    {
        self.complete(comm) <= wave && members(pairs, comm) > 0
    }

    /// Whether the wave is the next one of its communicator to be complete, and the rank the next member
    /// whose call is wanting.
    #[inline(always)]
    fn is_wanting(&self, head: &Head, comm: u16, wave: u32, rank: u16) -> bool
        ensures { (result ≡ true) ↔ ((complete_of self.now comm ≡ wave) × (world_rank_of head.now comm (met_of self.now comm) ≡ Some rank)) }
    {
        self.complete(comm) == wave && head.world_rank(comm, self.met(comm)) == Some(rank)
    }

    /// The communicator of a wave that a call joins, if it joins one, where that wave is not complete.
    #[inline(always)]
    pub(crate) fn open_wave(&self, pairs: &Pairs, joined: Option<(u16, u32)>) -> Option<u16>
        ensures { result ≡ open_wave_by pairs.now.groups self.now joined }
    {
        match joined {
            Some((comm, wave)) if self.is_open(pairs, comm, wave) => Some(comm),
            _ => None,
        }
    }

    /// Notes that the rank has reached its call at the place, which joins that wave, if one; answers the communicator
    /// whose next wave is complete by it, if one is.
    #[inline(always)]
    pub(crate) fn reach(
        &mut self,
        pairs: &Pairs,
        stands: &[u32],
        at: (u16, u32),
        joined: Option<(u16, u32)>,
    ) -> Option<u16>
        requires joined { joined ≡ wave_of pairs.now.recording at.0 at.1 }
        requires waves { AreWaves pairs.now.groups pairs.now.recording stands.now self.old (λ comm member. (member ≡ at.0) × (wave_of pairs.now.recording at.0 at.1 ≡ Some (comm, complete_of self.old comm))) }
        requires is_there { at.1 ≡ slice_index stands.now at.0 }
        requires few { at.1 ≤ most_calls }
        ensures waves { AreWaves pairs.now.groups pairs.now.recording stands.now self.new IsNoException }
        ensures others { (comm : ℕ) → result ≢ Some comm → complete_of self.new comm ≡ complete_of self.old comm }
        ensures comm { IfSome result (λ comm. comm < length pairs.now.groups) }
        ensures one { (comm : ℕ) → result ≡ Some comm → complete_of self.new comm ≡ complete_of self.old comm + 1 }
        ensures counts { self.old.changes ≤ self.new.changes }
        ensures changes { self.new.changes ≤ self.old.changes + 1 }
        ensures none { wave_of pairs.now.recording at.0 at.1 ≡ None → self.new.changes ≡ self.old.changes }
    {
        let wave = joined?;
        self.reach_wave(pairs, stands, at, wave)
    }

    /// Notes that the rank has reached its call at the place, which joins this wave; answers the communicator whose next
    /// wave is complete by it, if one is.
    #[inline(always)]
    fn reach_wave(
        &mut self,
        pairs: &Pairs,
        stands: &[u32],
        at: (u16, u32),
        joined: (u16, u32),
    ) -> Option<u16>
        requires joins { wave_of pairs.now.recording at.0 at.1 ≡ Some joined }
        requires waves { AreWaves pairs.now.groups pairs.now.recording stands.now self.old (λ c member. (member ≡ at.0) × (wave_of pairs.now.recording at.0 at.1 ≡ Some (c, complete_of self.old c))) }
        requires is_there { at.1 ≡ slice_index stands.now at.0 }
        requires few { at.1 ≤ most_calls }
        ensures waves { AreWaves pairs.now.groups pairs.now.recording stands.now self.new IsNoException }
        ensures others { (c : ℕ) → result ≢ Some c → complete_of self.new c ≡ complete_of self.old c }
        ensures comm { IfSome result (λ c. c < length pairs.now.groups) }
        ensures one { (c : ℕ) → result ≡ Some c → complete_of self.new c ≡ complete_of self.old c + 1 }
        ensures counts { self.old.changes ≤ self.new.changes }
        ensures changes { self.new.changes ≤ self.old.changes + 1 }
    {
        let (comm, wave) = joined;
        if !self.is_wanting(pairs.head(), comm, wave, at.0) {
            return None;
        }
        self.changes = self.changes.saturating_add(1);
        let members = members(pairs, comm);
        let missing = next_missing_at_once(pairs, stands, comm, wave, self.met(comm) + 1);
        if missing < members {
            self.met[usize::from(comm)] = missing;
            return None;
        }
        self.complete[usize::from(comm)] = wave + 1;
        self.met[usize::from(comm)] = next_missing(pairs, stands, comm, wave + 1, 0);
        Some(comm)
    }
}
