//! What is looked up of the calls so far: pending halves of messages, waves, communicators and requests.

ghost use Rattle.std.specs.Prelude.{◌≡◌, ◌<◌, ◌≤◌, ℕ, [], length, replicate, IfOk, IfSome};
ghost use Rattle.mpicall.specs.declared.call.Call.{Call};
ghost use Rattle.mpigroup.specs.Groups.{Groups};
ghost use Rattle.callstore.specs.Limits.{most_calls};
ghost use Rattle.callstore.specs.Recordings.{Lists, calls_of, appended};
ghost use Rattle.callstore.specs.Seats.{HasRoomIn};
ghost use Rattle.pairing.specs.inner.Holdings.{HasRoomToHold};
ghost use Rattle.pairing.specs.inner.Joined.{IsListFor};
ghost use Rattle.pairing.specs.inner.Starts.{HasRoomToStart};
ghost use Rattle.pairing.specs.inner.Tables.{AreOthers, AreTables, HaveRoom, IsCached};

use crate::active::Active;
use crate::made_comms::MadeComms;
use crate::matches::{Halves, Matches};
use crate::waves::Waves;
use callstore::cached_match::CachedMatch;
use callstore::next_call::NextCall;
use mpigroup::head::Head;
use std::alloc::{AllocError, Global};

/// What room was made for of a rank's next call: the halves that it has, and the number of the list of waves
/// that it joins.
#[derive(Clone, Copy)]
pub(crate) struct Room {
    pub halves: Halves,
    pub list: Option<usize>,
}

/// The tables of a recording, which are kept up to date call by call.
pub(crate) struct Tables {
    pub matches: Matches,
    pub waves: Waves,
    pub made_comms: MadeComms,
    pub active: Active,
}

// By hand: a derived drop is proved again at each exit of a function that owns one.
impl Drop for Tables {
    fn drop(self) {
        let Tables {
            matches: _,
            waves: _,
            made_comms: _,
            active: _,
        } = self;
    }
}

impl Tables {
    /// The tables of each recording without calls.
    pub(crate) fn new(alloc: Global, head: &Head) -> Result<Tables, AllocError>
        ensures { IfOk result (λ tables. (ranks : ℕ) → AreTables head.now (replicate ranks []) tables) }
    {
        Ok(Tables {
            matches: Matches::new(alloc)?,
            waves: Waves::new(alloc, head)?,
            made_comms: MadeComms::new(alloc),
            active: Active::new(alloc, head.ranks())?,
        })
    }

    /// Makes all the room that the rank's next call takes. The tables say the same after it.
    #[inline(always)]
    pub(crate) fn reserve(
        &mut self,
        head: &Head,
        rank: u16,
        call: &NextCall<'_>,
    ) -> Result<Room, AllocError>
        ensures kept { (recording : Lists) → AreTables head.now recording self.old → AreTables head.now recording self.new }
        ensures ok { IfOk result (λ room. HaveRoom head.now rank call.now room self.new) }
    {
        self.active.reserve(rank, call)?;
        let halves = self.matches.reserve(head, rank, call)?;
        let list = self.waves.reserve(rank, call)?;
        self.made_comms.reserve(call)?;
        Ok(Room { halves, list })
    }

    /// Puts in the rank's next call, at its place, where its wave has that list. Its halves stay as they are. It
    /// takes no memory.
    #[inline(always)]
    pub(crate) fn put(&mut self, rank: u16, place: u32, call: &NextCall<'_>, list: Option<usize>)
        requires is_list { IsListFor rank call.now self.old.waves list }
        requires joined { IfSome list (HasRoomIn self.old.waves.lists) }
        requires made_comms { HasRoomToHold self.old.made_comms call.now }
        requires active { HasRoomToStart self.old.active rank call.now }
        ensures matches { self.new.matches ≡ self.old.matches }
        ensures others { (recording : Lists) → AreOthers recording self.old → rank < length recording →
            place ≡ length (calls_of recording rank) → AreOthers (appended recording rank call.now) self.new }
    {
        self.waves.put(list, place);
        self.made_comms.put(rank, call);
        self.active.put(rank, place, call);
    }

    /// What is kept with a rank's next call, whose wave has that list, as long as its halves have no partners.
    #[inline(always)]
    pub(crate) fn cached(&self, list: Option<usize>) -> CachedMatch
        ensures { (groups : Groups) (recording : Lists) (rank : ℕ) (call : Call) → AreTables groups recording self.now →
            IsListFor rank call self.now.waves list → length (calls_of recording rank) ≤ most_calls → IsCached (calls_of recording rank) call result }
    {
        match list {
            Some(list) => CachedMatch::Wave {
                number: self.waves.number(list),
            },
            None => CachedMatch::Nothing,
        }
    }
}
