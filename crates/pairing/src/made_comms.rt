//! Which communicators the ranks of a recording hold, by look-up.

ghost use Rattle.std.specs.Prelude.{◌≡◌, ◌+◌, ◌*◌, ◌^◌, ◌<◌, [], length, replicate, ℕ, true, false, OnOk, ◌||◌, ◌==◌};
ghost use Rattle.std.specs.Hash as fed;
ghost use Rattle.std.specs.Cmp.Rules.{hashing};
ghost use Rattle.std.proofs.Common.{rules};
ghost use Rattle.callstore.specs.Recordings.{Lists, calls_of, appended};
ghost use Rattle.callstore.specs.Communicators.{holds, makes, NoneIsMade, HasMade};
ghost use Rattle.pairing.specs.inner.Holdings.{IsHolding, HasRoomToHold};

use callstore::next_call::NextCall;
use indexmap::IndexSet;
use std::alloc::{AllocError, Global};
use std::hash::{Hash, Hasher};

/// A communicator of a rank.
#[derive(Clone, Copy, PartialEq, Eq)]
pub(crate) struct Holding {
    pub rank: u16,
    pub comm: u16,
}

// Both as one number, which is hashed faster than one after the other.
impl Hash for Holding {
    ghost hash_input = { λ h. fed.u32 (h.rank * 2 ^ 16 + h.comm) };

    ghost respects_eq = { Prim.search (hashing, rules) };

    fn hash<H: Hasher>(&self, state: &mut H) {
        state.write_u32(u32::from(self.rank) * 65_536 + u32::from(self.comm));
    }
}

/// The communicators that each rank has made by its calls. A look-up takes the same time however many
/// calls there were, on average.
#[derive(Drop)]
pub(crate) struct MadeComms {
    pairs: IndexSet<Holding>,
}

impl MadeComms {
    /// Nothing made yet: the table of each recording without calls.
    pub(crate) fn new(alloc: Global) -> MadeComms
        ensures { (ranks : ℕ) → IsHolding (replicate ranks []) result }
    {
        MadeComms {
            pairs: IndexSet::new(alloc),
        }
    }

    /// Makes room for what the call makes, if it makes something. The table says the same after it.
    #[inline(always)]
    pub(crate) fn reserve(&mut self, call: &NextCall<'_>) -> Result<(), AllocError>
        ensures kept { (recording : Lists) → IsHolding recording self.old → IsHolding recording self.new }
        ensures ok { OnOk result (HasRoomToHold self.new call.now) }
    {
        match call.makes() {
            Some(_) => self.pairs.reserve(1),
            None => Ok(()),
        }
    }

    /// Puts in what the rank's next call makes, if it makes something. It takes no memory.
    #[inline(always)]
    pub(crate) fn put(&mut self, rank: u16, call: &NextCall<'_>)
        requires { HasRoomToHold self.old call.now }
        ensures { (recording : Lists) → IsHolding recording self.old → rank < length recording →
            IsHolding (appended recording rank call.now) self.new }
    {
        if let Some(comm) = call.makes() {
            self.pairs.insert(Holding { rank, comm }).unwrap();
        }
    }

    /// Whether the rank holds the communicator: each holds the world.
    #[inline(always)]
    pub(crate) fn holds(&self, rank: u16, comm: u16) -> bool
        ensures { (recording : Lists) → IsHolding recording self.now → result ≡ holds (calls_of recording rank) comm }
    {
        comm == 0 || self.pairs.contains(&Holding { rank, comm })
    }

    /// Whether some rank has made one.
    pub(crate) fn has_made(&self) -> bool
        ensures none { (recording : Lists) → IsHolding recording self.now → result ≡ false → NoneIsMade recording }
        ensures some { (recording : Lists) → IsHolding recording self.now → result ≡ true → HasMade recording }
    {
        !self.pairs.is_empty()
    }
}
