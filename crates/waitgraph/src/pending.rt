//! Calls that ranks were in when their lists were left open, and receives that a message may have met.

ghost use Rattle.std.specs.Prelude.{◌≡◌, ◌||◌, ◌==◌, length};
ghost use Rattle.waitgraph.specs.Pending.{view_of};
ghost use Rattle.waitgraph.specs.PendingHeld.{TheHeldByPendingAreTheGreatest, WithoutPendingTheHeldAreTheSame};
ghost use Rattle.waitgraph.specs.PendingStays.{HeldRanksStayBy};

use callstore::envelope::Envelope;

/// The messages that a rank would take: over the communicator, from the rank of its group, with the tag. None stands
/// for any.
#[derive(Clone, Copy, PartialEq, Eq)]
pub struct Wanted {
    pub comm: u16,
    pub source: Option<u16>,
    pub tag: Option<u32>,
}

/// A receive that was started, and of which it isn't known whether a message met it. In the rank's list a receive from
/// nobody has its place.
#[derive(Clone, Copy, PartialEq, Eq)]
pub struct Sink {
    pub rank: u16,
    pub place: u32,
    pub wanted: Wanted,
}

/// A send that no receive has: who sends, at which place, and what.
#[derive(Clone, Copy, PartialEq, Eq)]
pub struct Spare {
    pub sender: u16,
    pub place: u32,
    pub envelope: Envelope,
}

/// What a pending call waits for.
#[derive(Clone, Copy, PartialEq, Eq)]
pub enum Item {
    /// One of these messages.
    Message(Wanted),
    /// The active request with the number.
    Request(u32),
}

/// The call that a rank was in when its list was left open.
#[derive(PartialEq, Eq, Drop)]
pub enum PendingCall {
    /// Nothing is known of it.
    Unknown,
    /// It comes back once all of the items came.
    All(Vec<Item>),
    /// It comes back once one of them came.
    Any(Vec<Item>),
}

impl PendingCall {
    /// The items that the call waits for; none where nothing is known of it.
    pub fn items(&self) -> &[Item]
        ensures { result.now ≡ (view_of self.now).items }
    {
        match self {
            PendingCall::Unknown => &[],
            PendingCall::All(items) | PendingCall::Any(items) => items.as_slice(),
        }
    }

    /// Whether it waits for all of its items; one without items waits for nothing.
    pub fn is_for_all(&self) -> bool
        ensures { result ≡ ((view_of self.now).is_all || length (view_of self.now).items == 0) }
    {
        match self {
            PendingCall::Unknown | PendingCall::All(_) => true,
            PendingCall::Any(items) => items.len() == 0,
        }
    }
}

/// Over every recording, whatever pending calls and sinks are known, the held ranks are the greatest deadlocked set.
#[tactic(auto, using(crate::proofs::PendingLemmas::the_held_by_pending_are_the_greatest))]
pub fn the_held_by_pending_are_the_greatest()
    ensures { TheHeldByPendingAreTheGreatest }
{}

/// Where no pending call and no sink is known, the held ranks are those without.
pub fn without_pending_the_held_are_the_same()
    ensures { WithoutPendingTheHeldAreTheSame }
{}

/// Each held rank stands where it does, whether sinks are met or not, however pending calls come back, and whatever
/// calls come after them.
#[tactic(auto, using(crate::proofs::PendingStaysLemmas::held_ranks_stay_by))]
pub fn held_ranks_stay_by()
    ensures { HeldRanksStayBy }
{}
