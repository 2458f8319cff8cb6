//! The first fault of a call after the calls that its rank made before.
//!
//! The definition of a fault is unfolded only in proofs about it. It lists nine tests; unfolded in every
//! proof about kept calls it would slow them all down.

ghost use Rattle.std.specs.Prelude.{◌≡◌, Some, true};
ghost use Rattle.std.specs.Option.{option_map_or};
ghost use Rattle.pairing.specs.Codes.{code_of_call, words_of_call};
ghost use Rattle.pairing.specs.inner.Ascending.{ascend_from};
ghost use Rattle.pairing.specs.Faults.{is_group_rank, is_peer, is_member, comm_exists, peers_exist, are_distinct, AnEndedLawfulListIsClosed, EachWaitHasItsStarts, NoTwoStartsAreActive};

use callstore::next_call::NextCall;
use callstore::request::is_among;
use mpicall::call::Peer;
use mpicall::effect::{Effect, Side};
use mpigroup::head::Head;
use std::error::Error;
use std::fmt;

/// Why a rank may not have made a call after those before it.
#[derive(Clone, Copy, Debug, PartialEq, Eq)]
pub enum CallFault {
    CallAfterFinalize,
    TooManyCalls,
    UnknownCommunicator,
    CommunicatorNotHeld,
    PeerOutOfGroup,
    RequestInUse,
    RequestRepeated,
    RequestNotActive,
    WrongNewCommunicator,
}

impl CallFault {
    /// The code under which the program reports the fault.
    pub fn code(self) -> &'static str
        ensures { result.now ≡ code_of_call self }
    {
        match self {
            CallFault::CallAfterFinalize => "C9",
            CallFault::TooManyCalls => "C8",
            CallFault::UnknownCommunicator => "C1",
            CallFault::CommunicatorNotHeld => "C2",
            CallFault::PeerOutOfGroup => "C3",
            CallFault::RequestInUse => "C4",
            CallFault::RequestRepeated => "C6",
            CallFault::RequestNotActive => "C5",
            CallFault::WrongNewCommunicator => "C7",
        }
    }

    fn words(self) -> &'static str
        ensures { result.now ≡ words_of_call self }
    {
        match self {
            CallFault::CallAfterFinalize => "call after finalize",
            CallFault::TooManyCalls => "too many calls",
            CallFault::UnknownCommunicator => "unknown communicator",
            CallFault::CommunicatorNotHeld => "communicator not held",
            CallFault::PeerOutOfGroup => "peer or root out of group",
            CallFault::RequestInUse => "request in use",
            CallFault::RequestRepeated => "request repeated",
            CallFault::RequestNotActive => "request not active",
            CallFault::WrongNewCommunicator => "wrong new communicator",
        }
    }
}

impl fmt::Display for CallFault {
    ghost output = { λ fault. Some (words_of_call fault) };

    fn fmt<W: fmt::Write>(&self, f: &mut fmt::Formatter<W>) -> fmt::Result {
        write!(f, "{}", self.words())
    }
}

impl Error for CallFault {}

/// Whether the number is a rank of the communicator's group.
#[inline(always)]
fn is_group_rank(head: &Head, comm: u16, rank: u16) -> bool
    ensures { result ≡ is_group_rank head.now comm rank }
{
    match head.size(comm) {
        Some(size) => rank < size,
        None => false,
    }
}

/// Whether the peer is null, or a rank of the communicator's group.
#[inline(always)]
fn is_peer(head: &Head, comm: u16, peer: Peer) -> bool
    ensures { result ≡ is_peer head.now comm peer }
{
    match peer {
        Peer::Rank(rank) => is_group_rank(head, comm, rank),
        Peer::Null => true,
    }
}

/// Whether a call says nothing of a message's other end, or its peer is null or a rank of the communicator's group.
#[inline(always)]
fn is_side(head: &Head, comm: u16, side: Option<Side>) -> bool
    ensures { result ≡ option_map_or (λ side. is_peer head.now comm side.peer) side true }
{
    match side {
        Some(Side { peer, .. }) => is_peer(head, comm, peer),
        None => true,
    }
}

/// Whether a call has no root, or a rank of the communicator's group as root.
#[inline(always)]
fn is_root(head: &Head, comm: u16, root: Option<u16>) -> bool
    ensures { result ≡ option_map_or (is_group_rank head.now comm) root true }
{
    match root {
        Some(root) => is_group_rank(head, comm, root),
        None => true,
    }
}

/// Whether the rank of the world is in the communicator's group.
#[inline(always)]
pub(crate) fn is_member(head: &Head, rank: u16, comm: u16) -> bool
    ensures { result ≡ is_member head.now rank comm }
{
    head.group_rank(comm, rank).is_some()
}

/// Whether the communicator that the call names exists.
#[inline(always)]
pub(crate) fn comm_exists(head: &Head, call: &NextCall<'_>) -> bool
    ensures { result ≡ comm_exists head.now call.now }
{
    match call.comm() {
        Some(comm) => head.size(comm).is_some(),
        None => true,
    }
}

/// Whether each peer and root that the call names is a rank of its communicator's group.
#[inline(always)]
pub(crate) fn peers_exist(head: &Head, call: &NextCall<'_>) -> bool
    ensures { result ≡ peers_exist head.now call.now }
{
    match *call.effect() {
        Effect::PointToPoint {
            comm,
            sent,
            received,
            probed,
        } => {
            is_side(head, comm, sent)
                && is_side(head, comm, received)
                && is_side(head, comm, probed)
        }
        Effect::Joins { comm, root, .. } => is_root(head, comm, root),
        Effect::Local => true,
    }
}

/// Whether each number is above the one before it, and the first above the least.
fn ascend_from(least: u32, numbers: &[u32]) -> bool
    ensures { result ≡ ascend_from least numbers.now }
{
    match numbers.split_first() {
        Some((number, others)) => least < *number && ascend_from(*number, others),
        None => true,
    }
}

/// Whether no number is in the list twice, by a look at each two of them.
fn each_differs(numbers: &[u32]) -> bool
    ensures { result ≡ are_distinct numbers.now }
{
    match numbers.split_first() {
        Some((number, others)) => !is_among(*number, others) && each_differs(others),
        None => true,
    }
}

/// Whether no number is in the list twice. Most waits name their requests in the order of their numbers.
#[inline(always)]
#[tactic(auto, using(crate::proofs::AscendingLemmas::ascending))]
pub(crate) fn are_distinct(numbers: &[u32]) -> bool
    ensures { result ≡ are_distinct numbers.now }
{
    match numbers.split_first() {
        Some((number, others)) => ascend_from(*number, others) || each_differs(numbers),
        None => true,
    }
}

/// A lawful list whose last call ends it is closed: no other call ends it.
pub fn an_ended_lawful_list_is_closed()
    ensures { AnEndedLawfulListIsClosed }
{}

/// Each request that a wait of a lawful list names has its start, a call before that starts it.
pub fn each_wait_has_its_starts()
    ensures { EachWaitHasItsStarts }
{}

/// No two starts of one request are active at once in a lawful list: between them there is a call that
/// completes it.
pub fn no_two_starts_are_active()
    ensures { NoTwoStartsAreActive }
{}
