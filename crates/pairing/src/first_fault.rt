//! The first fault of a call, by look-ups in the tables of what its rank's calls before have done.

ghost use Rattle.std.specs.Prelude.{◌≡◌, length};
ghost use Rattle.callstore.specs.Recordings.{Lists, calls_of, has_end};
ghost use Rattle.pairing.specs.Faults.{holds_comm, starts_afresh, waits_for_active, is_fresh_comm, makes_afresh, fault_of};
ghost use Rattle.pairing.specs.inner.Holdings.{IsHolding};
ghost use Rattle.pairing.specs.inner.Starts.{IsActive};

use crate::active::Active;
use crate::fault::{CallFault, are_distinct, comm_exists, is_member, peers_exist};
use crate::made_comms::MadeComms;
use crate::tables::Tables;
use callstore::limits::MOST_CALLS;
use callstore::next_call::NextCall;
use mpicall::call::Call;
use mpigroup::head::Head;

/// Whether the rank is in the group of the communicator that the call names, and holds it.
#[inline(always)]
fn holds_comm(head: &Head, made_comms: &MadeComms, rank: u16, call: &NextCall<'_>) -> bool
    ensures { (recording : Lists) → IsHolding recording made_comms.now → result ≡ holds_comm head.now rank (calls_of recording rank) call.now }
{
    match call.comm() {
        Some(comm) => is_member(head, rank, comm) && made_comms.holds(rank, comm),
        None => true,
    }
}

/// Whether the request that the call starts isn't active before.
#[inline(always)]
fn starts_afresh(active: &Active, rank: u16, call: &NextCall<'_>) -> bool
    ensures { (recording : Lists) → IsActive recording active.now → result ≡ starts_afresh (calls_of recording rank) call.now }
{
    match call.starts() {
        Some(req) => active.start_of(rank, req).is_none(),
        None => true,
    }
}

/// Whether the rank may come to hold the communicator: not the world, with the rank in its group, and not
/// held before.
#[inline(always)]
fn is_fresh_comm(head: &Head, made_comms: &MadeComms, rank: u16, comm: u16) -> bool
    ensures { (recording : Lists) → IsHolding recording made_comms.now → result ≡ is_fresh_comm head.now rank (calls_of recording rank) comm }
{
    comm != 0 && is_member(head, rank, comm) && !made_comms.holds(rank, comm)
}

/// Whether what the call makes is such a communicator; a split makes one just where it has a colour.
#[inline(always)]
fn makes_afresh(head: &Head, made_comms: &MadeComms, rank: u16, call: &NextCall<'_>) -> bool
    ensures { (recording : Lists) → IsHolding recording made_comms.now → result ≡ makes_afresh head.now rank (calls_of recording rank) call.now }
{
    match *call.as_call() {
        Call::Dup { new, .. } => is_fresh_comm(head, made_comms, rank, new),
        Call::Split { colour, new, .. } => match (colour, new) {
            (None, None) => true,
            (Some(_), Some(new)) => is_fresh_comm(head, made_comms, rank, new),
            _ => false,
        },
        _ => true,
    }
}

/// What is known of a rank's calls so far, where one more comes: how many they are, whether one of them ended the list,
/// and whether the requests are active after them that the next call waits for.
#[derive(Clone, Copy)]
pub(crate) struct Before {
    pub count: usize,
    pub is_over: bool,
    pub are_active: bool,
}

/// The first fault of the rank's next call, in the order of the variants of `CallFault`; None where it has
/// no fault, and then there is room for it in a recording. The tables are those of the calls before.
#[inline(always)]
#[tactic(auto, unfolding(crate::specs::Faults::fault_of))]
pub(crate) fn first_fault(
    head: &Head,
    tables: &Tables,
    rank: u16,
    call: &NextCall<'_>,
    before: Before,
) -> Option<CallFault>
    ensures { (recording : Lists) → IsHolding recording tables.now.made_comms → IsActive recording tables.now.active →
        before.count ≡ length (calls_of recording rank) → before.is_over ≡ has_end (calls_of recording rank) →
        before.are_active ≡ waits_for_active (calls_of recording rank) call.now →
        result ≡ fault_of head.now rank (calls_of recording rank) call.now }
{
    if before.is_over {
        Some(CallFault::CallAfterFinalize)
    } else if before.count >= MOST_CALLS {
        Some(CallFault::TooManyCalls)
    } else if !comm_exists(head, call) {
        Some(CallFault::UnknownCommunicator)
    } else if !holds_comm(head, &tables.made_comms, rank, call) {
        Some(CallFault::CommunicatorNotHeld)
    } else if !peers_exist(head, call) {
        Some(CallFault::PeerOutOfGroup)
    } else if !starts_afresh(&tables.active, rank, call) {
        Some(CallFault::RequestInUse)
    } else if !are_distinct(call.waits_for()) {
        Some(CallFault::RequestRepeated)
    } else if !before.are_active {
        Some(CallFault::RequestNotActive)
    } else if !makes_afresh(head, &tables.made_comms, rank, call) {
        Some(CallFault::WrongNewCommunicator)
    } else {
        None
    }
}
