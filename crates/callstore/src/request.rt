//! Requests: which call of a rank started one, and which wait completes it.

ghost use Rattle.std.specs.Prelude.{◌≡◌, ◌≤◌, length};
ghost use Rattle.mpicall.specs.declared.limits.TheConstants.{MOST_REQUESTS};
ghost use Rattle.callstore.specs.Requests.{starts, waits_for, completes, is_among};

use mpicall::call::Call;
use std::slice::from_ref;

/// The request that the call starts, if it starts one.
#[inline(always)]
pub fn starts(call: &Call) -> Option<u32>
    ensures { result ≡ starts call.now }
{
    match *call {
        Call::Isend { req, .. } | Call::Irecv { req, .. } | Call::Icoll { req, .. } => Some(req),
        _ => None,
    }
}

/// The requests that a wait names, in its order; none where the call is no wait.
#[inline(always)]
pub fn waits_for(call: &Call) -> &[u32]
    ensures value { result.now ≡ waits_for call.now }
    ensures most { length result.now ≤ MOST_REQUESTS }
{
    match call {
        Call::Wait { req } => from_ref(req),
        Call::Waitall { reqs } | Call::Waitany { reqs, .. } => reqs.as_slice(),
        _ => &[],
    }
}

/// The requests that a wait completes, in its order: of those that MPI_Waitany names the recorded one
/// alone.
#[inline(always)]
pub fn completes(call: &Call) -> &[u32]
    ensures { result.now ≡ completes call.now }
{
    match call {
        Call::Wait { req } => from_ref(req),
        Call::Waitall { reqs } => reqs.as_slice(),
        Call::Waitany { chosen, reqs } => match reqs.as_slice().get(usize::from(*chosen)) {
            Some(req) => from_ref(req),
            None => &[],
        },
        _ => &[],
    }
}

/// Whether the number is in the list.
pub fn is_among(number: u32, numbers: &[u32]) -> bool
    ensures { result ≡ is_among number numbers.now }
{
    numbers.iter().any(|other| *other == number)
}
