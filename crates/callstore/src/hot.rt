//! The kinds of calls that come often, for each of which there are paths of its own in the crates above.
//!
//! What admits a call, what a rank does that reaches it, and a look at it have the kind's number as a
//! parameter. One function is built for each kind, and the compiler drops each question that the kind
//! answers. Each has the contract of the general function.
//!
//! To keep in mind here: the kit drops `#[inline(always)]` without a word from a function that becomes too
//! large, so what comes rarely is `#[inline(never)]`. Each local value that is no number is cleared where
//! its function begins, so rare arms are functions of their own. A kind that is only assumed
//! (`unreachable!`) is forgotten before looks are built, and a kind that was asked for once something is
//! written; so looks ask for it, and what notes a call asks again.

ghost use Rattle.std.specs.Prelude.{◌≡◌};
ghost use Rattle.callstore.specs.Hot.{hot_kind};

use mpicall::call::{Call, Peer};

/// Any call.
pub const ANY: u8 = 0;
/// A send that isn't started alone.
pub const SEND: u8 = 1;
/// A receive from a rank that isn't started alone.
pub const RECV: u8 = 2;
/// A send that is started.
pub const ISEND: u8 = 3;
/// A receive that is started.
pub const IRECV: u8 = 4;
/// A collective that isn't started alone.
pub const COLL: u8 = 5;
/// A wait for one request.
pub const WAIT: u8 = 6;
/// A wait for all of several requests.
pub const WAITALL: u8 = 7;

/// No call.
pub const NONE: u8 = 8;

/// The number of the call's kind; that of any call where its kind has no path of its own.
#[inline(always)]
pub fn hot_kind(call: &Call) -> u8
    ensures { result ≡ hot_kind call.now }
{
    match call {
        Call::Send { .. } => SEND,
        Call::Recv {
            source: Peer::Rank(_),
            ..
        } => RECV,
        Call::Isend { .. } => ISEND,
        Call::Irecv { .. } => IRECV,
        Call::Coll { .. } => COLL,
        Call::Wait { .. } => WAIT,
        Call::Waitall { .. } => WAITALL,
        _ => ANY,
    }
}

/// Calls the function that is built for the kind, where the kind comes often; further arms say what is done for any
/// other. The two functions `hot_kind` list the kinds too, and so do the looks of `moves`, which can't use this: a call
/// that starts a request has another function there. Such a function asks for the kind of its call again: where it is
/// only assumed, the compiler forgets it before it builds what the function calls, and makes one function of all kinds
/// again.
#[macro_export]
macro_rules! by_kind {
    ($kind:expr, $($path:ident).+($($word:expr),+), $($others:tt)+) => {
        match $kind {
            $crate::hot::SEND => $($path).+::<{ $crate::hot::SEND }>($($word),+),
            $crate::hot::RECV => $($path).+::<{ $crate::hot::RECV }>($($word),+),
            $crate::hot::ISEND => $($path).+::<{ $crate::hot::ISEND }>($($word),+),
            $crate::hot::IRECV => $($path).+::<{ $crate::hot::IRECV }>($($word),+),
            $crate::hot::COLL => $($path).+::<{ $crate::hot::COLL }>($($word),+),
            $crate::hot::WAIT => $($path).+::<{ $crate::hot::WAIT }>($($word),+),
            $crate::hot::WAITALL => $($path).+::<{ $crate::hot::WAITALL }>($($word),+),
            $($others)+
        }
    };
}
