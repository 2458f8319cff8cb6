//! Readings: which sends wait for their receive. MPI lets a send in standard mode complete before its receive is
//! reached, and lets it wait; which of the two is up to the implementation, and often to the size of the message.

ghost use Rattle.std.specs.Prelude.{◌≡◌};
ghost use Rattle.moves.specs.Readings.{is_eager};
ghost use Rattle.moves.specs.Needs.{bytes_of, sends_freely};

use callstore::call_ref::CallRef;
use mpicall::call::Mode;

/// Which sends in standard mode wait for their receive. Synchronous sends always do, and buffered ones never.
#[derive(Clone, Copy, Debug, PartialEq, Eq)]
pub enum Reading {
    /// Each does.
    Strict,
    /// Each does that says no bytes or more than this; one that says this many or fewer needs nothing.
    Eager(u32),
}

/// Whether a message of so many bytes goes before its receive is reached; one that says none doesn't.
#[inline(always)]
pub fn is_eager(reading: Reading, bytes: Option<u32>) -> bool
    ensures { result ≡ is_eager reading bytes }
{
    match (reading, bytes) {
        (Reading::Eager(limit), Some(count)) => count <= limit,
        _ => false,
    }
}

/// How many bytes a call sends in standard mode, where it says so.
fn bytes_of(call: &CallRef<'_>) -> Option<u32>
    ensures { result ≡ bytes_of call.now }
{
    match call.mode() {
        Some(Mode::Standard) | None => call.bytes(),
        _ => None,
    }
}

/// Whether what the call sends needs nothing: it is buffered, or the reading lets it go at once.
#[inline(always)]
pub fn sends_freely(reading: Reading, call: &CallRef<'_>) -> bool
    ensures { result ≡ sends_freely reading call.now }
{
    matches!(call.mode(), Some(Mode::Buffered)) || is_eager(reading, bytes_of(call))
}
