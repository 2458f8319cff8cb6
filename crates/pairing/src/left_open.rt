//! Which lists were left open, so that further calls may yet come.

ghost use Rattle.std.specs.Prelude.{◌≡◌};
ghost use Rattle.pairing.specs.LeftOpen.{is_left_open, leaves_open};

use crate::pairs::Pairs;
use callstore::call_ref::CallRef;
use mpicall::call::Call;

/// Whether the call says that its rank's list was left open.
pub fn leaves_open(call: &CallRef<'_>) -> bool
    ensures { result ≡ leaves_open call.now }
{
    matches!(call.record().as_call(), Call::Open)
}

/// Whether the rank's list was left open.
pub fn is_left_open(pairs: &Pairs, rank: u16) -> bool
    ensures { result ≡ is_left_open pairs.now.recording rank }
{
    match pairs.accepted(rank) {
        Some(count) if count > 0 => match pairs.call(rank, count - 1) {
            Some(call) => leaves_open(&call),
            None => false,
        },
        _ => false,
    }
}
