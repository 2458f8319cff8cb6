//! Which communicators a rank holds.

ghost use Rattle.std.specs.Prelude.{◌≡◌};
ghost use Rattle.mpicall.specs.Effect.{effect_of};
ghost use Rattle.mpicall.specs.declared.call.Call.{Call as CallValue};
ghost use Rattle.callstore.specs.Communicators.{makes};

use mpicall::call::Call;
use mpicall::effect::Effect;

/// The communicator that a call which does this makes for its rank, if it makes one.
#[inline(always)]
pub(crate) fn made_by(effect: &Effect) -> Option<u16>
    ensures { (call : CallValue) → effect_of call ≡ effect.now → result ≡ makes call }
{
    match *effect {
        Effect::Joins { made, .. } => made,
        _ => None,
    }
}

/// The communicator that the call makes for its rank, if it makes one.
pub fn makes(call: &Call) -> Option<u16>
    ensures { result ≡ makes call.now }
{
    made_by(&call.effect())
}
