//! Waves: which calls of the members of a communicator belong together.

ghost use Rattle.std.specs.Prelude.{◌≡◌};
ghost use Rattle.mpicall.specs.Effect.{effect_of};
ghost use Rattle.mpicall.specs.declared.call.Call.{Call as CallValue};
ghost use Rattle.callstore.specs.Waves.{joins, AWaveHasOneCallOfEachRank, TheCallInAWaveJoinsIt, NoOtherCallIsInAWave, WavesStay};

use mpicall::effect::Effect;

/// The communicator whose members all make a call that does this, if there is one.
#[inline(always)]
pub(crate) fn joined_by(effect: &Effect) -> Option<u16>
    ensures { (call : CallValue) → effect_of call ≡ effect.now → result ≡ joins call }
{
    match *effect {
        Effect::Joins { comm, .. } => Some(comm),
        _ => None,
    }
}

/// A wave has at most one call of each rank: two calls of a rank in one wave are one call.
pub fn a_wave_has_one_call_of_each_rank()
    ensures { AWaveHasOneCallOfEachRank }
{}

/// The call of a rank in a wave is the one that joins it.
pub fn the_call_in_a_wave_joins_it()
    ensures { TheCallInAWaveJoinsIt }
{}

/// No other call of a rank is in the wave.
pub fn no_other_call_is_in_a_wave()
    ensures { NoOtherCallIsInAWave }
{}

/// Waves stay: what is in a wave over a recording is in it over each longer one.
pub fn waves_stay()
    ensures { WavesStay }
{}
