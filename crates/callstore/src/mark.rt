//! What is kept with a call, in 4 bytes where it is one number below 16,777,216, as the places of calls are. Any
//! other has its numbers in a pair: of what comes often, that is an MPI_Sendrecv with both partners.

ghost use Rattle.std.specs.Prelude.{◌≡◌, ◌<◌, ◌%◌, true, false};
ghost use Rattle.callstore.specs.CachedMatch.{partner_in, wave_in, with_partner};
ghost use Rattle.callstore.specs.declared.cached_match.CachedMatch.TheVariants.{Nothing, Wave};
ghost use Rattle.callstore.specs.inner.Marks.{far, is_apart, joined, kept_by, pair_at, pair_of};

use crate::cached_match::CachedMatch;
use crate::envelope::Half;

/// Numbers below this one are kept in a mark.
pub(crate) const FAR: u32 = 16_777_216;

/// What is kept with a call: its one number, by the high 8 and the low 16 bits, or what the numbers in the call's
/// pair are.
#[derive(Clone, Copy)]
pub(crate) enum Mark {
    Nothing,
    Wave { high: u8, low: u16 },
    Sent { high: u8, low: u16 },
    Received { high: u8, low: u16 },
    FarWave,
    FarSent,
    FarReceived,
    Exchanged,
}

/// The numbers that are kept with a call. One alone is the first.
#[derive(Clone, Copy)]
pub(crate) struct Pair {
    pub first: u32,
    pub second: u32,
}

/// The number with these bits.
#[inline(always)]
fn joined(high: u8, low: u16) -> u32
    ensures { result ≡ joined high low }
{
    u32::from(high) * 65536 + u32::from(low)
}

/// The high bits of a number.
#[inline(always)]
fn high_bits(number: u32) -> u8
    requires { number < far }
    ensures { joined result (number % 65536) ≡ number }
{
    (number / 65536) as u8
}

/// The low bits of a number.
#[inline(always)]
fn low_bits(number: u32) -> u16
    ensures { result ≡ number % 65536 }
{
    (number % 65536) as u16
}

/// The numbers of what is kept with a call.
pub(crate) fn pair_of(cached: CachedMatch) -> Pair
    ensures { result ≡ pair_of cached }
{
    match cached {
        CachedMatch::Nothing => Pair {
            first: 0,
            second: 0,
        },
        CachedMatch::Wave { number: first }
        | CachedMatch::Sent { to: first }
        | CachedMatch::Received { from: first } => Pair { first, second: 0 },
        CachedMatch::Exchanged { to, from } => Pair {
            first: to,
            second: from,
        },
    }
}

impl Mark {
    /// The mark of a number with a call's wave.
    #[inline(always)]
    fn of_wave(number: u32) -> Mark
        ensures { kept_by result (pair_of (Wave number)) ≡ Wave number }
    {
        if number < FAR {
            Mark::Wave {
                high: high_bits(number),
                low: low_bits(number),
            }
        } else {
            Mark::FarWave
        }
    }

    /// The mark of the place of a half's partner, which is below `FAR`.
    #[inline(always)]
    pub(crate) fn of_partner(half: Half, there: u32) -> Mark
        requires { there < far }
        ensures kept { kept_by result (pair_of (with_partner half there Nothing)) ≡ with_partner half there Nothing }
        ensures here { is_apart result ≡ false }
    {
        let (high, low) = (high_bits(there), low_bits(there));
        match half {
            Half::Send => Mark::Sent { high, low },
            Half::Recv => Mark::Received { high, low },
        }
    }

    /// The mark of a call's partners.
    #[inline(never)]
    fn of_partners(cached: CachedMatch) -> Mark
        ensures { kept_by result (pair_of cached) ≡ cached }
    {
        match cached {
            CachedMatch::Nothing => Mark::Nothing,
            CachedMatch::Wave { number } => Mark::of_wave(number),
            CachedMatch::Sent { to } => {
                if to < FAR {
                    Mark::of_partner(Half::Send, to)
                } else {
                    Mark::FarSent
                }
            }
            CachedMatch::Received { from } => {
                if from < FAR {
                    Mark::of_partner(Half::Recv, from)
                } else {
                    Mark::FarReceived
                }
            }
            CachedMatch::Exchanged { .. } => Mark::Exchanged,
        }
    }

    /// The mark of what is kept with a call. A call has no partners when it comes, so these go the slow way.
    #[inline(always)]
    pub(crate) fn of(cached: CachedMatch) -> Mark
        ensures { kept_by result (pair_of cached) ≡ cached }
    {
        match cached {
            CachedMatch::Nothing => Mark::Nothing,
            CachedMatch::Wave { number } => Mark::of_wave(number),
            _ => Mark::of_partners(cached),
        }
    }

    /// Whether nothing is kept with the call.
    #[inline(always)]
    pub(crate) fn is_empty(&self) -> bool
        ensures { result ≡ true → (pair : Pair) → kept_by self.now pair ≡ Nothing }
    {
        matches!(*self, Mark::Nothing)
    }

    /// The place of a half's partner.
    #[inline(always)]
    pub(crate) fn partner(&self, half: Half, pairs: &[Pair], index: usize) -> Option<u32>
        ensures { result ≡ partner_in half (kept_by self.now (pair_at pairs.now index)) }
    {
        match (half, *self) {
            (Half::Send, Mark::Sent { high, low }) | (Half::Recv, Mark::Received { high, low }) => {
                Some(joined(high, low))
            }
            (_, Mark::Nothing | Mark::Wave { .. } | Mark::Sent { .. } | Mark::Received { .. }) => {
                None
            }
            _ => self.partner_apart(half, pairs, index),
        }
    }

    /// The place of a half's partner, whatever is kept with the call.
    #[inline(never)]
    fn partner_apart(&self, half: Half, pairs: &[Pair], index: usize) -> Option<u32>
        ensures { result ≡ partner_in half (kept_by self.now (pair_at pairs.now index)) }
    {
        self.kept(pairs, index).partner(half)
    }

    /// The number of the call's wave; 0 where none is kept.
    #[inline(always)]
    pub(crate) fn wave(self, pairs: &[Pair], index: usize) -> u32
        ensures { result ≡ wave_in (kept_by self (pair_at pairs.now index)) }
    {
        match self {
            Mark::Wave { high, low } => joined(high, low),
            Mark::FarWave => pair_at(pairs, index).first,
            _ => 0,
        }
    }

    /// Whether the numbers are in the call's pair.
    #[inline(always)]
    pub(crate) fn is_apart(&self) -> bool
        ensures { result ≡ is_apart self.now }
    {
        matches!(
            *self,
            Mark::FarWave | Mark::FarSent | Mark::FarReceived | Mark::Exchanged
        )
    }

    /// What is kept with the call whose pair has that index.
    pub(crate) fn kept(self, pairs: &[Pair], index: usize) -> CachedMatch
        ensures { result ≡ kept_by self (pair_at pairs.now index) }
    {
        match self {
            Mark::Nothing => CachedMatch::Nothing,
            Mark::Wave { high, low } => CachedMatch::Wave {
                number: joined(high, low),
            },
            Mark::Sent { high, low } => CachedMatch::Sent {
                to: joined(high, low),
            },
            Mark::Received { high, low } => CachedMatch::Received {
                from: joined(high, low),
            },
            Mark::FarWave => CachedMatch::Wave {
                number: pair_at(pairs, index).first,
            },
            Mark::FarSent => CachedMatch::Sent {
                to: pair_at(pairs, index).first,
            },
            Mark::FarReceived => CachedMatch::Received {
                from: pair_at(pairs, index).first,
            },
            Mark::Exchanged => {
                let pair = pair_at(pairs, index);
                CachedMatch::Exchanged {
                    to: pair.first,
                    from: pair.second,
                }
            }
        }
    }
}

/// The pair with that index; zeros where there is none.
#[inline(never)]
fn pair_at(pairs: &[Pair], index: usize) -> Pair
    ensures { result ≡ pair_at pairs.now index }
{
    match pairs.get(index) {
        Some(pair) => *pair,
        None => pair_of(CachedMatch::Nothing),
    }
}
