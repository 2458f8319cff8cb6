//! What is kept with a call.
//!
//! The wave and the starts are known when the call is added and never change, since they depend on earlier
//! calls of the same rank alone. A partner is written at both calls when the later one comes. So a partner
//! is read from the call, without its envelope.

ghost use Rattle.std.specs.Prelude.{◌≡◌};
ghost use Rattle.callstore.specs.CachedMatch.{partner_in, wave_in, with_partner};

use crate::envelope::Half;

/// What is kept with a call: the number of the wave that a collective joins, and the places of the calls
/// that its halves go with, as far as they came.
#[derive(Clone, Copy)]
pub enum CachedMatch {
    Nothing,
    Wave { number: u32 },
    Sent { to: u32 },
    Received { from: u32 },
    Exchanged { to: u32, from: u32 },
}

impl CachedMatch {
    /// The place of the partner that is kept for a half.
    #[inline(always)]
    pub(crate) fn partner(&self, half: Half) -> Option<u32>
        ensures { result ≡ partner_in half self.now }
    {
        match (half, *self) {
            (Half::Send, CachedMatch::Sent { to } | CachedMatch::Exchanged { to, .. }) => Some(to),
            (Half::Recv, CachedMatch::Received { from } | CachedMatch::Exchanged { from, .. }) =>
                Some(from),
            _ => None,
        }
    }

    /// The number of the wave that is kept; 0 where none is.
    #[inline(always)]
    pub(crate) fn wave(&self) -> u32
        ensures { result ≡ wave_in self.now }
    {
        match *self {
            CachedMatch::Wave { number } => number,
            _ => 0,
        }
    }

    /// What is kept with the call once a half's partner is known to be at the place.
    #[inline(always)]
    pub(crate) fn with_partner(self, half: Half, there: u32) -> CachedMatch
        ensures { result ≡ with_partner half there self }
    {
        match (half, self) {
            (Half::Send, CachedMatch::Received { from } | CachedMatch::Exchanged { from, .. }) => {
                CachedMatch::Exchanged { to: there, from }
            }
            (Half::Send, _) => CachedMatch::Sent { to: there },
            (Half::Recv, CachedMatch::Sent { to } | CachedMatch::Exchanged { to, .. }) => {
                CachedMatch::Exchanged { to, from: there }
            }
            (Half::Recv, _) => CachedMatch::Received { from: there },
        }
    }
}
