//! How the list of publications is kept, and how one more is written after it.
//!
//! The list is nowhere in memory. It is known to proofs alone, by tokens without bytes. A `Known` says how the list
//! begins, and two of one list always agree. The `Pen` of a list has all of it, and is the right to write at its end:
//! there is one, which can't be copied, so nobody else adds to the list.

ghost use Rattle.std.specs.Prelude.{◌≡◌, ℕ, List, [], ◌∷◌, ◌++◌};
ghost use mathlib.Core.List.{IsPrefix};
ghost use base.Fraction.{full_share};
ghost use denote.Sharing.{said, one};
ghost use Rattle.std.specs.Coded.{coded_list};
ghost use Rattle.watches.specs.declared.stands.Stands.{Stands as StandsValue};
ghost use Rattle.watches.specs.Publications.{at_start};
ghost use Rattle.watches.specs.Stored.{stands_coded};
ghost use Rattle.watches.specs.inner.Tokens.{is_all, begins_so};

use crate::stands::Stands;
use std::marker::{Model, PhantomData};

/// The right to write at the end of a list, all of which is known.
pub struct Pen {
    marker: PhantomData<()>,
    pub ghost name: { ℕ },
    pub ghost list: { List StandsValue } by { coded_list stands_coded },
}

impl Model for Pen {
    ghost also_owns = { λ p. is_all p.name p.list full_share };

    ghost also_shares = { λ p _ κ. one (is_all p.name p.list) κ };
}

/// What is known of a list: how it begins.
pub struct Known {
    marker: PhantomData<()>,
    pub ghost name: { ℕ },
    pub ghost list: { List StandsValue } by { coded_list stands_coded },
}

impl Model for Known {
    ghost also_owns = { λ k. begins_so k.name k.list };

    ghost also_shares = { λ k _ κ. said (begins_so k.name k.list) κ };
}

impl Pen {
    /// The pen of a new list: the stands 0 everywhere are its first publication.
    pub(crate) fn begin() -> Pen
        ensures { result.list ≡ at_start ∷ [] }
    {
        Pen {
            marker: PhantomData,
        }
    }

    /// Writes stands at the end of the list.
    pub(crate) fn append(&mut self, _stands: &Stands)
        ensures { (self.new.name ≡ self.old.name) × (self.new.list ≡ self.old.list ++ _stands.now ∷ []) }
    {}

    /// What is known of the list now.
    pub(crate) fn known(&self) -> Known
        ensures { (result.name ≡ self.now.name) × (result.list ≡ self.now.list) }
    {
        Known {
            marker: PhantomData,
        }
    }

    /// What anybody knows of the list was written by the pen.
    pub(crate) fn wrote(&self, _known: &Known)
        requires { _known.now.name ≡ self.now.name }
        ensures { IsPrefix _known.now.list self.now.list }
    {}
}

impl Known {
    /// A copy: it says as much of how the list begins.
    pub(crate) fn again(&self) -> Known
        ensures { result ≡ self.now }
    {
        Known {
            marker: PhantomData,
        }
    }

    /// What two know of one list begins what both know of it.
    pub(crate) fn agrees(&self, _other: &Known)
        requires { _other.now.name ≡ self.now.name }
        ensures { (both : List StandsValue) × IsPrefix self.now.list both × IsPrefix _other.now.list both }
    {}
}

// By hand: a derived drop is proved again at each exit of a function that owns one.
impl Drop for Pen {
    fn drop(self) {
        let Self { marker: _ } = self;
    }
}

// By hand: a derived drop is proved again at each exit of a function that owns one.
impl Drop for Known {
    fn drop(self) {
        let Self { marker: _ } = self;
    }
}

unsafe impl Send for Pen {}

unsafe impl Sync for Pen {}

unsafe impl Send for Known {}

unsafe impl Sync for Known {}
