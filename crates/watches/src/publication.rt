//! A publication of the stands, and what is known of those before it.
//!
//! A publication is the stands, its number, and a token without bytes that says how the list of
//! publications begins. Two tokens of one list always agree, so of two publications the one with more
//! before it is the later. Stands that were published last aren't published again.

ghost use Rattle.std.specs.Prelude.{◌≡◌, ◌≤◌, ◌+◌, [], ◌∷◌, ◌++◌, length, nat_le, slice_get, sum, true, false, Some, IfSome};
ghost use mathlib.Core.List.{IsPrefix};
ghost use Rattle.watches.specs.Stands.{is_further};
ghost use Rattle.watches.specs.Publications.{at_start, last_published, is_rising};

use crate::append::{Known, Pen};
use crate::stands::Stands;

/// Stands that were published, and the list of the publications up to them.
#[derive(Drop)]
pub struct Publication {
    stands: Stands,
    /// How many publications there are up to this one.
    number: u64,
    known: Known,
    ghost counts: { number ≡ length known.list },
    ghost last: { last_published known.list ≡ Some stands },
    ghost first: { slice_get known.list 0 ≡ Some at_start },
    ghost rising: { is_rising known.list ≡ true },
    // Each publication is further than the one before it, so their number doesn't run out.
    ghost few: { number ≤ sum stands.places + 1 },
}

impl Publication {
    ghost use Rattle.watches.specs.Published.{list_known, book_of};
    ghost use Rattle.watches.specs.inner.Written.{IsLast};

    /// The first one.
    pub(crate) fn first(known: Known) -> Publication
        requires { known.list ≡ at_start ∷ [] }
        ensures list { list_known result ≡ at_start ∷ [] }
        ensures book { book_of result ≡ known.name }
    {
        Publication {
            stands: Stands::at_start(),
            number: 1,
            known,
        }
    }

    /// A copy of the publication.
    pub(crate) fn again(&self) -> Publication
        ensures { result ≡ self.now }
    {
        Publication {
            stands: self.stands,
            number: self.number,
            known: self.known.again(),
        }
    }

    /// What is known of the list.
    pub(crate) fn known(&self) -> &Known
        ensures { result.now ≡ self.now.known }
    {
        &self.known
    }

    /// The stands that it shows.
    pub(crate) fn stands(&self) -> &Stands
        ensures { last_published (list_known self.now) ≡ Some result.now }
    {
        &self.stands
    }

    /// Becomes the other one, of which nothing is left out.
    pub(crate) fn copy_from(&mut self, other: &Publication)
        ensures { self.new ≡ other.now }
    {
        self.stands = other.stands;
        self.number = other.number;
        self.known = other.known.again();
    }

    /// Whether the other one is no later. Of two publications of one list the list of the earlier one begins that
    /// of the later one.
    pub(crate) fn covers(&self, other: &Publication) -> bool
        requires { book_of other.now ≡ book_of self.now }
        ensures value { result ≡ nat_le (length (list_known other.now)) (length (list_known self.now)) }
        ensures within { result ≡ true → IsPrefix (list_known other.now) (list_known self.now) }
        ensures beyond { result ≡ false → IsPrefix (list_known self.now) (list_known other.now) }
    {
        self.known.agrees(&other.known);
        other.number <= self.number
    }

    /// Becomes the other one, if that is the later of the two.
    pub(crate) fn become_newer(&mut self, other: &Publication)
        requires { book_of other.now ≡ book_of self.old }
        ensures book { book_of self.new ≡ book_of self.old }
        ensures this { IsPrefix (list_known self.old) (list_known self.new) }
        ensures that { IsPrefix (list_known other.now) (list_known self.new) }
    {
        if !self.covers(other) {
            self.copy_from(other);
        }
    }

    /// Becomes the publication of these stands after this one, which is all that the pen wrote. It answers whether
    /// it did; where the ranks are no further it stays as it is.
    pub(crate) fn become_next(&mut self, pen: &mut Pen, stands: &Stands) -> bool
        requires { IsLast pen.old self.old }
        ensures last { IsLast pen.new self.new }
        ensures yes { result ≡ true → list_known self.new ≡ list_known self.old ++ stands.now ∷ [] }
        ensures no { result ≡ false → self.new ≡ self.old }
        ensures no_further { result ≡ false → IfSome (last_published (list_known self.old)) (λ last. is_further last.places stands.now.places ≡ false) }
        ensures book { book_of self.new ≡ book_of self.old }
    {
        if !self.stands.is_behind(stands) {
            return false;
        }
        pen.append(stands);
        self.stands = *stands;
        self.number += 1;
        self.known = pen.known();
        true
    }
}
