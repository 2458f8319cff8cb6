//! The requests that one wait names, held in place.

ghost use Rattle.std.specs.Prelude.{◌≡◌, ◌≤◌, ◌<◌, ◌↔◌, [], ◌∷◌, ◌++◌, ◌==◌, length, IsSome, IfSome};

use crate::limits::MOST_REQUESTS;
use std::marker::Model;

/// One to [`MOST_REQUESTS`] numbers of requests, in the order in which a wait names them. Contracts see
/// their list.
#[derive(Clone, Copy, PartialEq, Eq)]
pub struct Reqs {
    cells: [u32; MOST_REQUESTS],
    len: u8,
}

impl Model for Reqs {
    ghost use Rattle.std.specs.Prelude.{List, ℕ, ◌≡◌, ◌≤◌, ◌-◌, ◌++◌, length, take, drop, replicate};
    ghost use Rattle.mpicall.specs.inner.Cells.{same_cells, same_len};
    ghost use Rattle.mpicall.specs.declared.limits.TheConstants.{MOST_REQUESTS};

    ghost Value = { List ℕ };

    ghost view = { λ r. take r.len r.cells };

    // the cells after the numbers are 0, so that the list gives the fields back
    ghost invariant = { λ r. (1 ≤ r.len) × (r.len ≤ MOST_REQUESTS) × (length r.cells ≡ MOST_REQUESTS) × (drop r.len r.cells ≡ replicate (MOST_REQUESTS - r.len) 0) };

    ghost inverse = { λ xs. record { cells = xs ++ replicate (MOST_REQUESTS - length xs) 0; len = length xs } };

    ghost inverse_ok = { λ r h i. record {
      cells = same_cells r.len r.cells h.1 h.2 h.3 i;
      len = same_len r.len r.cells h.1 h.2 i;
    } };
}

impl Reqs {
    /// The list of the numbers, or None exactly where they are none or too many.
    pub fn new(numbers: &[u32]) -> Option<Reqs>
        ensures some { IsSome result ↔ ((1 ≤ length numbers.now) × (length numbers.now ≤ MOST_REQUESTS)) }
        ensures value { IfSome result (λ reqs. reqs ≡ numbers.now) }
    {
        if numbers.is_empty() || numbers.len() > MOST_REQUESTS {
            return None;
        }
        let mut reqs = Reqs::of_one(numbers[0]);
        for at in 1..numbers.len() {
            reqs.push(numbers[at]);
        }
        Some(reqs)
    }

    /// The list of one number.
    pub(crate) fn of_one(number: u32) -> Reqs
        ensures { result ≡ number ∷ [] }
    {
        let mut cells = [0; MOST_REQUESTS];
        cells[0] = number;
        Reqs { cells, len: 1 }
    }

    /// Puts another number in the place of the only one.
    #[tactic(auto, using(crate::proofs::CellLemmas::cell_steps))]
    pub(crate) fn set_only(&mut self, number: u32)
        requires { length self.old ≡ 1 }
        ensures { self.new ≡ number ∷ [] }
    {
        self.cells[0] = number;
    }

    /// Whether as many numbers are held as may be.
    pub(crate) fn is_full(&self) -> bool
        ensures { result ≡ (length self.now == MOST_REQUESTS) }
    {
        usize::from(self.len) == MOST_REQUESTS
    }

    /// Adds a number after the others.
    #[tactic(auto, using(crate::proofs::CellLemmas::cell_steps))]
    pub(crate) fn push(&mut self, number: u32)
        requires { length self.old < MOST_REQUESTS }
        ensures { self.new ≡ self.old ++ number ∷ [] }
    {
        self.cells[usize::from(self.len)] = number;
        self.len += 1;
    }

    /// How many numbers there are.
    pub(crate) fn count(&self) -> usize
        ensures { result ≡ length self.now }
    {
        usize::from(self.len)
    }

    /// The numbers, in order.
    pub fn as_slice(&self) -> &[u32]
        ensures value { result.now ≡ self.now }
        ensures least { 1 ≤ length result.now }
        ensures most { length result.now ≤ MOST_REQUESTS }
    {
        &self.cells[..usize::from(self.len)]
    }
}
