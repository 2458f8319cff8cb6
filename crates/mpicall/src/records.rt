//! A list of records that is filled and cleared again and again.

ghost use Rattle.std.specs.Prelude.{◌≡◌, ◌↔◌, ◌<◌, ◌≤◌, ◌++◌, [], ◌∷◌, IsTrue, IfOk, MatchBool, OnOk, length, take};
ghost use Rattle.mpicall.specs.Limits.{in_ranges};

use crate::call::Call;
use crate::record::{Record, is_in_ranges};
use std::alloc::{AllocError, Global};
use std::marker::Model;

/// Records, in order; contracts see the list of their calls. A record takes some 264 bytes, of which most calls need few,
/// so the places of those that were let go are kept: a call is written straight into one.
#[derive(Drop)]
pub struct Records {
    places: Vec<Record>,
    count: usize,
}

impl Model for Records {
    ghost use Rattle.std.specs.Prelude.{List, ◌≤◌, length, take};
    ghost use Rattle.mpicall.specs.declared.call.Call.{Call};

    ghost Value = { List Call };

    ghost view = { λ r. take r.count r.places.items };

    ghost invariant = { λ r. r.count ≤ length r.places.items };
}

/// Has a place after so many.
#[inline(always)]
fn make_room(places: &mut Vec<Record>, count: usize) -> Result<(), AllocError>
    requires { count ≤ length places.old.items }
    ensures same { take count places.new.items ≡ take count places.old.items }
    ensures kept { count ≤ length places.new.items }
    ensures room { OnOk result (count < length places.new.items) }
{
    if count == places.len() {
        places.push(Record::finalize())?;
    }
    Ok(())
}

impl Records {
    pub fn new(alloc: Global) -> Records
        ensures { result ≡ [] }
    {
        Records {
            places: Vec::new(alloc),
            count: 0,
        }
    }

    /// Puts the record of a call after the others; says whether there is one, which is so exactly where each of the
    /// call's fields is in its range.
    #[inline(always)]
    #[tactic(auto, using(std::proofs::lemmas::List::take_more_set))]
    pub fn put(&mut self, call: &Call) -> Result<bool, AllocError>
        ensures put { IfOk result (λ is_put. IsTrue is_put ↔ IsTrue (in_ranges call.now)) }
        ensures records { IfOk result (λ is_put. MatchBool is_put (self.new ≡ self.old ++ call.now ∷ []) (self.new ≡ self.old)) }
    {
        if !is_in_ranges(call) {
            return Ok(false);
        }
        make_room(&mut self.places, self.count)?;
        self.places[self.count].set(call);
        self.count += 1;
        Ok(true)
    }

    /// Lets all of them go.
    pub fn clear(&mut self)
        ensures { self.new ≡ [] }
    {
        self.count = 0;
    }

    pub fn as_slice(&self) -> &[Record]
        ensures { result.now ≡ self.now }
    {
        &self.places[..self.count]
    }
}
