//! Entries by which all members of a communicator make new ones.

ghost use Rattle.std.specs.Prelude.{◌≡◌, ℕ, IfSome, Option, is_some, length, option_and_then, true};
ghost use Rattle.closing.specs.Called.{Splits};
ghost use Rattle.closing.specs.Entries.{Placed, Run};
ghost use Rattle.closing.specs.Entry.{bare_line, colour_of, giving_line, made_line, maker, parent_group, split_key};
ghost use Rattle.closing.specs.Keys.{Key, group_of_key};
ghost use Rattle.closing.specs.Numbers.{number_of};
ghost use Rattle.closing.specs.inner.Makers.{IsNewOf, IsSmall, MeetsMaker};
ghost use Rattle.closing.specs.inner.Numbered.{IsNumberedRun};
ghost use Rattle.closing.specs.inner.Table.{HasKey, IsPlaceOf};
ghost use Rattle.closing.specs.inner.Views.{called_view};
ghost use Rattle.closing.specs.inner.Walked.{IsAt, Takes};
ghost use Rattle.closing.specs.inner.Walks.{Spot, makes_on};

use super::{At, Walk};
use crate::called::Called;
use crate::numbers::Communicators;
use crate::stop::Stop;
use mpicall::call::{Call, Kind};

/// A colour below 0 is written as that number plus 2147483648.
fn colour_of(colour: i32) -> u32
    ensures { result ≡ colour_of colour }
{
    let colour = i64::from(colour);
    if colour < 0 {
        (colour + 2_147_483_648) as u32
    } else {
        colour as u32
    }
}

/// The key of a split; 0 of other calls.
fn key_in(it: &Called<'_>) -> i32
    ensures { result ≡ split_key (called_view it.now) }
{
    match it {
        Called::Splits(_, _, key) => *key,
        _ => 0,
    }
}

/// A communicator with a number that a call made, by its key; and the number of that which the call is on.
#[derive(Clone, Copy)]
struct New {
    comm: u16,
    key: u32,
    number: u16,
}

/// The communicator with a number that the call made.
fn new_one(run: &Communicators, at: &At<'_>, comm: u16) -> Option<New>
    ensures comm { IfSome result (λ it. it.comm ≡ comm) }
    ensures made { (journals : Run) (key : Option Key) → IsNumberedRun journals run.now → IsPlaceOf run.now.keys at.now.made key →
        IsNewOf run.now.keys result key (option_and_then (number_of journals) key) }
{
    let key = at.made?;
    let number = run.number(key)?;
    Some(New { comm, key, number })
}

/// What any other call is by which the rank got a communicator: a duplicate where it has the group of its
/// parent, which has this key, else a split.
fn made_under(run: &Communicators, parent: u32, rank: u16, new: New) -> Call
    ensures { (journals : Run) (placed : Placed) (on key : Key) → IsNumberedRun journals run.now → placed.rank ≡ rank → HasKey run.now.keys parent on →
        HasKey run.now.keys new.key key → IsSmall journals on → IsSmall journals key →
        result ≡ made_line journals placed new.comm (group_of_key (length journals) on) key new.number }
{
    if run.have_same_group(new.key, parent) {
        return Call::Dup {
            comm: new.comm,
            new: new.number,
        };
    }
    Call::Split {
        comm: new.comm,
        colour: Some(run.place_of_first(parent, new.key)),
        key: run.place_of(new.key, rank),
        new: Some(new.number),
    }
}

/// What any other call is by which the rank got a communicator, by the communicator that the call is on.
fn made_otherwise(run: &Communicators, at: &At<'_>, rank: u16, new: New) -> Call
    ensures { (journals : Run) (placed : Placed) (key : Key) → MeetsMaker journals placed run.now rank at.now → is_some at.now.named ≡ true →
        HasKey run.now.keys new.key key → IsSmall journals key →
        result ≡ made_line journals placed new.comm (parent_group journals placed) key new.number }
{
    match at.named {
        Some(parent) => made_under(run, parent.key, rank, new),
        None => Call::Dup {
            comm: new.comm,
            new: new.number,
        },
    }
}

/// What a split is by which the rank got a communicator.
fn split_line(colour: Option<i32>, key: i32, new: New) -> Call
    ensures { (journals : Run) (placed : Placed) (own : ℕ) (made : Key) →
        result ≡ giving_line journals placed new.comm (Splits own colour key) made new.number }
{
    match colour {
        Some(colour) => Call::Split {
            comm: new.comm,
            colour: Some(colour_of(colour)),
            key,
            new: Some(new.number),
        },
        None => Call::Dup {
            comm: new.comm,
            new: new.number,
        },
    }
}

/// What the call is by which a rank got none with a number.
fn bare_line(run: &Communicators, at: &At<'_>, comm: u16, it: &Called<'_>) -> Call
    ensures { (journals : Run) (placed : Placed) (rank : ℕ) → MeetsMaker journals placed run.now rank at.now → placed.called ≡ called_view it.now →
        result ≡ bare_line journals placed comm }
{
    if run.brings(at.wave) {
        Call::Split {
            comm,
            colour: None,
            key: key_in(it),
            new: None,
        }
    } else {
        Call::Coll {
            comm,
            kind: Kind::Barrier,
        }
    }
}

impl Walk {
    /// What the call is by which the rank got a communicator with a number.
    fn giving_line(&self, run: &Communicators, at: &At<'_>, it: &Called<'_>, new: New) -> Call
        ensures { (journals : Run) (placed : Placed) (key : Key) → MeetsMaker journals placed run.now self.now.rank at.now → is_some at.now.named ≡ true →
            HasKey run.now.keys new.key key → IsSmall journals key →
            result ≡ giving_line journals placed new.comm (called_view it.now) key new.number }
    {
        match it {
            Called::Splits(_, colour, key) => split_line(*colour, *key, new),
            Called::Makes(_) => made_otherwise(run, at, self.rank, new),
            _ => Call::Dup {
                comm: new.comm,
                new: new.number,
            },
        }
    }

    /// What the call is.
    fn maker(&self, run: &Communicators, at: &At<'_>, it: &Called<'_>, comm: u16) -> Call
        ensures { (journals : Run) (placed : Placed) → MeetsMaker journals placed run.now self.now.rank at.now → is_some at.now.named ≡ true → placed.called ≡ called_view it.now →
            result ≡ maker journals placed comm }
    {
        match new_one(run, at, comm) {
            Some(new) => self.giving_line(run, at, it, new),
            None => bare_line(run, at, comm, it),
        }
    }

    #[inline(never)]
    pub(super) fn makes(
        &mut self,
        run: &Communicators,
        at: &At<'_>,
        it: &Called<'_>,
    ) -> Result<(), Stop>
        ensures same { self.new ≡ record self.old { list = self.new.list } }
        ensures takes { (spot : Spot) (journals : Run) (placed : Placed) → IsAt spot at.now → MeetsMaker journals placed run.now self.old.rank at.now →
            placed.called ≡ called_view it.now → spot.maker ≡ maker journals placed → Takes spot (makes_on spot) result self.old.list self.new.list }
    {
        let comm = at.number_if(true)?;
        let call = self.maker(run, at, it, comm);
        self.list.does(&call)
    }
}
