//! The rule of the channel: what it holds, and what each end has done.
//!
//! An end makes five kinds of step: it puts a record, puts the end mark, takes the front, finds the
//! channel full, finds it empty.

use crossbeam_channel::protocol::{Join, Lesson, Outcome, Protocol, Split};
use rankfeed::item::Item;
use std::collections::LinkedList;

/// What an end may do, and what it has put and taken. No value of it is made.
pub struct Hand {
    pub may_put: bool,
    pub may_take: bool,
    pub put_items: LinkedList<Item>,
    pub taken_items: LinkedList<Item>,
}

/// What was put is what was taken and then what the channel holds, and it is in order.
pub struct Relay;

impl Protocol<Item, Hand> for Relay {
    ghost use Rattle.std.specs.Prelude.{true, []};
    ghost use Rattle.channelfeed.specs.inner.Relays.{hand, Relayed};

    ghost holds = { Relayed };

    ghost first = { hand true true [] [] };
}

/// The two ends, each with its own right; and both rights again, in the taker's hand.
pub struct Rights;

impl Split<Hand> for Rights {
    ghost use Rattle.std.specs.Prelude.{true, false, []};
    ghost use Rattle.channelfeed.specs.inner.Relays.{hand};

    ghost left = { λ v. hand true false v.put_items [] };

    ghost right = { λ v. hand false true [] v.taken_items };
}

impl Join<Hand> for Rights {
    ghost use Rattle.std.specs.Prelude.{true, false, []};
    ghost use Rattle.channelfeed.specs.inner.Relays.{hand};

    ghost both = { λ v w. hand true true w.put_items v.taken_items };

    ghost spent = { hand false false [] [] };
}

/// Puts a record or the end mark, or finds the channel full.
pub struct Puts;

impl Outcome<Item, Hand> for Puts {
    ghost use Rattle.channelfeed.specs.inner.Relays.{Put};

    ghost then = { Put };
}

impl Lesson<Item, Hand> for Puts {
    ghost use Rattle.std.specs.Prelude.{◌≤◌, length};

    ghost fact = { λ v items. length items ≤ length v.put_items };
}

/// Takes the front, or finds the channel empty.
pub struct Takes;

impl Outcome<Item, Hand> for Takes {
    ghost use Rattle.channelfeed.specs.inner.Relays.{Taken};

    ghost then = { Taken };
}

impl Lesson<Item, Hand> for Takes {
    ghost use Rattle.channelfeed.specs.inner.Relays.{Leaves};

    ghost fact = { Leaves };
}
