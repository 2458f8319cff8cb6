//! The feed over a ring that no call waits for: the two ends, and the receipt of what was put.
//!
//! A ring has one place more than its capacity, for the end mark, so `seal` and `tear` never wait. The
//! taker looks at the front item in its place, so of a record's 264 bytes only those are read that the call
//! needs.

ghost use Rattle.std.specs.Prelude.{◌≡◌, ◌<◌, ◌+◌, ◌≤◌, true, false, None, length};
ghost use Rattle.rtrb.specs.Ring.{sent, received, all_sent, known_free, producer_capacity};
ghost use Rattle.rankfeed.specs.Items.{last_item, end_the_list, end_mark_of, are_ended};
ghost use Rattle.rankfeed.specs.inner.Items.{may_follow, are_in_order};

use crate::answer::{Came, Met, PutFault, Took, Unsealed};
use crate::bell::Bell;
use crate::item::Item;
use mpicall::fault::{Ending, SourceFault};
use mpicall::record::Record;
use rtrb::{Consumer, Finished, Producer, Protocol, RingBuffer};
use std::alloc::{AllocError, Global};
use std::sync::Wait;

/// The rule of the ring: each item may follow the one before it.
struct InOrder;

impl Protocol<Item> for InOrder {
    ghost use Rattle.std.specs.Prelude.{◌≡◌, true};
    ghost use Rattle.rankfeed.specs.Items.{last_item};
    ghost use Rattle.rankfeed.specs.inner.Items.{may_follow};

    ghost allows = { λ before next. may_follow (last_item before) next ≡ true };
}

/// The end of a feed that puts.
#[derive(Drop)]
pub struct Feed {
    rank: u16,
    ring: Producer<Item, Global, InOrder>,
    bell: Bell,
    done: bool,
    ghost in_order: { are_in_order (sent ring) ≡ true },
    ghost closed: { end_the_list (sent ring) ≡ done },
    ghost unended: { end_mark_of (sent ring) ≡ None },
    // The end mark's place.
    ghost kept: { 0 < known_free ring },
    ghost roomy: { producer_capacity ring ≤ length (sent ring) + known_free ring },
}

/// The end of a feed that takes.
#[derive(Drop)]
pub struct Taker {
    rank: u16,
    ring: Consumer<Item, Global, InOrder>,
    bell: Bell,
    end: Option<Ending>,
    ghost in_order: { are_in_order (received ring) ≡ true },
    ghost ended: { end_mark_of (received ring) ≡ end },
}

/// All that was put on a feed, its end mark last.
#[derive(Drop)]
pub struct Receipt {
    rank: u16,
    ring: Finished<Item, Global, InOrder>,
    ghost in_order: { are_in_order (all_sent ring) ≡ true },
    ghost whole: { are_ended (all_sent ring) ≡ true },
}

impl Feed {
    ghost use Rattle.std.specs.Prelude.{◌↔◌, [], ◌∷◌, ◌++◌, not, IsTrue, IsErr, IfOk, IfErr, OnOk, Ok, Err};
    ghost use Rattle.mpicall.specs.declared.fault.Ending.TheVariants.{Sealed, Torn};
    ghost use Rattle.rankfeed.specs.declared.item.Item.TheVariants.{Entry, Mark};
    ghost use Rattle.rankfeed.specs.declared.answer.PutFault.TheVariants.{Full, Closed};
    ghost use Rattle.rankfeed.specs.Items.{IsFeed};
    ghost use Rattle.rankfeed.specs.Answers.{handed_back};
    ghost use Rattle.rankfeed.specs.Rings.{feed_ring, feed_capacity, sent_by, receipt_ring, sent_whole, taker_ring, received_by};

    /// A feed with room for `capacity` records, and its taker.
    pub fn open(alloc: Global, rank: u16, capacity: u16) -> Result<(Feed, Taker), AllocError>
        requires { 0 < capacity }
        ensures name { IfOk result (λ ends. taker_ring ends.1 ≡ feed_ring ends.0) }
        ensures rank { IfOk result (λ ends. (feed_ring ends.0).rank_number ≡ rank) }
        ensures feed { IfOk result (λ ends. (feed_capacity ends.0 ≡ capacity) × (sent_by ends.0 ≡ [])) }
        ensures taker { IfOk result (λ ends. received_by ends.1 ≡ []) }
    {
        let places = usize::from(capacity) + 1;
        let (bell, other) = Bell::pair(alloc)?;
        let (producer, consumer) = RingBuffer::with_protocol::<Global, InOrder>(alloc, places)?;
        let feed = Feed {
            rank,
            ring: producer,
            bell,
            done: false,
        };
        let taker = Taker {
            rank,
            ring: consumer,
            bell: other,
            end: None,
        };
        Ok((feed, taker))
    }

    /// The rank whose records are put.
    pub fn rank(&self) -> u16
        ensures { result ≡ (feed_ring self.now).rank_number }
    {
        self.rank
    }

    /// Whether the end record was put, `finalize` or `open`, so that the feed takes no other record.
    pub fn is_done(&self) -> bool
        ensures { result ≡ end_the_list (sent_by self.now) }
    {
        self.done
    }

    /// Looks for a place for a record, besides the one that is kept for the end mark.
    fn has_room(&mut self) -> bool
        ensures name { feed_ring self.new ≡ feed_ring self.old }
        ensures capacity { feed_capacity self.new ≡ feed_capacity self.old }
        ensures sent { sent_by self.new ≡ sent_by self.old }
        ensures done { self.new.done ≡ self.old.done }
        ensures room { IsTrue result → 1 < known_free self.new.ring }
        ensures early { length (sent_by self.old) < feed_capacity self.old → IsTrue result }
    {
        self.ring.cached_slots() > 1 || self.ring.slots() > 1
    }

    /// Puts a record at the back, where there is a place for it.
    #[tactic(auto, using(crate::proofs::ItemLemmas::item_steps))]
    fn push(&mut self, call: &Record)
        requires open { self.old.done ≡ false }
        requires room { 1 < known_free self.old.ring }
        ensures name { feed_ring self.new ≡ feed_ring self.old }
        ensures capacity { feed_capacity self.new ≡ feed_capacity self.old }
        ensures sent { sent_by self.new ≡ sent_by self.old ++ Entry call.now ∷ [] }
    {
        self.done = call.ends_list();
        self.ring.push_reserved(Item::Entry(*call));
    }

    /// Puts a record at the back. `Closed` comes first, `Full` only once as many records were put as the
    /// feed has room for; both leave the feed as it was.
    #[tactic(auto, using(crate::proofs::ItemLemmas::item_steps))]
    pub fn try_put(&mut self, call: Record) -> Result<(), PutFault>
        ensures name { feed_ring self.new ≡ feed_ring self.old }
        ensures capacity { feed_capacity self.new ≡ feed_capacity self.old }
        ensures ok { OnOk result (sent_by self.new ≡ sent_by self.old ++ Entry call ∷ []) }
        ensures err { IfErr result (λ fault. (handed_back fault ≡ call) × (sent_by self.new ≡ sent_by self.old)) }
        ensures closed { (result ≡ Err (Closed call)) ↔ IsTrue (end_the_list (sent_by self.old)) }
        ensures full { result ≡ Err (Full call) → feed_capacity self.old ≤ length (sent_by self.old) }
    {
        if self.done {
            return Err(PutFault::Closed(call));
        }
        if !self.has_room() {
            return Err(PutFault::Full(call));
        }
        self.push(&call);
        Ok(())
    }

    /// Puts a record at the back, and waits for a place. It answers no other fault than `Closed`.
    pub fn put(&mut self, call: Record, wait: &impl Wait) -> Result<(), PutFault>
        ensures name { feed_ring self.new ≡ feed_ring self.old }
        ensures capacity { feed_capacity self.new ≡ feed_capacity self.old }
        ensures ok { OnOk result (sent_by self.new ≡ sent_by self.old ++ Entry call ∷ []) }
        ensures err { IfErr result (λ fault. (fault ≡ Closed call) × (sent_by self.new ≡ sent_by self.old)) }
        ensures closed { IsErr result ↔ IsTrue (end_the_list (sent_by self.old)) }
    {
        if self.put_copy(&call, wait) {
            Ok(())
        } else {
            Err(PutFault::Closed(call))
        }
    }

    /// Puts a copy of a record at the back, and waits for a place, for those that put many: a record takes
    /// some 264 bytes. False where the end record was put before; then nothing is put.
    #[tactic(auto, using(crate::proofs::ItemLemmas::item_steps))]
    pub fn put_copy(&mut self, call: &Record, wait: &impl Wait) -> bool
        ensures name { feed_ring self.new ≡ feed_ring self.old }
        ensures capacity { feed_capacity self.new ≡ feed_capacity self.old }
        ensures put { IsTrue result → sent_by self.new ≡ sent_by self.old ++ Entry call.now ∷ [] }
        ensures same { result ≡ false → sent_by self.new ≡ sent_by self.old }
        ensures closed { result ≡ not (end_the_list (sent_by self.old)) }
    {
        if self.done {
            return false;
        }
        let mut looks = 0u32;
        for _ in wait.forever() {
            if self.has_room() {
                self.push(call);
                return true;
            }
            self.bell.rest(looks, wait);
            looks = looks.saturating_add(1);
        }
        unreachable!()
    }

    /// Puts the end mark into its place.
    #[tactic(auto, using(crate::proofs::ItemLemmas::item_steps))]
    fn finish(self, end: Ending) -> Result<Receipt, Unsealed>
        requires { may_follow (last_item (sent_by self)) (Mark end) ≡ true }
        ensures name { IfOk result (λ receipt. receipt_ring receipt ≡ feed_ring self) }
        ensures sent { IfOk result (λ receipt. sent_whole receipt ≡ sent_by self ++ Mark end ∷ []) }
        ensures order { IfOk result (λ receipt. IsFeed (sent_whole receipt)) }
    {
        let Feed { rank, mut ring, .. } = self;
        ring.push_reserved(Item::Mark(end));
        match ring.finish() {
            Some(finished) => Ok(Receipt {
                rank,
                ring: finished,
            }),
            None => Err(Unsealed),
        }
    }

    /// Puts the end mark of a feed whose records are all put, the end record last.
    #[tactic(auto, using(crate::proofs::ItemLemmas::item_steps))]
    pub fn seal(self) -> Result<Receipt, Unsealed>
        requires { IsTrue (end_the_list (sent_by self)) }
        ensures name { IfOk result (λ receipt. receipt_ring receipt ≡ feed_ring self) }
        ensures sent { IfOk result (λ receipt. sent_whole receipt ≡ sent_by self ++ Mark Sealed ∷ []) }
        ensures order { IfOk result (λ receipt. IsFeed (sent_whole receipt)) }
    {
        self.finish(Ending::Sealed)
    }

    /// Puts the end mark of a feed whose records stop here.
    #[tactic(auto, using(crate::proofs::ItemLemmas::item_steps))]
    pub fn tear(self, fault: SourceFault) -> Result<Receipt, Unsealed>
        ensures name { IfOk result (λ receipt. receipt_ring receipt ≡ feed_ring self) }
        ensures sent { IfOk result (λ receipt. sent_whole receipt ≡ sent_by self ++ Mark (Torn fault) ∷ []) }
        ensures order { IfOk result (λ receipt. IsFeed (sent_whole receipt)) }
    {
        self.finish(Ending::Torn(fault))
    }
}

impl Taker {
    ghost use Rattle.std.specs.Prelude.{◌↔◌, [], ◌∷◌, ◌++◌, IsTrue, IsSome, Some, IfOk};
    ghost use Rattle.rankfeed.specs.declared.answer.Took.TheVariants as Took;
    ghost use Rattle.rankfeed.specs.declared.answer.Came.TheVariants as Came;
    ghost use Rattle.rankfeed.specs.Items.{IsFeed};
    ghost use Rattle.mpicall.specs.declared.call.Call.{Call};
    ghost use Rattle.rankfeed.specs.declared.item.Item.TheVariants.{Entry};
    ghost use Rattle.rankfeed.specs.Answers.{Receives, Looks};
    ghost use Rattle.rankfeed.specs.Rings.{taker_ring, received_by, left_for, front_of, receipt_ring, sent_whole};

    /// The rank whose records are taken.
    pub fn rank(&self) -> u16
        ensures { result ≡ (taker_ring self.now).rank_number }
    {
        self.rank
    }

    /// Looks for the next item. A record is left at the front; an end mark is taken.
    #[tactic(auto, using(crate::proofs::ItemLemmas::item_steps))]
    pub fn look(&mut self) -> Came
        ensures name { taker_ring self.new ≡ taker_ring self.old }
        ensures received { Looks (end_mark_of (received_by self.old)) result (received_by self.old) (received_by self.new) }
        ensures front { result ≡ Came.Record → IsSome (front_of self.new) × (end_mark_of (received_by self.new) ≡ None) }
        ensures left { are_ended (received_by self.old ++ left_for self.old) ≡ true → received_by self.new ++ left_for self.new ≡ received_by self.old ++ left_for self.old }
        ensures order { IsFeed (received_by self.new) }
        ensures never_empty { are_ended (received_by self.old ++ left_for self.old) ≡ true → ¬ (result ≡ Came.Empty) }
    {
        if let Some(end) = self.end {
            return Came::of(end);
        }
        if self.ring.cached_slots() == 0 && self.ring.slots() == 0 {
            return Came::Empty;
        }
        match *self.ring.peek_known() {
            Item::Entry(_) => Came::Record,
            Item::Mark(end) => {
                self.ring.pop_known();
                self.end = Some(end);
                Came::of(end)
            }
        }
    }

    /// The record at the front, in its place in the ring, for those that take many: a record takes some 264
    /// bytes.
    pub fn front(&self) -> &Record
        requires { IsSome (front_of self.now) }
        ensures { front_of self.now ≡ Some result.now }
    {
        match *self.ring.peek_known() {
            Item::Entry(ref call) => call,
            Item::Mark(_) => unreachable!(),
        }
    }

    /// Takes the record at the front.
    #[tactic(auto, using(crate::proofs::ItemLemmas::item_steps))]
    pub fn pass(&mut self)
        requires front { IsSome (front_of self.old) }
        requires open { end_mark_of (received_by self.old) ≡ None }
        ensures name { taker_ring self.new ≡ taker_ring self.old }
        ensures received { (call : Call) → front_of self.old ≡ Some call → received_by self.new ≡ received_by self.old ++ Entry call ∷ [] }
        ensures left { received_by self.new ++ left_for self.new ≡ received_by self.old ++ left_for self.old }
        ensures order { IsFeed (received_by self.new) }
    {
        self.ring.pop_known();
        if self.ring.cached_slots() == 0 {
            self.bell.ring();
        }
    }

    /// Takes the item at the front.
    pub fn try_take(&mut self) -> Took
        ensures name { taker_ring self.new ≡ taker_ring self.old }
        ensures received { Receives (end_mark_of (received_by self.old)) result (received_by self.old) (received_by self.new) }
        ensures left { are_ended (received_by self.old ++ left_for self.old) ≡ true → received_by self.new ++ left_for self.new ≡ received_by self.old ++ left_for self.old }
        ensures order { IsFeed (received_by self.new) }
        ensures never_empty { are_ended (received_by self.old ++ left_for self.old) ≡ true → ¬ (result ≡ Took.Empty) }
    {
        match self.look() {
            Came::Record => {
                let call = *self.front();
                self.pass();
                Took::Record(call)
            }
            Came::Empty => Took::Empty,
            Came::Sealed => Took::Sealed,
            Came::Torn(fault) => Took::Torn(fault),
        }
    }

    /// Learns what is left from the receipt of this taker's feed. From then on no call finds nothing.
    #[tactic(auto, using(crate::proofs::ItemLemmas::item_steps))]
    pub fn meet(&mut self, receipt: Receipt) -> Met
        requires { receipt_ring receipt ≡ taker_ring self.old }
        ensures name { taker_ring self.new ≡ taker_ring self.old }
        ensures received { received_by self.new ≡ received_by self.old }
        ensures left { received_by self.new ++ left_for self.new ≡ sent_whole receipt }
        ensures whole { are_ended (received_by self.new ++ left_for self.new) ≡ true }
        ensures order { IsFeed (sent_whole receipt) }
        ensures count { result.count ≡ length (left_for self.new) }
    {
        let Receipt { mut ring, .. } = receipt;
        Met {
            count: self.ring.slots_after(&mut ring),
        }
    }
}
