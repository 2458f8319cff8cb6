//! The feed over a bounded channel: the same calls as in the ring form, with `wait` last where the
//! channel may take a lock. Records and the end mark go through the one channel, so `seal` and `tear`
//! wait for a place.

ghost use Rattle.std.specs.Prelude.{◌≡◌, ◌<◌, ◌^◌, ◌+◌, ◌≤◌, true, false, None, length};
ghost use Rattle.crossbeam_channel.specs.Claims.{view, IsSeatAt};
ghost use Rattle.crossbeam_channel.specs.Ends.{sends_on, receives_on, ruled_capacity};
ghost use Rattle.rankfeed.specs.Items.{last_item, end_the_list, end_mark_of, are_ended};
ghost use Rattle.rankfeed.specs.inner.Items.{may_follow, are_in_order};

use crossbeam_channel::{Pass, RuledReceiver, RuledSender, TrySendError, bounded_with};
use mpicall::fault::{Ending, SourceFault};
use mpicall::record::Record;
use rankfeed::answer::{Met, Took, Unsealed};
use rankfeed::item::Item;
use rule::{Hand, Puts, Relay, Rights, Takes};
use std::alloc::{AllocError, Global};
use std::sync::Wait;
use std::thread;
use thiserror::Error;

mod rule;

/// The most records of one feed, so that its items can be counted. A feed that has as many is full for
/// good.
const MOST_RECORDS: usize = usize::MAX - 2;

/// Why a record wasn't put. It comes back, and the feed is as before.
#[derive(Clone, Copy, Debug, PartialEq, Eq, Error)]
pub enum PutFault {
    /// There is no room now.
    #[error("no room for a record")]
    Full(Record),
    /// The end record was put, and no record follows it.
    #[error("a record behind finalize")]
    Closed(Record),
    /// The channel has no taker any more.
    #[error("no taker for a record")]
    Lost(Record),
}

/// The end of a feed that puts.
#[derive(Drop)]
pub struct Feed {
    rank: u16,
    sender: RuledSender<Item, Hand, Relay>,
    pass: Pass<Item, Hand>,
    count: usize,
    done: bool,
    ghost on: { IsSeatAt (sends_on sender) pass },
    ghost puts: { (view pass).may_put ≡ true },
    ghost in_order: { are_in_order (view pass).put_items ≡ true },
    ghost closed: { end_the_list (view pass).put_items ≡ done },
    ghost unended: { end_mark_of (view pass).put_items ≡ None },
    ghost counted: { count ≡ length (view pass).put_items },
    ghost countable: { count + 1 < 2 ^ 64 },
    ghost small: { ruled_capacity (sends_on sender) < 2 ^ 16 },
}

/// The end of a feed that takes.
#[derive(Drop)]
pub struct Taker {
    rank: u16,
    receiver: RuledReceiver<Item, Hand, Relay>,
    pass: Pass<Item, Hand>,
    count: usize,
    end: Option<Ending>,
    ghost on: { IsSeatAt (receives_on receiver) pass },
    ghost takes: { (view pass).may_take ≡ true },
    ghost in_order: { are_in_order (view pass).taken_items ≡ true },
    ghost ended: { end_mark_of (view pass).taken_items ≡ end },
    ghost counted: { count ≡ length (view pass).taken_items },
}

/// All that was put on a feed, its end mark last.
#[derive(Drop)]
pub struct Receipt {
    rank: u16,
    sender: RuledSender<Item, Hand, Relay>,
    pass: Pass<Item, Hand>,
    count: usize,
    ghost on: { IsSeatAt (sends_on sender) pass },
    ghost puts: { (view pass).may_put ≡ true },
    ghost in_order: { are_in_order (view pass).put_items ≡ true },
    ghost whole: { are_ended (view pass).put_items ≡ true },
    ghost counted: { count ≡ length (view pass).put_items },
}

impl Feed {
    ghost use Rattle.std.specs.Prelude.{◌↔◌, [], ◌∷◌, ◌++◌, IsTrue, IfOk, IfErr, OnOk, Ok, Err};
    ghost use Rattle.mpicall.specs.declared.fault.Ending.TheVariants.{Sealed, Torn};
    ghost use Rattle.rankfeed.specs.declared.item.Item.TheVariants.{Entry, Mark};
    ghost use Rattle.channelfeed.specs.declared.channel.PutFault.TheVariants.{Full, Closed, Lost};
    ghost use Rattle.rankfeed.specs.Items.{IsFeed};
    ghost use Rattle.channelfeed.specs.Channels.{handed_back, SameFeed, IsTakerOf, IsReceiptOf, feed_rank, feed_capacity, sent_by, sent_whole, received_by};

    /// A feed with room for `capacity` items, and its taker.
    pub fn open(alloc: Global, rank: u16, capacity: u16) -> Result<(Feed, Taker), AllocError>
        requires { 0 < capacity }
        ensures pair { IfOk result (λ ends. IsTakerOf ends.0 ends.1) }
        ensures rank { IfOk result (λ ends. feed_rank ends.0 ≡ rank) }
        ensures feed { IfOk result (λ ends. (feed_capacity ends.0 ≡ capacity) × (sent_by ends.0 ≡ [])) }
        ensures taker { IfOk result (λ ends. received_by ends.1 ≡ []) }
    {
        let (sender, receiver, mut pass) = bounded_with::<Item, Hand, Relay, Global>(
            alloc,
            usize::from(capacity),
        )?;
        let other = sender.another::<Rights>(&mut pass);
        let feed = Feed {
            rank,
            sender,
            pass,
            count: 0,
            done: false,
        };
        let taker = Taker {
            rank,
            receiver,
            pass: other,
            count: 0,
            end: None,
        };
        Ok((feed, taker))
    }

    /// The rank whose records are put.
    pub fn rank(&self) -> u16
        ensures { result ≡ feed_rank self.now }
    {
        self.rank
    }

    /// Whether the end record was put, so that the feed takes no other record.
    pub fn is_done(&self) -> bool
        ensures { result ≡ end_the_list (sent_by self.now) }
    {
        self.done
    }

    /// Puts a record at the back, where the channel has a place for it.
    fn push<R: Wait>(&mut self, call: &Record, wait: &R) -> Result<(), PutFault>
        requires open { self.old.done ≡ false }
        requires countable { self.old.count + 2 < 2 ^ 64 }
        ensures same { SameFeed self.old self.new }
        ensures ok { OnOk result (sent_by self.new ≡ sent_by self.old ++ Entry call.now ∷ []) }
        ensures err { IfErr result (λ fault. (handed_back fault ≡ call.now) × (sent_by self.new ≡ sent_by self.old)) }
        ensures never_closed { ¬ (result ≡ Err (Closed call.now)) }
        ensures full { result ≡ Err (Full call.now) → feed_capacity self.old ≤ length (sent_by self.old) }
    {
        let sent = self
            .sender
            .try_send_as::<Puts, R>(wait, &mut self.pass, Item::Entry(*call));
        match sent {
            Ok(()) => {
                self.count += 1;
                self.done = call.ends_list();
                Ok(())
            }
            Err(TrySendError::Full(_)) => Err(PutFault::Full(*call)),
            Err(_) => Err(PutFault::Lost(*call)),
        }
    }

    /// Puts a record at the back. `Closed` comes first, `Full` only once as many records were put as the
    /// feed has room for; every refusal leaves the feed as it was.
    #[tactic(auto, using(rankfeed::proofs::ItemLemmas::item_steps))]
    pub fn try_put<R: Wait>(&mut self, call: Record, wait: &R) -> Result<(), PutFault>
        ensures same { SameFeed self.old self.new }
        ensures ok { OnOk result (sent_by self.new ≡ sent_by self.old ++ Entry call ∷ []) }
        ensures err { IfErr result (λ fault. (handed_back fault ≡ call) × (sent_by self.new ≡ sent_by self.old)) }
        ensures closed { (result ≡ Err (Closed call)) ↔ IsTrue (end_the_list (sent_by self.old)) }
        ensures full { result ≡ Err (Full call) → feed_capacity self.old ≤ length (sent_by self.old) }
    {
        if self.done {
            return Err(PutFault::Closed(call));
        }
        if self.count >= MOST_RECORDS {
            return Err(PutFault::Full(call));
        }
        self.push(&call, wait)
    }

    /// Puts a record at the back, and waits for a place. It answers no other fault than `Closed` and
    /// `Lost`.
    pub fn put<R: Wait>(&mut self, call: Record, wait: &R) -> Result<(), PutFault>
        ensures same { SameFeed self.old self.new }
        ensures ok { OnOk result (sent_by self.new ≡ sent_by self.old ++ Entry call ∷ []) }
        ensures err { IfErr result (λ fault. (handed_back fault ≡ call) × (sent_by self.new ≡ sent_by self.old)) }
        ensures closed { (result ≡ Err (Closed call)) ↔ IsTrue (end_the_list (sent_by self.old)) }
        ensures never_full { ¬ (result ≡ Err (Full call)) }
    {
        for _ in wait.forever() {
            match self.try_put(call, wait) {
                Err(PutFault::Full(_)) => thread::yield_now(),
                answer => return answer,
            }
        }
        unreachable!()
    }

    /// Puts the end mark, and waits for a place. Where the channel hands the mark back there is no
    /// receipt.
    #[tactic(auto, using(rankfeed::proofs::ItemLemmas::item_steps))]
    fn finish<R: Wait>(self, end: Ending, wait: &R) -> Result<Receipt, Unsealed>
        requires { may_follow (last_item (sent_by self)) (Mark end) ≡ true }
        ensures receipt { IfOk result (λ receipt. IsReceiptOf self receipt) }
        ensures sent { IfOk result (λ receipt. sent_whole receipt ≡ sent_by self ++ Mark end ∷ []) }
        ensures order { IfOk result (λ receipt. IsFeed (sent_whole receipt)) }
    {
        let Feed {
            rank,
            sender,
            mut pass,
            count,
            ..
        } = self;
        match sender.send_as::<Puts, R>(wait, &mut pass, Item::Mark(end)) {
            Ok(()) => Ok(Receipt {
                rank,
                sender,
                pass,
                count: count + 1,
            }),
            Err(_) => Err(Unsealed),
        }
    }

    /// Puts the end mark of a feed whose records are all put, the end record last.
    #[tactic(auto, using(rankfeed::proofs::ItemLemmas::item_steps))]
    pub fn seal<R: Wait>(self, wait: &R) -> Result<Receipt, Unsealed>
        requires { IsTrue (end_the_list (sent_by self)) }
        ensures receipt { IfOk result (λ receipt. IsReceiptOf self receipt) }
        ensures sent { IfOk result (λ receipt. sent_whole receipt ≡ sent_by self ++ Mark Sealed ∷ []) }
        ensures order { IfOk result (λ receipt. IsFeed (sent_whole receipt)) }
    {
        self.finish(Ending::Sealed, wait)
    }

    /// Puts the end mark of a feed whose records stop here.
    #[tactic(auto, using(rankfeed::proofs::ItemLemmas::item_steps))]
    pub fn tear<R: Wait>(self, fault: SourceFault, wait: &R) -> Result<Receipt, Unsealed>
        ensures receipt { IfOk result (λ receipt. IsReceiptOf self receipt) }
        ensures sent { IfOk result (λ receipt. sent_whole receipt ≡ sent_by self ++ Mark (Torn fault) ∷ []) }
        ensures order { IfOk result (λ receipt. IsFeed (sent_whole receipt)) }
    {
        self.finish(Ending::Torn(fault), wait)
    }
}

impl Taker {
    ghost use Rattle.std.specs.Prelude.{[], ◌∷◌, ◌++◌, IfSome};
    ghost use Rattle.rankfeed.specs.declared.answer.Took.TheVariants as Took;
    ghost use Rattle.rankfeed.specs.Items.{IsFeed};
    ghost use Rattle.rankfeed.specs.Answers.{Receives};
    ghost use Rattle.channelfeed.specs.Channels.{taker_rank, SameTaker, IsReceiptFor, sent_whole, received_by, left_for};

    /// The rank whose records are taken.
    pub fn rank(&self) -> u16
        ensures { result ≡ taker_rank self.now }
    {
        self.rank
    }

    /// Takes the item at the front of the channel.
    #[tactic(auto, using(rankfeed::proofs::ItemLemmas::item_steps))]
    fn pull<R: Wait>(&mut self, wait: &R) -> Option<Item>
        requires { self.old.end ≡ None }
        ensures same { SameTaker self.old self.new }
        ensures none { result ≡ None → received_by self.new ≡ received_by self.old }
        ensures some { IfSome result (λ item. received_by self.new ≡ received_by self.old ++ item ∷ []) }
        ensures left { are_ended (received_by self.old ++ left_for self.old) ≡ true → received_by self.new ++ left_for self.new ≡ received_by self.old ++ left_for self.old }
        ensures never_empty { are_ended (received_by self.old ++ left_for self.old) ≡ true → ¬ (result ≡ None) }
    {
        let Ok(item) = self.receiver.try_recv_as::<Takes, R>(wait, &mut self.pass) else {
            return None;
        };
        self.count += 1;
        self.end = item.mark();
        Some(item)
    }

    /// Takes the item at the front.
    #[tactic(auto, using(rankfeed::proofs::ItemLemmas::item_steps))]
    pub fn try_take<R: Wait>(&mut self, wait: &R) -> Took
        ensures same { SameTaker self.old self.new }
        ensures received { Receives (end_mark_of (received_by self.old)) result (received_by self.old) (received_by self.new) }
        ensures order { IsFeed (received_by self.new) }
        ensures left { are_ended (received_by self.old ++ left_for self.old) ≡ true → received_by self.new ++ left_for self.new ≡ received_by self.old ++ left_for self.old }
        ensures never_empty { are_ended (received_by self.old ++ left_for self.old) ≡ true → ¬ (result ≡ Took.Empty) }
    {
        if let Some(end) = self.end {
            return Took::of(end);
        }
        let Some(item) = self.pull(wait) else {
            return Took::Empty;
        };
        match item {
            Item::Entry(call) => Took::Record(call),
            Item::Mark(end) => Took::of(end),
        }
    }

    /// Learns what is left from the receipt of this taker's feed. From then on no call finds nothing.
    #[tactic(auto, using(rankfeed::proofs::ItemLemmas::item_steps))]
    pub fn meet<R: Wait>(&mut self, receipt: Receipt, _wait: &R) -> Met
        requires { IsReceiptFor self.old receipt }
        ensures same { SameTaker self.old self.new }
        ensures received { received_by self.new ≡ received_by self.old }
        ensures left { received_by self.new ++ left_for self.new ≡ sent_whole receipt }
        ensures whole { are_ended (received_by self.new ++ left_for self.new) ≡ true }
        ensures order { IsFeed (sent_whole receipt) }
        ensures count { result.count ≡ length (left_for self.new) }
    {
        let Receipt {
            sender,
            pass,
            count,
            ..
        } = receipt;
        sender.absorb::<Rights>(&mut self.pass, pass);
        sender.learn_as::<Takes>(&mut self.pass);
        Met {
            count: count - self.count,
        }
    }
}
