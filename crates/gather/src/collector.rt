//! The collector: it takes the records of all ranks from their feeds, in any order.
//!
//! What is kept depends on the items alone, and not on sources: who fills a feed is another promise
//! (`IsFed`). Both meet where the receipts are handed to `close`.

ghost use Rattle.std.specs.Prelude.{◌≡◌, ◌<◌, Some, None, false, length, map, slice_get, IfSome};
ghost use Rattle.rankfeed.specs.Rings.{taker_ring, receipt_ring};
ghost use Rattle.gather.specs.inner.Takers.{Collects, EntersNext};
ghost use Rattle.gather.specs.inner.Receipts.{Meets};
ghost use Rattle.watches.specs.Publications.{ArePassed};
ghost use Rattle.watches.specs.Publishers.{published_by};

use crate::ledger::Ledger;
pub use crate::ledger::Stepped;
use crate::outcome::{CloseFault, Outcome};
use moves::analyser::Analyser;
use rankfeed::{Came, Receipt, Taker};
use std::alloc::Global;
use std::sync::Wait;
pub use watches::publisher::PublishFault;
use watches::publisher::Publisher;
use watches::stands::Stands;
use watches::watch::{Told, Watch};

/// The takers of all ranks' feeds, and what is kept of the records that came.
///
/// Unless memory ran out, each rank's calls are its records before its first fault, and that fault is kept
/// with its place, whatever the order in which the ranks' records came.
pub struct Collector {
    alloc: Global,
    takers: Vec<Taker>,
    ledger: Ledger,
    publisher: Publisher,
    ghost collects: { Collects takers.items ledger },
    ghost passed: { ArePassed ledger.reading ledger.groups ledger.recording (published_by publisher) },
}

// By hand: a derived drop is proved again at each exit of a function that owns one.
impl Drop for Collector {
    fn drop(self) {
        let Collector {
            alloc: _,
            takers: _,
            ledger: _,
            publisher: _,
        } = self;
    }
}

/// Takes the item at the front of a rank's feed, and enters it. A record is looked at in its place.
fn enter_next(taker: &mut Taker, ledger: &mut Ledger, rank: u16) -> Stepped
    requires { rank < length ledger.old.recording }
    ensures { EntersNext rank taker.old ledger.old result taker.new ledger.new }
{
    match taker.look() {
        Came::Record => {
            let stepped = ledger.enter(rank, taker.front());
            taker.pass();
            stepped
        }
        Came::Empty => Stepped::Empty,
        Came::Sealed => Stepped::Ended,
        Came::Torn(fault) => {
            ledger.tear(rank, fault);
            Stepped::Ended
        }
    }
}

/// Tells the taker of a rank's feed what is left, by the feed's receipt.
fn meet_at(takers: &mut Vec<Taker>, rank: u16, receipt: Receipt)
    requires { slice_get (map taker_ring takers.old.items) rank ≡ Some (receipt_ring receipt) }
    ensures { Meets rank receipt takers.old.items takers.new.items }
{
    takers[usize::from(rank)].meet(receipt);
}

/// The rank without a receipt, which lack of memory hides.
fn unproved(ledger: &Ledger, missing: Option<u16>) -> Option<u16>
    ensures some { IfSome result (λ rank. missing ≡ Some rank) }
    ensures calm { IfSome result (λ rank. ledger.now.wanted ≡ false) }
    ensures none { result ≡ None → ledger.now.wanted ≡ false → missing ≡ None }
{
    if ledger.is_wanting() { None } else { missing }
}

impl Collector {
    ghost use Rattle.std.specs.Prelude.{◌++◌, true, Err, Option};
    ghost use Rattle.rankfeed.specs.Items.{are_ended, IsFeed};
    ghost use Rattle.gather.specs.Takers.{received_in};
    ghost use Rattle.gather.specs.Receipts.{AreAllOf, AreReceiptsOf, AllReceived, first_missing};
    ghost use Rattle.gather.specs.Closes.{Closes};
    ghost use Rattle.gather.specs.declared.outcome.CloseFault.TheVariants.{Memory, Unproved};
    ghost use Rattle.rankfeed.specs.declared.ring.Receipt.{Receipt as ReceiptValue};
    ghost use mathlib.Core.List.{IsPrefix};
    ghost use Rattle.std.specs.Prelude.{List, IfOk, OnOk, OnErr};
    ghost use Rattle.gather.specs.Collectors.{rings, kept, received_from, left_from, Steps, KeepsWhatCame, IsFinished};
    ghost use Rattle.gather.specs.inner.Collectors.{ReceivesFrom};
    ghost use Rattle.gather.specs.Collectors.{published, list_published, has_watches, stands_now, ShowsTheLast, PublishesRuns, TakesNothing, PublishesNothing};
    ghost use Rattle.watches.specs.Publications.{Publishes, AreRising, last_published};
    ghost use Rattle.watches.specs.Stands.{IsPassed};
    ghost use Rattle.watches.specs.Watches.{publications_told, list_told, seen_by, list_watched, AnswersBy};

    /// The collector of these takers, of which this much is kept, and of what publishes.
    pub(crate) fn of(
        alloc: Global,
        takers: Vec<Taker>,
        ledger: Ledger,
        publisher: Publisher,
    ) -> Collector
        requires collects { Collects takers.items ledger }
        requires passed { ArePassed ledger.reading ledger.groups ledger.recording (published_by publisher) }
        ensures rings { rings result ≡ map taker_ring takers.items }
        ensures received { received_from result ≡ received_in takers.items }
        ensures kept { kept result ≡ ledger }
        ensures publisher { result.publisher ≡ publisher }
    {
        Collector {
            alloc,
            takers,
            ledger,
            publisher,
        }
    }

    /// Takes one item at most from the feed of a rank. Then what is kept is what came so far. It publishes nothing.
    #[tactic(auto, using(crate::proofs::CollectedLemmas::keeps_what_came))]
    pub fn step(&mut self, rank: u16) -> Stepped
        requires { rank < length (rings self.old) }
        ensures step { Steps rank self.old result self.new }
        ensures collects { KeepsWhatCame self.new }
        ensures publishes { PublishesNothing self.old self.new }
        ensures passed { PublishesRuns self.new }
    {
        let taker = &mut self.takers[usize::from(rank)];
        enter_next(taker, &mut self.ledger, rank)
    }

    /// Publishes where the ranks stand now over what is kept, and answers it. Where they stand as they did at
    /// the last publication, that is answered again. It may wait for a watch that is being read, takes no
    /// memory, and never fails. Without watches the stands are recorded and answered all the same.
    pub fn publish(&mut self, wait: &impl Wait) -> Result<Told, PublishFault>
        ensures succeeds { OnErr result ⊥ }
        ensures published { OnOk result (Publishes (stands_now self.old) (published self.old) (published self.new)) }
        ensures rising { AreRising (published self.new) }
        ensures told { IfOk result (λ told. publications_told told ≡ published self.new) }
        ensures list_told { IfOk result (λ told. list_told told ≡ list_published self.new) }
        ensures list { list_published self.new ≡ list_published self.old }
        ensures shows { ShowsTheLast self.new }
        ensures watched { has_watches self.new ≡ has_watches self.old }
        ensures passed { PublishesRuns self.new }
        ensures nothing_taken { TakesNothing self.old self.new }
    {
        let mut stands = Stands::at_start();
        stands.set(self.ledger.analyser());
        self.publisher.publish(&stands, wait)
    }

    /// A watch of this session shows what was published: what it has seen begins the publications, so it answers by
    /// one of them, a state that some run over what is kept passes. That holds at any time; nothing is asked.
    pub fn published_all_seen(&self, watch: &Watch)
        requires { list_watched watch.now ≡ list_published self.now }
        ensures seen { IsPrefix (seen_by watch.now) (published self.now) }
        ensures answers { AnswersBy (published self.now) watch.now }
        ensures passed { IfSome (last_published (seen_by watch.now)) (λ stands. IsPassed (kept self.now).reading (kept self.now).groups (kept self.now).recording stands.places) }
    {
        self.publisher.published_all_seen(watch);
    }

    /// Shows nothing to watches from now on, and gives back what they read. It waits for those that are being
    /// read. A collector that is closed without it leaves the last publication up for good.
    pub fn withdraw(&mut self, wait: &impl Wait)
        ensures list { list_published self.new ≡ list_published self.old }
        ensures published { published self.new ≡ published self.old }
        ensures watched { has_watches self.new ≡ false }
        ensures nothing_taken { TakesNothing self.old self.new }
    {
        self.publisher.withdraw(wait);
    }

    /// Takes all that is left on a rank's feed, whose receipt was met.
    fn drain(&mut self, rank: u16)
        requires is_rank { rank < length (rings self.old) }
        requires known { are_ended (received_from self.old rank ++ left_from self.old rank) ≡ true }
        requires in_order { IsFeed (received_from self.old rank ++ left_from self.old rank) }
        ensures only { ReceivesFrom rank self.old self.new }
        ensures all { received_from self.new rank ≡ received_from self.old rank ++ left_from self.old rank }
    {
        loop {
            match self.step(rank) {
                Stepped::Ended => return,
                Stepped::Took | Stepped::Refused | Stepped::Discarded | Stepped::Empty => {}
            }
        }
    }

    /// Takes all that was sent on a rank's feed, by the feed's receipt.
    fn finish(&mut self, rank: u16, receipt: Receipt)
        requires { slice_get (rings self.old) rank ≡ Some (receipt_ring receipt) }
        ensures only { ReceivesFrom rank self.old self.new }
        ensures all { AreAllOf receipt (received_from self.new rank) }
    {
        meet_at(&mut self.takers, rank, receipt);
        self.drain(rank);
    }

    /// The number of ranks. At any time what is kept is what came so far.
    #[tactic(auto, using(crate::proofs::CollectedLemmas::keeps_what_came))]
    pub fn ranks(&self) -> u16
        ensures value { result ≡ length (rings self.now) }
        ensures collects { KeepsWhatCame self.now }
    {
        self.ledger.ranks()
    }

    /// The analyser of the records that were accepted so far.
    pub fn analyser(&self) -> &Analyser
        ensures reading { result.now.reading ≡ (kept self.now).reading }
        ensures groups { result.now.groups ≡ (kept self.now).groups }
        ensures recording { result.now.recording ≡ (kept self.now).recording }
    {
        self.ledger.analyser()
    }

    /// Takes all that was sent on the feeds that have a receipt, in rank order, and answers the lowest rank
    /// without one. That is the first half of `close`, for those who want to see what is kept then.
    #[tactic(auto, using(crate::proofs::CollectedLemmas::keeps_what_came))]
    pub fn finish_all(&mut self, receipts: Vec<Option<Receipt>>) -> Option<u16>
        requires { AreReceiptsOf (rings self.old) receipts.items }
        ensures names { rings self.new ≡ rings self.old }
        ensures missing { result ≡ first_missing receipts.items }
        ensures reading { (kept self.new).reading ≡ (kept self.old).reading }
        ensures groups { (kept self.new).groups ≡ (kept self.old).groups }
        ensures wanted { (kept self.old).wanted ≡ true → (kept self.new).wanted ≡ true }
        ensures all { AllReceived receipts.items (received_from self.new) }
        ensures list { list_published self.new ≡ list_published self.old }
        ensures published { published self.new ≡ published self.old }
        ensures watched { has_watches self.new ≡ has_watches self.old }
        ensures passed { PublishesRuns self.new }
        ensures collects { KeepsWhatCame self.new }
    {
        let mut missing = None;
        let mut receipts = receipts.into_iter();
        for rank in 0..self.ranks() {
            let Some(receipt) = receipts.next() else {
                unreachable!()
            };
            match receipt {
                Some(receipt) => self.finish(rank, receipt),
                None => missing = missing.or(Some(rank)),
            }
        }
        missing
    }

    /// What is kept, where no more is taken.
    fn into_ledger(self) -> Ledger
        ensures { result ≡ kept self }
    {
        let Collector {
            alloc: _,
            takers: _,
            ledger,
            publisher: _,
        } = self;
        ledger
    }

    /// What comes of all that was taken by receipts, where this is the lowest rank without one: the second half of
    /// `close`. `Memory` comes first, where memory ran out; then `Unproved`, for that rank; then `Refused`,
    /// for the lowest rank that has a fault.
    pub fn conclude(self, missing: Option<u16>) -> Result<Outcome, CloseFault>
        requires { (receipts : List (Option ReceiptValue)) × IsFinished self receipts missing }
        ensures answer { (receipts : List (Option ReceiptValue)) → IsFinished self receipts missing → Closes (kept self).reading (kept self).groups receipts result }
        ensures wanting { (kept self).wanted ≡ true → result ≡ Err Memory }
        ensures unproved { (kept self).wanted ≡ false → IfSome missing (λ rank. result ≡ Err (Unproved rank)) }
    {
        let alloc = self.alloc;
        let ledger = self.into_ledger();
        match unproved(&ledger, missing) {
            Some(rank) => Err(CloseFault::Unproved(rank)),
            None => ledger.conclude(alloc),
        }
    }

    /// Takes all that was sent, by the receipts of the ranks' feeds, and answers what comes of it, as `finish_all`
    /// and `conclude` say: `Memory` first, where memory ran out before or within this call; then `Unproved`,
    /// for the lowest rank without a receipt; then `Refused`, for the lowest rank that has a fault. An
    /// outcome has each rank's calls once, in their order, and none after the rank's end record.
    pub fn close(self, receipts: Vec<Option<Receipt>>) -> Result<Outcome, CloseFault>
        requires { AreReceiptsOf (rings self) receipts.items }
        ensures answer { Closes (kept self).reading (kept self).groups receipts.items result }
        ensures wanting { (kept self).wanted ≡ true → result ≡ Err Memory }
    {
        let mut collector = self;
        let missing = collector.finish_all(receipts);
        collector.conclude(missing)
    }
}
