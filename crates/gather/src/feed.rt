//! The records of one rank's source, read one by one or put on the rank's feed.

ghost use Rattle.std.specs.Prelude.{◌≡◌, ℕ, true, false, IsTrue, List, [], ◌∷◌, ◌++◌, None, Some, IfOk};
ghost use Rattle.mpicall.specs.Device.{count_if};
ghost use Rattle.mpicall.specs.Source.{coming, ended, input_of};
ghost use Rattle.mpicall.specs.declared.source.Source.{Source as SourceValue};
ghost use Rattle.rankfeed.specs.Items.{IsFeed, end_the_list};
ghost use Rattle.mpicall.specs.declared.fault.Ending.TheVariants.{Sealed};
ghost use Rattle.rankfeed.specs.declared.item.Item.{Item};
ghost use Rattle.rankfeed.specs.declared.item.Item.TheVariants.{Mark};
ghost use Rattle.rankfeed.specs.Rings.{feed_ring, sent_by, receipt_ring, sent_whole};
ghost use Rattle.mpicall.specs.Trace.{trace_of};
ghost use Rattle.gather.specs.Outcomes.{ASealedTextHasItsEndRecord};
ghost use Rattle.gather.specs.FeedContract.{IsFed, CountsReads, end_behind, is_failed_read, mark_of};
ghost use Rattle.gather.specs.Reads.{IsReading, IsNextRead};

use crate::gate::Gate;
use mpicall::device::Input;
use mpicall::fault::SourceFault;
use mpicall::record::Record;
use mpicall::source::Source;
use rankfeed::{Ending, Feed, Receipt, Unsealed};
use std::sync::Wait;

/// The end mark after records that a source has no more of: whether the last of them ended the list.
#[inline(always)]
fn end_of(done: bool) -> Ending
    ensures { result ≡ end_behind done }
{
    if done {
        Ending::Sealed
    } else {
        Ending::Torn(SourceFault::NoFinalize)
    }
}

/// Puts the end mark after the records.
fn end_with(feed: Feed, end: Ending) -> Result<Receipt, Unsealed>
    requires { end ≡ Sealed → IsTrue (end_the_list (sent_by feed)) }
    ensures name { IfOk result (λ receipt. receipt_ring receipt ≡ feed_ring feed) }
    ensures sent { IfOk result (λ receipt. sent_whole receipt ≡ sent_by feed ++ Mark end ∷ []) }
    ensures order { IfOk result (λ receipt. IsFeed (sent_whole receipt)) }
{
    match end {
        Ending::Sealed => feed.seal(),
        Ending::Torn(fault) => feed.tear(fault),
    }
}

/// Reads the next record of a rank's source into one place, for those that read many. Where the records end, it
/// answers the end mark that is to come after them. `done` says whether the last record so far ended the
/// list. The gate is asked first, by the number of the calls before.
#[inline(always)]
pub fn next_of<I: Input, G: Gate>(
    rank: u16,
    source: &mut Source<I>,
    done: bool,
    line: &mut u32,
    into: &mut Record,
    gate: &G,
) -> Option<Ending>
    requires { ended source.old ≡ None }
    ensures read { (start : SourceValue I) (items : List Item) → end_the_list items ≡ done → IsReading I.left (G.may_answer gate.now rank) start source.old items line.old
        → IsNextRead I.left (G.may_answer gate.now rank) start source.new items line.new into.new result }
    ensures going { result ≡ None → done ≡ false }
    ensures fresh { result ≡ None → ended source.new ≡ None }
    ensures sealed { result ≡ Some Sealed → done ≡ true }
    ensures count { I.failures (input_of source.new) ≡ count_if (is_failed_read result) (I.failures (input_of source.old)) }
{
    if !gate.ask(rank, *line) {
        return Some(Ending::Torn(SourceFault::GateStopped));
    }
    *line = line.saturating_add(1);
    match source.next_into(into) {
        Ok(true) if done => Some(Ending::Torn(SourceFault::TextAfterFinalize)),
        Ok(true) => None,
        Ok(false) => Some(end_of(done)),
        Err(fault) => Some(Ending::Torn(fault)),
    }
}

/// Puts the records of a rank's source on the rank's feed, with the end mark after them. Before each call
/// of the source, the one that answers its end too, it asks the gate, by the number of the calls before.
pub fn feed<I: Input, G: Gate>(
    rank: u16,
    source: &mut Source<I>,
    feed: Feed,
    gate: &G,
    wait: &impl Wait,
) -> Result<Receipt, Unsealed>
    requires fresh { ended source.old ≡ None }
    requires its_own { (feed_ring feed).rank_number ≡ rank }
    requires nothing_put { sent_by feed ≡ [] }
    ensures name { IfOk result (λ receipt. receipt_ring receipt ≡ feed_ring feed) }
    ensures order { IfOk result (λ receipt. IsFeed (sent_whole receipt)) }
    ensures fed { IfOk result (λ receipt. IsFed (coming I.left source.old) (G.may_answer gate.now rank) (sent_whole receipt)) }
    ensures count { CountsReads (I.failures (input_of source.old)) (I.failures (input_of source.new)) result }
{
    let mut feed = feed;
    let mut record = Record::finalize();
    let mut line = 0u32;
    for _ in wait.forever() {
        let done = feed.is_done();
        let end = next_of(rank, source, done, &mut line, &mut record, gate);
        if let Some(end) = end {
            return end_with(feed, end);
        }
        feed.put_copy(&record, wait);
    }
    unreachable!()
}

/// The end mark after all the records of a text is that of the text's end.
#[tactic(auto, using(crate::proofs::FedLemmas::mark_text))]
pub fn each_text_has_its_own_mark()
    ensures { (bytes : List ℕ) → mark_of (trace_of bytes).records (trace_of bytes).end ≡ (trace_of bytes).end }
{}

/// A text whose trace ends without a fault has its end record, `finalize` or `open`, as its last. So a source that
/// ends well is refused for lack of it only where others took that record before.
pub fn a_sealed_text_has_its_end_record()
    ensures { ASealedTextHasItsEndRecord }
{}
