//! Feeds over a channel.

ghost use Rattle.std.specs.Prelude.{IfSome};
ghost use Rattle.channelfeed.specs.Channels.{SameFeed, SameTaker, IsReceiptOf};

use crate::feeds::{Puts, Takes, by_threads, by_turns, letter_taken, named, plays};
use channelfeed::channel::{Feed, PutFault, Receipt, Taker};
use mpicall::fault::SourceFault;
use mpicall::record::Record;
use rankfeed::Took;
use std::alloc::{AllocError, Global};
use std::sync::Wait;
use std::thread::Threads;

impl Puts for Feed {
    fn puts<W: Wait>(&mut self, call: Record, may_wait: bool, wait: &W) -> char {
        let put = if may_wait {
            self.put(call, wait)
        } else {
            self.try_put(call, wait)
        };
        if put == Ok(()) {
            '+'
        } else if put == Err(PutFault::Full(call)) {
            'F'
        } else if put == Err(PutFault::Closed(call)) {
            'C'
        } else if put == Err(PutFault::Lost(call)) {
            'L'
        } else {
            '?'
        }
    }

    fn is_ended(&self) -> bool {
        self.is_done()
    }

    fn seals<W: Wait>(self, wait: &W) -> bool {
        self.is_done() && self.seal(wait).is_ok()
    }
}

impl Takes for Taker {
    fn takes<W: Wait>(&mut self, wait: &W) -> Took {
        self.try_take(wait)
    }
}

/// Plays steps on a feed of two places, whose ends are those of rank 3.
pub(crate) fn play<W: Wait>(alloc: Global, steps: &str, wait: &W) -> Result<bool, AllocError> {
    let (feed, taker) = Feed::open(alloc, 3, 2)?;
    let is_of_rank = (feed.rank() == 3) & (taker.rank() == 3);
    Ok(plays(feed, taker, steps, wait) & is_of_rank)
}

/// Puts the record of a letter, if there is one.
fn put_letter(feed: &mut Feed, letter: Option<char>, wait: &impl Wait) -> bool
    ensures { SameFeed feed.old feed.new }
{
    match named(letter.unwrap_or('-')) {
        Some(call) => feed.try_put(call, wait).is_ok(),
        None => letter.is_none(),
    }
}

/// Ends a feed with a fault, or else by a seal.
fn ended(feed: Feed, fault: Option<SourceFault>, wait: &impl Wait) -> Option<Receipt>
    ensures { IfSome result (λ receipt. IsReceiptOf feed receipt) }
{
    if let Some(fault) = fault {
        return feed.tear(fault, wait).ok();
    }
    if feed.is_done() {
        feed.seal(wait).ok()
    } else {
        None
    }
}

/// What a take gives.
fn take(taker: &mut Taker, wait: &impl Wait) -> char
    ensures { SameTaker taker.old taker.new }
{
    letter_taken(taker.try_take(wait))
}

/// Puts the records of two letters, or of as many as there are, ends the feed with the fault or by a seal, takes
/// once, and has the taker meet the receipt. Tells what was taken, how many items are left by the receipt, and
/// what three takes give.
pub(crate) fn left(
    alloc: Global,
    letters: &str,
    fault: Option<SourceFault>,
    wait: &impl Wait,
) -> Result<Option<(char, usize, [char; 3])>, AllocError> {
    let mut letters = letters.chars();
    let (first, second) = (letters.next(), letters.next());
    let (mut feed, mut taker) = Feed::open(alloc, 0, 3)?;
    let are_put = put_letter(&mut feed, first, wait) & put_letter(&mut feed, second, wait);
    let Some(receipt) = ended(feed, fault, wait) else {
        return Ok(None);
    };
    let taken = take(&mut taker, wait);
    let count = taker.meet(receipt, wait).count;
    let behind = [
        take(&mut taker, wait),
        take(&mut taker, wait),
        take(&mut taker, wait),
    ];
    Ok(are_put.then_some((taken, count, behind)))
}

/// Whether a feed whose taker was dropped hands each record back and gives no receipt, and the taker of a feed that
/// was dropped finds nothing.
pub(crate) fn is_lost(alloc: Global, wait: &impl Wait) -> Result<bool, AllocError> {
    let call = Record::finalize();
    let (mut feed, taker) = Feed::open(alloc, 0, 1)?;
    drop(taker);
    let are_lost = (feed.try_put(call, wait) == Err(PutFault::Lost(call)))
        & (feed.put(call, wait) == Err(PutFault::Lost(call)))
        & feed.tear(SourceFault::ReadFailed, wait).is_err();
    let (feed, mut taker) = Feed::open(alloc, 0, 1)?;
    drop(feed);
    Ok((taker.try_take(wait) == Took::Empty) & are_lost)
}

/// Whether a thousand records come through, by turns and between threads.
/// One is taken before the end mark, which has no place of its own.
pub(crate) fn passes<R: Threads + Wait + Sync>(
    alloc: Global,
    capacity: u16,
    rt: &R,
) -> Result<bool, AllocError> {
    let (feed, taker) = Feed::open(alloc, 0, capacity.max(1))?;
    let is_so = by_turns(feed, taker, 1, rt);
    let (feed, taker) = Feed::open(alloc, 0, capacity.max(1))?;
    Ok(by_threads(feed, taker, rt) & is_so)
}
