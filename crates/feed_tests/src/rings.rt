//! Feeds over a ring.

ghost use Rattle.std.specs.Prelude.{◌≡◌, IfSome};
ghost use Rattle.rankfeed.specs.Rings.{feed_ring, receipt_ring, taker_ring};

use crate::feeds::{Puts, Takes, by_threads, by_turns, letter_taken, named, plays};
use mpicall::fault::SourceFault;
use mpicall::record::Record;
use rankfeed::{Came, Feed, PutFault, Receipt, Taker, Took};
use std::alloc::{AllocError, Global};
use std::sync::Wait;
use std::test::Fail;
use std::thread::Threads;

impl Puts for Feed {
    fn puts<W: Wait>(&mut self, call: Record, may_wait: bool, wait: &W) -> char {
        let put = if may_wait {
            self.put(call, wait)
        } else {
            self.try_put(call)
        };
        if put == Ok(()) {
            '+'
        } else if put == Err(PutFault::Full(call)) {
            'F'
        } else if put == Err(PutFault::Closed(call)) {
            'C'
        } else {
            '?'
        }
    }

    fn is_ended(&self) -> bool {
        self.is_done()
    }

    fn seals<W: Wait>(self, _wait: &W) -> bool {
        self.is_done() && self.seal().is_ok()
    }
}

impl Takes for Taker {
    fn takes<W: Wait>(&mut self, _wait: &W) -> Took {
        self.try_take()
    }
}

/// Plays steps on a feed of two places, whose ends are those of rank 3.
pub(crate) fn play<W: Wait>(alloc: Global, steps: &str, wait: &W) -> Result<bool, AllocError> {
    let (feed, taker) = Feed::open(alloc, 3, 2)?;
    let is_of_rank = (feed.rank() == 3) & (taker.rank() == 3);
    Ok(plays(feed, taker, steps, wait) & is_of_rank)
}

/// Puts the record of a letter, if there is one.
fn put_letter(feed: &mut Feed, letter: Option<char>) -> bool
    ensures { feed_ring feed.new ≡ feed_ring feed.old }
{
    match named(letter.unwrap_or('-')) {
        Some(call) => feed.try_put(call).is_ok(),
        None => letter.is_none(),
    }
}

/// Ends a feed with a fault, or else by a seal.
fn ended(feed: Feed, fault: Option<SourceFault>) -> Option<Receipt>
    ensures { IfSome result (λ receipt. receipt_ring receipt ≡ feed_ring feed) }
{
    if let Some(fault) = fault {
        return feed.tear(fault).ok();
    }
    if feed.is_done() {
        feed.seal().ok()
    } else {
        None
    }
}

/// What a take gives.
fn take(taker: &mut Taker) -> char
    ensures { taker_ring taker.new ≡ taker_ring taker.old }
{
    letter_taken(taker.try_take())
}

/// Puts the records of two letters, or of as many as there are, ends the feed with the fault or by a seal, takes
/// once, and has the taker meet the receipt. Tells what was taken, how many items are left by the receipt, and
/// what three takes give.
pub(crate) fn left(
    alloc: Global,
    letters: &str,
    fault: Option<SourceFault>,
) -> Result<Option<(char, usize, [char; 3])>, AllocError> {
    let mut letters = letters.chars();
    let (first, second) = (letters.next(), letters.next());
    let (mut feed, mut taker) = Feed::open(alloc, 0, 3)?;
    let are_put = put_letter(&mut feed, first) & put_letter(&mut feed, second);
    let Some(receipt) = ended(feed, fault) else {
        return Ok(None);
    };
    let taken = take(&mut taker);
    let count = taker.meet(receipt).count;
    let behind = [take(&mut taker), take(&mut taker), take(&mut taker)];
    Ok(are_put.then_some((taken, count, behind)))
}

/// Whether a feed whose taker was dropped gives no receipt, and the taker of a feed that was dropped finds nothing.
pub(crate) fn is_lost(alloc: Global) -> Result<bool, AllocError> {
    let (feed, taker) = Feed::open(alloc, 0, 1)?;
    drop(taker);
    let is_unsealed = feed.tear(SourceFault::ReadFailed).is_err();
    let (feed, mut taker) = Feed::open(alloc, 0, 1)?;
    drop(feed);
    Ok((taker.try_take() == Took::Empty) & is_unsealed)
}

/// Whether a thousand records come through, by turns and between threads. The end mark has a place of its own.
pub(crate) fn passes<R: Threads + Wait + Sync>(
    alloc: Global,
    capacity: u16,
    rt: &R,
) -> Result<bool, AllocError> {
    let (feed, taker) = Feed::open(alloc, 0, capacity.max(1))?;
    let is_so = by_turns(feed, taker, 0, rt);
    let (feed, taker) = Feed::open(alloc, 0, capacity.max(1))?;
    Ok(by_threads(feed, taker, rt) & is_so)
}

/// The record at the front, which is passed.
fn front_of(taker: &mut Taker) -> Option<Record> {
    match taker.look() {
        Came::Record => {
            let front = *taker.front();
            taker.pass();
            Some(front)
        }
        _ => None,
    }
}

#[test]
fn a_record_stands_at_the_front(rt: HostRuntime) -> Result<(), Fail> {
    let send = named('s').ok_or("a send")?;
    let finalize = Record::finalize();
    let (mut feed, mut taker) = Feed::open(rt.alloc(), 0, 2)?;
    let is_empty = taker.look() == Came::Empty;
    let puts = [
        feed.put_copy(&send, &rt),
        feed.put_copy(&finalize, &rt),
        feed.put_copy(&send, &rt),
    ];
    let fronts = [front_of(&mut taker), front_of(&mut taker)];
    assert!(rt;
        is_empty & (puts == [true, true, false]) & (fronts == [Some(send), Some(finalize)])
    );
    Ok(())
}
