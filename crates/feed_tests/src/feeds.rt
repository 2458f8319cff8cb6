//! Feeds in both forms, over a ring and over a channel: the same steps with the same answers.

use crate::{channels, rings};
use mpicall::call::{Call, Mode, Peer};
use mpicall::fault::SourceFault;
use mpicall::line::read_line;
use mpicall::record::Record;
use rankfeed::Took;
use std::sync::Wait;
use std::test::Fail;
use std::thread;
use std::thread::Threads;

/// The end of a feed that puts, in one of the forms.
pub(crate) trait Puts: Drop + Send {
    /// Puts a record, and waits for room if it may. Tells `+`, or why the record came back: `F` full, `C` closed,
    /// `L` lost.
    fn puts<W: Wait>(&mut self, call: Record, may_wait: bool, wait: &W) -> char;

    /// Whether the end record was put.
    fn is_ended(&self) -> bool;

    /// Puts the end mark after the end record, and answers whether a receipt came.
    fn seals<W: Wait>(self, wait: &W) -> bool;
}

/// The end of a feed that takes, in one of the forms.
pub(crate) trait Takes: Drop + Send {
    fn takes<W: Wait>(&mut self, wait: &W) -> Took;
}

/// The record that a letter names.
pub(crate) fn named(letter: char) -> Option<Record> {
    let line: &[u8] = match letter {
        's' => b"send 0 0 0\n",
        'm' => b"send 0 0 0 8\n",
        'b' => b"bsend 0 0 0\n",
        'f' => b"finalize\n",
        'o' => b"open\n",
        _ => return None,
    };
    read_line(line).ok()
}

/// The letter of what was taken: that of the record, `-` nothing, `.` the seal, `x` a failed read.
pub(crate) fn letter_taken(took: Took) -> char {
    for letter in "smbfo".chars() {
        if let Some(call) = named(letter) {
            if took == Took::Record(call) {
                return letter;
            }
        }
    }
    match took {
        Took::Empty => '-',
        Took::Sealed => '.',
        Took::Torn(SourceFault::ReadFailed) => 'x',
        _ => '?',
    }
}

/// Does a step, and gives its answer. The letter of a record puts it without waiting, its capital letter by a
/// put that may wait; `t` takes; `d` asks whether the end record was put.
fn answer<P: Puts, T: Takes, W: Wait>(feed: &mut P, taker: &mut T, step: char, wait: &W) -> char {
    if step == 't' {
        return letter_taken(taker.takes(wait));
    }
    if step == 'd' {
        return if feed.is_ended() { 'y' } else { 'n' };
    }
    match named(step.to_ascii_lowercase()) {
        Some(call) => feed.puts(call, step.is_ascii_uppercase(), wait),
        None => '?',
    }
}

/// Whether each of the steps is answered by the letter after it.
pub(crate) fn plays<P: Puts, T: Takes, W: Wait>(
    mut feed: P,
    mut taker: T,
    steps: &str,
    wait: &W,
) -> bool {
    let mut is_so = true;
    for step in steps.split(' ') {
        let mut letters = step.chars();
        let what = letters.next().unwrap_or('?');
        let told = answer(&mut feed, &mut taker, what, wait);
        is_so &= letters.next() == Some(told);
    }
    is_so
}

/// Which record is put as the first, the second and so on, of a thousand sends that differ in their tags, and
/// Finalize after them.
fn nth(place: u32) -> Option<Record> {
    if place == SENDS {
        return named('f');
    }
    Record::new(Call::Send {
        mode: Mode::Standard,
        comm: 0,
        dest: Peer::Rank(1),
        tag: place,
        bytes: None,
    })
}

const SENDS: u32 = 1000;

/// Whether the nth record was taken.
fn is_nth(took: Took, place: u32) -> bool {
    match took {
        Took::Record(call) => nth(place) == Some(call),
        _ => false,
    }
}

/// Puts the nth record, and may wait for room. Whether it was put.
fn put_nth<P: Puts, W: Wait>(feed: &mut P, place: u32, may_wait: bool, wait: &W) -> bool {
    match nth(place) {
        Some(call) => feed.puts(call, may_wait, wait) == '+',
        None => false,
    }
}

/// Puts all records in one thread. Takes one before each record that finds no place, and so many before the end
/// mark. Whether each put found a place then, the end mark too, and each record was taken in its turn.
pub(crate) fn by_turns<P: Puts, T: Takes, W: Wait>(
    mut feed: P,
    mut taker: T,
    before_the_end: u32,
    wait: &W,
) -> bool {
    let mut is_so = true;
    let mut taken = 0u32;
    for place in 0..=SENDS {
        if !put_nth(&mut feed, place, false, wait) {
            is_so &= is_nth(taker.takes(wait), taken) & put_nth(&mut feed, place, false, wait);
            taken = taken.saturating_add(1);
        }
    }
    let end = taken.saturating_add(before_the_end);
    is_so &= takes_from(&mut taker, taken, end, wait);
    is_so & feed.seals(wait) & takes_from(&mut taker, end, SENDS + 1, wait) & is_sealed(taker, wait)
}

/// Takes the records from one place on to another. Whether they come in their turn.
fn takes_from<T: Takes, W: Wait>(taker: &mut T, first: u32, end: u32, wait: &W) -> bool {
    let mut is_so = true;
    for place in first..end {
        is_so &= is_nth(taker.takes(wait), place);
    }
    is_so
}

fn is_sealed<T: Takes, W: Wait>(mut taker: T, wait: &W) -> bool {
    taker.takes(wait) == Took::Sealed
}

/// Puts all records, waiting for room, and the end mark.
fn puts_all<P: Puts, W: Wait>(mut feed: P, wait: &W) -> bool {
    let mut is_so = true;
    for place in 0..=SENDS {
        is_so &= put_nth(&mut feed, place, true, wait);
    }
    is_so & feed.seals(wait)
}

/// Takes what comes next, once it came.
fn take_next<T: Takes, W: Wait>(taker: &mut T, wait: &W) -> Took {
    for _ in wait.forever() {
        let took = taker.takes(wait);
        if took != Took::Empty {
            return took;
        }
        thread::yield_now();
    }
    unreachable!()
}

/// Takes all records, waiting for each, and the end mark.
fn takes_all<T: Takes, W: Wait>(mut taker: T, wait: &W) -> bool {
    let mut is_so = true;
    for place in 0..=SENDS {
        is_so &= is_nth(take_next(&mut taker, wait), place);
    }
    is_so & (take_next(&mut taker, wait) == Took::Sealed)
}

/// Whether all records come through between two threads.
pub(crate) fn by_threads<P: Puts, T: Takes, R: Threads + Wait + Sync>(
    feed: P,
    taker: T,
    rt: &R,
) -> bool {
    let (put, taken) = thread::join(rt, || puts_all(feed, rt), || takes_all(taker, rt));
    put & taken
}

#[test]
fn steps_of_a_feed_of_two_places(rt: HostRuntime) -> Result<(), Fail> {
    for steps in [
        "t- b+ b+ bF tb dn f+ dy fC BC",
        "m+ dn o+ dy oC fC MC dy tm to",
    ] {
        let is_so = rings::play(rt.alloc(), steps, &rt)? & channels::play(rt.alloc(), steps, &rt)?;
        assert!(rt; is_so, "{steps}");
    }
    Ok(())
}

#[test]
fn what_is_left_behind_an_end(rt: HostRuntime) -> Result<(), Fail> {
    let failed = Some(SourceFault::ReadFailed);
    for (letters, fault, wanted) in [
        ("mo", None, ('m', 2, ['o', '.', '.'])),
        ("", failed, ('x', 0, ['x', 'x', 'x'])),
    ] {
        assert!(rt; rings::left(rt.alloc(), letters, fault)? == Some(wanted));
        assert!(rt; channels::left(rt.alloc(), letters, fault, &rt)? == Some(wanted));
    }
    assert!(rt; rings::is_lost(rt.alloc())? & channels::is_lost(rt.alloc(), &rt)?);
    Ok(())
}

#[test]
fn a_thousand_records_by_turns_and_between_threads(rt: HostRuntime) -> Result<(), Fail> {
    for capacity in [1, 2, 1024] {
        assert!(rt;
            rings::passes(rt.alloc(), capacity, &rt)?,
            "a ring of {capacity} places"
        );
        assert!(rt;
            channels::passes(rt.alloc(), capacity, &rt)?,
            "a channel of {capacity} places"
        );
    }
    Ok(())
}
