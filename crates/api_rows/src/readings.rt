//! Readings of a run: how sends are read, and what a stricter one holds back.

ghost use Rattle.std.specs.Prelude.{◌≡◌, ◌<◌, length, OnOk};
ghost use Rattle.moves.specs.Readings.{is_no_laxer};
ghost use Rattle.callstore.specs.Recordings.{appended};

use crate::answer::Answer;
use crate::fault::Fault;
use crate::words::{first_word, number_in};
use moves::analyser::Analyser;
use moves::held_back::held_back;
use moves::reading::Reading;
use mpicall::record::Record;
use mpigroup::head::Head;
use std::alloc::{AllocError, Global};

/// The reading that a text begins with, `strict`, or `eager` and a limit; and what follows it.
fn reading_before(text: &str) -> Option<(Reading, &str)> {
    let (word, rest) = first_word(text);
    match word {
        "strict" => Some((Reading::Strict, rest)),
        "eager" => {
            let (limit, rest) = first_word(rest);
            Some((Reading::Eager(number_in(limit)?), rest))
        }
        _ => None,
    }
}

/// The reading that a text is.
pub fn reading_in(text: &str) -> Option<Reading> {
    match reading_before(text) {
        Some((reading, "")) => Some(reading),
        _ => None,
    }
}

/// Whether a reading lets no send go that the other lets wait.
fn is_no_laxer(first: Reading, second: Reading) -> bool
    ensures { result ≡ is_no_laxer first second }
{
    match (first, second) {
        (Reading::Strict, _) => true,
        (Reading::Eager(_), Reading::Strict) => false,
        (Reading::Eager(limit), Reading::Eager(greater)) => limit <= greater,
    }
}

/// Adds the calls of a rank.
fn add_calls(calls: &mut Vec<(u16, Record)>, run: &Analyser, rank: u16) -> Result<(), AllocError> {
    for place in 0..run.accepted(rank).unwrap_or(0) {
        if let Some(call) = run.record(rank, place) {
            calls.push((rank, call))?;
        }
    }
    Ok(())
}

/// All calls of a run, rank by rank.
fn calls_of(alloc: Global, run: &Analyser) -> Result<Vec<(u16, Record)>, AllocError> {
    let mut calls = Vec::new(alloc);
    for rank in 0..run.head().ranks() {
        add_calls(&mut calls, run, rank)?;
    }
    Ok(calls)
}

fn offer(run: &mut Analyser, rank: u16, call: &Record) -> Result<(), Fault>
    requires is_rank { rank < length run.old.recording }
    ensures reading { run.new.reading ≡ run.old.reading }
    ensures groups { run.new.groups ≡ run.old.groups }
    ensures ok { OnOk result (run.new.recording ≡ appended run.old.recording rank call.now) }
{
    match run.offer(rank, call) {
        Ok(()) => Ok(()),
        Err(_) => Err(Fault::Missing),
    }
}

/// Offers a call to two analysers that have the same calls so far.
fn offer_to_both(
    first: &mut Analyser,
    second: &mut Analyser,
    rank: u16,
    call: &Record,
) -> Result<(), Fault>
    requires is_rank { rank < length first.old.recording }
    requires recordings { first.old.recording ≡ second.old.recording }
    ensures first_reading { first.new.reading ≡ first.old.reading }
    ensures first_groups { first.new.groups ≡ first.old.groups }
    ensures second_reading { second.new.reading ≡ second.old.reading }
    ensures second_groups { second.new.groups ≡ second.old.groups }
    ensures recordings { OnOk result (first.new.recording ≡ second.new.recording) }
{
    offer(first, rank, call)?;
    offer(second, rank, call)
}

/// Offers calls to two analysers that have the same calls so far.
fn offer_all(
    first: &mut Analyser,
    second: &mut Analyser,
    calls: &[(u16, Record)],
) -> Result<(), Fault>
    requires recordings { first.old.recording ≡ second.old.recording }
    ensures first_reading { first.new.reading ≡ first.old.reading }
    ensures first_groups { first.new.groups ≡ first.old.groups }
    ensures second_reading { second.new.reading ≡ second.old.reading }
    ensures second_groups { second.new.groups ≡ second.old.groups }
    ensures recordings { OnOk result (first.new.recording ≡ second.new.recording) }
{
    for (rank, call) in calls {
        if *rank >= first.head().ranks() {
            return Err(Fault::Missing);
        }
        offer_to_both(first, second, *rank, call)?;
    }
    Ok(())
}

/// The ranks that the first reading holds back from where they are by the second.
fn ranks_held_back(
    alloc: Global,
    head: &[u8],
    calls: &[(u16, Record)],
    first: Reading,
    second: Reading,
) -> Result<Vec<u16>, Fault> {
    if !is_no_laxer(first, second) {
        return Err(Fault::Missing);
    }
    let Ok(first_head) = Head::read(alloc, head) else {
        return Err(Fault::Unread);
    };
    let Ok(second_head) = Head::read(alloc, head) else {
        return Err(Fault::Unread);
    };
    let Ok(mut stricter) = Analyser::new(alloc, first_head, first) else {
        return Err(Fault::Memory);
    };
    let Ok(mut laxer) = Analyser::new(alloc, second_head, second) else {
        return Err(Fault::Memory);
    };
    offer_all(&mut stricter, &mut laxer, calls)?;
    match held_back(alloc, &stricter, &laxer) {
        Ok(ranks) => Ok(ranks),
        Err(_) => Err(Fault::Memory),
    }
}

/// The ranks of a run that the first of two readings holds back, over the calls that were offered to it.
fn held_ranks(alloc: Global, head: &[u8], run: &Analyser, text: &str) -> Result<Vec<u16>, Fault> {
    let (first, rest) = reading_before(text).ok_or(Fault::Unread)?;
    let second = reading_in(rest).ok_or(Fault::Unread)?;
    match calls_of(alloc, run) {
        Ok(calls) => ranks_held_back(alloc, head, &calls, first, second),
        Err(_) => Err(Fault::Memory),
    }
}

/// What the first of two readings holds back of a run's ranks.
pub fn tell_held_back(answer: &mut Answer, head: &[u8], run: &Analyser, text: &str) {
    match held_ranks(answer.alloc(), head, run, text) {
        Ok(ranks) => answer.numbers(&ranks),
        Err(fault) => answer.fail(fault),
    }
}
