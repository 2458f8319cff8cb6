//! What an analyser is offered, and where its ranks stand.

use crate::answer::Answer;
use crate::calls::{calls_in, record_of};
use crate::fault::Fault;
use moves::analyser::{Analyser, OfferFault};
use moves::reading::Reading;
use mpicall::record::Record;
use mpigroup::head::Head;
use std::alloc::Global;

/// An analyser without calls, of the ranks and groups of a head.
pub fn begin(alloc: Global, head: &[u8], reading: Reading) -> Result<Analyser, Fault> {
    let Ok(head) = Head::read(alloc, head) else {
        return Err(Fault::Unread);
    };
    match Analyser::new(alloc, head, reading) {
        Ok(run) => Ok(run),
        Err(_) => Err(Fault::Memory),
    }
}

/// Offers a call, answers why it is refused, if it is, and answers whether it was taken.
fn offer_call(answer: &mut Answer, run: &mut Analyser, rank: u16, call: &Record) -> bool {
    if rank >= run.head().ranks() {
        answer.fail(Fault::Missing);
        return false;
    }
    match run.offer(rank, call) {
        Ok(()) => true,
        Err(OfferFault::Refused(fault)) => {
            answer.put("refused ");
            answer.coded(fault.code(), &fault);
            false
        }
        Err(OfferFault::Memory) => {
            answer.fail(Fault::Memory);
            false
        }
    }
}

/// Offers calls, up to the first that is refused.
fn offer_calls(answer: &mut Answer, run: &mut Analyser, calls: &[(u16, Record)]) -> bool {
    for (rank, call) in calls {
        if !offer_call(answer, run, *rank, call) {
            return false;
        }
    }
    true
}

/// Offers the calls of a text, so many times.
pub fn offer(answer: &mut Answer, run: &mut Analyser, times: u32, text: &str) {
    match calls_in(answer.alloc(), text) {
        Ok(calls) => offer_times(answer, run, times, &calls),
        Err(fault) => answer.fail(fault),
    }
}

fn offer_times(answer: &mut Answer, run: &mut Analyser, times: u32, calls: &[(u16, Record)]) {
    for _ in 0..times {
        if !offer_calls(answer, run, calls) {
            return;
        }
    }
    answer.put("ok");
}

/// Offers a rank's call so many times, and then its Finalize.
fn offer_list(
    answer: &mut Answer,
    run: &mut Analyser,
    rank: u16,
    call: &Record,
    times: u32,
) -> bool {
    for _ in 0..times {
        if !offer_call(answer, run, rank, call) {
            return false;
        }
    }
    offer_call(answer, run, rank, &Record::finalize())
}

/// Offers of each rank, the last one first, a call so many times, and then its Finalize.
pub fn offer_of_all(answer: &mut Answer, run: &mut Analyser, times: u32, line: &str) {
    match record_of(answer.alloc(), line) {
        Ok(call) => offer_lists(answer, run, times, &call),
        Err(fault) => answer.fail(fault),
    }
}

fn offer_lists(answer: &mut Answer, run: &mut Analyser, times: u32, call: &Record) {
    for rank in (0..run.head().ranks()).rev() {
        if !offer_list(answer, run, rank, call, times) {
            return;
        }
    }
    answer.put("ok");
}

/// Adds where the ranks stand.
pub fn tell_stands(answer: &mut Answer, run: &Analyser) {
    for rank in 0..run.head().ranks() {
        answer.separate(" ");
        answer.number("", run.stand(rank).unwrap_or(0));
    }
}
